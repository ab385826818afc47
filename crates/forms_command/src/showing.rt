//! The command `forms`.
ghost use Rattle.std.specs.Prelude.{◌≡◌, ℕ, List, length, Option, IfOk};
ghost use Rattle.forms.specs.Tree.{tree};
ghost use Rattle.forms.specs.Proper.{IsProper};
ghost use Rattle.command_endings.specs.Endings.{status_of};
ghost use Rattle.command_endings.specs.Tasks.{Performs};
ghost use Rattle.command_endings.specs.Worlds.{Contents, world};
ghost use Rattle.command_endings.specs.Writing.{Writes};
ghost use Rattle.forms_command.specs.Showing.{form_lines, forms_task};

use bes_io::{Memory, Sink, Text};
use command_endings::{Ending, put_all, read_formula};
use form_printer::print_form;
use form_tokens::{Dialect, Names};
use forms::{Form, nnf};
use std::alloc::Global;

/// The two lines of a formula.
fn shown_text(alloc: Global, form: &Form, names: &Names) -> Result<Text, Memory>
    requires { IsProper (length names.now.names) (tree form.now) }
    ensures { IfOk result (λ text. text ≡ form_lines names.now.names (tree form.now)) }
{
    let normal = nnf(alloc, form)?;
    let read = print_form(alloc, form, names)?;
    let pushed = print_form(alloc, &normal, names)?;
    let mut text = Text::new(alloc);
    text.push(b"form ")?;
    text.push(read.bytes())?;
    text.push(b"\nnnf ")?;
    text.push(pushed.bytes())?;
    text.push(b"\n")?;
    Ok(text)
}

/// Puts the formula as it was read, and its negation normal form.
pub fn show_formula<O: Sink>(alloc: Global, dialect: Dialect, text: &[u8], out: &mut O) -> Ending
    ensures performs { (contents : Option Contents) (failed : List (List ℕ)) (left : Option (List ℕ)) (reads : ℕ) →
        Performs (forms_task dialect text.now) (world contents failed left reads (O.held out.old) (O.faults out.old))
        (world contents failed left reads (O.held out.new) (O.faults out.new)) result }
    ensures writes { (contents : Option Contents) (failed : List (List ℕ)) (left : Option (List ℕ)) (reads : ℕ) →
        Writes O.IsPut (forms_task dialect text.now) (world contents failed left reads (O.held out.old) (O.faults out.old))
        (world contents failed left reads (O.held out.new) (O.faults out.new)) out.old out.new (status_of result) }
{
    let (form, names) = match read_formula(alloc, dialect, text) {
        Ok(read) => read,
        Err(ending) => return ending,
    };
    match shown_text(alloc, &form, &names) {
        Ok(text) => put_all(text.bytes(), Ending::Positive, out),
        Err(_) => Ending::NoMemory,
    }
}
