//! Formulas as texts that are read back as themselves.
ghost use Rattle.std.specs.Prelude.{◌≡◌, ◌≤◌, ◌++◌, IfOk, OnOk, length, Some, option_map};
ghost use Rattle.forms.specs.Tree.{tree, program, Star};
ghost use Rattle.forms.specs.Parts as listed;
ghost use Rattle.forms.specs.Proper.{IsProper, IsProperProgram};
ghost use Rattle.form_printer.specs.Printed as texts;
ghost use Rattle.form_printer.specs.Printed.{printed, printed_path, printed_joined, printed_paths, printed_modal, in_braces};
ghost use Rattle.form_tokens.specs.Names.{Table};
ghost use Rattle.form_printer.specs.ReadBack.{AreNumberedIn, ReadsBack};

use crate::searching::find_part;
use bes_io::{Memory, Text};
use form_tokens::Names;
use forms::{Form, Path};
use std::alloc::Global;

/// The text of a formula: prefix operators before their operand, binary ones between theirs in brackets. Reading it with
/// these names gives the formula again, unless the text passes the limits of the reader or the formula has operators of
/// both dialects. Goes one level deeper for each level of the tree.
pub fn print_form(alloc: Global, form: &Form, names: &Names) -> Result<Text, Memory>
    requires proper { IsProper (length names.now.names) (tree form.now) }
    ensures text { IfOk result (λ text. text ≡ printed names.now.names (tree form.now)) }

    // Within the limits of the reader, the names read the text back as the formula.
    ensures reads { IfOk result (λ text. ReadsBack names.now text (tree form.now)) }

    // So does any table in which each of the names has the same number.
    ensures reads_elsewhere { IfOk result (λ text. (others : Table) → AreNumberedIn names.now.names others.names
        → ReadsBack others text (tree form.now)) }
{
    // Reading back rests on the names being different, which `len` ensures.
    prove!(names.len() <= 32);
    let mut text = Text::new(alloc);
    print(&mut text, form, names)?;
    Ok(text)
}

/// The text of one part of a formula. The parts are its subformulas, each occurrence by itself, counted from 1: those of
/// the tests of its paths and of its operands before the formula itself, from left to right.
pub fn print_part(alloc: Global, form: &Form, part: u64, names: &Names) -> Result<Text, Memory>
    requires proper { IsProper (length names.now.names) (tree form.now) }
    requires part { (1 ≤ part) × (part ≤ length (listed.parts (tree form.now))) }
    ensures text { IfOk result (λ text. option_map (printed names.now.names) (listed.part (tree form.now) part) ≡ Some text) }
{
    match find_part(form, part) {
        Ok(found) => print_form(alloc, found, names),
        Err(_) => unreachable!(),
    }
}

/// Appends the text of a formula.
#[cycle(print)]
fn print(text: &mut Text, form: &Form, names: &Names) -> Result<(), Memory>
    requires { IsProper (length names.now.names) (tree form.now) }
    ensures { OnOk result (text.new ≡ text.old ++ printed names.now.names (tree form.now)) }
{
    match form {
        Form::True => text.push(b"true"),
        Form::False => text.push(b"false"),
        Form::Atom(i) => text.push(names.name(*i)),
        Form::Not(f) => print_behind(text, b"!", f, names),
        Form::And(f, g) => print_joined(text, f, b" & ", g, names),
        Form::Or(f, g) => print_joined(text, f, b" | ", g, names),
        Form::Implies(f, g) => print_joined(text, f, b" -> ", g, names),
        Form::Iff(f, g) => print_joined(text, f, b" <-> ", g, names),
        Form::Next(f) => print_behind(text, b"X ", f, names),
        Form::WeakNext(f) => print_behind(text, b"N ", f, names),
        Form::Until(f, g) => print_joined(text, f, b" U ", g, names),
        Form::Release(f, g) => print_joined(text, f, b" R ", g, names),
        Form::Eventually(f) => print_behind(text, b"F ", f, names),
        Form::Always(f) => print_behind(text, b"G ", f, names),
        Form::Diamond(p, f) => print_modal(text, b"<", p, b">", f, names),
        Form::BoxAll(p, f) => print_modal(text, b"[", p, b"]", f, names),
    }
}

/// Appends a sign and the formula behind it.
#[cycle(print)]
fn print_behind(text: &mut Text, sign: &[u8], form: &Form, names: &Names) -> Result<(), Memory>
    requires { IsProper (length names.now.names) (tree form.now) }
    ensures { OnOk result (text.new ≡ text.old ++ (sign.now ++ printed names.now.names (tree form.now))) }
{
    text.push(sign)?;
    print(text, form, names)
}

/// Appends two formulas in brackets with the sign between them.
#[cycle(print)]
fn print_joined(
    text: &mut Text,
    left: &Form,
    sign: &[u8],
    right: &Form,
    names: &Names,
) -> Result<(), Memory>
    requires left { IsProper (length names.now.names) (tree left.now) }
    requires right { IsProper (length names.now.names) (tree right.now) }
    ensures { OnOk result (text.new ≡ text.old ++ printed_joined names.now.names (tree left.now) sign.now (tree right.now)) }
{
    text.push(b"(")?;
    print(text, left, names)?;
    text.push(sign)?;
    print(text, right, names)?;
    text.push(b")")
}

/// Appends a path between its brackets and the formula behind it.
#[cycle(print)]
fn print_modal(
    text: &mut Text,
    opening: &[u8],
    path: &Path,
    closing: &[u8],
    form: &Form,
    names: &Names,
) -> Result<(), Memory>
    requires path { IsProperProgram (length names.now.names) (program path.now) }
    requires form { IsProper (length names.now.names) (tree form.now) }
    ensures { OnOk result (text.new
        ≡ text.old ++ printed_modal names.now.names opening.now (program path.now) closing.now (tree form.now)) }
{
    text.push(opening)?;
    print_path(text, path, names)?;
    text.push(closing)?;
    print(text, form, names)
}

/// Appends the text of a path.
#[cycle(print)]
fn print_path(text: &mut Text, path: &Path, names: &Names) -> Result<(), Memory>
    requires { IsProperProgram (length names.now.names) (program path.now) }
    ensures { OnOk result (text.new ≡ text.old ++ printed_path names.now.names (program path.now)) }
{
    match path {
        Path::Step(f) => print_held(text, f, names),
        Path::Test(f) => {
            print_held(text, f, names)?;
            text.push(b"?")
        }
        Path::Choice(p, q) => print_paths(text, p, b" + ", q, names),
        Path::Seq(p, q) => print_paths(text, p, b" ; ", q, names),
        Path::Star(p) => print_starred(text, p, names),
    }
}

/// Appends what a step or a test holds.
#[cycle(print)]
fn print_held(text: &mut Text, form: &Form, names: &Names) -> Result<(), Memory>
    requires { IsProper (length names.now.names) (tree form.now) }
    ensures { OnOk result (text.new ≡ text.old ++ in_braces (tree form.now) (printed names.now.names (tree form.now))) }
{
    if is_bare(form) {
        return print(text, form, names);
    }
    text.push(b"{")?;
    print(text, form, names)?;
    text.push(b"}")
}

/// Whether the formula is a constant or an atom.
fn is_bare(form: &Form) -> bool
    ensures { result ≡ texts.is_bare (tree form.now) }
{
    matches!(form, Form::True | Form::False | Form::Atom(_))
}

/// Appends two paths in brackets with the sign between them.
#[cycle(print)]
fn print_paths(
    text: &mut Text,
    left: &Path,
    sign: &[u8],
    right: &Path,
    names: &Names,
) -> Result<(), Memory>
    requires left { IsProperProgram (length names.now.names) (program left.now) }
    requires right { IsProperProgram (length names.now.names) (program right.now) }
    ensures { OnOk result (text.new ≡ text.old ++ printed_paths names.now.names (program left.now) sign.now (program right.now)) }
{
    text.push(b"(")?;
    print_path(text, left, names)?;
    text.push(sign)?;
    print_path(text, right, names)?;
    text.push(b")")
}

/// Appends a path and a star behind it.
#[cycle(print)]
fn print_starred(text: &mut Text, path: &Path, names: &Names) -> Result<(), Memory>
    requires { IsProperProgram (length names.now.names) (program path.now) }
    ensures { OnOk result (text.new ≡ text.old ++ printed_path names.now.names (Star (program path.now))) }
{
    if !is_starred(path) {
        print_path(text, path, names)?;
        return text.push(b"*");
    }
    text.push(b"(")?;
    print_path(text, path, names)?;
    text.push(b")*")
}

/// Whether the path has a star of its own.
fn is_starred(path: &Path) -> bool
    ensures { result ≡ texts.is_starred (program path.now) }
{
    matches!(path, Path::Star(_))
}
