//! The command `translate`.
ghost use Rattle.std.specs.Prelude.{◌≡◌, ℕ, false, List, length, Option, MatchResult};
ghost use Rattle.forms.specs.Tree.{tree};
ghost use Rattle.forms.specs.Proper.{IsProper};
ghost use Rattle.translate.specs.Counting.{IfTooMany, IsFirstOver};
ghost use Rattle.class_limit.specs.Limits.{most_classes};
ghost use Rattle.command_endings.specs.Endings.{status_of};
ghost use Rattle.command_endings.specs.Tasks.{Performs};
ghost use Rattle.command_endings.specs.Worlds.{Contents, world};
ghost use Rattle.command_endings.specs.Writing.{Writes};
ghost use Rattle.translate_command.specs.Translation.{IsTranslation, translate_task};

use crate::automaton_text::whole_text;
use automata::print_table;
use bes_io::{Sink, Text};
use class_limit::{MOST_CLASSES, limit_ending};
use command_endings::{Concern, Ending, put_all, read_formula};
use diagrams::Store;
use distinguish::telling_words;
use form_tokens::{Dialect, Names};
use forms::Form;
use std::alloc::Global;
use translate::{TranslateFault, translate};

/// The text of the formula's automaton.
fn translation_text(alloc: Global, form: &Form, names: &Names) -> Result<Text, TranslateFault>
    requires proper { IsProper (length names.now.names) (tree form.now) }
    ensures { MatchResult result (λ text. IsTranslation names.now.names (tree form.now) text)
        (λ fault. IfTooMany fault (IsFirstOver (length names.now.names) (tree form.now) false most_classes)) }
{
    let mut store = Store::new(alloc, names.len())?;
    let made = translate(alloc, &mut store, form, false, MOST_CLASSES)?;
    let table = print_table(alloc, &store, &made.whole)?;
    let words = telling_words(alloc, &mut store, &made.whole)?;
    let text = whole_text(
        alloc,
        form,
        names,
        &made.counts,
        made.whole.size(),
        &table,
        &words,
    )?;
    Ok(text)
}

/// Puts the text of the formula's automaton.
pub fn translate_formula<O: Sink>(
    alloc: Global,
    dialect: Dialect,
    text: &[u8],
    out: &mut O,
) -> Ending
    ensures performs { (contents : Option Contents) (failed : List (List ℕ)) (left : Option (List ℕ)) (reads : ℕ) →
        Performs (translate_task dialect text.now) (world contents failed left reads (O.held out.old) (O.faults out.old))
        (world contents failed left reads (O.held out.new) (O.faults out.new)) result }
    ensures writes { (contents : Option Contents) (failed : List (List ℕ)) (left : Option (List ℕ)) (reads : ℕ) →
        Writes O.IsPut (translate_task dialect text.now) (world contents failed left reads (O.held out.old) (O.faults out.old))
        (world contents failed left reads (O.held out.new) (O.faults out.new)) out.old out.new (status_of result) }
{
    let (form, names) = match read_formula(alloc, dialect, text) {
        Ok(read) => read,
        Err(ending) => return ending,
    };
    match translation_text(alloc, &form, &names) {
        Ok(text) => put_all(text.bytes(), Ending::Positive, out),
        Err(fault) => limit_ending(Concern::Formula, MOST_CLASSES, fault),
    }
}
