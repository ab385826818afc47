//! The command `judge`.
ghost use Rattle.std.specs.Prelude.{◌≡◌, ℕ, List, Option, Some, IfErr, length};
ghost use Rattle.forms.specs.Tree.{tree};
ghost use Rattle.forms.specs.Proper.{IsProper};
ghost use Rattle.forms.specs.Satisfaction.{meets};
ghost use Rattle.bes_io.specs.Asking.{IsAsked};
ghost use Rattle.command_endings.specs.Endings.{IsUnread, status_of};
ghost use Rattle.command_endings.specs.Reading.{Reads};
ghost use Rattle.command_endings.specs.Tasks.{Performs, PutsAll};
ghost use Rattle.command_endings.specs.Worlds.{Contents, world};
ghost use Rattle.command_endings.specs.Writing.{Writes};
ghost use Rattle.input_letters.specs.Letters.{HasTraceCause};
ghost use Rattle.judge_command.specs.Judge.{answer_reply, GivesAnswer, judge_task};

use bes_io::{Sink, Source};
use command_endings::{Ending, Refusal, put_all, read_formula};
use form_tokens::{Dialect, Names};
use forms::Form;
use input_letters::read_trace;
use std::alloc::Global;
use trace_meaning::judge;

/// The answer of the formula on the trace that the input gives.
fn judge_input<S: Source>(
    alloc: Global,
    form: &Form,
    names: &Names,
    input: &mut S,
) -> Result<bool, Ending>
    requires { IsProper (length names.now.names) (tree form.now) }
    ensures answer { (rest : List ℕ) → S.left input.old ≡ Some rest
        → GivesAnswer names.now.names (λ w. meets (length names.now.names) (tree form.now) w) rest result (S.left input.new) }
    ensures cause { HasTraceCause (S.faults input.old) (S.faults input.new) result }
    ensures asked { IsAsked S.faults S.IsTaken input.old input.new }
    ensures late { IfErr result (λ ending. ¬ IsUnread (status_of ending)) }
{
    let letters = read_trace(alloc, names, input)?;
    if letters.len() == 0 {
        return Err(Ending::Refused(Refusal::NoEvent));
    }
    match judge(alloc, form, names.len(), letters.as_slice()) {
        Ok(answer) => Ok(answer),
        Err(_) => Err(Ending::NoMemory),
    }
}

/// Puts the answer.
fn put_answer<O: Sink>(answer: bool, out: &mut O) -> Ending
    ensures ends { PutsAll (answer_reply answer).output (answer_reply answer).ending
        (O.held out.old) (O.faults out.old) (O.held out.new) (O.faults out.new) result }
    ensures put { O.IsPut out.old (answer_reply answer).output out.new }
{
    if answer {
        put_all(b"true\n", Ending::Positive, out)
    } else {
        put_all(b"false\n", Ending::Negative, out)
    }
}

/// Judges the input by the formula, and puts the answer.
pub fn judge_formula<S: Source, O: Sink>(
    alloc: Global,
    dialect: Dialect,
    text: &[u8],
    input: &mut S,
    out: &mut O,
) -> Ending
    ensures performs { (contents : Option Contents) (failed : List (List ℕ)) → Performs (judge_task dialect text.now)
        (world contents failed (S.left input.old) (S.faults input.old) (O.held out.old) (O.faults out.old))
        (world contents failed (S.left input.new) (S.faults input.new) (O.held out.new) (O.faults out.new)) result }
    ensures writes { (contents : Option Contents) (failed : List (List ℕ)) → Writes O.IsPut (judge_task dialect text.now)
        (world contents failed (S.left input.old) (S.faults input.old) (O.held out.old) (O.faults out.old))
        (world contents failed (S.left input.new) (S.faults input.new) (O.held out.new) (O.faults out.new)) out.old out.new (status_of result) }
    ensures reads { (contents : Option Contents) (failed : List (List ℕ)) → Reads S.faults S.IsTaken (judge_task dialect text.now)
        (world contents failed (S.left input.old) (S.faults input.old) (O.held out.old) (O.faults out.old)) input.old input.new (status_of result) }
{
    let (form, names) = match read_formula(alloc, dialect, text) {
        Ok(read) => read,
        Err(ending) => return ending,
    };
    match judge_input(alloc, &form, &names, input) {
        Ok(answer) => put_answer(answer, out),
        Err(ending) => ending,
    }
}
