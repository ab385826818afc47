//! The command `synth`.
ghost use Rattle.std.specs.Prelude.{◌≡◌, ◌<◌, ℕ, List, Option, IfOk, IfErr, length};
ghost use Rattle.game.specs.Board.{width};
ghost use Rattle.command_endings.specs.Endings.{status_of};
ghost use Rattle.command_endings.specs.Tasks.{Performs};
ghost use Rattle.command_endings.specs.Worlds.{world};
ghost use Rattle.command_endings.specs.Writing.{Writes};
ghost use Rattle.spec_reader.specs.Specification.{plain};
ghost use Rattle.spec_reader.specs.Answer.{AreProper};
ghost use Rattle.synth_command.specs.Synthesis.{verdict_ending, FileHolds, IsText, EndsUnsolved, synth_task};
ghost use Rattle.synth_command.specs.Promised.{PrintsStrategy};

use crate::reading::read_specification;
use crate::solving::solve_specification;
use bes_io::{Files, Memory, Sink, Text, Word};
use command_endings::{Ending, put_all};
use spec_reader::Spec;
use std::alloc::Global;
use strategy::print_strategy;

/// How a run ends with a strategy: positively where the goal is forced.
fn verdict_ending(verdict: Option<u32>) -> Ending
    ensures { result ≡ verdict_ending verdict }
{
    match verdict {
        Some(_) => Ending::Positive,
        None => Ending::Negative,
    }
}

/// The text of the specification's strategy and how the run ends with it, or how it ends without one.
fn strategy_text(alloc: Global, spec: &Spec) -> Result<(Text, Ending), Ending>
    requires proper { AreProper (plain spec.now) }
    requires named { width (plain spec.now).partition ≡ length (plain spec.now).names }
    ensures text { IfOk result (λ made. IsText (plain spec.now) made.0 made.1) }
    ensures ending { IfErr result (λ ending. EndsUnsolved (plain spec.now) ending) }
{
    let solved = solve_specification(alloc, spec)?;
    match print_strategy(alloc, &solved.store, &solved.strategy, &spec.names) {
        Ok(text) => Ok((text, verdict_ending(solved.strategy.verdict()))),
        Err(Memory) => Err(Ending::NoMemory),
    }
}

/// Prints the strategy of the specification in the file.
///
/// `headline` says what is printed: the one printed strategy of the specification, which wins within the printed least number
/// of rounds wherever any strategy can, else keeps the goal possible wherever it is, else keeps the duty where it can, and
/// refutes every number of rounds where the goal can't be forced.
pub fn synthesise_file<F: Files, O: Sink>(
    alloc: Global,
    name: &Word,
    files: &mut F,
    out: &mut O,
) -> Ending
    ensures performs { (left : Option (List ℕ)) (reads : ℕ) →
        Performs (synth_task name.now) (world (F.contents files.old) (F.failed files.old) left reads (O.held out.old) (O.faults out.old))
        (world (F.contents files.new) (F.failed files.new) left reads (O.held out.new) (O.faults out.new)) result }
    ensures writes { (left : Option (List ℕ)) (reads : ℕ) →
        Writes O.IsPut (synth_task name.now) (world (F.contents files.old) (F.failed files.old) left reads (O.held out.old) (O.faults out.old))
        (world (F.contents files.new) (F.failed files.new) left reads (O.held out.new) (O.faults out.new)) out.old out.new (status_of result) }
    ensures headline { status_of result < 2 →
        FileHolds (F.contents files.old) name.now (λ bytes. PrintsStrategy bytes (O.held out.old) (O.held out.new) (status_of result)) }
{
    let spec = match read_specification(alloc, name, files) {
        Ok(spec) => spec,
        Err(ending) => return ending,
    };
    match strategy_text(alloc, &spec) {
        Ok((text, ending)) => put_all(text.bytes(), ending, out),
        Err(ending) => ending,
    }
}
