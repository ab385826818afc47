//! The specification in a file.
ghost use Rattle.std.specs.Prelude.{◌≡◌, length, IfOk, IfErr};
ghost use Rattle.game.specs.Board.{width};
ghost use Rattle.spec_reader.specs.Specification.{plain, IsSpecificationOf};
ghost use Rattle.spec_reader.specs.Answer.{AreProper};
ghost use Rattle.synth_command.specs.Synthesis.{specification_ending, FileHolds, ReadsTo, FailsSo};

use bes_io::{FileFault, Files, Word};
use command_endings::{Ending, Refusal};
use spec_reader::{Spec, SpecFault, read_spec};
use std::alloc::Global;

// One byte more than a specification may have tells that there are too many.
const MOST_BYTES: usize = 65537;

/// How a run ends where its specification is refused, or memory is out.
fn specification_ending(fault: SpecFault) -> Ending
    ensures { result ≡ specification_ending fault }
{
    match fault {
        SpecFault::Memory => Ending::NoMemory,
        _ => Ending::Refused(Refusal::Specification(fault)),
    }
}

/// The specification in a file, or how the run ends without one.
pub fn read_specification<F: Files>(
    alloc: Global,
    name: &Word,
    files: &mut F,
) -> Result<Spec, Ending>
    ensures found { IfOk result (λ spec. FileHolds (F.contents files.old) name.now (λ bytes. IsSpecificationOf bytes (plain spec))) }
    ensures named { IfOk result (λ spec. width (plain spec).partition ≡ length (plain spec).names) }
    ensures proper { IfOk result (λ spec. AreProper (plain spec)) }
    ensures ending { IfErr result (λ ending. ReadsTo (F.contents files.old) name.now ending) }
    ensures failed { FailsSo result (F.failed files.old) name.now (F.failed files.new) }
    ensures same { F.contents files.new ≡ F.contents files.old }
{
    match files.read(alloc, name, MOST_BYTES) {
        Ok(text) => match read_spec(alloc, &text) {
            Ok(spec) => Ok(spec),
            Err(fault) => Err(specification_ending(fault)),
        },
        Err(FileFault::Failed) => Err(Ending::OutsideFault),
        Err(FileFault::Memory) => Err(Ending::NoMemory),
    }
}
