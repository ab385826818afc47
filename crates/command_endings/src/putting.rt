//! One put of a whole output.
ghost use Rattle.command_endings.specs.Tasks.{PutsAll};

use crate::endings::Ending;
use bes_io::Sink;

/// Puts a whole output, after which the run ends so.
pub fn put_all<O: Sink>(text: &[u8], ending: Ending, out: &mut O) -> Ending
    ensures ends { PutsAll text.now ending (O.held out.old) (O.faults out.old) (O.held out.new) (O.faults out.new) result }
    ensures put { O.IsPut out.old text.now out.new }
{
    match out.put(text) {
        Ok(()) => ending,
        Err(_) => Ending::OutsideFault,
    }
}
