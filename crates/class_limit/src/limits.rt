//! The limit of a formula's classes.
ghost use Rattle.std.specs.Prelude.{◌≡◌};
ghost use Rattle.class_limit.specs.Limits.{ending_at_limit};

use command_endings::{Concern, Ending, Refusal};
use translate::TranslateFault;

/// The most classes that a part or the whole of a formula of the command line may have.
pub const MOST_CLASSES: u32 = 1024;

/// How a run ends where this formula has no automaton within the limit, or memory is out.
pub fn limit_ending(concern: Concern, limit: u32, fault: TranslateFault) -> Ending
    ensures { result ≡ ending_at_limit concern limit fault }
{
    match fault {
        TranslateFault::TooMany { part, count } => Ending::Refused(Refusal::TooMany {
            concern,
            part,
            count,
            limit,
        }),
        TranslateFault::Memory => Ending::NoMemory,
    }
}
