//! How a run ends: its ending, its status, and the message that it puts.
ghost use Rattle.std.specs.Prelude.{◌≡◌, []};
ghost use Rattle.command_endings.specs.Endings.{status_of, refusal_status, message_of};
ghost use Rattle.command_endings.specs.Runs.{Finishes};
ghost use Rattle.command_endings.specs.Calls.{Asks};

use crate::messages::ending_message;
use bes_io::Sink;
use form_reader::FormFault;
use spec_reader::{EventFault, SpecFault};

/// The formula that a refusal concerns: that of the command line, what a specification assumes, its goal or its duty, or
/// the rules of a model.
#[derive(Clone, Copy, Debug, PartialEq, Eq)]
pub enum Concern {
    Formula,
    Assume,
    Goal,
    Duty,
    Model,
}

/// What was refused. Lines and places are counted from 1, places in bytes.
#[derive(Clone, Copy, Debug, PartialEq, Eq)]
pub enum Refusal {
    /// The words are none of the listed forms.
    Usage,
    /// The formula is refused at this place, or as unfinished.
    Formula(FormFault),
    /// The specification file is refused.
    Specification(SpecFault),
    /// This part of the formula, counted from 1 and the whole after the last, is the first with more classes of equivalent
    /// words than the limit, and it has so many.
    TooMany {
        concern: Concern,
        part: u64,
        count: u32,
        limit: u32,
    },
    /// What is assumed can be broken within so many rounds, whatever the agent does.
    Breakable {
        rounds: u64,
    },
    /// The input has no line.
    NoEvent,
    /// This line of the input is no event.
    Event {
        line: u64,
        fault: EventFault,
    },
    /// This line's round is not legal.
    NotLegal {
        line: u64,
    },
    /// This line has more than 4,096 bytes.
    LineTooLong {
        line: u64,
    },
    /// In this line the input passes its command's limit of bytes.
    InputTooLong {
        line: u64,
    },
}

/// How a run ends, before its message is put.
#[derive(Clone, Copy, Debug, PartialEq, Eq)]
pub enum Ending {
    /// The trace meets the formula, for `monitor` so far; or the text that was asked for was put.
    Positive,
    /// The trace doesn't meet the formula, for `monitor` so far.
    Negative,
    /// The words, the formula or the input is refused.
    Refused(Refusal),
    /// A file, the input or the output failed.
    OutsideFault,
    /// Memory ran out.
    NoMemory,
}

/// The status of a run: 0 and 1 for an answer, 2 to 6 for a refusal, 7 for a fault of a file, the input, the output or
/// the place for messages, 8 for want of memory.
#[derive(Clone, Copy, Debug, PartialEq, Eq)]
pub struct Status {
    pub number: u8,
}

fn refusal_number(refusal: Refusal) -> u8
    ensures { result ≡ refusal_status refusal }
{
    match refusal {
        Refusal::Usage => 2,
        Refusal::Formula(_) | Refusal::Specification(_) => 3,
        Refusal::TooMany { .. } => 5,
        Refusal::Breakable { .. } => 6,
        Refusal::NoEvent
        | Refusal::Event { .. }
        | Refusal::NotLegal { .. }
        | Refusal::LineTooLong { .. }
        | Refusal::InputTooLong { .. } => 4,
    }
}

fn number(ending: Ending) -> u8
    ensures { result ≡ status_of ending }
{
    match ending {
        Ending::Positive => 0,
        Ending::Negative => 1,
        Ending::Refused(refusal) => refusal_number(refusal),
        Ending::OutsideFault => 7,
        Ending::NoMemory => 8,
    }
}

/// Puts the message of the ending, if it has one, and answers the status. Where the message can't be put that is 7, or 8
/// for want of memory.
pub fn finish<E: Sink>(ending: Ending, err: &mut E) -> Status
    ensures finishes { Finishes ending (E.held err.old) (E.faults err.old) (E.held err.new) (E.faults err.new) result.number }
    ensures quiet { message_of ending ≡ [] → err.new ≡ err.old }
    ensures asks { Asks E.IsPut (message_of ending) err.old err.new }
{
    let text = ending_message(ending);
    if text.is_empty() {
        return Status {
            number: number(ending),
        };
    }
    match err.put(text.bytes()) {
        Ok(()) => Status {
            number: number(ending),
        },
        Err(_) => match ending {
            Ending::NoMemory => Status { number: 8 },
            _ => Status { number: 7 },
        },
    }
}
