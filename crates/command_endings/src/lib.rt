//! How a run ends, and what every command is made of.
//!
//! `specs/Endings.antt` has the status and the message of each ending, and `specs/Tasks.antt` what a
//! command is, as data, and what one does to the files, the input and the output.
#![tactic(auto)]

mod endings;
mod formulas;
mod messages;
mod putting;

pub use endings::{Concern, Ending, Refusal, Status, finish};
pub use formulas::read_formula;
pub use putting::put_all;
