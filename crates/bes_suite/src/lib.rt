//! The top call of the suite: `run` does what the words of a command line ask for.
//!
//! `specs/Asked.antt` says what they ask for, one line a command, and `specs/Results.antt` what a run
//! leaves by its status. No command has logic of its own here: each is a crate.
#![tactic(auto)]

mod commands;
mod running;

pub use commands::{Command, named_command};
pub use running::run;
