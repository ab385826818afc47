//! The command `synth`: the strategy of a specification, as a text.
//!
//! `specs/Synthesis.antt` says what a specification asks for and what is answered, in the order of refusals, and has the command
//! as data; `specs/Promised.antt` what the printed strategy gives.
#![tactic(auto)]

mod command;
mod reading;
mod solving;

pub use command::synthesise_file;
pub use reading::read_specification;
pub use solving::{Solved, solve_specification};
