//! What the agent can force on an arena, and what the environment answers where it can force nothing.
//!
//! `solve` gives each location its rank, `answers` gives the locations without one their tables. Both stand on the attractor of
//! the crate below, whose equation the laws of `layers` read as least numbers of rounds; `specs/Answered.antt` says what tables
//! of answers are.
#![tactic(auto)]

mod answering;
mod solving;

pub use answering::answers;
pub use solving::solve;
