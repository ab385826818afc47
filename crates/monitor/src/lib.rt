//! The verdict of a claim after each letter, by its least automaton.
//!
//! `specs/Configuration.antt` says what a monitor is in, and what its verdicts are of. In a least automaton a location
//! from which all words lead to one mark has the row that leads to itself alone, so that one look tells whether a
//! verdict is permanent.
#![tactic(auto)]

mod monitor;
mod verdict;

pub use monitor::Monitor;
pub use verdict::Verdict;
