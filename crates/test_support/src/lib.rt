//! What tests of several crates share: automata by their rows, and long texts. A call that can fail
//! answers `Memory` also where what it was given fits no test.
#![tactic(auto)]

mod building;
mod texts;

pub use building::{Location, accepted, are_below, automaton_of, has_small_marks, listing, row};
pub use texts::{NAMES, repeated};
