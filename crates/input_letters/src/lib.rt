//! The letters that the lines of an input give.
//!
//! `specs/Traces.antt` says what is refused first in the lines, and `specs/Letters.antt` what a call
//! finds of them.
#![tactic(auto)]

mod traces;

pub use traces::{next_letter, read_trace};
