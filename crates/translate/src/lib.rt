//! The least automaton of a formula, and the class count of each part.
//!
//! `specs/Exact.antt` says what the automaton of an operator is, `specs/Counting.antt` what is counted and which part
//! is the first over a limit. Each part is translated and minimised before the part that holds it.
#![tactic(auto)]

mod connectives;
mod counts;
mod fault;
mod joins;
mod laws;
mod least;
mod operands;
mod operation;
mod operators;
mod parts;
mod programs;
mod translating;

pub use connectives::{both, either, negate};
pub use counts::Counts;
pub use fault::TranslateFault;
pub use laws::laws_of_counts;
pub use translating::{Translated, translate};
