//! Division of the locations of an automaton by their marks and their rows, round after round (Moore 1956).
//!
//! Rows are compared as ids, which rests on `diagrams`: equal functions have equal ids.
#![tactic(auto)]

mod divisions;
mod targets;

pub use divisions::{block_rows, divide_by_rows, renewed_rows};
pub use targets::Targets;
