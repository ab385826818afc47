//! The classes of locations, by partition refinement (Hopcroft 1971; Paige and Tarjan 1987).
//!
//! `class_laws` says what the classes are, and what it means that few locations moved.
#![tactic(auto)]

mod groups;
mod parting;
mod rounds;

pub use groups::split;
pub use rounds::refine;
