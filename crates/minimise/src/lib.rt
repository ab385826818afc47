//! The least automaton with the same mark after every word: the classes that `refinement` finds, merged and numbered.
//!
//! `specs/Minimal.antt` says what least means. Rows are compared as ids, which rests on
//! `diagrams`: equal functions have equal ids.
#![tactic(auto)]

mod laws;
mod least;

pub use laws::laws_of_least_automata;
pub use least::minimise;
