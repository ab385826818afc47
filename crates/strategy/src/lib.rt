//! Printed strategies: merged from an arena and the numbers of its locations, printed, and played.
//!
//! `specs/Plan.antt` says which strategy a value stands for. It serves without memory: a location is a number, and each
//! call looks up one value of a diagram.
#![tactic(auto)]

mod arenas;
mod marks;
mod merging;
mod printing;
mod serving;
mod strategy;

pub use arenas::merge;
pub use choosing::{Chosen, Mark};
pub use marks::Numbers;
pub use merging::merge_rows;
pub use printing::print_strategy;
pub use strategy::Strategy;
