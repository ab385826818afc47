//! Path programs as obligations: the suffixes on which another obligation holds that a path leads to.
//!
//! `specs/Lead.antt` says what the diagrams of a path tell. A path is walked once, from right to left, and a sequence and
//! a star add obligations for where they lead from the next position; so no letter is enumerated, and a star whose turns
//! use no letter comes to an end like any other.
#![tactic(auto)]

mod compiling;
mod condition;
mod lead;
mod made;
mod rest;
mod walk;

pub use compiling::compile;
