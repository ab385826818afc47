//! The legal histories of a specification: what is assumed can be kept after each of their rounds.
//!
//! `specs/Legal.antt` says what is told of them. Where the agent can violate what is assumed is found as where it can win, by
//! `attractor`.
#![tactic(auto)]

mod fault;
mod legality;

pub use fault::ArenaFault;
pub use legality::legal_histories;
