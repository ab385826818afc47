//! Alternating automata as tables of obligations, and how they become deterministic.
//!
//! `specs/Value.antt` says what an obligation is worth on a word. A location of the deterministic
//! automaton stands for a claim, a diagram over obligations; each step composes the claim with the
//! bodies and cuts the result where its propositions end, so no letter is enumerated.
#![tactic(auto)]

mod bodies;
mod cells;
mod cut;
mod explore;
mod following;
mod frontier;
mod inclusions;
mod relation;
mod simulation;

pub use cells::{Cells, Obligation};
pub use explore::determinise;
pub use following::follow;
pub use inclusions::{Inclusions, find_inclusions, themselves};
