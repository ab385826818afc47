//! Automata made of others, location by location: the join of two, one that ends at its marked locations, and one that watches
//! a claim about each nonempty prefix.
//!
//! `specs/Joins.antt` and `specs/Watch.antt` say what is made. Rows of two automata are walked together by one memo, over the
//! nodes of `diagrams`.
#![tactic(auto)]

mod ends;
mod joins;
mod places;
mod stops;
mod watching;

pub use ends::ended;
pub use joins::join;
pub use watching::{unwatched, watch};
