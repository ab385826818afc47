//! Deterministic automata whose rows are diagrams of one store.
//!
//! `specs/Moves.antt` says where words lead, `specs/Table.antt` how an automaton's rows say so and
//! what it is to fit a store, `specs/Numbering.antt` the numbering by least words.
#![tactic(auto)]

mod automaton;
mod listing;
mod meant;
mod numbering;
mod search;

pub use automaton::Automaton;
pub use listing::print_table;
pub use meant::Meant;
pub use numbering::renumber;
