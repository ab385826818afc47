//! Arenas: the locations of the live histories of a specification.
//!
//! `specs/Building.antt` says of which automata an arena is built; what its locations are stands with the definitions of the
//! game. The kinds of histories are told by one automaton, whose least form has the arena's locations.
#![tactic(auto)]

mod building;
mod locations;
mod numbers;

pub use building::build;
pub use legality::ArenaFault;
pub use locations::Arena;
