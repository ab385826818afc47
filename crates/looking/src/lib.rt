//! The locations whose rows a refinement looks at again, and those that lead to a location.
//!
//! `specs/Predecessors.antt` says what the lists of predecessors have.
#![tactic(auto)]

mod looking;
mod predecessors;

pub use looking::look_again;
pub use predecessors::Predecessors;
