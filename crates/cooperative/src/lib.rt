//! What the agent can hope for on an arena where it can't force the goal, and whether it can keep its duty.
//!
//! `distances` gives each location the least number of rounds within which the goal can be hoped for, `losses` says where the
//! goal is out of reach whether the duty can be kept, or within how many rounds it is lost. `specs/Hoped.antt` and
//! `specs/Lost.antt` say so; `specs/Replaced.antt` has the rows over which distances are numbers of an attractor.
#![tactic(auto)]

mod hoping;
mod laws;
mod losing;
mod loss;
mod numbers;
mod replacing;

pub use hoping::distances;
pub use laws::laws_of_hope;
pub use losing::losses;
pub use loss::{Loss, Losses};
