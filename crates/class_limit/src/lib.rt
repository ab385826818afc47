//! The limit of a formula's classes, and how a run ends at it.
#![tactic(auto)]

mod limits;

pub use limits::{MOST_CLASSES, limit_ending};
