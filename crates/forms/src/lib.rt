//! Formulas of LTLf and LDLf and the path programs inside them, as plain trees.
//!
//! The definitions that the whole suite stands on are in `specs/`: `Satisfaction` says what a
//! formula says of a word and where a path leads, `Parts`, `Verdict` and `Equivalence` what is
//! made of that. `laws` binds them to their sources. `Partition` says who moves first in a game.
#![tactic(auto)]

mod copies;
mod counts;
mod form;
mod laws;
mod normal;
mod partition;

pub use copies::copy;
pub use counts::parts;
pub use form::{Form, Path};
pub use laws::{laws_of_normal_form, laws_of_paths, laws_of_satisfaction, laws_of_shortlex};
pub use normal::nnf;
pub use partition::{Mover, Partition};
