//! Laws of least numbers of rounds on the locations of an arena, and the lists of such numbers.
//!
//! `specs/Ranked.antt` says what ranks, distances and losses are, and `specs/ArenaRows.antt` which rows an arena has. The crux,
//! in `proofs/Rounds.antt`, is that a round on the board is the choice of a terminal of the row; then numbers that solve the
//! equation of the attractor are the least numbers (`proofs/Solved.antt`).
#![tactic(auto)]

mod folding;
mod laws;
mod lists;
mod narrowing;
mod sides;

pub use folding::{Below, Folding, fold_row};
pub use laws::laws_of_layers;
pub use lists::{Distances, EnvTable, Ranks};
pub use narrowing::narrowed;
pub use sides::{agent_sides, environment_sides};
