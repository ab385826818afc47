//! The words that tell the locations of a least automaton apart.
//!
//! `specs/Telling.antt` says which words these are. Rounds divide locations as in `minimise`. Two
//! locations get their word in the round that tells them apart: a letter, and then a word of the
//! rounds before.
#![tactic(auto)]

mod columns;
mod difference;
mod laws;
mod steps;
mod telling;
mod words;

pub use laws::laws_of_telling_words;
pub use telling::telling_words;
pub use words::Words;
