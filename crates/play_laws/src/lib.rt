//! What moves that go by marks do, on every board, and where the game goes on.
//!
//! Laws alone: a place has one mark, moves by marks keep what the marks say, answers refute, and the game of a specification
//! whose assumption can be kept goes on until the goal is met.
#![tactic(auto)]
