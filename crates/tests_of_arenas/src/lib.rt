//! Tests of arenas, against what a reference implementation gives.
#![tactic(auto)]

#[cfg(test)]
mod arena_tests;
#[cfg(test)]
mod listing;
#[cfg(test)]
mod specifications;
