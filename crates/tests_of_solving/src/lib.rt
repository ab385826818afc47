//! Tests of what can be forced, hoped for and kept on arenas.
#![tactic(auto)]

#[cfg(test)]
mod arenas;
#[cfg(test)]
mod games;
#[cfg(test)]
mod rows_tests;
#[cfg(test)]
mod solving_tests;
