//! Tests of strategies.
#![tactic(auto)]

#[cfg(test)]
mod specifications;
#[cfg(test)]
mod strategy_tests;
