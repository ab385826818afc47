//! Tests of diagrams, automata, classes of locations, least automata, words that tell locations apart, and monitors.
#![tactic(auto)]

#[cfg(test)]
mod automata_tests;
#[cfg(test)]
mod diagrams_tests;
#[cfg(test)]
mod distinguish_tests;
#[cfg(test)]
mod minimise_tests;
#[cfg(test)]
mod monitor_tests;
#[cfg(test)]
mod refinement_tests;
