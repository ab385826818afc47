//! Tests of whole runs over memory, each outside call refused in turn among them.
#![tactic(auto)]

#[cfg(test)]
mod bes_suite_tests;
#[cfg(test)]
mod outside_fault_tests;
#[cfg(test)]
mod runs;
#[cfg(test)]
mod translation_size_tests;
