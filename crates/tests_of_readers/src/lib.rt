//! Tests of judging and of what reads texts, each over what its crate offers to all.
#![tactic(auto)]

#[cfg(test)]
mod bes_io_tests;
#[cfg(test)]
mod form_reader_tests;
#[cfg(test)]
mod forms_tests;
#[cfg(test)]
mod spec_reader_tests;
#[cfg(test)]
mod trace_meaning_tests;
