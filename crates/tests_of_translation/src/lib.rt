//! Tests of obligations, path programs and translation.
#![tactic(auto)]

#[cfg(test)]
mod obligations_tests;
#[cfg(test)]
mod path_programs_tests;
#[cfg(test)]
mod propositions;
#[cfg(test)]
mod tables;
#[cfg(test)]
mod translate_tests;
