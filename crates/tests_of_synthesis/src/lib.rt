//! Tests of the command `synth`.
#![tactic(auto)]

#[cfg(test)]
mod rows;
#[cfg(test)]
mod synth_tests;
