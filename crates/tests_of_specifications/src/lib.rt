//! Tests of specification files: tables of files, each with what a second reader, written apart from this one, makes of it.
#![tactic(auto)]

#[cfg(test)]
mod files;
#[cfg(test)]
mod long_files;
#[cfg(test)]
mod outcome;
#[cfg(test)]
mod random_files;
#[cfg(test)]
mod tables;
