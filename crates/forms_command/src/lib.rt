//! The command `forms`: a formula as it was read, and its negation normal form.
//!
//! `specs/Showing.antt` says what is asked for, and has the command as data.
#![tactic(auto)]

mod showing;

pub use showing::show_formula;
