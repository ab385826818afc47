//! Formulas of LTLf and LDLf printed as texts that are read back as themselves.
//!
//! `specs/Printed.antt` has the text of each formula, and `specs/ReadBack.antt` the law that it is read back.
#![tactic(auto)]

mod printing;
mod read_back;
mod searching;

pub use printing::{print_form, print_part};
pub use read_back::laws_of_printing;
