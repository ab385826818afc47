//! Formulas of LTLf and LDLf read from text.
//!
//! `specs/Grammar.antt` says which tokens are the text of which formula, and `specs/Faults.antt` where a text is refused
//! and why. One grammar serves both dialects, which differ in their tokens. The reader keeps a stack and never recurses.
#![tactic(auto)]

mod building;
mod fault;
mod item;
mod operand;
mod reading;
mod step;

pub use fault::FormFault;
pub use reading::read_form;
