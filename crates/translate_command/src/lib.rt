//! The command `translate`: the least automaton of a formula, as a text.
//!
//! `specs/AutomatonText.antt` has the text, and `specs/Translation.antt` says what is asked for, and
//! has the command as data.
#![tactic(auto)]

mod automaton_text;
mod translation;

pub use translation::translate_formula;
