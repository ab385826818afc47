//! The command `judge`: whether a trace meets a formula.
//!
//! `specs/Judge.antt` says what is asked for, and has the command as data.
#![tactic(auto)]

mod judging;

pub use judging::judge_formula;
