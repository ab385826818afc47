//! The command `monitor`: the verdict of a formula after each event.
//!
//! `specs/Monitoring.antt` says what is asked for, and has the command as data.
#![tactic(auto)]

mod monitoring;

pub use monitoring::monitor_formula;
