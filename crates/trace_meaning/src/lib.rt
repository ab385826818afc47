//! Whether one trace meets a formula of LTLf or LDLf.
//!
//! `judge` goes once over the trace, from its end, a block of letters at a time and an operator
//! at a time. `specs/Kept.antt` says what a tree of nodes keeps of the letters judged so far.
//! The definitions of satisfaction and of the path relation are those of `forms`.
#![tactic(auto)]

mod block;
mod building;
mod column;
mod judging;
mod leads;
mod node;
mod operator;
mod star;

pub use judging::judge;
