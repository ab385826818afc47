//! Keys in slots: a unique table whose chains, and whose list of free slots, are threaded by index through the slots.
//!
//! `specs/Links.antt` says how a list is threaded: each slot leads to the last one before it of its class.
#![tactic(auto)]

mod marks;
mod slots;

pub use marks::{free_unseen, mark, unmark};
pub use slots::{Key, Slot, find, push, relink, reuse};
