//! Specification files, and the events of a trace, one a line.
//!
//! `specs/Specification.antt` says which specification a text is, `specs/Refusal.antt` why it is none, in the order in
//! which faults are sought, and `specs/Event.antt` which letter a line gives, and where it is refused first. Formulas are
//! read by `form_reader`, names and the spelling of words are those of `form_tokens`, lines and keys those of
//! `spec_lines`.
#![tactic(auto)]

mod checking;
mod events;
mod formulas;
mod reading;
mod spec;

pub use events::{EventFault, Mode, laws_of_event_pieces, read_event};
pub use reading::read_spec;
pub use spec::{Key, Spec, SpecFault};
