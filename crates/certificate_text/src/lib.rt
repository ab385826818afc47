//! The parts of a certificate's text: its numbers and bits, and the lists of cubes as the program keeps them.
//!
//! `specs/Asked.antt` says what is asked of assignments, `specs/Lines.antt` what the lines of a list give. What a field of a
//! strategy text is stands in crate `printed_strategy`, which lists are whole in `certificate_rules`.
#![tactic(auto)]

mod asking;
mod fields;
mod laws;
mod marks;
mod whole;

pub use asking::asked;
pub use fields::{read_bits, read_number};
pub use laws::laws_of_asking;
pub use marks::{CertMark, Levels, Lines, Question, Test, Way};
pub use whole::is_whole;
