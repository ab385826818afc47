//! The choices for decisions: marks and least moves by the numbers of the locations to which rounds lead.
//!
//! `specs/Best.antt` says what two movers reach below a diagram, `specs/Chosen.antt` what is chosen by it, and
//! `specs/Choices.antt` what the choices of rows are. No letter is enumerated: rows are cut where a decision's variables end.
#![tactic(auto)]

mod below;
mod choice;
mod cut;
mod decisions;
mod known;
mod laws;
mod walks;

pub use choice::{Chosen, Mark, NO_NUMBER, Outputs, Tables};
pub use decisions::{Choices, choose_all};
pub use laws::laws_of_choices;
