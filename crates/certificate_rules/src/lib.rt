//! What a certificate is: its data, its game, the rules of the checker, and what they imply.
//!
//! `specs/Certificate.antt` says what the data and the game are, `specs/Rules.antt` what a valid certificate is and which
//! failure is the first, `specs/Right.antt` what a valid certificate gives.
#![tactic(auto)]

mod laws;

pub use laws::laws_of_certificates;
