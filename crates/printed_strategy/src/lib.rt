//! What a printed strategy is: its data, its text, what is printed for a specification and what that keeps.
//!
//! `specs/Printed.antt` says which strategy is that of a specification, `specs/StrategyText.antt` what its text is, and
//! `specs/Headline.antt` what it gives: `keeps_promises` in `proofs/HeadlineLemmas.antt` proves it of each printed strategy.
#![tactic(auto)]

mod laws;

pub use laws::laws_of_printed_strategies;
