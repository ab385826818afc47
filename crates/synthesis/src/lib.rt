//! The strategy of a specification.
//!
//! `strategy_of` solves an arena and merges what was found; `synthesise` builds the arena first, of the automata of the goal, of
//! what is assumed and of the duty; `synthesise_formulas` translates formulas first. `specs/Formulas.antt` says what formulas ask
//! for and why they may have no strategy; which strategy is that of a specification stands with printed strategies.
#![tactic(auto)]

mod fault;
mod formulas;
mod solved;
mod synthesis;
mod translations;

pub use fault::{Role, SynthesisFault};
pub use formulas::synthesise_formulas;
pub use legality::ArenaFault;
pub use solved::strategy_of;
pub use synthesis::synthesise;
pub use translations::Formulas;
