//! The game between an agent and its environment, said once on boards.
//!
//! `specs/Board.antt` says what a board and a round are, `specs/Winning.antt` and `specs/Following.antt` what can be forced,
//! `specs/Histories.antt` what the histories of a specification are, `specs/Arena.antt` what an arena's locations are.
//! There is no code here, only what the crates above say of theirs.
#![tactic(auto)]
