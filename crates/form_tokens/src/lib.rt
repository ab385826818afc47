//! The tokens of formulas of LTLf and LDLf: signs, words and names.
//!
//! `specs/Words.antt` says what words are and which are reserved, `specs/Spelling.antt` how bytes are cut into tokens,
//! `specs/Signs.antt` that each is the longest, and `specs/Names.antt` what a table of names is.
#![tactic(auto)]

mod dialect;
mod name_fault;
mod names;
mod spelling;
mod token;
mod word;

pub use dialect::Dialect;
pub use name_fault::NameFault;
pub use names::Names;
pub use spelling::{Found, Lexeme, laws_of_pieces, laws_of_tokens, next_lexeme};
pub use token::{Infix, Leaf, Modality, PathInfix, Prefix, Token};
pub use word::{LONGEST_WORD, begins_word, is_blank, word_length};
