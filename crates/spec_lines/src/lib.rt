//! The lines of a specification file: which count, their keys and what their values stand for.
//!
//! `specs/Lines` cuts a text into lines and a line into key and value, `specs/Keywords` says on how many lines each
//! key may stand, and `specs/Values` what a value stands for. Lines come from `bstr`.
#![tactic(auto)]

mod keywords;
mod lines;
mod text_line;
mod values;

pub use keywords::{Heading, Keyword, count_of, heading_of, keyword_of, most_lines};
pub use lines::{counted_lines, next_word};
pub use text_line::Line;
pub use values::{dialect_of, empty_of, limit_of, most_limit, mover_of};
