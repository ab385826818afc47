//! The outside of the suite: sources, sinks and files as traits, their forms over memory and over `std`, and lines.
//!
//! `specs/Lines` says what the lines of an input are, and `specs/Reader` what a reader finds; `specs/Streams` and
//! `specs/Causes` say what sources, sinks and files give, take, and when they may fail. It stands on `std`, `arrayvec`,
//! `memchr` and `itoa`.
#![tactic(auto)]

mod laws;
mod lines;
mod memory_files;
mod memory_forms;
mod outside;
mod standard;
mod words;

pub use laws::laws_of_lines;
pub use lines::{Found, LineFault, LineReader};
pub use memory_files::MemFiles;
pub use memory_forms::{MemSink, MemSource};
pub use outside::{Failed, FileFault, Files, Memory, Sink, Source};
pub use standard::{StdFiles, StdSink, StdSource};
pub use words::{Letters, Text, Word};
