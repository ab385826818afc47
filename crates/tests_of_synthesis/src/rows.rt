//! Runs of the command `synth` over memory.
ghost use Rattle.std.specs.Prelude.{◌≡◌, IfOk, length};
ghost use Rattle.bes_io.specs.Forms.{MemoryFiles};

use bes_io::{MemFiles, MemSink, Memory, Text, Word};
use command_endings::finish;
use std::alloc::Global;
use synth_command::synthesise_file;

/// A specification file, and what its run writes, says and answers.
#[derive(Clone, Copy)]
pub struct Row {
    pub specification: &'static str,
    pub output: &'static str,
    pub message: &'static str,
    pub status: u8,
}

// One file with this content.
fn file(alloc: Global, content: &str) -> Result<MemFiles, Memory> {
    let mut names = Vec::new(alloc);
    names.push(Word::new(alloc, b"spec")?)?;
    let mut text = Text::new(alloc);
    text.push(content.as_bytes())?;
    let mut contents = Vec::new(alloc);
    contents.push(text)?;
    Ok(MemFiles::new(alloc, names, contents, Vec::new(alloc)))
}

/// Whether a run over the row's file, named by this word, is as the row says.
pub fn agrees(alloc: Global, word: &[u8], row: &Row) -> Result<bool, Memory> {
    let name = Word::new(alloc, word)?;
    let mut files = file(alloc, row.specification)?;
    let mut out = MemSink::new(alloc, 100_000, 0, Vec::new(alloc))?;
    let mut err = MemSink::new(alloc, 1000, 0, Vec::new(alloc))?;
    let ending = synthesise_file(alloc, &name, &mut files, &mut out);
    let status = finish(ending, &mut err);
    Ok(
        status.number == row.status
            && out.bytes() == row.output.as_bytes()
            && err.bytes() == row.message.as_bytes(),
    )
}
