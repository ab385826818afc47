//! Texts too long to be written out.
ghost use Rattle.std.specs.Prelude.{◌≡◌, ◌++◌, IfOk, string_bytes};
ghost use Rattle.std.specs.List.{repeat};

use bes_io::Memory;
use std::alloc::Global;

/// 33 names. The last begins at byte 71.
pub const NAMES: &str = "a|b|c|d|e|f|g|h|i|j|k|l|m|n|o|p|q|r|s|t|u|v|w|x|y|z|aa|ab|ac|ad|ae|af|ag";

/// A head, a piece so many times, and a tail.
pub fn repeated(
    alloc: Global,
    head: &str,
    piece: &str,
    times: usize,
    tail: &str,
) -> Result<String, Memory>
    ensures { IfOk result (λ text. string_bytes text ≡ head.now ++ repeat times piece.now ++ tail.now) }
{
    let mut text = head.to_string(alloc)?;
    let pieces = piece.repeat(alloc, times)?;
    text.push_str(&pieces)?;
    text.push_str(tail)?;
    Ok(text)
}
