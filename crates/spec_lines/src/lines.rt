//! A text cut into lines, and a line into its key and its value.
ghost use Rattle.std.specs.Prelude.{◌≡◌, ◌≤◌, ◌<◌, ◌∷◌, [], IfOk, IfSome, map, length, MatchOption, true, false};
ghost use Rattle.std.specs.List.{before_first};
ghost use Rattle.form_tokens.specs.Words as words;
ghost use Rattle.spec_lines.specs.Lines as shape;
ghost use Rattle.spec_lines.specs.Values.{words_of};

use crate::text_line::Line;
use bes_io::Memory;
use bstr::ByteSlice;
use form_tokens::is_blank;
use std::alloc::Global;

/// The bytes without the blanks at their front.
fn without_front<'a>(bytes: &'a [u8]) -> &'a [u8]
    ensures value { result.now ≡ shape.without_front bytes.now }
    ensures within { length result.now ≤ length bytes.now }
{
    let mut start = 0;
    while start < bytes.len() && is_blank(bytes[start]) {
        start += 1;
    }
    &bytes[start..]
}

/// The bytes without the blanks at their end.
fn without_back<'a>(bytes: &'a [u8]) -> &'a [u8]
    ensures value { result.now ≡ shape.without_back bytes.now }
    ensures within { length result.now ≤ length bytes.now }
{
    let mut end = bytes.len();
    while end > 0 && is_blank(bytes[end - 1]) {
        end -= 1;
    }
    &bytes[..end]
}

/// The bytes up to the first blank.
fn front_word<'a>(bytes: &'a [u8]) -> &'a [u8]
    ensures value { result.now ≡ before_first words.is_blank bytes.now }
    ensures within { length result.now ≤ length bytes.now }
{
    let mut end = 0;
    while end < bytes.len() && !is_blank(bytes[end]) {
        end += 1;
    }
    &bytes[..end]
}

/// The first word of the bytes, and what follows it; none where only blanks are left.
pub fn next_word<'a>(bytes: &'a [u8]) -> Option<(&'a [u8], &'a [u8])>
    ensures words { MatchOption result (words_of bytes.now ≡ []) (λ p. words_of bytes.now ≡ p.0.now ∷ words_of p.1.now) }
    ensures shorter { IfSome result (λ p. length p.1.now < length bytes.now) }
{
    let front = without_front(bytes);
    if front.is_empty() {
        return None;
    }
    let word = front_word(front);
    Some((word, &front[word.len()..]))
}

/// The line with this number, unless it is passed over.
fn cut<'a>(number: u64, line: &'a [u8]) -> Option<Line<'a>>
    ensures { MatchOption result (shape.is_passed_over line.now ≡ true) (λ found. (shape.is_passed_over line.now ≡ false) × (shape.shown found ≡ shape.text_line number line.now)) }
{
    let front = without_front(line);
    let bare = without_back(front);
    if bare.is_empty() || bare[0] == b'#' {
        return None;
    }
    let key = front_word(bare);
    let value = without_front(&bare[key.len()..]);
    Some(Line {
        number,
        key,
        before: (line.len() - front.len() + (bare.len() - value.len())) as u64,
        value,
    })
}

/// The lines of a text that aren't passed over. A line ends at LF, or at CR and LF; the last may lack its end. Blanks at
/// both ends of a line mean nothing, and a line that is then empty or begins with `#` is passed over.
pub fn counted_lines<'a>(alloc: Global, text: &'a [u8]) -> Result<Vec<Line<'a>>, Memory>
    ensures { IfOk result (λ found. map shape.shown found.items ≡ shape.counted_lines text.now) }
{
    let mut found = Vec::new(alloc);
    let mut number = 0;
    for line in text.lines() {
        number += 1;
        if let Some(line) = cut(number, line) {
            found.push(line)?;
        }
    }
    Ok(found)
}
