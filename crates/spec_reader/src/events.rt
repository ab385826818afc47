//! Event lines.
ghost use Rattle.std.specs.Prelude.{◌≡◌, ℕ, IfOk, IfErr, Some, None, Ok, if◌then◌else◌};
ghost use Rattle.spec_reader.specs.Event.{IsEventOf, event_fault, is_admitted};
ghost use Rattle.spec_reader.specs.EventPieces.{CutsEachLine, CutsLinesInOneWay};
ghost use Rattle.spec_reader.specs.Word.{with_word};

use form_tokens::{LONGEST_WORD, Names, begins_word, is_blank, word_length};

/// Which words of a line are admitted.
#[derive(Clone, Copy, Debug, PartialEq, Eq)]
pub enum Mode {
    /// Each word: one that is no name of the table is passed over.
    Ignore,
    /// The names numbered from `from` to before `to`, and no other word: none where `from` is not below `to`.
    Only { from: u32, to: u32 },
}

/// Why a line is no event. Places are counted from 1, in bytes.
#[derive(Clone, Copy, Debug, PartialEq, Eq)]
pub enum EventFault {
    /// This byte is no blank and neither begins nor goes on a word, or is the 65th of a run of word bytes.
    BadByte { at: u64 },
    /// At this byte a word begins that the mode does not admit; no answer under `Mode::Ignore`.
    UnknownName { at: u64 },
}

/// The letter of an event line: a proposition is true in it where its name is on the line,
/// once or more often. The line has no line end: a CR in it is a bad byte.
pub fn read_event(line: &[u8], names: &Names, mode: Mode) -> Result<u64, EventFault>
    ensures letter { IfOk result (λ letter. IsEventOf names.now.names mode line.now letter) }
    ensures place { IfErr result (λ fault. event_fault names.now.names mode line.now ≡ Some fault) }
    ensures only { (letter : ℕ) → IsEventOf names.now.names mode line.now letter → result ≡ Ok letter }
{
    let mut letter = 0;
    let mut start = 0;
    while start < line.len() {
        let rest = &line[start..];
        if is_blank(rest[0]) {
            start += 1;
            continue;
        }
        let at = start as u64 + 1;
        if !begins_word(rest[0]) {
            return Err(EventFault::BadByte { at });
        }
        let run = word_length(rest);
        let word = &rest[..run.min(LONGEST_WORD)];
        letter = with_word(letter, word, names, mode).ok_or(EventFault::UnknownName { at })?;
        if run > LONGEST_WORD {
            return Err(EventFault::BadByte {
                at: at + LONGEST_WORD as u64,
            });
        }
        start += run;
    }
    Ok(letter)
}

/// The letter with the word's proposition, if the mode admits the word.
fn with_word(letter: u64, word: &[u8], names: &Names, mode: Mode) -> Option<u64>
    ensures { result ≡ (if is_admitted names.now.names mode word.now then Some (with_word names.now.names word.now letter) else None) }
{
    match (names.find(word), mode) {
        (Some(i), Mode::Only { from, to }) if i < from || to <= i => None,
        (Some(i), _) => Some(letter | 1 << (names.len() - 1 - i)),
        (None, Mode::Ignore) => Some(letter),
        (None, Mode::Only { .. }) => None,
    }
}

/// In order, blanks, runs of word bytes and stray bytes make up an event line, and a run is what it is in a formula. Its
/// first 64 bytes are one word, and its 65th is stray; any other byte is stray exactly where it neither is blank nor begins
/// a run. The function does nothing when it runs.
pub fn laws_of_event_pieces()
    ensures each { CutsEachLine }
    ensures one { CutsLinesInOneWay }
{}
