//! Words, and which of them are reserved.
ghost use Rattle.std.specs.Prelude.{◌≡◌, ◌≤◌, length};
ghost use Rattle.std.specs.List.{list_all};
ghost use Rattle.form_tokens.specs.Words as words;

/// A space or a tab. No other byte is passed over.
pub fn is_blank(byte: u8) -> bool
    ensures { result ≡ words.is_blank byte }
{
    byte == b' ' || byte == b'\t'
}

/// An ASCII letter or `_`, as words begin.
pub fn begins_word(byte: u8) -> bool
    ensures { result ≡ words.begins_word byte }
{
    byte.is_ascii_alphabetic() || byte == b'_'
}

/// An ASCII letter, a digit or `_`, as words go on.
pub fn goes_on(byte: u8) -> bool
    ensures { result ≡ words.goes_on byte }
{
    begins_word(byte) || byte.is_ascii_digit()
}

/// How many bytes at the front are letters, digits or `_`.
#[tactic(auto, using(crate::proofs::Pieces::words))]
pub fn word_length(text: &[u8]) -> usize
    ensures value { result ≡ words.word_length text.now }
    ensures within { result ≤ length text.now }
{
    let mut n = 0;
    for byte in text {
        if !goes_on(*byte) {
            return n;
        }
        n += 1;
    }
    n
}

/// Whether the word is a constant of a formula.
pub fn is_constant(word: &[u8]) -> bool
    ensures { result ≡ words.is_constant word.now }
{
    word == b"true".as_slice()
        || word == b"tt".as_slice()
        || word == b"false".as_slice()
        || word == b"ff".as_slice()
        || word == b"last".as_slice()
        || word == b"end".as_slice()
}

/// Whether the word is an operator of LTLf.
pub fn is_operator(word: &[u8]) -> bool
    ensures { result ≡ words.is_operator word.now }
{
    word == b"X".as_slice()
        || word == b"N".as_slice()
        || word == b"WX".as_slice()
        || word == b"F".as_slice()
        || word == b"G".as_slice()
        || word == b"U".as_slice()
        || word == b"R".as_slice()
}

/// Whether the word is reserved and has no place in a formula.
pub fn is_unused(word: &[u8]) -> bool
    ensures { result ≡ words.is_unused word.now }
{
    word == b"W".as_slice()
        || word == b"M".as_slice()
        || word == b"Y".as_slice()
        || word == b"S".as_slice()
        || word == b"O".as_slice()
        || word == b"H".as_slice()
}

/// Whether the bytes are a word of at most 64 bytes that is not reserved.
pub fn is_name(word: &[u8]) -> bool
    ensures { result ≡ words.is_name word.now }
{
    is_word(word) && !is_constant(word) && !is_operator(word) && !is_unused(word)
}

/// The most bytes of a word.
pub const LONGEST_WORD: usize = 64;

fn is_word(word: &[u8]) -> bool
    ensures { result ≡ words.is_word word.now }
{
    begins_with_word(word) && all_go_on(word) && word.len() <= LONGEST_WORD
}

fn begins_with_word(word: &[u8]) -> bool
    ensures { result ≡ words.begins_with_word word.now }
{
    match word {
        [] => false,
        [first, ..] => begins_word(*first),
    }
}

fn all_go_on(word: &[u8]) -> bool
    ensures { result ≡ list_all words.goes_on word.now }
{
    word.iter().all(|byte| goes_on(*byte))
}
