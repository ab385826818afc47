//! The commands, by the words.
ghost use Rattle.std.specs.Prelude.{◌≡◌};
ghost use Rattle.std.specs.Str.{bytes_eq};
ghost use Rattle.bes_suite.specs.Commands.{command_in, command_named, command_of, command_on, dialect_of, word_at};

use bes_io::Word;
use form_tokens::Dialect;

/// What a command line asks for.
#[derive(Clone, Copy, Debug, PartialEq, Eq)]
pub enum Command {
    /// The words are none of the listed forms.
    Usage,
    /// Whether a trace meets a formula of this dialect.
    Judge(Dialect),
    /// How a formula of this dialect is read, and its negation normal form.
    Forms(Dialect),
    /// The least automaton of a formula of this dialect.
    Translate(Dialect),
    /// The verdict of a formula of this dialect after each event.
    Monitor(Dialect),
    /// The strategy of the specification in a file.
    Synth,
}

/// Whether the word is this text.
fn is_word(word: &[u8], text: &[u8]) -> bool
    ensures { result ≡ bytes_eq word.now text.now }
{
    word == text
}

/// The dialect that the word names.
fn find_dialect(word: &[u8]) -> Option<Dialect>
    ensures { result ≡ dialect_of word.now }
{
    if is_word(word, b"ltlf") {
        Some(Dialect::Ltlf)
    } else if is_word(word, b"ldlf") {
        Some(Dialect::Ldlf)
    } else {
        None
    }
}

/// The command that a word names, in a dialect.
fn find_command_in(word: &[u8], dialect: Dialect) -> Command
    ensures { result ≡ command_in word.now dialect }
{
    if is_word(word, b"judge") {
        Command::Judge(dialect)
    } else if is_word(word, b"forms") {
        Command::Forms(dialect)
    } else if is_word(word, b"translate") {
        Command::Translate(dialect)
    } else if is_word(word, b"monitor") {
        Command::Monitor(dialect)
    } else {
        Command::Usage
    }
}

/// The command that a word names, on a file.
fn find_command_on(word: &[u8]) -> Command
    ensures { result ≡ command_on word.now }
{
    if is_word(word, b"synth") {
        Command::Synth
    } else {
        Command::Usage
    }
}

/// The command of so many words, of which these are the first two.
pub fn named_command(count: usize, first: &[u8], second: &[u8]) -> Command
    ensures { result ≡ command_named count first.now second.now }
{
    if count == 2 {
        return find_command_on(first);
    }
    if count != 3 {
        return Command::Usage;
    }
    match find_dialect(second) {
        Some(dialect) => find_command_in(first, dialect),
        None => Command::Usage,
    }
}

/// The bytes of a word of the command line, and none past the last.
fn word_at(words: &[Word], i: usize) -> &[u8]
    ensures { result.now ≡ word_at words.now i }
{
    if i < words.len() {
        words[i].bytes()
    } else {
        b""
    }
}

/// The command of the words.
pub fn find_command(words: &[Word]) -> Command
    ensures { result ≡ command_of words.now }
{
    named_command(words.len(), word_at(words, 0), word_at(words, 1))
}
