//! The keys of a specification file, and on how many lines each may stand.
ghost use Rattle.std.specs.Prelude.{◌≡◌, map};
ghost use Rattle.spec_lines.specs.Lines.{shown};
ghost use Rattle.spec_lines.specs.Keywords as keywords;

use crate::text_line::Line;

/// A key of a specification file.
#[derive(Clone, Copy, Debug, PartialEq, Eq)]
pub enum Keyword {
    /// Which version the file has; the leading line alone may say it.
    Version,
    /// The dialect of every formula.
    Dialect,
    /// Names of the environment's propositions.
    Inputs,
    /// Names of the agent's propositions.
    Outputs,
    /// Who moves first.
    First,
    /// A formula that every nonempty prefix is taken to satisfy.
    Assume,
    /// A formula to be met.
    Goal,
    /// How many locations an automaton may have.
    Limit,
    /// Whether the empty history may meet the goal.
    Empty,
    /// A formula that every nonempty prefix has to satisfy.
    Duty,
}

/// What the leading line of a file says of its version.
#[derive(Clone, Copy, Debug, PartialEq, Eq)]
pub enum Heading {
    /// It has another key, or there is no line: the file has version 1.
    Unsaid,
    /// `version 1`.
    One,
    /// `version 2`.
    Two,
}

impl Keyword {
    /// The word of the key.
    #[tactic(auto, unfolding(crate::specs::Keywords::word_of))]
    pub fn word(self) -> &'static [u8]
        ensures { result.now ≡ keywords.word_of self }
    {
        match self {
            Keyword::Version => b"version".as_slice(),
            Keyword::Dialect => b"dialect".as_slice(),
            Keyword::Inputs => b"inputs".as_slice(),
            Keyword::Outputs => b"outputs".as_slice(),
            Keyword::First => b"first".as_slice(),
            Keyword::Assume => b"assume".as_slice(),
            Keyword::Goal => b"goal".as_slice(),
            Keyword::Limit => b"limit".as_slice(),
            Keyword::Empty => b"empty".as_slice(),
            Keyword::Duty => b"duty".as_slice(),
        }
    }
}

const KEYWORDS: [Keyword; 10] = [
    Keyword::Version,
    Keyword::Dialect,
    Keyword::Inputs,
    Keyword::Outputs,
    Keyword::First,
    Keyword::Assume,
    Keyword::Goal,
    Keyword::Limit,
    Keyword::Empty,
    Keyword::Duty,
];

/// The key that has this word.
pub fn keyword_of(word: &[u8]) -> Option<Keyword>
    ensures { result ≡ keywords.keyword_of word.now }
{
    for keyword in KEYWORDS {
        if word == keyword.word() {
            return Some(keyword);
        }
    }
    None
}

/// On how many lines a key may stand: on none where the key is unknown under this heading.
pub fn most_lines(heading: Heading, keyword: Keyword) -> usize
    ensures { result ≡ keywords.most_lines heading keyword }
{
    match (heading, keyword) {
        (Heading::Unsaid, Keyword::Version | Keyword::Empty | Keyword::Duty) => 0,
        (Heading::One, Keyword::Empty | Keyword::Duty) => 0,
        (Heading::Two, Keyword::Assume | Keyword::Goal | Keyword::Duty) => 64,
        _ => 1,
    }
}

/// How many of the lines have this key.
pub fn count_of(lines: &[Line<'_>], keyword: Keyword) -> usize
    ensures { result ≡ keywords.count_of keyword (map shown lines.now) }
{
    let word = keyword.word();
    lines.iter().filter(|line| line.key == word).count()
}

/// What the leading line says of the version, unless it says what is no version.
pub fn heading_of(lines: &[Line<'_>]) -> Option<Heading>
    ensures { result ≡ keywords.heading_of (map shown lines.now) }
{
    match lines {
        [] => Some(Heading::Unsaid),
        [first, ..] if first.key == Keyword::Version.word() => heading_of_value(first.value),
        [_, ..] => Some(Heading::Unsaid),
    }
}

fn heading_of_value(value: &[u8]) -> Option<Heading>
    ensures { result ≡ keywords.heading_of_value value.now }
{
    if value == b"1".as_slice() {
        Some(Heading::One)
    } else if value == b"2".as_slice() {
        Some(Heading::Two)
    } else {
        None
    }
}
