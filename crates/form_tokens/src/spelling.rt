//! The bytes of a text cut into tokens.
ghost use Rattle.std.specs.Prelude.{◌≡◌, ◌<◌, ◌≤◌, IfSome, length, take, true, false, slice_index};
ghost use Rattle.form_tokens.specs.Words as words;
ghost use Rattle.form_tokens.specs.Spelling as spelling;
ghost use Rattle.form_tokens.specs.Signs.{TakesLongestTokens};
ghost use Rattle.form_tokens.specs.Runs.{CutsEachText, CutsInOneWay};
ghost use Rattle.form_tokens.specs.Found.{lexeme_of, IsPieceAt, IsNamed, IsWithin, lexemes_from, IsFirst};

use crate::dialect::Dialect;
use crate::token::{Infix, Leaf, Modality, PathInfix, Prefix, Token};
use crate::word::{
    LONGEST_WORD, begins_word, goes_on, is_blank, is_constant, is_operator, is_unused, word_length,
};

/// What stands at a place of a text.
#[derive(Clone, Copy)]
pub enum Lexeme {
    Sign(Token),
    /// A name.
    Word,
    Bad,
}

/// A lexeme, its first byte, the byte after it, and whether it is a word.
#[derive(Clone, Copy)]
pub struct Found {
    pub lexeme: Lexeme,
    pub from: usize,
    pub to: usize,
    pub is_word: bool,
}

/// The byte at a place, or 0 past the end, which begins no sign.
fn byte_at(text: &[u8], i: usize) -> u8
    ensures value { result ≡ slice_index text.now i }
    ensures there { 0 < result → i < length text.now }
{
    if i < text.len() { text[i] } else { 0 }
}

/// The sign at the front, and how many bytes it has.
fn sign_at(dialect: Dialect, text: &[u8]) -> Option<(Token, usize)>
    ensures value { result ≡ spelling.sign_at dialect text.now }
    ensures within { IfSome result (λ sign. sign.1 ≤ length text.now) }
    ensures some { IfSome result (λ sign. 0 < sign.1) }
{
    let first = byte_at(text, 0);
    let second = byte_at(text, 1);
    let third = byte_at(text, 2);
    if first == b'(' {
        Some((Token::Open, 1))
    } else if first == b')' {
        Some((Token::Close, 1))
    } else if first == b'!' || first == b'~' {
        Some((Token::Prefix(Prefix::Not), 1))
    } else if first == b'&' {
        Some((Token::Infix(Infix::And), if second == b'&' { 2 } else { 1 }))
    } else if first == b'|' {
        Some((Token::Infix(Infix::Or), if second == b'|' { 2 } else { 1 }))
    } else if first == b'-' && second == b'>' {
        Some((Token::Infix(Infix::Implies), 2))
    } else if first == b'<' && second == b'-' && third == b'>' {
        Some((Token::Infix(Infix::Iff), 3))
    } else {
        dialect_sign(dialect, first)
    }
}

/// The sign of one byte that LDLf alone has.
fn dialect_sign(dialect: Dialect, byte: u8) -> Option<(Token, usize)>
    ensures value { result ≡ spelling.dialect_sign dialect byte }
    ensures some { IfSome result (λ sign. sign.1 ≡ 1) }
    ensures there { IfSome result (λ sign. 0 < byte) }
{
    match dialect {
        Dialect::Ltlf => None,
        Dialect::Ldlf => path_sign(byte).map(|token| (token, 1)),
    }
}

fn path_sign(byte: u8) -> Option<Token>
    ensures value { result ≡ spelling.path_sign byte }
    ensures there { IfSome result (λ token. 0 < byte) }
{
    if byte == b'<' {
        Some(Token::OpenModality(Modality::Diamond))
    } else if byte == b'>' {
        Some(Token::CloseModality(Modality::Diamond))
    } else if byte == b'[' {
        Some(Token::OpenModality(Modality::BoxAll))
    } else if byte == b']' {
        Some(Token::CloseModality(Modality::BoxAll))
    } else if byte == b'{' {
        Some(Token::OpenBrace)
    } else if byte == b'}' {
        Some(Token::CloseBrace)
    } else if byte == b';' {
        Some(Token::PathInfix(PathInfix::Seq))
    } else if byte == b'+' {
        Some(Token::PathInfix(PathInfix::Choice))
    } else if byte == b'*' {
        Some(Token::Star)
    } else if byte == b'?' {
        Some(Token::Question)
    } else {
        None
    }
}

/// What a constant word is.
fn constant(dialect: Dialect, word: &[u8]) -> Token
    ensures { result ≡ spelling.constant dialect word.now }
{
    if word == b"true".as_slice() || word == b"tt".as_slice() {
        Token::Leaf(Leaf::True)
    } else if word == b"false".as_slice() || word == b"ff".as_slice() {
        Token::Leaf(Leaf::False)
    } else if word == b"last".as_slice() {
        last(dialect)
    } else {
        end(dialect)
    }
}

fn last(dialect: Dialect) -> Token
    ensures { result ≡ spelling.last_of dialect }
{
    match dialect {
        Dialect::Ltlf => Token::Leaf(Leaf::Last),
        Dialect::Ldlf => Token::Leaf(Leaf::LastStep),
    }
}

fn end(dialect: Dialect) -> Token
    ensures { result ≡ spelling.end_of dialect }
{
    match dialect {
        Dialect::Ltlf => Token::Reserved,
        Dialect::Ldlf => Token::Leaf(Leaf::End),
    }
}

/// What an operator of LTLf is there.
fn operator(word: &[u8]) -> Token
    ensures { result ≡ spelling.operator word.now }
{
    if word == b"X".as_slice() {
        Token::Prefix(Prefix::Next)
    } else if word == b"N".as_slice() || word == b"WX".as_slice() {
        Token::Prefix(Prefix::WeakNext)
    } else if word == b"F".as_slice() {
        Token::Prefix(Prefix::Eventually)
    } else if word == b"G".as_slice() {
        Token::Prefix(Prefix::Always)
    } else if word == b"U".as_slice() {
        Token::Infix(Infix::Until)
    } else {
        Token::Infix(Infix::Release)
    }
}

fn in_ltlf(dialect: Dialect, token: Token) -> Token
    ensures { result ≡ spelling.in_ltlf dialect token }
{
    match dialect {
        Dialect::Ltlf => token,
        Dialect::Ldlf => Token::Reserved,
    }
}

/// What a word is.
#[tactic(auto, unfolding(crate::specs::Spelling::word_lexeme))]
fn word_lexeme(dialect: Dialect, word: &[u8]) -> Lexeme
    ensures value { lexeme_of result word.now ≡ spelling.word_lexeme dialect word.now }
    ensures name { words.is_word word.now ≡ true → IsNamed (lexeme_of result word.now) }
{
    if is_constant(word) {
        Lexeme::Sign(constant(dialect, word))
    } else if is_operator(word) {
        Lexeme::Sign(in_ltlf(dialect, operator(word)))
    } else if is_unused(word) {
        Lexeme::Sign(Token::Reserved)
    } else {
        Lexeme::Word
    }
}

/// The word at the front, and how many bytes it has.
#[tactic(auto, using(crate::proofs::Pieces::fronts))]
fn word_at(dialect: Dialect, text: &[u8]) -> (Lexeme, usize)
    requires some { 0 < length text.now }
    requires begins { words.begins_word (slice_index text.now 0) ≡ true }
    ensures size { result.1 ≡ words.word_length (take 64 text.now) }
    ensures lexeme { lexeme_of result.0 (take result.1 text.now) ≡ spelling.word_lexeme dialect (take result.1 text.now) }
    ensures named { IsNamed (lexeme_of result.0 (take result.1 text.now)) }
    ensures within { result.1 ≤ length text.now }
    ensures later { 0 < result.1 }
{
    let size = word_length(front(text));
    (word_lexeme(dialect, &text[..size]), size)
}

/// What stands at a place where no blank is.
fn piece_at(dialect: Dialect, text: &[u8], at: usize) -> Found
    requires { at < length text.now }
    ensures value { IsPieceAt dialect result text.now at }
    ensures within { IsWithin result text.now }
    ensures later { at < result.to }
{
    let rest = &text[at..];
    if begins_word(rest[0]) {
        let (lexeme, size) = word_at(dialect, rest);
        Found {
            lexeme,
            from: at,
            to: at + size,
            is_word: true,
        }
    } else {
        match sign_at(dialect, rest) {
            Some((token, size)) => Found {
                lexeme: Lexeme::Sign(token),
                from: at,
                to: at + size,
                is_word: false,
            },
            None => Found {
                lexeme: Lexeme::Bad,
                from: at,
                to: at + 1,
                is_word: false,
            },
        }
    }
}

/// As many bytes at the front as a word may have.
fn front(text: &[u8]) -> &[u8]
    ensures value { result.now ≡ take 64 text.now }
    ensures within { length result.now ≤ length text.now }
    ensures some { 0 < length text.now → 0 < length result.now }
{
    if text.len() < LONGEST_WORD {
        text
    } else {
        &text[..LONGEST_WORD]
    }
}

/// The next piece of the text, where no word stands right before it.
#[tactic(auto, using(crate::proofs::Pieces::steps))]
fn next_apart(dialect: Dialect, text: &[u8], from: usize) -> Option<Found>
    requires { from ≤ length text.now }
    ensures value { IsFirst result dialect text.now (lexemes_from dialect text.now from false) }
    ensures within { IfSome result (λ found. IsWithin found text.now) }
    ensures later { IfSome result (λ found. from < found.to) }
{
    let mut at = from;
    while at < text.len() {
        if !is_blank(text[at]) {
            return Some(piece_at(dialect, text, at));
        }
        at += 1;
    }
    None
}

/// The next piece of the text from a byte on, or `None` at the end. `in_word`: right before it stands a word, whose 65th byte is bad.
#[tactic(auto, using(crate::proofs::Pieces::word_ends))]
pub fn next_lexeme(dialect: Dialect, text: &[u8], from: usize, in_word: bool) -> Option<Found>
    requires { from ≤ length text.now }
    ensures value { IsFirst result dialect text.now (lexemes_from dialect text.now from in_word) }
    ensures within { IfSome result (λ found. IsWithin found text.now) }
    ensures later { IfSome result (λ found. from < found.to) }
{
    if in_word && from < text.len() && goes_on(text[from]) {
        return Some(Found {
            lexeme: Lexeme::Bad,
            from,
            to: from + 1,
            is_word: true,
        });
    }
    next_apart(dialect, text, from)
}

/// At each place the longest token is taken: the longest sign of the dialect, or the longest word. The function does
/// nothing when it runs.
pub fn laws_of_tokens()
    ensures { TakesLongestTokens }
{}

/// In order, blanks, runs of word bytes, longest signs and bad bytes make up a text. A run is one word of its first 64
/// bytes, and each byte behind them is bad; any other byte is bad exactly where neither a sign nor a run begins. The
/// function does nothing when it runs.
pub fn laws_of_pieces()
    ensures each { CutsEachText }
    ensures one { CutsInOneWay }
{}
