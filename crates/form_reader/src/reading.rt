//! The formula of a text, token by token.
ghost use Rattle.std.specs.Prelude.{◌≡◌, ◌<◌, ◌+◌, ◌^◌, ◌↔◌, true, Ok, Some, None, [], IfOk, IfErr, OnOk, OnErr, length, take};
ghost use Rattle.forms.specs.Tree.{Formula, tree, nodes};
ghost use Rattle.forms.specs.Proper.{IsProper};
ghost use Rattle.form_tokens.specs.Words.{is_name};
ghost use Rattle.form_reader.specs.Grammar.{IsText};
ghost use Rattle.form_reader.specs.Admitted.{IsAdmitted};
ghost use Rattle.form_tokens.specs.Spelling.{Word, lexemes};
ghost use Rattle.form_reader.specs.Reading.{IsFormulaOf, refusal, tokens_of, names_of, KeepsNames};
ghost use Rattle.form_reader.specs.Machine.{Due, finish};
ghost use Rattle.form_reader.specs.Outcome.{outcome, ended, stage_of};
ghost use Rattle.form_reader.specs.Blames.{Blames, Answers};
ghost use Rattle.form_tokens.specs.Found.{lexeme_at, IsWithin};
ghost use Rattle.form_reader.specs.Stack.{state_of};
ghost use Rattle.form_reader.specs.Turns.{GivesToken, AddsName, Turns, stage_at};

use crate::fault::FormFault;
use crate::item::{Item, Latest};
use crate::step::{StepFault, finish, step};
use form_tokens::{Dialect, Found, Leaf, Lexeme, Names, Token, next_lexeme};
use forms::Form;
use std::alloc::Global;

const MOST_TOKENS: usize = 2000;

const MOST_WAITING: usize = 300;

const MOST_NAMES: u32 = 32;

/// The token of a lexeme, if the rules before the table admit one.
fn token_at(names: &Names, text: &[u8], found: &Found, count: usize) -> Result<Token, FormFault>
    requires { IsWithin found.now text.now }
    ensures { GivesToken result names.now count (lexeme_at found.now text.now) }
{
    let token = match found.lexeme {
        Lexeme::Bad => return Err(FormFault::BadByte {
            at: place(text, found),
        }),
        Lexeme::Sign(token) => token,
        Lexeme::Word => Token::Leaf(Leaf::Name(names.number(&text[found.from..found.to]))),
    };
    if count >= MOST_TOKENS {
        return Err(FormFault::TooManyTokens {
            at: place(text, found),
        });
    }
    Ok(token)
}

/// The place of a lexeme, counted from 1.
fn place(text: &[u8], found: &Found) -> u64
    requires { IsWithin found.now text.now }
    ensures { result ≡ found.now.from + 1 }
{
    // The length of a slice leaves room for one more, which `from` alone does not say.
    text[..found.from].len() as u64 + 1
}

/// Puts a name into the table where it is not there.
fn include(names: &mut Names, name: &[u8], at: u64) -> Result<(), FormFault>
    requires { is_name name.now ≡ true }
    ensures done { AddsName result names.old (at, Word name.now) names.new.names }
    ensures closed { names.new.closed ≡ names.old.closed }
    ensures kept { OnErr result (names.new.names ≡ names.old.names) }
{
    if names.contains(name) {
        return Ok(());
    }
    if names.is_closed() {
        return Err(FormFault::Undeclared { at });
    }
    if names.len() >= MOST_NAMES {
        return Err(FormFault::TooManyNames { at });
    }
    match names.add(name) {
        Ok(_) => Ok(()),
        Err(_) => Err(FormFault::Memory),
    }
}

/// Puts the name of a lexeme into the table, if it is a name.
fn add_name(names: &mut Names, text: &[u8], found: &Found) -> Result<(), FormFault>
    requires { IsWithin found.now text.now }
    ensures done { AddsName result names.old (lexeme_at found.now text.now) names.new.names }
    ensures closed { names.new.closed ≡ names.old.closed }
    ensures kept { OnErr result (names.new.names ≡ names.old.names) }
{
    let at = place(text, found);
    match found.lexeme {
        Lexeme::Word => include(names, &text[found.from..found.to], at),
        Lexeme::Sign(_) => Ok(()),
        Lexeme::Bad => Ok(()),
    }
}

/// Reads one lexeme.
#[tactic(auto, using(crate::proofs::Turns::turns))]
fn read_one(
    alloc: Global,
    names: &mut Names,
    waiting: &mut Vec<Item>,
    latest: Latest,
    text: &[u8],
    found: &Found,
    count: usize,
) -> Result<Latest, FormFault>
    requires { IsWithin found.now text.now }
    ensures done { Turns result names.old.closed
        (stage_at names.old.names count waiting.old.items latest)
        (lexeme_at found.now text.now)
        (λ next. stage_at names.new.names (count + 1) waiting.new.items next) }
    ensures closed { names.new.closed ≡ names.old.closed }
    ensures kept { OnErr result (names.new.names ≡ names.old.names) }
{
    let token = token_at(names, text, found, count)?;
    let next = match step(alloc, waiting, latest, token) {
        Ok(next) => next,
        Err(StepFault::Refused) => return Err(FormFault::Unexpected {
            at: place(text, found),
        }),
        Err(StepFault::Memory) => return Err(FormFault::Memory),
    };
    if waiting.len() > MOST_WAITING {
        return Err(FormFault::TooDeep {
            at: place(text, found),
        });
    }
    add_name(names, text, found)?;
    Ok(next)
}

/// The formula that was read, at the end of the text.
fn end(alloc: Global, waiting: &mut Vec<Item>, latest: Latest) -> Result<Form, FormFault>
    ensures { Answers result (ended (finish (state_of waiting.old.items latest))) }
{
    match latest {
        Latest::Formula(operand) => match finish(alloc, waiting, operand) {
            Ok(form) => Ok(form),
            Err(StepFault::Refused) => Err(FormFault::Unfinished),
            Err(StepFault::Memory) => Err(FormFault::Memory),
        },
        Latest::FormulaDue => Err(FormFault::Unfinished),
        Latest::PathDue => Err(FormFault::Unfinished),
        Latest::Guard(_) => Err(FormFault::Unfinished),
        Latest::Path(_) => Err(FormFault::Unfinished),
        Latest::Starred(_) => Err(FormFault::Unfinished),
    }
}

/// What the machine makes of a text.
fn read_text(
    alloc: Global,
    dialect: Dialect,
    text: &[u8],
    names: &mut Names,
) -> Result<Form, FormFault>
    ensures form { Answers result (outcome names.old.closed (stage_of names.old.names 0 (Due [])) (lexemes dialect text.now)) }
    ensures names { OnOk result (names.new.names ≡ names_of dialect names.old text.now) }
    ensures left { IfErr result (λ e. KeepsNames e dialect names.old text.now names.new.names) }
    ensures closed { names.new.closed ≡ names.old.closed }
{
    let mut waiting = Vec::new(alloc);
    let mut latest = Latest::FormulaDue;
    let mut from = 0;
    let mut in_word = false;
    let mut count = 0;
    while let Some(found) = next_lexeme(dialect, text, from, in_word) {
        latest = read_one(alloc, names, &mut waiting, latest, text, &found, count)?;
        from = found.to;
        in_word = found.is_word;
        count += 1;
    }
    end(alloc, &mut waiting, latest)
}

/// The formula of a text of at most 2,000 tokens, with at most 300 operators and brackets waiting at a time and 32
/// names. New names join the table in order of first use, unless it is closed.
pub fn read_form(
    alloc: Global,
    dialect: Dialect,
    text: &[u8],
    names: &mut Names,
) -> Result<Form, FormFault>
    // What is read is the text of its formula.
    ensures found { IfOk result (λ form. IsFormulaOf dialect names.old text.now (tree form)) }

    // Each text of a formula is read, and there is no other formula.
    ensures only { (f : Formula) → IsFormulaOf dialect names.old text.now f → Answers result (Ok f) }

    // A refusal names the first fault and its place.
    ensures place { IfErr result (λ e. Blames e (refusal dialect names.old text.now ≡ Some e)) }

    // A text that no rule refuses is that of a formula, and the other way round.
    ensures complete { (refusal dialect names.old text.now ≡ None) ↔ ((f : Formula) × IsFormulaOf dialect names.old text.now f) }

    // The tokens have a tree exactly where the table admits them.
    ensures table { let tokens = tokens_of dialect names.old text.now in
        ((f : Formula) × IsText tokens f) ↔ IsAdmitted tokens }

    // They have at most one.
    ensures one_tree { let tokens = tokens_of dialect names.old text.now in
        (f g : Formula) → IsText tokens f → IsText tokens g → f ≡ g }

    // New names go last, in order of first use.
    ensures names { OnOk result (names.new.names ≡ names_of dialect names.old text.now) }

    // After a refusal the names of the tokens before the place are there, after want of memory those of some of these
    // at the front.
    ensures left { IfErr result (λ e. KeepsNames e dialect names.old text.now names.new.names) }

    // Names keep their numbers.
    ensures kept { take (length names.old.names) names.new.names ≡ names.old.names }
    ensures closed { names.new.closed ≡ names.old.closed }
    ensures proper { IfOk result (λ form. IsProper (length names.new.names) (tree form)) }
    ensures small { IfOk result (λ form. nodes (tree form) < 2 ^ 32) }
{
    read_text(alloc, dialect, text, names)
}
