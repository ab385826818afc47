//! The faults of the lines of a specification file, but for those of formulas.
ghost use Rattle.std.specs.Prelude.{◌≡◌, ◌++◌, [], Some, None, OnOk, IfErr, map};
ghost use Rattle.spec_lines.specs.Lines.{shown};
ghost use Rattle.spec_lines.specs.Keywords as keywords;
ghost use Rattle.spec_lines.specs.Values.{words_of};
ghost use Rattle.spec_reader.specs.Refusal as refusal;
ghost use Rattle.spec_reader.specs.Refusal.{Blames};
ghost use Rattle.spec_reader.specs.Said as said;

use crate::spec::SpecFault;
use form_tokens::{NameFault, Names};
use spec_lines::{
    Heading, Keyword, Line, count_of, dialect_of, empty_of, keyword_of, limit_of, most_lines,
    mover_of, next_word,
};
use std::alloc::Global;

/// Tries the key of a line, by the lines before it.
fn check_key(heading: Heading, before: &[Line<'_>], line: &Line<'_>) -> Result<(), SpecFault>
    ensures ok { OnOk result (refusal.key_fault heading (map shown before.now) line.now.number (keywords.keyword_of line.now.key.now) ≡ None) }
    ensures fault { IfErr result (λ e. refusal.key_fault heading (map shown before.now) line.now.number (keywords.keyword_of line.now.key.now) ≡ Some e) }
{
    let number = line.number;
    let Some(keyword) = keyword_of(line.key) else {
        return Err(SpecFault::UnknownKey { line: number });
    };
    let most = most_lines(heading, keyword);
    if most == 0 {
        Err(SpecFault::UnknownKey { line: number })
    } else if count_of(before, keyword) < most {
        Ok(())
    } else if most == 1 {
        Err(SpecFault::Repeated { line: number })
    } else {
        Err(SpecFault::TooManyLines { line: number })
    }
}

/// The fault of a line for a name that its table refuses.
fn named(line: u64, fault: NameFault) -> SpecFault
    ensures { result ≡ refusal.named line fault }
{
    match fault {
        NameFault::Bad => SpecFault::BadName { line },
        NameFault::Twice => SpecFault::NameTwice { line },
        NameFault::TooMany => SpecFault::TooManyNames { line },
        NameFault::Memory => SpecFault::Memory,
    }
}

/// Adds the words of a line's value to the names.
pub fn add_names(names: &mut Names, line: u64, value: &[u8]) -> Result<(), SpecFault>
    ensures ok { OnOk result (refusal.names_fault line names.old.names (words_of value.now) ≡ None) }
    ensures added { OnOk result (names.new.names ≡ names.old.names ++ words_of value.now) }
    ensures fault { IfErr result (λ e. Blames e (refusal.names_fault line names.old.names (words_of value.now) ≡ Some e)) }
{
    let mut rest = value;
    while let Some((word, later)) = next_word(rest) {
        match names.add(word) {
            Ok(_) => rest = later,
            Err(fault) => return Err(named(line, fault)),
        }
    }
    Ok(())
}

/// Whether the value is one that the key may have. Names and formulas are tried elsewhere.
fn is_read(heading: Heading, keyword: Keyword, value: &[u8]) -> bool
    ensures { result ≡ said.is_read heading value.now keyword }
{
    match keyword {
        Keyword::Dialect => dialect_of(value).is_some(),
        Keyword::First => mover_of(value).is_some(),
        Keyword::Limit => limit_of(heading, value).is_some(),
        Keyword::Empty => empty_of(value).is_some(),
        _ => true,
    }
}

/// Tries the value of a line, and adds the names that it gives to those given before.
fn check_value(heading: Heading, line: &Line<'_>, given: &mut Names) -> Result<(), SpecFault>
    ensures ok { OnOk result (refusal.value_fault heading given.old.names (shown line.now) (keywords.keyword_of line.now.key.now) ≡ None) }
    ensures given { OnOk result (given.new.names ≡ refusal.given_with given.old.names (shown line.now) (keywords.keyword_of line.now.key.now)) }
    ensures fault { IfErr result (λ e. Blames e (refusal.value_fault heading given.old.names (shown line.now) (keywords.keyword_of line.now.key.now) ≡ Some e)) }
{
    let Some(keyword) = keyword_of(line.key) else {
        return Ok(());
    };
    if keyword == Keyword::Inputs || keyword == Keyword::Outputs {
        return add_names(given, line.number, line.value);
    }
    if is_read(heading, keyword, line.value) {
        Ok(())
    } else {
        Err(SpecFault::BadValue { line: line.number })
    }
}

/// Tries each line: its key, and then its value.
pub fn check_lines(alloc: Global, heading: Heading, lines: &[Line<'_>]) -> Result<(), SpecFault>
    ensures ok { OnOk result (refusal.lines_fault heading [] [] (map shown lines.now) ≡ None) }
    ensures fault { IfErr result (λ e. Blames e (refusal.lines_fault heading [] [] (map shown lines.now) ≡ Some e)) }
{
    let mut given = Names::new(alloc)?;
    for (i, line) in lines.iter().enumerate() {
        check_key(heading, &lines[..i], line)?;
        check_value(heading, line, &mut given)?;
    }
    Ok(())
}
