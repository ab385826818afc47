//! The trace that the lines of the input give.
ghost use Rattle.std.specs.Prelude.{◌≡◌, ◌≢◌, ℕ, ◌<◌, ◌^◌, List, length, Option, Some, IsSome, IfSome, IfOk, IfErr};
ghost use Rattle.bes_io.specs.Asking.{IsAsked};
ghost use Rattle.bes_io.specs.Reader.{input as input_of, allowed};
ghost use Rattle.command_endings.specs.Endings.{IsUnread, status_of};
ghost use Rattle.input_letters.specs.Letters.{stopped, NextLetter, GivesTrace, HasTraceCause};

use bes_io::{Found, Letters, LineFault, LineReader, Source};
use command_endings::{Ending, Refusal};
use form_tokens::Names;
use spec_reader::{Mode, read_event};
use std::alloc::Global;

/// The most bytes of an input that is judged.
const MOST_INPUT: u64 = 1 << 26;

/// How a run ends where reading lines fails.
fn stop(fault: LineFault, line: u64) -> Ending
    ensures ending { result ≡ stopped line fault }
    ensures late { ¬ IsUnread (status_of result) }
    ensures served { result ≢ Ending.NoMemory }
{
    match fault {
        LineFault::ReadFault => Ending::OutsideFault,
        LineFault::LineTooLong => Ending::Refused(Refusal::LineTooLong { line }),
        LineFault::InputTooLong => Ending::Refused(Refusal::InputTooLong { line }),
    }
}

/// The letter of the next line, which has this number; none at the end of the input.
pub fn next_letter<S: Source>(
    reader: &mut LineReader,
    names: &Names,
    line: u64,
    input: &mut S,
) -> Result<Option<u64>, Ending>
    ensures tells { (bytes : List ℕ) → input_of reader.old (S.left input.old) ≡ Some bytes
        → NextLetter names.now.names line reader.old bytes result reader.new (S.left input.new) }
    ensures cause { HasTraceCause (S.faults input.old) (S.faults input.new) result }
    ensures asked { IsAsked S.faults S.IsTaken input.old input.new }
    ensures progress { IfOk result (λ found. IsSome found → allowed reader.new < allowed reader.old) }
    ensures small { IfOk result (λ found. IfSome found (λ letter. letter < 2 ^ length names.now.names)) }
    ensures late { IfErr result (λ ending. ¬ IsUnread (status_of ending)) }
    ensures served { IfErr result (λ ending. ending ≢ Ending.NoMemory) }
{
    match reader.next(input) {
        Ok(Found::Line) => match read_event(reader.line(), names, Mode::Ignore) {
            Ok(letter) => Ok(Some(letter)),
            Err(fault) => Err(Ending::Refused(Refusal::Event { line, fault })),
        },
        Ok(Found::End) => Ok(None),
        Err(fault) => Err(stop(fault, line)),
    }
}

/// The letters of the input's lines.
pub fn read_trace<S: Source>(alloc: Global, names: &Names, input: &mut S) -> Result<Letters, Ending>
    ensures trace { (rest : List ℕ) → S.left input.old ≡ Some rest
        → GivesTrace names.now.names rest result (S.left input.new) }
    ensures cause { HasTraceCause (S.faults input.old) (S.faults input.new) result }
    ensures asked { IsAsked S.faults S.IsTaken input.old input.new }
    ensures late { IfErr result (λ ending. ¬ IsUnread (status_of ending)) }
{
    let mut letters = Letters::new(alloc);
    let mut reader = LineReader::new(MOST_INPUT);
    loop {
        let line = letters.len() as u64 + 1;
        match next_letter(&mut reader, names, line, input) {
            Ok(Some(letter)) => match letters.push(letter) {
                Ok(()) => {}
                Err(_) => return Err(Ending::NoMemory),
            },
            Ok(None) => return Ok(letters),
            Err(ending) => return Err(ending),
        }
    }
}
