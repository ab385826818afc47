//! Messages, gathered without memory.
ghost use Rattle.std.specs.Prelude.{◌≡◌, ◌↔◌, ◌+◌, ◌≤◌, ◌++◌, [], length, decimal, codes, IsTrue};
ghost use Rattle.command_endings.specs.Endings.{message_of, refusal_text, form_fault_text, key_text, specification_line, specification_fault_text, event_fault_text, concern_text, line_text};

use crate::endings::{Concern, Ending, Refusal};
use arrayvec::ArrayVec;
use form_reader::FormFault;
use itoa::Buffer;
use spec_reader::{EventFault, Key, SpecFault};
use std::marker::Model;

/// A message, of at most 4,097 bytes.
#[derive(Drop)]
pub struct Message {
    bytes: ArrayVec<u8, 4097>,
}

impl Model for Message {
    ghost use Rattle.std.specs.Prelude.{ℕ, List};

    ghost Value = { List ℕ };

    ghost view = { λ m. m.bytes.items };
}

impl Message {
    /// The empty message.
    pub fn new() -> Message
        ensures { result ≡ [] }
    {
        Message {
            bytes: ArrayVec::new(),
        }
    }

    /// Appends the piece.
    pub fn text(mut self, piece: &[u8]) -> Message
        requires { length self + length piece.now ≤ 4097 }
        ensures { result ≡ self ++ piece.now }
    {
        match self.bytes.try_extend_from_slice(piece) {
            Ok(()) => self,
            Err(_) => unreachable!(),
        }
    }

    /// Appends the decimal digits of the number, of which there are at most 20.
    pub fn number(self, n: u64) -> Message
        requires { length self + 20 ≤ 4097 }
        ensures text { result ≡ self ++ decimal n }
        ensures short { length result ≤ length self + 20 }
    {
        let mut buffer = Buffer::new();
        self.text(buffer.format(n).as_bytes())
    }

    /// Its bytes.
    pub fn bytes(&self) -> &[u8]
        ensures { result.now ≡ self.now }
    {
        &self.bytes
    }

    /// Whether it has none.
    pub fn is_empty(&self) -> bool
        ensures { IsTrue result ↔ (self.now ≡ []) }
    {
        self.bytes.is_empty()
    }
}

/// Appends the words and a place, which has at most 20 digits.
fn placed(message: Message, words: &[u8], at: u64) -> Message
    requires { length message + length words.now + 20 ≤ 4097 }
    ensures text { result ≡ message ++ (words.now ++ decimal at) }
    ensures short { length result ≤ length message + length words.now + 20 }
{
    message.text(words).number(at)
}

/// Appends why a formula is refused.
#[tactic(auto, unfolding(crate::specs::Endings::form_fault_text))]
fn with_form_fault(message: Message, fault: FormFault) -> Message
    requires { length message ≤ 1000 }
    ensures text { result ≡ message ++ form_fault_text fault }
    ensures short { length result ≤ 2000 }
{
    match fault {
        FormFault::BadByte { at } => placed(message, b"bad byte at ", at),
        FormFault::Unexpected { at } => placed(message, b"unexpected token at ", at),
        FormFault::Unfinished => message.text(b"unfinished"),
        FormFault::TooDeep { at } => placed(message, b"too deep at ", at),
        FormFault::TooManyTokens { at } => placed(message, b"too many tokens at ", at),
        FormFault::TooManyNames { at } => placed(message, b"too many names at ", at),
        FormFault::Undeclared { at } => placed(message, b"undeclared name at ", at),
        FormFault::Memory => message.text(b"out of memory"),
    }
}

/// Appends a key.
#[tactic(auto, unfolding(crate::specs::Endings::key_text))]
fn with_key(message: Message, key: Key) -> Message
    requires { length message ≤ 1000 }
    ensures text { result ≡ message ++ key_text key }
    ensures short { length result ≤ 2000 }
{
    match key {
        Key::Inputs => message.text(b"inputs"),
        Key::Outputs => message.text(b"outputs"),
        Key::First => message.text(b"first"),
        Key::Goal => message.text(b"goal"),
    }
}

/// Appends the words for a refused line of a specification file.
#[tactic(auto, unfolding(crate::specs::Endings::specification_line))]
fn with_line(message: Message, line: u64, words: &[u8]) -> Message
    requires front { length message ≤ 100 }
    requires few { length words.now ≤ 100 }
    ensures text { result ≡ message ++ specification_line line words.now }
    ensures short { length result ≤ 300 }
{
    message.text(b" line ").number(line).text(b": ").text(words)
}

/// Appends why the formula of a line of a specification file is refused.
#[tactic(auto, unfolding(crate::specs::Endings::specification_line))]
fn with_formula_line(message: Message, line: u64, fault: FormFault) -> Message
    requires { length message ≤ 100 }
    ensures text { result ≡ message ++ specification_line line (form_fault_text fault) }
    ensures short { length result ≤ 2000 }
{
    let front = message.text(b" line ").number(line).text(b": ");
    with_form_fault(front, fault)
}

/// Appends why a specification file is refused.
#[tactic(auto, unfolding(crate::specs::Endings::specification_fault_text))]
fn with_specification_fault(message: Message, fault: SpecFault) -> Message
    requires { length message ≤ 100 }
    ensures text { result ≡ message ++ specification_fault_text fault }
    ensures short { length result ≤ 3000 }
{
    match fault {
        SpecFault::TooLong => message.text(b": too long"),
        SpecFault::UnknownKey { line } => with_line(message, line, b"unknown key"),
        SpecFault::Repeated { line } => with_line(message, line, b"repeated key"),
        SpecFault::BadName { line } => with_line(message, line, b"bad name"),
        SpecFault::NameTwice { line } => with_line(message, line, b"name given twice"),
        SpecFault::TooManyNames { line } => with_line(message, line, b"too many names"),
        SpecFault::BadValue { line } => with_line(message, line, b"bad value"),
        SpecFault::Missing { key } => with_key(message.text(b": missing "), key),
        SpecFault::Form { line, fault } => with_formula_line(message, line, fault),
        SpecFault::TooManyLines { line } => with_line(message, line, b"too many lines"),
        SpecFault::Memory => message.text(b": out of memory"),
    }
}

/// Appends why a line is no event.
#[tactic(auto, unfolding(crate::specs::Endings::event_fault_text))]
fn with_event_fault(message: Message, fault: EventFault) -> Message
    requires { length message ≤ 1000 }
    ensures text { result ≡ message ++ event_fault_text fault }
    ensures short { length result ≤ 2000 }
{
    match fault {
        EventFault::BadByte { at } => placed(message, b"bad byte at ", at),
        EventFault::UnknownName { at } => placed(message, b"unknown name at ", at),
    }
}

/// Appends the formula that a limit is passed in.
#[tactic(auto, unfolding(crate::specs::Endings::concern_text))]
fn with_concern(message: Message, concern: Concern) -> Message
    requires { length message ≤ 100 }
    ensures text { result ≡ message ++ concern_text concern }
    ensures short { length result ≤ 200 }
{
    match concern {
        Concern::Formula => message.text(b"formula"),
        Concern::Assume => message.text(b"assume"),
        Concern::Goal => message.text(b"goal"),
        Concern::Duty => message.text(b"duty"),
        Concern::Model => message.text(b"model"),
    }
}

/// The message of a limit that is passed.
#[tactic(auto, unfolding(crate::specs::Endings::refusal_text))]
fn limit_message(concern: Concern, part: u64, count: u32, limit: u32) -> Message
    ensures { result ≡ refusal_text (Refusal.TooMany concern part count limit) }
{
    with_concern(Message::new().text(b"bes: "), concern)
        .text(b" part ")
        .number(part)
        .text(b" has ")
        .number(u64::from(count))
        .text(b" locations, the limit is ")
        .number(u64::from(limit))
        .text(b"\n")
}

/// The front of a message on a line of the input.
fn at_line(line: u64) -> Message
    ensures text { result ≡ codes "bes: input line " ++ decimal line ++ codes ": " }
    ensures short { length result ≤ 100 }
{
    Message::new()
        .text(b"bes: input line ")
        .number(line)
        .text(b": ")
}

const USAGE: &[u8] =
    b"usage: bes judge|forms|translate|monitor DIALECT FORMULA, synth|play SPEC, check, demo N\n";

/// The message of a refusal.
#[tactic(auto, unfolding(crate::specs::Endings::refusal_text, crate::specs::Endings::line_text))]
fn refusal_message(refusal: Refusal) -> Message
    ensures { result ≡ refusal_text refusal }
{
    match refusal {
        Refusal::Usage => Message::new().text(USAGE),
        Refusal::Formula(fault) => {
            with_form_fault(Message::new().text(b"bes: formula: "), fault).text(b"\n")
        }
        Refusal::Specification(fault) => {
            with_specification_fault(Message::new().text(b"bes: specification"), fault).text(b"\n")
        }
        Refusal::TooMany {
            concern,
            part,
            count,
            limit,
        } => limit_message(concern, part, count, limit),
        Refusal::Breakable { rounds } => Message::new()
            .text(b"bes: the assumption can be broken within ")
            .number(rounds)
            .text(b" rounds\n"),
        Refusal::NoEvent => Message::new().text(b"bes: input: no event\n"),
        Refusal::Event { line, fault } => with_event_fault(at_line(line), fault).text(b"\n"),
        Refusal::NotLegal { line } => at_line(line).text(b"not legal").text(b"\n"),
        Refusal::LineTooLong { line } => at_line(line).text(b"line too long").text(b"\n"),
        Refusal::InputTooLong { line } => at_line(line).text(b"input too long").text(b"\n"),
    }
}

/// The message of an ending, which an answer has none of.
pub fn ending_message(ending: Ending) -> Message
    ensures { result ≡ message_of ending }
{
    match ending {
        Ending::Positive => Message::new(),
        Ending::Negative => Message::new(),
        Ending::Refused(refusal) => refusal_message(refusal),
        Ending::OutsideFault => Message::new().text(b"bes: outside fault\n"),
        Ending::NoMemory => Message::new().text(b"bes: out of memory\n"),
    }
}
