//! The lines of a source.
ghost use Rattle.std.specs.Prelude.{◌≡◌, ℕ, ◌+◌, ◌-◌, ◌<◌, ◌≤◌, List, [], length, drop, Option, Some, None, Result, IsSome, IfOk, OnErr, Contains, take};
ghost use Rattle.std.specs.Str.Lines.{strip_carriage_return};
ghost use Rattle.std.specs.Io.{StartsWith};
ghost use Rattle.bes_io.specs.Bytes.{is_lf, text_len};
ghost use Rattle.std.specs.List.{position};
ghost use Rattle.arrayvec.specs.ArrayVec.{array_vec_len};

use crate::outside::Source;
use arrayvec::ArrayVec;
use memchr::memchr;
use std::marker::Model;

/// What a call found.
#[derive(Debug, Clone, Copy, PartialEq, Eq)]
pub enum Found {
    /// A line, which `LineReader::line` gives.
    Line,
    /// The end of input. Each later call answers it again.
    End,
}

/// Why a call found nothing. Where one byte causes both of the last two, the answer is `InputTooLong`.
#[derive(Debug, Clone, Copy, PartialEq, Eq)]
pub enum LineFault {
    /// The source failed. What was gathered is kept for the next call.
    ReadFault,
    /// The line has 4,097 bytes and no LF yet. Each later call answers it again.
    LineTooLong,
    /// One byte more than the reader allows came as part of this line, whose LF counts. Each later call answers it again.
    InputTooLong,
}

/// Whether a reader goes on.
#[derive(Clone, Copy)]
pub enum Phase {
    /// It looks for lines.
    Reading,
    /// Its input has ended.
    Closed,
    /// A line was too long.
    StoppedAtLine,
    /// The input was too long.
    StoppedAtInput,
}

const ROOM: usize = 4097;

/// Finds the lines of a source, one a call, and takes no memory. A line ends at LF, and a CR right before the LF is no part
/// of it; bytes after the last LF are a line too.
#[derive(Drop)]
pub struct LineReader {
    most: u64,
    before: u64,
    buffer: ArrayVec<u8, 4097>,
    // where the bytes begin that no call has found
    start: usize,
    // the place of the line that the last call found
    line: Option<(usize, usize)>,
    phase: Phase,
}

impl Model for LineReader {
    ghost use Rattle.std.specs.Prelude.{◌≤◌, ◌<◌, ◌^◌, drop, length};
    ghost use Rattle.std.specs.List.{slice_range};
    ghost use Rattle.std.specs.Option.{option_map};
    ghost use Rattle.bes_io.specs.Reader.{Reader};
    ghost use Rattle.bes_io.specs.Placed.{IsPlaced};

    ghost Value = { Reader };

    ghost view = { λ r. record {
      most = r.most;
      before = r.before;
      held = drop r.start r.buffer.items;
      line = option_map (λ p. slice_range r.buffer.items p.0 p.1) r.line;
      phase = r.phase;
    } };

    ghost invariant = { λ r. (r.start ≤ length r.buffer.items) × (r.before ≤ r.most) × (r.most < 2 ^ 64) × IsPlaced r.line r.start };
}

// The place of the first LF, where none is among the first bytes.
fn find_lf(bytes: &[u8], searched: usize) -> Option<usize>
    requires within { searched ≤ length bytes.now }
    requires none { searched ≤ text_len bytes.now }
    ensures { result ≡ position is_lf bytes.now }
{
    match memchr(b'\n', &bytes[searched..]) {
        Some(place) => Some(searched + place),
        None => None,
    }
}

// The length of the first n bytes without a CR at their end.
fn without_cr(bytes: &[u8], n: usize) -> usize
    requires { n ≤ length bytes.now }
    ensures text { take result bytes.now ≡ strip_carriage_return (take n bytes.now) }
    ensures within { result ≤ n }
{
    if n > 0 && bytes[n - 1] == b'\r' {
        n - 1
    } else {
        n
    }
}

// Removes the first n bytes.
fn remove_front(buffer: &mut ArrayVec<u8, 4097>, n: usize)
    requires { n ≤ array_vec_len buffer.old }
    ensures { buffer.new.items ≡ drop n buffer.old.items }
{
    buffer.drain(..n);
}

impl LineReader {
    ghost use Rattle.std.specs.Prelude.{Ok, Err};
    ghost use Rattle.bes_io.specs.Asking.{IsAsked, IsTakenOnce};
    ghost use Rattle.bes_io.specs.Causes.{HasCause};
    ghost use Rattle.bes_io.specs.Steps.{decided, settled, closed, holding};
    ghost use Rattle.bes_io.specs.Reader.{fresh, allowed, input, next_of, Finds, HasReadCause, HeldTells, StandsAfter, IsStopped, Repeats};
    ghost use Rattle.bes_io.specs.Lines.{NextLine};

    /// A reader of an input of at most so many bytes, the ends of lines counted.
    pub fn new(most: u64) -> LineReader
        ensures { result ≡ fresh most }
    {
        LineReader {
            most,
            before: 0,
            buffer: ArrayVec::new(),
            start: 0,
            line: None,
            phase: Phase::Reading,
        }
    }

    /// The line that the last call of `next` found, without its end: at most 4,096 bytes.
    pub fn line(&self) -> &[u8]
        requires { IsSome self.now.line }
        ensures { self.now.line ≡ Some result.now }
    {
        match self.line {
            Some((from, to)) => &self.buffer[from..to],
            None => unreachable!(),
        }
    }

    // Answers by the held bytes where they decide, of which the first have been searched.
    fn settle(&mut self, searched: usize) -> Option<Result<Found, LineFault>>
        requires reading { self.old.phase ≡ Phase.Reading }
        requires within { searched ≤ length self.old.held }
        requires none { searched ≤ text_len self.old.held }
        ensures answer { result ≡ decided (allowed self.old) self.old.held }
        ensures after { self.new ≡ settled self.old result }
        ensures room { length self.old.held ≤ 4097 }
        ensures reads_ahead { result ≡ Some (Ok Found.Line) → length self.new.held < 4097 }
    {
        self.line = None;
        let held = &self.buffer[self.start..];
        let allowed = self.most - self.before;
        match find_lf(held, searched) {
            Some(n) => {
                if n as u64 >= allowed {
                    self.phase = Phase::StoppedAtInput;
                    return Some(Err(LineFault::InputTooLong));
                }
                let text = without_cr(held, n);
                self.line = Some((self.start, self.start + text));
                self.before += n as u64 + 1;
                self.start += n + 1;
                Some(Ok(Found::Line))
            }
            None => {
                if held.len() as u64 > allowed {
                    self.phase = Phase::StoppedAtInput;
                    return Some(Err(LineFault::InputTooLong));
                }
                if held.len() > ROOM - 1 {
                    self.phase = Phase::StoppedAtLine;
                    return Some(Err(LineFault::LineTooLong));
                }
                None
            }
        }
    }

    // Takes more bytes.
    fn fill<S: Source>(&mut self, source: &mut S) -> Result<usize, LineFault>
        requires room { length self.old.held < 4097 }
        requires no_line { self.old.line ≡ None }
        ensures input { input self.new (S.left source.new) ≡ input self.old (S.left source.old) }
        ensures keeps { StartsWith self.new.held self.old.held }
        ensures grows { IfOk result (λ n. length self.new.held ≡ length self.old.held + n) }
        ensures nothing { result ≡ Ok 0 → self.new.held ≡ self.old.held }
        ensures same { self.new ≡ holding self.old self.new.held }
        ensures end { result ≡ Ok 0 → (rest : List ℕ) → S.left source.new ≡ Some rest → rest ≡ [] }
        ensures err { OnErr result ((self.new.held ≡ self.old.held) × (result ≡ Err LineFault.ReadFault)) }
        ensures cause { HasCause (S.faults source.old) (S.faults source.new) result }
        ensures taken { IsTakenOnce S.IsTaken source.old source.new }
    {
        remove_front(&mut self.buffer, self.start);
        self.start = 0;
        let mut piece = [0u8; ROOM];
        let room = self.buffer.remaining_capacity();
        match source.take(&mut piece[..room]) {
            Ok(n) => {
                // no more was asked than there is room for
                let _ = self.buffer.try_extend_from_slice(&piece[..n]);
                Ok(n)
            }
            Err(_) => Err(LineFault::ReadFault),
        }
    }

    // At the end of input what is held is the last line.
    fn close(&mut self) -> Found
        requires open { self.old.phase ≡ Phase.Reading }
        requires no_line { self.old.line ≡ None }
        requires undecided { decided (allowed self.old) self.old.held ≡ None }
        ensures answer { Ok result ≡ next_of (allowed self.old) self.old.held }
        ensures after { self.new ≡ closed self.old }
    {
        self.phase = Phase::Closed;
        let end = self.buffer.len();
        if end == self.start {
            return Found::End;
        }
        self.line = Some((self.start, end));
        self.before += (end - self.start) as u64;
        self.start = end;
        Found::Line
    }

    // Takes bytes until they decide, or the input ends.
    fn gather<S: Source>(&mut self, source: &mut S) -> Result<Found, LineFault>
        requires open { self.old.phase ≡ Phase.Reading }
        requires no_line { self.old.line ≡ None }
        requires undecided { decided (allowed self.old) self.old.held ≡ None }
        ensures finds { (bytes : List ℕ) → input self.old (S.left source.old) ≡ Some bytes
            → Finds self.old bytes result self.new (S.left source.new) }
        ensures cause { HasReadCause (S.faults source.old) (S.faults source.new) result }
        ensures asked { IsAsked S.faults S.IsTaken source.old source.new }
        ensures held { HeldTells self.old result self.new }
        ensures stands { StandsAfter result self.new }
        ensures progress { result ≡ Ok Found.Line → allowed self.new < allowed self.old }
        ensures reads_ahead { result ≡ Ok Found.Line → length self.new.held < 4097 }
    {
        loop {
            let searched = self.buffer.len() - self.start;
            if self.fill(source)? == 0 {
                return Ok(self.close());
            }
            if let Some(answer) = self.settle(searched) {
                return answer;
            }
        }
    }

    // Finds the next line of the source.
    fn find_next<S: Source>(&mut self, source: &mut S) -> Result<Found, LineFault>
        ensures finds { (bytes : List ℕ) → input self.old (S.left source.old) ≡ Some bytes
            → Finds self.old bytes result self.new (S.left source.new) }
        ensures cause { HasReadCause (S.faults source.old) (S.faults source.new) result }
        ensures asked { IsAsked S.faults S.IsTaken source.old source.new }
        ensures held { HeldTells self.old result self.new }
        ensures stands { StandsAfter result self.new }
        ensures repeats { Repeats self.old.phase result }
        ensures progress { result ≡ Ok Found.Line → allowed self.new < allowed self.old }
        ensures reads_ahead { result ≡ Ok Found.Line → length self.new.held < 4097 }
        ensures untouched { Contains self.old.held 10 → source.new ≡ source.old }
        ensures stopped { IsStopped self.old.phase → source.new ≡ source.old }
    {
        self.line = None;
        match self.phase {
            Phase::Reading => match self.settle(0) {
                Some(answer) => answer,
                None => self.gather(source),
            },
            Phase::Closed => Ok(Found::End),
            Phase::StoppedAtLine => Err(LineFault::LineTooLong),
            Phase::StoppedAtInput => Err(LineFault::InputTooLong),
        }
    }

    /// Finds the next line of the source, and keeps it for `line`. Ask one source until it ends: the reader keeps what it
    /// took from it.
    pub fn next<S: Source>(&mut self, source: &mut S) -> Result<Found, LineFault>
        // Over a source that tells its rest, the lines that calls find are the lines of what is still to come, in order.
        ensures lines { (bytes : List ℕ) → input self.old (S.left source.old) ≡ Some bytes
            → NextLine self.old bytes result self.new (S.left source.new) }

        // There the answer goes by the first line of these bytes, and a fault of reading leaves them.
        ensures finds { (bytes : List ℕ) → input self.old (S.left source.old) ≡ Some bytes
            → Finds self.old bytes result self.new (S.left source.new) }

        // A fault of reading comes only where the source's count rose, and no LF is held after it. What the held bytes
        // tell holds over every source.
        ensures cause { HasReadCause (S.faults source.old) (S.faults source.new) result }
        ensures no_line { result ≡ Err LineFault.ReadFault → ¬ Contains self.new.held 10 }
        ensures held { HeldTells self.old result self.new }

        // A reader that has stopped answers the same again.
        ensures stands { StandsAfter result self.new }
        ensures repeats { Repeats self.old.phase result }
        ensures progress { result ≡ Ok Found.Line → allowed self.new < allowed self.old }
        ensures reads_ahead { result ≡ Ok Found.Line → length self.new.held < 4097 }

        // What a call makes of the source are calls of `take`, and a source that failed is not asked again by this call.
        ensures asked { IsAsked S.faults S.IsTaken source.old source.new }

        // Where an LF is held, and where the reader has stopped, the source is not asked.
        ensures untouched { Contains self.old.held 10 → source.new ≡ source.old }
        ensures stopped { IsStopped self.old.phase → source.new ≡ source.old }
    {
        self.find_next(source)
    }
}
