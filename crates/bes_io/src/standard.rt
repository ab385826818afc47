//! The real outside: standard input and output, and the file system. What a reader or writer of `std` told is passed on by
//! `reads` and `writes`; these three tell no content, so there what `std` does is trusted.
ghost use Rattle.std.specs.Prelude.{◌≡◌, ◌≤◌, ◌<◌, length, [], ◌++◌, IfOk, OnOk, OnErr, vec_len};
ghost use Rattle.std.specs.Str.{IsUtf8};
ghost use Rattle.std.specs.Io.KnownBytes.{ReadConsumes, Appends};
ghost use Rattle.bes_io.specs.Asking.{given_bytes};
ghost use Rattle.bes_io.specs.Causes.{HasCause};
ghost use Rattle.bes_io.specs.Forms.{counted};
ghost use Rattle.bes_io.specs.Streams.{Takes, Puts, ReadsFile, failure};
ghost use Rattle.bes_io.specs.Standard.{reader_of, writer_of, told_left, told_held, IsStdTaken, IsStdPut, source_faults, sink_faults, failed_names, told_contents};

use crate::outside::{Failed, FileFault, Files, Sink, Source};
use crate::words::Word;
use std::alloc::Global;
use std::io::{ErrorKind, Read, Write};
use std::{fs, io, rt};

/// A source over a reader of `std`, as standard input. It tries again where a signal interrupts the reader.
#[derive(Drop)]
pub struct StdSource<R> {
    reader: R,
    faults: u64,
}

impl<R> StdSource<R> {
    /// A source that has not failed yet.
    pub fn new(reader: R) -> Self
        ensures reader { reader_of result ≡ reader }
        ensures faults { source_faults result ≡ 0 }
    {
        StdSource { reader, faults: 0 }
    }
}

impl<R: Read> Source for StdSource<R> {
    ghost left = { told_left };

    ghost faults = { source_faults };

    ghost IsTaken = { IsStdTaken R.remaining };

    fn take(&mut self, into: &mut [u8]) -> Result<usize, Failed>
        requires { 0 < length into.old }
        ensures bound { IfOk result (λ n. n ≤ length into.old) }
        ensures bytes { Takes (told_left self.old) (told_left self.new) result into.new }
        ensures cause { HasCause (source_faults self.old) (source_faults self.new) result }
        ensures taken { IsStdTaken R.remaining self.old (length into.old) (given_bytes result into.new) self.new }

        // One fault is counted once.
        ensures faults { OnErr result (source_faults self.new ≡ counted (source_faults self.old)) }

        // What the reader gave is passed on.
        ensures reads { ReadConsumes (R.remaining (reader_of self.old)) (R.remaining (reader_of self.new)) result into.new }
    {
        // Counted, so that it is seen to end whatever the system does.
        for _ in 0..u64::MAX {
            match self.reader.read(into) {
                Ok(n) => return Ok(n),
                Err(e) if e.kind() == ErrorKind::Interrupted => {}
                Err(_) => break,
            }
        }
        self.faults = self.faults.saturating_add(1);
        Err(Failed)
    }
}

/// A sink over a writer of `std`, as standard output. Each piece is written and flushed before `put` answers.
#[derive(Drop)]
pub struct StdSink<W> {
    writer: W,
    faults: u64,
}

impl<W> StdSink<W> {
    /// A sink that has not failed yet.
    pub fn new(writer: W) -> Self
        ensures writer { writer_of result ≡ writer }
        ensures faults { sink_faults result ≡ 0 }
    {
        StdSink { writer, faults: 0 }
    }
}

// Writes the whole piece, and hands on what the writer keeps back.
fn write_through<W: Write>(writer: &mut W, piece: &[u8]) -> io::Result<()>
    ensures { OnOk result (Appends (W.contents writer.old) (W.contents writer.new) piece.now) }
{
    writer.write_all(piece)?;
    writer.flush()
}

impl<W: Write> Sink for StdSink<W> {
    ghost held = { told_held };

    ghost faults = { sink_faults };

    ghost IsPut = { IsStdPut W.contents };

    fn put(&mut self, piece: &[u8]) -> Result<(), Failed>
        ensures bytes { Puts (told_held self.old) (told_held self.new) result piece.now }
        ensures cause { HasCause (sink_faults self.old) (sink_faults self.new) result }
        ensures put { IsStdPut W.contents self.old piece.now self.new }

        // The writer took the whole piece.
        ensures writes { OnOk result (Appends (W.contents (writer_of self.old)) (W.contents (writer_of self.new)) piece.now) }
    {
        match write_through(&mut self.writer, piece) {
            Ok(()) => Ok(()),
            Err(_) => {
                self.faults = self.faults.saturating_add(1);
                Err(Failed)
            }
        }
    }
}

/// The file system, by names in UTF-8.
#[derive(Drop)]
pub struct StdFiles<'a, R> {
    rt: &'a R,
    failed: Vec<Word>,
}

impl<'a, R> StdFiles<'a, R> {
    /// Files of which none has failed yet.
    pub fn new(rt: &'a R, alloc: Global) -> Self
        ensures { failed_names result ≡ [] }
    {
        StdFiles {
            rt,
            failed: Vec::new(alloc),
        }
    }
}

// The first bytes that a reader gives.
fn read_front<R: Read>(reader: &mut R, alloc: Global, most: usize) -> Result<Vec<u8>, FileFault>
    ensures { IfOk result (λ text. vec_len text ≤ most) }
{
    let mut text = Vec::new(alloc);
    let mut piece = [0u8; 4096];
    // Counted, so that it is seen to end whatever the system does.
    for _ in 0..u64::MAX {
        let room = piece.len().min(most - text.len());
        if room == 0 {
            return Ok(text);
        }
        match reader.read(&mut piece[..room]) {
            Ok(0) => return Ok(text),
            Ok(n) => {
                if text.extend_from_slice(&piece[..n]).is_err() {
                    return Err(FileFault::Memory);
                }
            }
            Err(e) if e.kind() == ErrorKind::Interrupted => {}
            Err(_) => break,
        }
    }
    Err(FileFault::Failed)
}

// The first bytes of the file with this name.
fn read_file<R: rt::Files>(
    rt: &R,
    alloc: Global,
    name: &[u8],
    most: usize,
) -> Result<Vec<u8>, FileFault>
    ensures bound { IfOk result (λ text. vec_len text ≤ most) }
    ensures text { OnOk result (IsUtf8 name.now) }
{
    let Ok(path) = str::from_utf8(name) else {
        return Err(FileFault::Failed);
    };
    match fs::open(rt, path) {
        Ok(mut file) => read_front(&mut file, alloc, most),
        Err(_) => Err(FileFault::Failed),
    }
}

impl<'a, R: rt::Files> Files for StdFiles<'a, R> {
    ghost contents = { told_contents };

    ghost failed = { failed_names };

    /// Room for the name is made before the file is opened; where there is none, nothing has changed.
    fn read(&mut self, alloc: Global, name: &Word, most: usize) -> Result<Vec<u8>, FileFault>
        ensures bound { IfOk result (λ text. vec_len text ≤ most) }
        ensures bytes { ReadsFile (told_contents self.old) name.now most result (λ text. text.items) }
        ensures same { told_contents self.new ≡ told_contents self.old }
        ensures failed { failed_names self.new ≡ failed_names self.old ++ failure result name.now }

        // A name that isn't UTF-8 is the name of no file.
        ensures text { OnOk result (IsUtf8 name.now) }
    {
        let Ok(copy) = Word::new(alloc, name.bytes()) else {
            return Err(FileFault::Memory);
        };
        if self.failed.reserve(1).is_err() {
            return Err(FileFault::Memory);
        }
        let read = read_file(self.rt, alloc, name.bytes(), most);
        if let Err(FileFault::Failed) = read {
            self.failed.push_reserved(copy);
        }
        read
    }
}
