//! Output that is held back until the program asks for more input, puts a message, or ends.
ghost use Rattle.std.specs.Prelude.{◌≡◌, ◌≢◌, ◌⊎◌, codes};
ghost use Rattle.std.specs.Io.{WritesAtMost};

use bes_io::Sink;
use command_endings::Status;
use std::alloc::Global;
use std::cell::RefCell;
use std::io::{BufWriter, Error, ErrorKind, Read, Result, Write};

const OUTSIDE_FAULT: &[u8] = b"bes: outside fault\n";

/// Where the output goes: into a buffer first or, where there is no memory for one, at once.
#[derive(Drop)]
enum Output<W: Write + Drop> {
    Buffered(BufWriter<W>),
    Plain(W),
}

/// A writer that several hold, with the bytes that wait for it.
#[derive(Drop)]
pub struct HeldOutput<W: Write + Drop> {
    writer: RefCell<Output<W>>,
}

impl<W: Write + Drop> HeldOutput<W> {
    /// Nothing waits yet. It fails where there is no memory for the buffer.
    pub fn new(alloc: Global, writer: W) -> Result<Self> {
        Ok(HeldOutput {
            writer: RefCell::new(Output::Buffered(BufWriter::new(alloc, writer)?)),
        })
    }

    /// An output of which nothing ever waits. It takes no memory.
    pub fn plain(writer: W) -> Self {
        HeldOutput {
            writer: RefCell::new(Output::Plain(writer)),
        }
    }

    fn write(&self, bytes: &[u8]) -> Result<usize>
        ensures { WritesAtMost result bytes.now }
    {
        match self.writer.try_borrow_mut() {
            Ok(mut output) => match &mut *output {
                Output::Buffered(writer) => writer.write(bytes),
                Output::Plain(writer) => writer.write(bytes),
            },
            Err(_) => Err(Error::from(ErrorKind::Other)),
        }
    }

    /// Writes all that waits. What a fault leaves unwritten waits on.
    pub fn flush(&self) -> Result<()> {
        match self.writer.try_borrow_mut() {
            Ok(mut output) => match &mut *output {
                Output::Buffered(writer) => writer.flush(),
                Output::Plain(writer) => writer.flush(),
            },
            Err(_) => Err(Error::from(ErrorKind::Other)),
        }
    }
}

/// Output that waits.
#[derive(Drop)]
pub struct PacedOutput<'a, W: Write + Drop> {
    held: &'a HeldOutput<W>,
}

impl<'a, W: Write + Drop> PacedOutput<'a, W> {
    /// An output whose writes wait in what is held.
    pub fn new(held: &'a HeldOutput<W>) -> Self {
        PacedOutput { held }
    }
}

impl<W: Write + Drop> Write for PacedOutput<'_, W> {
    fn write(&mut self, bytes: &[u8]) -> Result<usize> {
        self.held.write(bytes)
    }

    // What waits is written before the next read.
    fn flush(&mut self) -> Result<()> {
        Ok(())
    }
}

/// Input before each read of which the output that waits is written. A fault of writing is a fault of the read.
#[derive(Drop)]
pub struct PacedInput<'a, R, W: Write + Drop> {
    reader: R,
    held: &'a HeldOutput<W>,
}

impl<'a, R, W: Write + Drop> PacedInput<'a, R, W> {
    /// An input that reads on only when nothing waits.
    pub fn new(reader: R, held: &'a HeldOutput<W>) -> Self {
        PacedInput { reader, held }
    }
}

impl<R: Read, W: Write + Drop> Read for PacedInput<'_, R, W> {
    fn read(&mut self, into: &mut [u8]) -> Result<usize> {
        self.held.flush()?;
        self.reader.read(into)
    }
}

/// A place for messages, before each of which the output that waits is written. Where that fails, the message of a fault
/// of the outside stands in place of the one that was given, and the write fails.
#[derive(Drop)]
pub struct PacedMessages<'a, E, W: Write + Drop> {
    writer: E,
    held: &'a HeldOutput<W>,
}

impl<'a, E, W: Write + Drop> PacedMessages<'a, E, W> {
    /// Messages that come after all that waits.
    pub fn new(writer: E, held: &'a HeldOutput<W>) -> Self {
        PacedMessages { writer, held }
    }
}

impl<E: Write, W: Write + Drop> Write for PacedMessages<'_, E, W> {
    fn write(&mut self, bytes: &[u8]) -> Result<usize> {
        match self.held.flush() {
            Ok(()) => self.writer.write(bytes),
            Err(fault) => {
                self.writer.write_all(OUTSIDE_FAULT)?;
                Err(fault)
            }
        }
    }

    fn flush(&mut self) -> Result<()> {
        self.writer.flush()
    }
}

/// Writes what still waits after a run with this status, and answers the status of the program. A fault that shows only
/// here has the message and the status of a fault of the outside.
pub fn close<W: Write + Drop, E: Sink>(held: &HeldOutput<W>, err: &mut E, status: Status) -> u8
    ensures status { (result ≡ status.number) ⊎ (result ≡ 7) }
    ensures memory { status.number ≡ 8 → result ≡ 8 }

    // The message of a fault is put where the status changes, in one call, and nowhere else: a fault that was told isn't
    // told again.
    ensures quiet { result ≡ status.number → err.new ≡ err.old }
    ensures told { result ≢ status.number → E.IsPut err.old (codes "bes: outside fault\n") err.new }
{
    match (held.flush(), status.number) {
        (Err(_), 0..=6) => {
            let _ = err.put(OUTSIDE_FAULT);
            7
        }
        (_, number) => number,
    }
}
