//! What the suite asks of the outside, and how it fails.
ghost use Rattle.std.specs.Prelude.{◌≡◌, ℕ, ◌<◌, ◌≤◌, List, length, Option, IfOk, ◌++◌, vec_len};
ghost use Rattle.bes_io.specs.Asking.{given_bytes};
ghost use Rattle.bes_io.specs.Causes.{HasCause};
ghost use Rattle.bes_io.specs.Streams.{Takes, Puts, ReadsFile, failure};

use crate::words::Word;
use std::alloc::{AllocError, AllocFailed, Global};

/// No memory was found. No contract says when.
#[derive(Debug, Clone, Copy, PartialEq, Eq)]
pub struct Memory;

impl From<AllocError> for Memory {
    fn from(_e: AllocError) -> Memory {
        Memory
    }
}

impl<T: Drop> From<AllocFailed<T>> for Memory {
    fn from(_e: AllocFailed<T>) -> Memory {
        Memory
    }
}

/// A source or a sink failed.
#[derive(Debug, Clone, Copy, PartialEq, Eq)]
pub struct Failed;

/// Why a file was not read.
#[derive(Debug, Clone, Copy, PartialEq, Eq)]
pub enum FileFault {
    /// The outside failed, or there is no such file. The name joins the names that failed.
    Failed,
    /// No memory was found for the bytes, or for the name of a file that may fail.
    Memory,
}

/// Bytes that come in. A source may tell what it has left; `faults` counts its failures, and ends at
/// 2^64 - 1. `IsTaken` says what one call of `take` with some room, which gave these bytes, makes of
/// the source, so that a caller can say how it asks.
pub trait Source {
    ghost left: { Self → Option (List ℕ) };

    ghost faults: { Self → ℕ };

    ghost IsTaken: { Self → ℕ → List ℕ → Self → Type 0 };

    /// Fills the front of `into` and answers with how many bytes. 0 is the end of input. The bytes of `into` past these are
    /// not to be read.
    fn take(&mut self, into: &mut [u8]) -> Result<usize, Failed>
        requires { 0 < length into.old }
        ensures bound { IfOk result (λ n. n ≤ length into.old) }
        ensures bytes { Takes (left self.old) (left self.new) result into.new }
        ensures cause { HasCause (faults self.old) (faults self.new) result }
        ensures taken { IsTaken self.old (length into.old) (given_bytes result into.new) self.new };
}

/// Bytes that go out. A sink may tell what it holds; `faults` counts its failures, and ends at
/// 2^64 - 1. `IsPut` says what one call of `put` with a piece makes of the sink, so that a caller can
/// say how often it asks, and for what.
pub trait Sink {
    ghost held: { Self → Option (List ℕ) };

    ghost faults: { Self → ℕ };

    ghost IsPut: { Self → List ℕ → Self → Type 0 };

    /// Adds the piece. A call that fails may have added its front.
    fn put(&mut self, piece: &[u8]) -> Result<(), Failed>
        ensures bytes { Puts (held self.old) (held self.new) result piece.now }
        ensures cause { HasCause (faults self.old) (faults self.new) result }
        ensures put { IsPut self.old piece.now self.new };
}

/// Files by name. They may tell what they hold; `failed` are the names whose reads failed, in order.
pub trait Files {
    ghost contents: { Self → Option (List ℕ → Option (List ℕ)) };

    ghost failed: { Self → List (List ℕ) };

    /// The first `most` bytes of the file, or all where it is shorter. A missing file fails.
    fn read(&mut self, alloc: Global, name: &Word, most: usize) -> Result<Vec<u8>, FileFault>
        ensures bound { IfOk result (λ text. vec_len text ≤ most) }
        ensures bytes { ReadsFile (contents self.old) name.now most result (λ text. text.items) }
        ensures same { contents self.new ≡ contents self.old }
        ensures failed { failed self.new ≡ failed self.old ++ failure result name.now };
}
