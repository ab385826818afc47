//! Sources and sinks over memory, for tests and for callers that have the bytes. `memory_files` has the files.
ghost use Rattle.std.specs.Prelude.{◌≡◌, ◌+◌, ◌-◌, ◌^◌, ◌<◌, ◌≤◌, ◌↔◌, [], ◌++◌, length, take, drop, min, Some, IfOk, IsErr, OnErr};
ghost use Rattle.bes_io.specs.Asking.{given_bytes};
ghost use Rattle.bes_io.specs.Causes.{HasCause};
ghost use Rattle.bes_io.specs.Streams.{Takes, Puts};
ghost use Rattle.bes_io.specs.Forms.{SourceFails, given, counted, IsMemTaken, SinkFails, added_partly, IsMemPut};

use crate::outside::{Failed, Memory, Sink, Source};
use std::alloc::Global;
use std::marker::Model;

/// A source over bytes in memory, whose bytes contracts see.
#[derive(Drop)]
pub struct MemSource {
    bytes: Vec<u8>,
    at: usize,
    piece: usize,
    fails: Vec<u64>,
    calls: u64,
    faults: u64,
}

impl Model for MemSource {
    ghost use Rattle.std.specs.Prelude.{◌≤◌, ◌<◌, ◌^◌, drop, length};
    ghost use Rattle.bes_io.specs.Forms.{MemorySource};

    ghost Value = { MemorySource };

    ghost view = { λ s. record { rest = drop s.at s.bytes.items; piece = s.piece; fails = s.fails.items; calls = s.calls; faults = s.faults } };

    ghost invariant = { λ s. (s.at ≤ length s.bytes.items) × (0 < s.piece) × (s.faults < 2 ^ 64) };
}

impl MemSource {
    /// A source of these bytes that gives at most `piece` of them a call, and of which the calls in `fails`, counted from 1,
    /// fail.
    pub fn new(bytes: Vec<u8>, piece: usize, fails: Vec<u64>) -> MemSource
        requires { 0 < piece }
        ensures rest { result.rest ≡ bytes.items }
        ensures piece { result.piece ≡ piece }
        ensures fails { result.fails ≡ fails.items }
        ensures calls { result.calls ≡ 0 }
        ensures faults { result.faults ≡ 0 }
    {
        MemSource {
            bytes,
            at: 0,
            piece,
            fails,
            calls: 0,
            faults: 0,
        }
    }
}

impl Source for MemSource {
    ghost left = { λ s. Some s.rest };

    ghost faults = { λ s. s.faults };

    ghost IsTaken = { IsMemTaken };

    fn take(&mut self, into: &mut [u8]) -> Result<usize, Failed>
        requires { 0 < length into.old }
        ensures bound { IfOk result (λ n. n ≤ length into.old) }
        ensures bytes { Takes (Some self.old.rest) (Some self.new.rest) result into.new }
        ensures cause { HasCause self.old.faults self.new.faults result }
        ensures taken { IsMemTaken self.old (length into.old) (given_bytes result into.new) self.new }
        ensures exact { IsErr result ↔ SourceFails self.old }
        ensures faults { OnErr result (self.new.faults ≡ counted self.old.faults) }
        ensures count { IfOk result (λ n. n ≡ given self.old (length into.old)) }
        ensures calls { self.new.calls ≡ counted self.old.calls }
        ensures piece { self.new.piece ≡ self.old.piece }
        ensures fails { self.new.fails ≡ self.old.fails }
    {
        self.calls = self.calls.saturating_add(1);
        if self.fails.contains(&self.calls) {
            self.faults = self.faults.saturating_add(1);
            return Err(Failed);
        }
        let rest = &self.bytes[self.at..];
        let n = self.piece.min(into.len()).min(rest.len());
        into[..n].copy_from_slice(&rest[..n]);
        self.at += n;
        Ok(n)
    }
}

/// A sink over memory with room for so many bytes, whose bytes contracts see.
#[derive(Drop)]
pub struct MemSink {
    bytes: Vec<u8>,
    room: usize,
    partly: usize,
    fails: Vec<u64>,
    calls: u64,
    faults: u64,
}

impl Model for MemSink {
    ghost use Rattle.std.specs.Prelude.{◌≤◌, ◌<◌, ◌^◌, vec_capacity, length};
    ghost use Rattle.bes_io.specs.Forms.{MemorySink};

    ghost Value = { MemorySink };

    ghost view = { λ s. record { bytes = s.bytes.items; room = s.room; partly = s.partly; fails = s.fails.items; calls = s.calls; faults = s.faults } };

    ghost invariant = { λ s. (length s.bytes.items ≤ s.room) × (s.room ≤ vec_capacity s.bytes) × (s.faults < 2 ^ 64) };
}

impl MemSink {
    /// An empty sink with room for `room` bytes, of which the calls in `fails`, counted from 1, fail. A call that fails
    /// still adds the first `partly` bytes of its piece.
    pub fn new(
        alloc: Global,
        room: usize,
        partly: usize,
        fails: Vec<u64>,
    ) -> Result<MemSink, Memory>
        ensures empty { IfOk result (λ s. s.bytes ≡ []) }
        ensures room { IfOk result (λ s. s.room ≡ room) }
        ensures partly { IfOk result (λ s. s.partly ≡ partly) }
        ensures fails { IfOk result (λ s. s.fails ≡ fails.items) }
        ensures calls { IfOk result (λ s. s.calls ≡ 0) }
        ensures faults { IfOk result (λ s. s.faults ≡ 0) }
    {
        let bytes = Vec::with_capacity(alloc, room)?;
        Ok(MemSink {
            bytes,
            room,
            partly,
            fails,
            calls: 0,
            faults: 0,
        })
    }

    // Adds bytes for which there is room.
    fn append(&mut self, piece: &[u8])
        requires { length self.old.bytes + length piece.now ≤ self.old.room }
        ensures { self.new ≡ record self.old { bytes = self.old.bytes ++ piece.now } }
    {
        match self.bytes.extend_from_slice(piece) {
            Ok(()) => {}
            Err(_) => unreachable!(),
        }
    }

    /// What the sink holds.
    pub fn bytes(&self) -> &[u8]
        ensures { result.now ≡ self.now.bytes }
    {
        &self.bytes
    }
}

impl Sink for MemSink {
    ghost held = { λ s. Some s.bytes };

    ghost faults = { λ s. s.faults };

    ghost IsPut = { IsMemPut };

    fn put(&mut self, piece: &[u8]) -> Result<(), Failed>
        ensures bytes { Puts (Some self.old.bytes) (Some self.new.bytes) result piece.now }
        ensures cause { HasCause self.old.faults self.new.faults result }
        ensures put { IsMemPut self.old piece.now self.new }
        ensures exact { IsErr result ↔ SinkFails self.old piece.now }
        ensures partly { OnErr result (self.new.bytes ≡ self.old.bytes ++ added_partly self.old piece.now) }
        ensures faults { OnErr result (self.new.faults ≡ counted self.old.faults) }
        ensures calls { self.new.calls ≡ counted self.old.calls }
        ensures room { self.new.room ≡ self.old.room }
        ensures portion { self.new.partly ≡ self.old.partly }
        ensures fails { self.new.fails ≡ self.old.fails }
    {
        self.calls = self.calls.saturating_add(1);
        let room = self.room - self.bytes.len();
        if self.fails.contains(&self.calls) || room < piece.len() {
            self.faults = self.faults.saturating_add(1);
            self.append(&piece[..self.partly.min(room).min(piece.len())]);
            return Err(Failed);
        }
        self.append(piece);
        Ok(())
    }
}
