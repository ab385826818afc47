//! Tests of pacing, with a reader and a writer that count and fail.
use crate::pacing::{HeldOutput, PacedInput, PacedMessages, PacedOutput, close};
use bes_io::{Sink, StdSink};
use command_endings::Status;
use std::cell::Cell;
use std::io::{Error, ErrorKind, Read, Result, Write};
use std::test::Fail;

// A writer that counts the bytes it took, and fails past its room.
#[derive(Drop)]
struct Counting<'a> {
    taken: &'a Cell<usize>,
    room: usize,
}

impl Write for Counting<'_> {
    fn write(&mut self, bytes: &[u8]) -> Result<usize> {
        let taken = self.taken.get();
        let count = bytes.len().min(self.room.saturating_sub(taken));
        if count == 0 {
            return Err(Error::from(ErrorKind::Other));
        }
        self.taken.set(taken.saturating_add(count));
        Ok(count)
    }

    fn flush(&mut self) -> Result<()> {
        Ok(())
    }
}

// A run that writes five bytes, reads, writes six more, puts a message if it has one, and ends with a status: the room
// of its writer, the bytes that were taken once it has read, and what is heard and answered.
#[derive(Clone, Copy)]
struct Case {
    room: usize,
    message: &'static [u8],
    status: u8,
    taken: usize,
    heard: &'static [u8],
    answer: u8,
}

const FAULT: &[u8] = b"bes: outside fault\n";

const REFUSED: &[u8] = b"bes: input: no event\n";

const CASES: [Case; 6] = [
    Case {
        room: 99,
        message: b"",
        status: 0,
        taken: 5,
        heard: b"",
        answer: 0,
    },
    Case {
        room: 99,
        message: REFUSED,
        status: 4,
        taken: 5,
        heard: REFUSED,
        answer: 4,
    },
    Case {
        room: 8,
        message: b"",
        status: 1,
        taken: 5,
        heard: FAULT,
        answer: 7,
    },
    Case {
        room: 8,
        message: REFUSED,
        status: 7,
        taken: 5,
        heard: FAULT,
        answer: 7,
    },
    Case {
        room: 3,
        message: FAULT,
        status: 7,
        taken: 3,
        heard: FAULT,
        answer: 7,
    },
    Case {
        room: 0,
        message: b"",
        status: 8,
        taken: 0,
        heard: b"",
        answer: 8,
    },
];

#[test]
fn output_waits_for_the_next_read(rt: HostRuntime) -> std::result::Result<(), Fail> {
    for case in CASES {
        let taken = Cell::new(0);
        let mut heard = Vec::new(rt.alloc());
        let room = case.room;
        let writer = Counting {
            taken: &taken,
            room,
        };
        let held = HeldOutput::new(rt.alloc(), writer)?;
        let mut out = StdSink::new(PacedOutput::new(&held));
        let mut err = StdSink::new(PacedMessages::new(&mut heard, &held));
        let mut input = PacedInput::new(b"a\n".as_slice(), &held);
        assert!(rt; out.put(b"true\n").is_ok());
        assert_eq!(rt; taken.get(), 0);
        assert_eq!(rt; input.read(&mut [0u8; 4]).is_ok(), case.taken == 5);
        assert_eq!(rt; taken.get(), case.taken);
        assert!(rt; out.put(b"false\n").is_ok());
        if !case.message.is_empty() {
            assert_eq!(rt; err.put(case.message).is_ok(), case.status == 4);
        }
        let number = case.status;
        assert_eq!(rt; close(&held, &mut err, Status { number }), case.answer);
        assert_eq!(rt; heard.as_slice(), case.heard);
    }
    Ok(())
}

#[test]
fn output_without_memory_is_written_at_once(rt: HostRuntime) -> std::result::Result<(), Fail> {
    let taken = Cell::new(0);
    let writer = Counting {
        taken: &taken,
        room: 8,
    };
    let held = HeldOutput::plain(writer);
    let mut out = StdSink::new(PacedOutput::new(&held));
    assert!(rt; out.put(b"true\n").is_ok());
    assert_eq!(rt; taken.get(), 5);
    assert!(rt; out.put(b"false\n").is_err());
    assert_eq!(rt; taken.get(), 8);
    Ok(())
}
