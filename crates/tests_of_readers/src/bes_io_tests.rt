//! Lines, texts and lists, the forms over memory, and the real outside.
use bes_io::*;
use std::alloc::Global;
use std::fs;
use std::io::{self, BufWriter, ErrorKind, Read};
use std::test::Fail;

// An input: so many times `a`, and then a tail; the most bytes of a call, the calls that fail, and what the reader finds.
#[derive(Clone, Copy)]
struct Case<'a> {
    most: u64,
    front: usize,
    tail: &'a [u8],
    piece: usize,
    fails: &'a [u64],
    found: &'a [u8],
}

fn whole<'a>(most: u64, front: usize, tail: &'a [u8], found: &'a [u8]) -> Case<'a> {
    Case {
        most,
        front,
        tail,
        piece: 4096,
        fails: &[],
        found,
    }
}

// The bytes of a case's input.
fn input_of(alloc: Global, front: usize, tail: &[u8]) -> Result<Vec<u8>, Memory> {
    let mut bytes = vec![in alloc; b'a'; front]?;
    bytes.extend_from_slice(tail)?;
    Ok(bytes)
}

// Notes the answer of one call: a line by its length and, where it is short, its bytes.
fn note<S: Source>(
    reader: &mut LineReader,
    source: &mut S,
    notes: &mut Text,
) -> Result<(), Memory> {
    match reader.next(source) {
        Ok(Found::Line) => {
            let line = reader.line();
            notes.number(line.len() as u64)?;
            if line.len() < 9 {
                notes.push(b":")?;
                notes.push(line)?;
            }
        }
        Ok(Found::End) => notes.push(b"End")?,
        Err(LineFault::ReadFault) => notes.push(b"ReadFault")?,
        Err(LineFault::LineTooLong) => notes.push(b"LineTooLong")?,
        Err(LineFault::InputTooLong) => notes.push(b"InputTooLong")?,
    }
    notes.push(b"|")
}

// What so many calls find.
fn notes_of<S: Source>(
    alloc: Global,
    most: u64,
    source: &mut S,
    calls: u32,
) -> Result<Text, Memory> {
    let mut reader = LineReader::new(most);
    let mut notes = Text::new(alloc);
    for _ in 0..calls {
        note(&mut reader, source, &mut notes)?;
    }
    Ok(notes)
}

const INPUT_TOO_LONG: &[u8] = b"InputTooLong|InputTooLong|InputTooLong|";

const LINE_TOO_LONG: &[u8] = b"LineTooLong|LineTooLong|LineTooLong|";

fn rows<'a>() -> [Case<'a>; 15] {
    [
        whole(3, 0, b"ab\nc", b"2:ab|InputTooLong|InputTooLong|"),
        whole(4, 0, b"ab\nc", b"2:ab|1:c|End|"),
        whole(2, 0, b"ab\nc", INPUT_TOO_LONG),
        whole(10000, 4096, b"\n", b"4096|End|End|"),
        whole(10000, 4096, b"", b"4096|End|End|"),
        whole(10000, 4097, b"", LINE_TOO_LONG),
        whole(10000, 4095, b"\r\n", b"4095|End|End|"),
        whole(10000, 4096, b"\r\n", LINE_TOO_LONG),
        whole(4096, 4097, b"", INPUT_TOO_LONG),
        whole(4096, 4096, b"\n", INPUT_TOO_LONG),
        whole(u64::MAX, 0, b"a\r\nb\r", b"1:a|2:b\r|End|"),
        whole(u64::MAX, 0, b"\r\n\nx", b"0:|0:|1:x|"),
        whole(0, 0, b"", b"End|End|End|"),
        Case {
            piece: 1,
            fails: &[2, 6],
            ..whole(u64::MAX, 0, b"ab\nc", b"ReadFault|2:ab|ReadFault|")
        },
        Case {
            piece: 1,
            ..whole(3, 0, b"ab\nc", b"2:ab|InputTooLong|InputTooLong|")
        },
    ]
}

#[test]
fn lines_and_the_faults_after_them(rt: HostRuntime) -> Result<(), Fail> {
    for r in &rows() {
        let bytes = input_of(rt.alloc(), r.front, r.tail)?;
        let mut source = MemSource::new(bytes, r.piece.max(1), r.fails.to_vec(rt.alloc())?);
        let notes = notes_of(rt.alloc(), r.most, &mut source, 3)?;
        assert_eq!(rt; notes.bytes(), r.found);
    }
    Ok(())
}

#[test]
fn lists_grow(rt: HostRuntime) -> Result<(), Fail> {
    let word = Word::new(rt.alloc(), b"F a\xff")?;
    assert_eq!(rt; word.bytes(), b"F a\xff".as_slice());
    let mut text = Text::new(rt.alloc());
    text.push(b"n ")?;
    text.number(0)?;
    text.number(u64::MAX)?;
    assert_eq!(rt; text.bytes(), b"n 018446744073709551615".as_slice());
    let mut letters = Letters::new(rt.alloc());
    letters.push(3)?;
    letters.push(u64::MAX)?;
    assert_eq!(rt; letters.as_slice(), [3, u64::MAX].as_slice());
    assert_eq!(rt; letters.len(), 2);
    assert_eq!(rt; *letters.item(1), u64::MAX);
    Ok(())
}

#[test]
fn a_put_that_fails_adds_its_part(rt: HostRuntime) -> Result<(), Fail> {
    let fails = vec![in rt.alloc(); 2]?;
    let mut sink = MemSink::new(rt.alloc(), 5, 2, fails)?;
    let puts: [(&[u8], Result<(), Failed>, &[u8]); 6] = [
        (b"ab", Ok(()), b"ab"),
        (b"cde", Err(Failed), b"abcd"),
        (b"xy", Err(Failed), b"abcdx"),
        (b"", Ok(()), b"abcdx"),
        (b"z", Err(Failed), b"abcdx"),
        (b"", Ok(()), b"abcdx"),
    ];
    for (piece, answer, bytes) in puts {
        assert_eq!(rt; sink.put(piece), answer);
        assert_eq!(rt; sink.bytes(), bytes);
    }
    Ok(())
}

#[test]
fn files_over_memory(rt: HostRuntime) -> Result<(), Fail> {
    let mut text = Text::new(rt.alloc());
    text.push(b"hello")?;
    let name = Word::new(rt.alloc(), b"a.spec")?;
    let names = vec![in rt.alloc(); Word::new(rt.alloc(), b"a.spec")?]?;
    let contents = vec![in rt.alloc(); text]?;
    let fails = vec![in rt.alloc(); 3]?;
    let mut files = MemFiles::new(rt.alloc(), names, contents, fails);
    assert_eq!(rt;
        files.read(rt.alloc(), &name, 9)?.as_slice(),
        b"hello".as_slice()
    );
    assert_eq!(rt;
        files.read(rt.alloc(), &name, 3)?.as_slice(),
        b"hel".as_slice()
    );
    assert_eq!(rt;
        files.read(rt.alloc(), &name, 9).err(),
        Some(FileFault::Failed)
    );
    let other = Word::new(rt.alloc(), b"b.spec")?;
    assert_eq!(rt;
        files.read(rt.alloc(), &other, 9).err(),
        Some(FileFault::Failed)
    );
    Ok(())
}

#[test]
fn real_streams(rt: HostRuntime) -> Result<(), Fail> {
    let mut sink = StdSink::new(fs::create(&rt, "lines")?);
    assert_eq!(rt; sink.put(b"ab\r\n"), Ok(()));
    assert_eq!(rt; sink.put(b"c"), Ok(()));
    // a file that is open for reading can't be written
    assert_eq!(rt;
        StdSink::new(fs::open(&rt, "lines")?).put(b"d"),
        Err(Failed)
    );

    let mut source = StdSource::new(fs::open(&rt, "lines")?);
    let notes = notes_of(rt.alloc(), 5, &mut source, 3)?;
    assert_eq!(rt; notes.bytes(), b"2:ab|1:c|End|".as_slice());
    // a folder can be opened and not read
    let mut folder = StdSource::new(fs::open(&rt, ".")?);
    let notes = notes_of(rt.alloc(), 5, &mut folder, 2)?;
    assert_eq!(rt; notes.bytes(), b"ReadFault|ReadFault|".as_slice());
    Ok(())
}

// A reader that a signal interrupts at its first call.
#[derive(Drop)]
struct Interrupted {
    again: bool,
}

impl Read for Interrupted {
    fn read(&mut self, into: &mut [u8]) -> io::Result<usize> {
        if !self.again {
            self.again = true;
            return Err(ErrorKind::Interrupted.into());
        }
        match into.first_mut() {
            Some(byte) => *byte = b'a',
            None => return Ok(0),
        }
        Ok(1)
    }
}

#[test]
fn an_interrupted_read_is_made_again(rt: HostRuntime) -> Result<(), Fail> {
    let mut source = StdSource::new(Interrupted { again: false });
    let mut into = [b'-'; 2];
    assert_eq!(rt; source.take(&mut into), Ok(1));
    assert_eq!(rt; into, *b"a-");
    Ok(())
}

#[test]
fn each_piece_is_flushed(rt: HostRuntime) -> Result<(), Fail> {
    let file = fs::create(&rt, "flushed")?;
    let mut sink = StdSink::new(BufWriter::new(rt.alloc(), file)?);
    assert_eq!(rt; sink.put(b"ab"), Ok(()));
    let mut files = StdFiles::new(&rt, rt.alloc());
    let name = Word::new(rt.alloc(), b"flushed")?;
    assert_eq!(rt;
        files.read(rt.alloc(), &name, 9)?.as_slice(),
        b"ab".as_slice()
    );
    Ok(())
}

#[test]
fn a_long_file_is_read_whole_or_to_its_limit(rt: HostRuntime) -> Result<(), Fail> {
    let mut long = [b'a'; 5000];
    long[4999] = b'b';
    assert_eq!(rt; StdSink::new(fs::create(&rt, "long")?).put(&long), Ok(()));
    let mut files = StdFiles::new(&rt, rt.alloc());
    let name = Word::new(rt.alloc(), b"long")?;
    assert!(rt; files.read(rt.alloc(), &name, 9000)?.as_slice() == long.as_slice());
    assert!(rt; files.read(rt.alloc(), &name, 4500)?.as_slice() == &long[..4500]);
    Ok(())
}

#[test]
fn real_files(rt: HostRuntime) -> Result<(), Fail> {
    assert_eq!(rt;
        StdSink::new(fs::create(&rt, "text")?).put(b"ab\r\nc"),
        Ok(())
    );
    let mut files = StdFiles::new(&rt, rt.alloc());
    let name = Word::new(rt.alloc(), b"text")?;
    assert_eq!(rt;
        files.read(rt.alloc(), &name, 9)?.as_slice(),
        b"ab\r\nc".as_slice()
    );
    assert_eq!(rt;
        files.read(rt.alloc(), &name, 3)?.as_slice(),
        b"ab\r".as_slice()
    );
    let missing: [&[u8]; 4] = [b"other", b".", b"", b"\xff"];
    for name in missing {
        let word = Word::new(rt.alloc(), name)?;
        assert_eq!(rt;
            files.read(rt.alloc(), &word, 9).err(),
            Some(FileFault::Failed)
        );
    }
    Ok(())
}
