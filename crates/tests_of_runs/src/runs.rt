//! Whole runs over memory.
use bes_io::{MemFiles, MemSink, MemSource, Memory, Source, Word};
use bes_suite::run;
use std::alloc::Global;
use std::process::Abort;

/// Whether some a is followed by a b after ten letters: the last ten letters with a are to be known, or that it is met.
pub(crate) const AFTER_TEN: &str = "F(a & X X X X X X X X X X b)";

pub(crate) const TOO_MANY: &[u8] = b"bes: formula part 14 has 1025 locations, the limit is 1024\n";

pub(crate) const UNFINISHED: &[u8] = b"bes: formula: unfinished\n";

pub(crate) const USAGE: &[u8] =
    b"usage: bes judge|forms|translate|monitor DIALECT FORMULA, synth|play SPEC, check, demo N\n";

pub(crate) const FAULT: &[u8] = b"bes: outside fault\n";

pub(crate) const ALWAYS_A: &[u8] =
    b"automaton 1\nnames a\npart 1 3 a\npart 2 2 G a\nwhole 3\nlocation 0 reject\nround 0 1\nround 1 2\nlocation 1 reject\nround - 1\nlocation 2 accept\nround 0 1\nround 1 2\nword empty\nword 1\nend\n";

/// The calls of the input, the output and the place for messages that fail, and how much a failing call puts.
#[derive(Clone, Copy)]
pub(crate) struct Faults<'a> {
    input: &'a [u64],
    out: &'a [u64],
    err: &'a [u64],
    partly: usize,
}

pub(crate) const NO_FAULTS: Faults<'static> = Faults {
    input: &[],
    out: &[],
    err: &[],
    partly: 0,
};

pub(crate) fn at_input<'a>(fails: &'a [u64]) -> Faults<'a> {
    Faults {
        input: fails,
        ..NO_FAULTS
    }
}

pub(crate) fn at_out<'a>(fails: &'a [u64], partly: usize) -> Faults<'a> {
    Faults {
        out: fails,
        partly,
        ..NO_FAULTS
    }
}

pub(crate) fn at_err<'a>(fails: &'a [u64], partly: usize) -> Faults<'a> {
    Faults {
        err: fails,
        partly,
        ..NO_FAULTS
    }
}

/// What a run puts and answers.
#[derive(Clone, Copy)]
pub(crate) struct Outcome<'a> {
    output: &'a [u8],
    message: &'a [u8],
    status: u8,
}

pub(crate) fn ends<'a>(output: &'a [u8], message: &'a [u8], status: u8) -> Outcome<'a> {
    Outcome {
        output,
        message,
        status,
    }
}

/// The end of a run that a fault of the outside ended.
pub(crate) fn ends_by_a_fault<'a>(output: &'a [u8]) -> Outcome<'a> {
    ends(output, FAULT, 7)
}

fn words_of(alloc: Global, texts: &[&str]) -> Result<Vec<Word>, Memory> {
    let mut words = Vec::new(alloc);
    for text in texts {
        words.push(Word::new(alloc, text.as_bytes())?)?;
    }
    Ok(words)
}

/// What a run put and answered, and the bytes that its input gives next.
#[derive(Drop)]
pub(crate) struct Ran {
    pub(crate) output: Vec<u8>,
    pub(crate) message: Vec<u8>,
    pub(crate) status: u8,
    pub(crate) next: Vec<u8>,
}

fn next_of(alloc: Global, input: &mut MemSource) -> Result<Vec<u8>, Memory> {
    let mut piece = [0u8; 8];
    match input.take(&mut piece[..]) {
        Ok(n) => Ok(piece[..n].to_vec(alloc)?),
        Err(_) => Ok(Vec::new(alloc)),
    }
}

/// Runs these words over an input, under faults.
pub(crate) fn done(
    alloc: Global,
    texts: &[&str],
    input: &[u8],
    faults: &Faults,
) -> Result<Ran, Memory> {
    let words = words_of(alloc, texts)?;
    let mut files = MemFiles::new(alloc, Vec::new(alloc), Vec::new(alloc), Vec::new(alloc));
    let mut input = MemSource::new(input.to_vec(alloc)?, 3, faults.input.to_vec(alloc)?);
    let mut out = MemSink::new(alloc, 1000, faults.partly, faults.out.to_vec(alloc)?)?;
    let mut err = MemSink::new(alloc, 200, faults.partly, faults.err.to_vec(alloc)?)?;
    let status = run(alloc, &words, &mut files, &mut input, &mut out, &mut err);
    Ok(Ran {
        output: out.bytes().to_vec(alloc)?,
        message: err.bytes().to_vec(alloc)?,
        status: status.number,
        next: next_of(alloc, &mut input)?,
    })
}

/// Whether a run ends so.
pub(crate) fn check(
    rt: &impl Abort,
    alloc: Global,
    texts: &[&str],
    input: &[u8],
    faults: &Faults,
    wanted: &Outcome,
) -> Result<(), Memory> {
    let got = done(alloc, texts, input, faults)?;
    assert_eq!(rt; got.output.as_slice(), wanted.output, "output of {texts:?}");
    assert_eq!(rt;
        got.message.as_slice(),
        wanted.message,
        "message of {texts:?}"
    );
    assert_eq!(rt; got.status, wanted.status, "status of {texts:?}");
    Ok(())
}
