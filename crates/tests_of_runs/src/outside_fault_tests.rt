//! Each object of the outside failing in turn. A fault that is set for one call more than a run makes changes nothing.
use crate::runs::{
    AFTER_TEN, ALWAYS_A, UNFINISHED, at_err, at_input, at_out, check, done, ends, ends_by_a_fault,
};
use std::test::Fail;

#[test]
fn a_failing_call_ends_the_judging(rt: HostRuntime) -> Result<(), Fail> {
    let words = ["judge", "ltlf", "F a"];
    for (faults, wanted) in [
        (at_input(&[1]), ends_by_a_fault(b"")),
        (at_input(&[2]), ends_by_a_fault(b"")),
        (at_input(&[3]), ends_by_a_fault(b"")),
        (at_out(&[1], 0), ends_by_a_fault(b"")),
        (at_out(&[1], 3), ends_by_a_fault(b"tru")),
        (at_out(&[2], 0), ends(b"true\n", b"", 0)),
    ] {
        check(&rt, rt.alloc(), &words, b"b\na\n", &faults, &wanted)?;
    }
    Ok(())
}

// A command, the read of its input that fails, and what the input gives next.
const BROKEN: [(&str, u64, &[u8]); 4] = [
    ("judge", 1, b"b\na"),
    ("judge", 2, b"\n"),
    ("monitor", 1, b"b\na"),
    ("monitor", 2, b"\n"),
];

#[test]
fn a_broken_input_is_not_asked_again(rt: HostRuntime) -> Result<(), Fail> {
    for (command, read, next) in BROKEN {
        let words = [command, "ltlf", "F a"];
        let ran = done(rt.alloc(), &words, b"b\na\n", &at_input(&[read]))?;
        assert_eq!(rt; ran.next.as_slice(), next, "what {command} left");
    }
    Ok(())
}

const WATCHED: [&str; 3] = ["monitor", "ltlf", "G(a -> F b)"];

const EVENTS: &[u8] = b"a\nb\n\n";

const VERDICTS: &[u8] = b"temp_false\ntemp_true\ntemp_true\n";

#[test]
fn a_failing_read_ends_the_watching(rt: HostRuntime) -> Result<(), Fail> {
    for (faults, output) in [
        (at_input(&[1]), b"".as_slice()),
        (at_input(&[2]), b"temp_false\n"),
        (at_input(&[3]), VERDICTS),
    ] {
        let wanted = ends_by_a_fault(output);
        check(&rt, rt.alloc(), &WATCHED, EVENTS, &faults, &wanted)?;
    }
    Ok(())
}

// The put that fails, how much of its line it puts, and what the output has then.
const FAILING_PUTS: [(u64, usize, &[u8]); 7] = [
    (1, 0, b""),
    (1, 3, b"tem"),
    (1, 4, b"temp"),
    (2, 0, b"temp_false\n"),
    (2, 3, b"temp_false\ntem"),
    (3, 0, b"temp_false\ntemp_true\n"),
    (3, 3, b"temp_false\ntemp_true\ntem"),
];

#[test]
fn a_failing_put_ends_the_watching(rt: HostRuntime) -> Result<(), Fail> {
    for (call, partly, output) in FAILING_PUTS {
        let wanted = ends_by_a_fault(output);
        check(
            &rt,
            rt.alloc(),
            &WATCHED,
            EVENTS,
            &at_out(&[call], partly),
            &wanted,
        )?;
    }
    let ended = ends(VERDICTS, b"", 0);
    check(&rt, rt.alloc(), &WATCHED, EVENTS, &at_out(&[4], 0), &ended)?;
    Ok(())
}

// A command, a formula, what is put where nothing fails, and its first three bytes.
const SHOWN: [(&str, &str, &[u8], &[u8]); 2] = [
    (
        "forms",
        "!(a <-> b)",
        b"form !(a <-> b)\nnnf (!a <-> b)\n",
        b"for",
    ),
    ("translate", "G a", ALWAYS_A, b"aut"),
];

#[test]
fn a_failing_put_ends_what_is_shown(rt: HostRuntime) -> Result<(), Fail> {
    for (command, formula, output, front) in SHOWN {
        let words = [command, "ltlf", formula];
        let broken = ends_by_a_fault(front);
        check(&rt, rt.alloc(), &words, b"", &at_out(&[1], 3), &broken)?;
        check(
            &rt,
            rt.alloc(),
            &words,
            b"",
            &at_out(&[2], 0),
            &ends(output, b"", 0),
        )?;
    }
    Ok(())
}

// The words, the input, the put of a message that fails, how much it puts, and the output and the message then.
type Unheard = (
    &'static [&'static str],
    &'static [u8],
    usize,
    &'static [u8],
    &'static [u8],
);

const UNHEARD: [Unheard; 5] = [
    (&["judge", "ltlf", "a &"], b"", 0, b"", b""),
    (&["judge", "ltlf", "a &"], b"", 3, b"", b"bes"),
    (&["judge"], b"", 0, b"", b""),
    (
        &["monitor", "ltlf", "F a"],
        b"b\n#\n",
        3,
        b"temp_false\n",
        b"bes",
    ),
    (&["translate", "ltlf", AFTER_TEN], b"", 3, b"", b"bes"),
];

#[test]
fn a_message_that_is_not_heard_gives_status_7(rt: HostRuntime) -> Result<(), Fail> {
    for (words, input, partly, output, message) in UNHEARD {
        let wanted = ends(output, message, 7);
        check(
            &rt,
            rt.alloc(),
            words,
            input,
            &at_err(&[1], partly),
            &wanted,
        )?;
    }
    Ok(())
}

#[test]
fn a_message_is_one_put(rt: HostRuntime) -> Result<(), Fail> {
    let words = ["judge", "ltlf", "a &"];
    let told = ends(b"", UNFINISHED, 3);
    check(&rt, rt.alloc(), &words, b"", &at_err(&[2], 0), &told)?;
    Ok(())
}

#[test]
fn a_failing_put_comes_before_a_refused_line(rt: HostRuntime) -> Result<(), Fail> {
    let words = ["monitor", "ltlf", "F a"];
    let wanted = ends_by_a_fault(b"");
    check(
        &rt,
        rt.alloc(),
        &words,
        b"b\n#\n",
        &at_out(&[1], 0),
        &wanted,
    )?;
    Ok(())
}
