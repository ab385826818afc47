//! Worked lines: what each command puts and answers, and each refusal.
use crate::runs::{
    AFTER_TEN, ALWAYS_A, NO_FAULTS, TOO_MANY, UNFINISHED, USAGE, check, ends, ends_by_a_fault,
};
use std::test::Fail;
use test_support::{NAMES, repeated};

// A dialect, a formula, an input, and what is put and answered where nothing is refused.
type Answered = (&'static str, &'static str, &'static [u8], &'static [u8], u8);

const JUDGED: [Answered; 9] = [
    ("ltlf", "F a", b"b\na\n", b"true\n", 0),
    ("ltlf", "X true", b"\n", b"false\n", 1),
    ("ltlf", "N false", b"\n", b"true\n", 0),
    ("ltlf", "X a", b"\r\na", b"true\n", 0),
    ("ldlf", "<(true;true)*> end", b"\n\n", b"true\n", 0),
    ("ldlf", "<(true;true)*> end", b"\n\n\n", b"false\n", 1),
    ("ldlf", "<(a? + true?)*> end", b"a\n", b"false\n", 1),
    ("ldlf", "<true>!a", b"a\n", b"true\n", 0),
    ("ldlf", "<true>a", b"a\n", b"false\n", 1),
];

#[test]
fn a_trace_is_judged(rt: HostRuntime) -> Result<(), Fail> {
    for (dialect, formula, input, output, status) in JUDGED {
        let words = ["judge", dialect, formula];
        let wanted = ends(output, b"", status);
        check(&rt, rt.alloc(), &words, input, &NO_FAULTS, &wanted)?;
    }
    Ok(())
}

const WATCHED: [Answered; 4] = [
    (
        "ltlf",
        "G(a -> F b)",
        b"a\nb\n\n",
        b"temp_false\ntemp_true\ntemp_true\n",
        0,
    ),
    (
        "ltlf",
        "G a",
        b"a\n\na\n",
        b"temp_true\nperm_false\nperm_false\n",
        1,
    ),
    ("ltlf", "F a", b"a", b"perm_true\n", 0),
    (
        "ldlf",
        "<(true;true)*> end",
        b"\n\n\n",
        b"temp_false\ntemp_true\ntemp_false\n",
        1,
    ),
];

#[test]
fn a_trace_is_watched(rt: HostRuntime) -> Result<(), Fail> {
    for (dialect, formula, input, output, status) in WATCHED {
        let words = ["monitor", dialect, formula];
        let wanted = ends(output, b"", status);
        check(&rt, rt.alloc(), &words, input, &NO_FAULTS, &wanted)?;
    }
    Ok(())
}

// A command, a formula of LTLf, an input, and what is put and told where it is refused.
type Refused = (
    &'static str,
    &'static str,
    &'static [u8],
    &'static [u8],
    &'static [u8],
    u8,
);

const NO_EVENT: &[u8] = b"bes: input: no event\n";

const BAD_BYTE: &[u8] = b"bes: input line 2: bad byte at 1\n";

const REFUSED: [Refused; 9] = [
    ("judge", "F a", b"", b"", NO_EVENT, 4),
    ("judge", "F a", b"a\n#\n", b"", BAD_BYTE, 4),
    ("judge", "a &", b"", b"", UNFINISHED, 3),
    (
        "judge",
        "a # b",
        b"",
        b"",
        b"bes: formula: bad byte at 3\n",
        3,
    ),
    ("monitor", "F a", b"", b"", NO_EVENT, 4),
    ("monitor", "F a", b"b\n#\na\n", b"temp_false\n", BAD_BYTE, 4),
    ("monitor", "a &", b"a\n", b"", UNFINISHED, 3),
    ("monitor", AFTER_TEN, b"a\n", b"", TOO_MANY, 5),
    ("translate", AFTER_TEN, b"", b"", TOO_MANY, 5),
];

#[test]
fn a_run_is_refused(rt: HostRuntime) -> Result<(), Fail> {
    for (command, formula, input, output, message, status) in REFUSED {
        let words = [command, "ltlf", formula];
        let wanted = ends(output, message, status);
        check(&rt, rt.alloc(), &words, input, &NO_FAULTS, &wanted)?;
    }
    Ok(())
}

const WRONG: [&[&str]; 8] = [
    &[],
    &["judge", "ltlf"],
    &["judge", "mtl", "a"],
    &["monitor", "mtl", "a"],
    &["demo", "7"],
    &["check", "x"],
    &["synth"],
    &["synth", "a", "b"],
];

#[test]
fn wrong_words_get_the_usage_line(rt: HostRuntime) -> Result<(), Fail> {
    for words in WRONG {
        check(
            &rt,
            rt.alloc(),
            words,
            b"",
            &NO_FAULTS,
            &ends(b"", USAGE, 2),
        )?;
    }
    Ok(())
}

#[test]
fn a_missing_specification_is_a_fault(rt: HostRuntime) -> Result<(), Fail> {
    let words = ["synth", "nofile"];
    let wanted = ends_by_a_fault(b"");
    check(&rt, rt.alloc(), &words, b"", &NO_FAULTS, &wanted)?;
    Ok(())
}

const FIRST_A: &[u8] =
    b"automaton 1\nnames a\npart 1 3 a\nwhole 3\nlocation 0 reject\nround 0 1\nround 1 2\nlocation 1 reject\nround - 1\nlocation 2 accept\nround - 2\nword empty\nword 1\nend\n";

const FALSE: &[u8] =
    b"automaton 1\nnames\npart 1 1 false\nwhole 1\nlocation 0 reject\nround . 0\nend\n";

const EVEN: &[u8] =
    b"automaton 1\nnames\npart 1 1 false\npart 2 2 [true]false\npart 3 2 <(true ; true)*>[true]false\nwhole 3\nlocation 0 reject\nround . 1\nlocation 1 reject\nround . 2\nlocation 2 accept\nround . 1\nword empty\nword .\nend\n";

// A command, a dialect, a formula, and what is put.
const SHOWN: [(&str, &str, &str, &[u8]); 6] = [
    (
        "forms",
        "ltlf",
        "!(a U X b)",
        b"form !(a U X b)\nnnf (!a R N !b)\n",
    ),
    (
        "forms",
        "ltlf",
        "!(a <-> b)",
        b"form !(a <-> b)\nnnf (!a <-> b)\n",
    ),
    ("translate", "ltlf", "G a", ALWAYS_A),
    ("translate", "ltlf", "a", FIRST_A),
    ("translate", "ltlf", "false", FALSE),
    ("translate", "ldlf", "<(true;true)*> end", EVEN),
];

#[test]
fn formulas_are_shown_and_translated(rt: HostRuntime) -> Result<(), Fail> {
    for (command, dialect, formula, output) in SHOWN {
        let words = [command, dialect, formula];
        check(
            &rt,
            rt.alloc(),
            &words,
            b"",
            &NO_FAULTS,
            &ends(output, b"", 0),
        )?;
    }
    Ok(())
}

// A head, a piece so many times and a tail, and why they are no formula of LTLf.
const NO_FORMULAS: [(&str, &str, usize, &str, &str); 11] = [
    ("a &", "", 0, "", "unfinished"),
    ("", "", 0, "", "unfinished"),
    ("a # b", "", 0, "", "bad byte at 3"),
    ("a b", "", 0, "", "unexpected token at 3"),
    ("a W b", "", 0, "", "unexpected token at 3"),
    ("<a> b", "", 0, "", "bad byte at 1"),
    ("", "!", 301, "a", "too deep at 301"),
    ("", "!!!!!!!!a&", 200, "a", "too many tokens at 2001"),
    (NAMES, "", 0, "", "too many names at 71"),
    ("", "x", 65, "", "bad byte at 65"),
    ("a ", "x", 65, "", "unexpected token at 3"),
];

#[test]
fn a_formula_is_refused_at_its_place(rt: HostRuntime) -> Result<(), Fail> {
    for (head, piece, times, tail, why) in NO_FORMULAS {
        let text = repeated(rt.alloc(), head, piece, times, tail)?;
        let message = format!(in rt.alloc(); "bes: formula: {why}\n")?;
        let words = ["forms", "ltlf", text.as_str()];
        let wanted = ends(b"", message.as_bytes(), 3);
        check(&rt, rt.alloc(), &words, b"", &NO_FAULTS, &wanted)?;
    }
    Ok(())
}

// A formula of LDLf that is refused, and why.
const NO_PATHS: [(&str, &[u8]); 2] = [
    ("<a> b c", b"bes: formula: unexpected token at 7\n"),
    ("<{<a>tt}> b", b"bes: formula: unexpected token at 9\n"),
];

#[test]
fn a_formula_of_ldlf_is_refused_at_its_place(rt: HostRuntime) -> Result<(), Fail> {
    for (formula, message) in NO_PATHS {
        let words = ["forms", "ldlf", formula];
        check(
            &rt,
            rt.alloc(),
            &words,
            b"",
            &NO_FAULTS,
            &ends(b"", message, 3),
        )?;
    }
    Ok(())
}

#[test]
fn three_hundred_operators_may_wait(rt: HostRuntime) -> Result<(), Fail> {
    let text = repeated(rt.alloc(), "", "!", 300, "a")?;
    let output = format!(in rt.alloc(); "form {text}\nnnf a\n")?;
    let words = ["forms", "ltlf", text.as_str()];
    let wanted = ends(output.as_bytes(), b"", 0);
    check(&rt, rt.alloc(), &words, b"", &NO_FAULTS, &wanted)?;
    Ok(())
}
