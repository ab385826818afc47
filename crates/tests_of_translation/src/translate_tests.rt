//! Least automata and class counts over two propositions, worked out by hand.
ghost use Rattle.std.specs.Prelude.{◌≡◌, IfOk};
ghost use Rattle.forms.specs.Tree.{tree};
ghost use Rattle.forms.specs.Proper.{IsProper};
ghost use Rattle.diagrams.specs.Live.{Keeps};
ghost use Rattle.automata.specs.Table.{Fits, IsMeant};

use crate::propositions::a_and_b;
use crate::tables::{A, B};
use automata::{Automaton, Meant};
use bes_io::Memory;
use diagrams::Store;
use form_reader::read_form;
use form_tokens::{Dialect, Names};
use forms::{Form, Path};
use std::alloc::Global;
use std::test::Fail;
use test_support::accepted;
use translate::{Counts, TranslateFault, Translated, both, either, negate, translate};

// Words, and the same after a first letter.
const WORDS: [&[u64]; 8] = [&[], &[0], &[1], &[2], &[3], &[2, 1], &[0, 3], &[3, 2]];

const LATER_WORDS: [&[u64]; 8] = [
    &[2],
    &[2, 0],
    &[2, 1],
    &[2, 2],
    &[2, 3],
    &[2, 2, 1],
    &[2, 0, 3],
    &[2, 3, 2],
];

// Whether an automaton answers each word as it must.
fn agrees(
    store: &Store,
    made: &Automaton,
    words: &[&[u64]; 8],
    answers: &[bool; 8],
) -> Result<bool, Memory>
    requires props { store.now.props ≡ 2 }
    requires fits { Fits store.now made.now }
{
    for i in 0..8 {
        if accepted(store, made, words[i])? != answers[i] {
            return Ok(false);
        }
    }
    Ok(true)
}

#[derive(Clone, Copy)]
enum Connective {
    Negate,
    Both,
    Either,
}

// What a connective makes of a and b.
fn connected(
    alloc: Global,
    store: &mut Store,
    connective: Connective,
    a: &Meant,
    b: &Meant,
) -> Result<Meant, Memory>
    requires props { store.old.props ≡ 2 }
    requires a { IsMeant store.old a.now.automaton (tree a.now.form) }
    requires b { IsMeant store.old b.now.automaton (tree b.now.form) }
    ensures keeps { Keeps store.old store.new }
    ensures fits { IfOk result (λ made. Fits store.new made.automaton) }
{
    match connective {
        Connective::Negate => negate(alloc, store, a),
        Connective::Both => both(alloc, store, a, b),
        Connective::Either => either(alloc, store, a, b),
    }
}

// A connective, and whether what it makes accepts each word. Each has three locations.
const CONNECTIVES: [(Connective, [bool; 8]); 3] = [
    (
        Connective::Negate,
        [true, true, true, false, false, false, true, false],
    ),
    (
        Connective::Both,
        [false, false, false, false, true, false, false, true],
    ),
    (
        Connective::Either,
        [false, false, true, true, true, true, false, true],
    ),
];

#[test]
fn each_connective_has_its_least_automaton(rt: HostRuntime) -> Result<(), Memory> {
    let alloc = rt.alloc();
    for (connective, answers) in CONNECTIVES {
        let mut store = Store::new(alloc, 2)?;
        let (a, b) = a_and_b(alloc, &mut store)?;
        let made = connected(alloc, &mut store, connective, &a, &b)?;
        assert_eq!(rt; made.automaton.size(), 3);
        assert!(rt;
            agrees(&store, &made.automaton, &WORDS, &answers)?,
            "answers"
        );
    }
    Ok(())
}

#[derive(Clone, Copy, Debug)]
enum Operator {
    True,
    Not,
    Implies,
    Iff,
    Next,
    WeakNext,
    Until,
    Release,
    Eventually,
    Always,
}

// The operator over a and b.
fn formula(alloc: Global, operator: Operator) -> Result<Form, Memory>
    ensures proper { IfOk result (λ made. IsProper 2 (tree made)) }
{
    let a = Box::new(alloc, Form::Atom(A))?;
    let b = Box::new(alloc, Form::Atom(B))?;
    Ok(match operator {
        Operator::True => Form::True,
        Operator::Not => Form::Not(a),
        Operator::Implies => Form::Implies(a, b),
        Operator::Iff => Form::Iff(a, b),
        Operator::Next => Form::Next(a),
        Operator::WeakNext => Form::WeakNext(a),
        Operator::Until => Form::Until(a, b),
        Operator::Release => Form::Release(a, b),
        Operator::Eventually => Form::Eventually(a),
        Operator::Always => Form::Always(a),
    })
}

// `<true> f`: a word is a trace of it where f holds on what follows the first letter, the empty word included.
fn later(alloc: Global, form: Form) -> Result<Form, Memory>
    requires proper { IsProper 2 (tree form) }
    ensures proper { IfOk result (λ made. IsProper 2 (tree made)) }
{
    let step = Path::Step(Box::new(alloc, Form::True)?);
    Ok(Form::Diamond(Box::new(alloc, step)?, Box::new(alloc, form)?))
}

// The class count of the part before the last one.
fn last_but_one(counts: &Counts) -> Option<u32> {
    let at = counts.len().checked_sub(2)?;
    Some(*counts.item(at))
}

// An operator, the class count of its formula, and whether the formula holds on each word.
const OPERATORS: [(Operator, u32, [bool; 8]); 10] = [
    (
        Operator::True,
        1,
        [true, true, true, true, true, true, true, true],
    ),
    (
        Operator::Not,
        3,
        [true, true, true, false, false, false, true, false],
    ),
    (
        Operator::Implies,
        3,
        [true, true, true, false, true, false, true, true],
    ),
    (
        Operator::Iff,
        3,
        [true, true, false, false, true, false, true, true],
    ),
    (
        Operator::Next,
        4,
        [false, false, false, false, false, false, true, true],
    ),
    (
        Operator::WeakNext,
        4,
        [true, true, true, true, true, false, true, true],
    ),
    (
        Operator::Until,
        3,
        [false, false, true, false, true, true, false, true],
    ),
    (
        Operator::Release,
        3,
        [true, false, true, false, true, false, false, true],
    ),
    (
        Operator::Eventually,
        2,
        [false, false, false, true, true, true, true, true],
    ),
    (
        Operator::Always,
        2,
        [true, false, false, true, true, false, false, true],
    ),
];

#[test]
fn each_operator_has_its_class_count_and_its_words(rt: HostRuntime) -> Result<(), Fail> {
    let alloc = rt.alloc();
    for (operator, count, answers) in OPERATORS {
        let mut store = Store::new(alloc, 2)?;
        let form = later(alloc, formula(alloc, operator)?)?;
        let made = translate(alloc, &mut store, &form, false, 1024)?;
        assert_eq!(rt; last_but_one(&made.counts), Some(count), "{operator:?}");
        let agrees = agrees(&store, &made.whole, &LATER_WORDS, &answers)?;
        assert!(rt; agrees, "{operator:?}");
    }
    Ok(())
}

#[test]
fn the_empty_word_is_no_trace(rt: HostRuntime) -> Result<(), Fail> {
    let mut store = Store::new(rt.alloc(), 2)?;
    let form = formula(rt.alloc(), Operator::Not)?;
    let made = translate(rt.alloc(), &mut store, &form, false, 1024)?;
    let answers = [false, true, true, false, false, false, true, false];
    assert_eq!(rt; made.whole.size(), 3);
    assert!(rt; agrees(&store, &made.whole, &WORDS, &answers)?);
    Ok(())
}

#[test]
fn the_empty_word_is_a_trace_where_it_is_admitted(rt: HostRuntime) -> Result<(), Fail> {
    let mut store = Store::new(rt.alloc(), 2)?;
    let form = formula(rt.alloc(), Operator::Not)?;
    let made = translate(rt.alloc(), &mut store, &form, true, 1024)?;
    let answers = [true, true, true, false, false, false, true, false];
    assert_eq!(rt; made.whole.size(), 3);
    assert!(rt; agrees(&store, &made.whole, &WORDS, &answers)?);
    Ok(())
}

fn are(counts: &Counts, wanted: &[u32]) -> bool {
    if counts.len() != wanted.len() {
        return false;
    }
    for (i, count) in wanted.iter().enumerate() {
        if *counts.item(i) != *count {
            return false;
        }
    }
    true
}

// What is to come of a formula, by the limit.
#[derive(Clone, Copy)]
enum Wanted {
    Made { counts: &'static [u32], whole: u32 },
    TooMany { part: u64, count: u32 },
}

fn is_wanted(outcome: &Result<Translated, TranslateFault>, wanted: Wanted) -> bool {
    match (outcome, wanted) {
        (Ok(made), Wanted::Made { counts, whole }) => {
            are(&made.counts, counts) && made.whole.size() == whole
        }
        (Err(fault), Wanted::TooMany { part, count }) => {
            *fault == TranslateFault::TooMany { part, count }
        }
        _ => false,
    }
}

// A formula, the limit, and what comes of it.
const COUNTED: [(Dialect, &str, u32, Wanted); 7] = [
    (
        Dialect::Ldlf,
        "<a? ; true>a",
        1024,
        Wanted::Made {
            counts: &[3, 3, 4],
            whole: 4,
        },
    ),
    (
        Dialect::Ldlf,
        "<a? ; true>a",
        2,
        Wanted::TooMany { part: 1, count: 3 },
    ),
    (
        Dialect::Ltlf,
        "G a",
        1024,
        Wanted::Made {
            counts: &[3, 2],
            whole: 3,
        },
    ),
    (
        Dialect::Ltlf,
        "X a | G a",
        5,
        Wanted::Made {
            counts: &[3, 4, 3, 2, 5],
            whole: 5,
        },
    ),
    (
        Dialect::Ltlf,
        "a | !a",
        2,
        Wanted::TooMany { part: 1, count: 3 },
    ),
    (
        Dialect::Ltlf,
        "true",
        1,
        Wanted::TooMany { part: 2, count: 2 },
    ),
    (
        Dialect::Ltlf,
        "true",
        0,
        Wanted::TooMany { part: 1, count: 1 },
    ),
];

#[test]
fn formulas_are_counted_part_by_part(rt: HostRuntime) -> Result<(), Fail> {
    let alloc = rt.alloc();
    for (dialect, text, limit, wanted) in COUNTED {
        let mut names = Names::new(alloc)?;
        let form = read_form(alloc, dialect, text.as_bytes(), &mut names)?;
        let mut store = Store::new(alloc, names.len())?;
        let outcome = translate(alloc, &mut store, &form, false, limit);
        assert!(rt; is_wanted(&outcome, wanted), "{text}");
    }
    Ok(())
}
