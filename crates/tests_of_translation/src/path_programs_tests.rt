//! Small paths over two propositions, with words and answers worked out by hand.
ghost use Rattle.std.specs.Prelude.{◌≡◌, ◌<◌, All, map, [], ◌∷◌, length, IfOk};
ghost use Rattle.forms.specs.Tree.{tree, program, Atom, True, Step, Test, Choice, Seq, Star};
ghost use Rattle.forms.specs.Proper.{IsProperProgram};
ghost use Rattle.automata.specs.Table.{IsMeant};
ghost use Rattle.obligations.specs.Value.{FitsCells};
ghost use Rattle.path_programs.specs.PathTests.{test_forms};

use crate::propositions::{proposition, truth};
use crate::tables::{A, B, Entry, FIRST, cells_of, conjunction};
use automata::Meant;
use bes_io::Memory;
use diagrams::Store;
use forms::{Form, Path};
use obligations::{Cells, determinise};
use path_programs::compile;
use std::alloc::Global;
use test_support::accepted;

// The obligation that no letter is left, and the one that a and b hold.
const END: u32 = 0;

const BOTH: u32 = 1;

const OBLIGATIONS: [Entry; 2] = [(true, &[]), (false, &[&[A, B]])];

// A word, and whether the path leads from it to where the obligation holds.
type Answer = (&'static [u64], bool);

fn step(alloc: Global, form: Form) -> Result<Box<Path>, Memory>
    ensures { IfOk result (λ p. program p.value ≡ Step (tree form)) }
{
    Ok(Box::new(alloc, Path::Step(Box::new(alloc, form)?))?)
}

fn test(alloc: Global, form: Form) -> Result<Box<Path>, Memory>
    ensures { IfOk result (λ p. program p.value ≡ Test (tree form)) }
{
    Ok(Box::new(alloc, Path::Test(Box::new(alloc, form)?))?)
}

fn choice(alloc: Global, p: Box<Path>, q: Box<Path>) -> Result<Box<Path>, Memory>
    ensures { IfOk result (λ made. program made.value ≡ Choice (program p.value) (program q.value)) }
{
    Ok(Box::new(alloc, Path::Choice(p, q))?)
}

fn seq(alloc: Global, p: Box<Path>, q: Box<Path>) -> Result<Box<Path>, Memory>
    ensures { IfOk result (λ made. program made.value ≡ Seq (program p.value) (program q.value)) }
{
    Ok(Box::new(alloc, Path::Seq(p, q))?)
}

fn star(alloc: Global, p: Box<Path>) -> Result<Box<Path>, Memory>
    ensures { IfOk result (λ made. program made.value ≡ Star (program p.value)) }
{
    Ok(Box::new(alloc, Path::Star(p))?)
}

// Whether the path leads on each word as it must to where the obligation holds.
fn agree(
    alloc: Global,
    store: &mut Store,
    cells: &mut Cells,
    path: &Path,
    tests: &[Meant],
    then: u32,
    answers: &[Answer],
) -> Result<bool, Memory>
    requires props { store.old.props ≡ 2 }
    requires proper { IsProperProgram 2 (program path.now) }
    requires fits { FitsCells store.old cells.old }
    requires then { then < length cells.old }
    requires tests { map (λ t. tree t.form) tests.now ≡ test_forms (program path.now) }
    requires meant { All (λ t. IsMeant store.old t.automaton (tree t.form)) tests.now }
{
    let cell = compile(alloc, store, path, then, tests, cells)?;
    let count = cells.len();
    prove!(cell < count);
    let claim = conjunction(store, FIRST, FIRST + count, &[FIRST + cell])?;
    let made = determinise(alloc, store, cells, claim)?;
    for (word, answer) in answers {
        if accepted(store, &made, word)? != *answer {
            return Ok(false);
        }
    }
    Ok(true)
}

fn without_tests(alloc: Global, path: &Path, then: u32, answers: &[Answer]) -> Result<bool, Memory>
    requires proper { IsProperProgram 2 (program path.now) }
    requires then { then < 2 }
    requires tests { test_forms (program path.now) ≡ [] }
{
    let mut store = Store::new(alloc, 2)?;
    let mut cells = cells_of(alloc, &mut store, 2, &OBLIGATIONS)?;
    agree(alloc, &mut store, &mut cells, path, &[], then, answers)
}

fn with_test(
    alloc: Global,
    path: &Path,
    i: u32,
    then: u32,
    answers: &[Answer],
) -> Result<bool, Memory>
    requires proper { IsProperProgram 2 (program path.now) }
    requires then { then < 2 }
    requires i { i < 2 }
    requires tests { test_forms (program path.now) ≡ Atom i ∷ [] }
{
    let mut store = Store::new(alloc, 2)?;
    let mut cells = cells_of(alloc, &mut store, 2, &OBLIGATIONS)?;
    let tests = [proposition(alloc, &mut store, i)?];
    agree(alloc, &mut store, &mut cells, path, &tests, then, answers)
}

fn with_test_and_true(
    alloc: Global,
    path: &Path,
    i: u32,
    then: u32,
    answers: &[Answer],
) -> Result<bool, Memory>
    requires proper { IsProperProgram 2 (program path.now) }
    requires then { then < 2 }
    requires i { i < 2 }
    requires tests { test_forms (program path.now) ≡ Atom i ∷ True ∷ [] }
{
    let mut store = Store::new(alloc, 2)?;
    let mut cells = cells_of(alloc, &mut store, 2, &OBLIGATIONS)?;
    let first = proposition(alloc, &mut store, i)?;
    let second = truth(alloc, &mut store)?;
    let tests = [first, second];
    agree(alloc, &mut store, &mut cells, path, &tests, then, answers)
}

// (a? + true?)*
fn star_of_tests(alloc: Global) -> Result<bool, Memory> {
    let a = test(alloc, Form::Atom(A))?;
    let all = test(alloc, Form::True)?;
    let path = star(alloc, choice(alloc, a, all)?)?;
    let answers: [Answer; 4] = [(&[], false), (&[3], true), (&[2], false), (&[0, 3], false)];
    with_test_and_true(alloc, &path, A, BOTH, &answers)
}

// (true;true)*
fn pairs(alloc: Global) -> Result<bool, Memory> {
    let first = step(alloc, Form::True)?;
    let second = step(alloc, Form::True)?;
    let path = star(alloc, seq(alloc, first, second)?)?;
    let answers: [Answer; 5] = [
        (&[], true),
        (&[0], false),
        (&[1, 2], true),
        (&[0, 3, 1], false),
        (&[2, 2, 2, 2], true),
    ];
    without_tests(alloc, &path, END, &answers)
}

// (a;b?)*
fn steps_with_a_test(alloc: Global) -> Result<bool, Memory> {
    let a = step(alloc, Form::Atom(A))?;
    let b = test(alloc, Form::Atom(B))?;
    let path = star(alloc, seq(alloc, a, b)?)?;
    let answers: [Answer; 7] = [
        (&[], false),
        (&[3], true),
        (&[2, 3], true),
        (&[2, 2, 3], false),
        (&[2, 1, 3], false),
        (&[2, 3, 3, 0], true),
        (&[0, 3], false),
    ];
    with_test(alloc, &path, B, BOTH, &answers)
}

// a?;b
fn a_test_first(alloc: Global) -> Result<bool, Memory> {
    let a = test(alloc, Form::Atom(A))?;
    let b = step(alloc, Form::Atom(B))?;
    let path = seq(alloc, a, b)?;
    let answers: [Answer; 5] = [
        (&[], false),
        (&[3], true),
        (&[1], false),
        (&[2], false),
        (&[3, 3], false),
    ];
    with_test(alloc, &path, A, END, &answers)
}

// a + b;true
fn one_or_two(alloc: Global) -> Result<bool, Memory> {
    let a = step(alloc, Form::Atom(A))?;
    let b = step(alloc, Form::Atom(B))?;
    let all = step(alloc, Form::True)?;
    let path = choice(alloc, a, seq(alloc, b, all)?)?;
    let answers: [Answer; 6] = [
        (&[], false),
        (&[2], true),
        (&[1], false),
        (&[1, 0], true),
        (&[2, 2], false),
        (&[3, 0], true),
    ];
    without_tests(alloc, &path, END, &answers)
}

// (a*;b)*
fn star_in_a_star(alloc: Global) -> Result<bool, Memory> {
    let a = step(alloc, Form::Atom(A))?;
    let b = step(alloc, Form::Atom(B))?;
    let path = star(alloc, seq(alloc, star(alloc, a)?, b)?)?;
    let answers: [Answer; 6] = [
        (&[], true),
        (&[2], false),
        (&[1], true),
        (&[2, 2, 1], true),
        (&[1, 2, 3, 1], true),
        (&[2, 0, 1], false),
    ];
    without_tests(alloc, &path, END, &answers)
}

#[test]
fn paths_lead_to_where_the_obligation_holds(rt: HostRuntime) -> Result<(), Memory> {
    let alloc = rt.alloc();
    assert!(rt; star_of_tests(alloc)?, "(a? + true?)*");
    assert!(rt; pairs(alloc)?, "(true;true)*");
    assert!(rt; steps_with_a_test(alloc)?, "(a;b?)*");
    assert!(rt; a_test_first(alloc)?, "a?;b");
    assert!(rt; one_or_two(alloc)?, "a + b;true");
    assert!(rt; star_in_a_star(alloc)?, "(a*;b)*");
    Ok(())
}
