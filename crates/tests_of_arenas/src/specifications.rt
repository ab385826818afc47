//! Specifications by the texts of their formulas, and what is built of them.
ghost use Rattle.std.specs.Prelude.{◌≡◌, ◌<◌, ℕ, Some, None, length, IfOk, OnOk};
ghost use Rattle.diagrams.specs.Live.{Keeps};
ghost use Rattle.automata.specs.Table.{size_of, mark_of, Fits};
ghost use Rattle.game.specs.Board.{width};
ghost use Rattle.arena.specs.Left.{FitsArena};
ghost use Rattle.arena.specs.Building.{FitsWhere};

use crate::listing::has_lines;
use arena::{Arena, ArenaFault, build};
use automata::Automaton;
use bes_io::Memory;
use diagrams::Store;
use form_reader::read_form;
use form_tokens::{Dialect, Names};
use forms::{Mover, Partition};
use std::alloc::Global;
use std::test::Fail;
use translate::translate;

/// What is asked for of which propositions, and who moves first.
#[derive(Clone, Copy)]
pub(crate) struct Specification<'a> {
    pub(crate) first: Mover,
    pub(crate) inputs: &'a [&'a str],
    pub(crate) outputs: &'a [&'a str],
    pub(crate) dialect: Dialect,
    pub(crate) assumed: Option<&'a str>,
    pub(crate) goal: &'a str,
    pub(crate) admits_empty: bool,
    pub(crate) duty: Option<&'a str>,
}

const REQUEST: &[&str] = &["r"];

const GRANT: &[&str] = &["g"];

/// A goal over one input, r, and one output, g, with nothing assumed and no duty.
pub(crate) fn with_goal(first: Mover, goal: &str) -> Specification<'_> {
    Specification {
        first,
        inputs: REQUEST,
        outputs: GRANT,
        dialect: Dialect::Ltlf,
        assumed: None,
        goal,
        admits_empty: false,
        duty: None,
    }
}

/// What is to be built: an arena with these lines, or none, since what is assumed can be violated within so many rounds and
/// no fewer.
#[derive(Clone, Copy)]
pub(crate) enum Wanted<'a> {
    Arena(&'a [&'a str]),
    Unkeepable(u32),
}

/// Puts names into the table.
fn add_all(names: &mut Names, list: &[&str]) -> Result<(), Fail> {
    for name in list {
        names.add(name.as_bytes())?;
    }
    Ok(())
}

/// The names of the propositions, those of the first mover first.
fn names_of(alloc: Global, specification: &Specification) -> Result<Names, Fail> {
    let mut names = Names::new(alloc)?;
    let (before, after) = match specification.first {
        Mover::Agent => (specification.outputs, specification.inputs),
        Mover::Environment => (specification.inputs, specification.outputs),
    };
    add_all(&mut names, before)?;
    add_all(&mut names, after)?;
    Ok(names)
}

/// The partition of so many propositions. Fewer of them than outputs fail the test.
fn partition_of(specification: &Specification, count: u32) -> Result<Partition, Memory>
    ensures { IfOk result (λ partition. width partition ≡ count) }
{
    if specification.outputs.len() > count as usize {
        return Err(Memory);
    }
    let outputs = specification.outputs.len() as u32;
    Ok(Partition {
        first: specification.first,
        inputs: count - outputs,
        outputs,
    })
}

/// Fails the test where the two differ.
fn same(a: u32, b: u32) -> Result<(), Memory>
    ensures { OnOk result (a ≡ b) }
{
    if a == b { Ok(()) } else { Err(Memory) }
}

/// The least automaton of a formula. A name that is no proposition of the store fails the test.
fn automaton_of(
    alloc: Global,
    store: &mut Store,
    names: &mut Names,
    dialect: Dialect,
    text: &str,
    admits_empty: bool,
) -> Result<Automaton, Fail>
    ensures keeps { Keeps store.old store.new }
    ensures fits { IfOk result (λ made. Fits store.new made) }
    ensures marks { IfOk result (λ made. (at : ℕ) → at < size_of made → mark_of made at < 2) }
{
    prove!(store.props() <= 32);
    let form = read_form(alloc, dialect, text.as_bytes(), names)?;
    same(names.len(), store.props())?;
    let made = translate(alloc, store, &form, admits_empty, 1024)?;
    Ok(made.whole)
}

/// The same, where there is a formula.
fn automaton_where(
    alloc: Global,
    store: &mut Store,
    names: &mut Names,
    dialect: Dialect,
    text: Option<&str>,
) -> Result<Option<Automaton>, Fail>
    ensures keeps { Keeps store.old store.new }
    ensures fits { IfOk result (λ made. FitsWhere store.new made) }
{
    prove!(store.props() <= 32);
    match text {
        Some(text) => Ok(Some(automaton_of(alloc, store, names, dialect, text, false)?)),
        None => Ok(None),
    }
}

/// What is built of the specification.
fn built(
    alloc: Global,
    store: &mut Store,
    names: &mut Names,
    partition: Partition,
    specification: &Specification,
) -> Result<Result<Arena, ArenaFault>, Fail>
    requires { width partition ≡ store.old.props }
    ensures { IfOk result (λ outcome. IfOk outcome (λ arena. FitsArena store.new arena)) }
{
    let dialect = specification.dialect;
    let empty = specification.admits_empty;
    let keep = automaton_where(alloc, store, names, dialect, specification.assumed)?;
    let duty = automaton_where(alloc, store, names, dialect, specification.duty)?;
    let goal = automaton_of(alloc, store, names, dialect, specification.goal, empty)?;
    Ok(build(alloc, store, &goal, keep.as_ref(), duty.as_ref(), partition))
}

/// Whether what is built of the specification is what is wanted.
pub(crate) fn is_built(
    alloc: Global,
    specification: &Specification,
    wanted: Wanted,
) -> Result<bool, Fail> {
    let mut names = names_of(alloc, specification)?;
    let partition = partition_of(specification, names.len())?;
    let mut store = Store::new(alloc, names.len())?;
    let outcome = built(alloc, &mut store, &mut names, partition, specification)?;
    match (outcome, wanted) {
        (Ok(arena), Wanted::Arena(lines)) => Ok(has_lines(alloc, &store, &arena, lines)?),
        (Err(ArenaFault::Unkeepable { rounds }), Wanted::Unkeepable(least)) => Ok(rounds == least),
        _ => Ok(false),
    }
}
