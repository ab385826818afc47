//! The automaton of two operands joined, at one position or at each.
ghost use Rattle.std.specs.Prelude.{◌≡◌, ◌<◌, ◌+◌, ◌^◌, ◌++◌, [], ◌∷◌, length, IfOk};
ghost use Rattle.diagrams.specs.Tree.{Assignment};
ghost use Rattle.diagrams.specs.Live.{Keeps, Means};
ghost use Rattle.automata.specs.Table.{Fits};
ghost use Rattle.obligations.specs.Value.{IsBody, FitsCells, cell};
ghost use Rattle.obligations.specs.Inclusion.{later};
ghost use Rattle.translate.specs.Exact.{accepted, IsLeastOf};
ghost use Rattle.diagrams.specs.Eval.{is_one, literal_value};
ghost use Rattle.translate.specs.Joined.{IsJoin, joined, repeated, awaited, stepped};

use crate::least::solved;
use crate::operands::{Asked, Operands, operand, operand_and_end, two_operands};
use automata::Automaton;
use bes_io::Memory;
use diagrams::{Id, Op, Store};
use obligations::Cells;
use std::alloc::Global;

/// The diagrams of the operands' obligations, as they are asked for.
pub(crate) fn literals(store: &mut Store, of: &Operands) -> Result<(Id, Id), Memory>
    requires first { of.now.first < 2 ^ 31 }
    requires second { of.now.second < 2 ^ 31 }
    ensures keeps { Keeps store.old store.new }
    ensures first { IfOk result (λ made. Means store.new made.0 (literal_value (store.old.props + of.now.first))) }
    ensures second { IfOk result (λ made. Means store.new made.1 (literal_value (store.old.props + of.now.second))) }
{
    let props = store.props();
    let first = store.literal(props + of.first)?;
    let second = store.literal(props + of.second)?;
    Ok((first, second))
}

/// The automaton of the words on which the operands hold as an operation joins them.
pub(crate) fn joined_now(
    alloc: Global,
    store: &mut Store,
    op: Op,
    of: &Operands,
) -> Result<Automaton, Memory>
    requires op { IsJoin op }
    requires fits { FitsCells store.old of.now.cells }
    requires first { of.now.first < length of.now.cells }
    requires second { of.now.second < length of.now.cells }
    ensures keeps { Keeps store.old store.new }
    ensures least { IfOk result (λ made. IsLeastOf store.new made
        (λ w. joined op (cell store.old of.now.cells w of.now.first) (cell store.old of.now.cells w of.now.second))) }
{
    prove!(of.cells.len() <= 2147483647);
    let (first, second) = literals(store, of)?;
    let start = store.combine(op, first, second)?;
    solved(alloc, store, &of.cells, start)
}

/// The automaton of the words that two automata accept as an operation joins them.
pub(crate) fn joined_automata(
    alloc: Global,
    store: &mut Store,
    op: Op,
    a: &Automaton,
    b: &Automaton,
) -> Result<Automaton, Memory>
    requires op { IsJoin op }
    requires a { Fits store.old a.now }
    requires b { Fits store.old b.now }
    ensures keeps { Keeps store.old store.new }
    ensures least { IfOk result (λ made.
        IsLeastOf store.new made (λ w. joined op (accepted store.old a.now w) (accepted store.old b.now w))) }
{
    let of = two_operands(alloc, store, a, b, Asked::Alone)?;
    joined_now(alloc, store, op, &of)
}

/// The body that joins another with the obligation `own` at the next position.
fn with_next(store: &mut Store, op: Op, now: Id, own: u32) -> Result<Id, Memory>
    requires op { IsJoin op }
    requires few { own < 2 ^ 31 }
    requires now { IsBody store.old own now }
    ensures keeps { Keeps store.old store.new }
    ensures body { IfOk result (λ id. IsBody store.new (own + 1) id) }
    ensures says { IfOk result (λ id.
        (a : Assignment) → is_one store.new id a ≡ joined op (is_one store.new now a) (later store.new own a)) }
{
    let props = store.props();
    let next = store.literal(props + own)?;
    store.combine(op, now, next)
}

/// The automaton of the words on which one more obligation holds, with this end value and body, which may name it.
pub(crate) fn solved_with(
    alloc: Global,
    store: &mut Store,
    mut cells: Cells,
    ends: bool,
    body: Id,
) -> Result<Automaton, Memory>
    requires fits { FitsCells store.old cells }
    requires body { IsBody store.old (length cells + 1) body }
    ensures keeps { Keeps store.old store.new }
    ensures least { IfOk result (λ made. IsLeastOf store.new made
        (λ w. cell store.old (cells ++ record { ends = ends; body = body } ∷ []) w (length cells))) }
{
    let props = store.props();
    let last = cells.add(ends, body)?;
    prove!(cells.len() <= 2147483647);
    let start = store.literal(props + last)?;
    solved(alloc, store, &cells, start)
}

/// The automaton of the words at whose positions the operand holds, as an operation joins them: at one with `Or`, at
/// each with `And`. On the empty word it is `ends`.
pub(crate) fn repeated_by(
    alloc: Global,
    store: &mut Store,
    op: Op,
    ends: bool,
    a: &Automaton,
) -> Result<Automaton, Memory>
    requires op { IsJoin op }
    requires fits { Fits store.old a.now }
    ensures keeps { Keeps store.old store.new }
    ensures least { IfOk result (λ made. IsLeastOf store.new made (repeated op ends (accepted store.old a.now))) }
{
    let mut cells = Cells::new(alloc);
    let now = operand(alloc, store, &mut cells, a, Asked::WithInclusions)?;
    let body = with_next(store, op, cells.body(now), cells.len())?;
    solved_with(alloc, store, cells, ends, body)
}

/// The automaton of the words on which the second operand holds, joined with what joins the first and the same at the
/// next position. On the empty word it is `ends`.
pub(crate) fn awaited_by(
    alloc: Global,
    store: &mut Store,
    outer: Op,
    inner: Op,
    ends: bool,
    a: &Automaton,
    b: &Automaton,
) -> Result<Automaton, Memory>
    requires outer { IsJoin outer }
    requires inner { IsJoin inner }
    requires a { Fits store.old a.now }
    requires b { Fits store.old b.now }
    ensures keeps { Keeps store.old store.new }
    ensures least { IfOk result (λ made.
        IsLeastOf store.new made (awaited outer inner ends (accepted store.old a.now) (accepted store.old b.now))) }
{
    let of = two_operands(alloc, store, a, b, Asked::WithInclusions)?;
    let now = of.cells.body(of.second);
    let rest = with_next(store, inner, of.cells.body(of.first), of.cells.len())?;
    let body = store.combine(outer, now, rest)?;
    solved_with(alloc, store, of.cells, ends, body)
}

/// The automaton of the words on whose next position the operand holds, joined with whether no letter is left there,
/// or with `false` for `ends` whether one is. On the empty word it is `ends`.
pub(crate) fn stepped_by(
    alloc: Global,
    store: &mut Store,
    op: Op,
    ends: bool,
    a: &Automaton,
) -> Result<Automaton, Memory>
    requires op { IsJoin op }
    requires fits { Fits store.old a.now }
    ensures keeps { Keeps store.old store.new }
    ensures least { IfOk result (λ made. IsLeastOf store.new made (stepped op ends (accepted store.old a.now))) }
{
    let of = operand_and_end(alloc, store, a, Asked::Alone, ends)?;
    prove!(of.cells.len() <= 2147483647);
    let (next, end) = literals(store, &of)?;
    let body = store.combine(op, end, next)?;
    solved_with(alloc, store, of.cells, ends, body)
}
