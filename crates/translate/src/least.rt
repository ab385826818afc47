//! The least automaton of a claim over obligations, and of what an automaton accepts.
ghost use Rattle.std.specs.Prelude.{ℕ, ◌<◌, length, IfOk};
ghost use Rattle.diagrams.specs.Live.{Keeps};
ghost use Rattle.automata.specs.Table.{size_of, mark_of, Fits};
ghost use Rattle.obligations.specs.Value.{IsClaim, FitsCells, holds};
ghost use Rattle.translate.specs.Exact.{accepted, IsLeastOf};
ghost use Rattle.translate.specs.Standing.{IsFlipped};

use automata::Automaton;
use bes_io::Memory;
use diagrams::{Id, Store};
use minimise::minimise;
use obligations::{Cells, determinise};
use std::alloc::Global;

/// The least automaton that accepts what another does.
pub(crate) fn least_of(
    alloc: Global,
    store: &mut Store,
    automaton: Automaton,
) -> Result<Automaton, Memory>
    requires fits { Fits store.old automaton }
    requires marks { (at : ℕ) → at < size_of automaton → mark_of automaton at < 2 }
    ensures keeps { Keeps store.old store.new }
    ensures least { IfOk result (λ made. IsLeastOf store.new made (accepted store.old automaton)) }
{
    prove!(automaton.first() < automaton.size());
    minimise(alloc, store, automaton)
}

/// The least automaton of the words on which a claim holds.
pub(crate) fn solved(
    alloc: Global,
    store: &mut Store,
    cells: &Cells,
    start: Id,
) -> Result<Automaton, Memory>
    requires fits { FitsCells store.old cells.now }
    requires start { IsClaim store.old (length cells.now) start }
    ensures keeps { Keeps store.old store.new }
    ensures least { IfOk result (λ made. IsLeastOf store.new made (holds store.old cells.now start)) }
{
    let automaton = determinise(alloc, store, cells, start)?;
    least_of(alloc, store, automaton)
}

/// The automaton that accepts what another does not.
pub(crate) fn flipped(alloc: Global, automaton: &Automaton) -> Result<Automaton, Memory>
    ensures { IfOk result (IsFlipped automaton.now) }
{
    let mut marks = Vec::new(alloc);
    let mut rows = Vec::new(alloc);
    for at in 0..automaton.size() {
        marks.push(if automaton.mark(at) == 1 { 0 } else { 1 })?;
        rows.push(automaton.row(at))?;
    }
    Ok(Automaton::new(automaton.first(), marks, rows))
}
