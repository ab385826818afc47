//! Obligations for the operands of an operator.
ghost use Rattle.std.specs.Prelude.{IfOk};
ghost use Rattle.diagrams.specs.Live.{Keeps};
ghost use Rattle.automata.specs.Table.{Fits};
ghost use Rattle.obligations.specs.Value.{FitsCells};
ghost use Rattle.obligations.specs.Inclusion.{IsWider};
ghost use Rattle.obligations.specs.Followed.{GoesOn, wider_of};
ghost use Rattle.translate.specs.Exact.{accepted};
ghost use Rattle.translate.specs.Joined.{ended};
ghost use Rattle.translate.specs.Standing.{Stands};

use automata::Automaton;
use bes_io::Memory;
use diagrams::Store;
use obligations::{Cells, Inclusions, find_inclusions, follow, themselves};
use std::alloc::Global;

/// Which locations the obligation of one asks for together with it. Inclusions keep claims few where obligations of
/// many positions meet, and cost more than they save where only one of each operand is asked for.
#[derive(Clone, Copy)]
pub(crate) enum Asked {
    Alone,
    WithInclusions,
}

/// A table with an obligation for each of two operands.
#[derive(Drop)]
pub(crate) struct Operands {
    pub(crate) cells: Cells,
    pub(crate) first: u32,
    pub(crate) second: u32,
}

/// For each location those that are asked for with it.
fn wider(
    alloc: Global,
    store: &Store,
    automaton: &Automaton,
    asked: Asked,
) -> Result<Inclusions, Memory>
    requires { Fits store.now automaton.now }
    ensures { IfOk result (λ made. IsWider store.now automaton.now (wider_of made)) }
{
    match asked {
        Asked::Alone => themselves(alloc, store, automaton),
        Asked::WithInclusions => find_inclusions(alloc, store, automaton),
    }
}

/// Appends the obligations of an automaton, and answers the number of its first location's.
pub(crate) fn operand(
    alloc: Global,
    store: &mut Store,
    cells: &mut Cells,
    automaton: &Automaton,
    asked: Asked,
) -> Result<u32, Memory>
    requires fits { Fits store.old automaton.now }
    requires cells { FitsCells store.old cells.old }
    ensures keeps { Keeps store.old store.new }
    ensures cells { FitsCells store.new cells.new }
    ensures grows { GoesOn cells.old cells.new }
    ensures stands { IfOk result (λ first. Stands store.new cells.new first (accepted store.old automaton.now)) }
{
    prove!(automaton.first() < automaton.size());
    prove!(store.props() <= 32);
    let wider = wider(alloc, store, automaton, asked)?;
    let base = follow(alloc, store, cells, automaton, &wider)?;
    prove!(cells.len() <= 2147483647);
    Ok(base + automaton.first())
}

/// The obligations of two automata.
pub(crate) fn two_operands(
    alloc: Global,
    store: &mut Store,
    a: &Automaton,
    b: &Automaton,
    asked: Asked,
) -> Result<Operands, Memory>
    requires a { Fits store.old a.now }
    requires b { Fits store.old b.now }
    ensures keeps { Keeps store.old store.new }
    ensures cells { IfOk result (λ made. FitsCells store.new made.cells) }
    ensures first { IfOk result (λ made. Stands store.new made.cells made.first (accepted store.old a.now)) }
    ensures second { IfOk result (λ made. Stands store.new made.cells made.second (accepted store.old b.now)) }
{
    prove!(b.first() < b.size());
    let mut cells = Cells::new(alloc);
    let first = operand(alloc, store, &mut cells, a, asked)?;
    let second = operand(alloc, store, &mut cells, b, asked)?;
    Ok(Operands {
        cells,
        first,
        second,
    })
}

/// The obligations of an automaton, and as the second one that no letter is left, or for `false` that one is.
pub(crate) fn operand_and_end(
    alloc: Global,
    store: &mut Store,
    automaton: &Automaton,
    asked: Asked,
    ends: bool,
) -> Result<Operands, Memory>
    requires { Fits store.old automaton.now }
    ensures keeps { Keeps store.old store.new }
    ensures cells { IfOk result (λ made. FitsCells store.new made.cells) }
    ensures first { IfOk result (λ made. Stands store.new made.cells made.first (accepted store.old automaton.now)) }
    ensures second { IfOk result (λ made. Stands store.new made.cells made.second (ended ends)) }
{
    let mut cells = Cells::new(alloc);
    let first = operand(alloc, store, &mut cells, automaton, asked)?;
    let body = store.terminal(u32::from(!ends))?;
    let second = cells.add(ends, body)?;
    Ok(Operands {
        cells,
        first,
        second,
    })
}
