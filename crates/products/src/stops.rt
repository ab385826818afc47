//! The automaton that stays at its ends.
ghost use Rattle.std.specs.Prelude.{◌≡◌, ◌<◌, ◌+◌, ◌^◌, ◌-◌, IfOk};
ghost use Rattle.diagrams.specs.Live.{Keeps};
ghost use Rattle.automata.specs.Table.{size_of, Fits, moves_of};
ghost use Rattle.products.specs.Joins.{IsStopped};
ghost use Rattle.products.specs.Stops.{IsStoppedRow};

use automata::Automaton;
use bes_io::Memory;
use diagrams::{Id, Store};
use std::alloc::Global;

/// The row of a location: to itself where the mark is an end, else its own.
fn row_or_own(store: &mut Store, automaton: &Automaton, at: u32) -> Result<Id, Memory>
    requires { at < size_of automaton.now }
    ensures keeps { Keeps store.old store.new }
    ensures row { IfOk result (λ id. IsStoppedRow store.new automaton.now at id) }
{
    prove!(store.props() <= 32);
    let mark = automaton.mark(at);
    if mark == 1 || mark == 3 {
        return store.terminal(at);
    }
    Ok(automaton.row(at))
}

/// The automaton in which each location with the mark 1 or 3 leads to itself.
pub(crate) fn stopped(
    alloc: Global,
    store: &mut Store,
    automaton: &Automaton,
) -> Result<Automaton, Memory>
    requires { Fits store.old automaton.now }
    ensures keeps { Keeps store.old store.new }
    ensures fits { IfOk result (λ made. Fits store.new made) }
    ensures stopped { IfOk result (λ made. IsStopped store.new.props (moves_of store.new automaton.now) (moves_of store.new made)) }
{
    prove!(store.props() <= 32);
    prove!(automaton.first() < automaton.size());
    let mut marks = Vec::new(alloc);
    let mut rows = Vec::new(alloc);
    for at in 0..automaton.size() {
        marks.push(automaton.mark(at))?;
        rows.push(row_or_own(store, automaton, at)?)?;
    }
    Ok(Automaton::new(automaton.first(), marks, rows))
}
