//! The automaton that ends at the goal.
ghost use Rattle.std.specs.Prelude.{◌≡◌, ◌<◌, ◌+◌, ◌^◌, ◌-◌, IfOk, if◌then◌else◌, ◌==◌};
ghost use Rattle.diagrams.specs.Live.{Keeps};
ghost use Rattle.automata.specs.Table.{size_of, mark_of, row_of, Fits, moves_of};
ghost use Rattle.products.specs.Joins.{IsEnded};

use automata::Automaton;
use bes_io::Memory;
use diagrams::{Id, Store};
use std::alloc::Global;

/// The row of a location: to the last one where its mark is 1, else its own.
fn row_before(automaton: &Automaton, at: u32, past: Id) -> Id
    requires { at < size_of automaton.now }
    ensures { result ≡ (if mark_of automaton.now at == 1 then past else row_of automaton.now at) }
{
    if automaton.mark(at) == 1 {
        past
    } else {
        automaton.row(at)
    }
}

/// The automaton with one more location, with the mark 4, to which all letters lead from each location with the mark 1.
pub fn ended(alloc: Global, store: &mut Store, automaton: &Automaton) -> Result<Automaton, Memory>
    requires { Fits store.old automaton.now }
    ensures keeps { Keeps store.old store.new }
    ensures fits { IfOk result (λ made. Fits store.new made) }
    ensures ended { IfOk result (λ made. IsEnded store.new.props (moves_of store.new automaton.now) (moves_of store.new made)) }
{
    prove!(store.props() <= 32);
    let size = automaton.size();
    if size > 4294967293 {
        return Err(Memory);
    }
    let past = store.terminal(size)?;
    let mut marks = Vec::new(alloc);
    let mut rows = Vec::new(alloc);
    for at in 0..size {
        marks.push(automaton.mark(at))?;
        rows.push(row_before(automaton, at, past))?;
    }
    marks.push(4)?;
    rows.push(past)?;
    Ok(Automaton::new(automaton.first(), marks, rows))
}
