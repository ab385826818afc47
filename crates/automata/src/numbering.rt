//! The numbering by least words.
ghost use Rattle.std.specs.Prelude.{◌≡◌, ◌<◌, All, length, IfOk};
ghost use Rattle.diagrams.specs.Live.{Keeps};
ghost use Rattle.automata.specs.Moves.{HaveSameMarks};
ghost use Rattle.automata.specs.Table.{size_of, Fits, moves_of};
ghost use Rattle.automata.specs.Numbering.{IsNumbered};
ghost use Rattle.automata.specs.Subautomaton.{IsSubautomaton};
ghost use Rattle.automata.specs.Search.{ArePlaces, AreMarks, AreRows};

use crate::automaton::Automaton;
use crate::search::{Reached, search};
use bes_io::Memory;
use diagrams::{Id, Store};
use std::alloc::Global;

/// The marks of the found locations.
fn marks_of(alloc: Global, automaton: &Automaton, found: &[u32]) -> Result<Vec<u32>, Memory>
    requires { All (λ at. at < size_of automaton.now) found.now }
    ensures { IfOk result (λ marks. AreMarks automaton.now found.now marks.items (length found.now)) }
{
    let mut marks = Vec::new(alloc);
    for at in found {
        marks.push(automaton.mark(*at))?;
    }
    Ok(marks)
}

/// The rows of the found locations, with places in place of locations.
fn rows_of(
    alloc: Global,
    store: &mut Store,
    automaton: &Automaton,
    reached: &Reached,
) -> Result<Vec<Id>, Memory>
    requires fits { Fits store.old automaton.now }
    requires places { ArePlaces reached.now.found.items reached.now.places.items }
    requires size { length reached.now.places.items ≡ size_of automaton.now }
    ensures keeps { Keeps store.old store.new }
    ensures rows { IfOk result (λ rows. AreRows store.old store.new automaton.now reached.now.found.items reached.now.places.items rows.items (length reached.now.found.items)) }
{
    prove!(store.props() <= 32);
    let mut rows = Vec::new(alloc);
    for at in &reached.found {
        rows.push(store.map_terminals(automaton.row(*at), &reached.places)?)?;
    }
    Ok(rows)
}

/// The automaton without the locations that no word reaches, the others numbered from 0 in shortlex order of the
/// least words that lead to them.
pub fn renumber(alloc: Global, store: &mut Store, automaton: Automaton) -> Result<Automaton, Memory>
    requires fits { Fits store.old automaton }
    ensures keeps { Keeps store.old store.new }
    ensures fits { IfOk result (λ made. Fits store.new made) }
    ensures first { IfOk result (λ made. made.first ≡ 0) }
    ensures part { IfOk result (λ made. IsSubautomaton store.old.props (moves_of store.old automaton) (moves_of store.new made)) }
    ensures marks { IfOk result (λ made. HaveSameMarks (moves_of store.new made) (moves_of store.old automaton)) }
    ensures numbered { IfOk result (λ made. IsNumbered store.old.props (moves_of store.new made)) }
{
    prove!(store.props() <= 32);
    prove!(automaton.first() < automaton.size());
    let reached = search(alloc, store, &automaton)?;
    let marks = marks_of(alloc, &automaton, &reached.found)?;
    let rows = rows_of(alloc, store, &automaton, &reached)?;
    Ok(Automaton::new(0, marks, rows))
}
