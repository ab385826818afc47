//! The search breadth first for the locations that words reach.
ghost use Rattle.std.specs.Prelude.{◌≡◌, ◌<◌, ◌+◌, [], ◌∷◌, length, IfOk, OnOk};
ghost use Rattle.automata.specs.Table.{size_of, Fits, moves_of};
ghost use Rattle.automata.specs.Search.{HasFound, ArePlaces, IsNoted, nowhere};

use crate::automaton::Automaton;
use bes_io::Memory;
use diagrams::Store;
use std::alloc::Global;

/// The place of a location that is not found.
const NOWHERE: u32 = u32::MAX;

/// Locations in the order in which they are found, and for each location its place among them or `NOWHERE`.
#[derive(Drop)]
pub(crate) struct Reached {
    pub(crate) found: Vec<u32>,
    pub(crate) places: Vec<u32>,
}

/// The search that has found the first location alone.
fn begin(alloc: Global, size: u32, first: u32) -> Result<Reached, Memory>
    requires first { first < size }
    requires size { size < nowhere }
    ensures places { IfOk result (λ reached. ArePlaces reached.found.items reached.places.items) }
    ensures size { IfOk result (λ reached. length reached.places.items ≡ size) }
    ensures found { IfOk result (λ reached. reached.found.items ≡ first ∷ []) }
{
    let mut places = vec![in alloc; NOWHERE; size as usize]?;
    places[first as usize] = 0;
    let found = vec![in alloc; first]?;
    Ok(Reached { found, places })
}

/// Puts a location at the end of those found, where it is not among them.
fn note(reached: &mut Reached, at: u32) -> Result<(), Memory>
    requires places { ArePlaces reached.old.found.items reached.old.places.items }
    requires at { at < length reached.old.places.items }
    ensures places { OnOk result (ArePlaces reached.new.found.items reached.new.places.items) }
    ensures size { OnOk result (length reached.new.places.items ≡ length reached.old.places.items) }
    ensures noted { OnOk result (IsNoted reached.old.found.items reached.new.found.items at) }
{
    if reached.places[at as usize] == NOWHERE {
        reached.places[at as usize] = reached.found.len() as u32;
        reached.found.push(at)?;
    }
    Ok(())
}

/// Finds the targets of the k-th location found.
fn follow(
    alloc: Global,
    store: &Store,
    automaton: &Automaton,
    reached: &mut Reached,
    k: usize,
) -> Result<(), Memory>
    requires fits { Fits store.now automaton.now }
    requires places { ArePlaces reached.old.found.items reached.old.places.items }
    requires size { length reached.old.places.items ≡ size_of automaton.now }
    requires here { k < length reached.old.found.items }
    requires found { HasFound store.now.props (moves_of store.now automaton.now) reached.old.found.items k }
    ensures places { OnOk result (ArePlaces reached.new.found.items reached.new.places.items) }
    ensures size { OnOk result (length reached.new.places.items ≡ size_of automaton.now) }
    ensures here { OnOk result (k < length reached.new.found.items) }
    ensures found { OnOk result (HasFound store.now.props (moves_of store.now automaton.now) reached.new.found.items (k + 1)) }
{
    let targets = store.next_terminals(alloc, automaton.row(reached.found[k]))?;
    for target in &targets {
        note(reached, *target)?;
    }
    Ok(())
}

/// The locations that words reach, in the order of their least words.
pub(crate) fn search(alloc: Global, store: &Store, automaton: &Automaton) -> Result<Reached, Memory>
    requires fits { Fits store.now automaton.now }
    ensures places { IfOk result (λ reached. ArePlaces reached.found.items reached.places.items) }
    ensures size { IfOk result (λ reached. length reached.places.items ≡ size_of automaton.now) }
    ensures found { IfOk result (λ reached. HasFound store.now.props (moves_of store.now automaton.now) reached.found.items (length reached.found.items)) }
{
    let mut reached = begin(alloc, automaton.size(), automaton.first())?;
    let mut k = 0;
    while k < reached.found.len() {
        follow(alloc, store, automaton, &mut reached, k)?;
        k += 1;
    }
    Ok(reached)
}
