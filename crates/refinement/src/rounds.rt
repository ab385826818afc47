//! The classes of locations.
ghost use Rattle.std.specs.Prelude.{◌≡◌, ◌<◌, ◌∷◌, ℕ, [], length, IfOk, OnOk};
ghost use Rattle.std.specs.List.{range_with_len};
ghost use Rattle.diagrams.specs.Eval.{id_at};
ghost use Rattle.diagrams.specs.Live.{Keeps, Means};
ghost use Rattle.automata.specs.Table.{size_of, mark_of, Fits, moves_of};
ghost use Rattle.linked_blocks.specs.Lists.{block_in, HoldEach};
ghost use Rattle.class_laws.specs.Classes.{AreClasses, AreFull, IsPaid, HasFewMoves};
ghost use Rattle.class_laws.specs.Divided.{IsDivided};
ghost use Rattle.class_laws.specs.Current.{IsRefining};
ghost use Rattle.looking.specs.Predecessors.{HavePredecessors};

use crate::groups::split;
use automata::Automaton;
use bes_io::Memory;
use diagrams::{Id, Store};
use linked_blocks::Blocks;
use looking::{Predecessors, look_again};
use std::alloc::Global;

/// All locations.
fn all(alloc: Global, size: u32) -> Result<Vec<u32>, Memory>
    ensures { IfOk result (λ found. found.items ≡ range_with_len 0 size) }
{
    let mut found = Vec::new(alloc);
    for at in 0..size {
        found.push(at)?;
    }
    Ok(found)
}

/// The marks of all locations, as constants.
fn marks(alloc: Global, store: &mut Store, automaton: &Automaton) -> Result<Vec<Id>, Memory>
    requires fits { Fits store.old automaton.now }
    ensures keeps { Keeps store.old store.new }
    ensures long { IfOk result (λ found. length found.items ≡ size_of automaton.now) }
    ensures marks { IfOk result (λ found. (at : ℕ) → at < size_of automaton.now → Means store.new (id_at found.items at) (λ a. mark_of automaton.now at)) }
{
    prove!(store.props() <= 32);
    let mut found = Vec::new(alloc);
    for at in 0..automaton.size() {
        found.push(store.terminal(automaton.mark(at))?)?;
    }
    Ok(found)
}

/// Looks at locations again and splits their blocks, until nothing is shifted.
fn settle(
    alloc: Global,
    store: &mut Store,
    automaton: &Automaton,
    predecessors: &Predecessors,
    blocks: &mut Blocks,
    rows: &mut Vec<Id>,
    all: Vec<u32>,
) -> Result<(), Memory>
    requires fits { Fits store.old automaton.now }
    requires refining { IsRefining store.old store.old automaton.now blocks.old rows.old.items all.items }
    requires predecessors { HavePredecessors store.old automaton.now predecessors.now }
    ensures keeps { Keeps store.old store.new }
    ensures each { HoldEach (size_of automaton.now) blocks.new.lists }
    ensures full { OnOk result (AreFull blocks.new.lists) }
    ensures paid { OnOk result (IsPaid (size_of automaton.now) blocks.new.lists blocks.new.moves) }
    ensures divided { OnOk result ((k : ℕ) × IsDivided store.old.props (moves_of store.old automaton.now) k (block_in blocks.new.lists)) }
    ensures classes { OnOk result (AreClasses store.old.props (moves_of store.old automaton.now) (block_in blocks.new.lists)) }
{
    prove!(automaton.first() < automaton.size());
    let mut touched = all;
    loop {
        let changed = look_again(alloc, store, automaton, blocks, rows, &touched)?;
        let shifted = split(alloc, blocks, rows, &changed)?;
        if shifted.is_empty() {
            return Ok(());
        }
        touched = predecessors.of_all(alloc, &shifted)?;
    }
}

/// Divides the locations into their classes.
pub fn refine(
    alloc: Global,
    store: &mut Store,
    automaton: &Automaton,
    blocks: &mut Blocks,
) -> Result<(), Memory>
    requires fits { Fits store.old automaton.now }
    requires lists { blocks.old.lists ≡ range_with_len 0 (size_of automaton.now) ∷ [] }
    requires moves { blocks.old.moves ≡ 0 }
    ensures keeps { Keeps store.old store.new }
    ensures each { HoldEach (size_of automaton.now) blocks.new.lists }
    ensures full { OnOk result (AreFull blocks.new.lists) }
    ensures few { OnOk result (HasFewMoves (size_of automaton.now) blocks.new.moves) }
    ensures classes { OnOk result (AreClasses store.old.props (moves_of store.old automaton.now) (block_in blocks.new.lists)) }
    ensures divided { OnOk result ((k : ℕ) × IsDivided store.old.props (moves_of store.old automaton.now) k (block_in blocks.new.lists)) }
{
    prove!(store.props() <= 32);
    prove!(automaton.first() < automaton.size());
    let marks = marks(alloc, store, automaton)?;
    let touched = all(alloc, automaton.size())?;
    split(alloc, blocks, &marks, &touched)?;
    let constant = store.terminal(0)?;
    let mut rows = vec![in alloc; constant; automaton.size() as usize]?;
    let predecessors = Predecessors::new(alloc, store, automaton)?;
    settle(
        alloc,
        store,
        automaton,
        &predecessors,
        blocks,
        &mut rows,
        touched,
    )
}
