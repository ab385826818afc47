//! The least automaton.
ghost use Rattle.std.specs.Prelude.{◌≡◌, ◌<◌, length, slice_index, IfOk};
ghost use Rattle.diagrams.specs.Live.{Keeps};
ghost use Rattle.automata.specs.Moves.{HaveSameMarks};
ghost use Rattle.automata.specs.Table.{size_of, Fits, moves_of};
ghost use Rattle.automata.specs.Numbering.{IsNumbered};
ghost use Rattle.linked_blocks.specs.Lists.{list_of, block_in, HoldEach};
ghost use Rattle.class_laws.specs.Classes.{AreClasses, AreFull};
ghost use Rattle.minimise.specs.Minimal.{IsLeast};
ghost use Rattle.minimise.specs.Quotient.{IsQuotient};

use automata::{Automaton, renumber};
use bes_io::Memory;
use diagrams::{Memo, Store};
use linked_blocks::Blocks;
use refinement::refine;
use std::alloc::Global;

/// The first location of a block.
fn first_of(blocks: &Blocks, block: u32) -> u32
    requires block { block < length blocks.now.lists }
    requires full { AreFull blocks.now.lists }
    ensures { result ≡ slice_index (list_of blocks.now.lists block) 0 }
{
    let Some(at) = blocks.first(block) else {
        unreachable!();
    };
    at
}

/// The automaton whose locations are the blocks.
fn merge(
    alloc: Global,
    store: &mut Store,
    automaton: &Automaton,
    blocks: &Blocks,
) -> Result<Automaton, Memory>
    requires fits { Fits store.old automaton.now }
    requires each { HoldEach (size_of automaton.now) blocks.now.lists }
    requires full { AreFull blocks.now.lists }
    requires classes { AreClasses store.old.props (moves_of store.old automaton.now) (block_in blocks.now.lists) }
    ensures keeps { Keeps store.old store.new }
    ensures fits { IfOk result (λ made. Fits store.new made) }
    ensures quotient { IfOk result (λ made.
        IsQuotient store.old.props (moves_of store.old automaton.now) (moves_of store.new made) (block_in blocks.now.lists)) }
{
    prove!(store.props() <= 32);
    prove!(automaton.first() < automaton.size());
    let numbers = blocks.numbers();
    let mut memo = Memo::new(alloc);
    let mut marks = Vec::new(alloc);
    let mut rows = Vec::new(alloc);
    for block in 0..blocks.len() {
        let at = first_of(blocks, block);
        marks.push(automaton.mark(at))?;
        rows.push(store.map_terminals_with(&mut memo, automaton.row(at), numbers)?)?;
    }
    let first = blocks.block_of(automaton.first());
    Ok(Automaton::new(first, marks, rows))
}

/// The automaton of fewest locations with the same mark after every word (Moore 1956), numbered from 0 in shortlex
/// order of the least words that lead to its locations. By `laws_of_least_automata` it is the only such one.
pub fn minimise(alloc: Global, store: &mut Store, automaton: Automaton) -> Result<Automaton, Memory>
    requires fits { Fits store.old automaton }
    ensures keeps { Keeps store.old store.new }
    ensures fits { IfOk result (λ made. Fits store.new made) }
    ensures first { IfOk result (λ made. made.first ≡ 0) }
    ensures marks { IfOk result (λ made. HaveSameMarks (moves_of store.new made) (moves_of store.old automaton)) }
    ensures least { IfOk result (λ made. IsLeast store.old.props (moves_of store.new made)) }
    ensures numbered { IfOk result (λ made. IsNumbered store.old.props (moves_of store.new made)) }
{
    prove!(store.props() <= 32);
    prove!(automaton.first() < automaton.size());
    let mut blocks = Blocks::new(alloc, automaton.size())?;
    refine(alloc, store, &automaton, &mut blocks)?;
    let merged = merge(alloc, store, &automaton, &blocks)?;
    prove!(merged.first() < merged.size());
    renumber(alloc, store, merged)
}
