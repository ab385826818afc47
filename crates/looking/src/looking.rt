//! Locations are looked at again.
ghost use Rattle.std.specs.Prelude.{◌≡◌, ℕ, true, length, IfOk, OnOk};
ghost use Rattle.diagrams.specs.Eval.{id_at};
ghost use Rattle.diagrams.specs.Live.{Keeps};
ghost use Rattle.automata.specs.Table.{size_of, Fits};
ghost use Rattle.linked_blocks.specs.Lists.{holds, block_in, HoldEach};
ghost use Rattle.class_laws.specs.Current.{AreRowsBy, AreChanges, AreCurrent};

use automata::Automaton;
use bes_io::Memory;
use diagrams::{Id, Memo, Store};
use linked_blocks::Blocks;
use std::alloc::Global;

/// Looks at locations again, and answers those whose row with blocks in place of locations is another one.
pub fn look_again(
    alloc: Global,
    store: &mut Store,
    automaton: &Automaton,
    blocks: &Blocks,
    rows: &mut Vec<Id>,
    touched: &[u32],
) -> Result<Vec<u32>, Memory>
    requires fits { Fits store.old automaton.now }
    requires each { HoldEach (size_of automaton.now) blocks.now.lists }
    requires current { AreCurrent store.old automaton.now blocks.now.lists rows.old.items touched.now }
    ensures keeps { Keeps store.old store.new }
    ensures long { OnOk result (length rows.new.items ≡ size_of automaton.now) }
    ensures rows { OnOk result (AreRowsBy store.old store.new automaton.now (block_in blocks.now.lists) (id_at rows.new.items)) }
    ensures changed { IfOk result (λ changed. AreChanges (size_of automaton.now) (block_in blocks.now.lists) (id_at rows.new.items) changed.items) }
    ensures touched { IfOk result (λ changed. (at : ℕ) → holds changed.items at ≡ true → holds touched.now at ≡ true) }
{
    prove!(store.props() <= 32);
    let numbers = blocks.numbers();
    let mut memo = Memo::new(alloc);
    let mut changed = Vec::new(alloc);
    for at in touched {
        let row = store.map_terminals_with(&mut memo, automaton.row(*at), numbers)?;
        if row != rows[*at as usize] {
            rows[*at as usize] = row;
            changed.push(*at)?;
        }
    }
    Ok(changed)
}
