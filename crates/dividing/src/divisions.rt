//! Blocks of locations with one mark and one relabelled row, each named by its first location.
//!
//! A round renames the parts that leave a block and not the block, so that few rows change from round to round.
ghost use Rattle.std.specs.Prelude.{◌≡◌, ◌<◌, ℕ, false, length, slice_index, Some, unwrap_or, if◌then◌else◌, IfOk};
ghost use Rattle.std.specs.HashMap.{get};
ghost use Rattle.diagrams.specs.Kept.{AllKept};
ghost use Rattle.diagrams.specs.Live.{IsLive, Keeps, Means};
ghost use Rattle.diagrams.specs.Transformed.{IsTransformed, same_id, IsTableItem, item_value};
ghost use Rattle.automata.specs.Table.{size_of, Fits};
ghost use Rattle.dividing.specs.declared.divisions.Key as TheKey;
ghost use Rattle.dividing.specs.Divisions.{same_key, AreBlockRows, AreTargets, HaveStayed, HaveTargets, IsDivision};

use crate::targets::Targets;
use automata::Automaton;
use bes_io::Memory;
use diagrams::{Id, Memo, Store};
use std::alloc::Global;
use std::collections::HashMap;

/// What a round divides locations by: the mark, and the row with blocks in place of locations.
#[derive(Clone, Copy, PartialEq, Eq, Hash)]
struct Key {
    mark: u32,
    row: Id,
}

/// The rows of all locations, with blocks in place of locations.
pub fn block_rows(
    alloc: Global,
    store: &mut Store,
    automaton: &Automaton,
    blocks: &[u32],
) -> Result<Vec<Id>, Memory>
    requires fits { Fits store.old automaton.now }
    requires blocks { length blocks.now ≡ size_of automaton.now }
    ensures keeps { Keeps store.old store.new }
    ensures rows { IfOk result (λ rows.
        AreBlockRows store.old store.new automaton.now blocks.now rows.items (size_of automaton.now)) }
{
    prove!(store.props() <= 32);
    let mut memo = Memo::new(alloc);
    let mut rows = Vec::new(alloc);
    for at in 0..automaton.size() {
        rows.push(store.map_terminals_with(&mut memo, automaton.row(at), blocks)?)?;
    }
    Ok(rows)
}

/// Whether one of these locations has another block than before.
fn have_moved(locations: &[u32], old: &[u32], new: &[u32]) -> bool
    requires old { (k : ℕ) → k < length locations.now → slice_index locations.now k < length old.now }
    requires new { (k : ℕ) → k < length locations.now → slice_index locations.now k < length new.now }
    ensures { result ≡ false → HaveStayed locations.now old.now new.now }
{
    for at in locations {
        if old[*at as usize] != new[*at as usize] {
            return true;
        }
    }
    false
}

/// A diagram with new blocks in place of locations, from the one with old blocks: the same where no target moved.
fn renewed(
    store: &mut Store,
    memo: &mut Memo<Id>,
    f: Id,
    targets: &[u32],
    old: &[u32],
    new: &[u32],
    row: Id,
) -> Result<Id, Memory>
    requires old { Means store.old row (item_value store.old old.now f) }
    requires live { IsLive store.old f }
    requires targets { AreTargets store.old (length old.now) f targets.now }
    requires size { length new.now ≡ length old.now }
    requires right { AllKept same_id (IsTransformed store.old (IsTableItem new.now)) memo.old }
    ensures keeps { Keeps store.old store.new }
    ensures right { AllKept same_id (IsTransformed store.new (IsTableItem new.now)) memo.new }
    ensures row { IfOk result (λ id. Means store.new id (item_value store.old new.now f)) }
{
    prove!(store.props() <= 32);
    if !have_moved(targets, old, new) {
        return Ok(row);
    }
    store.map_terminals_with(memo, f, new)
}

/// The rows of all locations with new blocks in place of locations, from those with old blocks.
pub fn renewed_rows(
    alloc: Global,
    store: &mut Store,
    automaton: &Automaton,
    targets: &Targets,
    old: &[u32],
    new: &[u32],
    rows: &[Id],
) -> Result<Vec<Id>, Memory>
    requires fits { Fits store.old automaton.now }
    requires targets { HaveTargets store.old automaton.now targets.now }
    requires old { length old.now ≡ size_of automaton.now }
    requires new { length new.now ≡ size_of automaton.now }
    requires rows { AreBlockRows store.old store.old automaton.now old.now rows.now (size_of automaton.now) }
    ensures keeps { Keeps store.old store.new }
    ensures rows { IfOk result (λ rows.
        AreBlockRows store.old store.new automaton.now new.now rows.items (size_of automaton.now)) }
{
    prove!(store.props() <= 32);
    let mut memo = Memo::new(alloc);
    let mut after = Vec::new(alloc);
    for at in 0..automaton.size() {
        let row = rows[at as usize];
        let row = renewed(
            store,
            &mut memo,
            automaton.row(at),
            targets.of(at),
            old,
            new,
            row,
        )?;
        after.push(row)?;
    }
    Ok(after)
}

/// The first location that had the key, which is this one if none had.
fn first_of(firsts: &mut HashMap<Key, u32>, key: Key, at: u32) -> Result<u32, Memory>
    ensures first { IfOk result (λ first. first ≡ unwrap_or (get same_key firsts.old key) at) }
    ensures kept { IfOk result (λ first. (other : TheKey.Key)
        → get same_key firsts.new other ≡ (if same_key key other then Some first else get same_key firsts.old other)) }
{
    if let Some(first) = firsts.get(&key) {
        return Ok(*first);
    }
    firsts.insert(key, at)?;
    Ok(at)
}

/// The blocks of locations with one mark and one of these rows, each named by its first location.
pub fn divide_by_rows(alloc: Global, automaton: &Automaton, rows: &[Id]) -> Result<Vec<u32>, Memory>
    requires { length rows.now ≡ size_of automaton.now }
    ensures { IfOk result (λ blocks. IsDivision automaton.now rows.now blocks.items) }
{
    let mut firsts = HashMap::new(alloc);
    let mut blocks = Vec::new(alloc);
    for at in 0..automaton.size() {
        let mark = automaton.mark(at);
        let row = rows[at as usize];
        blocks.push(first_of(&mut firsts, Key { mark, row }, at)?)?;
    }
    Ok(blocks)
}
