//! Groups of locations with one block and one row, which part one after another.
ghost use Rattle.std.specs.Prelude.{◌≡◌, ◌<◌, ◌+◌, ◌^◌, ◌==◌, ◌∷◌, ◌++◌, [], length, map, slice_set, if◌then◌else◌, IfOk, OnOk};
ghost use Rattle.diagrams.specs.Eval.{id_at};
ghost use Rattle.linked_blocks.specs.Lists.{list_of, block_in, HoldEach};
ghost use Rattle.class_laws.specs.Classes.{AreFull, IsPaid};
ghost use Rattle.class_laws.specs.Splits.{IsSplit};
ghost use Rattle.class_laws.specs.Shifts.{AreNoted, AreHalved};
ghost use Rattle.class_laws.specs.Current.{AreChanges, AreGroups};

use crate::parting::part;
use bes_io::Memory;
use diagrams::Id;
use indexmap::IndexSet;
use linked_blocks::Blocks;
use std::alloc::Global;

/// A block and a row.
#[derive(Clone, Copy, PartialEq, Eq, Hash)]
pub(crate) struct Key {
    pub(crate) block: u32,
    pub(crate) row: Id,
}

/// Appends an empty list where the number is that of the next one.
fn make_room(alloc: Global, groups: &mut Vec<Vec<u32>>, number: usize) -> Result<(), Memory>
    ensures { OnOk result (map (λ list. list.items) groups.new.items ≡ (if number == length (map (λ list. list.items) groups.old.items) then map (λ list. list.items) groups.old.items ++ [] ∷ [] else map (λ list. list.items) groups.old.items)) }
{
    if number == groups.len() {
        groups.push(Vec::new(alloc))?;
    }
    Ok(())
}

/// Appends a location to the list with a number.
fn note(groups: &mut Vec<Vec<u32>>, number: usize, at: u32) -> Result<(), Memory>
    requires { number < length (map (λ list. list.items) groups.old.items) }
    ensures { OnOk result (map (λ list. list.items) groups.new.items ≡ slice_set (map (λ list. list.items) groups.old.items) number (list_of (map (λ list. list.items) groups.old.items) number ++ at ∷ [])) }
{
    let list = &mut groups[number];
    list.push(at)?;
    Ok(())
}

/// The locations in groups of one block and one row each.
fn group(
    alloc: Global,
    blocks: &Blocks,
    rows: &[Id],
    changed: &[u32],
) -> Result<Vec<Vec<u32>>, Memory>
    requires each { HoldEach (length rows.now) blocks.now.lists }
    requires changed { AreChanges (length rows.now) (block_in blocks.now.lists) (id_at rows.now) changed.now }
    ensures { IfOk result (λ groups. AreGroups (length rows.now) (block_in blocks.now.lists) (id_at rows.now) changed.now (map (λ list. list.items) groups.items)) }
{
    let mut kinds = IndexSet::new(alloc);
    let mut groups: Vec<Vec<u32>> = Vec::new(alloc);
    for at in changed {
        let block = blocks.block_of(*at);
        let row = rows[*at as usize];
        let (number, _) = kinds.insert_full(Key { block, row })?;
        make_room(alloc, &mut groups, number)?;
        note(&mut groups, number, *at)?;
    }
    Ok(groups)
}

/// Parts each group from the others of its block, and answers the locations that were shifted.
pub fn split(
    alloc: Global,
    blocks: &mut Blocks,
    rows: &[Id],
    changed: &[u32],
) -> Result<Vec<u32>, Memory>
    requires each { HoldEach (length rows.now) blocks.old.lists }
    requires small { length rows.now < 2 ^ 32 }
    requires full { AreFull blocks.old.lists }
    requires paid { IsPaid (length rows.now) blocks.old.lists blocks.old.moves }
    requires changed { AreChanges (length rows.now) (block_in blocks.old.lists) (id_at rows.now) changed.now }
    ensures each { HoldEach (length rows.now) blocks.new.lists }
    ensures full { OnOk result (AreFull blocks.new.lists) }
    ensures paid { OnOk result (IsPaid (length rows.now) blocks.new.lists blocks.new.moves) }
    ensures split { OnOk result (IsSplit (length rows.now) (block_in blocks.old.lists) (block_in blocks.new.lists) (id_at rows.now)) }
    ensures noted { IfOk result (λ shifted. AreNoted (length rows.now) blocks.old.lists blocks.new.lists [] shifted.items) }
    ensures halved { OnOk result (AreHalved (length rows.now) blocks.old.lists blocks.new.lists) }
    ensures moves { IfOk result (λ shifted. blocks.new.moves ≡ blocks.old.moves + length shifted.items) }
{
    let groups = group(alloc, blocks, rows, changed)?;
    let mut shifted = Vec::new(alloc);
    for list in &groups {
        part(alloc, blocks, rows, list, &mut shifted)?;
    }
    Ok(shifted)
}
