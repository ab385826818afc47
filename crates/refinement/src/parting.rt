//! A group parts from the others of its block.
ghost use Rattle.std.specs.Prelude.{◌≡◌, ◌≢◌, ◌<◌, ◌≤◌, ◌+◌, ◌*◌, ◌^◌, ◌++◌, [], ℕ, Bool, true, false, not, IsSome, length, slice_index, IfOk, OnOk};
ghost use Rattle.std.specs.List.{filter};
ghost use Rattle.diagrams.specs.declared.top.Id.{Id};
ghost use Rattle.diagrams.specs.Eval.{id_at};
ghost use Rattle.diagrams.specs.Transformed.{same_id};
ghost use Rattle.linked_blocks.specs.Lists.{holds, list_of, block_in, IsThere, IsOnce, HoldEach};
ghost use Rattle.class_laws.specs.Classes.{AreFull, IsPaid};
ghost use Rattle.class_laws.specs.Shifts.{AreShifted, AreOf, IsGroup, IsParted, AreNoted, AreHalved};

use bes_io::Memory;
use diagrams::Id;
use linked_blocks::Blocks;
use std::alloc::Global;

/// The locations of a block whose row is another one.
fn others(
    alloc: Global,
    blocks: &Blocks,
    rows: &[Id],
    block: u32,
    row: Id,
) -> Result<Vec<u32>, Memory>
    requires each { HoldEach (length rows.now) blocks.now.lists }
    requires block { block < length blocks.now.lists }
    ensures { IfOk result (λ found. found.items ≡ filter (λ x. not (same_id (id_at rows.now x) row)) (list_of blocks.now.lists block)) }
{
    let mut found = Vec::new(alloc);
    let mut at = blocks.first(block);
    for _k in 0..blocks.count(block) {
        let Some(here) = at else {
            unreachable!();
        };
        if rows[here as usize] != row {
            found.push(here)?;
        }
        at = blocks.next(here);
    }
    Ok(found)
}

/// Shifts locations of one block into a new one.
fn shift_all(
    blocks: &mut Blocks,
    size: u32,
    from: u32,
    moving: &[u32],
    shifted: &mut Vec<u32>,
) -> Result<(), Memory>
    requires each { HoldEach size blocks.old.lists }
    requires moving { AreOf size from blocks.old.lists moving.now }
    requires from { from < length blocks.old.lists }
    requires room { length blocks.old.lists < size }
    requires moves { blocks.old.moves + length moving.now < 2 ^ 64 }
    ensures each { HoldEach size blocks.new.lists }
    ensures moved { OnOk result (AreShifted size from blocks.old blocks.new moving.now) }
    ensures shifted { OnOk result (shifted.new.items ≡ shifted.old.items ++ moving.now) }
{
    let into = blocks.add_block();
    prove!(into < size && from < into);
    for at in moving {
        blocks.shift(*at, into);
        shifted.push(*at)?;
    }
    Ok(())
}

/// Parts a group from the others of its block: the fewer are shifted.
pub(crate) fn part(
    alloc: Global,
    blocks: &mut Blocks,
    rows: &[Id],
    group: &[u32],
    shifted: &mut Vec<u32>,
) -> Result<(), Memory>
    requires each { HoldEach (length rows.now) blocks.old.lists }
    requires small { length rows.now < 2 ^ 32 }
    requires full { AreFull blocks.old.lists }
    requires paid { IsPaid (length rows.now) blocks.old.lists blocks.old.moves }
    requires group { IsGroup (length rows.now) (block_in blocks.old.lists) (id_at rows.now) group.now }
    ensures each { HoldEach (length rows.now) blocks.new.lists }
    ensures full { OnOk result (AreFull blocks.new.lists) }
    ensures paid { OnOk result (IsPaid (length rows.now) blocks.new.lists blocks.new.moves) }
    ensures parted { OnOk result (IsParted (length rows.now) (block_in blocks.old.lists) (block_in blocks.new.lists) group.now) }
    ensures noted { OnOk result (AreNoted (length rows.now) blocks.old.lists blocks.new.lists shifted.old.items shifted.new.items) }
    ensures halved { OnOk result (AreHalved (length rows.now) blocks.old.lists blocks.new.lists) }
    ensures moves { OnOk result (blocks.new.moves + length shifted.old.items ≡ blocks.old.moves + length shifted.new.items) }
{
    let first = group[0];
    let block = blocks.block_of(first);
    let count = blocks.count(block) as usize;
    let size = rows.len() as u32;
    if group.len() == count {
        return Ok(());
    }
    if 2 * group.len() <= count {
        return shift_all(blocks, size, block, group, shifted);
    }
    let moving = others(alloc, blocks, rows, block, rows[first as usize])?;
    shift_all(blocks, size, block, &moving, shifted)
}
