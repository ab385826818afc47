//! Links between places, forth and back.
ghost use Rattle.std.specs.Prelude.{◌≡◌, ◌≢◌, ◌<◌, ◌≤◌, ◌+◌, ◌-◌, ◌*◌, ◌^◌, ◌==◌, ℕ, length, slice_index, slice_set, nat_lt, if◌then◌else◌, IfOk};
ghost use Rattle.linked_blocks.specs.Links.{forth_without, back_without, forth_with, back_with, counts_after};

use bes_io::Memory;
use std::alloc::Global;

/// Takes a place out from between its neighbours.
fn unlink(next: &mut Vec<usize>, prev: &mut Vec<usize>, at: usize)
    requires at_next { at < length next.old.items }
    requires at_prev { at < length prev.old.items }
    requires before { slice_index prev.old.items at < length next.old.items }
    requires after { slice_index next.old.items at < length prev.old.items }
    ensures next { next.new.items ≡ forth_without next.old.items prev.old.items at }
    ensures prev { prev.new.items ≡ back_without next.old.items prev.old.items at }
{
    let before = prev[at];
    let after = next[at];
    next[before] = after;
    prev[after] = before;
}

/// Puts a place between an end and the place before it.
fn link(next: &mut Vec<usize>, prev: &mut Vec<usize>, at: usize, end: usize)
    requires at_next { at < length next.old.items }
    requires at_prev { at < length prev.old.items }
    requires end { end < length prev.old.items }
    requires last { slice_index prev.old.items end < length next.old.items }
    ensures next { next.new.items ≡ forth_with next.old.items prev.old.items at end }
    ensures prev { prev.new.items ≡ back_with next.old.items prev.old.items at end }
{
    let last = prev[end];
    next[last] = at;
    next[at] = end;
    prev[at] = last;
    prev[end] = at;
}

/// Takes a place out from between its neighbours and puts it before an end.
pub(crate) fn relink(next: &mut Vec<usize>, prev: &mut Vec<usize>, at: usize, end: usize)
    requires at_next { at < length next.old.items }
    requires at_prev { at < length prev.old.items }
    requires before { slice_index prev.old.items at < length next.old.items }
    requires after { slice_index next.old.items at < length prev.old.items }
    requires end { end < length prev.old.items }
    requires last { slice_index (back_without next.old.items prev.old.items at) end < length next.old.items }
    ensures next { next.new.items ≡ forth_with (forth_without next.old.items prev.old.items at) (back_without next.old.items prev.old.items at) at end }
    ensures prev { prev.new.items ≡ back_with (forth_without next.old.items prev.old.items at) (back_without next.old.items prev.old.items at) at end }
{
    unlink(next, prev, at);
    link(next, prev, at, end);
}

/// Notes that a location left its block for another.
pub(crate) fn recount(block: &mut Vec<u32>, count: &mut Vec<u32>, at: u32, into: u32)
    requires at { at < length block.old.items }
    requires from { slice_index block.old.items at < length count.old.items }
    requires into { into < length count.old.items }
    requires other { slice_index block.old.items at ≢ into }
    requires some { 0 < slice_index count.old.items (slice_index block.old.items at) }
    requires few { slice_index count.old.items into < 2 ^ 32 - 1 }
    ensures block { block.new.items ≡ slice_set block.old.items at into }
    ensures count { count.new.items ≡ counts_after count.old.items (slice_index block.old.items at) into }
{
    let from = block[at as usize];
    let less = count[from as usize] - 1;
    count[from as usize] = less;
    let more = count[into as usize] + 1;
    count[into as usize] = more;
    block[at as usize] = into;
}

/// A ring of one place, which counts nothing.
pub(crate) fn begin_ring(
    next: &mut Vec<usize>,
    prev: &mut Vec<usize>,
    count: &mut Vec<u32>,
    place: usize,
    number: u32,
)
    requires next { place < length next.old.items }
    requires prev { place < length prev.old.items }
    requires count { number < length count.old.items }
    ensures next { next.new.items ≡ slice_set next.old.items place place }
    ensures prev { prev.new.items ≡ slice_set prev.old.items place place }
    ensures count { count.new.items ≡ slice_set count.old.items number 0 }
{
    next[place] = place;
    prev[place] = place;
    count[number as usize] = 0;
}

/// The links forth of one ring of the places up to `size`, and of rings of one place behind it.
pub(crate) fn links_forth(alloc: Global, size: usize) -> Result<Vec<usize>, Memory>
    requires { size < 2 ^ 32 }
    ensures length { IfOk result (λ made. length made.items ≡ 2 * size) }
    ensures item { IfOk result (λ made. (k : ℕ) → k < 2 * size → slice_index made.items k ≡ (if nat_lt k size then k + 1 else if k == size then 0 else k)) }
{
    let mut made = Vec::new(alloc);
    for k in 0..2 * size {
        made.push(if k < size {
            k + 1
        } else if k == size {
            0
        } else {
            k
        })?;
    }
    Ok(made)
}

/// The links back of the same rings.
pub(crate) fn links_back(alloc: Global, size: usize) -> Result<Vec<usize>, Memory>
    requires { size < 2 ^ 32 }
    ensures length { IfOk result (λ made. length made.items ≡ 2 * size) }
    ensures item { IfOk result (λ made. (k : ℕ) → k < 2 * size → slice_index made.items k ≡ (if nat_lt size k then k else if k == 0 then size else k - 1)) }
{
    let mut made = Vec::new(alloc);
    for k in 0..2 * size {
        made.push(if size < k {
            k
        } else if k == 0 {
            size
        } else {
            k - 1
        })?;
    }
    Ok(made)
}
