//! A store of diagrams.
ghost use Rattle.std.specs.Prelude.{◌≡◌, ◌<◌, ◌≤◌, ◌^◌, ℕ, false, length, IfOk, Some};
ghost use Rattle.diagrams.specs.Branch.{IsBranch, IsFit, split_value};
ghost use Rattle.diagrams.specs.Eval.{letter_truth, literal_value, top_of, eval, id_at, DependsOn};
ghost use Rattle.diagrams.specs.Expansion.{ExpandsAs};
ghost use Rattle.diagrams.specs.Live.{HasCanonicalIds, live_count, IsLive, IsCanonical, Fills, Keeps, StandsAbove, Means};
ghost use Rattle.diagrams.specs.Swept.{IsSwept};
ghost use Rattle.diagrams.specs.Tops.{top_of_key, key_of, IsSmall, MarksAll, FreesAll};
ghost use Rattle.unique_table.specs.Slots.{is_free, keys, kept_count, next_at, IsLinked};
ghost use Rattle.unique_table.specs.Marks.{AreWithin};

use crate::top::{Id, Look};
use bes_io::Memory;
use std::alloc::Global;
use std::marker::Model;
use unique_table::{Key, Slot, find, free_unseen, mark, push, relink, reuse, unmark};

// The list of free slots, and 64 chains.
const LEAST_HEADS: usize = 65;

const MOST_HEADS: usize = 4294967296;

// A link is one more than a slot's number, and 2^32 - 1 marks a slot that a sweep hasn't seen.
const MOST_SLOTS: usize = 4294967293;

/// Whether a variable is true in a letter.
fn is_true(props: u32, letter: u64, var: u32) -> bool
    requires { props ≤ 32 }
    ensures { result ≡ letter_truth props letter var }
{
    var < props && (letter >> (props - 1 - var)) % 2 == 1
}

/// The top that a slot keeps.
fn top_read(key: Key) -> Look
    requires { is_free key ≡ false }
    ensures { top_of_key key ≡ Some result }
{
    if key.lo == key.hi {
        Look::Terminal(key.var)
    } else {
        Look::Node {
            var: key.var,
            lo: Id(key.lo as usize),
            hi: Id(key.hi as usize),
        }
    }
}

/// The slot's key for a top.
fn key_read(top: Look) -> Key
    requires { IsSmall top }
    ensures { result ≡ key_of top }
{
    match top {
        Look::Terminal(value) => Key {
            var: value,
            lo: 0,
            hi: 0,
        },
        Look::Node { var, lo, hi } => Key {
            var,
            lo: lo.0 as u32,
            hi: hi.0 as u32,
        },
    }
}

/// Marks what is reached from some ids.
fn mark_all(slots: &mut [Slot], roots: &[Id])
    requires few { length slots.old < 4294967295 }
    requires roots { (k : ℕ) → k < length roots.now → (id_at roots.now k).0 < length slots.old }
    requires within { AreWithin (keys slots.old) }
    requires unseen { (i : ℕ) → i < length slots.old → next_at slots.old i ≡ 4294967295 }
    ensures keys { keys slots.new ≡ keys slots.old }
    ensures marks { MarksAll slots.new roots.now }
{
    for root in roots {
        mark(slots, root.0 as u32);
    }
}

/// Frees each slot that isn't reached from some ids.
fn sweep_slots(slots: &mut [Slot], heads: &mut [u32], roots: &[Id]) -> usize
    requires linked { IsLinked slots.old heads.old }
    requires roots { (k : ℕ) → k < length roots.now → (id_at roots.now k).0 < length slots.old }
    requires within { AreWithin (keys slots.old) }
    ensures count { result ≡ kept_count (keys slots.new) }
    ensures frees { FreesAll (keys slots.old) (keys slots.new) roots.now }
    ensures linked { IsLinked slots.new heads.new }
{
    unmark(slots);
    mark_all(slots, roots);
    free_unseen(slots);
    relink(slots, heads)
}

/// Diagrams that share their parts: equal functions have equal ids.
#[derive(Drop)]
pub struct Store {
    alloc: Global,
    props: u32,
    slots: Vec<Slot>,
    heads: Vec<u32>,
    live: usize,
}

impl Model for Store {
    ghost use Rattle.diagrams.specs.Eval.{Diagrams};

    ghost Value = { Diagrams };

    ghost use Rattle.diagrams.specs.Inside.{store_of, HasUniqueTable};

    ghost view = { store_of };

    ghost invariant = { HasUniqueTable };
}

impl Store {
    /// A canonical store for so many propositions.
    pub fn new(alloc: Global, props: u32) -> Result<Store, Memory>
        requires { props ≤ 32 }
        ensures props { IfOk result (λ s. s.props ≡ props) }
        ensures canonical { IfOk result IsCanonical }
    {
        let mut heads = vec![in alloc; 0u32; LEAST_HEADS]?;
        let mut slots = Vec::new(alloc);
        let live = relink(&mut slots, &mut heads);
        Ok(Store {
            alloc,
            props,
            slots,
            heads,
            live,
        })
    }

    /// The number of propositions, which are the variables before it; obligation k is the variable
    /// with this number and k. Equal functions have equal ids.
    pub fn props(&self) -> u32
        ensures number { result ≡ self.now.props }
        ensures few { result ≤ 32 }
        ensures distinct { HasCanonicalIds self.now }
        ensures canonical { IsCanonical self.now }
    {
        self.props
    }

    /// The allocator.
    pub(crate) fn allocator(&self) -> Global {
        self.alloc
    }

    /// The constant.
    pub fn terminal(&mut self, value: u32) -> Result<Id, Memory>
        ensures keeps { Keeps self.old self.new }
        ensures fills { Fills self.old self.new }
        ensures id { IfOk result (λ id. Means self.new id (λ _. value)) }
    {
        self.made(Look::Terminal(value))
    }

    /// The diagram that is `lo` where a variable is false, and else `hi`.
    pub fn node(&mut self, var: u32, lo: Id, hi: Id) -> Result<Id, Memory>
        requires lo_live { IsLive self.old lo }
        requires hi_live { IsLive self.old hi }
        requires lo_above { DependsOn self.old lo (λ v. var < v) }
        requires hi_above { DependsOn self.old hi (λ v. var < v) }
        ensures keeps { Keeps self.old self.new }
        ensures fills { Fills self.old self.new }
        ensures id { IfOk result (λ id. Means self.new id (split_value self.old var lo hi)) }
    {
        prove!(self.props() <= 32);
        self.branch(var, lo, hi)
    }

    /// The diagram that is 1 where a variable is true, and else 0.
    #[tactic(auto, using(crate::proofs::Meaning::fills_on))]
    pub fn literal(&mut self, var: u32) -> Result<Id, Memory>
        ensures keeps { Keeps self.old self.new }
        ensures fills { Fills self.old self.new }
        ensures id { IfOk result (λ id. Means self.new id (literal_value var)) }
    {
        let lo = self.terminal(0)?;
        let hi = self.terminal(1)?;
        self.node(var, lo, hi)
    }

    /// The terminal at a letter.
    pub fn value(&self, f: Id, letter: u64) -> u32
        requires live { IsLive self.now f }
        requires letter { letter < 2 ^ self.now.props }
        ensures { result ≡ eval self.now f (letter_truth self.now.props letter) }
    {
        let props = self.props();
        let mut at = f;
        'down: loop {
            match self.look(at) {
                Look::Terminal(terminal) => return terminal,
                Look::Node { var, lo, hi } => {
                    at = if is_true(props, letter, var) { hi } else { lo };
                }
            }
        }
    }

    /// The top of a diagram.
    pub fn look(&self, f: Id) -> Look
        requires { IsLive self.now f }
        ensures top { top_of self.now f ≡ Some result }
        ensures expands { ExpandsAs self.now f result }
        ensures canonical { IsCanonical self.now }
    {
        top_read(self.slots[f.0].key)
    }

    /// The id of a top.
    pub(crate) fn made(&mut self, top: Look) -> Result<Id, Memory>
        requires { IsFit self.old top }
        ensures keeps { Keeps self.old self.new }
        ensures fills { Fills self.old self.new }
        ensures id { IfOk result (λ id. top_of self.new id ≡ Some top) }
    {
        let first_free = self.heads[0];
        let key = key_read(top);
        if let Some(found) = find(&self.slots, &self.heads, key) {
            return Ok(Id(found as usize));
        }
        if first_free != 0 {
            let free = reuse(&mut self.slots, &mut self.heads, key);
            self.live += 1;
            return Ok(Id(free as usize));
        }
        self.make_room()?;
        self.pushed(top)
    }

    // Twice as many chains, where there are no more of them than slots.
    fn make_room(&mut self) -> Result<(), Memory>
        ensures { self.new ≡ self.old }
    {
        if self.slots.len() < self.heads.len() {
            return Ok(());
        }
        let size = self.heads.len().min(MOST_HEADS);
        let mut heads = vec![in self.alloc; 0u32; 2 * size - 1]?;
        self.live = relink(&mut self.slots, &mut heads);
        self.heads = heads;
        Ok(())
    }

    // The id of a top that the store lacks, in a slot of its own.
    fn pushed(&mut self, top: Look) -> Result<Id, Memory>
        requires fit { IsFit self.old top }
        requires lacking { (i : Id) → top_of self.old i ≡ Some top → ⊥ }
        requires full { (i : Id) → i.0 < length self.old.tops → IsLive self.old i }
        ensures keeps { Keeps self.old self.new }
        ensures fills { Fills self.old self.new }
        ensures id { IfOk result (λ id. top_of self.new id ≡ Some top) }
    {
        if self.slots.len() >= MOST_SLOTS {
            return Err(Memory);
        }
        let id = push(&mut self.slots, &mut self.heads, key_read(top))?;
        self.live += 1;
        Ok(Id(id as usize))
    }

    /// Ends the life of each id that isn't reached from the roots, whose slots are then used again.
    /// It takes no memory.
    pub fn sweep(&mut self, roots: &[Id])
        requires { (k : ℕ) → k < length roots.now → IsLive self.old (id_at roots.now k) }
        ensures { IsSwept self.old self.new roots.now }
    {
        self.live = sweep_slots(&mut self.slots, &mut self.heads, roots);
    }

    /// The number of live ids, which is that of the slots that aren't free.
    pub fn live(&self) -> usize
        ensures { result ≡ live_count self.now }
    {
        self.live
    }

    /// The number of slots, live or free.
    pub fn slots(&self) -> usize
        ensures { result ≡ length self.now.tops }
    {
        self.slots.len()
    }

    /// The diagram that is `lo` where a variable is false, and else `hi`.
    pub(crate) fn branch(&mut self, var: u32, lo: Id, hi: Id) -> Result<Id, Memory>
        requires lo_above { StandsAbove self.old var lo }
        requires hi_above { StandsAbove self.old var hi }
        ensures keeps { Keeps self.old self.new }
        ensures fills { Fills self.old self.new }
        ensures id { IfOk result (λ id. IsBranch self.old self.new var lo hi id) }
    {
        prove!(self.props() <= 32);
        if lo == hi {
            return Ok(lo);
        }
        self.made(Look::Node { var, lo, hi })
    }
}
