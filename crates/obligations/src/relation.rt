//! Relations on the locations of an automaton.
ghost use Rattle.std.specs.Prelude.{◌≡◌, ◌<◌, ◌≤◌, ◌+◌, ◌*◌, true, false, slice_set, replicate, IfOk};
ghost use Rattle.obligations.specs.Related.{related};

use bes_io::Memory;
use std::alloc::Global;
use std::marker::Model;

/// The most locations of a relation.
pub const MOST_RELATED: u32 = 512;

/// A relation on the first so many locations.
#[derive(Drop)]
pub struct Relation {
    size: u32,
    pairs: Vec<bool>,
}

impl Model for Relation {
    ghost use Rattle.std.specs.Prelude.{◌≡◌, ◌≤◌, ◌*◌, length};
    ghost use Rattle.obligations.specs.Related.{Pairs};

    ghost Value = { Pairs };

    ghost view = { λ a. record { size = a.size; pairs = a.pairs.items } };

    ghost invariant = { λ a. (length a.pairs.items ≡ a.size * a.size) × (a.size ≤ 512) };
}

impl Relation {
    /// The relation of all pairs.
    pub fn new(alloc: Global, size: u32) -> Result<Relation, Memory>
        requires { size ≤ 512 }
        ensures size { IfOk result (λ made. made.size ≡ size) }
        ensures pairs { IfOk result (λ made. made.pairs ≡ replicate (size * size) true) }
    {
        let pairs = vec![in alloc; true; size as usize * size as usize]?;
        Ok(Relation { size, pairs })
    }

    /// The number of locations.
    pub fn size(&self) -> u32
        ensures number { result ≡ self.now.size }
        ensures few { result ≤ 512 }
    {
        self.size
    }

    /// Whether a location is related to another.
    pub fn holds(&self, x: u32, y: u32) -> bool
        requires x { x < self.now.size }
        requires y { y < self.now.size }
        ensures { result ≡ related self.now x y }
    {
        self.pairs[x as usize * self.size as usize + y as usize]
    }

    /// Takes a pair out.
    pub fn strike(&mut self, x: u32, y: u32)
        requires x { x < self.old.size }
        requires y { y < self.old.size }
        ensures size { self.new.size ≡ self.old.size }
        ensures pairs { self.new.pairs ≡ slice_set self.old.pairs (x * self.old.size + y) false }
    {
        let size = self.size as usize;
        self.pairs[x as usize * size + y as usize] = false;
    }
}
