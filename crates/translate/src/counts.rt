//! Class counts, in the order of the parts.
ghost use Rattle.std.specs.Prelude.{◌≡◌, ◌<◌, ◌≤◌, ◌+◌, ◌^◌, ◌++◌, [], ◌∷◌, length, slice_index, IfErr, OnOk, OnErr};
ghost use Rattle.translate.specs.Counting.{IfTooMany};

use crate::fault::TranslateFault;
use bes_io::Memory;
use std::alloc::Global;
use std::marker::Model;

/// A list of class counts.
#[derive(Drop)]
pub struct Counts {
    items: Vec<u32>,
}

impl Model for Counts {
    ghost use Rattle.std.specs.Prelude.{ℕ, List};

    ghost Value = { List ℕ };

    ghost view = { λ a. a.items.items };
}

impl Counts {
    /// The empty list.
    pub fn new(alloc: Global) -> Self
        ensures { result ≡ [] }
    {
        Counts {
            items: Vec::new(alloc),
        }
    }

    /// Appends the count.
    pub fn push(&mut self, item: u32) -> Result<(), Memory>
        ensures ok { OnOk result (self.new ≡ self.old ++ item ∷ []) }
        ensures err { OnErr result (self.new ≡ self.old) }
    {
        self.items.push(item)?;
        Ok(())
    }

    /// How many counts there are.
    pub fn len(&self) -> usize
        ensures number { result ≡ length self.now }
        ensures few { result < 2 ^ 63 }
    {
        self.items.as_slice().len()
    }

    /// The count at place `i`, counted from 0.
    pub fn item(&self, i: usize) -> &u32
        requires { i < length self.now }
        ensures { result.now ≡ slice_index self.now i }
    {
        &self.items[i]
    }

    /// Refuses the count of the next part where it is over the limit.
    pub(crate) fn admit(&self, count: u32, limit: u32) -> Result<(), TranslateFault>
        ensures within { OnOk result (count ≤ limit) }
        ensures too_many { IfErr result (λ fault. IfTooMany fault (λ part over.
            (part ≡ length self.now + 1) × (over ≡ count) × (limit < count))) }
    {
        if count > limit {
            let part = self.len() as u64 + 1;
            return Err(TranslateFault::TooMany { part, count });
        }
        Ok(())
    }

    /// Appends the count of the next part, or refuses it where it is over the limit.
    pub(crate) fn add(&mut self, count: u32, limit: u32) -> Result<(), TranslateFault>
        ensures appended { OnOk result (self.new ≡ self.old ++ count ∷ []) }
        ensures within { OnOk result (count ≤ limit) }
        ensures too_many { IfErr result (λ fault. IfTooMany fault (λ part over.
            (part ≡ length self.old + 1) × (over ≡ count) × (limit < count))) }
    {
        self.admit(count, limit)?;
        self.push(count)?;
        Ok(())
    }
}
