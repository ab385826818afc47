//! Numbers by diagram.
ghost use Rattle.std.specs.Prelude.{◌≡◌, ℕ, OnOk, OnErr, None};
ghost use Rattle.diagrams.specs.declared.top.Id as ids;
ghost use Rattle.choosing.specs.Known.{number_of, IsNoted};

use bes_io::Memory;
use diagrams::Id;
use std::alloc::Global;
use std::collections::HashMap;

/// The numbers of diagrams of one store so far.
#[derive(Drop)]
pub struct Known {
    numbers: HashMap<Id, u32>,
}

impl Known {
    /// No numbers. It takes no memory.
    pub fn new(alloc: Global) -> Known
        ensures { (id : ids.Id) → number_of result id ≡ None }
    {
        Known {
            numbers: HashMap::new(alloc),
        }
    }

    /// The number of a diagram, where there is one.
    pub fn get(&self, id: Id) -> Option<u32>
        ensures { result ≡ number_of self.now id }
    {
        self.numbers.get(&id).copied()
    }

    /// Keeps one more number.
    pub fn keep(&mut self, id: Id, number: u32) -> Result<(), Memory>
        ensures ok { OnOk result (IsNoted self.old self.new id number) }
        ensures err { OnErr result ((other : ids.Id) → number_of self.new other ≡ number_of self.old other) }
    {
        self.numbers.insert(id, number)?;
        Ok(())
    }
}
