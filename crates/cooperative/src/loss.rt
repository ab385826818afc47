//! What becomes of the duty at each location.
ghost use Rattle.std.specs.Prelude.{◌≡◌, ◌<◌, Some, slice_get, [], ◌∷◌, ◌++◌, length, OnOk, OnErr};

use bes_io::Memory;
use std::alloc::Global;
use std::marker::Model;

/// What becomes of the duty where the goal is out of reach.
#[derive(Clone, Copy)]
pub enum Loss {
    /// The agent can keep it for good.
    Held,
    /// The environment can break it, within this number of rounds at the least, counted from 0.
    In(u32),
}

/// For each location what becomes of the duty, or `None` where the goal is within reach.
#[derive(Drop)]
pub struct Losses {
    items: Vec<Option<Loss>>,
}

impl Model for Losses {
    ghost use Rattle.std.specs.Prelude.{List, Option};
    ghost use Rattle.cooperative.specs.declared.loss.Loss.{Loss};

    ghost Value = { List (Option Loss) };

    ghost view = { λ l. l.items.items };
}

impl Losses {
    /// The empty list.
    pub fn new(alloc: Global) -> Self
        ensures { result ≡ [] }
    {
        Losses {
            items: Vec::new(alloc),
        }
    }

    /// Appends an item.
    pub fn push(&mut self, item: Option<Loss>) -> Result<(), Memory>
        ensures ok { OnOk result (self.new ≡ self.old ++ item ∷ []) }
        ensures err { OnErr result (self.new ≡ self.old) }
    {
        self.items.push(item)?;
        Ok(())
    }

    /// How many items there are.
    pub fn len(&self) -> usize
        ensures { result ≡ length self.now }
    {
        self.items.len()
    }

    /// The item of a location, counted from 0.
    pub fn item(&self, i: usize) -> &Option<Loss>
        requires { i < length self.now }
        ensures { slice_get self.now i ≡ Some result.now }
    {
        &self.items[i]
    }
}
