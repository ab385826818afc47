//! Lists of what is found of an arena's locations, one item a location.
ghost use Rattle.std.specs.Prelude.{◌≡◌, ◌<◌, Some, slice_get, [], ◌∷◌, ◌++◌, length, OnOk, OnErr};

use bes_io::Memory;
use diagrams::Id;
use std::alloc::Global;
use std::marker::Model;

/// For each location the least number of rounds within which the agent wins, or `None` where no number is enough.
#[derive(Drop)]
pub struct Ranks {
    items: Vec<Option<u32>>,
}

impl Model for Ranks {
    ghost use Rattle.std.specs.Prelude.{ℕ, List, Option};

    ghost Value = { List (Option ℕ) };

    ghost view = { λ l. l.items.items };
}

impl Ranks {
    /// The empty list.
    pub fn new(alloc: Global) -> Self
        ensures { result ≡ [] }
    {
        Ranks {
            items: Vec::new(alloc),
        }
    }

    /// The list of these items.
    pub fn of(items: Vec<Option<u32>>) -> Self
        ensures { result ≡ items.items }
    {
        Ranks { items }
    }

    /// Appends an item.
    pub fn push(&mut self, item: Option<u32>) -> Result<(), Memory>
        ensures ok { OnOk result (self.new ≡ self.old ++ item ∷ []) }
        ensures err { OnErr result (self.new ≡ self.old) }
    {
        self.items.push(item)?;
        Ok(())
    }

    /// How many items there are.
    pub fn len(&self) -> usize
        ensures { result ≡ length self.now }
    {
        self.items.len()
    }

    /// The item of a location, counted from 0.
    pub fn item(&self, i: usize) -> &Option<u32>
        requires { i < length self.now }
        ensures { slice_get self.now i ≡ Some result.now }
    {
        &self.items[i]
    }

    /// All items.
    pub fn items(&self) -> &[Option<u32>]
        ensures { result.now ≡ self.now }
    {
        self.items.as_slice()
    }
}

/// For each location the least number of rounds within which the goal can be hoped for, or `None` where there is no hope.
#[derive(Drop)]
pub struct Distances {
    items: Vec<Option<u32>>,
}

impl Model for Distances {
    ghost use Rattle.std.specs.Prelude.{ℕ, List, Option};

    ghost Value = { List (Option ℕ) };

    ghost view = { λ l. l.items.items };
}

impl Distances {
    /// The empty list.
    pub fn new(alloc: Global) -> Self
        ensures { result ≡ [] }
    {
        Distances {
            items: Vec::new(alloc),
        }
    }

    /// The list of these items.
    pub fn of(items: Vec<Option<u32>>) -> Self
        ensures { result ≡ items.items }
    {
        Distances { items }
    }

    /// Appends an item.
    pub fn push(&mut self, item: Option<u32>) -> Result<(), Memory>
        ensures ok { OnOk result (self.new ≡ self.old ++ item ∷ []) }
        ensures err { OnErr result (self.new ≡ self.old) }
    {
        self.items.push(item)?;
        Ok(())
    }

    /// How many items there are.
    pub fn len(&self) -> usize
        ensures { result ≡ length self.now }
    {
        self.items.len()
    }

    /// The item of a location, counted from 0.
    pub fn item(&self, i: usize) -> &Option<u32>
        requires { i < length self.now }
        ensures { slice_get self.now i ≡ Some result.now }
    {
        &self.items[i]
    }

    /// All items.
    pub fn items(&self) -> &[Option<u32>]
        ensures { result.now ≡ self.now }
    {
        self.items.as_slice()
    }
}

/// For each location the diagram of the environment's answers, or `None` where the agent wins. Agent first it is over the
/// outputs, and its terminals are inputs; environment first it is a constant, the input.
#[derive(Drop)]
pub struct EnvTable {
    items: Vec<Option<Id>>,
}

impl Model for EnvTable {
    ghost use Rattle.std.specs.Prelude.{List, Option};
    ghost use Rattle.diagrams.specs.declared.top.Id.{Id};

    ghost Value = { List (Option Id) };

    ghost view = { λ l. l.items.items };
}

impl EnvTable {
    /// The empty list.
    pub fn new(alloc: Global) -> Self
        ensures { result ≡ [] }
    {
        EnvTable {
            items: Vec::new(alloc),
        }
    }

    /// The list of these items.
    pub fn of(items: Vec<Option<Id>>) -> Self
        ensures { result ≡ items.items }
    {
        EnvTable { items }
    }

    /// Appends an item.
    pub fn push(&mut self, item: Option<Id>) -> Result<(), Memory>
        ensures ok { OnOk result (self.new ≡ self.old ++ item ∷ []) }
        ensures err { OnErr result (self.new ≡ self.old) }
    {
        self.items.push(item)?;
        Ok(())
    }

    /// How many items there are.
    pub fn len(&self) -> usize
        ensures { result ≡ length self.now }
    {
        self.items.len()
    }

    /// The item of a location, counted from 0.
    pub fn item(&self, i: usize) -> &Option<Id>
        requires { i < length self.now }
        ensures { slice_get self.now i ≡ Some result.now }
    {
        &self.items[i]
    }

    /// All items.
    pub fn items(&self) -> &[Option<Id>]
        ensures { result.now ≡ self.now }
    {
        self.items.as_slice()
    }
}
