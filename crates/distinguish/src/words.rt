//! Lists of words.
ghost use Rattle.std.specs.Prelude.{◌≡◌, ◌<◌, Some, slice_get, [], ◌∷◌, ◌++◌, length, OnOk, OnErr};

use bes_io::{Letters, Memory};
use std::alloc::Global;
use std::marker::Model;

/// A list of words.
#[derive(Drop)]
pub struct Words {
    items: Vec<Letters>,
}

impl Model for Words {
    ghost use Rattle.std.specs.Prelude.{ℕ, List};

    ghost Value = { List (List ℕ) };

    ghost view = { λ w. w.items.items };
}

impl Words {
    /// The empty list.
    pub fn new(alloc: Global) -> Self
        ensures { result ≡ [] }
    {
        Words {
            items: Vec::new(alloc),
        }
    }

    /// Appends a word.
    pub fn push(&mut self, item: Letters) -> Result<(), Memory>
        ensures ok { OnOk result (self.new ≡ self.old ++ item ∷ []) }
        ensures err { OnErr result (self.new ≡ self.old) }
    {
        self.items.push(item)?;
        Ok(())
    }

    /// How many words there are.
    pub fn len(&self) -> usize
        ensures { result ≡ length self.now }
    {
        self.items.len()
    }

    /// The word with this number, counted from 0.
    pub fn item(&self, i: usize) -> &Letters
        requires { i < length self.now }
        ensures { slice_get self.now i ≡ Some result.now }
    {
        &self.items[i]
    }
}
