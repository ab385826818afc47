//! Tables of obligations.
ghost use Rattle.std.specs.Prelude.{◌≡◌, ◌<◌, ◌^◌, ◌++◌, List, [], ◌∷◌, length, IfOk, OnOk, OnErr};
ghost use Rattle.obligations.specs.Table.{ends_of, body_of, with_body};

use bes_io::Memory;
use diagrams::Id;
use std::alloc::Global;
use std::marker::Model;

/// The most obligations.
const MOST_OBLIGATIONS: usize = 2147483647;

/// An obligation: its value on the empty word, and a diagram over the letter and the obligations
/// of the next position.
#[derive(Clone, Copy)]
pub struct Obligation {
    pub ends: bool,
    pub body: Id,
}

/// A table of obligations.
#[derive(Drop)]
pub struct Cells {
    entries: Vec<Obligation>,
}

impl Model for Cells {
    ghost use Rattle.std.specs.Prelude.{◌<◌, ◌^◌, List, length};
    ghost use Rattle.obligations.specs.declared.cells.Obligation.{Obligation};

    ghost Value = { List Obligation };

    ghost view = { λ a. a.entries.items };

    ghost invariant = { λ a. length a.entries.items < 2 ^ 31 };
}

impl Cells {
    /// The empty table.
    pub fn new(alloc: Global) -> Cells
        ensures { result ≡ [] }
    {
        Cells {
            entries: Vec::new(alloc),
        }
    }

    /// The number of obligations.
    pub fn len(&self) -> u32
        ensures number { result ≡ length self.now }
        ensures few { result < 2 ^ 31 }
    {
        self.entries.len() as u32
    }

    /// The end value of an obligation.
    pub fn ends(&self, cell: u32) -> bool
        requires { cell < length self.now }
        ensures { result ≡ ends_of self.now cell }
    {
        self.entries[cell as usize].ends
    }

    /// The body of an obligation.
    pub fn body(&self, cell: u32) -> Id
        requires { cell < length self.now }
        ensures { result ≡ body_of self.now cell }
    {
        self.entries[cell as usize].body
    }

    /// Replaces a body.
    pub fn set(&mut self, cell: u32, body: Id)
        requires { cell < length self.old }
        ensures { self.new ≡ with_body self.old cell body }
    {
        self.entries[cell as usize].body = body;
    }

    /// Appends an obligation.
    pub fn add(&mut self, ends: bool, body: Id) -> Result<u32, Memory>
        ensures ok { OnOk result (self.new ≡ self.old ++ record { ends = ends; body = body } ∷ []) }
        ensures number { IfOk result (λ cell. cell ≡ length self.old) }
        ensures err { OnErr result (self.new ≡ self.old) }
    {
        let cell = self.entries.len();
        if cell >= MOST_OBLIGATIONS {
            return Err(Memory);
        }
        self.entries.push(Obligation { ends, body })?;
        Ok(cell as u32)
    }
}
