//! The diagrams below a variable that were met, in order of discovery.
ghost use Rattle.std.specs.Prelude.{◌≡◌, ◌<◌, ◌≤◌, ◌-◌, ◌^◌, ℕ, [], length, IfOk};
ghost use Rattle.diagrams.specs.Eval.{id_at};
ghost use Rattle.choosing.specs.Cuts.{Grows};

use bes_io::Memory;
use diagrams::Id;
use std::alloc::Global;
use std::collections::HashMap;
use std::marker::Model;

/// The most diagrams.
const MOST_DIAGRAMS: usize = 4294967294;

/// The diagrams below a variable that were met, in order of discovery.
#[derive(Drop)]
pub struct Below {
    diagrams: Vec<Id>,
    numbers: HashMap<Id, u32>,
}

impl Model for Below {
    ghost use Rattle.std.specs.Prelude.{List};
    ghost use Rattle.diagrams.specs.declared.top.Id.{Id};
    ghost use Rattle.choosing.specs.Numbered.{HasRightNumbers};

    ghost Value = { List Id };

    ghost view = { λ a. a.diagrams.items };

    ghost invariant = { HasRightNumbers };
}

impl Below {
    /// No diagrams.
    pub fn new(alloc: Global) -> Below
        ensures { result ≡ [] }
    {
        Below {
            diagrams: Vec::new(alloc),
            numbers: HashMap::new(alloc),
        }
    }

    /// The number of diagrams.
    pub fn len(&self) -> usize
        ensures number { result ≡ length self.now }
        ensures few { result < 2 ^ 32 - 1 }
    {
        self.diagrams.len()
    }

    /// A diagram.
    pub fn diagram(&self, at: usize) -> Id
        requires { at < length self.now }
        ensures { result ≡ id_at self.now at }
    {
        self.diagrams[at]
    }

    /// The number of a diagram, which is put at the end where it has none.
    pub fn place(&mut self, diagram: Id) -> Result<u32, Memory>
        ensures grows { Grows self.old self.new }
        ensures others { (at : ℕ) → length self.old ≤ at → at < length self.new → id_at self.new at ≡ diagram }
        ensures within { IfOk result (λ at. at < length self.new) }
        ensures placed { IfOk result (λ at. id_at self.new at ≡ diagram) }
    {
        if let Some(at) = self.numbers.get(&diagram) {
            return Ok(*at);
        }
        let at = self.diagrams.len();
        if at >= MOST_DIAGRAMS {
            return Err(Memory);
        }
        self.diagrams.push(diagram)?;
        self.numbers.insert(diagram, at as u32)?;
        Ok(at as u32)
    }
}
