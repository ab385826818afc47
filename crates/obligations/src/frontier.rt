//! The claims that locations stand for, in order of discovery.
ghost use Rattle.std.specs.Prelude.{◌≡◌, ◌<◌, ◌≤◌, ◌-◌, ◌^◌, ℕ, [], length, IfOk};
ghost use Rattle.diagrams.specs.Eval.{id_at};
ghost use Rattle.obligations.specs.Located.{Grows};

use bes_io::Memory;
use diagrams::Id;
use std::alloc::Global;
use std::collections::HashMap;
use std::marker::Model;

/// The most locations.
const MOST_LOCATIONS: usize = 4294967294;

/// The claims that locations stand for, in order of discovery.
#[derive(Drop)]
pub struct Frontier {
    claims: Vec<Id>,
    numbers: HashMap<Id, u32>,
}

impl Model for Frontier {
    ghost use Rattle.std.specs.Prelude.{List};
    ghost use Rattle.diagrams.specs.declared.top.Id.{Id};
    ghost use Rattle.obligations.specs.Numbers.{HasRightNumbers};

    ghost Value = { List Id };

    ghost view = { λ a. a.claims.items };

    ghost invariant = { HasRightNumbers };
}

impl Frontier {
    /// No claims.
    pub fn new(alloc: Global) -> Frontier
        ensures { result ≡ [] }
    {
        Frontier {
            claims: Vec::new(alloc),
            numbers: HashMap::new(alloc),
        }
    }

    /// The number of claims.
    pub fn len(&self) -> usize
        ensures number { result ≡ length self.now }
        ensures few { result < 2 ^ 32 - 1 }
    {
        self.claims.len()
    }

    /// A claim.
    pub fn claim(&self, at: usize) -> Id
        requires { at < length self.now }
        ensures { result ≡ id_at self.now at }
    {
        self.claims[at]
    }

    /// The number of a claim, which is put at the end where it has none.
    pub fn place(&mut self, claim: Id) -> Result<u32, Memory>
        ensures grows { Grows self.old self.new }
        ensures others { (at : ℕ) → length self.old ≤ at → at < length self.new → id_at self.new at ≡ claim }
        ensures within { IfOk result (λ at. at < length self.new) }
        ensures placed { IfOk result (λ at. id_at self.new at ≡ claim) }
    {
        if let Some(at) = self.numbers.get(&claim) {
            return Ok(*at);
        }
        let at = self.claims.len();
        if at >= MOST_LOCATIONS {
            return Err(Memory);
        }
        self.claims.push(claim)?;
        self.numbers.insert(claim, at as u32)?;
        Ok(at as u32)
    }
}
