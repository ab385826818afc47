//! Where a path leads from the positions of a block.
ghost use Rattle.std.specs.Prelude.{◌≡◌, IfOk, length};
ghost use Rattle.trace_meaning.specs.Leads as spec;

use crate::column::{change, combine, copy};
use crate::node::Lead;
use crate::operator::{Binary, Unary};
use bes_io::Memory;

/// Where a path leads from each position of a block.
#[derive(Drop)]
pub struct Leads {
    pub further: Vec<bool>,
    pub stays: Vec<bool>,
    ghost whole: { length stays.items ≡ length further.items },
}

impl Leads {
    /// Leaves in `good` whether the path leads to a good position.
    pub fn through(&self, good: &mut Vec<bool>)
        requires { length self.now.further.items ≡ length good.old.items }
        ensures through { good.new.items ≡
            spec.through self.now.further.items self.now.stays.items good.old.items }
        ensures whole { length good.new.items ≡ length good.old.items }
    {
        combine(Binary::And, good, &self.stays, false);
        combine(Binary::Or, good, &self.further, false);
    }

    /// Whether this path leads to a good position from the next position; `next` says where it
    /// leads from the position after the block, and then where it leads from the first.
    pub fn rest(&self, next: &mut Lead, later: &[bool]) -> Result<Vec<bool>, Memory>
        requires { length self.now.further.items ≡ length later.now }
        ensures rest { IfOk result (λ made. made.items ≡
            spec.rest_of next.old self.now.further.items self.now.stays.items later.now) }
        ensures first { IfOk result (λ _. next.new ≡
            spec.first_lead next.old self.now.further.items self.now.stays.items) }
        ensures whole { IfOk result (λ made. length made.items ≡ length later.now) }
    {
        let mut further = copy(&self.further)?;
        let mut stays = copy(&self.stays)?;
        next.further = change(Unary::Next, &mut further, next.further);
        next.stays = change(Unary::Next, &mut stays, next.stays);
        combine(Binary::And, &mut stays, later, false);
        combine(Binary::Or, &mut stays, &further, false);
        Ok(stays)
    }

    /// Where a choice of the two leads.
    pub fn or(self, other: Leads) -> Leads
        requires { length other.further.items ≡ length self.further.items }
        ensures further { result.further.items ≡ spec.one_of self.further.items other.further.items }
        ensures stays { result.stays.items ≡ spec.one_of self.stays.items other.stays.items }
        ensures whole { length result.further.items ≡ length self.further.items }
    {
        let mut further = self.further;
        let mut stays = self.stays;
        combine(Binary::Or, &mut further, &other.further, false);
        combine(Binary::Or, &mut stays, &other.stays, false);
        Leads { further, stays }
    }

    /// Where the one leads and then the other.
    pub fn and_then(self, other: Leads) -> Leads
        requires { length other.further.items ≡ length self.further.items }
        ensures further { result.further.items ≡
            spec.one_of self.further.items (spec.both other.further.items self.stays.items) }
        ensures stays { result.stays.items ≡ spec.both self.stays.items other.stays.items }
        ensures whole { length result.further.items ≡ length self.further.items }
    {
        let mut further = self.further;
        let mut stays = self.stays;
        let mut then = other.further;
        combine(Binary::And, &mut then, &stays, false);
        combine(Binary::Or, &mut further, &then, false);
        combine(Binary::And, &mut stays, &other.stays, false);
        Leads { further, stays }
    }
}
