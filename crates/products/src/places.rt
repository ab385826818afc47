//! Rows walked together: a diagram of pairs of terminals, each numbered when it is first met.
ghost use Rattle.std.specs.Prelude.{◌≡◌, slice_get, Some, OnOk, IfOk};
ghost use Rattle.diagrams.specs.Eval.{eval};
ghost use Rattle.diagrams.specs.Kept.{AllKept};
ghost use Rattle.diagrams.specs.Live.{IsLive, Keeps};
ghost use Rattle.products.specs.Places.{same_rows, ArePlaces, AreMet, Grows, IsPairing, IsPaired};

use bes_io::Memory;
use diagrams::{Id, Look, Memo, Spread, Store, cofactors, least_variable, spread_of};
use indexmap::IndexSet;
use std::alloc::Global;

/// A location of each of two automata.
#[derive(Clone, Copy, PartialEq, Eq, Hash)]
pub(crate) struct Place {
    pub(crate) left: u32,
    pub(crate) right: u32,
}

/// A row of each of two automata.
#[derive(Clone, Copy, PartialEq, Eq, Hash)]
pub(crate) struct Rows {
    pub(crate) left: Id,
    pub(crate) right: Id,
}

impl Spread for Rows {
    fn spread(&self) -> u64 {
        spread_of(self.left.0, self.right.0, 0)
    }
}

/// The number of a place, which is the next one if it is new.
pub(crate) fn number(places: &mut IndexSet<Place>, place: Place) -> Result<u32, Memory>
    requires { ArePlaces places.old.keys }
    ensures places { OnOk result (ArePlaces places.new.keys) }
    ensures grows { OnOk result (Grows places.old.keys places.new.keys) }
    ensures met { OnOk result (AreMet places.old.keys places.new.keys (λ _. place.left) (λ _. place.right)) }
    ensures at { IfOk result (λ at. slice_get places.new.keys at ≡ Some place) }
{
    let (at, _) = places.insert_full(place)?;
    if at >= 4294967294 {
        return Err(Memory);
    }
    Ok(at as u32)
}

/// The diagram whose terminals are the numbers of the pairs of terminals of two diagrams.
pub(crate) fn walked(
    store: &mut Store,
    memo: &mut Memo<Rows>,
    places: &mut IndexSet<Place>,
    left: Id,
    right: Id,
) -> Result<Id, Memory>
    requires left { IsLive store.old left }
    requires right { IsLive store.old right }
    requires places { ArePlaces places.old.keys }
    requires kept { AllKept same_rows (IsPaired store.old places.old.keys) memo.old }
    ensures keeps { Keeps store.old store.new }
    ensures places { OnOk result (ArePlaces places.new.keys) }
    ensures grows { OnOk result (Grows places.old.keys places.new.keys) }
    ensures met { OnOk result (AreMet places.old.keys places.new.keys (eval store.old left) (eval store.old right)) }
    ensures kept { OnOk result (AllKept same_rows (IsPaired store.new places.new.keys) memo.new) }
    ensures id { IfOk result (λ id. IsPairing store.new places.new.keys (eval store.old left) (eval store.old right) id) }
{
    let left_top = store.look(left);
    let right_top = store.look(right);
    if let (Look::Terminal(x), Look::Terminal(y)) = (left_top, right_top) {
        let at = number(places, Place { left: x, right: y })?;
        return store.terminal(at);
    }
    let rows = Rows { left, right };
    if let Some(id) = memo.get(&rows) {
        return Ok(id);
    }
    let Some(var) = least_variable(left_top, right_top) else {
        unreachable!()
    };
    let (left_lo, left_hi) = cofactors(left, left_top, var);
    let (right_lo, right_hi) = cofactors(right, right_top, var);
    let lo = walked(store, memo, places, left_lo, right_lo)?;
    let hi = walked(store, memo, places, left_hi, right_hi)?;
    let id = store.node(var, lo, hi)?;
    memo.keep(rows, id)?;
    Ok(id)
}
