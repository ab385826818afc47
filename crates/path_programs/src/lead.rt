//! Where a path leads from a position.
ghost use Rattle.std.specs.Prelude.{◌&&◌, ◌||◌, IfOk};
ghost use Rattle.diagrams.specs.Live.{Keeps, IsTruth};
ghost use Rattle.path_programs.specs.Lead.{IsEither, IsInTurn};

use crate::made::{both, either};
use bes_io::Memory;
use diagrams::{Id, Store};

/// Where a path leads from a position, as diagrams over the letter there and the obligations of the next position.
#[derive(Clone, Copy)]
pub(crate) struct Lead {
    /// Whether it leads to a shorter suffix on which the continuation holds.
    pub(crate) further: Id,
    /// Whether it leads to the position itself.
    pub(crate) stays: Id,
    /// Whether it leads from the empty word to itself.
    pub(crate) ends: bool,
}

/// Where one of two paths leads.
pub(crate) fn either_of(store: &mut Store, x: Lead, y: Lead) -> Result<Lead, Memory>
    requires x_further { IsTruth store.old x.further }
    requires x_stays { IsTruth store.old x.stays }
    requires y_further { IsTruth store.old y.further }
    requires y_stays { IsTruth store.old y.stays }
    ensures keeps { Keeps store.old store.new }
    ensures lead { IfOk result (IsEither store.old store.new x y) }
{
    let further = either(store, x.further, y.further)?;
    let stays = either(store, x.stays, y.stays)?;
    Ok(Lead {
        further,
        stays,
        ends: x.ends || y.ends,
    })
}

/// Where two paths lead one after the other, the first one's continuation being where the second leads.
pub(crate) fn in_turn(store: &mut Store, x: Lead, y: Lead) -> Result<Lead, Memory>
    requires x_further { IsTruth store.old x.further }
    requires x_stays { IsTruth store.old x.stays }
    requires y_further { IsTruth store.old y.further }
    requires y_stays { IsTruth store.old y.stays }
    ensures keeps { Keeps store.old store.new }
    ensures lead { IfOk result (IsInTurn store.old store.new x y) }
{
    let second = both(store, x.stays, y.further)?;
    let further = either(store, x.further, second)?;
    let stays = both(store, x.stays, y.stays)?;
    Ok(Lead {
        further,
        stays,
        ends: x.ends && y.ends,
    })
}
