//! What the first of two paths, and a turn of a star, has to go on to.
ghost use Rattle.std.specs.Prelude.{◌≡◌, ◌+◌, ◌||◌, false, length, IfOk, OnOk};
ghost use Rattle.diagrams.specs.Tree.{Assignment};
ghost use Rattle.obligations.specs.Table.{ends_of};
ghost use Rattle.obligations.specs.Value.{IsClaim, FitsCells};
ghost use Rattle.diagrams.specs.Eval.{is_one};
ghost use Rattle.path_programs.specs.Made.{IsOneWhere};
ghost use Rattle.path_programs.specs.Growth.{HasGrown};
ghost use Rattle.path_programs.specs.Lead.{AreBodies, IsRest};

use crate::lead::Lead;
use crate::made::{both, either, literal, never};
use bes_io::Memory;
use diagrams::{Id, Look, Store};
use obligations::Cells;

/// The claim that from the next position a path, which never leads to the position itself, leads to where `later` holds.
/// Adds one obligation.
fn rest_further(store: &mut Store, cells: &mut Cells, lead: Lead, later: Id) -> Result<Id, Memory>
    requires fits { FitsCells store.old cells.old }
    requires bodies { AreBodies store.old (length cells.old) lead }
    requires stays { (a : Assignment) → is_one store.old lead.stays a ≡ false }
    requires ends { lead.ends ≡ false }
    ensures grown { HasGrown store.old cells.old store.new cells.new }
    ensures claim { IfOk result (IsClaim store.new (length cells.new)) }
    ensures rest { IfOk result (IsRest store.new (length cells.old) cells.new lead later) }
{
    let next = literal(store, cells.len())?;
    cells.add(false, lead.further)?;
    Ok(next)
}

/// The claim that from the next position a path leads to where `later` holds. Adds two obligations.
fn rest_both(store: &mut Store, cells: &mut Cells, lead: Lead, later: Id) -> Result<Id, Memory>
    requires fits { FitsCells store.old cells.old }
    requires later { IsClaim store.old (length cells.old) later }
    requires bodies { AreBodies store.old (length cells.old) lead }
    ensures grown { HasGrown store.old cells.old store.new cells.new }
    ensures claim { IfOk result (IsClaim store.new (length cells.new)) }
    ensures rest { IfOk result (IsRest store.new (length cells.old) cells.new lead later) }
{
    let first = cells.len();
    let further = literal(store, first)?;
    let stays = literal(store, first + 1)?;
    let stays_later = both(store, stays, later)?;
    let next = either(store, further, stays_later)?;
    cells.add(false, lead.further)?;
    cells.add(lead.ends, lead.stays)?;
    Ok(next)
}

/// The claim that from the next position a path leads to where `later` holds. Adds one obligation or two.
pub(crate) fn rest(
    store: &mut Store,
    cells: &mut Cells,
    lead: Lead,
    later: Id,
) -> Result<Id, Memory>
    requires fits { FitsCells store.old cells.old }
    requires later { IsClaim store.old (length cells.old) later }
    requires bodies { AreBodies store.old (length cells.old) lead }
    ensures grown { HasGrown store.old cells.old store.new cells.new }
    ensures claim { IfOk result (IsClaim store.new (length cells.new)) }
    ensures rest { IfOk result (IsRest store.new (length cells.old) cells.new lead later) }
{
    match store.look(lead.stays) {
        Look::Terminal(0) if !lead.ends => rest_further(store, cells, lead, later),
        _ => rest_both(store, cells, lead, later),
    }
}

/// The claim that the obligation that comes next in the table holds at the next position, or `later` does. Adds that
/// obligation, with a body that is to be set.
pub(crate) fn again(store: &mut Store, cells: &mut Cells, later: Id) -> Result<Id, Memory>
    requires fits { FitsCells store.old cells.old }
    requires later { IsClaim store.old (length cells.old) later }
    ensures grown { HasGrown store.old cells.old store.new cells.new }
    ensures one { OnOk result (length cells.new ≡ length cells.old + 1) }
    ensures end { OnOk result (ends_of cells.new (length cells.old) ≡ false) }
    ensures claim { IfOk result (IsClaim store.new (length cells.new)) }
    ensures again { IfOk result (λ id.
        IsOneWhere store.new id (λ a. a (store.new.props + length cells.old) || is_one store.old later a)) }
{
    let turn = literal(store, cells.len())?;
    let next = either(store, turn, later)?;
    let none = never(store)?;
    cells.add(false, none)?;
    Ok(next)
}
