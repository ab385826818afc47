//! Diagrams and tables of obligations over two propositions.
ghost use Rattle.std.specs.Prelude.{◌≡◌, ◌<◌, ◌≤◌, ◌^◌, length, IfOk};
ghost use Rattle.diagrams.specs.Eval.{DependsOn};
ghost use Rattle.diagrams.specs.Live.{IsCanonical, IsTruth, Keeps};
ghost use Rattle.obligations.specs.Value.{FitsCells};

use bes_io::Memory;
use diagrams::{Id, Op, Store};
use obligations::Cells;
use std::alloc::Global;

/// Proposition 0 is a, of weight 2 in a letter.
pub(crate) const A: u32 = 0;

/// Proposition 1 is b, of weight 1.
pub(crate) const B: u32 = 1;

/// The variables of obligations 0, 1 and 2.
pub(crate) const FIRST: u32 = 2;

pub(crate) const SECOND: u32 = 3;

pub(crate) const THIRD: u32 = 4;

/// An obligation: its end value, and its body as a disjunction of conjunctions of variables.
pub(crate) type Entry<'a> = (bool, &'a [&'a [u32]]);

/// The conjunction of variables. One that is not from `from` to before `to` fails the test.
pub(crate) fn conjunction(store: &mut Store, from: u32, to: u32, vars: &[u32]) -> Result<Id, Memory>
    ensures keeps { Keeps store.old store.new }
    ensures truth { IfOk result (IsTruth store.new) }
    ensures over { IfOk result (λ id. DependsOn store.new id (λ v. (from ≤ v) × (v < to))) }
{
    let mut whole = store.terminal(1)?;
    for var in vars {
        if *var < from || *var >= to {
            return Err(Memory);
        }
        let next = store.literal(*var)?;
        whole = store.combine(Op::And, whole, next)?;
    }
    Ok(whole)
}

/// The disjunction of conjunctions of variables before `to`.
fn disjunction(store: &mut Store, to: u32, terms: &[&[u32]]) -> Result<Id, Memory>
    ensures keeps { Keeps store.old store.new }
    ensures truth { IfOk result (IsTruth store.new) }
    ensures over { IfOk result (λ id. DependsOn store.new id (λ v. v < to)) }
{
    let mut whole = store.terminal(0)?;
    for term in terms {
        let next = conjunction(store, 0, to, term)?;
        whole = store.combine(Op::Or, whole, next)?;
    }
    Ok(whole)
}

/// The table of these obligations, which may speak of `count` of them. Another number of entries fails the test.
pub(crate) fn cells_of(
    alloc: Global,
    store: &mut Store,
    count: u32,
    entries: &[Entry],
) -> Result<Cells, Memory>
    requires canonical { IsCanonical store.old }
    requires props { store.old.props ≡ 2 }
    requires few { count < 2 ^ 31 }
    ensures keeps { Keeps store.old store.new }
    ensures count { IfOk result (λ cells. length cells ≡ count) }
    ensures fits { IfOk result (FitsCells store.new) }
{
    let mut cells = Cells::new(alloc);
    for (ends, terms) in entries {
        let body = disjunction(store, 2 + count, terms)?;
        cells.add(*ends, body)?;
    }
    if cells.len() != count {
        return Err(Memory);
    }
    Ok(cells)
}
