//! Diagrams for the bodies of the obligations that stand for locations.
ghost use Rattle.std.specs.Prelude.{◌<◌, ◌+◌, ◌^◌, ℕ, length, IfOk};
ghost use Rattle.diagrams.specs.Live.{IsCanonical, Keeps};
ghost use Rattle.diagrams.specs.Kept.{AllKept};
ghost use Rattle.diagrams.specs.Transformed.{same_id};
ghost use Rattle.automata.specs.Table.{IsRow};
ghost use Rattle.obligations.specs.Inclusion.{AllBelow};
ghost use Rattle.obligations.specs.Followed.{wider_of};
ghost use Rattle.obligations.specs.Entered.{Asks, AllAsk, AllAreLater, Enters, IsEntered};

use crate::inclusions::Inclusions;
use bes_io::Memory;
use diagrams::{Id, Look, Memo, Op, Store};
use std::alloc::Global;

/// The diagram that is 1 where the obligations of some locations are all asked of the next position, and else 0.
fn asked(store: &mut Store, base: u32, size: u32, ats: &[u32]) -> Result<Id, Memory>
    requires few { base + size < 2 ^ 31 }
    requires within { AllBelow size ats.now }
    ensures keeps { Keeps store.old store.new }
    ensures asks { IfOk result (Asks store.new base size ats.now) }
{
    let first = store.props() + base;
    let mut whole = store.terminal(1)?;
    // From the last on: where numbers rise, each conjunction is one node more.
    for k in (0..ats.len()).rev() {
        let next = store.literal(first + ats[k])?;
        whole = store.combine(Op::And, next, whole)?;
    }
    Ok(whole)
}

/// For each location the diagram of the locations that go with it.
pub fn all_asked(
    alloc: Global,
    store: &mut Store,
    base: u32,
    size: u32,
    inclusions: &Inclusions,
) -> Result<Vec<Id>, Memory>
    requires canonical { IsCanonical store.old }
    requires few { base + size < 2 ^ 31 }
    requires within { (at : ℕ) → at < size → AllBelow size (wider_of inclusions.now at) }
    ensures keeps { Keeps store.old store.new }
    ensures asks { IfOk result (λ made. AllAsk store.new base size (wider_of inclusions.now) made.items size) }
{
    let mut made = Vec::new(alloc);
    for at in 0..size {
        let id = asked(store, base, size, inclusions.of(at))?;
        made.push(id)?;
    }
    Ok(made)
}

/// The diagram whose value is that of the item to which a row leads.
pub fn entered(store: &mut Store, memo: &mut Memo<Id>, items: &[Id], f: Id) -> Result<Id, Memory>
    requires f { IsRow store.old (length items.now) f }
    requires items { AllAreLater store.old items.now }
    requires right { AllKept same_id (IsEntered store.old items.now) memo.old }
    ensures keeps { Keeps store.old store.new }
    ensures right { AllKept same_id (IsEntered store.new items.now) memo.new }
    ensures body { IfOk result (Enters store.old store.new items.now f) }
{
    match store.look(f) {
        Look::Terminal(at) => Ok(items[at as usize]),
        Look::Node { var, lo, hi } => {
            if let Some(body) = memo.get(&f) {
                return Ok(body);
            }
            let low = entered(store, memo, items, lo)?;
            let high = entered(store, memo, items, hi)?;
            let body = store.node(var, low, high)?;
            memo.keep(f, body)?;
            Ok(body)
        }
    }
}
