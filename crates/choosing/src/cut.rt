//! Rows cut at a variable: which diagram stands below each assignment of the variables before it.
ghost use Rattle.std.specs.Prelude.{◌≤◌, ◌<◌, ℕ, length, IfOk};
ghost use Rattle.diagrams.specs.Eval.{id_at};
ghost use Rattle.diagrams.specs.Live.{IsLive, Keeps};
ghost use Rattle.diagrams.specs.Kept.{AllKept};
ghost use Rattle.diagrams.specs.Transformed.{same_id};
ghost use Rattle.choosing.specs.Cuts.{Grows, AllBelow, IsBelow, Cuts, IsCut, AreCutRows, AllFit, FitsOn};

use crate::below::Below;
use bes_io::Memory;
use diagrams::{Id, Look, Memo, Store};
use std::alloc::Global;

/// The diagram that leads to one that was met.
fn placed(store: &mut Store, below: &mut Below, bound: u32, f: Id) -> Result<Id, Memory>
    requires f { IsBelow store.old bound f }
    requires diagrams { AllBelow store.old bound below.old }
    ensures keeps { Keeps store.old store.new }
    ensures grows { Grows below.old below.new }
    ensures diagrams { AllBelow store.new bound below.new }
    ensures fits { FitsOn store.old store.new below.old below.new f }
    ensures row { IfOk result (λ row. Cuts store.old store.new bound below.new f row) }
{
    prove!(store.props() <= 32);
    let at = below.place(f)?;
    store.terminal(at)
}

/// The diagram that leads, under each assignment of the variables before the bound, to what is left.
pub fn cut(
    store: &mut Store,
    memo: &mut Memo<Id>,
    below: &mut Below,
    bound: u32,
    f: Id,
) -> Result<Id, Memory>
    requires f { IsLive store.old f }
    requires diagrams { AllBelow store.old bound below.old }
    requires right { AllKept same_id (IsCut store.old bound below.old) memo.old }
    ensures keeps { Keeps store.old store.new }
    ensures grows { Grows below.old below.new }
    ensures diagrams { AllBelow store.new bound below.new }
    ensures fits { FitsOn store.old store.new below.old below.new f }
    ensures right { AllKept same_id (IsCut store.new bound below.new) memo.new }
    ensures row { IfOk result (λ row. Cuts store.old store.new bound below.new f row) }
{
    match store.look(f) {
        Look::Terminal(_) => placed(store, below, bound, f),
        Look::Node { var, lo, hi } => {
            if var >= bound {
                return placed(store, below, bound, f);
            }
            if let Some(row) = memo.get(&f) {
                return Ok(row);
            }
            let low = cut(store, memo, below, bound, lo)?;
            let high = cut(store, memo, below, bound, hi)?;
            let row = store.node(var, low, high)?;
            memo.keep(f, row)?;
            Ok(row)
        }
    }
}

/// Rows cut at a variable, and the diagrams below it.
#[derive(Drop)]
pub struct CutRows {
    pub rows: Vec<Id>,
    pub below: Below,
}

/// All rows, cut at a variable.
pub fn cut_rows(
    alloc: Global,
    store: &mut Store,
    rows: &[Id],
    bound: u32,
) -> Result<CutRows, Memory>
    requires live { (at : ℕ) → at < length rows.now → IsLive store.old (id_at rows.now at) }
    ensures keeps { Keeps store.old store.new }
    ensures diagrams { IfOk result (λ made. AllBelow store.new bound made.below) }
    ensures rows { IfOk result (λ made. AreCutRows store.old store.new bound made.below rows.now made.rows.items (length rows.now)) }
    ensures fits { IfOk result (λ made. (g : ℕ) → AllFit store.old g rows.now → AllFit store.new g made.below) }
{
    prove!(store.props() <= 32);
    let mut memo = Memo::new(alloc);
    let mut below = Below::new(alloc);
    let mut made = Vec::new(alloc);
    for at in 0..rows.len() {
        made.push(cut(store, &mut memo, &mut below, bound, rows[at])?)?;
    }
    Ok(CutRows { rows: made, below })
}
