//! Rows from diagrams over propositions and obligations.
ghost use Rattle.std.specs.Prelude.{◌<◌, IfOk};
ghost use Rattle.diagrams.specs.Live.{Keeps};
ghost use Rattle.diagrams.specs.Kept.{AllKept};
ghost use Rattle.diagrams.specs.Transformed.{same_id};
ghost use Rattle.obligations.specs.Value.{IsBody, IsClaim};
ghost use Rattle.obligations.specs.Located.{Grows, AllClaims, Cuts, IsCut};

use crate::frontier::Frontier;
use bes_io::Memory;
use diagrams::{Id, Look, Memo, Store};

/// The row that leads to the location of a claim under each letter.
fn placed(store: &mut Store, frontier: &mut Frontier, count: u32, f: Id) -> Result<Id, Memory>
    requires f { IsClaim store.old count f }
    requires claims { AllClaims store.old count frontier.old }
    ensures keeps { Keeps store.old store.new }
    ensures grows { Grows frontier.old frontier.new }
    ensures claims { AllClaims store.new count frontier.new }
    ensures row { IfOk result (λ row. Cuts store.old store.new frontier.new f row) }
{
    prove!(store.props() <= 32);
    let at = frontier.place(f)?;
    store.terminal(at)
}

/// The row that leads, under each letter, to the location of the claim that is left.
pub fn cut(
    store: &mut Store,
    memo: &mut Memo<Id>,
    frontier: &mut Frontier,
    count: u32,
    f: Id,
) -> Result<Id, Memory>
    requires f { IsBody store.old count f }
    requires claims { AllClaims store.old count frontier.old }
    requires right { AllKept same_id (IsCut store.old frontier.old) memo.old }
    ensures keeps { Keeps store.old store.new }
    ensures grows { Grows frontier.old frontier.new }
    ensures claims { AllClaims store.new count frontier.new }
    ensures right { AllKept same_id (IsCut store.new frontier.new) memo.new }
    ensures row { IfOk result (λ row. Cuts store.old store.new frontier.new f row) }
{
    let props = store.props();
    match store.look(f) {
        Look::Terminal(_) => placed(store, frontier, count, f),
        Look::Node { var, lo, hi } => {
            if var >= props {
                return placed(store, frontier, count, f);
            }
            if let Some(row) = memo.get(&f) {
                return Ok(row);
            }
            let low = cut(store, memo, frontier, count, lo)?;
            let high = cut(store, memo, frontier, count, hi)?;
            let row = store.node(var, low, high)?;
            memo.keep(f, row)?;
            Ok(row)
        }
    }
}
