//! Strategies from arenas, by what was found of their locations.
ghost use Rattle.std.specs.Prelude.{◌≡◌, ◌<◌, ◌^◌, ◌-◌, [], length, IfOk};
ghost use Rattle.attractor.specs.Graph.{number_at};
ghost use Rattle.diagrams.specs.Live.{Keeps};
ghost use Rattle.game.specs.Board.{width};
ghost use Rattle.game.specs.Histories.{IsKeepable, is_given};
ghost use Rattle.game.specs.Arena.{IsArenaOf};
ghost use Rattle.game.specs.Same.{Claims, aims_with, Agree};
ghost use Rattle.layers.specs.Ranked.{IsPlayableArena};
ghost use Rattle.arena.specs.Left.{FitsArena, locations_of};
ghost use Rattle.printed_strategy.specs.Printed.{IsPrintedFor};
ghost use Rattle.strategy.specs.Plan.{plan_of};
ghost use Rattle.strategy.specs.Fits.{FitsStrategy};
ghost use Rattle.strategy.specs.Found.{rounds_of, AreRounds, AreLossesFor, AreNumbersOf, AreFound};

use crate::marks::Numbers;
use crate::merging::merge_rows;
use crate::strategy::Strategy;
use arena::Arena;
use bes_io::Memory;
use cooperative::{Loss, Losses};
use diagrams::Store;
use layers::{Distances, EnvTable, Ranks};
use std::alloc::Global;

/// The number of rounds of a loss, where it has one.
fn rounds(loss: Option<Loss>) -> Option<u32>
    ensures { result ≡ rounds_of loss }
{
    match loss {
        Some(Loss::In(rounds)) => Some(rounds),
        Some(Loss::Held) | None => None,
    }
}

/// The numbers of rounds of all losses.
fn rounds_in(alloc: Global, losses: &Losses) -> Result<Vec<Option<u32>>, Memory>
    ensures { IfOk result (λ made. AreRounds losses.now made.items (length losses.now)) }
{
    let mut made = Vec::new(alloc);
    for at in 0..losses.len() {
        made.push(rounds(*losses.item(at)))?;
    }
    Ok(made)
}

/// The numbers that were found.
fn numbers_of(
    alloc: Global,
    ranks: &Ranks,
    distances: &Distances,
    losses: &Option<Losses>,
) -> Result<Numbers, Memory>
    requires { AreLossesFor losses.now (length ranks.now) }
    ensures { IfOk result (λ made. AreNumbersOf ranks.now distances.now losses.now made) }
{
    let ranks = Vec::from_slice(alloc, ranks.items())?;
    let distances = Vec::from_slice(alloc, distances.items())?;
    match losses {
        None => Ok(Numbers {
            ranks,
            distances,
            losses: None,
        }),
        Some(losses) => {
            let rounds = rounds_in(alloc, losses)?;
            Ok(Numbers {
                ranks,
                distances,
                losses: Some(rounds),
            })
        }
    }
}

/// The strategy of an arena, by the ranks, the distances and the answers of its locations and, where there is a duty, their
/// losses.
///
/// `printed` says that it is the strategy of every specification whose arena this is: after each running history, whoever
/// played it, it has the history's mark, and for each decision the mark and the least move.
pub fn merge(
    alloc: Global,
    store: &mut Store,
    arena: Arena,
    ranks: Ranks,
    distances: Distances,
    answers: EnvTable,
    losses: Option<Losses>,
) -> Result<Strategy, Memory>
    requires fits { FitsArena store.old arena }
    requires width { width arena.partition ≡ store.old.props }
    requires some { 0 < length arena.rows }
    requires playable { IsPlayableArena arena.partition arena.has_duty (locations_of store.old arena) }
    requires found { AreFound store.old arena ranks distances answers losses }
    ensures keeps { Keeps store.old store.new }
    ensures fits { IfOk result (λ made. FitsStrategy store.new made) }
    ensures partition { IfOk result (λ made. (plan_of store.new made).parts ≡ arena.partition) }
    ensures size { IfOk result (λ made. (plan_of store.new made).size ≡ length arena.rows) }
    ensures verdict { IfOk result (λ made. (plan_of store.new made).verdict ≡ number_at ranks 0) }
    ensures printed { (c d : Claims) → Agree (width arena.partition) c d → is_given c.duty ≡ arena.has_duty
        → IsArenaOf (aims_with arena.partition c) (locations_of store.old arena) → IsKeepable (aims_with arena.partition c) []
        → IfOk result (λ made. IsPrintedFor (aims_with arena.partition d) (plan_of store.new made)) }
{
    prove!(store.props() <= 32);
    prove!(arena.size() < 4294967295);
    let numbers = numbers_of(alloc, &ranks, &distances, &losses)?;
    let rows = Vec::from_slice(alloc, arena.rows())?;
    let tables = Vec::from_slice(alloc, answers.items())?;
    merge_rows(
        alloc,
        store,
        *arena.partition(),
        rows,
        arena.goals(),
        &numbers,
        tables,
    )
}
