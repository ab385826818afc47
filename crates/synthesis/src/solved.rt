//! The strategy of an arena.
ghost use Rattle.std.specs.Prelude.{◌≡◌, ◌<◌, length, IfOk};
ghost use Rattle.attractor.specs.Graph.{number_at};
ghost use Rattle.diagrams.specs.Live.{Keeps};
ghost use Rattle.game.specs.Board.{width};
ghost use Rattle.game.specs.Histories.{IsKeepable, is_given};
ghost use Rattle.game.specs.Arena.{IsArenaOf};
ghost use Rattle.game.specs.Same.{Claims, aims_with, Agree};
ghost use Rattle.layers.specs.Ranked.{AreRanks, AreDistances, IsPlayableArena, GoesByInput};
ghost use Rattle.arena.specs.Left.{FitsArena, locations_of};
ghost use Rattle.printed_strategy.specs.Printed.{IsPrintedFor};
ghost use Rattle.strategy.specs.Plan.{plan_of};
ghost use Rattle.strategy.specs.Fits.{FitsStrategy};
ghost use Rattle.strategy.specs.Found.{AreLossesWhere};
ghost use Rattle.std.specs.Prelude.{[]};

use adversarial::{answers, solve};
use arena::Arena;
use bes_io::Memory;
use cooperative::{Losses, distances, losses};
use diagrams::Store;
use layers::{Distances, Ranks};
use std::alloc::Global;
use strategy::{Strategy, merge};

/// The losses of the locations, where there is a duty.
fn losses_where(
    alloc: Global,
    store: &mut Store,
    arena: &Arena,
    ranks: &Ranks,
    distances: &Distances,
) -> Result<Option<Losses>, Memory>
    requires fits { FitsArena store.old arena.now }
    requires width { width arena.now.partition ≡ store.old.props }
    requires even { GoesByInput arena.now.partition (locations_of store.old arena.now) }
    requires playable { IsPlayableArena arena.now.partition arena.now.has_duty (locations_of store.old arena.now) }
    requires ranks_size { length ranks.now ≡ length arena.now.rows }
    requires distances_size { length distances.now ≡ length arena.now.rows }
    requires ranks { AreRanks arena.now.partition arena.now.has_duty (locations_of store.old arena.now) (number_at ranks.now) }
    requires distances { AreDistances arena.now.partition arena.now.has_duty (locations_of store.old arena.now) (number_at distances.now) }
    ensures same { store.new ≡ store.old }
    ensures losses { IfOk result (λ made. AreLossesWhere arena.now.partition arena.now.has_duty (locations_of store.old arena.now) ranks.now distances.now made) }
{
    if arena.has_duty() {
        Ok(Some(losses(alloc, store, arena, ranks, distances)?))
    } else {
        Ok(None)
    }
}

/// The strategy of an arena: the ranks, the distances, the answers and the losses of its locations, merged.
pub fn strategy_of(alloc: Global, store: &mut Store, arena: Arena) -> Result<Strategy, Memory>
    requires fits { FitsArena store.old arena }
    requires width { width arena.partition ≡ store.old.props }
    requires some { 0 < length arena.rows }
    requires even { GoesByInput arena.partition (locations_of store.old arena) }
    requires playable { IsPlayableArena arena.partition arena.has_duty (locations_of store.old arena) }
    ensures keeps { Keeps store.old store.new }
    ensures fits { IfOk result (λ made. FitsStrategy store.new made) }
    ensures partition { IfOk result (λ made. (plan_of store.new made).parts ≡ arena.partition) }
    ensures size { IfOk result (λ made. (plan_of store.new made).size ≡ length arena.rows) }
    ensures printed { (c d : Claims) → Agree (width arena.partition) c d → is_given c.duty ≡ arena.has_duty
        → IsArenaOf (aims_with arena.partition c) (locations_of store.old arena) → IsKeepable (aims_with arena.partition c) []
        → IfOk result (λ made. IsPrintedFor (aims_with arena.partition d) (plan_of store.new made)) }
{
    prove!(store.props() <= 32);
    let ranks = solve(alloc, store, &arena)?;
    let table = answers(alloc, store, &arena, &ranks)?;
    let near = distances(alloc, store, &arena, &ranks)?;
    let lost = losses_where(alloc, store, &arena, &ranks, &near)?;
    merge(alloc, store, arena, ranks, near, table, lost)
}
