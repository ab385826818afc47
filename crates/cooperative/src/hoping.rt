//! Distances: within how many rounds the goal can be hoped for.
ghost use Rattle.std.specs.Prelude.{◌≡◌, ◌<◌, ◌≤◌, ◌+◌, ◌^◌, ℕ, true, false, length, IfOk};
ghost use Rattle.diagrams.specs.Eval.{eval, id_at, letter_truth};
ghost use Rattle.diagrams.specs.Live.{Keeps};
ghost use Rattle.attractor.specs.Graph.{number_at};
ghost use Rattle.attractor.specs.Rows.{is_first_at};
ghost use Rattle.game.specs.Board.{width};
ghost use Rattle.game.specs.Histories.{Aims};
ghost use Rattle.game.specs.Arena.{IsArenaOf};
ghost use Rattle.layers.specs.Ranked.{AreRanks, AreDistances, GoesByInput, IsPlayableArena};
ghost use Rattle.layers.specs.HistoryNumbers.{AreHistoryDistances, AreBelow, AreHopesFew};
ghost use Rattle.layers.specs.ArenaRows.{AreArenaRows};
ghost use Rattle.layers.specs.ArenaRows as table;
ghost use Rattle.arena.specs.Left.{FitsArena, locations_of};
ghost use Rattle.cooperative.specs.Hoped.{MeetsByDistance, HistoriesMeet};

use crate::numbers::{with_numbers, with_zero};
use crate::replacing::rows_made;
use arena::Arena;
use attractor::{Sides, attract};
use bes_io::Memory;
use diagrams::{Id, Store};
use forms::Partition;
use layers::{Distances, Ranks, agent_sides, narrowed};
use std::alloc::Global;

/// For each location with these rows the least number of rounds within which the goal can be hoped for, and further numbers.
fn distances_of_rows(
    alloc: Global,
    store: &mut Store,
    rows: &[Id],
    goals: &[bool],
    ranks: &[Option<u32>],
    partition: &Partition,
) -> Result<Vec<Option<usize>>, Memory>
    requires goals { length goals.now ≡ length rows.now }
    requires size { length ranks.now ≡ length rows.now }
    requires few { length rows.now + length rows.now + 1 < 2 ^ 32 }
    requires arena { AreArenaRows store.old partition.now rows.now goals.now goals.now }
    requires loops { (at c : ℕ) → at < length rows.now → is_first_at goals.now at ≡ true → c < 2 ^ width partition.now
        → eval store.old (id_at rows.now at) (letter_truth store.old.props c) ≡ at }
    requires ranks { AreRanks partition.now false (table.locations_of store.old rows.now goals.now goals.now) (number_at ranks.now) }
    ensures keeps { Keeps store.old store.new }
    ensures size { IfOk result (λ numbers. length rows.now ≤ length numbers.items) }
    ensures distances { IfOk result (λ numbers. AreDistances partition.now false (table.locations_of store.old rows.now goals.now goals.now) (number_at numbers.items)) }
{
    let sides = agent_sides(partition);
    let size = rows.len() as u32;
    let made = rows_made(alloc, store, rows, ranks, sides, size)?;
    let all = with_numbers(store, made, size)?;
    let first = with_zero(alloc, goals, size)?;
    let everywhere = Sides {
        before: 0,
        lesser_before: false,
    };
    attract(alloc, store, &all, &first, everywhere, false)
}

/// For each location the least number of rounds within which an agent that wins where it can may hope to meet the goal: its
/// distance. `None` stands exactly where there is no hope, which is where no legal rounds lead to the goal.
///
/// This is no plain distance in a graph: a decision that can be won counts by its winning moves alone. The condition of
/// best-effort strategies is after Aminof, De Giacomo and Rubin (2021). `distances` and `meets` speak of the board of
/// locations, `histories` and `history_meets` of each history that leads to one. An arena of 2^31 locations or more counts as
/// want of memory.
pub fn distances(
    alloc: Global,
    store: &mut Store,
    arena: &Arena,
    ranks: &Ranks,
) -> Result<Distances, Memory>
    requires fits { FitsArena store.old arena.now }
    requires width { width arena.now.partition ≡ store.old.props }
    requires even { GoesByInput arena.now.partition (locations_of store.old arena.now) }
    requires playable { IsPlayableArena arena.now.partition arena.now.has_duty (locations_of store.old arena.now) }
    requires size { length ranks.now ≡ length arena.now.rows }
    requires ranks { AreRanks arena.now.partition arena.now.has_duty (locations_of store.old arena.now) (number_at ranks.now) }
    ensures keeps { Keeps store.old store.new }
    ensures size { IfOk result (λ distances. length distances ≡ length arena.now.rows) }
    ensures distances { IfOk result (λ distances. AreDistances arena.now.partition arena.now.has_duty (locations_of store.old arena.now) (number_at distances)) }
    ensures meets { IfOk result (λ distances. MeetsByDistance arena.now.partition arena.now.has_duty (locations_of store.old arena.now) (number_at distances)) }
    ensures histories { (s : Aims) → s.parts ≡ arena.now.partition → IsArenaOf s (locations_of store.old arena.now)
        → IfOk result (λ distances. AreHistoryDistances s (locations_of store.old arena.now) (number_at distances)) }
    ensures history_meets { (s : Aims) → s.parts ≡ arena.now.partition → IsArenaOf s (locations_of store.old arena.now)
        → IfOk result (λ distances. HistoriesMeet s (locations_of store.old arena.now) (number_at distances)) }
    ensures below { IfOk result (λ distances. AreBelow (length arena.now.rows) (number_at distances)) }
    ensures decisions { IfOk result (λ distances. AreHopesFew arena.now.partition arena.now.has_duty (locations_of store.old arena.now)) }
{
    prove!(store.props() <= 32);
    if arena.size() >= 2147483648 {
        return Err(Memory);
    }
    let rows = arena.rows();
    let numbers = distances_of_rows(
        alloc,
        store,
        rows,
        arena.goals(),
        ranks.items(),
        arena.partition(),
    )?;
    let made = narrowed(alloc, &numbers, rows.len())?;
    Ok(Distances::of(made))
}
