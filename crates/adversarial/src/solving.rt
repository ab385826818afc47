//! Ranks: within how many rounds the agent wins.
ghost use Rattle.std.specs.Prelude.{◌≡◌, ◌<◌, ◌^◌, ℕ, length, false, IfOk};
ghost use Rattle.attractor.specs.Graph.{number_at};
ghost use Rattle.game.specs.Board.{width};
ghost use Rattle.game.specs.Histories.{Aims};
ghost use Rattle.game.specs.Arena.{IsArenaOf};
ghost use Rattle.layers.specs.Ranked.{AreRanks, GoesByInput, IsPlayableArena};
ghost use Rattle.layers.specs.HistoryNumbers.{AreHistoryRanks, AreBelow, AreWinsFew};
ghost use Rattle.layers.specs.ArenaRows.{AreArenaRows};
ghost use Rattle.layers.specs.ArenaRows as table;
ghost use Rattle.arena.specs.Left.{FitsArena, locations_of};

use arena::Arena;
use attractor::attract;
use bes_io::Memory;
use diagrams::{Id, Store};
use forms::Partition;
use layers::{Ranks, agent_sides, narrowed};
use std::alloc::Global;

/// The ranks of the locations with these rows.
fn ranks_of_rows(
    alloc: Global,
    store: &Store,
    rows: &[Id],
    goals: &[bool],
    partition: &Partition,
) -> Result<Ranks, Memory>
    requires goals { length goals.now ≡ length rows.now }
    requires arena { AreArenaRows store.now partition.now rows.now goals.now goals.now }
    requires few { length rows.now < 2 ^ 32 }
    ensures size { IfOk result (λ ranks. length ranks ≡ length rows.now) }
    ensures ranks { IfOk result (λ ranks. AreRanks partition.now false (table.locations_of store.now rows.now goals.now goals.now) (number_at ranks)) }
{
    let sides = agent_sides(partition);
    let numbers = attract(alloc, store, rows, goals, sides, true)?;
    let made = narrowed(alloc, &numbers, rows.len())?;
    Ok(Ranks::of(made))
}

/// For each location the least number of rounds within which the agent wins, whatever a legal environment does: its rank
/// (De Giacomo and Vardi 2015). `None` stands exactly where no number of rounds is enough.
///
/// `ranks` says so of the board of locations, and `histories` of each history that leads to one. Where the game can be played
/// on the arena, each rank is below the number of locations, and a decision that can be won is won within that number.
pub fn solve(alloc: Global, store: &mut Store, arena: &Arena) -> Result<Ranks, Memory>
    requires fits { FitsArena store.old arena.now }
    requires width { width arena.now.partition ≡ store.old.props }
    requires even { GoesByInput arena.now.partition (locations_of store.old arena.now) }
    ensures same { store.new ≡ store.old }
    ensures size { IfOk result (λ ranks. length ranks ≡ length arena.now.rows) }
    ensures ranks { IfOk result (λ ranks. AreRanks arena.now.partition arena.now.has_duty (locations_of store.old arena.now) (number_at ranks)) }
    ensures histories { (s : Aims) → s.parts ≡ arena.now.partition → IsArenaOf s (locations_of store.old arena.now)
        → IfOk result (λ ranks. AreHistoryRanks s (locations_of store.old arena.now) (number_at ranks)) }
    ensures below { IsPlayableArena arena.now.partition arena.now.has_duty (locations_of store.old arena.now)
        → IfOk result (λ ranks. AreBelow (length arena.now.rows) (number_at ranks)) }
    ensures decisions { IsPlayableArena arena.now.partition arena.now.has_duty (locations_of store.old arena.now)
        → IfOk result (λ ranks. AreWinsFew arena.now.partition arena.now.has_duty (locations_of store.old arena.now)) }
{
    prove!(store.props() <= 32);
    prove!(arena.size() < 4294967295);
    ranks_of_rows(alloc, store, arena.rows(), arena.goals(), arena.partition())
}
