//! Losses: whether the duty can be kept where the goal is out of reach.
ghost use Rattle.std.specs.Prelude.{◌≡◌, ◌<◌, ◌≤◌, ◌^◌, ℕ, length, true, Some, IfOk};
ghost use Rattle.attractor.specs.Graph.{number_at};
ghost use Rattle.game.specs.Board.{width};
ghost use Rattle.game.specs.Winning.{FailsDutyWithin};
ghost use Rattle.game.specs.Histories.{Aims};
ghost use Rattle.game.specs.Arena.{locations, IsArenaOf};
ghost use Rattle.game.specs.Numbers.{IsLeastOrNone};
ghost use Rattle.layers.specs.Ranked.{AreRanks, AreDistances, GoesByInput, IsPlayableArena};
ghost use Rattle.layers.specs.HistoryNumbers.{AreBreaksFew};
ghost use Rattle.layers.specs.ArenaRows.{AreArenaRows};
ghost use Rattle.layers.specs.ArenaRows as table;
ghost use Rattle.arena.specs.Left.{FitsArena, locations_of};
ghost use Rattle.cooperative.specs.Lost.{loss_of, loss_where, AreListed, AreKeptOrLost, AreHistoryLosses};

use crate::loss::{Loss, Losses};
use arena::Arena;
use attractor::attract;
use bes_io::Memory;
use diagrams::{Id, Store};
use forms::Partition;
use layers::{Distances, Ranks, environment_sides};
use std::alloc::Global;

/// The least number of rounds in which the environment breaks the duty at each location, and further numbers.
fn losses_of_rows(
    alloc: Global,
    store: &Store,
    rows: &[Id],
    broken: &[bool],
    partition: &Partition,
) -> Result<Vec<Option<usize>>, Memory>
    requires broken { length broken.now ≡ length rows.now }
    requires arena { AreArenaRows store.now partition.now rows.now broken.now broken.now }
    ensures size { IfOk result (λ numbers. length rows.now ≤ length numbers.items) }
    ensures losses { IfOk result (λ numbers. (at : ℕ) → at < length rows.now
        → IsLeastOrNone (λ n. FailsDutyWithin (locations partition.now true (table.locations_of store.now rows.now broken.now broken.now)) n at) (number_at numbers.items at)) }
{
    let sides = environment_sides(partition);
    attract(alloc, store, rows, broken, sides, false)
}

/// What a number of rounds says of the duty.
fn loss(number: Option<usize>) -> Loss
    requires { (n : ℕ) → number ≡ Some n → n < 2 ^ 32 }
    ensures { result ≡ loss_of number }
{
    match number {
        Some(n) => Loss::In(n as u32),
        None => Loss::Held,
    }
}

/// The same where the goal is out of reach.
fn loss_unless(rank: Option<u32>, distance: Option<u32>, number: Option<usize>) -> Option<Loss>
    requires { (n : ℕ) → number ≡ Some n → n < 2 ^ 32 }
    ensures { result ≡ loss_where rank distance number }
{
    match (rank, distance) {
        (None, None) => Some(loss(number)),
        _ => None,
    }
}

/// The losses of all locations, by their numbers.
fn listed(
    alloc: Global,
    ranks: &[Option<u32>],
    distances: &[Option<u32>],
    numbers: &[Option<usize>],
) -> Result<Losses, Memory>
    requires distances { length distances.now ≡ length ranks.now }
    requires numbers { length ranks.now ≤ length numbers.now }
    requires small { (k n : ℕ) → k < length ranks.now → number_at numbers.now k ≡ Some n → n < 2 ^ 32 }
    ensures { IfOk result (λ losses. AreListed ranks.now distances.now numbers.now losses (length ranks.now)) }
{
    let mut made = Losses::new(alloc);
    for at in 0..ranks.len() {
        made.push(loss_unless(ranks[at], distances[at], numbers[at]))?;
    }
    Ok(made)
}

/// For each location from which the goal is out of reach whether the agent can keep the duty for good, or within how many
/// rounds the environment can break it. `None` stands exactly where there is a rank or a distance.
///
/// `losses` says so of the board of locations, and `histories` of each history that leads to one. Where the duty is held, each
/// decision has an output after which it can still be kept, and moves after which it can keep it. A duty that is lost from a
/// decision is lost within as many rounds as there are locations.
pub fn losses(
    alloc: Global,
    store: &mut Store,
    arena: &Arena,
    ranks: &Ranks,
    distances: &Distances,
) -> Result<Losses, Memory>
    requires fits { FitsArena store.old arena.now }
    requires width { width arena.now.partition ≡ store.old.props }
    requires even { GoesByInput arena.now.partition (locations_of store.old arena.now) }
    requires playable { IsPlayableArena arena.now.partition arena.now.has_duty (locations_of store.old arena.now) }
    requires ranks_size { length ranks.now ≡ length arena.now.rows }
    requires distances_size { length distances.now ≡ length arena.now.rows }
    requires ranks { AreRanks arena.now.partition arena.now.has_duty (locations_of store.old arena.now) (number_at ranks.now) }
    requires distances { AreDistances arena.now.partition arena.now.has_duty (locations_of store.old arena.now) (number_at distances.now) }
    ensures same { store.new ≡ store.old }
    ensures losses { IfOk result (λ losses. AreKeptOrLost arena.now.partition arena.now.has_duty (locations_of store.old arena.now)
        (number_at ranks.now) (number_at distances.now) losses) }
    ensures histories { (s : Aims) → s.parts ≡ arena.now.partition → IsArenaOf s (locations_of store.old arena.now)
        → IfOk result (λ losses. AreHistoryLosses s (locations_of store.old arena.now) losses) }
    ensures decisions { IfOk result (λ losses. AreBreaksFew arena.now.partition arena.now.has_duty (locations_of store.old arena.now)) }
{
    prove!(store.props() <= 32);
    prove!(arena.size() < 4294967295);
    let rows = arena.rows();
    let numbers = losses_of_rows(alloc, store, rows, arena.broken(), arena.partition())?;
    listed(alloc, ranks.items(), distances.items(), &numbers)
}
