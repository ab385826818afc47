//! Where the agent can violate what is assumed, and the automaton of legal histories.
ghost use Rattle.std.specs.Prelude.{◌≡◌, ◌<◌, ◌+◌, ◌-◌, ◌^◌, ◌≤◌, length, ℕ, slice_index, [], Some, IfOk, OnOk, IfErr};
ghost use Rattle.diagrams.specs.Live.{Keeps};
ghost use Rattle.automata.specs.Table.{size_of, Fits, IsRow, moves_of, next_of};
ghost use Rattle.game.specs.Board.{width};
ghost use Rattle.legality.specs.Violation.{AreViolationRanks, AreWatchedRows, IsRestricted};
ghost use Rattle.game.specs.Histories.{IsKeepable};
ghost use Rattle.legality.specs.Legal.{claim_of, keeping, TellsLegal, IsRightFault, ArePlayable};
ghost use Rattle.attractor.specs.Graph.{number_at};
ghost use Rattle.layers.specs.ArenaRows.{agent_sides};
ghost use Rattle.layers.specs.Folding.{IsRightFor, IsFoldedRow};
ghost use Rattle.legality.specs.Spared.{spare_mark, AreSpareMarks, telling_count};

use crate::fault::ArenaFault;
use attractor::{Sides, attract};
use automata::Automaton;
use bes_io::Memory;
use diagrams::{Id, Store};
use forms::{Mover, Partition};
use layers::{Below, Folding, fold_row};
use products::watch;
use std::alloc::Global;

/// 0 for a rank, and 1 for none.
fn spare_mark(rank: Option<usize>) -> u32
    ensures { result ≡ spare_mark rank }
{
    match rank {
        Some(_) => 0,
        None => 1,
    }
}

/// The rank of a location, where it has one.
fn rank_of(ranks: &[Option<usize>], at: u32) -> Option<usize>
    requires { at < length ranks.now }
    ensures { result ≡ number_at ranks.now at }
{
    ranks[at as usize]
}

/// 0 for each of the first so many locations with a rank, and 1 for each other one.
fn spare_marks(alloc: Global, ranks: &[Option<usize>], size: u32) -> Result<Vec<u32>, Memory>
    requires { size ≤ length ranks.now }
    ensures { IfOk result (λ table. AreSpareMarks ranks.now table.items size) }
{
    let mut table = Vec::new(alloc);
    for at in 0..size {
        table.push(spare_mark(rank_of(ranks, at)))?;
    }
    Ok(table)
}

/// How many propositions tell whether a letter is spared: agent first all, environment first the inputs.
fn telling_count(partition: &Partition) -> u32
    requires { width partition.now ≤ 32 }
    ensures { result ≡ telling_count partition.now }
{
    match partition.first {
        Mover::Agent => partition.inputs + partition.outputs,
        Mover::Environment => partition.inputs,
    }
}

/// The row with each letter led to the sink where some letter with the same first propositions, so many of them, has the item 0.
fn restricted(
    store: &mut Store,
    folding: &mut Folding,
    row: Id,
    table: &[u32],
    sink: u32,
    telling: u32,
) -> Result<Id, Memory>
    requires row { IsRow store.old (length table.now) row }
    requires right { IsRightFor store.old (Below.Sink sink) telling table.now folding.old }
    ensures keeps { Keeps store.old store.new }
    ensures right { OnOk result (IsRightFor store.new (Below.Sink sink) telling table.now folding.new) }
    ensures row { IfOk result (λ id. IsFoldedRow store.old store.new (Below.Sink sink) telling table.now row id) }
{
    fold_row(store, folding, row, table, Below::Sink { sink }, telling)
}

/// The automaton with each letter that leads to a rank led to its last location, which is the sink; environment first, each
/// letter whose input has such a letter.
fn restrict(
    alloc: Global,
    store: &mut Store,
    partition: &Partition,
    automaton: &Automaton,
    ranks: &[Option<usize>],
) -> Result<Automaton, Memory>
    requires width { width partition.now ≡ store.old.props }
    requires fits { Fits store.old automaton.now }
    requires ranks { size_of automaton.now ≤ length ranks.now }
    requires stays { (a : ℕ) → a < 2 ^ store.old.props → next_of store.old automaton.now (size_of automaton.now - 1) a ≡ size_of automaton.now - 1 }
    ensures keeps { Keeps store.old store.new }
    ensures fits { IfOk result (λ made. Fits store.new made) }
    ensures restricted { IfOk result (λ made.
        IsRestricted partition.now (moves_of store.old automaton.now) (moves_of store.new made) (number_at ranks.now) (size_of automaton.now - 1)) }
{
    prove!(store.props() <= 32);
    prove!(automaton.first() < automaton.size());
    let size = automaton.size();
    let sink = size - 1;
    let table = spare_marks(alloc, ranks, size)?;
    let telling = telling_count(partition);
    let mut folding = Folding::new(alloc);
    let mut marks = Vec::new(alloc);
    let mut rows = Vec::new(alloc);
    for at in 0..size {
        marks.push(automaton.mark(at))?;
        rows.push(restricted(
            store,
            &mut folding,
            automaton.row(at),
            &table,
            sink,
            telling,
        )?)?;
    }
    Ok(Automaton::new(automaton.first(), marks, rows))
}

/// The rows of an automaton, and where its mark is another than 0.
#[derive(Drop)]
struct WatchedRows {
    rows: Vec<Id>,
    violated: Vec<bool>,
}

/// The rows of an automaton, and where its mark is another than 0.
fn watched_rows(alloc: Global, automaton: &Automaton) -> Result<WatchedRows, Memory>
    ensures { IfOk result (λ made. AreWatchedRows automaton.now made.rows.items made.violated.items (size_of automaton.now)) }
{
    let mut rows = Vec::new(alloc);
    let mut violated = Vec::new(alloc);
    for at in 0..automaton.size() {
        rows.push(automaton.row(at))?;
        violated.push(automaton.mark(at) != 0)?;
    }
    Ok(WatchedRows { rows, violated })
}

/// The variables at which the agent chooses.
fn sides_of(partition: &Partition) -> Sides
    ensures { result ≡ agent_sides partition.now }
{
    match partition.first {
        Mover::Agent => Sides {
            before: partition.outputs,
            lesser_before: true,
        },
        Mover::Environment => Sides {
            before: partition.inputs,
            lesser_before: false,
        },
    }
}

/// For each location the least number of rounds within which the agent can reach a mark other than 0, and further numbers.
fn violation_ranks(
    alloc: Global,
    store: &Store,
    partition: &Partition,
    automaton: &Automaton,
) -> Result<Vec<Option<usize>>, Memory>
    requires width { width partition.now ≡ store.now.props }
    requires fits { Fits store.now automaton.now }
    ensures size { IfOk result (λ ranks. size_of automaton.now ≤ length ranks.items) }
    ensures ranks { IfOk result (λ ranks. AreViolationRanks partition.now (moves_of store.now automaton.now) (number_at ranks.items)) }
    ensures few { IfOk result (λ ranks. (at n : ℕ) → at < size_of automaton.now → number_at ranks.items at ≡ Some n → n < 2 ^ 32) }
{
    prove!(store.props() <= 32);
    prove!(automaton.first() < automaton.size());
    let made = watched_rows(alloc, automaton)?;
    attract(
        alloc,
        store,
        &made.rows,
        &made.violated,
        sides_of(partition),
        true,
    )
}

/// The automaton whose mark after a word is 0 where it is a legal history, else 3.
pub fn legal_histories(
    alloc: Global,
    store: &mut Store,
    partition: &Partition,
    keep: &Automaton,
) -> Result<Automaton, ArenaFault>
    requires width { width partition.now ≡ store.old.props }
    requires fits { Fits store.old keep.now }
    ensures keeps { Keeps store.old store.new }
    ensures fits { IfOk result (λ made. Fits store.new made) }
    ensures legal { IfOk result (λ made. TellsLegal (keeping partition.now (Some (claim_of store.old keep.now))) (moves_of store.new made)) }
    ensures kept { OnOk result (IsKeepable (keeping partition.now (Some (claim_of store.old keep.now))) []) }
    ensures playable { OnOk result (ArePlayable partition.now (Some (claim_of store.old keep.now))) }
    ensures unkeepable { IfErr result (λ fault. IsRightFault (keeping partition.now (Some (claim_of store.old keep.now))) fault) }
{
    prove!(store.props() <= 32);
    prove!(keep.first() < keep.size());
    let watched = watch(alloc, store, keep, 3)?;
    let ranks = violation_ranks(alloc, store, partition, &watched)?;
    match rank_of(&ranks, watched.first()) {
        Some(rounds) => Err(ArenaFault::Unkeepable {
            rounds: rounds as u32,
        }),
        None => Ok(restrict(alloc, store, partition, &watched, &ranks)?),
    }
}
