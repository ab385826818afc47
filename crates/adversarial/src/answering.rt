//! Answers that keep the goal from being met.
ghost use Rattle.std.specs.Prelude.{◌≡◌, ◌<◌, ◌≤◌, ℕ, Bool, false, List, [], length, slice_index, IfOk, OnOk};
ghost use Rattle.diagrams.specs.Tree.{Assignment};
ghost use Rattle.diagrams.specs.Eval.{eval, DependsOn};
ghost use Rattle.diagrams.specs.Live.{IsLive, Keeps};
ghost use Rattle.diagrams.specs.Transformed.{item_value};
ghost use Rattle.attractor.specs.Graph.{number_at};
ghost use Rattle.game.specs.Board.{width};
ghost use Rattle.game.specs.Histories.{Aims};
ghost use Rattle.game.specs.Arena.{IsArenaOf};
ghost use Rattle.layers.specs.Ranked.{AreRanks, GoesByInput};
ghost use Rattle.layers.specs.ArenaRows.{AreArenaRows};
ghost use Rattle.layers.specs.ArenaRows as table;
ghost use Rattle.arena.specs.Left.{FitsArena, locations_of};
ghost use Rattle.adversarial.specs.Answered.{unranked_code, AreUnranked, IsRightSoFar, IsAnswerValue, HasValues, IsChosen, AreAnswers, AreAnswerDiagrams, Refute, AnswerHistories};

use arena::Arena;
use attractor::Sides;
use bes_io::Memory;
use diagrams::{Id, Memo, Store};
use forms::Partition;
use layers::{Below, EnvTable, Folding, Ranks, agent_sides, fold_row};
use std::alloc::Global;

/// 1 where there is no rank, and else 0.
fn code(rank: Option<u32>) -> u32
    ensures { result ≡ unranked_code rank }
{
    match rank {
        Some(_) => 0,
        None => 1,
    }
}

/// The codes of the ranks, and 0 for illegal rounds.
fn codes(alloc: Global, ranks: &[Option<u32>]) -> Result<Vec<u32>, Memory>
    ensures { IfOk result (λ table. AreUnranked ranks.now table.items) }
{
    let mut table = Vec::new(alloc);
    for at in 0..ranks.len() {
        table.push(code(ranks[at]))?;
    }
    table.push(0)?;
    Ok(table)
}

/// What was found for the rows so far: environment first their folds, agent first their codes.
#[derive(Drop)]
struct Answering {
    folding: Folding,
    coded: Memo<Id>,
}

/// The table of answers of a row that isn't won.
fn answer(
    store: &mut Store,
    answering: &mut Answering,
    row: Id,
    table: &[u32],
    sides: Sides,
) -> Result<Id, Memory>
    requires live { IsLive store.old row }
    requires fit { (a : Assignment) → eval store.old row a < length table.now }
    requires small { (k : ℕ) → k < length table.now → slice_index table.now k < 2 }
    requires letters { DependsOn store.old row (λ v. v < store.old.props) }
    requires before { sides.before ≤ store.old.props }
    requires right { IsRightSoFar store.old sides.before table.now answering.old }
    ensures keeps { Keeps store.old store.new }
    ensures right { OnOk result (IsRightSoFar store.new sides.before table.now answering.new) }
    ensures id { IfOk result (λ id. HasValues store.new id (IsAnswerValue sides.lesser_before sides.before store.old.props (item_value store.old table.now row))) }
{
    let props = store.props();
    if sides.lesser_before {
        let coded = store.map_terminals_with(&mut answering.coded, row, table)?;
        store.pick(coded, sides.before, props)
    } else {
        let folding = &mut answering.folding;
        let all = fold_row(store, folding, row, table, Below::Item, sides.before)?;
        store.pick(all, 0, sides.before)
    }
}

/// The table of answers of a row, where it isn't won.
fn answer_unless(
    store: &mut Store,
    answering: &mut Answering,
    row: Id,
    rank: Option<u32>,
    table: &[u32],
    sides: Sides,
) -> Result<Option<Id>, Memory>
    requires live { IsLive store.old row }
    requires fit { (a : Assignment) → eval store.old row a < length table.now }
    requires small { (k : ℕ) → k < length table.now → slice_index table.now k < 2 }
    requires letters { DependsOn store.old row (λ v. v < store.old.props) }
    requires before { sides.before ≤ store.old.props }
    requires right { IsRightSoFar store.old sides.before table.now answering.old }
    ensures keeps { Keeps store.old store.new }
    ensures right { OnOk result (IsRightSoFar store.new sides.before table.now answering.new) }
    ensures id { IfOk result (λ made. IsChosen store.old store.new sides.lesser_before sides.before table.now row rank made) }
{
    prove!(store.props() <= 32);
    match rank {
        Some(_) => Ok(None),
        None => Ok(Some(answer(store, answering, row, table, sides)?)),
    }
}

/// The tables of answers of the locations with these rows.
fn answers_of_rows(
    alloc: Global,
    store: &mut Store,
    rows: &[Id],
    ranks: &[Option<u32>],
    partition: &Partition,
) -> Result<EnvTable, Memory>
    requires size { length ranks.now ≡ length rows.now }
    requires arena { AreArenaRows store.old partition.now rows.now [] [] }
    ensures keeps { Keeps store.old store.new }
    ensures over { IfOk result (λ made. AreAnswerDiagrams store.new partition.now made) }
    ensures answers { (goals : List Bool) → AreRanks partition.now false (table.locations_of store.old rows.now goals goals) (number_at ranks.now)
        → IfOk result (λ made. AreAnswers store.new partition.now false (table.locations_of store.old rows.now goals goals) (number_at ranks.now) made) }
{
    prove!(store.props() <= 32);
    let sides = agent_sides(partition);
    let table = codes(alloc, ranks)?;
    let mut answering = Answering {
        folding: Folding::new(alloc),
        coded: Memo::new(alloc),
    };
    let mut made = EnvTable::new(alloc);
    for at in 0..rows.len() {
        made.push(answer_unless(store, &mut answering, rows[at], ranks[at], &table, sides)?)?;
    }
    Ok(made)
}

/// The environment's answers: exactly the locations without a rank have a table of them. Agent first it is a diagram over the
/// outputs that gives to each the least input after which the location reached isn't won; environment first it is constant,
/// the least input for which this holds whatever the output.
///
/// `refutes` says of the board of locations, and `histories` of each history that leads to one, that where there is no rank
/// the answers put off the goal for every number of rounds.
pub fn answers(
    alloc: Global,
    store: &mut Store,
    arena: &Arena,
    ranks: &Ranks,
) -> Result<EnvTable, Memory>
    requires fits { FitsArena store.old arena.now }
    requires width { width arena.now.partition ≡ store.old.props }
    requires even { GoesByInput arena.now.partition (locations_of store.old arena.now) }
    requires size { length ranks.now ≡ length arena.now.rows }
    requires ranks { AreRanks arena.now.partition arena.now.has_duty (locations_of store.old arena.now) (number_at ranks.now) }
    ensures keeps { Keeps store.old store.new }
    ensures over { IfOk result (λ table. AreAnswerDiagrams store.new arena.now.partition table) }
    ensures answers { IfOk result (λ table. AreAnswers store.new arena.now.partition arena.now.has_duty (locations_of store.old arena.now) (number_at ranks.now) table) }
    ensures refutes { IfOk result (λ table. Refute store.new arena.now.partition arena.now.has_duty (locations_of store.old arena.now) (number_at ranks.now) table) }
    ensures histories { (s : Aims) → s.parts ≡ arena.now.partition → IsArenaOf s (locations_of store.old arena.now)
        → IfOk result (λ table. AnswerHistories store.new s (locations_of store.old arena.now) (number_at ranks.now) table) }
{
    prove!(store.props() <= 32);
    answers_of_rows(alloc, store, arena.rows(), ranks.items(), arena.partition())
}
