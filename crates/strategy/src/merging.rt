//! Strategies from the rows of an arena and the numbers of its locations.
ghost use Rattle.std.specs.Prelude.{◌≡◌, ◌<◌, ◌≤◌, ◌^◌, ◌-◌, ℕ, length, IfOk};
ghost use Rattle.diagrams.specs.Eval.{id_at};
ghost use Rattle.diagrams.specs.Live.{Keeps};
ghost use Rattle.game.specs.Board.{width};
ghost use Rattle.choosing.specs.ArenaRows.{outputs_of};
ghost use Rattle.strategy.specs.Plan.{plan_of};
ghost use Rattle.strategy.specs.Fits.{IsRow, IsAnswerTable, FitsStrategy};
ghost use Rattle.strategy.specs.Numbers.{HasNumbers, number_in};
ghost use Rattle.strategy.specs.Merged.{HasAnswers, IsMerged};

use crate::marks::{Numbers, marks_of, tables_of};
use crate::strategy::Strategy;
use bes_io::Memory;
use choosing::{Outputs, choose_all};
use diagrams::{Id, Store};
use forms::{Mover, Partition};
use std::alloc::Global;

/// Which variables are outputs.
fn outputs_of(partition: Partition) -> Outputs
    requires { width partition ≤ 32 }
    ensures { result ≡ outputs_of partition }
{
    match partition.first {
        Mover::Agent => Outputs {
            from: 0,
            to: partition.outputs,
        },
        Mover::Environment => Outputs {
            from: partition.inputs,
            to: partition.inputs + partition.outputs,
        },
    }
}

/// The strategy of an arena whose locations have these rows, goals, numbers and answers: a location's mark goes by its
/// numbers, a decision's mark and least move by those of the locations to which its rounds lead.
pub fn merge_rows(
    alloc: Global,
    store: &mut Store,
    partition: Partition,
    rows: Vec<Id>,
    goals: &[bool],
    numbers: &Numbers,
    answers: Vec<Option<Id>>,
) -> Result<Strategy, Memory>
    requires props { store.old.props ≡ width partition }
    requires some { 0 < length rows.items }
    requires few { length rows.items < 2 ^ 32 - 1 }
    requires rows { (at : ℕ) → at < length rows.items → IsRow store.old (width partition) (length rows.items) (id_at rows.items at) }
    requires goals { length goals.now ≡ length rows.items }
    requires numbers { HasNumbers numbers.now (length rows.items) }
    requires answers { HasAnswers store.old partition goals.now numbers.now answers.items (length rows.items) }
    ensures keeps { Keeps store.old store.new }
    ensures fits { IfOk result (λ made. FitsStrategy store.new made) }
    ensures partition { IfOk result (λ made. (plan_of store.new made).parts ≡ partition) }
    ensures size { IfOk result (λ made. (plan_of store.new made).size ≡ length rows.items) }
    ensures verdict { IfOk result (λ made. (plan_of store.new made).verdict ≡ number_in numbers.now.ranks.items 0) }
    ensures merged { IfOk result (λ made. IsMerged store.old partition rows.items goals.now numbers.now answers.items (plan_of store.new made)) }
{
    prove!(store.props() <= 32);
    let size = rows.len();
    let marks = marks_of(alloc, goals, numbers)?;
    let tables = tables_of(alloc, numbers, size)?;
    let duty = numbers.losses.is_some();
    let made = choose_all(
        alloc,
        store,
        &rows,
        outputs_of(partition),
        duty,
        &tables,
        size as u32,
    )?;
    Ok(Strategy {
        partition,
        duty,
        verdict: numbers.ranks[0],
        marks,
        rows,
        moves: made.moves,
        choices: made.choices,
        answers,
    })
}
