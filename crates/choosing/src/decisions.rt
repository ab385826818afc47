//! The choices for the decisions of rows, each numbered once, and the diagrams that lead to them.
ghost use Rattle.std.specs.Prelude.{◌≡◌, ◌<◌, ◌≤◌, ◌-◌, ◌+◌, ◌^◌, ℕ, true, false, length, IfOk};
ghost use Rattle.diagrams.specs.Tree.{Assignment, AllVars};
ghost use Rattle.diagrams.specs.Eval.{eval, tree, id_at};
ghost use Rattle.diagrams.specs.Live.{IsLive, IsCanonical, Keeps};
ghost use Rattle.choosing.specs.Cuts.{AllBelow, AllFit};
ghost use Rattle.choosing.specs.Found.{FitTables, IsRight, HasTables};
ghost use Rattle.choosing.specs.Choices.{IsAllIllegal, IsChoiceBelow, AreChoicesBelow, AreNumbered, AreLookedUp, AreChoices};

use crate::below::Below;
use crate::choice::{Chosen, Found, Outputs, Tables, choose};
use crate::cut::cut_rows;
use bes_io::Memory;
use diagrams::{Id, Look, Memo, Store};
use indexmap::IndexSet;
use std::alloc::Global;

/// Whether a diagram leads to no location.
fn is_illegal(store: &Store, size: u32, f: Id) -> bool
    requires live { IsLive store.now f }
    requires fit { (a : Assignment) → eval store.now f a < size + 1 }
    ensures illegal { result ≡ true → IsAllIllegal size (tree store.now f) }
    ensures legal { result ≡ false → ¬ IsAllIllegal size (tree store.now f) }
{
    match store.look(f) {
        Look::Terminal(at) => at >= size,
        Look::Node { .. } => false,
    }
}

/// The choice for the decision below which a diagram stands; none where each of its rounds is illegal.
fn choice_below(
    store: &Store,
    found: &mut Found,
    outputs: Outputs,
    duty: bool,
    tables: &Tables,
    size: u32,
    f: Id,
) -> Result<Option<Chosen>, Memory>
    requires live { IsLive store.now f }
    requires tables { HasTables tables.now size }
    requires fit { (a : Assignment) → eval store.now f a < size + 1 }
    requires range { outputs.from ≤ outputs.to }
    requires few { outputs.to - outputs.from ≤ 32 }
    requires vars { AllVars (λ v. outputs.from ≤ v) (tree store.now f) }
    requires right { IsRight store.now outputs tables.now found.old }
    ensures right { IsRight store.now outputs tables.now found.new }
    ensures choice { IfOk result (λ c. IsChoiceBelow outputs size duty tables.now (tree store.now f) c) }
{
    if is_illegal(store, size, f) {
        return Ok(None);
    }
    Ok(Some(choose(store, found, outputs, duty, tables, f)?))
}

/// The choice below each of some diagrams.
fn choices_below(
    alloc: Global,
    store: &Store,
    below: &Below,
    outputs: Outputs,
    duty: bool,
    tables: &Tables,
    size: u32,
) -> Result<Vec<Option<Chosen>>, Memory>
    requires canonical { IsCanonical store.now }
    requires below { AllBelow store.now outputs.from below.now }
    requires tables { HasTables tables.now size }
    requires fit { AllFit store.now (size + 1) below.now }
    requires range { outputs.from ≤ outputs.to }
    requires few { outputs.to - outputs.from ≤ 32 }
    ensures { IfOk result (λ made. AreChoicesBelow store.now outputs size duty tables.now below.now made.items (length below.now)) }
{
    let mut found = Found::new(alloc);
    let mut made = Vec::new(alloc);
    for at in 0..below.len() {
        made.push(choice_below(
            store,
            &mut found,
            outputs,
            duty,
            tables,
            size,
            below.diagram(at),
        )?)?;
    }
    Ok(made)
}

/// Choices by number, and the number of each of a list.
#[derive(Drop)]
struct Numbered {
    numbers: Vec<u32>,
    choices: IndexSet<Option<Chosen>>,
}

/// Choices numbered in the order in which they first come.
fn number_choices(alloc: Global, choices: &[Option<Chosen>]) -> Result<Numbered, Memory>
    requires { length choices.now < 2 ^ 32 }
    ensures { IfOk result (λ made. AreNumbered choices.now made.numbers.items made.choices.keys (length choices.now)) }
{
    let mut distinct = IndexSet::new(alloc);
    let mut numbers = Vec::new(alloc);
    for choice in choices {
        let (number, _) = distinct.insert_full(*choice)?;
        numbers.push(number as u32)?;
    }
    Ok(Numbered {
        numbers,
        choices: distinct,
    })
}

/// Rows with each value looked up.
fn looked_up(
    alloc: Global,
    store: &mut Store,
    rows: &[Id],
    numbers: &[u32],
) -> Result<Vec<Id>, Memory>
    requires live { (at : ℕ) → at < length rows.now → IsLive store.old (id_at rows.now at) }
    requires fit { AllFit store.old (length numbers.now) rows.now }
    ensures keeps { Keeps store.old store.new }
    ensures rows { IfOk result (λ made. AreLookedUp store.old store.new numbers.now rows.now made.items (length rows.now)) }
{
    prove!(store.props() <= 32);
    let mut memo = Memo::new(alloc);
    let mut made = Vec::new(alloc);
    for at in 0..rows.len() {
        made.push(store.map_terminals_with(&mut memo, rows[at], numbers)?)?;
    }
    Ok(made)
}

/// For each row a diagram over the variables of its decisions, which leads to the number of the choice.
#[derive(Drop)]
pub struct Choices {
    pub moves: Vec<Id>,
    pub choices: IndexSet<Option<Chosen>>,
}

/// The choices for all decisions of rows that lead to locations, of which there are so many, or to their number for an illegal
/// round. Each diagram that stands below a decision is walked once for all rows.
pub fn choose_all(
    alloc: Global,
    store: &mut Store,
    rows: &[Id],
    outputs: Outputs,
    duty: bool,
    tables: &Tables,
    size: u32,
) -> Result<Choices, Memory>
    requires live { (at : ℕ) → at < length rows.now → IsLive store.old (id_at rows.now at) }
    requires fit { AllFit store.old (size + 1) rows.now }
    requires tables { HasTables tables.now size }
    requires range { outputs.from ≤ outputs.to }
    requires few { outputs.to - outputs.from ≤ 32 }
    ensures keeps { Keeps store.old store.new }
    ensures choices { IfOk result (λ made. AreChoices store.old store.new outputs size duty tables.now rows.now made.moves.items made.choices.keys) }
{
    let cut = cut_rows(alloc, store, rows, outputs.from)?;
    prove!(store.props() <= 32);
    prove!(cut.below.len() < 4294967295);
    let below = choices_below(alloc, store, &cut.below, outputs, duty, tables, size)?;
    let numbered = number_choices(alloc, &below)?;
    let moves = looked_up(alloc, store, &cut.rows, &numbered.numbers)?;
    Ok(Choices {
        moves,
        choices: numbered.choices,
    })
}
