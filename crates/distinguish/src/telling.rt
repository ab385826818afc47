//! The distinguishing words of an automaton.
ghost use Rattle.std.specs.Prelude.{◌≡◌, ◌<◌, ◌≤◌, ◌+◌, ◌↔◌, [], ◌∷◌, ◌++◌, false, true, IsTrue, EachIndex, All, length, map, slice_index, IfOk, OnOk};
ghost use Rattle.diagrams.specs.Live.{Keeps};
ghost use Rattle.automata.specs.Table.{size_of, Fits, moves_of};
ghost use Rattle.dividing.specs.Divisions.{HaveTargets};
ghost use Rattle.minimise.specs.Minimal.{IsLeast};
ghost use Rattle.distinguish.specs.Telling.{IsTellingList};
ghost use Rattle.distinguish.specs.Columns.{AreColumns};
ghost use Rattle.distinguish.specs.Rounds.{IsByMarks, HasDivided, HasRows, HasStableBlocks};
ghost use Rattle.distinguish.specs.Steps.{word_of, CanFollow};

use crate::columns::Column;
use crate::steps::{Step, sorted_steps};
use crate::words::Words;
use automata::Automaton;
use bes_io::{Letters, Memory};
use diagrams::{Id, Store};
use dividing::{Targets, block_rows, divide_by_rows, renewed_rows};
use std::alloc::Global;

/// The words so far, the marks after each, and the blocks that they divide locations into.
#[derive(Drop)]
pub(crate) struct Refinement {
    pub(crate) blocks: Vec<u32>,
    pub(crate) words: Words,
    pub(crate) columns: Vec<Column>,
}

/// The blocks of locations with one mark.
fn blocks_by_marks(alloc: Global, automaton: &Automaton) -> Result<Vec<u32>, Memory>
    ensures { IfOk result (λ blocks. IsByMarks automaton.now blocks.items) }
{
    let rows = vec![in alloc; automaton.row(automaton.first()); automaton.size() as usize]?;
    divide_by_rows(alloc, automaton, &rows)
}

/// Whether all numbers are 0.
fn are_zeros(blocks: &[u32]) -> bool
    ensures { IsTrue result ↔ EachIndex blocks.now (λ k. slice_index blocks.now k ≡ 0) }
{
    blocks.iter().all(|block| *block == 0)
}

/// What the empty word tells apart.
fn begin(alloc: Global, store: &Store, automaton: &Automaton) -> Result<Refinement, Memory>
    requires { Fits store.now automaton.now }
    ensures { IfOk result (λ refinement. HasDivided store.now automaton.now refinement) }
{
    prove!(automaton.first() < automaton.size());
    let blocks = blocks_by_marks(alloc, automaton)?;
    let mut words = Words::new(alloc);
    let mut columns = Vec::new(alloc);
    if !are_zeros(&blocks) {
        words.push(Letters::new(alloc))?;
        columns.push(Column::new(alloc, automaton)?)?;
    }
    Ok(Refinement {
        blocks,
        words,
        columns,
    })
}

/// The word with a letter before it.
fn preceded(alloc: Global, letter: u64, word: &Letters) -> Result<Letters, Memory>
    ensures { IfOk result (λ longer. longer ≡ letter ∷ word.now) }
{
    let mut longer = Letters::new(alloc);
    longer.push(letter)?;
    for next in word.as_slice() {
        longer.push(*next)?;
    }
    Ok(longer)
}

/// Appends the word of a step and its column.
fn follow(
    alloc: Global,
    store: &Store,
    automaton: &Automaton,
    words: &mut Words,
    columns: &mut Vec<Column>,
    step: Step,
) -> Result<(), Memory>
    requires fits { Fits store.now automaton.now }
    requires step { CanFollow store.now.props (length words.old) step }
    requires columns { AreColumns (moves_of store.now automaton.now) words.old columns.old.items }
    ensures words { OnOk result (words.new ≡ words.old ++ word_of words.old step ∷ []) }
    ensures columns { OnOk result
        (AreColumns (moves_of store.now automaton.now) words.new columns.new.items) }
{
    let word = preceded(alloc, step.letter, words.item(step.rest))?;
    let column = columns[step.rest].after(alloc, store, automaton, step.letter)?;
    words.push(word)?;
    columns.push(column)?;
    Ok(())
}

/// Appends the words of steps and their columns.
fn extend(
    alloc: Global,
    store: &Store,
    automaton: &Automaton,
    words: &mut Words,
    columns: &mut Vec<Column>,
    steps: &[Step],
) -> Result<(), Memory>
    requires fits { Fits store.now automaton.now }
    requires steps { All (CanFollow store.now.props (length words.old)) steps.now }
    requires columns { AreColumns (moves_of store.now automaton.now) words.old columns.old.items }
    ensures words { OnOk result (words.new ≡ words.old ++ map (word_of words.old) steps.now) }
    ensures columns { OnOk result
        (AreColumns (moves_of store.now automaton.now) words.new columns.new.items) }
{
    for step in steps {
        follow(alloc, store, automaton, words, columns, *step)?;
    }
    Ok(())
}

/// One round of division: whether it found words. The rows are those of all locations, with blocks
/// in place of locations, before and after.
fn next_round(
    alloc: Global,
    store: &mut Store,
    automaton: &Automaton,
    targets: &Targets,
    refinement: &mut Refinement,
    rows: &mut Vec<Id>,
) -> Result<bool, Memory>
    requires fits { Fits store.old automaton.now }
    requires targets { HaveTargets store.old automaton.now targets.now }
    requires refinement { HasDivided store.old automaton.now refinement.old }
    requires rows { HasRows store.old automaton.now refinement.old rows.old.items }
    ensures keeps { Keeps store.old store.new }
    ensures refinement { OnOk result (HasDivided store.new automaton.now refinement.new) }
    ensures rows { OnOk result (HasRows store.new automaton.now refinement.new rows.new.items) }
    ensures more { IfOk result (λ more.
        more ≡ true → length refinement.old.words < length refinement.new.words) }
    ensures stable { IfOk result (λ more.
        more ≡ false → HasStableBlocks store.new automaton.now refinement.new) }
{
    prove!(automaton.first() < automaton.size());
    prove!(store.props() <= 32);
    let next = divide_by_rows(alloc, automaton, rows)?;
    let steps = sorted_steps(alloc, store, automaton, refinement, rows, &next)?;
    if steps.is_empty() {
        return Ok(false);
    }
    extend(
        alloc,
        store,
        automaton,
        &mut refinement.words,
        &mut refinement.columns,
        &steps,
    )?;
    *rows = renewed_rows(
        alloc,
        store,
        automaton,
        targets,
        &refinement.blocks,
        &next,
        rows,
    )?;
    refinement.blocks = next;
    Ok(true)
}

/// The words that tell two locations apart by the marks to which they lead from them, each for some
/// two locations the least in shortlex order that does so: in shortlex order, each once. The
/// automaton is a least one, so every two locations are told apart by one of the words. By
/// `laws_of_telling_words` there are fewer words than locations, and no other list is this one.
pub fn telling_words(
    alloc: Global,
    store: &mut Store,
    automaton: &Automaton,
) -> Result<Words, Memory>
    requires fits { Fits store.old automaton.now }
    requires least { IsLeast store.old.props (moves_of store.old automaton.now) }
    ensures keeps { Keeps store.old store.new }
    ensures telling { IfOk result (λ words.
        IsTellingList store.old.props (moves_of store.old automaton.now) words) }
    ensures few { IfOk result (λ words. length words + 1 ≤ size_of automaton.now) }
{
    prove!(automaton.first() < automaton.size());
    prove!(store.props() <= 32);
    let targets = Targets::new(alloc, store, automaton)?;
    let mut refinement = begin(alloc, store, automaton)?;
    let mut rows = block_rows(alloc, store, automaton, &refinement.blocks)?;
    'round: loop {
        if !next_round(
            alloc,
            store,
            automaton,
            &targets,
            &mut refinement,
            &mut rows,
        )? {
            return Ok(refinement.words);
        }
    }
}
