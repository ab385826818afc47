//! The words of one letter more that tell locations of one block apart.
ghost use Rattle.std.specs.Prelude.{◌≢◌, ◌<◌, ◌+◌, IfOk, OnOk};
ghost use Rattle.std.specs.List.Sorted.{IsStrictlySortedBy};
ghost use Rattle.automata.specs.Table.{size_of, Fits};
ghost use Rattle.diagrams.specs.Eval.{id_at};
ghost use Rattle.dividing.specs.Divisions.{IsDivision};
ghost use Rattle.distinguish.specs.Rounds.{HasDivided, HasInOneBlock, HasRows};
ghost use Rattle.distinguish.specs.Steps.{step_order, IsStepOf, AreStepsOf};
ghost use Rattle.distinguish.specs.Trees.{IsTree};

use crate::columns::first_apart;
use crate::difference::least_difference;
use crate::telling::Refinement;
use automata::Automaton;
use bes_io::Memory;
use diagrams::{Id, Store};
use std::alloc::Global;
use std::collections::HashMap;

/// A word: its first letter, and the place of the rest among the words so far.
#[derive(Clone, Copy, PartialEq, Eq, PartialOrd, Ord, Hash)]
pub(crate) struct Step {
    pub(crate) letter: u64,
    pub(crate) rest: usize,
}

/// A location and a step that tells others from it.
#[derive(Clone, Copy, PartialEq, Eq, Hash)]
struct Branch {
    from: u32,
    step: Step,
}

/// The names of new blocks as a tree below the name of each old block, and the steps of all branches.
///
/// A branch leads to the first of the names that its step, and no lesser one, tells from the name
/// that the branch leads from. The others of them stand below that first one.
#[derive(Drop)]
struct Tree {
    branches: HashMap<Branch, u32>,
    steps: Vec<Step>,
}

/// The least word that tells two locations of one block apart.
fn least_step(
    store: &Store,
    automaton: &Automaton,
    refinement: &Refinement,
    rows: &[Id],
    one: u32,
    other: u32,
) -> Step
    requires fits { Fits store.now automaton.now }
    requires refinement { HasDivided store.now automaton.now refinement.now }
    requires rows { HasRows store.now automaton.now refinement.now rows.now }
    requires one { one < size_of automaton.now }
    requires other { other < size_of automaton.now }
    requires same { HasInOneBlock refinement.now one other }
    requires apart { id_at rows.now one ≢ id_at rows.now other }
    ensures { IsStepOf store.now automaton.now refinement.now one other result }
{
    let letter = least_difference(store, rows[one as usize], rows[other as usize]);
    let one_target = automaton.step(store, one, letter);
    let other_target = automaton.step(store, other, letter);
    let rest = first_apart(&refinement.columns, one_target, other_target);
    Step { letter, rest }
}

/// Puts a location into the tree if it names a new block and not an old one.
///
/// It is compared with the names on its way down alone. Where different steps tell two names from
/// a third, the lesser of these steps is the least to tell the two apart.
fn compare(
    store: &Store,
    automaton: &Automaton,
    refinement: &Refinement,
    rows: &[Id],
    next: &[u32],
    at: u32,
    tree: &mut Tree,
) -> Result<(), Memory>
    requires fits { Fits store.now automaton.now }
    requires refinement { HasDivided store.now automaton.now refinement.now }
    requires rows { HasRows store.now automaton.now refinement.now rows.now }
    requires division { IsDivision automaton.now rows.now next.now }
    requires within { at < size_of automaton.now }
    requires tree { IsTree store.now automaton.now refinement.now next.now at tree.old }
    ensures { OnOk result
        (IsTree store.now automaton.now refinement.now next.now (at + 1) tree.new) }
{
    let mut from = refinement.blocks[at as usize];
    if next[at as usize] != at || from == at {
        return Ok(());
    }
    'down: loop {
        let step = least_step(store, automaton, refinement, rows, from, at);
        let branch = Branch { from, step };
        let Some(to) = tree.branches.get(&branch) else {
            tree.branches.insert(branch, at)?;
            tree.steps.push(step)?;
            return Ok(());
        };
        from = *to;
    }
}

/// The steps of all pairs of new blocks of one old block, each once or more.
fn steps_of(
    alloc: Global,
    store: &Store,
    automaton: &Automaton,
    refinement: &Refinement,
    rows: &[Id],
    next: &[u32],
) -> Result<Vec<Step>, Memory>
    requires fits { Fits store.now automaton.now }
    requires refinement { HasDivided store.now automaton.now refinement.now }
    requires rows { HasRows store.now automaton.now refinement.now rows.now }
    requires division { IsDivision automaton.now rows.now next.now }
    ensures { IfOk result (λ steps.
        AreStepsOf store.now automaton.now refinement.now next.now steps.items) }
{
    let mut tree = Tree {
        branches: HashMap::new(alloc),
        steps: Vec::new(alloc),
    };
    for at in 0..automaton.size() {
        compare(store, automaton, refinement, rows, next, at, &mut tree)?;
    }
    Ok(tree.steps)
}

/// The same steps in order, each once.
pub(crate) fn sorted_steps(
    alloc: Global,
    store: &Store,
    automaton: &Automaton,
    refinement: &Refinement,
    rows: &[Id],
    next: &[u32],
) -> Result<Vec<Step>, Memory>
    requires fits { Fits store.now automaton.now }
    requires refinement { HasDivided store.now automaton.now refinement.now }
    requires rows { HasRows store.now automaton.now refinement.now rows.now }
    requires division { IsDivision automaton.now rows.now next.now }
    ensures steps { IfOk result (λ steps.
        AreStepsOf store.now automaton.now refinement.now next.now steps.items) }
    ensures order { IfOk result (λ steps. IsStrictlySortedBy step_order steps.items) }
{
    let mut steps = steps_of(alloc, store, automaton, refinement, rows, next)?;
    steps.sort_unstable();
    steps.dedup();
    Ok(steps)
}
