//! The strategies of small specifications.
ghost use Rattle.std.specs.Prelude.{◌≡◌, ◌<◌, ℕ, length, IfOk};
ghost use Rattle.std.specs.Option.{option_copied};
ghost use Rattle.diagrams.specs.Live.{Keeps};
ghost use Rattle.automata.specs.Table.{size_of, mark_of, Fits};
ghost use Rattle.game.specs.Board.{width};
ghost use Rattle.arena.specs.Building.{FitsWhere};
ghost use Rattle.strategy.specs.Plan.{plan_of};
ghost use Rattle.strategy.specs.Fits.{FitsStrategy};
ghost use Rattle.tests_of_strategies.specs.Ready.{AreReady};

use automata::Automaton;
use bes_io::{Memory, Text};
use diagrams::Store;
use form_reader::read_form;
use form_tokens::{Dialect, Names};
use forms::{Mover, Partition};
use std::alloc::Global;
use strategy::{Strategy, print_strategy};
use synthesis::{ArenaFault, synthesise};
use translate::translate;

/// A specification: the names of the propositions, those of the first mover first, and how many of them are inputs; what is
/// assumed, the goal and the duty, in LTLf; and whether the empty history may meet the goal.
#[derive(Clone, Copy)]
pub struct Specification {
    pub first: Mover,
    pub names: &'static [&'static str],
    pub inputs: u32,
    pub assume: Option<&'static str>,
    pub goal: &'static str,
    pub duty: Option<&'static str>,
    pub empty: bool,
}

/// The automata of a specification's formulas.
#[derive(Drop)]
pub struct Automata {
    goal: Automaton,
    keep: Option<Automaton>,
    duty: Option<Automaton>,
}

fn names_of(alloc: Global, list: &[&str]) -> Result<Names, Memory> {
    let mut names = Names::new(alloc)?;
    for name in list {
        if names.add(name.as_bytes()).is_err() {
            return Err(Memory);
        }
    }
    names.close();
    Ok(names)
}

// The automaton of a formula. A formula that is refused fails the test.
fn automaton_of(
    alloc: Global,
    store: &mut Store,
    names: &mut Names,
    text: &str,
    empty: bool,
) -> Result<Automaton, Memory>
    ensures keeps { Keeps store.old store.new }
    ensures fits { IfOk result (λ made. Fits store.new made) }
    ensures marks { IfOk result (λ made. (at : ℕ) → at < size_of made → mark_of made at < 2) }
{
    prove!(store.props() <= 32);
    let Ok(form) = read_form(alloc, Dialect::Ltlf, text.as_bytes(), names) else {
        return Err(Memory);
    };
    if names.len() != store.props() {
        return Err(Memory);
    }
    match translate(alloc, store, &form, empty, 1024) {
        Ok(made) => Ok(made.whole),
        Err(_) => Err(Memory),
    }
}

fn automaton_where(
    alloc: Global,
    store: &mut Store,
    names: &mut Names,
    text: Option<&str>,
) -> Result<Option<Automaton>, Memory>
    ensures keeps { Keeps store.old store.new }
    ensures fits { IfOk result (FitsWhere store.new) }
{
    prove!(store.props() <= 32);
    match text {
        Some(text) => Ok(Some(automaton_of(alloc, store, names, text, false)?)),
        None => Ok(None),
    }
}

fn automata_of(
    alloc: Global,
    store: &mut Store,
    names: &mut Names,
    specification: &Specification,
) -> Result<Automata, Memory>
    ensures keeps { Keeps store.old store.new }
    ensures ready { IfOk result (λ made. AreReady store.new made.goal made.keep made.duty) }
{
    let keep = automaton_where(alloc, store, names, specification.assume)?;
    let goal = automaton_of(alloc, store, names, specification.goal, specification.empty)?;
    let duty = automaton_where(alloc, store, names, specification.duty)?;
    Ok(Automata { goal, keep, duty })
}

fn reference(automaton: &Option<Automaton>) -> Option<&Automaton>
    ensures { option_copied result ≡ automaton.now }
{
    match automaton {
        Some(automaton) => Some(automaton),
        None => None,
    }
}

fn strategy_of(
    alloc: Global,
    store: &mut Store,
    automata: &Automata,
    partition: Partition,
) -> Result<Strategy, ArenaFault>
    requires width { width partition ≡ store.old.props }
    requires ready { AreReady store.old automata.now.goal automata.now.keep automata.now.duty }
    ensures fits { IfOk result (λ made. FitsStrategy store.new made) }
    ensures partition { IfOk result (λ made. (plan_of store.new made).parts ≡ partition) }
{
    let keep = reference(&automata.keep);
    let duty = reference(&automata.duty);
    synthesise(alloc, store, &automata.goal, keep, duty, partition)
}

/// The text of the specification's strategy. Names or formulas that are refused fail the test.
pub fn text_of(alloc: Global, specification: &Specification) -> Result<Text, ArenaFault> {
    let mut names = names_of(alloc, specification.names)?;
    let width = names.len();
    if specification.inputs > width {
        return Err(ArenaFault::Memory);
    }
    let partition = Partition {
        first: specification.first,
        inputs: specification.inputs,
        outputs: width - specification.inputs,
    };
    let mut store = Store::new(alloc, width)?;
    let automata = automata_of(alloc, &mut store, &mut names, specification)?;
    if names.len() != width {
        return Err(ArenaFault::Memory);
    }
    let made = strategy_of(alloc, &mut store, &automata, partition)?;
    Ok(print_strategy(alloc, &store, &made, &names)?)
}
