//! Arenas of small specifications.
ghost use Rattle.std.specs.Prelude.{◌≡◌, ◌<◌, ◌+◌, ℕ, length, IfOk};
ghost use Rattle.forms.specs.Tree.{tree};
ghost use Rattle.forms.specs.Proper.{IsProper};
ghost use Rattle.diagrams.specs.Live.{Keeps};
ghost use Rattle.automata.specs.Table.{size_of, mark_of, Fits};
ghost use Rattle.arena.specs.Building.{FitsWhere};
ghost use Rattle.tests_of_solving.specs.Ready.{IsReady};

use crate::games::Game;
use arena::{Arena, build};
use automata::Automaton;
use bes_io::Memory;
use diagrams::Store;
use form_reader::read_form;
use form_tokens::{Dialect, Names};
use forms::{Form, Mover, Partition};
use std::alloc::Global;
use std::test::Fail;
use translate::translate;

const INPUTS: [&str; 2] = ["r", "s"];

const OUTPUTS: [&str; 2] = ["g", "h"];

// So many of the names.
fn add_names(names: &mut Names, list: &[&str], count: u32) -> Result<(), Fail> {
    for (i, name) in list.iter().enumerate() {
        if i < count as usize {
            names.add(name.as_bytes())?;
        }
    }
    Ok(())
}

// The names of the propositions, the first mover's first.
fn names_of(alloc: Global, game: &Game) -> Result<Names, Fail> {
    let mut names = Names::new(alloc)?;
    match game.first {
        Mover::Agent => {
            add_names(&mut names, &OUTPUTS, game.outputs)?;
            add_names(&mut names, &INPUTS, game.inputs)?;
        }
        Mover::Environment => {
            add_names(&mut names, &INPUTS, game.inputs)?;
            add_names(&mut names, &OUTPUTS, game.outputs)?;
        }
    }
    Ok(names)
}

// The formula of a text over so many propositions. A name that isn't among them fails the test.
fn form_of(alloc: Global, game: &Game, text: &str, props: u32) -> Result<Form, Fail>
    ensures proper { IfOk result (λ form. IsProper props (tree form)) }
{
    let mut names = names_of(alloc, game)?;
    let form = read_form(alloc, Dialect::Ltlf, text.as_bytes(), &mut names)?;
    if names.len() != props {
        return Err(Memory.into());
    }
    Ok(form)
}

// The automaton of a formula.
fn automaton_of(
    alloc: Global,
    store: &mut Store,
    game: &Game,
    text: &str,
) -> Result<Automaton, Fail>
    ensures keeps { Keeps store.old store.new }
    ensures fits { IfOk result (Fits store.new) }
    ensures marks { IfOk result (λ made. (at : ℕ) → at < size_of made → mark_of made at < 2) }
{
    let form = form_of(alloc, game, text, store.props())?;
    let made = translate(alloc, store, &form, false, 1024)?;
    Ok(made.whole)
}

// The automaton of a formula, where there is one.
fn automaton_where(
    alloc: Global,
    store: &mut Store,
    game: &Game,
    text: Option<&'static str>,
) -> Result<Option<Automaton>, Fail>
    ensures keeps { Keeps store.old store.new }
    ensures fits { IfOk result (FitsWhere store.new) }
{
    prove!(store.props() <= 32);
    match text {
        Some(text) => Ok(Some(automaton_of(alloc, store, game, text)?)),
        None => Ok(None),
    }
}

/// The number of propositions.
pub(crate) fn props_of(game: &Game) -> Result<u32, Memory>
    ensures few { IfOk result (λ props. props < 32) }
    ensures sum { IfOk result (λ props. props ≡ game.now.inputs + game.now.outputs) }
{
    if game.inputs > 8 || game.outputs > 8 {
        return Err(Memory);
    }
    Ok(game.inputs + game.outputs)
}

/// The arena of a specification. One whose assumption can't be kept fails the test.
pub(crate) fn arena_of(alloc: Global, store: &mut Store, game: &Game) -> Result<Arena, Fail>
    requires props { store.old.props ≡ game.now.inputs + game.now.outputs }
    ensures keeps { Keeps store.old store.new }
    ensures ready { IfOk result (IsReady store.new) }
{
    let keep = automaton_where(alloc, store, game, game.assume)?;
    let duty = automaton_where(alloc, store, game, game.duty)?;
    let goal = automaton_of(alloc, store, game, game.goal)?;
    let partition = Partition {
        first: game.first,
        inputs: game.inputs,
        outputs: game.outputs,
    };
    Ok(build(alloc, store, &goal, keep.as_ref(), duty.as_ref(), partition)?)
}
