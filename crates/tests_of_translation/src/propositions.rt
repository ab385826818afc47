//! Automata of small formulas, made by hand.
ghost use Rattle.std.specs.Prelude.{◌≡◌, ◌<◌, IfOk};
ghost use Rattle.forms.specs.Tree.{tree, True, Atom};
ghost use Rattle.diagrams.specs.Live.{Keeps};
ghost use Rattle.automata.specs.Table.{size_of, IsMeant};

use crate::tables::{A, B};
use automata::{Automaton, Meant};
use bes_io::Memory;
use diagrams::Store;
use forms::Form;
use std::alloc::Global;

/// A proposition, with the automaton that goes by the first letter to a location that accepts or to one that doesn't.
pub(crate) fn proposition(alloc: Global, store: &mut Store, i: u32) -> Result<Meant, Memory>
    requires { i < store.old.props }
    ensures keeps { Keeps store.old store.new }
    ensures form { IfOk result (λ made. tree made.form ≡ Atom i) }
    ensures meant { IfOk result (λ made. IsMeant store.new made.automaton (Atom i)) }
    ensures first { IfOk result (λ made. made.automaton.first < size_of made.automaton) }
{
    let one = store.terminal(1)?;
    let two = store.terminal(2)?;
    let row = store.node(i, two, one)?;
    let marks = Vec::from_array(alloc, [0, 1, 0])?;
    let rows = Vec::from_array(alloc, [row, one, two])?;
    Ok(Meant {
        automaton: Automaton::new(0, marks, rows),
        form: Form::Atom(i),
    })
}

/// The formula that is always true, with the automaton of one location that accepts.
pub(crate) fn truth(alloc: Global, store: &mut Store) -> Result<Meant, Memory>
    ensures keeps { Keeps store.old store.new }
    ensures form { IfOk result (λ made. tree made.form ≡ True) }
    ensures meant { IfOk result (λ made. IsMeant store.new made.automaton True) }
    ensures first { IfOk result (λ made. made.automaton.first < size_of made.automaton) }
{
    let zero = store.terminal(0)?;
    let marks = Vec::from_array(alloc, [1])?;
    let rows = Vec::from_array(alloc, [zero])?;
    Ok(Meant {
        automaton: Automaton::new(0, marks, rows),
        form: Form::True,
    })
}

/// Both propositions of a store.
pub(crate) fn a_and_b(alloc: Global, store: &mut Store) -> Result<(Meant, Meant), Memory>
    requires { store.old.props ≡ 2 }
    ensures keeps { Keeps store.old store.new }
    ensures a { IfOk result (λ made. IsMeant store.new made.0.automaton (tree made.0.form)) }
    ensures b { IfOk result (λ made. IsMeant store.new made.1.automaton (tree made.1.form)) }
{
    let a = proposition(alloc, store, A)?;
    let b = proposition(alloc, store, B)?;
    Ok((a, b))
}
