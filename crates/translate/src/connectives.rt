//! Connectives of automata that come with their formulas.
ghost use Rattle.std.specs.Prelude.{◌≡◌, ◌&&◌, ◌||◌, not, IfOk};
ghost use Rattle.diagrams.specs.Live.{Keeps};
ghost use Rattle.automata.specs.Table.{IsMeant};
ghost use Rattle.forms.specs.Tree.{tree, And, Or, Not};
ghost use Rattle.translate.specs.Exact.{accepted, IsLeastOf};

use crate::least::{flipped, least_of};
use crate::operators;
use automata::Meant;
use bes_io::Memory;
use diagrams::Store;
use forms::{Form, copy};
use std::alloc::Global;

/// The formula, in a box of its own.
fn boxed(alloc: Global, of: &Meant) -> Result<Box<Form>, Memory>
    ensures { IfOk result (λ made. tree made.value ≡ tree of.now.form) }
{
    Ok(Box::new(alloc, copy(alloc, &of.form)?)?)
}

/// The least automaton of what both accept, with the conjunction of their formulas.
pub fn both(alloc: Global, store: &mut Store, a: &Meant, b: &Meant) -> Result<Meant, Memory>
    requires a { IsMeant store.old a.now.automaton (tree a.now.form) }
    requires b { IsMeant store.old b.now.automaton (tree b.now.form) }
    ensures keeps { Keeps store.old store.new }
    ensures form { IfOk result (λ made. tree made.form ≡ And (tree a.now.form) (tree b.now.form)) }
    ensures least { IfOk result (λ made. IsLeastOf store.new made.automaton
        (λ w. accepted store.old a.now.automaton w && accepted store.old b.now.automaton w)) }
    ensures meant { IfOk result (λ made. IsMeant store.new made.automaton (tree made.form)) }
{
    let automaton = operators::and(alloc, store, &a.automaton, &b.automaton)?;
    let first = boxed(alloc, a)?;
    let second = boxed(alloc, b)?;
    Ok(Meant {
        automaton,
        form: Form::And(first, second),
    })
}

/// The least automaton of what one of two accepts, with the disjunction of their formulas.
pub fn either(alloc: Global, store: &mut Store, a: &Meant, b: &Meant) -> Result<Meant, Memory>
    requires a { IsMeant store.old a.now.automaton (tree a.now.form) }
    requires b { IsMeant store.old b.now.automaton (tree b.now.form) }
    ensures keeps { Keeps store.old store.new }
    ensures form { IfOk result (λ made. tree made.form ≡ Or (tree a.now.form) (tree b.now.form)) }
    ensures least { IfOk result (λ made. IsLeastOf store.new made.automaton
        (λ w. accepted store.old a.now.automaton w || accepted store.old b.now.automaton w)) }
    ensures meant { IfOk result (λ made. IsMeant store.new made.automaton (tree made.form)) }
{
    let automaton = operators::or(alloc, store, &a.automaton, &b.automaton)?;
    let first = boxed(alloc, a)?;
    let second = boxed(alloc, b)?;
    Ok(Meant {
        automaton,
        form: Form::Or(first, second),
    })
}

/// The least automaton of what another does not accept, with the negation of its formula.
pub fn negate(alloc: Global, store: &mut Store, a: &Meant) -> Result<Meant, Memory>
    requires a { IsMeant store.old a.now.automaton (tree a.now.form) }
    ensures keeps { Keeps store.old store.new }
    ensures form { IfOk result (λ made. tree made.form ≡ Not (tree a.now.form)) }
    ensures least { IfOk result (λ made. IsLeastOf store.new made.automaton (λ w. not (accepted store.old a.now.automaton w))) }
    ensures meant { IfOk result (λ made. IsMeant store.new made.automaton (tree made.form)) }
{
    prove!(a.automaton.first() < a.automaton.size());
    prove!(store.props() <= 32);
    let other = flipped(alloc, &a.automaton)?;
    let automaton = least_of(alloc, store, other)?;
    Ok(Meant {
        automaton,
        form: Form::Not(boxed(alloc, a)?),
    })
}
