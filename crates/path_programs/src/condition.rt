//! The letters before which a propositional formula holds.
ghost use Rattle.std.specs.Prelude.{IfOk};
ghost use Rattle.forms.specs.Proper.{IsPropositional};
ghost use Rattle.forms.specs.Tree.{tree};
ghost use Rattle.diagrams.specs.Live.{Keeps};
ghost use Rattle.path_programs.specs.Made.{IsOneWhere, truth_of};

use crate::made::{agreeing, always, both, either, never, opposite, variable};
use bes_io::Memory;
use diagrams::{Id, Store};
use forms::Form;

/// One where the formula is true of the propositions.
pub(crate) fn condition(store: &mut Store, form: &Form) -> Result<Id, Memory>
    requires { IsPropositional (tree form.now) }
    ensures keeps { Keeps store.old store.new }
    ensures id { IfOk result (λ id. IsOneWhere store.new id (truth_of (tree form.now))) }
{
    match form {
        Form::True => always(store),
        Form::False => never(store),
        Form::Atom(i) => variable(store, *i),
        Form::Not(f) => {
            let f = condition(store, f)?;
            opposite(store, f)
        }
        Form::And(f, g) => {
            let f = condition(store, f)?;
            let g = condition(store, g)?;
            both(store, f, g)
        }
        Form::Or(f, g) => {
            let f = condition(store, f)?;
            let g = condition(store, g)?;
            either(store, f, g)
        }
        Form::Implies(f, g) => {
            let f = condition(store, f)?;
            let not_f = opposite(store, f)?;
            let g = condition(store, g)?;
            either(store, not_f, g)
        }
        Form::Iff(f, g) => {
            let f = condition(store, f)?;
            let g = condition(store, g)?;
            agreeing(store, f, g)
        }
        _ => unreachable!(),
    }
}
