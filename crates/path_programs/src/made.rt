//! Diagrams made of others.
ghost use Rattle.std.specs.Prelude.{◌≤◌, ◌+◌, ◌^◌, ◌&&◌, ◌||◌, true, false, not, IfOk};
ghost use Rattle.forms.specs.Operators.{agree};
ghost use Rattle.diagrams.specs.Live.{Keeps, IsTruth};
ghost use Rattle.diagrams.specs.Eval.{is_one};
ghost use Rattle.path_programs.specs.Made.{IsOneWhere};

use bes_io::Memory;
use diagrams::{Id, Op, Store};

/// One where both are.
pub(crate) fn both(store: &mut Store, f: Id, g: Id) -> Result<Id, Memory>
    requires f { IsTruth store.old f }
    requires g { IsTruth store.old g }
    ensures keeps { Keeps store.old store.new }
    ensures id { IfOk result (λ id. IsOneWhere store.new id (λ a. is_one store.old f a && is_one store.old g a)) }
{
    store.combine(Op::And, f, g)
}

/// One where either is.
pub(crate) fn either(store: &mut Store, f: Id, g: Id) -> Result<Id, Memory>
    requires f { IsTruth store.old f }
    requires g { IsTruth store.old g }
    ensures keeps { Keeps store.old store.new }
    ensures id { IfOk result (λ id. IsOneWhere store.new id (λ a. is_one store.old f a || is_one store.old g a)) }
{
    store.combine(Op::Or, f, g)
}

/// One where both are or neither.
pub(crate) fn agreeing(store: &mut Store, f: Id, g: Id) -> Result<Id, Memory>
    requires f { IsTruth store.old f }
    requires g { IsTruth store.old g }
    ensures keeps { Keeps store.old store.new }
    ensures id { IfOk result (λ id. IsOneWhere store.new id (λ a. agree (is_one store.old f a) (is_one store.old g a))) }
{
    store.combine(Op::Iff, f, g)
}

/// One nowhere.
pub(crate) fn never(store: &mut Store) -> Result<Id, Memory>
    ensures keeps { Keeps store.old store.new }
    ensures id { IfOk result (λ id. IsOneWhere store.new id (λ _. false)) }
{
    store.terminal(0)
}

/// One everywhere.
pub(crate) fn always(store: &mut Store) -> Result<Id, Memory>
    ensures keeps { Keeps store.old store.new }
    ensures id { IfOk result (λ id. IsOneWhere store.new id (λ _. true)) }
{
    store.terminal(1)
}

/// One where another is not.
pub(crate) fn opposite(store: &mut Store, f: Id) -> Result<Id, Memory>
    requires { IsTruth store.old f }
    ensures keeps { Keeps store.old store.new }
    ensures id { IfOk result (λ id. IsOneWhere store.new id (λ a. not (is_one store.old f a))) }
{
    let zero = never(store)?;
    agreeing(store, f, zero)
}

/// One where a variable is true.
pub(crate) fn variable(store: &mut Store, var: u32) -> Result<Id, Memory>
    ensures keeps { Keeps store.old store.new }
    ensures id { IfOk result (λ id. IsOneWhere store.new id (λ a. a var)) }
{
    store.literal(var)
}

/// One where an obligation is asked of the next position.
pub(crate) fn literal(store: &mut Store, cell: u32) -> Result<Id, Memory>
    requires few { cell ≤ 2 ^ 31 }
    ensures keeps { Keeps store.old store.new }
    ensures id { IfOk result (λ id. IsOneWhere store.new id (λ a. a (store.new.props + cell))) }
{
    let props = store.props();
    variable(store, props + cell)
}
