//! The automata of a specification's formulas.
ghost use Rattle.std.specs.Prelude.{◌≡◌, IfOk, OnOk, IfErr, false};
ghost use Rattle.std.specs.Option.{IfSome, option_map};
ghost use Rattle.forms.specs.Tree.{tree};
ghost use Rattle.forms.specs.Proper.{IsProper};
ghost use Rattle.forms.specs.Equivalence.{HasClassCount};
ghost use Rattle.diagrams.specs.Live.{Keeps};
ghost use Rattle.automata.specs.Table.{size_of};
ghost use Rattle.translate.specs.Counting.{whole_claim, IsFirstOver};
ghost use Rattle.synthesis.specs.Formulas.{asked, AreProper, IsFormulaWithin, IsWithinWhere, AreWithin, IsFirstOverWhere, IsOver, IsOverIn, IsAutomatonOf, IsAutomatonWhere, AreAutomataOf, IsCountedWhere, AreCounted};

use crate::fault::{Role, SynthesisFault, fault_at};
use automata::Automaton;
use diagrams::Store;
use forms::Form;
use std::alloc::Global;
use translate::translate;

/// What a specification asks for: what is assumed, the goal, whether the empty history may meet it, and the duty.
#[derive(Clone, Copy)]
pub struct Formulas<'a> {
    pub assume: &'a Option<Form>,
    pub goal: &'a Form,
    pub empty: bool,
    pub duty: &'a Option<Form>,
}

/// The automata of what is assumed, of the goal and of the duty.
#[derive(Drop)]
pub(crate) struct Automata {
    pub(crate) keep: Option<Automaton>,
    pub(crate) goal: Automaton,
    pub(crate) duty: Option<Automaton>,
}

/// The automaton of a formula.
fn automaton_of(
    alloc: Global,
    store: &mut Store,
    form: &Form,
    empty: bool,
    limit: u32,
    role: Role,
) -> Result<Automaton, SynthesisFault>
    requires { IsProper store.old.props (tree form.now) }
    ensures keeps { Keeps store.old store.new }
    ensures automaton { IfOk result (λ made. IsAutomatonOf store.new made (whole_claim store.old.props (tree form.now) empty)) }
    ensures count { IfOk result (λ made. HasClassCount store.old.props (whole_claim store.old.props (tree form.now) empty) (size_of made)) }
    ensures within { OnOk result (IsFormulaWithin store.old.props limit (tree form.now) empty) }
    ensures over { IfErr result (λ fault. IsOver role (IsFirstOver store.old.props (tree form.now) empty limit) fault) }
{
    match translate(alloc, store, form, empty, limit) {
        Ok(made) => Ok(made.whole),
        Err(fault) => Err(fault_at(role, fault)),
    }
}

/// The automaton of a formula, where there is one.
fn automaton_where(
    alloc: Global,
    store: &mut Store,
    form: &Option<Form>,
    limit: u32,
    role: Role,
) -> Result<Option<Automaton>, SynthesisFault>
    requires { IfSome (option_map tree form.now) (IsProper store.old.props) }
    ensures keeps { Keeps store.old store.new }
    ensures automaton { IfOk result (λ made. IsAutomatonWhere store.new store.old.props (option_map tree form.now) made) }
    ensures count { IfOk result (λ made. IsCountedWhere store.old.props (option_map tree form.now) made) }
    ensures within { OnOk result (IsWithinWhere store.old.props limit (option_map tree form.now)) }
    ensures over { IfErr result (λ fault. IsOver role (IsFirstOverWhere store.old.props limit (option_map tree form.now)) fault) }
{
    prove!(store.props() <= 32);
    match form {
        None => Ok(None),
        Some(form) => Ok(Some(automaton_of(alloc, store, form, false, limit, role)?)),
    }
}

/// The automata of the formulas, or the first of them that is over the limit: first what is assumed, then the goal, then the
/// duty.
pub(crate) fn automata_of(
    alloc: Global,
    store: &mut Store,
    formulas: &Formulas<'_>,
    limit: u32,
) -> Result<Automata, SynthesisFault>
    requires { AreProper store.old.props (asked formulas.now) }
    ensures keeps { Keeps store.old store.new }
    ensures automata { IfOk result (λ made. AreAutomataOf store.new store.old.props (asked formulas.now) made) }
    ensures counts { IfOk result (λ made. AreCounted store.old.props (asked formulas.now) made) }
    ensures within { OnOk result (AreWithin store.old.props limit (asked formulas.now)) }
    ensures over { IfErr result (λ fault. IsOverIn store.old.props limit (asked formulas.now) fault) }
{
    let keep = automaton_where(alloc, store, formulas.assume, limit, Role::Assumption)?;
    let goal = automaton_of(
        alloc,
        store,
        formulas.goal,
        formulas.empty,
        limit,
        Role::Goal,
    )?;
    let duty = automaton_where(alloc, store, formulas.duty, limit, Role::Duty)?;
    Ok(Automata { keep, goal, duty })
}
