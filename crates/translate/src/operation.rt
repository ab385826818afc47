//! The operators of formulas, by how many operands they have.
ghost use Rattle.std.specs.Prelude.{◌≡◌, ◌<◌, ℕ, IfOk, map, All};
ghost use Rattle.forms.specs.Tree.{tree, program};
ghost use Rattle.forms.specs.Proper.{IsProperProgram};
ghost use Rattle.forms.specs.Satisfaction.{goes};
ghost use Rattle.diagrams.specs.Live.{Keeps};
ghost use Rattle.automata.specs.Table.{size_of, mark_of, Fits, moves_of};
ghost use Rattle.automata.specs.Numbering.{IsNumbered};
ghost use Rattle.minimise.specs.Minimal.{IsLeast};
ghost use Rattle.translate.specs.Exact.{accepted, IsLeastOf};
ghost use Rattle.translate.specs.Operation.{unary_claim, binary_claim, modal_claim};
ghost use Rattle.path_programs.specs.PathTests.{test_forms};
ghost use Rattle.translate.specs.PathTests.{IsTest};

use crate::{operators, programs};
use automata::{Automaton, Meant};
use bes_io::Memory;
use diagrams::Store;
use forms::Path;
use std::alloc::Global;

/// An operator of one formula.
#[derive(Clone, Copy)]
pub(crate) enum Unary {
    Not,
    Next,
    WeakNext,
    Eventually,
    Always,
}

impl Unary {
    /// The least automaton of the operator over what the least automaton of its operand accepts.
    pub(crate) fn apply(
        self,
        alloc: Global,
        store: &mut Store,
        a: &Automaton,
    ) -> Result<Automaton, Memory>
        requires fits { Fits store.old a.now }
        requires marks { (at : ℕ) → at < size_of a.now → mark_of a.now at < 2 }
        requires least { IsLeast store.old.props (moves_of store.old a.now) }
        requires numbered { IsNumbered store.old.props (moves_of store.old a.now) }
        ensures keeps { Keeps store.old store.new }
        ensures least { IfOk result (λ made. IsLeastOf store.new made (unary_claim self (accepted store.old a.now))) }
    {
        match self {
            Unary::Not => operators::not(alloc, store, a),
            Unary::Next => operators::next(alloc, store, a),
            Unary::WeakNext => operators::weak_next(alloc, store, a),
            Unary::Eventually => operators::eventually(alloc, store, a),
            Unary::Always => operators::always(alloc, store, a),
        }
    }
}

/// An operator of two formulas.
#[derive(Clone, Copy)]
pub(crate) enum Binary {
    And,
    Or,
    Implies,
    Iff,
    Until,
    Release,
}

impl Binary {
    /// The least automaton of the operator over what its operands' automata accept.
    pub(crate) fn apply(
        self,
        alloc: Global,
        store: &mut Store,
        a: &Automaton,
        b: &Automaton,
    ) -> Result<Automaton, Memory>
        requires a { Fits store.old a.now }
        requires b { Fits store.old b.now }
        ensures keeps { Keeps store.old store.new }
        ensures least { IfOk result (λ made.
            IsLeastOf store.new made (binary_claim self (accepted store.old a.now) (accepted store.old b.now))) }
    {
        match self {
            Binary::And => operators::and(alloc, store, a, b),
            Binary::Or => operators::or(alloc, store, a, b),
            Binary::Implies => operators::implies(alloc, store, a, b),
            Binary::Iff => operators::iff(alloc, store, a, b),
            Binary::Until => operators::until(alloc, store, a, b),
            Binary::Release => operators::release(alloc, store, a, b),
        }
    }
}

/// An operator of a path and a formula.
#[derive(Clone, Copy)]
pub(crate) enum Modal {
    Diamond,
    BoxAll,
}

impl Modal {
    /// The least automaton of the operator over the path and what the least automaton of the formula accepts.
    pub(crate) fn apply(
        self,
        alloc: Global,
        store: &mut Store,
        path: &Path,
        tests: &[Meant],
        a: &Automaton,
    ) -> Result<Automaton, Memory>
        requires proper { IsProperProgram store.old.props (program path.now) }
        requires tests { map (λ t. tree t.form) tests.now ≡ test_forms (program path.now) }
        requires meant { All (IsTest store.old) tests.now }
        requires fits { Fits store.old a.now }
        requires marks { (at : ℕ) → at < size_of a.now → mark_of a.now at < 2 }
        requires least { IsLeast store.old.props (moves_of store.old a.now) }
        requires numbered { IsNumbered store.old.props (moves_of store.old a.now) }
        ensures keeps { Keeps store.old store.new }
        ensures least { IfOk result (λ made.
            IsLeastOf store.new made (modal_claim self (goes store.old.props (program path.now)) (accepted store.old a.now))) }
    {
        match self {
            Modal::Diamond => programs::diamond(alloc, store, path, tests, a),
            Modal::BoxAll => programs::box_all(alloc, store, path, tests, a),
        }
    }
}
