//! The least automaton of a path program before a formula.
ghost use Rattle.std.specs.Prelude.{◌≡◌, ◌<◌, ℕ, IfOk, map, All};
ghost use Rattle.forms.specs.Tree.{tree, program};
ghost use Rattle.forms.specs.Paths.{reaches};
ghost use Rattle.forms.specs.Proper.{IsProperProgram};
ghost use Rattle.forms.specs.Satisfaction.{goes};
ghost use Rattle.diagrams.specs.Live.{Keeps};
ghost use Rattle.automata.specs.Table.{size_of, mark_of, Fits, moves_of};
ghost use Rattle.automata.specs.Numbering.{IsNumbered};
ghost use Rattle.minimise.specs.Minimal.{IsLeast};
ghost use Rattle.translate.specs.Exact.{accepted, IsLeastOf};
ghost use Rattle.translate.specs.Operation.{box_claim};
ghost use Rattle.path_programs.specs.PathTests.{test_forms};
ghost use Rattle.translate.specs.PathTests.{IsTest};

use crate::least::solved;
use crate::operands::{Asked, operand};
use crate::operators;
use automata::{Automaton, Meant};
use bes_io::Memory;
use diagrams::Store;
use forms::Path;
use obligations::Cells;
use path_programs::compile;
use std::alloc::Global;

/// The automaton of the words from which some way through the path leads to what the operand accepts. The tests are
/// those of the path from left to right, each with an automaton of its formula.
pub(crate) fn diamond(
    alloc: Global,
    store: &mut Store,
    path: &Path,
    tests: &[Meant],
    a: &Automaton,
) -> Result<Automaton, Memory>
    requires proper { IsProperProgram store.old.props (program path.now) }
    requires tests { map (λ t. tree t.form) tests.now ≡ test_forms (program path.now) }
    requires meant { All (IsTest store.old) tests.now }
    requires fits { Fits store.old a.now }
    ensures keeps { Keeps store.old store.new }
    ensures least { IfOk result (λ made.
        IsLeastOf store.new made (reaches (goes store.old.props (program path.now)) (accepted store.old a.now))) }
{
    let mut cells = Cells::new(alloc);
    let then = operand(alloc, store, &mut cells, a, Asked::WithInclusions)?;
    let leads = compile(alloc, store, path, then, tests, &mut cells)?;
    prove!(cells.len() <= 2147483647);
    let props = store.props();
    let start = store.literal(props + leads)?;
    solved(alloc, store, &cells, start)
}

/// The automaton of the words from which each way through the path leads to what the operand, a least automaton,
/// accepts: some way to what it doesn't accept is not to be.
pub(crate) fn box_all(
    alloc: Global,
    store: &mut Store,
    path: &Path,
    tests: &[Meant],
    a: &Automaton,
) -> Result<Automaton, Memory>
    requires proper { IsProperProgram store.old.props (program path.now) }
    requires tests { map (λ t. tree t.form) tests.now ≡ test_forms (program path.now) }
    requires meant { All (IsTest store.old) tests.now }
    requires fits { Fits store.old a.now }
    requires marks { (at : ℕ) → at < size_of a.now → mark_of a.now at < 2 }
    requires least { IsLeast store.old.props (moves_of store.old a.now) }
    requires numbered { IsNumbered store.old.props (moves_of store.old a.now) }
    ensures keeps { Keeps store.old store.new }
    ensures least { IfOk result (λ made.
        IsLeastOf store.new made (box_claim (goes store.old.props (program path.now)) (accepted store.old a.now))) }
{
    let other = operators::not(alloc, store, a)?;
    let some = diamond(alloc, store, path, tests, &other)?;
    operators::not(alloc, store, &some)
}
