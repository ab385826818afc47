//! The obligation of a path.
ghost use Rattle.std.specs.Prelude.{◌≡◌, ℕ, ◌<◌, All, map, List, length, IfOk};
ghost use Rattle.forms.specs.Paths.{reaches};
ghost use Rattle.forms.specs.Proper.{IsProperProgram};
ghost use Rattle.forms.specs.Satisfaction.{goes};
ghost use Rattle.forms.specs.Tree.{tree, program};
ghost use Rattle.diagrams.specs.Live.{Keeps};
ghost use Rattle.automata.specs.Table.{IsMeant};
ghost use Rattle.obligations.specs.Value.{cell, FitsCells};
ghost use Rattle.obligations.specs.Followed.{GoesOn};
ghost use Rattle.path_programs.specs.PathTests.{test_forms};

use crate::made::{both, either, literal};
use crate::walk::walk;
use automata::Meant;
use bes_io::Memory;
use diagrams::Store;
use forms::Path;
use obligations::Cells;
use std::alloc::Global;

/// An obligation that holds on a word exactly where the path leads from it to a suffix on which the obligation `then`
/// holds. The tests are those of the path from left to right, each with an automaton for its formula. Goes one level
/// deeper for each level of the path.
pub fn compile(
    alloc: Global,
    store: &mut Store,
    path: &Path,
    then: u32,
    tests: &[Meant],
    cells: &mut Cells,
) -> Result<u32, Memory>
    requires proper { IsProperProgram store.old.props (program path.now) }
    requires fits { FitsCells store.old cells.old }
    requires then { then < length cells.old }
    requires tests { map (λ t. tree t.form) tests.now ≡ test_forms (program path.now) }
    requires meant { All (λ t. IsMeant store.old t.automaton (tree t.form)) tests.now }
    ensures keeps { Keeps store.old store.new }
    ensures fits { FitsCells store.new cells.new }
    ensures grows { GoesOn cells.old cells.new }
    ensures earlier { (word : List ℕ) (j : ℕ) → j < length cells.old
        → cell store.new cells.new word j ≡ cell store.old cells.old word j }
    ensures number { IfOk result (λ j. j < length cells.new) }
    ensures leads { IfOk result (λ j. (word : List ℕ) → cell store.new cells.new word j
        ≡ reaches (λ u v. goes store.old.props (program path.now) u v) (λ v. cell store.new cells.new v then) word) }
{
    prove!(then < cells.len());
    let mut untaken = tests.len();
    let later = literal(store, then)?;
    let lead = walk(alloc, store, cells, tests, &mut untaken, path, later)?;
    let here = both(store, lead.stays, cells.body(then))?;
    let body = either(store, lead.further, here)?;
    let ends = lead.ends && cells.ends(then);
    cells.add(ends, body)
}
