//! The walk over a path.
ghost use Rattle.std.specs.Prelude.{◌≡◌, ℕ, ◌<◌, ◌-◌, List, length, IfOk, OnOk};
ghost use Rattle.forms.specs.Tree.{Formula, program, tree, Step, Test, Choice, Seq, Star};
ghost use Rattle.forms.specs.Proper.{IsPropositional, IsProper, IsProperProgram};
ghost use Rattle.diagrams.specs.Live.{Keeps, IsTruth};
ghost use Rattle.automata.specs.Table.{size_of, Fits, IsMeant};
ghost use Rattle.obligations.specs.declared.cells.Obligation.{Obligation};
ghost use Rattle.obligations.specs.Value.{IsClaim, FitsCells};
ghost use Rattle.path_programs.specs.PathTests.{test_count, HasTests};
ghost use Rattle.path_programs.specs.Growth.{HasGrown};
ghost use Rattle.path_programs.specs.Lead.{AreBodies, IsLead};

use crate::condition::condition;
use crate::lead::{Lead, either_of, in_turn};
use crate::made::{always, both, never};
use crate::rest::{again, rest};
use automata::{Automaton, Meant};
use bes_io::Memory;
use diagrams::{Id, Store};
use forms::{Form, Path};
use obligations::{Cells, find_inclusions, follow};
use std::alloc::Global;

/// Where a step leads.
fn step(store: &mut Store, form: &Form, later: Id) -> Result<Lead, Memory>
    requires propositional { IsPropositional (tree form.now) }
    requires proper { IsProper store.old.props (tree form.now) }
    requires later { IsTruth store.old later }
    ensures keeps { Keeps store.old store.new }
    ensures bodies { IfOk result (λ l. (count : ℕ) → IsClaim store.old count later → AreBodies store.new count l) }
    ensures lead { IfOk result (λ l. (from : ℕ) (c : List Obligation) → IsClaim store.old (length c) later
        → IsLead store.new from c (Step (tree form.now)) later l) }
{
    let now = condition(store, form)?;
    let further = both(store, now, later)?;
    let stays = never(store)?;
    Ok(Lead {
        further,
        stays,
        ends: false,
    })
}

/// Where a test leads whose formula an automaton stands for. Adds an obligation for each location.
fn test(
    alloc: Global,
    store: &mut Store,
    cells: &mut Cells,
    automaton: &Automaton,
) -> Result<Lead, Memory>
    requires fits { FitsCells store.old cells.old }
    requires automaton { Fits store.old automaton.now }
    ensures grown { HasGrown store.old cells.old store.new cells.new }
    ensures bodies { IfOk result (AreBodies store.new (length cells.new)) }
    ensures lead { IfOk result (λ l. (f : Formula) (later : Id) → IsProper store.old.props f
        → (automaton.now.first < size_of automaton.now → IsMeant store.old automaton.now f)
        → IsLead store.new (length cells.old) cells.new (Test f) later l) }
{
    let further = never(store)?;
    let wider = find_inclusions(alloc, store, automaton)?;
    let base = follow(alloc, store, cells, automaton, &wider)?;
    let first = automaton.first();
    prove!(first < cells.len() - base);
    Ok(Lead {
        further,
        stays: cells.body(base + first),
        ends: cells.ends(base + first),
    })
}

/// Where one of two paths leads.
#[cycle(walk)]
fn choice(
    alloc: Global,
    store: &mut Store,
    cells: &mut Cells,
    tests: &[Meant],
    untaken: &mut usize,
    p: &Path,
    q: &Path,
    later: Id,
) -> Result<Lead, Memory>
    requires proper { IsProperProgram store.old.props (Choice (program p.now) (program q.now)) }
    requires fits { FitsCells store.old cells.old }
    requires later { IsClaim store.old (length cells.old) later }
    requires tests { HasTests store.old tests.now untaken.old (Choice (program p.now) (program q.now)) }
    ensures grown { HasGrown store.old cells.old store.new cells.new }
    ensures untaken { OnOk result (untaken.new ≡ untaken.old - test_count (Choice (program p.now) (program q.now))) }
    ensures bodies { IfOk result (AreBodies store.new (length cells.new)) }
    ensures lead { IfOk result (IsLead store.new (length cells.old) cells.new (Choice (program p.now) (program q.now)) later) }
{
    let y = walk(alloc, store, cells, tests, untaken, q, later)?;
    let x = walk(alloc, store, cells, tests, untaken, p, later)?;
    either_of(store, x, y)
}

/// Where two paths lead one after the other.
#[cycle(walk)]
fn sequence(
    alloc: Global,
    store: &mut Store,
    cells: &mut Cells,
    tests: &[Meant],
    untaken: &mut usize,
    p: &Path,
    q: &Path,
    later: Id,
) -> Result<Lead, Memory>
    requires proper { IsProperProgram store.old.props (Seq (program p.now) (program q.now)) }
    requires fits { FitsCells store.old cells.old }
    requires later { IsClaim store.old (length cells.old) later }
    requires tests { HasTests store.old tests.now untaken.old (Seq (program p.now) (program q.now)) }
    ensures grown { HasGrown store.old cells.old store.new cells.new }
    ensures untaken { OnOk result (untaken.new ≡ untaken.old - test_count (Seq (program p.now) (program q.now))) }
    ensures bodies { IfOk result (AreBodies store.new (length cells.new)) }
    ensures lead { IfOk result (IsLead store.new (length cells.old) cells.new (Seq (program p.now) (program q.now)) later) }
{
    let y = walk(alloc, store, cells, tests, untaken, q, later)?;
    let next = rest(store, cells, y, later)?;
    let x = walk(alloc, store, cells, tests, untaken, p, next)?;
    in_turn(store, x, y)
}

/// Where any number of turns leads. The obligation of a further turn stands before those of the path.
#[cycle(walk)]
fn star(
    alloc: Global,
    store: &mut Store,
    cells: &mut Cells,
    tests: &[Meant],
    untaken: &mut usize,
    p: &Path,
    later: Id,
) -> Result<Lead, Memory>
    requires proper { IsProperProgram store.old.props (Star (program p.now)) }
    requires fits { FitsCells store.old cells.old }
    requires later { IsClaim store.old (length cells.old) later }
    requires tests { HasTests store.old tests.now untaken.old (Star (program p.now)) }
    ensures grown { HasGrown store.old cells.old store.new cells.new }
    ensures untaken { OnOk result (untaken.new ≡ untaken.old - test_count (Star (program p.now))) }
    ensures bodies { IfOk result (AreBodies store.new (length cells.new)) }
    ensures lead { IfOk result (IsLead store.new (length cells.old) cells.new (Star (program p.now)) later) }
{
    let turn = cells.len();
    let next = again(store, cells, later)?;
    let x = walk(alloc, store, cells, tests, untaken, p, next)?;
    let stays = always(store)?;
    // A turn that uses no letter is in `x.stays`: it leads nowhere new.
    cells.set(turn, x.further);
    Ok(Lead {
        further: x.further,
        stays,
        ends: true,
    })
}

/// Where a path leads. Of so many untaken tests the last ones are those of the path, and it takes them.
#[cycle(walk)]
pub(crate) fn walk(
    alloc: Global,
    store: &mut Store,
    cells: &mut Cells,
    tests: &[Meant],
    untaken: &mut usize,
    path: &Path,
    later: Id,
) -> Result<Lead, Memory>
    requires proper { IsProperProgram store.old.props (program path.now) }
    requires fits { FitsCells store.old cells.old }
    requires later { IsClaim store.old (length cells.old) later }
    requires tests { HasTests store.old tests.now untaken.old (program path.now) }
    ensures grown { HasGrown store.old cells.old store.new cells.new }
    ensures untaken { OnOk result (untaken.new ≡ untaken.old - test_count (program path.now)) }
    ensures bodies { IfOk result (AreBodies store.new (length cells.new)) }
    ensures lead { IfOk result (IsLead store.new (length cells.old) cells.new (program path.now) later) }
{
    match path {
        Path::Step(f) => step(store, f, later),
        Path::Test(_) => {
            *untaken -= 1;
            test(alloc, store, cells, &tests[*untaken].automaton)
        }
        Path::Choice(p, q) => choice(alloc, store, cells, tests, untaken, p, q, later),
        Path::Seq(p, q) => sequence(alloc, store, cells, tests, untaken, p, q, later),
        Path::Star(p) => star(alloc, store, cells, tests, untaken, p, later),
    }
}
