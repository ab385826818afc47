//! The automata of a formula's parts, each translated and minimised before the part that holds it.
ghost use Rattle.std.specs.Prelude.{◌≡◌, ◌<◌, [], ◌∷◌, ◌++◌, IfOk, IfErr, OnOk, map, All};
ghost use Rattle.forms.specs.Tree.{Atom, tree, program};
ghost use Rattle.forms.specs.Proper.{IsProper, IsProperProgram};
ghost use Rattle.forms.specs.Parts as listed;
ghost use Rattle.diagrams.specs.Live.{Keeps, IsCanonical};
ghost use Rattle.translate.specs.Exact.{IsLeastMeant};
ghost use Rattle.translate.specs.Operation.{constant_form, unary_form, binary_form, modal_form};
ghost use Rattle.translate.specs.Counting.{IfTooMany};
ghost use Rattle.translate.specs.Tally.{AddsCounts, AddsPartCounts, StopsAt, StopsAtPart};
ghost use Rattle.path_programs.specs.PathTests.{test_forms};
ghost use Rattle.translate.specs.PathTests.{IsTest, IsAppended};

use crate::counts::Counts;
use crate::fault::TranslateFault;
use crate::operation::{Binary, Modal, Unary};
use crate::operators;
use automata::{Automaton, Meant};
use bes_io::Memory;
use diagrams::Store;
use forms::{Form, Path, copy};
use std::alloc::Global;

/// The least automaton of a formula, with the counts of its parts appended. Goes one level deeper for each level of
/// the tree.
#[cycle(part)]
pub(crate) fn part(
    alloc: Global,
    store: &mut Store,
    form: &Form,
    limit: u32,
    counts: &mut Counts,
) -> Result<Automaton, TranslateFault>
    requires canonical { IsCanonical store.old }
    requires proper { IsProper store.old.props (tree form.now) }
    ensures keeps { Keeps store.old store.new }
    ensures least { IfOk result (λ made. IsLeastMeant store.new made (tree form.now)) }
    ensures counts { OnOk result (AddsPartCounts store.old.props limit (tree form.now) counts.old counts.new) }
    ensures too_many { IfErr result (StopsAtPart store.old.props limit (tree form.now) counts.old) }
{
    match form {
        Form::True => constant(alloc, store, true, limit, counts),
        Form::False => constant(alloc, store, false, limit, counts),
        Form::Atom(i) => atom(alloc, store, *i, limit, counts),
        Form::Not(f) => unary(alloc, store, Unary::Not, f, limit, counts),
        Form::And(f, g) => binary(alloc, store, Binary::And, f, g, limit, counts),
        Form::Or(f, g) => binary(alloc, store, Binary::Or, f, g, limit, counts),
        Form::Implies(f, g) => binary(alloc, store, Binary::Implies, f, g, limit, counts),
        Form::Iff(f, g) => binary(alloc, store, Binary::Iff, f, g, limit, counts),
        Form::Next(f) => unary(alloc, store, Unary::Next, f, limit, counts),
        Form::WeakNext(f) => unary(alloc, store, Unary::WeakNext, f, limit, counts),
        Form::Until(f, g) => binary(alloc, store, Binary::Until, f, g, limit, counts),
        Form::Release(f, g) => binary(alloc, store, Binary::Release, f, g, limit, counts),
        Form::Eventually(f) => unary(alloc, store, Unary::Eventually, f, limit, counts),
        Form::Always(f) => unary(alloc, store, Unary::Always, f, limit, counts),
        Form::Diamond(p, f) => modal(alloc, store, Modal::Diamond, p, f, limit, counts),
        Form::BoxAll(p, f) => modal(alloc, store, Modal::BoxAll, p, f, limit, counts),
    }
}

/// The least automaton of `true` or `false`, with its count appended.
fn constant(
    alloc: Global,
    store: &mut Store,
    value: bool,
    limit: u32,
    counts: &mut Counts,
) -> Result<Automaton, TranslateFault>
    ensures keeps { Keeps store.old store.new }
    ensures least { IfOk result (λ made. IsLeastMeant store.new made (constant_form value)) }
    ensures counts { OnOk result (AddsCounts store.old.props limit (constant_form value ∷ []) counts.old counts.new) }
    ensures too_many { IfErr result (λ fault.
        IfTooMany fault (StopsAt store.old.props limit (constant_form value ∷ []) counts.old)) }
{
    let made = operators::constant(alloc, store, value)?;
    counts.add(made.size(), limit)?;
    Ok(made)
}

/// The least automaton of a proposition, with its count appended.
fn atom(
    alloc: Global,
    store: &mut Store,
    i: u32,
    limit: u32,
    counts: &mut Counts,
) -> Result<Automaton, TranslateFault>
    requires { i < store.old.props }
    ensures keeps { Keeps store.old store.new }
    ensures least { IfOk result (λ made. IsLeastMeant store.new made (Atom i)) }
    ensures counts { OnOk result (AddsCounts store.old.props limit (Atom i ∷ []) counts.old counts.new) }
    ensures too_many { IfErr result (λ fault. IfTooMany fault (StopsAt store.old.props limit (Atom i ∷ []) counts.old)) }
{
    let made = operators::atom(alloc, store, i)?;
    counts.add(made.size(), limit)?;
    Ok(made)
}

/// The least automaton of an operator of one formula, with the counts of its parts appended.
#[cycle(part)]
fn unary(
    alloc: Global,
    store: &mut Store,
    op: Unary,
    f: &Form,
    limit: u32,
    counts: &mut Counts,
) -> Result<Automaton, TranslateFault>
    requires canonical { IsCanonical store.old }
    requires proper { IsProper store.old.props (tree f.now) }
    ensures keeps { Keeps store.old store.new }
    ensures least { IfOk result (λ made. IsLeastMeant store.new made (unary_form op (tree f.now))) }
    ensures counts { OnOk result (AddsPartCounts store.old.props limit (unary_form op (tree f.now)) counts.old counts.new) }
    ensures too_many { IfErr result (StopsAtPart store.old.props limit (unary_form op (tree f.now)) counts.old) }
{
    let a = part(alloc, store, f, limit, counts)?;
    let made = op.apply(alloc, store, &a)?;
    counts.add(made.size(), limit)?;
    Ok(made)
}

/// The least automaton of an operator of two formulas, with the counts of its parts appended.
#[cycle(part)]
fn binary(
    alloc: Global,
    store: &mut Store,
    op: Binary,
    f: &Form,
    g: &Form,
    limit: u32,
    counts: &mut Counts,
) -> Result<Automaton, TranslateFault>
    requires canonical { IsCanonical store.old }
    requires f { IsProper store.old.props (tree f.now) }
    requires g { IsProper store.old.props (tree g.now) }
    ensures keeps { Keeps store.old store.new }
    ensures least { IfOk result (λ made. IsLeastMeant store.new made (binary_form op (tree f.now) (tree g.now))) }
    ensures counts { OnOk result
        (AddsPartCounts store.old.props limit (binary_form op (tree f.now) (tree g.now)) counts.old counts.new) }
    ensures too_many { IfErr result
        (StopsAtPart store.old.props limit (binary_form op (tree f.now) (tree g.now)) counts.old) }
{
    let left = part(alloc, store, f, limit, counts)?;
    let right = part(alloc, store, g, limit, counts)?;
    let made = op.apply(alloc, store, &left, &right)?;
    counts.add(made.size(), limit)?;
    Ok(made)
}

/// The least automaton of an operator of a path and a formula, with the counts of its parts appended.
#[cycle(part)]
fn modal(
    alloc: Global,
    store: &mut Store,
    op: Modal,
    path: &Path,
    f: &Form,
    limit: u32,
    counts: &mut Counts,
) -> Result<Automaton, TranslateFault>
    requires canonical { IsCanonical store.old }
    requires path { IsProperProgram store.old.props (program path.now) }
    requires f { IsProper store.old.props (tree f.now) }
    ensures keeps { Keeps store.old store.new }
    ensures least { IfOk result (λ made. IsLeastMeant store.new made (modal_form op (program path.now) (tree f.now))) }
    ensures counts { OnOk result
        (AddsPartCounts store.old.props limit (modal_form op (program path.now) (tree f.now)) counts.old counts.new) }
    ensures too_many { IfErr result
        (StopsAtPart store.old.props limit (modal_form op (program path.now) (tree f.now)) counts.old) }
{
    let mut tests = Vec::new(alloc);
    add_tests(alloc, store, path, limit, counts, &mut tests)?;
    let a = part(alloc, store, f, limit, counts)?;
    let made = op.apply(alloc, store, path, tests.as_slice(), &a)?;
    counts.add(made.size(), limit)?;
    Ok(made)
}

/// Appends the automaton, with a copy of its formula.
fn add_test(
    alloc: Global,
    automaton: Automaton,
    form: &Form,
    tests: &mut Vec<Meant>,
) -> Result<(), Memory>
    ensures { OnOk result (IsAppended (tree form.now) automaton tests.old.items tests.new.items) }
{
    let form = copy(alloc, form)?;
    tests.push(Meant { automaton, form })?;
    Ok(())
}

/// Appends the least automata of the tests of a path from left to right, each with its formula, and the counts of the
/// tests' parts.
#[cycle(part)]
fn add_tests(
    alloc: Global,
    store: &mut Store,
    path: &Path,
    limit: u32,
    counts: &mut Counts,
    tests: &mut Vec<Meant>,
) -> Result<(), TranslateFault>
    requires canonical { IsCanonical store.old }
    requires proper { IsProperProgram store.old.props (program path.now) }
    ensures keeps { Keeps store.old store.new }
    ensures tests { OnOk result (
        map (λ t. tree t.form) tests.new.items ≡ map (λ t. tree t.form) tests.old.items ++ test_forms (program path.now)) }
    ensures meant { All (IsTest store.old) tests.old.items → OnOk result (All (IsTest store.new) tests.new.items) }
    ensures counts { OnOk result (AddsCounts store.old.props limit (listed.test_parts (program path.now)) counts.old counts.new) }
    ensures too_many { IfErr result (λ fault.
        IfTooMany fault (StopsAt store.old.props limit (listed.test_parts (program path.now)) counts.old)) }
{
    match path {
        Path::Step(_) => Ok(()),
        Path::Test(f) => {
            let automaton = part(alloc, store, f, limit, counts)?;
            add_test(alloc, automaton, f, tests)?;
            Ok(())
        }
        Path::Choice(p, q) => {
            add_tests(alloc, store, p, limit, counts, tests)?;
            add_tests(alloc, store, q, limit, counts, tests)
        }
        Path::Seq(p, q) => {
            add_tests(alloc, store, p, limit, counts, tests)?;
            add_tests(alloc, store, q, limit, counts, tests)
        }
        Path::Star(p) => add_tests(alloc, store, p, limit, counts, tests),
    }
}
