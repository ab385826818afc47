//! The part of a formula with a number, by one descent that counts down.
ghost use Rattle.std.specs.Prelude.{◌≤◌, ◌++◌};
ghost use Rattle.forms.specs.Tree.{tree, program};
ghost use Rattle.forms.specs.Parts as listed;
ghost use Rattle.form_printer.specs.PartSearch.{operand_parts, Finds};

use forms::{Form, Path};

/// The part with the number, counted from 1. An `Err` has by how much the number is past the last part.
#[cycle(find)]
#[tactic(auto, using(crate::proofs::PartsFound::itself))]
pub fn find_part<'a>(form: &'a Form, part: u64) -> Result<&'a Form, u64>
    requires { 1 ≤ part }
    ensures { Finds result (listed.parts (tree form.now)) part }
{
    match find_in_operands(form, part) {
        Ok(found) => Ok(found),
        Err(1) => Ok(form),
        Err(left) => Err(left - 1),
    }
}

/// The same among the parts before the formula itself.
#[cycle(find)]
#[tactic(auto, using(crate::proofs::PartsFound::found))]
fn find_in_operands<'a>(form: &'a Form, part: u64) -> Result<&'a Form, u64>
    requires { 1 ≤ part }
    ensures { Finds result (operand_parts (tree form.now)) part }
{
    match form {
        Form::True => Err(part),
        Form::False => Err(part),
        Form::Atom(_) => Err(part),
        Form::Not(f) => find_part(f, part),
        Form::And(f, g) => find_in_both(f, g, part),
        Form::Or(f, g) => find_in_both(f, g, part),
        Form::Implies(f, g) => find_in_both(f, g, part),
        Form::Iff(f, g) => find_in_both(f, g, part),
        Form::Next(f) => find_part(f, part),
        Form::WeakNext(f) => find_part(f, part),
        Form::Until(f, g) => find_in_both(f, g, part),
        Form::Release(f, g) => find_in_both(f, g, part),
        Form::Eventually(f) => find_part(f, part),
        Form::Always(f) => find_part(f, part),
        Form::Diamond(p, f) => find_behind(p, f, part),
        Form::BoxAll(p, f) => find_behind(p, f, part),
    }
}

/// The same among the parts of two formulas.
#[cycle(find)]
#[tactic(auto, using(crate::proofs::PartsFound::found))]
fn find_in_both<'a>(left: &'a Form, right: &'a Form, part: u64) -> Result<&'a Form, u64>
    requires { 1 ≤ part }
    ensures { Finds result (listed.parts (tree left.now) ++ listed.parts (tree right.now)) part }
{
    match find_part(left, part) {
        Ok(found) => Ok(found),
        Err(rest) => find_part(right, rest),
    }
}

/// The same among the parts of the tests of a path and of the formula behind it.
#[cycle(find)]
#[tactic(auto, using(crate::proofs::PartsFound::found))]
fn find_behind<'a>(path: &'a Path, form: &'a Form, part: u64) -> Result<&'a Form, u64>
    requires { 1 ≤ part }
    ensures { Finds result (listed.test_parts (program path.now) ++ listed.parts (tree form.now)) part }
{
    match find_in_tests(path, part) {
        Ok(found) => Ok(found),
        Err(rest) => find_part(form, rest),
    }
}

/// The same among the parts of the tests of a path.
#[cycle(find)]
#[tactic(auto, using(crate::proofs::PartsFound::found))]
fn find_in_tests<'a>(path: &'a Path, part: u64) -> Result<&'a Form, u64>
    requires { 1 ≤ part }
    ensures { Finds result (listed.test_parts (program path.now)) part }
{
    match path {
        Path::Step(_) => Err(part),
        Path::Test(f) => find_part(f, part),
        Path::Choice(p, q) => find_in_paths(p, q, part),
        Path::Seq(p, q) => find_in_paths(p, q, part),
        Path::Star(p) => find_in_tests(p, part),
    }
}

/// The same among the parts of the tests of two paths.
#[cycle(find)]
#[tactic(auto, using(crate::proofs::PartsFound::found))]
fn find_in_paths<'a>(left: &'a Path, right: &'a Path, part: u64) -> Result<&'a Form, u64>
    requires { 1 ≤ part }
    ensures { Finds result (listed.test_parts (program left.now) ++ listed.test_parts (program right.now)) part }
{
    match find_in_tests(left, part) {
        Ok(found) => Ok(found),
        Err(rest) => find_in_tests(right, rest),
    }
}
