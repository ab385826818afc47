//! Negation normal form.
ghost use Rattle.std.specs.Prelude.{◌≡◌, ℕ, IfOk};
ghost use Rattle.forms.specs.Tree.{tree, program};
ghost use Rattle.forms.specs.Word.{Word};
ghost use Rattle.forms.specs.Satisfaction.{sat};
ghost use Rattle.forms.specs.Proper.{IsProper};
ghost use Rattle.forms.specs.Normal.{normal, negated, normal_program, IsNegationNormal};

use crate::copies::copy;
use crate::form::{Form, Path};
use bes_io::Memory;
use std::alloc::Global;

/// The negation normal form: `f -> g` becomes `!f | g`, and negations are pushed inwards until they stand at atoms, by
/// the duals of the operators; `f <-> g` stays, its negation being that of its first operand. Steps stay as they are.
/// It holds on the same words. Goes one level deeper for each level of the tree.
pub fn nnf(alloc: Global, form: &Form) -> Result<Form, Memory>
    ensures normal { IfOk result (λ made. tree made ≡ normal (tree form.now)) }
    ensures shape { IfOk result (λ made. IsNegationNormal (tree made)) }
    ensures proper { IfOk result (λ made. (p : ℕ) → IsProper p (tree form.now) → IsProper p (tree made)) }
    ensures same { IfOk result (λ made. (p : ℕ) (w : Word) → sat p (tree made) w ≡ sat p (tree form.now) w) }
{
    normal_form(alloc, form)
}

#[cycle(normal)]
fn normal_form(alloc: Global, form: &Form) -> Result<Form, Memory>
    ensures { IfOk result (λ made. tree made ≡ normal (tree form.now)) }
{
    match form {
        Form::True => Ok(Form::True),
        Form::False => Ok(Form::False),
        Form::Atom(i) => Ok(Form::Atom(*i)),
        Form::Not(f) => negated_form(alloc, f),
        Form::And(f, g) => Ok(Form::And(normal_boxed(alloc, f)?, normal_boxed(alloc, g)?)),
        Form::Or(f, g) => Ok(Form::Or(normal_boxed(alloc, f)?, normal_boxed(alloc, g)?)),
        Form::Implies(f, g) => Ok(Form::Or(negated_boxed(alloc, f)?, normal_boxed(alloc, g)?)),
        Form::Iff(f, g) => Ok(Form::Iff(normal_boxed(alloc, f)?, normal_boxed(alloc, g)?)),
        Form::Next(f) => Ok(Form::Next(normal_boxed(alloc, f)?)),
        Form::WeakNext(f) => Ok(Form::WeakNext(normal_boxed(alloc, f)?)),
        Form::Until(f, g) => Ok(Form::Until(normal_boxed(alloc, f)?, normal_boxed(alloc, g)?)),
        Form::Release(f, g) => Ok(Form::Release(normal_boxed(alloc, f)?, normal_boxed(alloc, g)?)),
        Form::Eventually(f) => Ok(Form::Eventually(normal_boxed(alloc, f)?)),
        Form::Always(f) => Ok(Form::Always(normal_boxed(alloc, f)?)),
        Form::Diamond(p, f) => Ok(Form::Diamond(normal_path(alloc, p)?, normal_boxed(alloc, f)?)),
        Form::BoxAll(p, f) => Ok(Form::BoxAll(normal_path(alloc, p)?, normal_boxed(alloc, f)?)),
    }
}

#[cycle(normal)]
fn negated_form(alloc: Global, form: &Form) -> Result<Form, Memory>
    ensures { IfOk result (λ made. tree made ≡ negated (tree form.now)) }
{
    match form {
        Form::True => Ok(Form::False),
        Form::False => Ok(Form::True),
        Form::Atom(i) => Ok(Form::Not(Box::new(alloc, Form::Atom(*i))?)),
        Form::Not(f) => normal_form(alloc, f),
        Form::And(f, g) => Ok(Form::Or(negated_boxed(alloc, f)?, negated_boxed(alloc, g)?)),
        Form::Or(f, g) => Ok(Form::And(negated_boxed(alloc, f)?, negated_boxed(alloc, g)?)),
        Form::Implies(f, g) => Ok(Form::And(normal_boxed(alloc, f)?, negated_boxed(alloc, g)?)),
        Form::Iff(f, g) => Ok(Form::Iff(negated_boxed(alloc, f)?, normal_boxed(alloc, g)?)),
        Form::Next(f) => Ok(Form::WeakNext(negated_boxed(alloc, f)?)),
        Form::WeakNext(f) => Ok(Form::Next(negated_boxed(alloc, f)?)),
        Form::Until(f, g) => Ok(Form::Release(negated_boxed(alloc, f)?, negated_boxed(alloc, g)?)),
        Form::Release(f, g) => Ok(Form::Until(negated_boxed(alloc, f)?, negated_boxed(alloc, g)?)),
        Form::Eventually(f) => Ok(Form::Always(negated_boxed(alloc, f)?)),
        Form::Always(f) => Ok(Form::Eventually(negated_boxed(alloc, f)?)),
        Form::Diamond(p, f) => Ok(Form::BoxAll(normal_path(alloc, p)?, negated_boxed(alloc, f)?)),
        Form::BoxAll(p, f) => Ok(Form::Diamond(normal_path(alloc, p)?, negated_boxed(alloc, f)?)),
    }
}

#[cycle(normal)]
fn normal_boxed(alloc: Global, form: &Form) -> Result<Box<Form>, Memory>
    ensures { IfOk result (λ made. tree made.value ≡ normal (tree form.now)) }
{
    Ok(Box::new(alloc, normal_form(alloc, form)?)?)
}

#[cycle(normal)]
fn negated_boxed(alloc: Global, form: &Form) -> Result<Box<Form>, Memory>
    ensures { IfOk result (λ made. tree made.value ≡ negated (tree form.now)) }
{
    Ok(Box::new(alloc, negated_form(alloc, form)?)?)
}

// The path with its tests in normal form.
#[cycle(normal)]
fn normal_path(alloc: Global, path: &Path) -> Result<Box<Path>, Memory>
    ensures { IfOk result (λ made. program made.value ≡ normal_program (program path.now)) }
{
    let made = match path {
        Path::Step(f) => Path::Step(Box::new(alloc, copy(alloc, f)?)?),
        Path::Test(f) => Path::Test(normal_boxed(alloc, f)?),
        Path::Choice(p, q) => Path::Choice(normal_path(alloc, p)?, normal_path(alloc, q)?),
        Path::Seq(p, q) => Path::Seq(normal_path(alloc, p)?, normal_path(alloc, q)?),
        Path::Star(p) => Path::Star(normal_path(alloc, p)?),
    };
    Ok(Box::new(alloc, made)?)
}
