//! Copies of formulas and path programs.
ghost use Rattle.std.specs.Prelude.{◌≡◌, IfOk};
ghost use Rattle.forms.specs.Tree.{tree, program};

use crate::form::{Form, Path};
use bes_io::Memory;
use std::alloc::Global;

/// A form of the same tree. Goes one level deeper for each level of the tree.
#[cycle(copy)]
pub fn copy(alloc: Global, form: &Form) -> Result<Form, Memory>
    ensures { IfOk result (λ made. tree made ≡ tree form.now) }
{
    match form {
        Form::True => Ok(Form::True),
        Form::False => Ok(Form::False),
        Form::Atom(i) => Ok(Form::Atom(*i)),
        Form::Not(f) => Ok(Form::Not(copy_boxed(alloc, f)?)),
        Form::And(f, g) => Ok(Form::And(copy_boxed(alloc, f)?, copy_boxed(alloc, g)?)),
        Form::Or(f, g) => Ok(Form::Or(copy_boxed(alloc, f)?, copy_boxed(alloc, g)?)),
        Form::Implies(f, g) => Ok(Form::Implies(copy_boxed(alloc, f)?, copy_boxed(alloc, g)?)),
        Form::Iff(f, g) => Ok(Form::Iff(copy_boxed(alloc, f)?, copy_boxed(alloc, g)?)),
        Form::Next(f) => Ok(Form::Next(copy_boxed(alloc, f)?)),
        Form::WeakNext(f) => Ok(Form::WeakNext(copy_boxed(alloc, f)?)),
        Form::Until(f, g) => Ok(Form::Until(copy_boxed(alloc, f)?, copy_boxed(alloc, g)?)),
        Form::Release(f, g) => Ok(Form::Release(copy_boxed(alloc, f)?, copy_boxed(alloc, g)?)),
        Form::Eventually(f) => Ok(Form::Eventually(copy_boxed(alloc, f)?)),
        Form::Always(f) => Ok(Form::Always(copy_boxed(alloc, f)?)),
        Form::Diamond(p, f) => Ok(Form::Diamond(copy_boxed_path(alloc, p)?, copy_boxed(alloc, f)?)),
        Form::BoxAll(p, f) => Ok(Form::BoxAll(copy_boxed_path(alloc, p)?, copy_boxed(alloc, f)?)),
    }
}

#[cycle(copy)]
fn copy_boxed(alloc: Global, form: &Form) -> Result<Box<Form>, Memory>
    ensures { IfOk result (λ made. tree made.value ≡ tree form.now) }
{
    Ok(Box::new(alloc, copy(alloc, form)?)?)
}

#[cycle(copy)]
fn copy_path(alloc: Global, path: &Path) -> Result<Path, Memory>
    ensures { IfOk result (λ made. program made ≡ program path.now) }
{
    match path {
        Path::Step(f) => Ok(Path::Step(copy_boxed(alloc, f)?)),
        Path::Test(f) => Ok(Path::Test(copy_boxed(alloc, f)?)),
        Path::Choice(p, q) => Ok(Path::Choice(
            copy_boxed_path(alloc, p)?,
            copy_boxed_path(alloc, q)?,
        )),
        Path::Seq(p, q) => Ok(Path::Seq(copy_boxed_path(alloc, p)?, copy_boxed_path(alloc, q)?)),
        Path::Star(p) => Ok(Path::Star(copy_boxed_path(alloc, p)?)),
    }
}

#[cycle(copy)]
fn copy_boxed_path(alloc: Global, path: &Path) -> Result<Box<Path>, Memory>
    ensures { IfOk result (λ made. program made.value ≡ program path.now) }
{
    Ok(Box::new(alloc, copy_path(alloc, path)?)?)
}
