//! Formulas and paths made of an operator and its operands.
ghost use Rattle.std.specs.Prelude.{◌≡◌, IfOk, true, false};
ghost use Rattle.forms.specs.Tree.{tree, program};
ghost use Rattle.forms.specs.Tree as formula;
ghost use Rattle.form_reader.specs.Grammar as grammar;
ghost use Rattle.form_reader.specs.Machine.{is_propositional};
ghost use Rattle.form_reader.specs.Stack.{applied};

use crate::item::Operator;
use crate::operand::Operand;
use bes_io::Memory;
use form_tokens::{Infix, Leaf, Modality, PathInfix, Prefix};
use forms::{Form, Path};
use std::alloc::Global;

/// The formula of a name or a constant word.
pub fn leaf(alloc: Global, leaf: Leaf) -> Result<Operand, Memory>
    ensures { IfOk result (λ made. tree made.form ≡ grammar.leaf_of leaf) }
{
    match leaf {
        Leaf::True => Ok(plain(Form::True)),
        Leaf::False => Ok(plain(Form::False)),
        Leaf::Name(i) => Ok(plain(Form::Atom(i))),
        Leaf::Last => Ok(temporal(Form::WeakNext(Box::new(alloc, Form::False)?))),
        Leaf::LastStep => {
            let end = end(alloc)?;
            Ok(temporal(Form::Diamond(one_step(alloc)?, Box::new(alloc, end)?)))
        }
        Leaf::End => Ok(temporal(end(alloc)?)),
    }
}

/// `[true] false`: there is no next position.
fn end(alloc: Global) -> Result<Form, Memory>
    ensures { IfOk result (λ made. tree made ≡ formula.BoxAll (formula.Step formula.True) formula.False) }
{
    Ok(Form::BoxAll(one_step(alloc)?, Box::new(alloc, Form::False)?))
}

/// The path `true`.
fn one_step(alloc: Global) -> Result<Box<Path>, Memory>
    ensures { IfOk result (λ made. program made.value ≡ formula.Step formula.True) }
{
    let path = Path::Step(Box::new(alloc, Form::True)?);
    Ok(Box::new(alloc, path)?)
}

/// The operator with the formula after it.
pub fn apply(alloc: Global, operator: Operator, operand: Operand) -> Result<Operand, Memory>
    ensures { IfOk result (λ made. tree made.form ≡ applied operator (tree operand.form)) }
{
    match operator {
        Operator::Before(p) => prefixed(alloc, p, operand),
        Operator::Behind(modality, path) => behind(alloc, modality, path, operand),
        Operator::Between(o, left) => joined(alloc, o, left, operand),
    }
}

fn prefixed(alloc: Global, operator: Prefix, operand: Operand) -> Result<Operand, Memory>
    ensures { IfOk result (λ made. tree made.form ≡ grammar.prefixed operator (tree operand.form)) }
{
    let propositional = operand.propositional;
    let operand = Box::new(alloc, operand.form)?;
    match operator {
        Prefix::Not => Ok(Operand {
            form: Form::Not(operand),
            propositional,
        }),
        Prefix::Next => Ok(temporal(Form::Next(operand))),
        Prefix::WeakNext => Ok(temporal(Form::WeakNext(operand))),
        Prefix::Eventually => Ok(temporal(Form::Eventually(operand))),
        Prefix::Always => Ok(temporal(Form::Always(operand))),
    }
}

fn behind(
    alloc: Global,
    modality: Modality,
    path: Path,
    operand: Operand,
) -> Result<Operand, Memory>
    ensures { IfOk result (λ made. tree made.form ≡ grammar.behind modality (program path) (tree operand.form)) }
{
    let path = Box::new(alloc, path)?;
    let operand = Box::new(alloc, operand.form)?;
    match modality {
        Modality::Diamond => Ok(temporal(Form::Diamond(path, operand))),
        Modality::BoxAll => Ok(temporal(Form::BoxAll(path, operand))),
    }
}

fn joined(alloc: Global, operator: Infix, left: Operand, right: Operand) -> Result<Operand, Memory>
    ensures { IfOk result (λ made. tree made.form ≡ grammar.joined operator (tree left.form) (tree right.form)) }
{
    let propositional = left.propositional && right.propositional;
    let left = Box::new(alloc, left.form)?;
    let right = Box::new(alloc, right.form)?;
    match operator {
        Infix::Iff => Ok(Operand {
            form: Form::Iff(left, right),
            propositional,
        }),
        Infix::Implies => Ok(Operand {
            form: Form::Implies(left, right),
            propositional,
        }),
        Infix::Or => Ok(Operand {
            form: Form::Or(left, right),
            propositional,
        }),
        Infix::And => Ok(Operand {
            form: Form::And(left, right),
            propositional,
        }),
        Infix::Until => Ok(temporal(Form::Until(left, right))),
        Infix::Release => Ok(temporal(Form::Release(left, right))),
    }
}

/// The path of one step.
pub fn step_path(alloc: Global, operand: Operand) -> Result<Path, Memory>
    ensures { IfOk result (λ made. program made ≡ formula.Step (tree operand.form)) }
{
    Ok(Path::Step(Box::new(alloc, operand.form)?))
}

/// The path of a test.
pub fn test_path(alloc: Global, operand: Operand) -> Result<Path, Memory>
    ensures { IfOk result (λ made. program made ≡ formula.Test (tree operand.form)) }
{
    Ok(Path::Test(Box::new(alloc, operand.form)?))
}

/// The path any number of times.
pub fn star_path(alloc: Global, path: Path) -> Result<Path, Memory>
    ensures { IfOk result (λ made. program made ≡ formula.Star (program path)) }
{
    Ok(Path::Star(Box::new(alloc, path)?))
}

/// Two paths with the operator between them.
pub fn joined_paths(
    alloc: Global,
    operator: PathInfix,
    left: Path,
    right: Path,
) -> Result<Path, Memory>
    ensures { IfOk result (λ made. program made ≡ grammar.path_joined operator (program left) (program right)) }
{
    let left = Box::new(alloc, left)?;
    let right = Box::new(alloc, right)?;
    match operator {
        PathInfix::Choice => Ok(Path::Choice(left, right)),
        PathInfix::Seq => Ok(Path::Seq(left, right)),
    }
}

/// A constant or a name.
fn plain(form: Form) -> Operand
    requires { is_propositional (tree form) ≡ true }
    ensures { tree result.form ≡ tree form }
{
    Operand {
        form,
        propositional: true,
    }
}

/// A formula with an operator that looks at other positions.
fn temporal(form: Form) -> Operand
    requires { is_propositional (tree form) ≡ false }
    ensures { tree result.form ≡ tree form }
{
    Operand {
        form,
        propositional: false,
    }
}
