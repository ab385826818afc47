//! Copies, counts and normal forms of one formula.
ghost use Rattle.std.specs.Prelude.{◌≡◌, IfOk};
ghost use Rattle.forms.specs.Tree.{tree, nodes};

use bes_io::Memory;
use forms::{Form, Path, copy, nnf, parts};
use std::alloc::Global;

// `<a? ; true> X b`
fn sample(alloc: Global) -> Result<Form, Memory>
    ensures { IfOk result (λ made. nodes (tree made) ≡ 8) }
{
    let test = Box::new(alloc, Path::Test(Box::new(alloc, Form::Atom(0))?))?;
    let step = Box::new(alloc, Path::Step(Box::new(alloc, Form::True)?))?;
    let path = Box::new(alloc, Path::Seq(test, step))?;
    let next = Form::Next(Box::new(alloc, Form::Atom(1))?);
    Ok(Form::Diamond(path, Box::new(alloc, next)?))
}

fn is_atom(form: &Form, i: u32) -> bool {
    matches!(form, Form::Atom(j) if *j == i)
}

fn is_test_of_a(path: &Path) -> bool {
    match path {
        Path::Test(f) => is_atom(f, 0),
        _ => false,
    }
}

fn is_step_of_true(path: &Path) -> bool {
    match path {
        Path::Step(f) => matches!(**f, Form::True),
        _ => false,
    }
}

fn is_sample_path(path: &Path) -> bool {
    match path {
        Path::Seq(p, q) => is_test_of_a(p) && is_step_of_true(q),
        _ => false,
    }
}

fn is_next_b(form: &Form) -> bool {
    match form {
        Form::Next(f) => is_atom(f, 1),
        _ => false,
    }
}

fn is_sample(form: &Form) -> bool {
    match form {
        Form::Diamond(p, f) => is_sample_path(p) && is_next_b(f),
        _ => false,
    }
}

// `N !b`
fn is_dual_of_next_b(form: &Form) -> bool {
    match form {
        Form::WeakNext(f) => match &**f {
            Form::Not(g) => is_atom(g, 1),
            _ => false,
        },
        _ => false,
    }
}

// `[a? ; true] N !b`
fn is_dual_of_sample(form: &Form) -> bool {
    match form {
        Form::BoxAll(p, f) => is_sample_path(p) && is_dual_of_next_b(f),
        _ => false,
    }
}

#[test]
fn a_copy_is_the_same_tree_and_a_negation_is_pushed_inwards(rt: HostRuntime) -> Result<(), Memory> {
    let form = sample(rt.alloc())?;
    let made = copy(rt.alloc(), &form)?;
    assert!(rt; is_sample(&made), "each node was copied");
    assert!(rt;
        parts(&made) == 4,
        "a, b, X b and the whole; true is no part"
    );
    let negation = Form::Not(Box::new(rt.alloc(), form)?);
    let dual = nnf(rt.alloc(), &negation)?;
    assert!(rt; is_dual_of_sample(&dual), "the path is not negated");
    Ok(())
}
