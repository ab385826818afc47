//! How many parts a formula has.
ghost use Rattle.std.specs.Prelude.{◌≡◌, ◌<◌, ◌≤◌, ◌^◌, length};
ghost use Rattle.forms.specs.Tree.{tree, program, nodes, program_nodes};
ghost use Rattle.forms.specs.Parts as listed;

use crate::form::{Form, Path};

/// How many parts the formula has: its subformulas, each occurrence by itself, those of the tests
/// of its paths included and those of steps left out. Takes no memory.
#[cycle(count)]
pub fn parts(form: &Form) -> u64
    requires { nodes (tree form.now) < 2 ^ 32 }
    ensures count { result ≡ length (listed.parts (tree form.now)) }
    ensures at_most_nodes { result ≤ nodes (tree form.now) }
{
    match form {
        Form::True => 1,
        Form::False => 1,
        Form::Atom(_) => 1,
        Form::Not(f) => parts(f) + 1,
        Form::And(f, g) => parts(f) + parts(g) + 1,
        Form::Or(f, g) => parts(f) + parts(g) + 1,
        Form::Implies(f, g) => parts(f) + parts(g) + 1,
        Form::Iff(f, g) => parts(f) + parts(g) + 1,
        Form::Next(f) => parts(f) + 1,
        Form::WeakNext(f) => parts(f) + 1,
        Form::Until(f, g) => parts(f) + parts(g) + 1,
        Form::Release(f, g) => parts(f) + parts(g) + 1,
        Form::Eventually(f) => parts(f) + 1,
        Form::Always(f) => parts(f) + 1,
        Form::Diamond(p, f) => test_parts(p) + parts(f) + 1,
        Form::BoxAll(p, f) => test_parts(p) + parts(f) + 1,
    }
}

/// How many parts the tests of the path have together.
#[cycle(count)]
fn test_parts(path: &Path) -> u64
    requires { program_nodes (program path.now) < 2 ^ 32 }
    ensures count { result ≡ length (listed.test_parts (program path.now)) }
    ensures at_most_nodes { result ≤ program_nodes (program path.now) }
{
    match path {
        Path::Step(_) => 0,
        Path::Test(f) => parts(f),
        Path::Choice(p, q) => test_parts(p) + test_parts(q),
        Path::Seq(p, q) => test_parts(p) + test_parts(q),
        Path::Star(p) => test_parts(p),
    }
}
