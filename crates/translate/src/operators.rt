//! The least automaton of each operator over automata of its operands.
ghost use Rattle.std.specs.Prelude.{◌<◌, ◌&&◌, ◌||◌, ℕ, not, IfOk};
ghost use Rattle.forms.specs.Word.{is_empty};
ghost use Rattle.forms.specs.Operators as claims;
ghost use Rattle.diagrams.specs.Live.{Keeps};
ghost use Rattle.automata.specs.Table.{size_of, mark_of, Fits, moves_of};
ghost use Rattle.automata.specs.Numbering.{IsNumbered};
ghost use Rattle.minimise.specs.Minimal.{IsLeast};
ghost use Rattle.translate.specs.Exact.{accepted, IsLeastOf};

use crate::joins::{
    awaited_by, joined_automata, joined_now, literals, repeated_by, solved_with, stepped_by,
};
use crate::least::{flipped, solved};
use crate::operands::{Asked, operand_and_end, two_operands};
use automata::Automaton;
use bes_io::Memory;
use diagrams::{Op, Store};
use obligations::Cells;
use std::alloc::Global;

/// The automaton of all words, or of none.
pub(crate) fn constant(alloc: Global, store: &mut Store, value: bool) -> Result<Automaton, Memory>
    ensures keeps { Keeps store.old store.new }
    ensures least { IfOk result (λ made. IsLeastOf store.new made (λ w. value)) }
{
    let cells = Cells::new(alloc);
    let start = store.terminal(u32::from(value))?;
    solved(alloc, store, &cells, start)
}

/// The automaton of the words whose first letter has a proposition.
pub(crate) fn atom(alloc: Global, store: &mut Store, i: u32) -> Result<Automaton, Memory>
    requires { i < store.old.props }
    ensures keeps { Keeps store.old store.new }
    ensures least { IfOk result (λ made. IsLeastOf store.new made (claims.atom store.old.props i)) }
{
    let body = store.literal(i)?;
    solved_with(alloc, store, Cells::new(alloc), false, body)
}

/// The automaton of the words that another does not accept.
pub(crate) fn not(alloc: Global, store: &mut Store, a: &Automaton) -> Result<Automaton, Memory>
    requires fits { Fits store.old a.now }
    requires marks { (at : ℕ) → at < size_of a.now → mark_of a.now at < 2 }
    requires least { IsLeast store.old.props (moves_of store.old a.now) }
    requires numbered { IsNumbered store.old.props (moves_of store.old a.now) }
    ensures keeps { Keeps store.old store.new }
    ensures least { IfOk result (λ made. IsLeastOf store.new made (λ w. not (accepted store.old a.now w))) }
{
    prove!(a.first() < a.size());
    prove!(store.props() <= 32);
    flipped(alloc, a)
}

/// The automaton of the words that both operands accept.
pub(crate) fn and(
    alloc: Global,
    store: &mut Store,
    a: &Automaton,
    b: &Automaton,
) -> Result<Automaton, Memory>
    requires a { Fits store.old a.now }
    requires b { Fits store.old b.now }
    ensures keeps { Keeps store.old store.new }
    ensures least { IfOk result (λ made.
        IsLeastOf store.new made (λ w. accepted store.old a.now w && accepted store.old b.now w)) }
{
    joined_automata(alloc, store, Op::And, a, b)
}

/// The automaton of the words that an operand accepts.
pub(crate) fn or(
    alloc: Global,
    store: &mut Store,
    a: &Automaton,
    b: &Automaton,
) -> Result<Automaton, Memory>
    requires a { Fits store.old a.now }
    requires b { Fits store.old b.now }
    ensures keeps { Keeps store.old store.new }
    ensures least { IfOk result (λ made.
        IsLeastOf store.new made (λ w. accepted store.old a.now w || accepted store.old b.now w)) }
{
    joined_automata(alloc, store, Op::Or, a, b)
}

/// The automaton of the words that the second operand accepts or the first does not.
pub(crate) fn implies(
    alloc: Global,
    store: &mut Store,
    a: &Automaton,
    b: &Automaton,
) -> Result<Automaton, Memory>
    requires a { Fits store.old a.now }
    requires b { Fits store.old b.now }
    ensures keeps { Keeps store.old store.new }
    ensures least { IfOk result (λ made.
        IsLeastOf store.new made (λ w. not (accepted store.old a.now w) || accepted store.old b.now w)) }
{
    let of = two_operands(alloc, store, a, b, Asked::Alone)?;
    prove!(of.cells.len() <= 2147483647);
    let (first, second) = literals(store, &of)?;
    let one = store.terminal(1)?;
    let start = store.ite(first, second, one)?;
    solved(alloc, store, &of.cells, start)
}

/// The automaton of the words that both operands accept or neither.
pub(crate) fn iff(
    alloc: Global,
    store: &mut Store,
    a: &Automaton,
    b: &Automaton,
) -> Result<Automaton, Memory>
    requires a { Fits store.old a.now }
    requires b { Fits store.old b.now }
    ensures keeps { Keeps store.old store.new }
    ensures least { IfOk result (λ made.
        IsLeastOf store.new made (λ w. claims.agree (accepted store.old a.now w) (accepted store.old b.now w))) }
{
    joined_automata(alloc, store, Op::Iff, a, b)
}

/// The automaton of the words from some letter of which the second operand accepts, and from each before it the first.
pub(crate) fn until(
    alloc: Global,
    store: &mut Store,
    a: &Automaton,
    b: &Automaton,
) -> Result<Automaton, Memory>
    requires a { Fits store.old a.now }
    requires b { Fits store.old b.now }
    ensures keeps { Keeps store.old store.new }
    ensures least { IfOk result (λ made.
        IsLeastOf store.new made (claims.until (accepted store.old a.now) (accepted store.old b.now))) }
{
    awaited_by(alloc, store, Op::Or, Op::And, false, a, b)
}

/// The automaton of the words from each letter of which the second operand accepts, up to and with one from which the
/// first does, or to the end.
pub(crate) fn release(
    alloc: Global,
    store: &mut Store,
    a: &Automaton,
    b: &Automaton,
) -> Result<Automaton, Memory>
    requires a { Fits store.old a.now }
    requires b { Fits store.old b.now }
    ensures keeps { Keeps store.old store.new }
    ensures least { IfOk result (λ made.
        IsLeastOf store.new made (claims.release (accepted store.old a.now) (accepted store.old b.now))) }
{
    awaited_by(alloc, store, Op::And, Op::Or, true, a, b)
}

/// The automaton of the words that have a second letter and whose rest from there the operand accepts.
pub(crate) fn next(alloc: Global, store: &mut Store, a: &Automaton) -> Result<Automaton, Memory>
    requires { Fits store.old a.now }
    ensures keeps { Keeps store.old store.new }
    ensures least { IfOk result (λ made. IsLeastOf store.new made (claims.next (accepted store.old a.now))) }
{
    stepped_by(alloc, store, Op::And, false, a)
}

/// The automaton of the words that have no second letter or whose rest from there the operand accepts.
pub(crate) fn weak_next(
    alloc: Global,
    store: &mut Store,
    a: &Automaton,
) -> Result<Automaton, Memory>
    requires { Fits store.old a.now }
    ensures keeps { Keeps store.old store.new }
    ensures least { IfOk result (λ made. IsLeastOf store.new made (claims.weak_next (accepted store.old a.now))) }
{
    stepped_by(alloc, store, Op::Or, true, a)
}

/// The automaton of the words from some letter of which the operand accepts.
pub(crate) fn eventually(
    alloc: Global,
    store: &mut Store,
    a: &Automaton,
) -> Result<Automaton, Memory>
    requires { Fits store.old a.now }
    ensures keeps { Keeps store.old store.new }
    ensures least { IfOk result (λ made. IsLeastOf store.new made (claims.eventually (accepted store.old a.now))) }
{
    repeated_by(alloc, store, Op::Or, false, a)
}

/// The automaton of the words from each letter of which the operand accepts.
pub(crate) fn always(alloc: Global, store: &mut Store, a: &Automaton) -> Result<Automaton, Memory>
    requires { Fits store.old a.now }
    ensures keeps { Keeps store.old store.new }
    ensures least { IfOk result (λ made. IsLeastOf store.new made (claims.always (accepted store.old a.now))) }
{
    repeated_by(alloc, store, Op::And, true, a)
}

/// The automaton of the words that the operand accepts and that have a letter.
pub(crate) fn nonempty(alloc: Global, store: &mut Store, a: &Automaton) -> Result<Automaton, Memory>
    requires { Fits store.old a.now }
    ensures keeps { Keeps store.old store.new }
    ensures least { IfOk result (λ made. IsLeastOf store.new made (λ w. not (is_empty w) && accepted store.old a.now w)) }
{
    let of = operand_and_end(alloc, store, a, Asked::Alone, false)?;
    joined_now(alloc, store, Op::And, &of)
}
