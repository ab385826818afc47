//! Columns: the values of one formula at the positions of a block.
ghost use Rattle.std.specs.Prelude.{◌≡◌, ◌%◌, ◌==◌, IfOk, length, replicate};
ghost use Rattle.std.specs.Int.{bit_at};
ghost use Rattle.trace_meaning.specs.Column as spec;

use crate::operator::{Binary, Unary};
use bes_io::Memory;
use std::alloc::Global;

/// Turns the values of the operand over a block into those of the operator, from the last position
/// backwards, and says what the first position hands on; `later` is handed to the last one.
#[inline(always)]
fn change_each(op: Unary, x: &mut [bool], later: bool) -> bool
    ensures column { x.new ≡ spec.changed op later x.old }
    ensures handed { result ≡ spec.handed op later x.old }
{
    let mut later = later;
    let mut i = x.len();
    while i > 0 {
        i -= 1;
        let here = op.now(x[i], later);
        later = op.handed_on(x[i], later);
        x[i] = here;
    }
    later
}

/// The same for an operator of two operands, written over the values of the first.
#[inline(always)]
fn combine_each(op: Binary, x: &mut [bool], y: &[bool], later: bool) -> bool
    requires { length x.old ≡ length y.now }
    ensures column { x.new ≡ spec.column op later x.old y.now }
    ensures first { result ≡ spec.first op later x.old y.now }
{
    let mut later = later;
    let mut i = x.len();
    while i > 0 {
        i -= 1;
        later = op.now(x[i], y[i], later);
        x[i] = later;
    }
    later
}

/// `change_each` with a loop for each operator.
#[tactic(auto, using(crate::proofs::Columns::lengths))]
pub fn change(op: Unary, x: &mut Vec<bool>, later: bool) -> bool
    ensures column { x.new.items ≡ spec.changed op later x.old.items }
    ensures handed { result ≡ spec.handed op later x.old.items }
    ensures whole { length x.new.items ≡ length x.old.items }
{
    match op {
        Unary::Not => change_each(Unary::Not, x, later),
        Unary::Next => change_each(Unary::Next, x, later),
        Unary::WeakNext => change_each(Unary::WeakNext, x, later),
        Unary::Eventually => change_each(Unary::Eventually, x, later),
        Unary::Always => change_each(Unary::Always, x, later),
    }
}

/// `combine_each` with a loop for each operator.
#[tactic(auto, using(crate::proofs::Columns::lengths))]
pub fn combine(op: Binary, x: &mut Vec<bool>, y: &[bool], later: bool) -> bool
    requires { length x.old.items ≡ length y.now }
    ensures column { x.new.items ≡ spec.column op later x.old.items y.now }
    ensures first { result ≡ spec.first op later x.old.items y.now }
    ensures whole { length x.new.items ≡ length x.old.items }
{
    match op {
        Binary::And => combine_each(Binary::And, x, y, later),
        Binary::Or => combine_each(Binary::Or, x, y, later),
        Binary::Implies => combine_each(Binary::Implies, x, y, later),
        Binary::Iff => combine_each(Binary::Iff, x, y, later),
        Binary::Until => combine_each(Binary::Until, x, y, later),
        Binary::Release => combine_each(Binary::Release, x, y, later),
    }
}

/// Whether the letter has the bit.
#[inline(always)]
fn has_bit(letter: u64, bit: u32) -> bool
    ensures { result ≡ (bit_at letter (bit % 64) == 1) }
{
    (letter >> (bit % 64)) & 1 == 1
}

/// Which of the letters have the bit.
#[tactic(auto, unfolding(crate::specs::Column::bits_of))]
pub fn bits(alloc: Global, letters: &[u64], bit: u32) -> Result<Vec<bool>, Memory>
    ensures values { IfOk result (λ made. made.items ≡ spec.bits_of bit letters.now) }
    ensures whole { IfOk result (λ made. length made.items ≡ length letters.now) }
{
    let mut made = vec![in alloc; false; letters.len()]?;
    for (i, letter) in letters.iter().enumerate() {
        made[i] = has_bit(*letter, bit);
    }
    Ok(made)
}

/// The same value at each of `count` positions.
pub fn constant(alloc: Global, value: bool, count: usize) -> Result<Vec<bool>, Memory>
    ensures values { IfOk result (λ made. made.items ≡ replicate count value) }
    ensures whole { IfOk result (λ made. length made.items ≡ count) }
{
    Ok(vec![in alloc; value; count]?)
}

/// A copy of the values.
pub fn copy(values: &Vec<bool>) -> Result<Vec<bool>, Memory>
    ensures { IfOk result (λ made. made.items ≡ values.now.items) }
{
    Ok(values.clone()?)
}
