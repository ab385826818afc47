//! What two movers can force below a diagram, and the least choice of the first that keeps it.
ghost use Rattle.std.specs.Prelude.{◌≡◌, ◌<◌, ◌≤◌, ◌+◌, ◌-◌, length, IfOk};
ghost use Rattle.diagrams.specs.Tree.{Assignment, AllVars};
ghost use Rattle.diagrams.specs.Eval.{eval, tree};
ghost use Rattle.diagrams.specs.Live.{IsLive};
ghost use Rattle.choosing.specs.Known.{AllRight};
ghost use Rattle.choosing.specs.Best.{better_of, extreme_at, best_of, first_of, IsLeastOutputOf};

use crate::known::Known;
use bes_io::Memory;
use diagrams::{Id, Look, Store};

/// Which of two numbers a mover takes.
#[derive(Clone, Copy)]
pub enum Extreme {
    Least,
    Greatest,
}

/// Which variables are outputs, those from `from` to before `to`, and what each mover takes.
#[derive(Clone, Copy)]
pub struct Turns {
    pub from: u32,
    pub to: u32,
    pub agent: Extreme,
    pub environment: Extreme,
}

/// The number that a mover takes.
fn better(extreme: Extreme, x: u32, y: u32) -> u32
    ensures { result ≡ better_of extreme x y }
{
    match extreme {
        Extreme::Least => x.min(y),
        Extreme::Greatest => x.max(y),
    }
}

/// What the mover of a variable takes.
fn turn_at(turns: Turns, var: u32) -> Extreme
    ensures { result ≡ extreme_at turns var }
{
    if turns.from <= var && var < turns.to {
        turns.agent
    } else {
        turns.environment
    }
}

/// The number that the movers reach below a diagram, each taking what is best for it at its variables.
pub fn best(
    store: &Store,
    known: &mut Known,
    turns: Turns,
    values: &[u32],
    f: Id,
) -> Result<u32, Memory>
    requires live { IsLive store.now f }
    requires fit { (a : Assignment) → eval store.now f a < length values.now }
    requires right { AllRight store.now turns values.now known.old }
    ensures right { AllRight store.now turns values.now known.new }
    ensures best { IfOk result (λ x. x ≡ best_of turns values.now (tree store.now f)) }
{
    match store.look(f) {
        Look::Terminal(terminal) => Ok(values[terminal as usize]),
        Look::Node { var, lo, hi } => {
            if let Some(number) = known.get(f) {
                return Ok(number);
            }
            let low = best(store, known, turns, values, lo)?;
            let high = best(store, known, turns, values, hi)?;
            let number = better(turn_at(turns, var), low, high);
            known.keep(f, number)?;
            Ok(number)
        }
    }
}

/// The least output with which the best is reached, down its path.
fn first_best(
    store: &Store,
    known: &mut Known,
    turns: Turns,
    values: &[u32],
    f: Id,
) -> Result<u32, Memory>
    requires live { IsLive store.now f }
    requires fit { (a : Assignment) → eval store.now f a < length values.now }
    requires range { turns.from ≤ turns.to }
    requires few { turns.to - turns.from ≤ 32 }
    requires vars { AllVars (λ v. turns.from ≤ v) (tree store.now f) }
    requires right { AllRight store.now turns values.now known.old }
    ensures right { AllRight store.now turns values.now known.new }
    ensures first { IfOk result (λ y. y ≡ first_of turns values.now (tree store.now f)) }
{
    match store.look(f) {
        Look::Terminal(_) => Ok(0),
        Look::Node { var, lo, hi } => {
            if turns.to <= var {
                return Ok(0);
            }
            let whole = best(store, known, turns, values, f)?;
            let low = best(store, known, turns, values, lo)?;
            if low == whole {
                return first_best(store, known, turns, values, lo);
            }
            let rest = first_best(store, known, turns, values, hi)?;
            Ok((1 << (turns.to - 1 - var)) + rest)
        }
    }
}

/// The least output with which the agent reaches the best below a diagram, as the number of the outputs' variables,
/// the first with the greatest weight.
pub fn least_output(
    store: &Store,
    known: &mut Known,
    turns: Turns,
    values: &[u32],
    f: Id,
) -> Result<u32, Memory>
    requires live { IsLive store.now f }
    requires fit { (a : Assignment) → eval store.now f a < length values.now }
    requires range { turns.from ≤ turns.to }
    requires few { turns.to - turns.from ≤ 32 }
    requires vars { AllVars (λ v. turns.from ≤ v) (tree store.now f) }
    requires right { AllRight store.now turns values.now known.old }
    ensures right { AllRight store.now turns values.now known.new }
    ensures least { IfOk result (λ y. IsLeastOutputOf turns values.now (tree store.now f) y) }
{
    prove!(store.props() <= 32);
    first_best(store, known, turns, values, f)
}
