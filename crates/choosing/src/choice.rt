//! The choice for a decision: its mark, and the least output that keeps it.
ghost use Rattle.std.specs.Prelude.{◌≡◌, ◌<◌, ◌≤◌, ◌-◌, length, IfOk};
ghost use Rattle.diagrams.specs.Tree.{Assignment, AllVars};
ghost use Rattle.diagrams.specs.Eval.{Diagrams, eval, tree};
ghost use Rattle.diagrams.specs.Live.{IsLive};
ghost use Rattle.choosing.specs.declared.choice.Outputs.{Outputs};
ghost use Rattle.choosing.specs.declared.choice.Tables.{Tables};
ghost use Rattle.choosing.specs.Known.{AllRight};
ghost use Rattle.choosing.specs.Chosen.{IsChosenBelow, rank_turns, distance_turns, loss_turns};
ghost use Rattle.choosing.specs.Found.{FitTables, IsRight, IsReached, IsKeptBelow};

use crate::known::Known;
use crate::walks::{Extreme, Turns, best, least_output};
use bes_io::Memory;
use diagrams::{Id, Store};
use std::alloc::Global;

/// Stands for no number.
pub const NO_NUMBER: u32 = u32::MAX;

/// The mark of a location or of a decision.
#[derive(Clone, Copy, PartialEq, Eq, Hash)]
pub enum Mark {
    /// The goal is met.
    Goal,
    /// It is forced within so many rounds.
    Win(u32),
    /// It is left possible within so many rounds.
    Pending(u32),
    /// It is out of reach, and there is no duty.
    Lost,
    /// It is out of reach, and the duty is kept for good.
    Held,
    /// It is out of reach, and the environment can break the duty within so many rounds.
    LostIn(u32),
}

/// The mark of a decision, and the output that is played: a number of the outputs' bits, the first with the greatest weight.
#[derive(Clone, Copy, PartialEq, Eq, Hash)]
pub struct Chosen {
    pub mark: Mark,
    pub output: u64,
}

/// Which variables are outputs: those from `from` to before `to`. Those before `from` are a decision's.
#[derive(Clone, Copy)]
pub struct Outputs {
    pub from: u32,
    pub to: u32,
}

/// The numbers of locations: ranks, distances and losses, `NO_NUMBER` where there is none. The last item of each list is
/// that of illegal rounds: 0 among ranks, and `NO_NUMBER` among distances and losses.
#[derive(Drop)]
pub struct Tables {
    pub ranks: Vec<u32>,
    pub distances: Vec<u32>,
    pub losses: Vec<u32>,
}

/// The agent takes the least rank, the environment the greatest.
fn rank_turns(outputs: Outputs) -> Turns
    ensures { result ≡ rank_turns outputs.from outputs.to }
{
    Turns {
        from: outputs.from,
        to: outputs.to,
        agent: Extreme::Least,
        environment: Extreme::Greatest,
    }
}

/// Both take the least distance.
fn distance_turns(outputs: Outputs) -> Turns
    ensures { result ≡ distance_turns outputs.from outputs.to }
{
    Turns {
        from: outputs.from,
        to: outputs.to,
        agent: Extreme::Least,
        environment: Extreme::Least,
    }
}

/// The agent takes the greatest loss, the environment the least.
fn loss_turns(outputs: Outputs) -> Turns
    ensures { result ≡ loss_turns outputs.from outputs.to }
{
    Turns {
        from: outputs.from,
        to: outputs.to,
        agent: Extreme::Greatest,
        environment: Extreme::Least,
    }
}

/// What is known of diagrams: the ranks, distances and losses that are reached below them.
#[derive(Drop)]
pub struct Found {
    pub ranks: Known,
    pub distances: Known,
    pub losses: Known,
}

impl Found {
    /// Nothing is known. It takes no memory.
    pub fn new(alloc: Global) -> Found
        ensures { (s : Diagrams) (outputs : Outputs) (tables : Tables) → IsRight s outputs tables result }
    {
        Found {
            ranks: Known::new(alloc),
            distances: Known::new(alloc),
            losses: Known::new(alloc),
        }
    }
}

/// A number that is reached, and the least output that reaches it.
#[derive(Clone, Copy)]
struct Reached {
    number: u32,
    output: u32,
}

/// The number that is reached below a diagram, where it is one.
fn reach(
    store: &Store,
    known: &mut Known,
    turns: Turns,
    values: &[u32],
    f: Id,
) -> Result<Option<Reached>, Memory>
    requires live { IsLive store.now f }
    requires fit { (a : Assignment) → eval store.now f a < length values.now }
    requires range { turns.from ≤ turns.to }
    requires few { turns.to - turns.from ≤ 32 }
    requires vars { AllVars (λ v. turns.from ≤ v) (tree store.now f) }
    requires right { AllRight store.now turns values.now known.old }
    ensures right { AllRight store.now turns values.now known.new }
    ensures reached { IfOk result (λ r. IsReached turns values.now (tree store.now f) r) }
{
    let number = best(store, known, turns, values, f)?;
    if number == NO_NUMBER {
        return Ok(None);
    }
    let output = least_output(store, known, turns, values, f)?;
    Ok(Some(Reached { number, output }))
}

/// The choice for a decision that is out of reach, where there is a duty.
fn kept(
    store: &Store,
    known: &mut Known,
    turns: Turns,
    losses: &[u32],
    f: Id,
) -> Result<Chosen, Memory>
    requires live { IsLive store.now f }
    requires fit { (a : Assignment) → eval store.now f a < length losses.now }
    requires range { turns.from ≤ turns.to }
    requires few { turns.to - turns.from ≤ 32 }
    requires vars { AllVars (λ v. turns.from ≤ v) (tree store.now f) }
    requires right { AllRight store.now turns losses.now known.old }
    ensures right { AllRight store.now turns losses.now known.new }
    ensures kept { IfOk result (λ c. IsKeptBelow turns losses.now (tree store.now f) c) }
{
    let loss = best(store, known, turns, losses, f)?;
    if loss < NO_NUMBER {
        return Ok(Chosen {
            mark: Mark::LostIn(loss + 1),
            output: 0,
        });
    }
    let output = least_output(store, known, turns, losses, f)?;
    Ok(Chosen {
        mark: Mark::Held,
        output: u64::from(output),
    })
}

/// The choice for a decision after which this diagram leads to locations, by their numbers. By the rank where there is
/// one, else by the distance, else by the loss where there is a duty: each mark's number is one more than what is reached.
pub fn choose(
    store: &Store,
    found: &mut Found,
    outputs: Outputs,
    duty: bool,
    tables: &Tables,
    f: Id,
) -> Result<Chosen, Memory>
    requires live { IsLive store.now f }
    requires fit { FitTables store.now tables.now f }
    requires range { outputs.from ≤ outputs.to }
    requires few { outputs.to - outputs.from ≤ 32 }
    requires vars { AllVars (λ v. outputs.from ≤ v) (tree store.now f) }
    requires right { IsRight store.now outputs tables.now found.old }
    ensures right { IsRight store.now outputs tables.now found.new }
    ensures chosen { IfOk result (λ c. IsChosenBelow outputs.from outputs.to duty tables.now.ranks.items tables.now.distances.items tables.now.losses.items (tree store.now f) c.mark c.output) }
{
    let turns = rank_turns(outputs);
    if let Some(win) = reach(store, &mut found.ranks, turns, &tables.ranks, f)? {
        return Ok(Chosen {
            mark: Mark::Win(win.number + 1),
            output: u64::from(win.output),
        });
    }
    let turns = distance_turns(outputs);
    if let Some(hope) = reach(store, &mut found.distances, turns, &tables.distances, f)? {
        return Ok(Chosen {
            mark: Mark::Pending(hope.number + 1),
            output: u64::from(hope.output),
        });
    }
    if !duty {
        return Ok(Chosen {
            mark: Mark::Lost,
            output: 0,
        });
    }
    kept(
        store,
        &mut found.losses,
        loss_turns(outputs),
        &tables.losses,
        f,
    )
}
