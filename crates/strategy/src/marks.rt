//! The marks of locations by their numbers, and the numbers as tables.
ghost use Rattle.std.specs.Prelude.{◌≡◌, ◌<◌, ◌+◌, ◌^◌, ◌-◌, length, IfOk};
ghost use Rattle.strategy.specs.Numbers.{number_in, loss_in, HasNumbers, IsWithinLosses, mark_by, AreMarks, IsTableOf, AreTablesOf};

use bes_io::Memory;
use choosing::{Mark, NO_NUMBER, Tables};
use std::alloc::Global;

/// The numbers of locations: within how many rounds the goal is forced, within how many it is left possible, and, where
/// there is a duty, within how many the environment can break it.
#[derive(Drop)]
pub struct Numbers {
    pub ranks: Vec<Option<u32>>,
    pub distances: Vec<Option<u32>>,
    pub losses: Option<Vec<Option<u32>>>,
}

impl Numbers {
    /// The number of rounds within which the environment can break the duty, where there is both.
    fn loss(&self, at: usize) -> Option<u32>
        requires { IsWithinLosses self.now at }
        ensures { result ≡ loss_in self.now at }
    {
        match &self.losses {
            None => None,
            Some(losses) => losses[at],
        }
    }
}

/// The mark of a location.
fn mark_by(
    goal: bool,
    rank: Option<u32>,
    distance: Option<u32>,
    duty: bool,
    loss: Option<u32>,
) -> Mark
    ensures { result ≡ mark_by goal rank distance duty loss }
{
    if goal {
        return Mark::Goal;
    }
    if let Some(rounds) = rank {
        return Mark::Win(rounds);
    }
    if let Some(rounds) = distance {
        return Mark::Pending(rounds);
    }
    if !duty {
        return Mark::Lost;
    }
    match loss {
        None => Mark::Held,
        Some(rounds) => Mark::LostIn(rounds),
    }
}

/// The marks of all locations.
pub(crate) fn marks_of(
    alloc: Global,
    goals: &[bool],
    numbers: &Numbers,
) -> Result<Vec<Mark>, Memory>
    requires { HasNumbers numbers.now (length goals.now) }
    ensures { IfOk result (λ made. AreMarks goals.now numbers.now made.items (length goals.now)) }
{
    let duty = numbers.losses.is_some();
    let mut marks = Vec::new(alloc);
    for at in 0..goals.len() {
        marks.push(mark_by(
            goals[at],
            numbers.ranks[at],
            numbers.distances[at],
            duty,
            numbers.loss(at),
        ))?;
    }
    Ok(marks)
}

/// The numbers of locations as a table, with the number of an illegal round at its end.
fn table_of(alloc: Global, numbers: &[Option<u32>], illegal: u32) -> Result<Vec<u32>, Memory>
    ensures { IfOk result (λ made. IsTableOf (number_in numbers.now) (length numbers.now) illegal made.items) }
{
    let mut table = Vec::new(alloc);
    for number in numbers {
        table.push(number.unwrap_or(NO_NUMBER))?;
    }
    table.push(illegal)?;
    Ok(table)
}

/// The losses of locations as a table, in which no location has one where there is no duty.
fn losses_of(alloc: Global, numbers: &Numbers, size: usize) -> Result<Vec<u32>, Memory>
    requires numbers { HasNumbers numbers.now size }
    requires few { size < 2 ^ 32 - 1 }
    ensures { IfOk result (λ made. IsTableOf (loss_in numbers.now) size 4294967295 made.items) }
{
    match &numbers.losses {
        None => Ok(vec![in alloc; NO_NUMBER; size + 1]?),
        Some(losses) => table_of(alloc, losses, NO_NUMBER),
    }
}

/// The tables of all numbers.
pub(crate) fn tables_of(alloc: Global, numbers: &Numbers, size: usize) -> Result<Tables, Memory>
    requires numbers { HasNumbers numbers.now size }
    requires few { size < 2 ^ 32 - 1 }
    ensures { IfOk result (λ made. AreTablesOf numbers.now size made) }
{
    let losses = losses_of(alloc, numbers, size)?;
    Ok(Tables {
        ranks: table_of(alloc, &numbers.ranks, 0)?,
        distances: table_of(alloc, &numbers.distances, NO_NUMBER)?,
        losses,
    })
}
