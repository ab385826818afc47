//! Strategies in play.
ghost use Rattle.std.specs.Prelude.{◌≡◌, ◌<◌, ◌≤◌, ◌^◌, ◌↔◌, ℕ, Some, IsSome, IsTrue};
ghost use Rattle.diagrams.specs.Eval.{Diagrams, letter_truth};
ghost use Rattle.game.specs.Board.{IsChoice, width};
ghost use Rattle.strategy.specs.Plan.{size_of, mark_at, choice_at, choice_of, decision_end, plan_of};
ghost use Rattle.strategy.specs.Fits.{FitsStrategy};

use crate::strategy::Strategy;
use choosing::{Chosen, Mark};
use diagrams::Store;
use forms::{Mover, Partition};

/// A letter of a decision.
fn letter_of(partition: Partition, input: u64) -> u64
    requires width { width partition ≤ 32 }
    requires input { IsChoice partition input }
    ensures below { result < 2 ^ width partition }
    ensures same { (v : ℕ) → v < decision_end partition → letter_truth (width partition) result v ≡ letter_truth (decision_end partition) input v }
{
    match partition.first {
        Mover::Agent => 0,
        Mover::Environment => input << partition.outputs,
    }
}

impl Strategy {
    /// The number of rounds within which the goal is forced from the start, where it can be.
    pub fn verdict(&self) -> Option<u32>
        ensures { (s : Diagrams) → result ≡ (plan_of s self.now).verdict }
    {
        self.verdict
    }

    /// The number of locations, from 1 to 2^32 - 2.
    pub fn size(&self) -> u32
        ensures { result ≡ size_of self.now }
    {
        self.marks.len() as u32
    }

    /// The mark of a location.
    pub fn mark(&self, at: u32) -> Mark
        requires { at < size_of self.now }
        ensures { result ≡ mark_at self.now at }
    {
        self.marks[at as usize]
    }

    /// The choice with a number, where there is one.
    pub(crate) fn choice(&self, number: u32) -> Option<Chosen>
        ensures { result ≡ choice_at self.now number }
    {
        match self.choices.get_index(number as usize) {
            Some(choice) => *choice,
            None => None,
        }
    }

    /// Whether a round is legal at a location that isn't a goal.
    pub fn legal(&self, store: &Store, at: u32, letter: u64) -> bool
        requires fits { FitsStrategy store.now self.now }
        requires at { at < size_of self.now }
        requires letter { letter < 2 ^ width (plan_of store.now self.now).parts }
        ensures { IsTrue result ↔ IsSome ((plan_of store.now self.now).target at letter) }
    {
        store.value(self.rows[at as usize], letter) < self.size()
    }

    /// The location after a legal round at a location that isn't a goal.
    pub fn advance(&self, store: &Store, at: u32, letter: u64) -> u32
        requires fits { FitsStrategy store.now self.now }
        requires at { at < size_of self.now }
        requires letter { letter < 2 ^ width (plan_of store.now self.now).parts }
        requires legal { IsSome ((plan_of store.now self.now).target at letter) }
        ensures { (plan_of store.now self.now).target at letter ≡ Some result }
    {
        store.value(self.rows[at as usize], letter)
    }

    /// What is chosen at a location that isn't a goal: agent first for the input 0, environment first for a legal input.
    pub fn answer(&self, store: &Store, at: u32, input: u64) -> Chosen
        requires fits { FitsStrategy store.now self.now }
        requires at { at < size_of self.now }
        requires input { IsChoice (plan_of store.now self.now).parts input }
        requires legal { IsSome ((plan_of store.now self.now).choice at input) }
        ensures { (plan_of store.now self.now).choice at input ≡ choice_of (Some result) }
    {
        prove!(store.props() <= 32);
        let letter = letter_of(self.partition, input);
        let number = store.value(self.moves[at as usize], letter);
        match self.choice(number) {
            Some(chosen) => chosen,
            None => Chosen {
                mark: Mark::Lost,
                output: 0,
            },
        }
    }
}
