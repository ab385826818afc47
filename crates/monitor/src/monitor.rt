//! Monitors and their steps.
ghost use Rattle.std.specs.Prelude.{◌≡◌, ◌<◌, ◌^◌, ◌↔◌, ℕ, [], IfOk, IsTrue};
ghost use Rattle.diagrams.specs.Tree.{Assignment};
ghost use Rattle.diagrams.specs.Eval.{eval};
ghost use Rattle.diagrams.specs.Live.{IsLive};
ghost use Rattle.automata.specs.Table.{size_of, mark_of, Fits, moves_of};
ghost use Rattle.minimise.specs.Minimal.{IsLeast};
ghost use Rattle.monitor.specs.Configuration.{IsReady, LeadsTo, IsVerdictAfter, IsMovedBy};
ghost use Rattle.monitor.specs.Verdicts.{verdict_of};

use crate::verdict::Verdict;
use automata::Automaton;
use bes_io::Memory;
use diagrams::{Id, Look, Store};
use std::alloc::Global;
use std::marker::Model;

/// A least automaton, and the location to which the letters so far lead. No letter is kept.
#[derive(Drop)]
pub struct Monitor {
    whole: Automaton,
    at: u32,
}

impl Model for Monitor {
    ghost use Rattle.monitor.specs.Configuration.{Configuration};

    ghost Value = { Configuration };

    ghost view = { λ m. record { automaton = m.whole; location = m.at } };
}

/// Whether a row leads to this location at every letter.
fn leads_only_to(store: &Store, row: Id, at: u32) -> bool
    requires { IsLive store.now row }
    ensures { IsTrue result ↔ ((a : Assignment) → eval store.now row a ≡ at) }
{
    match store.look(row) {
        Look::Terminal(next) => next == at,
        Look::Node { .. } => false,
    }
}

impl Monitor {
    /// The monitor of the claim whose words the automaton accepts, before the first letter.
    pub fn new(_alloc: Global, store: &Store, whole: Automaton) -> Result<Monitor, Memory>
        requires fits { Fits store.now whole }
        requires marks { (at : ℕ) → at < size_of whole → mark_of whole at < 2 }
        requires least { IsLeast store.now.props (moves_of store.now whole) }
        ensures ready { IfOk result (λ m. IsReady store.now m) }
        ensures automaton { IfOk result (λ m. m.automaton ≡ whole) }
        ensures empty { IfOk result (λ m. LeadsTo store.now m []) }
    {
        let at = whole.first();
        Ok(Monitor { whole, at })
    }

    /// Reads the next letter, which is below 2^props, and answers the verdict of the letters so far, this one included.
    pub fn event(&mut self, store: &Store, letter: u64) -> Verdict
        requires ready { IsReady store.now self.old }
        requires letter { letter < 2 ^ store.now.props }
        ensures ready { IsReady store.now self.new }
        ensures same { self.new.automaton ≡ self.old.automaton }
        ensures verdict { IsVerdictAfter store.now self.old letter (verdict_of result) }
        ensures moved { IsMovedBy store.now self.old self.new letter }
    {
        let at = self.whole.step(store, self.at, letter);
        self.at = at;
        let permanent = leads_only_to(store, self.whole.row(at), at);
        let met = self.whole.mark(at) == 1;
        match (permanent, met) {
            (true, true) => Verdict::PermTrue,
            (true, false) => Verdict::PermFalse,
            (false, true) => Verdict::TempTrue,
            (false, false) => Verdict::TempFalse,
        }
    }
}
