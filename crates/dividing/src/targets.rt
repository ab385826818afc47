//! The locations to which rows lead.
ghost use Rattle.std.specs.Prelude.{◌≡◌, ◌<◌, IfOk};
ghost use Rattle.automata.specs.Table.{size_of, row_of, Fits};
ghost use Rattle.dividing.specs.Divisions.{AreTargets, HaveTargets, targets_at};

use automata::Automaton;
use bes_io::Memory;
use diagrams::Store;
use std::alloc::Global;
use std::marker::Model;

/// For each location of an automaton those to which it leads.
#[derive(Drop)]
pub struct Targets {
    lists: Vec<Vec<u32>>,
}

impl Model for Targets {
    ghost use Rattle.std.specs.Prelude.{ℕ, List, map};

    ghost Value = { List (List ℕ) };

    ghost view = { λ a. map (λ list. list.items) a.lists.items };
}

/// The locations to which one leads.
fn targets_of(
    alloc: Global,
    store: &Store,
    automaton: &Automaton,
    at: u32,
) -> Result<Vec<u32>, Memory>
    requires fits { Fits store.now automaton.now }
    requires at { at < size_of automaton.now }
    ensures { IfOk result (λ list. AreTargets store.now (size_of automaton.now) (row_of automaton.now at) list.items) }
{
    store.next_terminals(alloc, automaton.row(at))
}

impl Targets {
    /// The locations to which each location leads.
    pub fn new(alloc: Global, store: &Store, automaton: &Automaton) -> Result<Targets, Memory>
        requires { Fits store.now automaton.now }
        ensures { IfOk result (HaveTargets store.now automaton.now) }
    {
        let mut lists = Vec::new(alloc);
        for at in 0..automaton.size() {
            lists.push(targets_of(alloc, store, automaton, at)?)?;
        }
        Ok(Targets { lists })
    }

    /// Those to which one leads.
    pub fn of(&self, at: u32) -> &[u32]
        ensures { result.now ≡ targets_at self.now at }
    {
        match self.lists.get(at as usize) {
            Some(list) => list.as_slice(),
            None => &[],
        }
    }
}
