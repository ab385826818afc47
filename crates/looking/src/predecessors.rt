//! The locations that lead to a location.
ghost use Rattle.std.specs.Prelude.{◌≡◌, ◌<◌, ℕ, [], ◌∷◌, length, map, replicate, slice_index, IfOk, OnOk};
ghost use Rattle.automata.specs.Table.{Fits};
ghost use Rattle.linked_blocks.specs.Lists.{list_of};
ghost use Rattle.looking.specs.Predecessors.{HavePredecessors, IsAdded, leaders};

use automata::Automaton;
use bes_io::Memory;
use diagrams::Store;
use std::alloc::Global;
use std::marker::Model;

/// For each location of an automaton those that lead to it.
#[derive(Drop)]
pub struct Predecessors {
    lists: Vec<Vec<u32>>,
}

impl Model for Predecessors {
    ghost use Rattle.std.specs.Prelude.{ℕ, List, map};

    ghost Value = { List (List ℕ) };

    ghost view = { λ a. map (λ list. list.items) a.lists.items };
}

/// As many lists, all empty.
fn empty_lists(alloc: Global, count: u32) -> Result<Vec<Vec<u32>>, Memory>
    ensures { IfOk result (λ lists. map (λ list. list.items) lists.items ≡ replicate count []) }
{
    let mut lists = Vec::new(alloc);
    for _k in 0..count {
        lists.push(Vec::new(alloc))?;
    }
    Ok(lists)
}

/// Appends a location to the list of one to which it leads.
fn add(lists: &mut Vec<Vec<u32>>, target: u32, at: u32) -> Result<(), Memory>
    requires { target < length lists.old.items }
    ensures { OnOk result (IsAdded (map (λ list. list.items) lists.old.items) (map (λ list. list.items) lists.new.items) (target ∷ []) at) }
{
    let list = &mut lists[target as usize];
    list.push(at)?;
    Ok(())
}

/// Appends a location to the lists of those to which it leads.
fn add_to_all(lists: &mut Vec<Vec<u32>>, targets: &[u32], at: u32) -> Result<(), Memory>
    requires { (k : ℕ) → k < length targets.now → slice_index targets.now k < length lists.old.items }
    ensures { OnOk result (IsAdded (map (λ list. list.items) lists.old.items) (map (λ list. list.items) lists.new.items) targets.now at) }
{
    for target in targets {
        add(lists, *target, at)?;
    }
    Ok(())
}

impl Predecessors {
    /// The locations that lead to each location.
    pub fn new(alloc: Global, store: &Store, automaton: &Automaton) -> Result<Predecessors, Memory>
        requires { Fits store.now automaton.now }
        ensures { IfOk result (HavePredecessors store.now automaton.now) }
    {
        let mut lists = empty_lists(alloc, automaton.size())?;
        for at in 0..automaton.size() {
            let targets = store.next_terminals(alloc, automaton.row(at))?;
            add_to_all(&mut lists, &targets, at)?;
        }
        Ok(Predecessors { lists })
    }

    /// Those that lead to one; none, where it has no list.
    fn of(&self, at: u32) -> &[u32]
        ensures { result.now ≡ list_of self.now at }
    {
        match self.lists.get(at as usize) {
            Some(list) => list.as_slice(),
            None => &[],
        }
    }

    /// The locations that lead to any of these.
    pub fn of_all(&self, alloc: Global, shifted: &[u32]) -> Result<Vec<u32>, Memory>
        ensures { IfOk result (λ found. found.items ≡ leaders self.now shifted.now) }
    {
        let mut found = Vec::new(alloc);
        for at in shifted {
            found.extend_from_slice(self.of(*at))?;
        }
        Ok(found)
    }
}
