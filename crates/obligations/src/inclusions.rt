//! Which locations of an automaton accept all that others do.
ghost use Rattle.std.specs.Prelude.{◌≡◌, ◌<◌, true, IfOk};
ghost use Rattle.automata.specs.Table.{size_of, Fits};
ghost use Rattle.obligations.specs.Inclusion.{IsSimulation, IsWider};
ghost use Rattle.obligations.specs.Followed.{wider_of};
ghost use Rattle.obligations.specs.Related.{related, AreSimulators, AcceptsAll, IsWiderAt};

use crate::relation::{MOST_RELATED, Relation};
use crate::simulation::strike_round;
use automata::Automaton;
use bes_io::Memory;
use diagrams::{Look, Store};
use std::alloc::Global;
use std::marker::Model;

/// For each location of an automaton, locations that all accept what it accepts.
#[derive(Drop)]
pub struct Inclusions {
    lists: Vec<Vec<u32>>,
}

impl Model for Inclusions {
    ghost use Rattle.std.specs.Prelude.{ℕ, List, map};

    ghost Value = { List (List ℕ) };

    ghost view = { λ a. map (λ list. list.items) a.lists.items };
}

impl Inclusions {
    /// The locations that go with one; none, where it has no list.
    pub fn of(&self, at: u32) -> &[u32]
        ensures { result.now ≡ wider_of self.now at }
    {
        match self.lists.get(at as usize) {
            Some(list) => list.as_slice(),
            None => &[],
        }
    }
}

/// Whether a location has the mark 1 and leads to itself under each letter, and so accepts every word.
fn accepts_all(store: &Store, automaton: &Automaton, at: u32) -> bool
    requires fits { Fits store.now automaton.now }
    requires at { at < size_of automaton.now }
    ensures { result ≡ true → AcceptsAll store.now automaton.now at }
{
    match store.look(automaton.row(at)) {
        Look::Terminal(to) => to == at && automaton.mark(at) == 1,
        Look::Node { .. } => false,
    }
}

/// The location itself; none, where it accepts every word.
fn alone(alloc: Global, store: &Store, automaton: &Automaton, at: u32) -> Result<Vec<u32>, Memory>
    requires fits { Fits store.now automaton.now }
    requires at { at < size_of automaton.now }
    ensures { IfOk result (λ list. IsWiderAt store.now automaton.now at list.items) }
{
    if accepts_all(store, automaton, at) {
        return Ok(Vec::new(alloc));
    }
    Ok(vec![in alloc; at]?)
}

/// For each location itself alone; none, where it accepts every word.
pub fn themselves(alloc: Global, store: &Store, automaton: &Automaton) -> Result<Inclusions, Memory>
    requires fits { Fits store.now automaton.now }
    ensures wider { IfOk result (λ made. IsWider store.now automaton.now (wider_of made)) }
{
    let mut lists = Vec::new(alloc);
    for at in 0..automaton.size() {
        lists.push(alone(alloc, store, automaton, at)?)?;
    }
    Ok(Inclusions { lists })
}

/// The locations to which one is related, and itself, in order.
fn simulators(alloc: Global, relation: &Relation, x: u32) -> Result<Vec<u32>, Memory>
    requires { x < relation.now.size }
    ensures { IfOk result (λ list. AreSimulators (related relation.now) relation.now.size x list.items) }
{
    let mut list = Vec::new(alloc);
    for y in 0..relation.size() {
        if y == x || relation.holds(x, y) {
            list.push(y)?;
        }
    }
    Ok(list)
}

/// The locations to which one is related, and itself; none, where it accepts every word.
fn wider(
    alloc: Global,
    store: &Store,
    automaton: &Automaton,
    relation: &Relation,
    x: u32,
) -> Result<Vec<u32>, Memory>
    requires fits { Fits store.now automaton.now }
    requires size { relation.now.size ≡ size_of automaton.now }
    requires simulation { IsSimulation store.now automaton.now (related relation.now) }
    requires x { x < size_of automaton.now }
    ensures { IfOk result (λ list. IsWiderAt store.now automaton.now x list.items) }
{
    if accepts_all(store, automaton, x) {
        return Ok(Vec::new(alloc));
    }
    simulators(alloc, relation, x)
}

/// For each location those to which it is related, and itself; none, where it accepts every word.
fn listed(
    alloc: Global,
    store: &Store,
    automaton: &Automaton,
    relation: &Relation,
) -> Result<Inclusions, Memory>
    requires fits { Fits store.now automaton.now }
    requires size { relation.now.size ≡ size_of automaton.now }
    requires simulation { IsSimulation store.now automaton.now (related relation.now) }
    ensures { IfOk result (λ made. IsWider store.now automaton.now (wider_of made)) }
{
    let mut lists = Vec::new(alloc);
    for x in 0..automaton.size() {
        lists.push(wider(alloc, store, automaton, relation, x)?)?;
    }
    Ok(Inclusions { lists })
}

/// For each location those found to accept all that it accepts, itself among them, and none where it accepts every word;
/// past 512 locations itself alone.
pub fn find_inclusions(
    alloc: Global,
    store: &Store,
    automaton: &Automaton,
) -> Result<Inclusions, Memory>
    requires fits { Fits store.now automaton.now }
    ensures wider { IfOk result (λ made. IsWider store.now automaton.now (wider_of made)) }
{
    let size = automaton.size();
    if size > MOST_RELATED {
        return themselves(alloc, store, automaton);
    }
    let mut relation = Relation::new(alloc, size)?;
    // Each round but the last strikes a pair.
    for _ in 0..=size * size {
        if !strike_round(alloc, store, automaton, &mut relation)? {
            return listed(alloc, store, automaton, &relation);
        }
    }
    themselves(alloc, store, automaton)
}
