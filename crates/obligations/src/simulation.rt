//! The greatest simulation on the locations of an automaton, by striking out (Milner 1971; Henzinger, Henzinger and Kopke 1995).
ghost use Rattle.std.specs.Prelude.{◌≡◌, ◌<◌, true, false, IfOk, OnOk, OnErr};
ghost use Rattle.std.specs.HashSet as set;
ghost use Rattle.automata.specs.Table.{size_of, Fits};
ghost use Rattle.obligations.specs.Inclusion.{IsSimulation};
ghost use Rattle.obligations.specs.Related.{related, LeadsBelow, LeadsWithin, same_compared, IsKnown, IsNoted, IsSimulated, AreSimulated};

use crate::relation::Relation;
use automata::Automaton;
use bes_io::Memory;
use diagrams::{Id, Look, Store, cofactors, least_variable};
use std::alloc::Global;
use std::collections::HashSet;

/// A diagram and another, whose targets are compared.
#[derive(Clone, Copy, PartialEq, Eq, Hash)]
pub struct Compared {
    pub lower: Id,
    pub upper: Id,
}

/// Notes that the targets of two rows are related.
fn note(known: &mut HashSet<Compared>, both: Compared) -> Result<(), Memory>
    ensures ok { OnOk result (IsNoted known.old known.new both) }
    ensures err { OnErr result ((other : Compared)
        → set.contains same_compared known.new other ≡ set.contains same_compared known.old other) }
{
    known.insert(both)?;
    Ok(())
}

/// Whether the targets of two rows are related under each letter. What is known of other rows is kept.
fn leads_within(
    store: &Store,
    relation: &Relation,
    known: &mut HashSet<Compared>,
    f: Id,
    g: Id,
) -> Result<bool, Memory>
    requires f { LeadsBelow store.now relation.now.size f }
    requires g { LeadsBelow store.now relation.now.size g }
    requires known { IsKnown store.now (related relation.now) known.old }
    ensures known { IsKnown store.now (related relation.now) known.new }
    ensures within { IfOk result (λ within. within ≡ true → LeadsWithin store.now (related relation.now) f g) }
{
    let f_top = store.look(f);
    let g_top = store.look(g);
    if let (Look::Terminal(x), Look::Terminal(y)) = (f_top, g_top) {
        return Ok(relation.holds(x, y));
    }
    let both = Compared { lower: f, upper: g };
    if known.contains(&both) {
        return Ok(true);
    }
    let Some(var) = least_variable(f_top, g_top) else {
        unreachable!()
    };
    let (f_lo, f_hi) = cofactors(f, f_top, var);
    let (g_lo, g_hi) = cofactors(g, g_top, var);
    if !leads_within(store, relation, known, f_lo, g_lo)? {
        return Ok(false);
    }
    if !leads_within(store, relation, known, f_hi, g_hi)? {
        return Ok(false);
    }
    note(known, both)?;
    Ok(true)
}

/// Whether y has the mark 1 where x has it, and leads to locations to which those of x are related.
fn is_simulated(
    store: &Store,
    automaton: &Automaton,
    relation: &Relation,
    known: &mut HashSet<Compared>,
    x: u32,
    y: u32,
) -> Result<bool, Memory>
    requires fits { Fits store.now automaton.now }
    requires size { relation.now.size ≡ size_of automaton.now }
    requires x { x < size_of automaton.now }
    requires y { y < size_of automaton.now }
    requires known { IsKnown store.now (related relation.now) known.old }
    ensures known { IsKnown store.now (related relation.now) known.new }
    ensures simulated { IfOk result (λ simulated.
        simulated ≡ true → IsSimulated store.now automaton.now (related relation.now) x y) }
{
    if automaton.mark(x) == 1 && automaton.mark(y) != 1 {
        return Ok(false);
    }
    leads_within(store, relation, known, automaton.row(x), automaton.row(y))
}

/// Strikes out the pairs of a location that is not simulated, and says whether there were any.
fn strike_pairs(
    alloc: Global,
    store: &Store,
    automaton: &Automaton,
    relation: &mut Relation,
    known: &mut HashSet<Compared>,
    x: u32,
) -> Result<bool, Memory>
    requires fits { Fits store.now automaton.now }
    requires size { relation.old.size ≡ size_of automaton.now }
    requires x { x < size_of automaton.now }
    requires known { IsKnown store.now (related relation.old) known.old }
    ensures size { relation.new.size ≡ relation.old.size }
    ensures known { IsKnown store.now (related relation.new) known.new }
    ensures same { IfOk result (λ struck. struck ≡ false → relation.new ≡ relation.old) }
    ensures simulated { IfOk result (λ struck.
        struck ≡ false → AreSimulated store.now automaton.now (related relation.new) x (size_of automaton.now)) }
{
    let mut struck = false;
    for y in 0..relation.size() {
        if !relation.holds(x, y) || is_simulated(store, automaton, relation, known, x, y)? {
            continue;
        }
        relation.strike(x, y);
        *known = HashSet::new(alloc);
        struck = true;
    }
    Ok(struck)
}

/// Strikes out pairs of all locations, and says whether there were any. Later locations come first, since what tells
/// two apart is mostly ahead of them.
pub fn strike_round(
    alloc: Global,
    store: &Store,
    automaton: &Automaton,
    relation: &mut Relation,
) -> Result<bool, Memory>
    requires fits { Fits store.now automaton.now }
    requires size { relation.old.size ≡ size_of automaton.now }
    ensures size { relation.new.size ≡ relation.old.size }
    ensures simulation { IfOk result (λ struck. struck ≡ false → IsSimulation store.now automaton.now (related relation.new)) }
{
    let mut known = HashSet::new(alloc);
    let mut struck = false;
    for x in (0..relation.size()).rev() {
        if strike_pairs(alloc, store, automaton, relation, &mut known, x)? {
            struck = true;
        }
    }
    Ok(struck)
}
