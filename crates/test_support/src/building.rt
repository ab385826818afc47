//! Automata made by their rows.
ghost use Rattle.std.specs.Prelude.{◌≡◌, ◌<◌, ◌↔◌, ℕ, All, length, IsTrue, IfOk};
ghost use Rattle.diagrams.specs.Live.{Keeps, Means};
ghost use Rattle.automata.specs.Moves.{accepts};
ghost use Rattle.automata.specs.Table.{size_of, mark_of, moves_of, IsRow, Fits};
ghost use Rattle.automata.specs.Listing.{Lists};
ghost use Rattle.test_support.specs.Building.{target_at, IsBuilt};

use automata::{Automaton, print_table};
use bes_io::{Memory, Text};
use diagrams::{Id, Store};
use std::alloc::Global;

// The most locations.
const MOST: usize = 1000;

/// A mark, a proposition, and where a location goes if that is false and if it is true.
#[derive(Clone, Copy)]
pub struct Location(pub u32, pub u32, pub u32, pub u32);

/// A row that goes by one proposition, or always to `lo` where there is no such proposition. A
/// location past the last stands for the last.
pub fn row(store: &mut Store, last: u32, var: u32, lo: u32, hi: u32) -> Result<Id, Memory>
    ensures keeps { Keeps store.old store.new }
    ensures row { IfOk result (λ row. (size : ℕ) → last < size → IsRow store.new size row) }
    ensures leads { IfOk result (λ row. Means store.new row (target_at store.new.props last var lo hi)) }
{
    let on_false = store.terminal(lo.min(last))?;
    if var >= store.props() {
        return Ok(on_false);
    }
    let on_true = store.terminal(hi.min(last))?;
    store.node(var, on_false, on_true)
}

/// The automaton of these locations. A location past the last stands for the last.
pub fn automaton_of(
    alloc: Global,
    store: &mut Store,
    first: u32,
    table: &[Location],
) -> Result<Automaton, Memory>
    ensures keeps { Keeps store.old store.new }
    ensures size { IfOk result (λ made. size_of made ≡ length table.now) }
    ensures built { IfOk result (IsBuilt store.new first table.now) }
    ensures fits { IfOk result (Fits store.new) }
{
    prove!(store.props() <= 32);
    if table.is_empty() || table.len() > MOST {
        return Err(Memory);
    }
    let last = table.len() as u32 - 1;
    let mut marks = Vec::new(alloc);
    let mut rows = Vec::new(alloc);
    for Location(mark, var, lo, hi) in table {
        marks.push(*mark)?;
        rows.push(row(store, last, *var, *lo, *hi)?)?;
    }
    Ok(Automaton::new(first.min(last), marks, rows))
}

/// Whether all marks are 0 or 1.
pub fn has_small_marks(automaton: &Automaton) -> bool
    ensures { IsTrue result ↔ ((at : ℕ) → at < size_of automaton.now → mark_of automaton.now at < 2) }
{
    for at in 0..automaton.size() {
        if automaton.mark(at) > 1 {
            return false;
        }
    }
    true
}

/// The lines of an automaton. A mark that is not 0 or 1 fails the test.
pub fn listing(alloc: Global, store: &Store, automaton: &Automaton) -> Result<Text, Memory>
    requires { Fits store.now automaton.now }
    ensures { IfOk result (Lists store.now automaton.now (size_of automaton.now)) }
{
    if !has_small_marks(automaton) {
        return Err(Memory);
    }
    print_table(alloc, store, automaton)
}

/// Whether all numbers of a word are below one.
pub fn are_below(word: &[u64], limit: u64) -> bool
    ensures { IsTrue result ↔ All (λ a. a < limit) word.now }
{
    word.iter().all(|letter| *letter < limit)
}

/// Whether a word over two propositions is accepted. A number that is no letter fails the test.
pub fn accepted(store: &Store, made: &Automaton, word: &[u64]) -> Result<bool, Memory>
    requires props { store.now.props ≡ 2 }
    requires fits { Fits store.now made.now }
    ensures { IfOk result (λ answer. answer ≡ accepts (moves_of store.now made.now) word.now) }
{
    if !are_below(word, 4) {
        return Err(Memory);
    }
    Ok(made.accepts(store, word))
}
