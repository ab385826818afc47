//! The marks after words, from each location.
ghost use Rattle.std.specs.Prelude.{◌≡◌, ◌≢◌, ◌<◌, ◌≤◌, ◌^◌, ℕ, All, length, slice_index, IfOk};
ghost use Rattle.automata.specs.Table.{size_of, mark_of, Fits, next_of};
ghost use Rattle.distinguish.specs.Columns.{mark_in};

use automata::Automaton;
use bes_io::Memory;
use diagrams::Store;
use std::alloc::Global;
use std::marker::Model;

/// The marks after one word, from each location.
#[derive(Drop)]
pub(crate) struct Column {
    marks: Vec<u32>,
}

impl Model for Column {
    ghost use Rattle.std.specs.Prelude.{ℕ, List};

    ghost Value = { List ℕ };

    ghost view = { λ c. c.marks.items };
}

impl Column {
    /// The marks of all locations, which are those after the empty word.
    pub(crate) fn new(alloc: Global, automaton: &Automaton) -> Result<Column, Memory>
        ensures size { IfOk result (λ column. length column ≡ size_of automaton.now) }
        ensures marks { IfOk result (λ column. (at : ℕ) → at < size_of automaton.now
            → slice_index column at ≡ mark_of automaton.now at) }
    {
        let mut marks = Vec::new(alloc);
        for at in 0..automaton.size() {
            marks.push(automaton.mark(at))?;
        }
        Ok(Column { marks })
    }

    /// The mark from a location.
    pub(crate) fn mark(&self, at: u32) -> u32
        requires { at < length self.now }
        ensures { result ≡ slice_index self.now at }
    {
        self.marks[at as usize]
    }

    /// The marks after a letter and then the word.
    pub(crate) fn after(
        &self,
        alloc: Global,
        store: &Store,
        automaton: &Automaton,
        letter: u64,
    ) -> Result<Column, Memory>
        requires fits { Fits store.now automaton.now }
        requires letter { letter < 2 ^ store.now.props }
        requires size { length self.now ≡ size_of automaton.now }
        ensures size { IfOk result (λ column. length column ≡ size_of automaton.now) }
        ensures marks { IfOk result (λ column. (at : ℕ) → at < size_of automaton.now
            → slice_index column at
            ≡ slice_index self.now (next_of store.now automaton.now at letter)) }
    {
        let mut marks = Vec::new(alloc);
        for at in 0..automaton.size() {
            marks.push(self.mark(automaton.step(store, at, letter)))?;
        }
        Ok(Column { marks })
    }
}

/// The place of the first column in which two locations have different marks, or the number of
/// columns.
pub(crate) fn first_apart(columns: &[Column], one: u32, other: u32) -> usize
    requires { All (λ column. (one < length column) × (other < length column)) columns.now }
    ensures within { result ≤ length columns.now }
    ensures before { (k : ℕ) → k < result
        → mark_in columns.now k one ≡ mark_in columns.now k other }
    ensures found { result < length columns.now
        → mark_in columns.now result one ≢ mark_in columns.now result other }
{
    for (k, column) in columns.iter().enumerate() {
        if column.mark(one) != column.mark(other) {
            return k;
        }
    }
    columns.len()
}
