//! Automata and their steps.
ghost use Rattle.std.specs.Prelude.{◌≡◌, ◌<◌, ◌≤◌, ◌^◌, ◌-◌, length};
ghost use Rattle.forms.specs.Word.{IsOver};
ghost use Rattle.automata.specs.Moves.{accepts};
ghost use Rattle.automata.specs.Table.{size_of, mark_of, row_of, Fits, next_of, moves_of};

use diagrams::{Id, Store};
use std::marker::Model;

/// A first location, and for each location a mark and a row: a diagram over propositions whose terminals are locations.
/// Rows belong to the store that made them; what fits a store fits it however it grows.
#[derive(Drop)]
pub struct Automaton {
    first: u32,
    marks: Vec<u32>,
    rows: Vec<Id>,
}

impl Model for Automaton {
    ghost use Rattle.std.specs.Prelude.{◌≡◌, ◌<◌, ◌≤◌, ◌^◌, ◌-◌, length};
    ghost use Rattle.automata.specs.Table.{Table};

    ghost Value = { Table };

    ghost view = { λ a. record { first = a.first; marks = a.marks.items; rows = a.rows.items } };

    ghost invariant = { λ a. (length a.marks.items ≡ length a.rows.items) × (a.first < length a.rows.items) × (length a.rows.items ≤ 2 ^ 32 - 2) };
}

impl Automaton {
    /// The automaton of these locations. Whether it fits a store is a condition of the calls that take both.
    pub fn new(first: u32, marks: Vec<u32>, rows: Vec<Id>) -> Automaton
        requires same { length marks.items ≡ length rows.items }
        requires first { first < length rows.items }
        requires few { length rows.items ≤ 2 ^ 32 - 2 }
        ensures first { result.first ≡ first }
        ensures marks { result.marks ≡ marks.items }
        ensures rows { result.rows ≡ rows.items }
    {
        Automaton { first, marks, rows }
    }

    /// The number of locations, from 1 to 2^32 - 2.
    pub fn size(&self) -> u32
        ensures size { result ≡ size_of self.now }
        ensures few { result ≤ 2 ^ 32 - 2 }
        ensures marks { length self.now.marks ≡ result }
    {
        self.rows.len() as u32
    }

    /// The first location.
    pub fn first(&self) -> u32
        ensures first { result ≡ self.now.first }
        ensures within { result < size_of self.now }
    {
        self.first
    }

    /// The mark of a location.
    pub fn mark(&self, at: u32) -> u32
        requires { at < size_of self.now }
        ensures { result ≡ mark_of self.now at }
    {
        self.marks[at as usize]
    }

    /// The row of a location.
    pub fn row(&self, at: u32) -> Id
        requires { at < size_of self.now }
        ensures { result ≡ row_of self.now at }
    {
        self.rows[at as usize]
    }

    /// The location after a letter.
    pub fn step(&self, store: &Store, at: u32, letter: u64) -> u32
        requires at { at < size_of self.now }
        requires fits { Fits store.now self.now }
        requires letter { letter < 2 ^ store.now.props }
        ensures next { result ≡ next_of store.now self.now at letter }
        ensures within { result < size_of self.now }
    {
        store.value(self.row(at), letter)
    }

    /// Whether the location after a word has the mark 1.
    pub fn accepts(&self, store: &Store, word: &[u64]) -> bool
        requires fits { Fits store.now self.now }
        requires letters { IsOver store.now.props word.now }
        ensures { result ≡ accepts (moves_of store.now self.now) word.now }
    {
        let mut at = self.first();
        for letter in word {
            at = self.step(store, at, *letter);
        }
        self.mark(at) == 1
    }
}
