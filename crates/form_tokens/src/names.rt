//! A table of names and their numbers.
ghost use Rattle.std.specs.Prelude.{◌≡◌, ◌<◌, ◌++◌, ◌∷◌, [], true, false, IfOk, OnOk, IfErr, OnErr, None, length, position, slice_index_or};
ghost use Rattle.std.specs.Str.{bytes_eq};
ghost use Rattle.form_tokens.specs.Words.{is_name};
ghost use Rattle.form_tokens.specs.Names.{AreNames, is_listed, name_refusal, number_of, Refuses};

use crate::name_fault::NameFault;
use crate::word::is_name;
use bes_io::Memory;
use indexmap::IndexSet;
use std::alloc::Global;
use std::marker::Model;

const MOST_NAMES: usize = 32;

/// A table of at most 32 names of propositions, all different. A name's number is its place, counted from 0.
#[derive(Drop)]
pub struct Names {
    list: IndexSet<Vec<u8>>,
    closed: bool,
    alloc: Global,
}

impl Model for Names {
    ghost use Rattle.std.specs.Prelude.{map};
    ghost use Rattle.form_tokens.specs.Names.{Table, AreNames};

    ghost Value = { Table };

    ghost view = { λ s. record { names = map (λ name. name.items) s.list.keys; closed = s.closed } };

    ghost invariant = { λ s. AreNames (map (λ name. name.items) s.list.keys) };
}

impl Names {
    /// An empty table that isn't closed.
    pub fn new(alloc: Global) -> Result<Names, Memory>
        ensures names { IfOk result (λ made. made.names ≡ []) }
        ensures closed { IfOk result (λ made. made.closed ≡ false) }
    {
        let list = IndexSet::with_capacity(alloc, MOST_NAMES)?;
        Ok(Names {
            list,
            closed: false,
            alloc,
        })
    }

    /// Puts a name at the end, and gives its number.
    pub fn add(&mut self, name: &[u8]) -> Result<u32, NameFault>
        ensures number { IfOk result (λ i. i ≡ length self.old.names) }
        ensures added { OnOk result (self.new.names ≡ self.old.names ++ name.now ∷ []) }
        ensures ok { OnOk result (name_refusal self.old.names name.now ≡ None) }
        ensures fault { IfErr result (λ e. Refuses e (name_refusal self.old.names name.now)) }
        ensures kept { OnErr result (self.new.names ≡ self.old.names) }
        ensures closed { self.new.closed ≡ self.old.closed }
    {
        if !is_name(name) {
            return Err(NameFault::Bad);
        }
        if self.contains(name) {
            return Err(NameFault::Twice);
        }
        if self.list.len() >= MOST_NAMES {
            return Err(NameFault::TooMany);
        }
        let number = self.len();
        match self.append(name) {
            Ok(()) => Ok(number),
            Err(_) => Err(NameFault::Memory),
        }
    }

    /// Closes the table: a formula that is read may have no new name. `add` still takes new names.
    pub fn close(&mut self)
        ensures names { self.new.names ≡ self.old.names }
        ensures closed { self.new.closed ≡ true }
    {
        self.closed = true;
    }

    /// Whether the table is closed.
    pub fn is_closed(&self) -> bool
        ensures { result ≡ self.now.closed }
    {
        self.closed
    }

    /// The number of a name, if it is in the table.
    pub fn find(&self, name: &[u8]) -> Option<u32>
        ensures { result ≡ position (bytes_eq name.now) self.now.names }
    {
        match self.list.get_index_of(name) {
            Some(i) => Some(i as u32),
            None => None,
        }
    }

    /// The number of a name, or that which the next new name gets.
    #[tactic(auto, using(crate::proofs::NamesLemmas::positions))]
    pub fn number(&self, name: &[u8]) -> u32
        ensures { result ≡ number_of self.now.names name.now }
    {
        match self.find(name) {
            Some(i) => i,
            None => self.len(),
        }
    }

    /// Whether a name is in the table.
    pub fn contains(&self, name: &[u8]) -> bool
        ensures { result ≡ is_listed self.now.names name.now }
    {
        self.find(name).is_some()
    }

    /// How many names there are.
    pub fn len(&self) -> u32
        ensures value { result ≡ length self.now.names }
        ensures table { AreNames self.now.names }
    {
        self.list.len() as u32
    }

    /// The name with this number.
    pub fn name(&self, i: u32) -> &[u8]
        requires { i < length self.now.names }
        ensures { result.now ≡ slice_index_or self.now.names i [] }
    {
        self.list.as_slice()[i as usize].as_slice()
    }

    /// Puts a new name at the end.
    fn append(&mut self, name: &[u8]) -> Result<(), Memory>
        requires room { length self.old.names < 32 }
        requires new { is_listed self.old.names name.now ≡ false }
        requires valid { is_name name.now ≡ true }
        ensures added { OnOk result (self.new.names ≡ self.old.names ++ name.now ∷ []) }
        ensures kept { OnErr result (self.new.names ≡ self.old.names) }
        ensures closed { self.new.closed ≡ self.old.closed }
    {
        let copied = Vec::from_slice(self.alloc, name)?;
        self.list.insert(copied)?;
        Ok(())
    }
}
