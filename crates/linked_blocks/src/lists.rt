//! Blocks of locations.
ghost use Rattle.std.specs.Prelude.{◌≡◌, ◌≢◌, ◌<◌, ◌≤◌, ◌+◌, ◌-◌, ◌^◌, ◌∷◌, ◌++◌, [], ℕ, Some, length, slice_get, slice_index, IfOk};
ghost use Rattle.std.specs.List.{range_with_len};
ghost use Rattle.linked_blocks.specs.Lists.{list_of, IsThere, block_in, shifted, HoldEach};

use crate::links::{begin_ring, links_back, links_forth, recount, relink};
use bes_io::Memory;
use std::alloc::Global;
use std::marker::Model;

/// Blocks of locations, each a doubly linked list through its locations.
#[derive(Drop)]
pub struct Blocks {
    block: Vec<u32>,
    next: Vec<usize>,
    prev: Vec<usize>,
    count: Vec<u32>,
    used: u32,
    moves: u64,
}

impl Model for Blocks {
    ghost use Rattle.linked_blocks.specs.Lists.{Lists};

    ghost Value = { Lists };

    ghost use Rattle.linked_blocks.specs.Links.{lists_of, AreLinkedUp};

    ghost view = { lists_of };

    ghost invariant = { AreLinkedUp };
}

impl Blocks {
    /// One block of so many locations, in order.
    pub fn new(alloc: Global, size: u32) -> Result<Blocks, Memory>
        requires { 0 < size }
        ensures lists { IfOk result (λ blocks. blocks.lists ≡ range_with_len 0 size ∷ []) }
        ensures moves { IfOk result (λ blocks. blocks.moves ≡ 0) }
    {
        let next = links_forth(alloc, size as usize)?;
        let prev = links_back(alloc, size as usize)?;
        let block = vec![in alloc; 0; size as usize]?;
        let mut count = vec![in alloc; 0; size as usize]?;
        count[0] = size;
        Ok(Blocks {
            block,
            next,
            prev,
            count,
            used: 1,
            moves: 0,
        })
    }

    /// Appends an empty block and answers its number.
    pub fn add_block(&mut self) -> u32
        requires { IsThere self.old.lists (length self.old.lists) }
        ensures number { result ≡ length self.old.lists }
        ensures lists { self.new.lists ≡ self.old.lists ++ [] ∷ [] }
        ensures moves { self.new.moves ≡ self.old.moves }
    {
        let number = self.used;
        let place = self.block.len() + number as usize;
        begin_ring(
            &mut self.next,
            &mut self.prev,
            &mut self.count,
            place,
            number,
        );
        self.used = number + 1;
        number
    }

    /// Takes a location out of its block and puts it at the end of another.
    pub fn shift(&mut self, at: u32, into: u32)
        requires at { IsThere self.old.lists at }
        requires into { into < length self.old.lists }
        requires other { block_in self.old.lists at ≢ into }
        requires moves { self.old.moves < 2 ^ 64 - 1 }
        ensures lists { self.new.lists ≡ shifted self.old.lists at into }
        ensures moves { self.new.moves ≡ self.old.moves + 1 }
    {
        let size = self.block.len();
        relink(
            &mut self.next,
            &mut self.prev,
            at as usize,
            size + into as usize,
        );
        recount(&mut self.block, &mut self.count, at, into);
        self.moves += 1;
    }

    /// The block of a location.
    pub fn block_of(&self, at: u32) -> u32
        requires { IsThere self.now.lists at }
        ensures { result ≡ block_in self.now.lists at }
    {
        self.block[at as usize]
    }

    /// The number of locations of a block.
    pub fn count(&self, block: u32) -> u32
        requires { block < length self.now.lists }
        ensures { result ≡ length (list_of self.now.lists block) }
    {
        self.count[block as usize]
    }

    /// The first location of a block, where it has one.
    pub fn first(&self, block: u32) -> Option<u32>
        requires { block < length self.now.lists }
        ensures { result ≡ slice_get (list_of self.now.lists block) 0 }
    {
        let size = self.block.len();
        let place = self.next[size + block as usize];
        if place < size {
            Some(place as u32)
        } else {
            None
        }
    }

    /// The location after one in its block, where there is one.
    pub fn next(&self, at: u32) -> Option<u32>
        requires { IsThere self.now.lists at }
        ensures { (k : ℕ) → slice_get (list_of self.now.lists (block_in self.now.lists at)) k ≡ Some at → result ≡ slice_get (list_of self.now.lists (block_in self.now.lists at)) (k + 1) }
    {
        let size = self.block.len();
        let place = self.next[at as usize];
        if place < size {
            Some(place as u32)
        } else {
            None
        }
    }

    /// The number of shifts.
    pub fn moves(&self) -> u64
        ensures { result ≡ self.now.moves }
    {
        self.moves
    }

    /// The block of each location.
    pub fn numbers(&self) -> &[u32]
        ensures block { (at : ℕ) → IsThere self.now.lists at → slice_index result.now at ≡ block_in self.now.lists at }
        ensures size { HoldEach (length result.now) self.now.lists }
    {
        self.block.as_slice()
    }

    /// The number of blocks.
    pub fn len(&self) -> u32
        ensures { result ≡ length self.now.lists }
    {
        self.used
    }
}
