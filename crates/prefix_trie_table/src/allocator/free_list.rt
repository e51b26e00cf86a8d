//! The free list of one size: a stack of free blocks, with reserved capacity for all blocks of that size.
ghost use Rattle.std.specs.Prelude.{◌≡◌, ◌+◌, ◌^◌, ◌<◌, ◌≤◌, [], ◌∷◌, ◌++◌, length, map, OnOk, OnErr, vec_len, vec_capacity};
ghost use Rattle.prefix_trie_table.specs.Blocks.Store.{no_blocks};
ghost use Rattle.prefix_trie_table.specs.Blocks.BlockCounts.{tier_count};

use crate::allocator::block_count::BlockCount;
use crate::allocator::slots::{reserve, shrink};
use std::alloc::{AllocError, Allocator};
use std::marker::Model;

/// The blocks of one size: how many exist, and where the free ones start.
#[derive(Drop)]
pub struct FreeList<A: Allocator> {
    size: u32,
    made: u32,
    starts: Vec<u32, A>,
}

// Clauses see the size, the number of blocks and the starts of the free ones. The capacity is enough for all blocks.
impl<A: Allocator> Model for FreeList<A> {
    ghost use Rattle.std.specs.Prelude.{◌≤◌, vec_len, vec_capacity};
    ghost use Rattle.prefix_trie_table.specs.Blocks.Store.{Tier};

    ghost Value = { Tier };

    ghost view = { λ a. record { size = a.size; made = a.made; starts = a.starts.items } };

    ghost invariant = { λ a. (vec_len a.starts ≤ a.made) × (a.made ≤ vec_capacity a.starts) };
}

impl<A: Allocator> FreeList<A> {
    /// Creates the list of a size that has no blocks yet.
    pub fn new(alloc: A, size: u32) -> Self
        ensures { result ≡ record { size = size; made = 0; starts = [] } }
    {
        FreeList {
            size,
            made: 0,
            starts: Vec::new(alloc),
        }
    }

    /// Returns the number of slots of a block.
    pub fn size(&self) -> u32
        ensures { result ≡ self.now.size }
    {
        self.size
    }

    /// Counts the blocks in use and the free ones.
    pub fn count(&self) -> BlockCount
        ensures { result ≡ tier_count self.now }
    {
        let free = self.starts.len();
        BlockCount {
            size: self.size as usize,
            used: self.made as usize - free,
            free,
        }
    }

    /// Returns the number of free blocks.
    pub fn free(&self) -> usize
        ensures count { result ≡ length self.now.starts }
        ensures within { length self.now.starts ≤ self.now.made }
    {
        self.starts.len()
    }

    /// Adds a new block that starts at `start` as a free one, and reserves capacity for it.
    ///
    /// # Errors
    ///
    /// Returns an error if an allocation fails. The list is unchanged then.
    pub fn push_made(&mut self, start: u32) -> Result<(), AllocError>
        requires { self.old.made + 1 < 2 ^ 32 }
        ensures ok { OnOk result
            (self.new ≡ record self.old
            { made = self.old.made + 1; starts = self.old.starts ++ start ∷ [] }) }
        ensures err { OnErr result (self.new ≡ self.old) }
    {
        let places = self.made as usize + 1 - self.starts.len();
        reserve(&mut self.starts, places)?;
        self.starts.push_reserved(start);
        self.made += 1;
        Ok(())
    }

    /// Removes a free block and returns its start.
    pub fn pop(&mut self) -> u32
        requires { 0 < length self.old.starts }
        ensures starts { self.old.starts ≡ self.new.starts ++ result ∷ [] }
        ensures rest { self.new ≡ record self.old { starts = self.new.starts } }
    {
        self.starts.take_last()
    }

    /// Adds a block that is no longer in use. Its capacity was reserved when the block was made, so this does not allocate.
    pub fn push(&mut self, start: u32)
        requires { length self.old.starts < self.old.made }
        ensures { self.new ≡ record self.old { starts = self.old.starts ++ start ∷ [] } }
    {
        self.starts.push_reserved(start);
    }

    /// Frees the capacity that exceeds the number of blocks.
    pub fn shrink_to_fit(&mut self) -> Result<(), AllocError>
        ensures { self.new ≡ self.old }
    {
        shrink(&mut self.starts, self.made as usize)
    }

    /// Removes all blocks, used and free, and keeps the capacity.
    pub fn clear(&mut self)
        ensures { self.new ≡ no_blocks self.old.size }
    {
        self.starts.clear();
        self.made = 0;
    }
}

// A clone also has capacity for all blocks, so `push` does not allocate there either.
impl<A: Allocator + Clone> Clone for FreeList<A> {
    ghost use Rattle.std.specs.Prelude.{◌≡◌};

    ghost is_clone = { λ list copy. copy ≡ list };

    fn clone(&self) -> Result<Self, AllocError> {
        let alloc = self.starts.allocator().clone()?;
        let mut starts = Vec::with_capacity(alloc, self.made as usize)?;
        starts.extend_from_slice(&self.starts)?;
        Ok(FreeList {
            size: self.size,
            made: self.made,
            starts,
        })
    }
}

/// Removes all blocks of all sizes.
pub fn clear_all<A: Allocator>(lists: &mut Vec<FreeList<A>, A>)
    ensures { lists.new.items ≡ map (λ t. no_blocks t.size) lists.old.items }
{
    for list in lists.iter_mut() {
        list.clear();
    }
}

/// Frees the capacity of each list that exceeds its number of blocks.
pub fn shrink_all<A: Allocator>(lists: &mut Vec<FreeList<A>, A>) -> Result<(), AllocError>
    ensures { lists.new.items ≡ lists.old.items }
{
    for k in 0..lists.len() {
        let list = &mut lists[k];
        list.shrink_to_fit()?;
    }
    Ok(())
}
