//! Taking a free block, freeing one, and moving a list to another block.
ghost use Rattle.std.specs.Prelude.{◌≡◌, ℕ, ◌+◌, ◌<◌, ◌≤◌, ◌⊎◌, [], ◌∷◌, List, length, slice_index_or, None, Some};
ghost use Rattle.prefix_trie_table.specs.Blocks.Runs.{swap_runs};
ghost use Rattle.prefix_trie_table.specs.Blocks.Store.{UsedBlock, Sound, Turnover, tier_at, tier_sizes, size_in, free_in, none_of, block};

use crate::allocator::array::SlotArray;
use crate::allocator::blocks::Blocks;
use crate::allocator::slots::{Slot, move_run};
use std::alloc::Allocator;

impl<S: Slot, R: SlotArray<S>, A: Allocator> Blocks<S, R, A> {
    /// Removes a block of tier `k` from its free list, and returns its start.
    pub(super) fn take(&mut self, k: usize) -> u32
        requires within { k < length self.old.tiers }
        requires ready { 0 < free_in self.old.tiers (size_in (tier_sizes self.old.tiers) k) }
        ensures turnover { Turnover self.old self.new none_of None
            (Some (size_in (tier_sizes self.old.tiers) k)) }
        ensures sound { (live : List (UsedBlock S)) → Sound S.vacant live self.old
            → Sound S.vacant (block k result (tier_at self.old.tiers k).size [] ∷ live) self.new }
    {
        let list = &mut self.lists[k];
        list.pop()
    }

    /// Frees a block of tier `k` whose slots are vacant.
    ///
    /// It does not allocate: the block's capacity in the free list was reserved when the block was made.
    pub(super) fn give_back(&mut self, k: usize, start: u32)
        requires within { k < length self.old.tiers }
        requires reserved { length (tier_at self.old.tiers k).starts
            < (tier_at self.old.tiers k).made }
        ensures turnover { Turnover self.old self.new none_of
            (Some (size_in (tier_sizes self.old.tiers) k)) None }
        ensures sound { (live : List (UsedBlock S)) (n : ℕ)
            → Sound S.vacant (block k start n [] ∷ live) self.old → Sound S.vacant live self.new }
    {
        let list = &mut self.lists[k];
        list.push(start);
    }

    /// Moves the values of a block to an empty one.
    pub(super) fn move_items(&mut self, from: u32, to: u32, count: u32)
        requires from_within { from + count ≤ length self.old.slots }
        requires to_within { to + count ≤ length self.old.slots }
        requires apart { (from + count ≤ to) ⊎ (to + count ≤ from) }
        requires vacant { (k : ℕ) → k < count
            → slice_index_or self.old.slots (to + k) S.vacant ≡ S.vacant }
        ensures slots { self.new
            ≡ record self.old { slots = swap_runs self.old.slots from to count } }
        ensures len { length self.new.slots ≡ length self.old.slots }
        ensures sound { (a b : UsedBlock S) (live : List (UsedBlock S))
            → Sound S.vacant (a ∷ b ∷ live) self.old → a.start ≡ from → b.start ≡ to
            → length a.items ≡ count → b.items ≡ [] → count ≤ b.size
            → Sound S.vacant
            (record a { items = [] } ∷ record b { items = a.items } ∷ live) self.new }
    {
        move_run(&mut self.slots, from as usize, to as usize, count as usize);
    }
}
