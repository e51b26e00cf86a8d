//! Building a whole list at once, in a block of its final size.
ghost use Rattle.std.specs.Prelude.{◌≡◌, ◌+◌, ◌^◌, ◌<◌, ◌≤◌, All, List, length, replicate, IfOk, IfErr, IsSome};
ghost use Rattle.prefix_trie_table.specs.Splitting.Building.{BuildsList};
ghost use Rattle.prefix_trie_table.specs.Blocks.Store.{UsedBlock, Sound, tier_sizes};
ghost use Rattle.prefix_trie_bits.specs.Model.Blocks.{smallest_size};
ghost use Rattle.prefix_trie_bits.specs.Calls.SplitsOff.{packed_slots};
ghost use Rattle.prefix_trie_bits.specs.declared.prefix.Refusal.TheVariants.{IndexRange};

use crate::allocator::array::SlotArray;
use crate::allocator::blocks::{BlockRef, Blocks};
use crate::allocator::slots::{Slot, write_run};
use prefix_trie_bits::prefix::Refusal;
use std::alloc::Allocator;

impl<S: Slot, R: SlotArray<S>, A: Allocator> Blocks<S, R, A> {
    /// Returns the allocator of the array.
    pub fn allocator(&self) -> &A {
        self.lists.allocator()
    }

    /// Returns the number of slots that the array never exceeds.
    pub fn limit(&self) -> u32
        ensures { result ≡ self.now.limit }
    {
        self.limit
    }

    /// Builds a list of `count` vacant items in a block of the smallest size that fits, and returns the block.
    ///
    /// The block is made at the end of the array if none of its size is free. An empty list has no block (tier 0, start 0).
    ///
    /// # Errors
    ///
    /// Returns `IndexRange` if the block would exceed the limit, and `Memory` if an allocation fails.
    pub fn build_vacant(&mut self, count: u32) -> Result<BlockRef, Refusal>
        requires sound { (live : List (UsedBlock S)) × Sound S.vacant live self.old }
        requires fits { IsSome (smallest_size (tier_sizes self.old.tiers) count) }
        ensures built { IfOk result
            (BuildsList S.vacant self.old self.new (replicate count S.vacant)) }
        ensures longer { IfOk result
            (λ _. length self.new.slots
            ≤ length self.old.slots + packed_slots (tier_sizes self.old.tiers) count) }
        ensures range { IfErr result (λ cause. cause ≡ IndexRange
            → self.old.limit
            < length self.old.slots + packed_slots (tier_sizes self.old.tiers) count) }
    {
        if count == 0 {
            return Ok(BlockRef { tier: 0, start: 0 });
        }
        let tier = self.tier_holding(count as usize);
        self.obtain(tier, 1)?;
        let start = self.take(tier);
        Ok(BlockRef { tier, start })
    }
}

impl<S: Slot + Copy, R: SlotArray<S>, A: Allocator> Blocks<S, R, A> {
    /// Builds a list of these items, as `build_vacant` does for vacant ones.
    pub fn build(&mut self, items: &[S]) -> Result<BlockRef, Refusal>
        requires values { All R.can_hold items.now }
        requires sound { (live : List (UsedBlock S)) × Sound S.vacant live self.old }
        requires fits { IsSome (smallest_size (tier_sizes self.old.tiers) (length items.now)) }
        requires few { length items.now < 2 ^ 32 }
        ensures built { IfOk result (BuildsList S.vacant self.old self.new items.now) }
        ensures longer { IfOk result (λ _. length self.new.slots
            ≤ length self.old.slots + packed_slots (tier_sizes self.old.tiers) (length items.now)) }
        ensures range { IfErr result (λ cause. cause ≡ IndexRange
            → self.old.limit
            < length self.old.slots + packed_slots (tier_sizes self.old.tiers) (length items.now)) }
    {
        let at = self.build_vacant(items.len() as u32)?;
        write_run(&mut self.slots, at.start as usize, items);
        Ok(at)
    }
}
