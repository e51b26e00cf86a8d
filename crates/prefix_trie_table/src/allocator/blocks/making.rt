//! Making blocks, before an item is inserted into a list.
ghost use Rattle.std.specs.Prelude.{◌≡◌, ℕ, ◌+◌, ◌-◌, ◌^◌, ◌<◌, ◌≤◌, ◌↔◌, List, None, length, option_map, IfSome, OnOk, OnErr, IfErr, IsSome};
ghost use Rattle.prefix_trie_bits.specs.Model.Blocks.{smallest_size};
ghost use Rattle.prefix_trie_table.specs.Blocks.Cells.{HasSizes};
ghost use Rattle.prefix_trie_table.specs.Blocks.Store.{UsedBlock, Sound, Turnover, Obtains, SameSlots, tier_sizes, size_in, free_in, many_of, none_of, list_need, needs, AreFree};
ghost use Rattle.prefix_trie_bits.specs.declared.prefix.Refusal.TheVariants.{Memory, IndexRange};

use crate::allocator::array::SlotArray;
use crate::allocator::blocks::Blocks;
use crate::allocator::slots::{Slot, push_vacant};
use prefix_trie_bits::prefix::Refusal;
use std::alloc::Allocator;

impl<S: Slot, R: SlotArray<S>, A: Allocator> Blocks<S, R, A> {
    /// Makes the missing blocks for one more value in a list, and then for the first values of `lists` other lists.
    ///
    /// The list has `count` values in a block of tier `k`; a list of 0 values has no block. Free blocks are counted
    /// first, size by size, and missing blocks are made at the end of the array.
    ///
    /// # Errors
    ///
    /// Returns an error only if a block is missing: `IndexRange` if the slots of the missing blocks would exceed the
    /// limit, and `Memory` if an allocation fails. The blocks that were made before stay, and are free.
    pub fn prepare(&mut self, k: usize, count: u32, lists: usize) -> Result<(), Refusal>
        requires tier { 0 < count → k < length self.old.tiers }
        requires sizes { HasSizes self.old.tiers }
        requires fits { IsSome (smallest_size (tier_sizes self.old.tiers) (count + 1)) }
        requires few { lists + 1 < 2 ^ 64 }
        ensures obtains { Obtains (λ e. e ≡ IndexRange) (λ e. e ≡ Memory) result self.old self.new
            (needs (list_need self.old.tiers k count) lists) }
        ensures kept { SameSlots self.old self.new }
        ensures unchanged { AreFree self.old.tiers (needs (list_need self.old.tiers k count) lists)
            → self.new ≡ self.old }
        ensures sound { (live : List (UsedBlock S)) → Sound S.vacant live self.old
            → Sound S.vacant live self.new }
    {
        let mut singles = lists;
        if let Some(tier) = self.missing_tier(k, count) {
            if tier == 0 {
                singles += 1;
            } else {
                self.obtain(tier, 1)?;
            }
        }
        self.obtain(0, singles)
    }

    /// Returns the tier of the block that must be free before a value is inserted into the list of `count` values in a block of tier `k`.
    fn missing_tier(&self, k: usize, count: u32) -> Option<usize>
        requires tier { 0 < count → k < length self.now.tiers }
        requires sizes { HasSizes self.now.tiers }
        requires fits { IsSome (smallest_size (tier_sizes self.now.tiers) (count + 1)) }
        ensures within { IfSome result (λ t. t < length self.now.tiers) }
        ensures size { list_need self.now.tiers k count
            ≡ option_map (size_in (tier_sizes self.now.tiers)) result }
    {
        if count == 0 {
            return Some(0);
        }
        if count < self.size_of(k) {
            return None;
        }
        Some(self.tier_holding(count as usize + 1))
    }

    /// Makes a block of tier `k` at the end of the array, as a free one.
    #[inline(never)]
    fn make(&mut self, k: usize) -> Result<(), Refusal>
        requires { k < length self.old.tiers }
        ensures made { OnOk result
            (Turnover self.old self.new
            (many_of (size_in (tier_sizes self.old.tiers) k) 1) None None) }
        ensures err { OnErr result (Turnover self.old self.new none_of None None) }
        ensures range { IfErr result
            (λ e. (e ≡ IndexRange)
            ↔ (self.old.limit < length self.old.slots + size_in (tier_sizes self.old.tiers) k)) }
        ensures kept { SameSlots self.old self.new }
        ensures sound { (live : List (UsedBlock S)) → Sound S.vacant live self.old
            → Sound S.vacant live self.new }
    {
        let size = self.size_of(k);
        let len = self.len();
        if len + size as usize > self.limit as usize {
            return Err(Refusal::IndexRange);
        }
        if self.slots.reserve(size as usize).is_err() {
            return Err(Refusal::Memory);
        }
        let list = &mut self.lists[k];
        if list.push_made(len as u32).is_err() {
            return Err(Refusal::Memory);
        }
        push_vacant(&mut self.slots, size);
        Ok(())
    }

    /// Makes the blocks of tier `k` that are missing until `n` are free. After an error, those made before stay free.
    #[inline(always)]
    pub(super) fn obtain(&mut self, k: usize, n: usize) -> Result<(), Refusal>
        requires { k < length self.old.tiers }
        ensures made { OnOk result
            (Turnover self.old self.new (many_of (size_in (tier_sizes self.old.tiers) k)
            (n - free_in self.old.tiers (size_in (tier_sizes self.old.tiers) k))) None None) }
        ensures err { OnErr result
            ((m : ℕ) × (free_in self.old.tiers (size_in (tier_sizes self.old.tiers) k) + m < n)
            × Turnover self.old self.new
            (many_of (size_in (tier_sizes self.old.tiers) k) m) None None) }
        ensures range { IfErr result
            (λ e. (e ≡ IndexRange)
            ↔ (self.new.limit < length self.new.slots + size_in (tier_sizes self.old.tiers) k)) }
        ensures unchanged { n ≤ free_in self.old.tiers (size_in (tier_sizes self.old.tiers) k)
            → self.new ≡ self.old }
        ensures kept { SameSlots self.old self.new }
        ensures sound { (live : List (UsedBlock S)) → Sound S.vacant live self.old
            → Sound S.vacant live self.new }
    {
        for _i in self.free_of(k)..n {
            self.make(k)?;
        }
        Ok(())
    }
}
