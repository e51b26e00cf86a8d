//! Removing an item from a list.
ghost use Rattle.std.specs.Prelude.{◌≡◌, ℕ, ◌+◌, ◌-◌, ◌<◌, ◌≤◌, ◌↔◌, ◌∷◌, ◌++◌, List, None, Some, length, insert, remove, option_map, IfSome, IfNone, IsSome, MatchOption, slice_index_or};
ghost use Rattle.prefix_trie_table.specs.Blocks.Cells.{HasSizes};
ghost use Rattle.prefix_trie_table.specs.Blocks.Losing.{LosesOne};
ghost use Rattle.prefix_trie_table.specs.Blocks.Store.{UsedBlock, Sound, Turnover, InUse, HasList, tier_at, tier_sizes, size_in, free_in, none_of, many_of, block, held, list_size};

use crate::allocator::array::SlotArray;
use crate::allocator::blocks::{BlockRef, Blocks};
use crate::allocator::slots::Slot;
use std::alloc::Allocator;

impl<S: Slot, R: SlotArray<S>, A: Allocator> Blocks<S, R, A> {
    /// Removes a value from a list, and returns the value and the block of the rest.
    ///
    /// The list has `count` values in the block of tier `k` that starts at `start`. If a smaller size holds the rest,
    /// it moves to a block of the smallest such size that is free or can be made, and its old block becomes free. If no
    /// such block can be had, the rest stays. An empty rest has no block (tier 0, start 0). This never fails.
    #[inline(always)]
    pub fn remove_at(&mut self, k: usize, start: u32, count: u32, offset: u32) -> (S, BlockRef)
        requires holds { HasList S.vacant self.old k start count }
        requires sizes { HasSizes self.old.tiers }
        requires offset { offset < count }
        ensures loses { LosesOne self.old self.new count (list_size self.old.tiers k count)
            (list_size self.old.tiers result.1.tier (count - 1)) }
        ensures tier { result.1.tier < length self.old.tiers }
        ensures gone { count ≡ 1 → result.1 ≡ record { tier = 0; start = 0 } }
        ensures stays { 1 < count → result.1.tier ≡ k → result.1.start ≡ start }
        ensures value { (n : ℕ) (xs : List S) (live : List (UsedBlock S))
            → Sound S.vacant (held k start n xs ++ live) self.old → length xs ≡ count
            → result.0 ≡ slice_index_or xs offset result.0 }
        ensures sound { (n : ℕ) (xs : List S) (live : List (UsedBlock S))
            → Sound S.vacant (held k start n xs ++ live) self.old → length xs ≡ count
            → Sound S.vacant
            (held result.1.tier result.1.start (tier_at self.old.tiers result.1.tier).size
            (remove xs offset) ++ live) self.new }
    {
        let (value, left) = self.remove_from(k, start, count, offset);
        match left {
            Some(rest) => (value, rest),
            None => (value, BlockRef { tier: 0, start: 0 }),
        }
    }

    /// Removes a value from the list of a block, and returns the value and the block of the rest, if any is left.
    #[inline(always)]
    fn remove_from(
        &mut self,
        k: usize,
        start: u32,
        count: u32,
        offset: u32,
    ) -> (S, Option<BlockRef>)
        requires in_use { InUse S.vacant self.old k start count }
        requires sizes { HasSizes self.old.tiers }
        requires offset { offset < count }
        ensures none { IsSome result.1 ↔ (1 < count) }
        ensures loses { LosesOne self.old self.new count
            (Some (size_in (tier_sizes self.old.tiers) k))
            (option_map (λ p. size_in (tier_sizes self.old.tiers) p.tier) result.1) }
        ensures stays { IfSome result.1 (λ p. p.tier ≡ k → p.start ≡ start) }
        ensures value { (n : ℕ) (xs : List S) (live : List (UsedBlock S))
            → Sound S.vacant (block k start n xs ∷ live) self.old → length xs ≡ count
            → result.0 ≡ slice_index_or xs offset result.0 }
        ensures sound { (n : ℕ) (xs : List S) (live : List (UsedBlock S))
            → Sound S.vacant (block k start n xs ∷ live) self.old → length xs ≡ count
            → MatchOption result.1 (Sound S.vacant live self.new)
            (λ p. Sound S.vacant
            (block p.tier p.start (tier_at self.old.tiers p.tier).size (remove xs offset) ∷ live)
            self.new) }
    {
        let value = self.remove_within(start, count, offset);
        let rest = count - 1;
        if rest == 0 {
            self.give_back(k, start);
            return (value, None);
        }
        let tier = self.tier_holding(rest as usize);
        if tier < k {
            if let Some(new) = self.step_down(k, start, tier, rest) {
                return (value, Some(BlockRef { tier, start: new }));
            }
        }
        (value, Some(BlockRef { tier: k, start }))
    }

    /// Moves the list of a block to a block of tier `to`, if one is free or can be made, and frees the old block.
    fn step_down(&mut self, k: usize, start: u32, to: usize, count: u32) -> Option<u32>
        requires in_use { InUse S.vacant self.old k start count }
        requires within { to < length self.old.tiers }
        requires holds { count ≤ size_in (tier_sizes self.old.tiers) to }
        ensures kept { IfNone result (Turnover self.old self.new none_of None None) }
        ensures taken { 0 < free_in self.old.tiers (size_in (tier_sizes self.old.tiers) to)
            → IsSome result }
        ensures turnover { let size = size_in (tier_sizes self.old.tiers) to in IfSome result
            (λ _. Turnover self.old self.new
            (many_of size (1 - free_in self.old.tiers size))
            (Some (size_in (tier_sizes self.old.tiers) k)) (Some size)) }
        ensures sound { (n : ℕ) (xs : List S) (live : List (UsedBlock S))
            → Sound S.vacant (block k start n xs ∷ live) self.old → length xs ≡ count
            → MatchOption result (Sound S.vacant (block k start n xs ∷ live) self.new)
            (λ new. Sound S.vacant
            (block to new (tier_at self.old.tiers to).size xs ∷ live) self.new) }
    {
        if self.obtain(to, 1).is_err() {
            return None;
        }
        let new = self.take(to);
        self.move_items(start, new, count);
        self.give_back(k, start);
        Some(new)
    }

    /// Removes a value from a block whose list has `count` values.
    fn remove_within(&mut self, start: u32, count: u32, offset: u32) -> S
        requires within { start + count ≤ length self.old.slots }
        requires offset { offset < count }
        ensures slots { self.new
            ≡ record self.old {
              slots = insert (remove self.old.slots (start + offset))
                  (start + count - 1) S.vacant;
            } }
        ensures value { (b : UsedBlock S) (live : List (UsedBlock S))
            → Sound S.vacant (b ∷ live) self.old
            → b.start ≡ start → length b.items ≡ count
            → result ≡ slice_index_or b.items offset result }
        ensures len { length self.new.slots ≡ length self.old.slots }
        ensures sound { (b : UsedBlock S) (live : List (UsedBlock S))
            → Sound S.vacant (b ∷ live) self.old
            → b.start ≡ start → length b.items ≡ count
            → Sound S.vacant (record b { items = remove b.items offset } ∷ live) self.new }
    {
        let start = start as usize;
        self.slots
            .remove_shifting(start + offset as usize, start + count as usize - 1)
    }
}
