//! Inserting an item into a list.
ghost use Rattle.std.specs.Prelude.{◌≡◌, ℕ, ◌+◌, ◌<◌, ◌≤◌, [], ◌∷◌, ◌++◌, List, Some, None, length, replicate, insert, remove};
ghost use Rattle.std.specs.Option.{option_or};
ghost use Rattle.prefix_trie_table.specs.Blocks.Runs.{run, put_run};
ghost use Rattle.prefix_trie_table.specs.Blocks.Cells.{HasSizes};
ghost use Rattle.prefix_trie_table.specs.Blocks.Store.{UsedBlock, Sound, Turnover, InUse, HasList, IsReady, tier_at, tier_sizes, size_in, free_in, none_of, block, held, list_size, list_need};

use crate::allocator::array::SlotArray;
use crate::allocator::blocks::{BlockRef, Blocks};
use crate::allocator::slots::{Slot, move_in};
use std::alloc::Allocator;

impl<S: Slot, R: SlotArray<S>, A: Allocator> Blocks<S, R, A> {
    /// Inserts a value into the list of `count` values in the block of tier `k` that starts at `start`, and returns the block of the list.
    ///
    /// A list of 0 values has no block. If the block is full, the list moves to a free block of the smallest size that fits, and its old
    /// block becomes free. This makes no block and does not allocate: `prepare` does both before.
    #[inline(always)]
    pub fn insert_at(&mut self, k: usize, start: u32, count: u32, offset: u32, value: S) -> BlockRef
        requires holds { HasList S.vacant self.old k start count }
        requires sizes { HasSizes self.old.tiers }
        requires ready { IsReady self.old.tiers k count }
        requires offset { offset ≤ count }
        requires value { R.can_hold value }
        ensures is_there { list_size self.old.tiers result.tier (count + 1)
            ≡ option_or (list_need self.old.tiers k count) (list_size self.old.tiers k count) }
        ensures stays { list_need self.old.tiers k count ≡ None
            → result ≡ record { tier = k; start = start } }
        ensures turnover { Turnover self.old self.new none_of (list_size self.old.tiers k count)
            (list_size self.old.tiers result.tier (count + 1)) }
        ensures sound { (n : ℕ) (xs : List S) (live : List (UsedBlock S))
            → Sound S.vacant (held k start n xs ++ live) self.old → length xs ≡ count
            → Sound S.vacant
            (block result.tier result.start (tier_at self.old.tiers result.tier).size
            (insert xs offset value) ∷ live) self.new }
    {
        if count == 0 {
            let new = self.take(0);
            self.insert_within(new, 0, 0, value);
            return BlockRef {
                tier: 0,
                start: new,
            };
        }
        self.insert_into(k, start, count, offset, value)
    }

    /// Inserts a value into the list of a block. If the block is full, the list moves to a free block of the smallest size that fits.
    #[inline(always)]
    fn insert_into(&mut self, k: usize, start: u32, count: u32, offset: u32, value: S) -> BlockRef
        requires in_use { InUse S.vacant self.old k start count }
        requires some { 0 < count }
        requires sizes { HasSizes self.old.tiers }
        requires ready { IsReady self.old.tiers k count }
        requires offset { offset ≤ count }
        requires value { R.can_hold value }
        ensures is_there { list_size self.old.tiers result.tier (count + 1)
            ≡ option_or (list_need self.old.tiers k count) (list_size self.old.tiers k count) }
        ensures stays { list_need self.old.tiers k count ≡ None
            → result ≡ record { tier = k; start = start } }
        ensures turnover { Turnover self.old self.new none_of (list_size self.old.tiers k count)
            (list_size self.old.tiers result.tier (count + 1)) }
        ensures sound { (n : ℕ) (xs : List S) (live : List (UsedBlock S))
            → Sound S.vacant (block k start n xs ∷ live) self.old → length xs ≡ count
            → Sound S.vacant
            (block result.tier result.start (tier_at self.old.tiers result.tier).size
            (insert xs offset value) ∷ live) self.new }
    {
        if count < self.size_of(k) {
            self.insert_within(start, count, offset, value);
            return BlockRef { tier: k, start };
        }
        let tier = self.tier_holding(count as usize + 1);
        let start = self.insert_moving(k, start, tier, count, offset, value);
        BlockRef { tier, start }
    }

    /// Moves the list of a full block to a free block of tier `to`, inserts a value, and frees the old block.
    // It is a function of its own so that an insertion into a block that is not full costs less.
    #[inline(never)]
    fn insert_moving(
        &mut self,
        k: usize,
        outgrown: u32,
        to: usize,
        count: u32,
        offset: u32,
        value: S,
    ) -> u32
        requires in_use { InUse S.vacant self.old k outgrown count }
        requires within { to < length self.old.tiers }
        requires ready { 0 < free_in self.old.tiers (size_in (tier_sizes self.old.tiers) to) }
        requires holds { count < size_in (tier_sizes self.old.tiers) to }
        requires offset { offset ≤ count }
        requires value { R.can_hold value }
        ensures turnover { Turnover self.old self.new none_of
            (Some (size_in (tier_sizes self.old.tiers) k))
            (Some (size_in (tier_sizes self.old.tiers) to)) }
        ensures sound { (n : ℕ) (xs : List S) (live : List (UsedBlock S))
            → Sound S.vacant (block k outgrown n xs ∷ live) self.old → length xs ≡ count
            → Sound S.vacant
            (block to result (tier_at self.old.tiers to).size (insert xs offset value) ∷ live)
            self.new }
    {
        let new = self.take(to);
        self.move_in(outgrown, new, count, offset, value);
        self.give_back(k, outgrown);
        new
    }

    /// Moves the values of a block to an empty larger one, and inserts a value among them.
    fn move_in(&mut self, from: u32, to: u32, count: u32, offset: u32, value: S)
        requires blocks { (a : UsedBlock S) × (b : UsedBlock S) × (live : List (UsedBlock S))
            × Sound S.vacant (a ∷ b ∷ live) self.old × (a.start ≡ from) × (b.start ≡ to)
            × (length a.items ≡ count) × (b.items ≡ []) × (count < b.size) }
        requires offset { offset ≤ count }
        requires value { R.can_hold value }
        ensures slots { self.new
            ≡ record self.old {
              slots = put_run (put_run self.old.slots from (replicate count S.vacant)) to
                  (insert (run self.old.slots from count) offset value);
            } }
        ensures len { length self.new.slots ≡ length self.old.slots }
        ensures sound { (a b : UsedBlock S) (live : List (UsedBlock S))
            → Sound S.vacant (a ∷ b ∷ live) self.old → a.start ≡ from → b.start ≡ to
            → length a.items ≡ count → b.items ≡ [] → count < b.size
            → Sound S.vacant
            (record a { items = [] } ∷ record b { items = insert a.items offset value } ∷ live)
            self.new }
    {
        move_in(
            &mut self.slots,
            from as usize,
            to as usize,
            count as usize,
            offset as usize,
            value,
        );
    }

    /// Inserts a value into a block that is not full, whose list has `count` values.
    fn insert_within(&mut self, start: u32, count: u32, offset: u32, value: S)
        requires space { start + count < length self.old.slots }
        requires offset { offset ≤ count }
        requires value { R.can_hold value }
        ensures slots { self.new
            ≡ record self.old
            { slots = insert (remove self.old.slots (start + count)) (start + offset) value } }
        ensures len { length self.new.slots ≡ length self.old.slots }
        ensures sound { (b : UsedBlock S) (live : List (UsedBlock S))
            → Sound S.vacant (b ∷ live) self.old
            → b.start ≡ start → length b.items ≡ count → count < b.size
            → Sound S.vacant (record b { items = insert b.items offset value } ∷ live) self.new }
    {
        let start = start as usize;
        self.slots
            .insert_shifting(start + offset as usize, start + count as usize, value);
    }
}
