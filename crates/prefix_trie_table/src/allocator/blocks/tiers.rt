//! The block size for the length of a list.
ghost use Rattle.std.specs.Prelude.{◌≡◌, ◌<◌, length, Some, IsSome};
ghost use Rattle.prefix_trie_bits.specs.Model.Blocks.{smallest_size};
ghost use Rattle.prefix_trie_table.specs.Blocks.Cells.{HasSizes};
ghost use Rattle.prefix_trie_table.specs.Blocks.Store.{tier_sizes, size_in};

use crate::allocator::array::SlotArray;
use crate::allocator::blocks::Blocks;
use crate::allocator::slots::Slot;
use std::alloc::Allocator;

impl<S: Slot, R: SlotArray<S>, A: Allocator> Blocks<S, R, A> {
    /// Returns the tier of the smallest blocks that have at least `n` slots.
    #[inline]
    pub(super) fn tier_holding(&self, n: usize) -> usize
        requires { IsSome (smallest_size (tier_sizes self.now.tiers) n) }
        ensures sizes { HasSizes self.now.tiers }
        ensures within { result < length self.now.tiers }
        ensures size { smallest_size (tier_sizes self.now.tiers) n
            ≡ Some (size_in (tier_sizes self.now.tiers) result) }
    {
        // Read for the proof alone: the sizes are those of nodes or of values.
        let _lists = &self.lists;
        TIERS[n] as usize
    }
}

// The tier for each length. The sizes of nodes and of values differ only in the last, so one table serves both.
static TIERS: [u8; 33] = [
    0, 0, 1, 2, 2, 3, 3, 3, 3, 4, 4, 4, 4, 4, 4, 4, 4, 5, 5, 5, 5, 5, 5, 5, 5, 6, 6, 6, 6, 6, 6, 6,
    6,
];
