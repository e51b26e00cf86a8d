//! Memory that a table does not need: what is reserved and unused, and blocks that are free or larger than their lists.
ghost use Rattle.std.specs.Prelude.{◌≡◌, OnOk, OnErr, IfErr};
ghost use Rattle.prefix_trie_bits.specs.declared.prefix.Refusal.TheVariants.{Memory};
ghost use Rattle.prefix_trie_bits.specs.Calls.Entries.{AreWithin};
ghost use Rattle.prefix_trie_bits.specs.Calls.SplitsOff.{IsPacked};
ghost use Rattle.prefix_trie_bits.specs.Calls.Nodes.{AreNodes};
ghost use Rattle.prefix_trie_bits.specs.Model.Nodes.{needed};
ghost use Rattle.prefix_trie_table.specs.Model.Contents.{state, storage, stored_state};

use crate::allocator::nodes::VisitCounter;
use crate::table::Table;
use prefix_trie_bits::prefix::{BitString, Key, Refusal};
use std::alloc::{AllocError, Allocator};

impl<T: Drop, A: Allocator, V: VisitCounter> Table<T, A, V> {
    /// Frees the memory that no slot and no free list needs. Contracts see no change.
    ///
    /// # Errors
    ///
    /// Returns an error if an allocation of less memory failed. What was freed until then stays free.
    pub fn shrink_to_fit(&mut self) -> Result<(), AllocError>
        ensures { self.new ≡ self.old }
    {
        self.nodes.shrink_to_fit()?;
        self.cells.shrink_to_fit()
    }
}

impl<T: Drop, A: Allocator + Clone, V: VisitCounter> Table<T, A, V> {
    /// Moves all entries to new arrays that are as small as the entries allow, in listing order.
    ///
    /// The new arrays have just the nodes that the entries need, in the smallest blocks that hold their lists, and no
    /// free block. The limit is the same.
    ///
    /// # Errors
    ///
    /// Returns `Memory` if an allocation failed. All memory of the new arrays is allocated before the first value moves,
    /// so the table is unchanged then.
    pub fn compact<K: Key>(&mut self, counter: &mut V) -> Result<(), Refusal>
        requires within { AreWithin K.bit_width self.old.entries }
        requires nodes { AreNodes K.bit_width self.old.entries self.old.nodes }
        ensures entries { OnOk result (self.new.entries ≡ self.old.entries) }
        ensures nodes { OnOk result (self.new.nodes ≡ needed self.old.entries) }
        ensures packed { OnOk result (IsPacked (state self.new) (storage self.new)) }
        ensures limit { OnOk result (self.new.space.limit ≡ self.old.space.limit) }
        ensures kept { OnErr result (stored_state self.new ≡ stored_state self.old) }
        ensures memory { IfErr result (λ cause. cause ≡ Memory) }
    {
        let compacted = self.remove_children(BitString::new(K::zero(), 0), counter)?;
        *self = compacted;
        Ok(())
    }
}
