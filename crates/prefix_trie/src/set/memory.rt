//! Freeing memory that a set does not need.
ghost use Rattle.std.specs.Prelude.{◌≡◌, OnOk, OnErr, IfErr};
ghost use Rattle.prefix_trie_bits.specs.declared.prefix.Refusal.TheVariants.{Memory};
ghost use Rattle.prefix_trie_bits.specs.Calls.SplitsOff.{IsPacked};
ghost use Rattle.prefix_trie_bits.specs.Model.Nodes.{needed};
ghost use Rattle.prefix_trie_map.specs.Steps.{state, stored_state};
ghost use Rattle.prefix_trie_table.specs.Model.Contents.{storage};

use crate::set::PrefixSet;
use prefix_trie_bits::prefix::{Prefix, Refusal};
use std::alloc::{AllocError, Allocator};

impl<P: Prefix, A: Allocator> PrefixSet<P, A> {
    /// Frees the memory that the set has reserved and does not use, as `PrefixMap::shrink_to_fit` does.
    ///
    /// # Errors
    ///
    /// Returns an error if memory of a smaller size could not be allocated. The set is unchanged in both cases.
    ///
    /// # Examples
    ///
    /// ```rust
    /// // set = {10.1.0.0/16}
    /// set.shrink_to_fit()?;
    /// set.len();                  // 1
    /// ```
    pub fn shrink_to_fit(&mut self) -> Result<(), AllocError>
        ensures { self.new ≡ self.old }
    {
        self.map.shrink_to_fit()
    }
}

impl<P: Prefix, A: Allocator + Clone> PrefixSet<P, A> {
    /// Moves all keys to new arrays that are as small as the keys allow, as `PrefixMap::compact` does.
    ///
    /// # Errors
    ///
    /// Returns `Memory` if an allocation fails, and never `IndexRange`. The set is unchanged then, its slots and blocks
    /// too.
    ///
    /// # Examples
    ///
    /// ```rust
    /// // set = {10.1.0.0/16, 10.1.2.0/24}
    /// set.remove(&"10.1.2.0/24".parse()?);
    /// set.compact()?;
    /// (set.node_slots(), set.cell_slots());       // (4, 1): as in a new set with 10.1.0.0/16 alone
    /// ```
    pub fn compact(&mut self) -> Result<(), Refusal>
        ensures entries { OnOk result (self.new.entries ≡ self.old.entries) }
        ensures nodes { OnOk result (self.new.nodes ≡ needed self.old.entries) }
        ensures packed { OnOk result (IsPacked (state self.new) (storage self.new)) }
        ensures limit { OnOk result (self.new.space.limit ≡ self.old.space.limit) }
        ensures unchanged { OnErr result (stored_state self.new ≡ stored_state self.old) }
        ensures only_memory { IfErr result (λ cause. cause ≡ Memory) }
    {
        self.map.compact()
    }
}
