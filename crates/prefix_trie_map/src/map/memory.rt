//! Giving memory back.
ghost use Rattle.std.specs.Prelude.{◌≡◌, OnOk, OnErr, IfErr};
ghost use Rattle.prefix_trie_bits.specs.declared.prefix.Refusal.TheVariants.{Memory};
ghost use Rattle.prefix_trie_bits.specs.Calls.SplitsOff.{IsPacked};
ghost use Rattle.prefix_trie_bits.specs.Model.Nodes.{needed};
ghost use Rattle.prefix_trie_map.specs.Steps.{state, stored_state};
ghost use Rattle.prefix_trie_table.specs.Model.Contents.{storage};

use crate::map::{PrefixMap, Visits};
use prefix_trie_bits::prefix::{Prefix, Refusal};
use std::alloc::{AllocError, Allocator};

impl<P: Prefix, T: Drop, A: Allocator> PrefixMap<P, T, A> {
    /// Frees the memory that the map has reserved and does not use.
    ///
    /// Its slots and blocks stay as they are, free blocks too: `compact` frees those.
    ///
    /// # Errors
    ///
    /// Returns an error if memory of a smaller size could not be allocated. Some may have been freed until then. In
    /// both cases the map is the same.
    ///
    /// # Examples
    ///
    /// ```rust
    /// // map = {10.1.0.0/16: 1}
    /// map.shrink_to_fit()?;
    /// map.len();                  // 1
    /// ```
    pub fn shrink_to_fit(&mut self) -> Result<(), AllocError>
        ensures { self.new ≡ self.old }
    {
        self.table.shrink_to_fit()
    }
}

impl<P: Prefix, T: Drop, A: Allocator + Clone> PrefixMap<P, T, A> {
    /// Moves all entries to new arrays that are as small as the entries allow, in listing order.
    ///
    /// The map then has just the nodes that the entries need, each block is the smallest that holds its items, and none
    /// is free. Since the blocks are in listing order, a walk reads memory in order. Values move: none is cloned or
    /// dropped. The old arrays are freed at the end, so memory for both is needed at once.
    ///
    /// # Errors
    ///
    /// Returns `Memory` if an allocation fails, and never `IndexRange`. All memory of the new arrays is allocated before
    /// a value moves, so the map is unchanged then, its slots and blocks too.
    ///
    /// # Examples
    ///
    /// ```rust
    /// // map = {10.1.0.0/16: 1, 10.1.2.0/24: 2}
    /// map.remove(&"10.1.2.0/24".parse()?);
    /// map.compact()?;
    /// (map.node_slots(), map.cell_slots());       // (4, 1): as in a new map with 10.1.0.0/16 alone
    /// ```
    pub fn compact(&mut self) -> Result<(), Refusal>
        ensures entries { OnOk result (self.new.entries ≡ self.old.entries) }
        ensures nodes { OnOk result (self.new.nodes ≡ needed self.old.entries) }
        ensures packed { OnOk result (IsPacked (state self.new) (storage self.new)) }
        ensures limit { OnOk result (self.new.space.limit ≡ self.old.space.limit) }
        ensures unchanged { OnErr result (stored_state self.new ≡ stored_state self.old) }
        ensures only_memory { IfErr result (λ cause. cause ≡ Memory) }
    {
        self.table.compact::<P::R>(&mut Visits::new())
    }
}
