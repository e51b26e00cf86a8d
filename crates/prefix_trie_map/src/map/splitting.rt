//! Splitting entries off as a second map, and empty maps like a map.
ghost use Rattle.std.specs.Prelude.{◌≡◌, ◌<◌, length, IfOk, OnOk, IfErr, OnErr};
ghost use Rattle.prefix_trie_bits.specs.declared.prefix.Refusal.TheVariants.{Memory};
ghost use Rattle.prefix_trie_bits.specs.Model.Blocks.{no_layout};
ghost use Rattle.prefix_trie_bits.specs.Model.Entries.{no_entries, without_below};
ghost use Rattle.prefix_trie_bits.specs.Calls.Entries.{part_below};
ghost use Rattle.prefix_trie_bits.specs.Calls.SplitsOff.{SplitsOffInStorage};
ghost use Rattle.prefix_trie_bits.specs.Model.Nodes.{needed, nodes_without_below, root_alone};
ghost use Rattle.prefix_trie_table.specs.Steps.{BoundsStorageGrowth};
ghost use Rattle.prefix_trie_map.specs.Steps.{storage, stored_state};

use crate::map::{PrefixMap, Visits};
use prefix_trie_bits::prefix::{Prefix, Refusal};
use std::alloc::Allocator;
use std::marker::PhantomData;

impl<P: Prefix, T: Drop, A: Allocator + Clone> PrefixMap<P, T, A> {
    /// Creates an empty map with a clone of this map's allocator, and the same slot limit.
    ///
    /// # Errors
    ///
    /// Returns `Memory` if an allocation fails. No map exists then.
    ///
    /// # Examples
    ///
    /// ```rust
    /// // map = {10.1.0.0/16: 1}
    /// map.new_like()?.len();      // 0
    /// ```
    pub fn new_like(&self) -> Result<Self, Refusal>
        ensures entries { IfOk result (λ map. map.entries ≡ no_entries) }
        ensures nodes { IfOk result (λ map. map.nodes ≡ root_alone) }
        ensures space { IfOk result
            (λ map. map.space
            ≡ record { limit = self.now.space.limit; node_slots = 1; cell_slots = 0 }) }
        ensures layout { IfOk result (λ map. map.layout ≡ no_layout) }
        ensures only_memory { IfErr result (λ refusal. refusal ≡ Memory) }
    {
        let table = self.table.new_like()?;
        Ok(PrefixMap {
            table,
            marker: PhantomData,
        })
    }

    /// Removes the entries that this prefix contains, its own included, and returns them as a second map.
    ///
    /// If the prefix's own node is missing, the second map is empty. At length 0 it has all entries. Values move: none
    /// is cloned or dropped. The first map is left as `drop_children` leaves it.
    ///
    /// The second map has the limit of this map and a clone of its allocator. It is tidy and as small as a map of its
    /// entries can be: each block is the smallest that holds its items, and none is free. All its memory is allocated
    /// before a value moves.
    ///
    /// # Errors
    ///
    /// Returns `Memory` if an allocation fails. This map is unchanged then, its slots and blocks too, and no second map
    /// exists. `IndexRange` never comes: the second map has no more slots than this one.
    ///
    /// # Examples
    ///
    /// ```rust
    /// // map = {10.1.0.0/16: 1, 10.1.2.0/24: 2, 10.2.0.0/16: 3}
    /// let part = map.remove_children(&"10.1.0.0/16".parse()?)?;
    /// part.iter();    // [(10.1.0.0/16, 1), (10.1.2.0/24, 2)]
    /// map.iter();     // [(10.2.0.0/16, 3)]
    /// ```
    pub fn remove_children(&mut self, prefix: &P) -> Result<Self, Refusal>
        requires { P.IsFitting prefix.now }
        ensures split_off { IfOk result
            (λ second. second.entries ≡ part_below self.old.entries (P.path prefix.now)) }
        ensures split_nodes { IfOk result (λ second. second.nodes ≡ needed second.entries) }
        ensures entries { OnOk result
            (self.new.entries ≡ without_below self.old.entries (P.path prefix.now)) }
        ensures nodes { OnOk result
            (self.new.nodes
            ≡ nodes_without_below self.old.nodes self.old.entries (P.path prefix.now)) }

        // This is a step of the model, of the storage of both maps too.
        ensures step { IfOk result
            (λ second. SplitsOffInStorage (stored_state self.old) (P.path prefix.now)
            (stored_state second) (stored_state self.new)) }
        ensures bounds_growth { 0 < length (P.path prefix.now)
            → IfOk result (λ _. BoundsStorageGrowth (storage self.old) (storage self.new)) }
        ensures unchanged { OnErr result (stored_state self.new ≡ stored_state self.old) }
        ensures only_memory { IfErr result (λ cause. cause ≡ Memory) }
    {
        let table = self
            .table
            .remove_children(prefix.path(), &mut Visits::new())?;
        Ok(PrefixMap {
            table,
            marker: PhantomData,
        })
    }
}
