//! Removing entries.
ghost use Rattle.std.specs.Prelude.{◌≡◌, ◌<◌, length};
ghost use Rattle.std.specs.FinMap.{get};
ghost use Rattle.prefix_trie_bits.specs.Model.Entries.{no_entries, without_entry, without_below};
ghost use Rattle.prefix_trie_bits.specs.Model.Nodes.{root_alone, nodes_without, nodes_without_below};
ghost use Rattle.prefix_trie_bits.specs.Model.Step.{Remove, RemoveKeepTree, RemoveChildren, Clear, Done, Value};
ghost use Rattle.prefix_trie_bits.specs.Calls.Storage.{StepByPath};
ghost use Rattle.prefix_trie_table.specs.Steps.{BoundsStorageGrowth};
ghost use Rattle.prefix_trie_map.specs.Steps.{storage, stored_state};

use crate::map::{PrefixMap, Visits};
use prefix_trie_bits::prefix::Prefix;
use std::alloc::Allocator;

impl<P: Prefix, T: Drop, A: Allocator> PrefixMap<P, T, A> {
    /// Removes the value of a prefix and returns it.
    ///
    /// Then the nodes that have no value and no child are removed, from the prefix's own node upward, even if no value
    /// was stored. Empty nodes elsewhere stay. The call never fails. It makes at most 24 slots in each array
    /// (`slot_laws`).
    ///
    /// # Examples
    ///
    /// ```rust
    /// // map = {10.1.0.0/16: 1}
    /// map.remove(&"10.1.2.3/16".parse()?);        // Some(1)
    /// map.remove(&"10.1.0.0/16".parse()?);        // None
    /// ```
    #[inline]
    pub fn remove(&mut self, prefix: &P) -> Option<T>
        requires { P.IsFitting prefix.now }
        ensures value { result ≡ get self.old.entries (P.path prefix.now) }
        ensures entries { self.new.entries ≡ without_entry self.old.entries (P.path prefix.now) }
        ensures nodes { self.new.nodes
            ≡ nodes_without self.old.nodes self.old.entries (P.path prefix.now) }

        // This is a step of the model, of the storage too. The blocks of the list that lost the value and of the list
        // that lost a child step down. A block is made only if none of its size was free.
        ensures step { StepByPath P.R.bit_width (stored_state self.old) (Remove (P.path prefix.now))
            (Value result) (stored_state self.new) }
    {
        self.table.remove(prefix.path(), &mut Visits::new())
    }

    /// Removes the value of a prefix and returns it, and keeps all nodes.
    ///
    /// Nodes that have no value and no child stay too. The call never fails.
    ///
    /// # Examples
    ///
    /// ```rust
    /// // map = {0.0.0.0/32: 1}
    /// let address = "0.0.0.0/32".parse()?;
    /// map.remove_keep_tree(&address);     // Some(1)
    /// map.node_count();                   // 7: as before
    /// map.remove(&address);               // None
    /// map.node_count();                   // 1
    /// ```
    #[inline]
    pub fn remove_keep_tree(&mut self, prefix: &P) -> Option<T>
        requires { P.IsFitting prefix.now }
        ensures value { result ≡ get self.old.entries (P.path prefix.now) }
        ensures entries { self.new.entries ≡ without_entry self.old.entries (P.path prefix.now) }
        ensures nodes { self.new.nodes ≡ self.old.nodes }

        // This is a step of the model, of the storage too. The array of nodes is unchanged.
        ensures step { StepByPath P.R.bit_width (stored_state self.old)
            (RemoveKeepTree (P.path prefix.now)) (Value result) (stored_state self.new) }
    {
        self.table
            .remove_keep_tree(prefix.path(), &mut Visits::new())
    }

    /// Removes the entries that this prefix contains, its own included, and drops their values.
    ///
    /// All nodes below the prefix's own node are removed. Then the nodes that have no value and no child are removed,
    /// from its own node upward. Empty nodes elsewhere stay. If the prefix's own node is missing, nothing changes. At
    /// length 0 the call is `clear`. It never fails. `remove_children` returns the entries instead.
    ///
    /// # Examples
    ///
    ///
    /// ```rust
    /// // map = {10.1.0.0/16: 1, 10.1.2.0/24: 2, 10.2.0.0/16: 3}
    /// map.drop_children(&"10.1.0.0/16".parse()?);
    /// map.iter();     // [(10.2.0.0/16, 3)]
    /// ```
    #[inline]
    pub fn drop_children(&mut self, prefix: &P)
        requires { P.IsFitting prefix.now }
        ensures entries { self.new.entries ≡ without_below self.old.entries (P.path prefix.now) }
        ensures nodes { self.new.nodes
            ≡ nodes_without_below self.old.nodes self.old.entries (P.path prefix.now) }

        // This is a step of the model, of the storage too. The arrays keep their slots, except at length 0.
        ensures step { StepByPath P.R.bit_width (stored_state self.old)
            (RemoveChildren (P.path prefix.now)) Done (stored_state self.new) }
        ensures bounds_growth { 0 < length (P.path prefix.now)
            → BoundsStorageGrowth (storage self.old) (storage self.new) }
    {
        self.table.drop_children(prefix.path(), &mut Visits::new());
    }

    /// Removes all entries, and all nodes but the root.
    ///
    /// The call does not allocate, and it never fails.
    ///
    /// # Examples
    ///
    /// ```rust
    /// // map = {10.1.0.0/16: 1}
    /// map.clear();
    /// (map.len(), map.node_count(), map.node_slots(), map.cell_slots());      // (0, 1, 1, 0)
    /// ```
    #[inline]
    pub fn clear(&mut self)
        ensures entries { self.new.entries ≡ no_entries }
        ensures nodes { self.new.nodes ≡ root_alone }

        // This is a step of the model, of the storage too. The root has its slot, and no block is left.
        ensures step { StepByPath P.R.bit_width (stored_state self.old) Clear Done
            (stored_state self.new) }
    {
        self.table.clear();
    }
}
