//! Splitting keys off as a second set, and empty sets like a set.
ghost use Rattle.std.specs.Prelude.{◌≡◌, IfOk, OnOk, IfErr, OnErr};
ghost use Rattle.prefix_trie_bits.specs.declared.prefix.Refusal.TheVariants.{Memory};
ghost use Rattle.prefix_trie_bits.specs.Model.Blocks.{no_layout};
ghost use Rattle.prefix_trie_bits.specs.Model.Entries.{no_entries, without_below};
ghost use Rattle.prefix_trie_bits.specs.Calls.Entries.{part_below};
ghost use Rattle.prefix_trie_bits.specs.Calls.SplitsOff.{SplitsOffInStorage};
ghost use Rattle.prefix_trie_bits.specs.Model.Nodes.{needed, nodes_without_below, root_alone};
ghost use Rattle.prefix_trie_map.specs.Steps.{stored_state};

use crate::set::PrefixSet;
use prefix_trie_bits::prefix::{Prefix, Refusal};
use std::alloc::Allocator;

impl<P: Prefix, A: Allocator + Clone> PrefixSet<P, A> {
    /// Creates an empty set with a clone of this set's allocator, and the same slot limit.
    ///
    /// # Errors
    ///
    /// Returns `Memory` if an allocation fails. No set exists then.
    ///
    /// # Examples
    ///
    /// ```rust
    /// // set = {10.1.0.0/16}
    /// set.new_like()?.len();      // 0
    /// ```
    pub fn new_like(&self) -> Result<Self, Refusal>
        ensures entries { IfOk result (λ set. set.entries ≡ no_entries) }
        ensures nodes { IfOk result (λ set. set.nodes ≡ root_alone) }
        ensures space { IfOk result
            (λ set. set.space
            ≡ record { limit = self.now.space.limit; node_slots = 1; cell_slots = 0 }) }
        ensures layout { IfOk result (λ set. set.layout ≡ no_layout) }
        ensures only_memory { IfErr result (λ refusal. refusal ≡ Memory) }
    {
        let map = self.map.new_like()?;
        Ok(PrefixSet { map })
    }

    /// Removes the keys that this prefix contains, its own included, and returns them as a second set.
    ///
    /// If the prefix's own node is missing, the second set is empty. At length 0 it has all keys. This set is left as
    /// `drop_children` leaves it.
    ///
    /// The second set has this set's slot limit and a clone of its allocator. It is tidy and as small as a set of its
    /// keys can be: each of its blocks is the smallest that holds its items, and none is free. All its memory is
    /// allocated before a key moves.
    ///
    /// # Errors
    ///
    /// Returns `Memory` if an allocation fails. This set is unchanged then, its slots and blocks too. `IndexRange`
    /// never comes: the second set has no more slots than this one.
    ///
    /// # Examples
    ///
    /// ```rust
    /// // set = {10.1.0.0/16, 10.1.2.0/24, 10.2.0.0/16}
    /// let part = set.remove_children(&"10.1.0.0/16".parse()?)?;
    /// part.iter();    // [10.1.0.0/16, 10.1.2.0/24]
    /// set.iter();     // [10.2.0.0/16]
    /// ```
    pub fn remove_children(&mut self, prefix: &P) -> Result<Self, Refusal>
        requires { P.IsFitting prefix.now }
        ensures split_off { IfOk result
            (λ second. second.entries ≡ part_below self.old.entries (P.path prefix.now)) }
        ensures split_nodes { IfOk result (λ second. second.nodes ≡ needed second.entries) }
        ensures entries { OnOk result
            (self.new.entries ≡ without_below self.old.entries (P.path prefix.now)) }
        ensures nodes { OnOk result
            (self.new.nodes
            ≡ nodes_without_below self.old.nodes self.old.entries (P.path prefix.now)) }

        // It is a step of the model and the storage of both sets, on maps of units.
        ensures step { IfOk result
            (λ second. SplitsOffInStorage (stored_state self.old) (P.path prefix.now)
            (stored_state second) (stored_state self.new)) }
        ensures unchanged { OnErr result (stored_state self.new ≡ stored_state self.old) }
        ensures only_memory { IfErr result (λ cause. cause ≡ Memory) }
    {
        let map = self.map.remove_children(prefix)?;
        Ok(PrefixSet { map })
    }
}
