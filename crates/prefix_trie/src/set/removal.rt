//! Removing keys of a set.
ghost use Rattle.std.specs.Prelude.{◌≡◌};
ghost use Rattle.std.specs.FinMap.{contains_key};
ghost use Rattle.prefix_trie_bits.specs.Calls.Retaining.{RetainsEntries, RetainsEntriesTo, CallableOnEachEntry, RetainsInStorage};
ghost use Rattle.prefix_trie_bits.specs.Model.Entries.{no_entries, without_entry, without_below};
ghost use Rattle.prefix_trie_bits.specs.Model.Nodes.{root_alone, needed, nodes_without, nodes_without_below};
ghost use Rattle.prefix_trie_bits.specs.Model.Selections.{listing};
ghost use Rattle.prefix_trie_bits.specs.Model.Step.{Remove, RemoveKeepTree, RemoveChildren, Clear, Done};
ghost use Rattle.prefix_trie_bits.specs.Calls.Storage.{StepByPath};
ghost use Rattle.prefix_trie_map.specs.Steps.{stored_state};
ghost use Rattle.prefix_trie_map.specs.Whole.{IsWhole};
ghost use Rattle.prefix_trie.specs.Sets.{set_remove_reply, CalledAtKey, TakesKey};

use crate::set::PrefixSet;
use prefix_trie_bits::prefix::Prefix;
use std::alloc::Allocator;

impl<P: Prefix, A: Allocator> PrefixSet<P, A> {
    /// Removes a prefix and returns whether it was in the set.
    ///
    /// It then removes the empty nodes of the prefix's search path, from the bottom up, even if the
    /// prefix was not in the set; empty nodes elsewhere stay. It never fails, and makes at most 24
    /// slots in each array (`slot_laws`).
    ///
    /// # Examples
    ///
    /// ```rust
    /// // set = {10.1.0.0/16}
    /// set.remove(&"10.1.2.3/16".parse()?);    // true
    /// set.remove(&"10.1.0.0/16".parse()?);    // false
    /// ```
    #[inline]
    pub fn remove(&mut self, prefix: &P) -> bool
        requires { P.IsFitting prefix.now }
        ensures was_in { result ≡ contains_key self.old.entries (P.path prefix.now) }
        ensures entries { self.new.entries ≡ without_entry self.old.entries (P.path prefix.now) }
        ensures nodes { self.new.nodes
            ≡ nodes_without self.old.nodes self.old.entries (P.path prefix.now) }

        // It is a step of the model and its storage, on a map of units.
        ensures step { StepByPath P.R.bit_width (stored_state self.old) (Remove (P.path prefix.now))
            (set_remove_reply result) (stored_state self.new) }
    {
        self.map.remove(prefix).is_some()
    }

    /// Removes a prefix and returns whether it was in the set, and keeps all nodes.
    ///
    /// Nodes that have no key and no child stay too. The call never fails.
    ///
    /// # Examples
    ///
    /// ```rust
    /// // set = {0.0.0.0/32}
    /// let address = "0.0.0.0/32".parse()?;
    /// set.remove_keep_tree(&address);     // true
    /// set.node_count();                   // 7: as before
    /// set.remove(&address);               // false
    /// set.node_count();                   // 1
    /// ```
    #[inline]
    pub fn remove_keep_tree(&mut self, prefix: &P) -> bool
        requires { P.IsFitting prefix.now }
        ensures was_in { result ≡ contains_key self.old.entries (P.path prefix.now) }
        ensures entries { self.new.entries ≡ without_entry self.old.entries (P.path prefix.now) }
        ensures nodes { self.new.nodes ≡ self.old.nodes }

        // It is a step of the model and its storage; the array of nodes is unchanged.
        ensures step { StepByPath P.R.bit_width (stored_state self.old)
            (RemoveKeepTree (P.path prefix.now)) (set_remove_reply result) (stored_state self.new) }
    {
        self.map.remove_keep_tree(prefix).is_some()
    }

    /// Removes the keys that this prefix contains, its own included.
    ///
    /// It removes the nodes under the prefix's own node, and then the empty nodes of its search
    /// path, from the bottom up; empty nodes elsewhere stay. If the prefix's own node is missing,
    /// nothing changes. At length 0 it is `clear`. It never fails. `remove_children` returns the
    /// removed keys.
    ///
    /// # Examples
    ///
    /// ```rust
    /// // set = {10.1.0.0/16, 10.1.2.0/24, 10.2.0.0/16}
    /// set.drop_children(&"10.1.0.0/16".parse()?);
    /// set.iter();     // [10.2.0.0/16]
    /// ```
    #[inline]
    pub fn drop_children(&mut self, prefix: &P)
        requires { P.IsFitting prefix.now }
        ensures entries { self.new.entries ≡ without_below self.old.entries (P.path prefix.now) }
        ensures nodes { self.new.nodes
            ≡ nodes_without_below self.old.nodes self.old.entries (P.path prefix.now) }

        // It is a step of the model and its storage. No slots are removed, except at length 0.
        ensures step { StepByPath P.R.bit_width (stored_state self.old)
            (RemoveChildren (P.path prefix.now)) Done (stored_state self.new) }
    {
        self.map.drop_children(prefix);
    }

    /// Removes all keys, and leaves only the root. It does not allocate and never fails.
    ///
    /// # Examples
    ///
    /// ```rust
    /// // set = {10.1.0.0/16}
    /// set.clear();
    /// (set.len(), set.node_count(), set.node_slots(), set.cell_slots());      // (0, 1, 1, 0)
    /// ```
    #[inline]
    pub fn clear(&mut self)
        ensures entries { self.new.entries ≡ no_entries }
        ensures nodes { self.new.nodes ≡ root_alone }

        // It is a step of the model and its storage: the root has its slot, and no block is left.
        ensures step { StepByPath P.R.bit_width (stored_state self.old) Clear Done
            (stored_state self.new) }
    {
        self.map.clear();
    }

    /// Calls a test with each key once, in listing order, and keeps those for which it returns `true`.
    ///
    /// The test gets each prefix without host bits. Nodes that no remaining key needs are removed. The call never
    /// fails: each array grows by at most 56 slots for each node that there was.
    ///
    /// Requires that the test may be called with each key, from each state in which the calls before may have left it.
    /// This always holds for a closure without a `requires`.
    ///
    /// # Examples
    ///
    /// ```rust
    /// // set = {10.0.0.0/8, 10.1.0.0/16, 10.1.2.0/24}
    /// set.retain(|prefix| prefix.prefix_len() < 20);
    /// set.iter();     // [10.0.0.0/8, 10.1.0.0/16]
    /// ```
    pub fn retain<F: FnMut(&P) -> bool>(&mut self, test: F)
        requires { CallableOnEachEntry (CalledAtKey F.FnMut P.back) (TakesKey F.FnMut P.back) test
            (listing self.old.entries) }
        ensures whole { IsWhole P.R.bit_width self.old }
        ensures kept { RetainsEntries (CalledAtKey F.FnMut P.back) test (listing self.old.entries)
            (listing self.new.entries) }
        ensures nodes { self.new.nodes ≡ needed self.new.entries }

        // It is a step of the model and its storage, on a map of units.
        ensures step { RetainsInStorage (CalledAtKey F.FnMut P.back) test (stored_state self.old)
            (stored_state self.new) }
    {
        let mut test = test;
        self.retain_by_ref(&mut test);
    }

    /// Calls a test with each key as `retain` does, and leaves the test in the state after the last call.
    ///
    /// So several sets can share one test and its state.
    ///
    /// Requires that the test may be called with each key, from each state in which the calls before may have left it.
    /// This always holds for a closure without a `requires`.
    ///
    /// # Examples
    ///
    /// ```rust
    /// // set = {10.0.0.0/8, 10.1.0.0/16}
    /// // other = {10.2.0.0/16}
    /// let mut called = false;
    /// let mut all_but_first = |_: &Ipv4Prefix| std::mem::replace(&mut called, true);
    /// set.retain_by_ref(&mut all_but_first);
    /// other.retain_by_ref(&mut all_but_first);
    /// set.iter();         // [10.1.0.0/16]
    /// other.iter();       // [10.2.0.0/16]: the test was called before
    /// ```
    pub fn retain_by_ref<F: FnMut(&P) -> bool>(&mut self, test: &mut F)
        requires { CallableOnEachEntry (CalledAtKey F.FnMut P.back) (TakesKey F.FnMut P.back)
            test.old (listing self.old.entries) }
        ensures whole { IsWhole P.R.bit_width self.old }

        // `test.new` is the state after the last call.
        ensures kept { RetainsEntriesTo (CalledAtKey F.FnMut P.back) test.old
            (listing self.old.entries) (listing self.new.entries) test.new }
        ensures nodes { self.new.nodes ≡ needed self.new.entries }

        // It is a step of the model and its storage, on a map of units.
        ensures step { RetainsInStorage (CalledAtKey F.FnMut P.back) test.old
            (stored_state self.old) (stored_state self.new) }
    {
        let mut by_key = |prefix: &P, _value: &()|
            requires { F.pre test.now prefix }
        { test(prefix) };
        self.map.retain_by_ref(&mut by_key);
    }
}
