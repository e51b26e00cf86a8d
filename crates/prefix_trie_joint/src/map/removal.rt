//! Removing entries, splitting them off as a second map, and empty maps like a map.
ghost use Rattle.std.specs.Prelude.{◌≡◌, IfErr, IfOk, OnErr, OnOk};
ghost use Rattle.std.specs.FinMap.{get};
ghost use Rattle.prefix_trie_bits.specs.Model.Step.{Clear, Done, Remove, RemoveChildren, RemoveKeepTree, Value};
ghost use Rattle.prefix_trie_bits.specs.declared.prefix.Refusal.TheVariants.{Memory};
ghost use Rattle.prefix_trie.specs.Terms.{no_entries, part_below, without_below, without_entry};
ghost use Rattle.prefix_trie_joint.specs.Changes.{maps_of, AreNew, GrowsWithin, OnFamily, SplitsOnFamily, StaysOnFamily, StepOnEach, StepOnFamily};
ghost use Rattle.prefix_trie_joint.specs.Joined.{entries_of};
ghost use Rattle.prefix_trie_joint.specs.Networks.{ip_path};

use crate::map::JointPrefixMap;
use crate::prefix::IpPrefix;
use prefix_trie::Refusal;
use std::alloc::Allocator;

impl<T: Drop, A: Allocator> JointPrefixMap<T, A> {
    /// Removes the value of a network and returns it.
    ///
    /// Then the nodes that have no value and no child are removed, from the network's own node
    /// upward, as by `PrefixMap::remove`. The call never fails.
    ///
    /// # Examples
    ///
    /// ```rust
    /// // map = {2001:db8::/32: 1}
    /// map.remove(&"2001:db8::1/32".parse()?);     // Some(1)
    /// map.remove(&"2001:db8::/32".parse()?);      // None
    /// ```
    #[inline]
    #[tactic(auto, using(crate::proofs::Joined::get_ipv4, crate::proofs::Joined::get_ipv6, crate::proofs::Changes::without_ipv4, crate::proofs::Changes::without_ipv6))]
    pub fn remove(&mut self, prefix: &IpPrefix) -> Option<T>
        ensures value { result ≡ get (entries_of self.old) (ip_path prefix.now) }
        ensures entries { entries_of self.new
            ≡ without_entry (entries_of self.old) (ip_path prefix.now) }

        // This is a step of the model in the map of the network's family, storage included. The other map is unchanged.
        ensures step { StepOnFamily prefix.now Remove (Value result)
            (maps_of self.old) (maps_of self.new) }
    {
        match prefix.copy() {
            IpPrefix::V4(network) => self.ipv4.remove(&network),
            IpPrefix::V6(network) => self.ipv6.remove(&network),
        }
    }

    /// Removes the value of a network and returns it, and keeps all nodes.
    ///
    /// The call never fails.
    ///
    /// # Examples
    ///
    /// ```rust
    /// // map = {0.0.0.0/32: 1}
    /// map.remove_keep_tree(&"0.0.0.0/32".parse()?);       // Some(1)
    /// map.ipv4.node_count();                              // 7: as before
    /// ```
    #[inline]
    #[tactic(auto, using(crate::proofs::Joined::get_ipv4, crate::proofs::Joined::get_ipv6, crate::proofs::Changes::without_ipv4, crate::proofs::Changes::without_ipv6))]
    pub fn remove_keep_tree(&mut self, prefix: &IpPrefix) -> Option<T>
        ensures value { result ≡ get (entries_of self.old) (ip_path prefix.now) }
        ensures entries { entries_of self.new
            ≡ without_entry (entries_of self.old) (ip_path prefix.now) }

        // This is a step of the model, as for `remove`. All nodes stay.
        ensures step { StepOnFamily prefix.now RemoveKeepTree (Value result)
            (maps_of self.old) (maps_of self.new) }
    {
        match prefix.copy() {
            IpPrefix::V4(network) => self.ipv4.remove_keep_tree(&network),
            IpPrefix::V6(network) => self.ipv6.remove_keep_tree(&network),
        }
    }

    /// Removes the entries that this network contains, its own included, and drops their values.
    ///
    /// The call never fails. `remove_children` returns the entries instead.
    ///
    /// # Examples
    ///
    /// ```rust
    /// // map = {10.1.0.0/16: 1, 10.1.2.0/24: 2, 2001:db8::/32: 3}
    /// map.drop_children(&"0.0.0.0/0".parse()?);
    /// map.values();       // [3]
    /// ```
    #[inline]
    #[tactic(auto, using(crate::proofs::Changes::below_kept_ipv4, crate::proofs::Changes::below_kept_ipv6))]
    pub fn drop_children(&mut self, prefix: &IpPrefix)
        ensures entries { entries_of self.new
            ≡ without_below (entries_of self.old) (ip_path prefix.now) }

        // This is a step of the model, as for `remove`. The arrays keep their slots, except at length 0.
        ensures step { StepOnFamily prefix.now RemoveChildren Done
            (maps_of self.old) (maps_of self.new) }
        ensures bounds_growth { OnFamily prefix.now GrowsWithin
            (maps_of self.old) (maps_of self.new) }
    {
        match prefix.copy() {
            IpPrefix::V4(network) => self.ipv4.drop_children(&network),
            IpPrefix::V6(network) => self.ipv6.drop_children(&network),
        }
    }

    /// Removes all entries of both families, and all nodes but the two roots.
    ///
    /// The call does not allocate, and it never fails.
    ///
    /// # Examples
    ///
    /// ```rust
    /// // map = {10.1.0.0/16: 1, 2001:db8::/32: 2}
    /// map.clear();
    /// map.len();      // 0
    /// ```
    #[inline]
    #[tactic(auto, using(crate::proofs::Changes::none_joined))]
    pub fn clear(&mut self)
        ensures entries { entries_of self.new ≡ no_entries }

        // This is a step of the model in both families, storage included.
        ensures step { StepOnEach Clear Done (maps_of self.old) (maps_of self.new) }
    {
        self.ipv4.clear();
        self.ipv6.clear();
    }
}

impl<T: Drop, A: Allocator + Clone> JointPrefixMap<T, A> {
    /// Creates an empty map with clones of this map's allocators, and the same slot limits.
    ///
    /// # Errors
    ///
    /// Returns `Memory` if an allocation fails. No map exists then.
    ///
    /// # Examples
    ///
    /// ```rust
    /// // map = {10.1.0.0/16: 1}
    /// map.new_like()?.len();      // 0
    /// ```
    #[tactic(auto, using(crate::proofs::Changes::none_joined))]
    pub fn new_like(&self) -> Result<Self, Refusal>
        ensures entries { IfOk result (λ map. entries_of map ≡ no_entries) }
        ensures new { IfOk result
            (λ map. AreNew self.now.ipv4.space.limit self.now.ipv6.space.limit (maps_of map)) }
        ensures only_memory { IfErr result (λ refusal. refusal ≡ Memory) }
    {
        Ok(JointPrefixMap {
            ipv4: self.ipv4.new_like()?,
            ipv6: self.ipv6.new_like()?,
        })
    }

    /// Removes the entries that this network contains, its own included, and returns them as a second map.
    ///
    /// Values move: none is cloned or dropped. The second map has clones of this map's allocators, and
    /// its slot limits. It has no entry of the other family.
    ///
    /// # Errors
    ///
    /// Returns `Memory` if an allocation fails. The entries are unchanged then, and no second map
    /// exists.
    ///
    /// # Examples
    ///
    /// ```rust
    /// // map = {10.1.0.0/16: 1, 10.2.0.0/16: 2, 2001:db8::/32: 3}
    /// let part = map.remove_children(&"10.1.0.0/16".parse()?)?;
    /// part.values();      // [1]
    /// map.values();       // [2, 3]
    /// ```
    #[tactic(auto, using(crate::proofs::Changes::part_ipv4, crate::proofs::Changes::part_ipv6, crate::proofs::Changes::below_kept_ipv4, crate::proofs::Changes::below_kept_ipv6))]
    pub fn remove_children(&mut self, prefix: &IpPrefix) -> Result<Self, Refusal>
        ensures split_off { IfOk result
            (λ second. entries_of second
            ≡ part_below (entries_of self.old) (ip_path prefix.now)) }
        ensures entries { OnOk result
            (entries_of self.new ≡ without_below (entries_of self.old) (ip_path prefix.now)) }

        // This is a step of the model in the family of the network, storage of both maps included. The other family is
        // unchanged, and new in the second map.
        ensures step { IfOk result
            (λ second. SplitsOnFamily prefix.now
            (maps_of self.old) (maps_of second) (maps_of self.new)) }
        ensures unchanged { OnErr result (entries_of self.new ≡ entries_of self.old) }
        ensures stays { OnErr result
            (StaysOnFamily prefix.now (maps_of self.old) (maps_of self.new)) }
        ensures only_memory { IfErr result (λ cause. cause ≡ Memory) }
    {
        match prefix.copy() {
            IpPrefix::V4(network) => {
                let ipv6 = self.ipv6.new_like()?;
                let ipv4 = self.ipv4.remove_children(&network)?;
                Ok(JointPrefixMap { ipv4, ipv6 })
            }
            IpPrefix::V6(network) => {
                let ipv4 = self.ipv4.new_like()?;
                let ipv6 = self.ipv6.remove_children(&network)?;
                Ok(JointPrefixMap { ipv4, ipv6 })
            }
        }
    }
}
