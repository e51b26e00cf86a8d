//! Removing networks of a set, splitting them off as a second set, and empty sets like a set.
ghost use Rattle.std.specs.Prelude.{◌≡◌, IfErr, IfOk, OnErr, OnOk};
ghost use Rattle.std.specs.FinMap.{contains_key};
ghost use Rattle.prefix_trie_bits.specs.Model.Step.{Clear, Done, Remove, RemoveChildren, RemoveKeepTree};
ghost use Rattle.prefix_trie_bits.specs.declared.prefix.Refusal.TheVariants.{Memory};
ghost use Rattle.prefix_trie.specs.Terms.{no_entries, part_below, set_remove_reply, without_below, without_entry};
ghost use Rattle.prefix_trie_joint.specs.Changes.{sets_of, AreNew, SplitsOnFamily, StaysOnFamily, StepOnEach, StepOnFamily};
ghost use Rattle.prefix_trie_joint.specs.Joined.{keys_of};
ghost use Rattle.prefix_trie_joint.specs.Networks.{ip_path};

use crate::prefix::IpPrefix;
use crate::set::JointPrefixSet;
use prefix_trie::Refusal;
use std::alloc::Allocator;

impl<A: Allocator> JointPrefixSet<A> {
    /// Removes a network and returns whether it was in the set. The call never fails.
    ///
    /// # Examples
    ///
    /// ```rust
    /// // set = {2001:db8::/32}
    /// set.remove(&"2001:db8::1/32".parse()?);     // true
    /// set.remove(&"2001:db8::/32".parse()?);      // false
    /// ```
    #[inline]
    #[tactic(auto, using(crate::proofs::Joined::get_ipv4, crate::proofs::Joined::get_ipv6, crate::proofs::Changes::without_ipv4, crate::proofs::Changes::without_ipv6))]
    pub fn remove(&mut self, prefix: &IpPrefix) -> bool
        ensures was_in { result ≡ contains_key (keys_of self.old) (ip_path prefix.now) }
        ensures entries { keys_of self.new ≡ without_entry (keys_of self.old) (ip_path prefix.now) }

        // This is a step of the model in the set of the network's family, storage included. The other set is unchanged.
        ensures step { StepOnFamily prefix.now Remove (set_remove_reply result)
            (sets_of self.old) (sets_of self.new) }
    {
        match prefix.copy() {
            IpPrefix::V4(network) => self.ipv4.remove(&network),
            IpPrefix::V6(network) => self.ipv6.remove(&network),
        }
    }

    /// Removes a network, keeps all nodes, and returns whether it was in the set. The call never fails.
    ///
    /// # Examples
    ///
    /// ```rust
    /// // set = {0.0.0.0/32}
    /// set.remove_keep_tree(&"0.0.0.0/32".parse()?);       // true
    /// set.ipv4.node_count();                              // 7: as before
    /// ```
    #[inline]
    #[tactic(auto, using(crate::proofs::Joined::get_ipv4, crate::proofs::Joined::get_ipv6, crate::proofs::Changes::without_ipv4, crate::proofs::Changes::without_ipv6))]
    pub fn remove_keep_tree(&mut self, prefix: &IpPrefix) -> bool
        ensures was_in { result ≡ contains_key (keys_of self.old) (ip_path prefix.now) }
        ensures entries { keys_of self.new ≡ without_entry (keys_of self.old) (ip_path prefix.now) }

        // This is a step of the model, as for `remove`. All nodes stay.
        ensures step { StepOnFamily prefix.now RemoveKeepTree (set_remove_reply result)
            (sets_of self.old) (sets_of self.new) }
    {
        match prefix.copy() {
            IpPrefix::V4(network) => self.ipv4.remove_keep_tree(&network),
            IpPrefix::V6(network) => self.ipv6.remove_keep_tree(&network),
        }
    }

    /// Removes the networks that this network contains, itself included. The call never fails.
    ///
    /// # Examples
    ///
    /// ```rust
    /// // set = {10.1.0.0/16, 10.1.2.0/24, 2001:db8::/32}
    /// set.drop_children(&"0.0.0.0/0".parse()?);
    /// set.len();      // 1
    /// ```
    #[inline]
    #[tactic(auto, using(crate::proofs::Changes::below_kept_ipv4, crate::proofs::Changes::below_kept_ipv6))]
    pub fn drop_children(&mut self, prefix: &IpPrefix)
        ensures entries { keys_of self.new ≡ without_below (keys_of self.old) (ip_path prefix.now) }

        // This is a step of the model, as for `remove`. The arrays keep their slots, except at length 0.
        ensures step { StepOnFamily prefix.now RemoveChildren Done
            (sets_of self.old) (sets_of self.new) }
    {
        match prefix.copy() {
            IpPrefix::V4(network) => self.ipv4.drop_children(&network),
            IpPrefix::V6(network) => self.ipv6.drop_children(&network),
        }
    }

    /// Removes all networks of both families. The call does not allocate, and it never fails.
    ///
    /// # Examples
    ///
    /// ```rust
    /// // set = {10.1.0.0/16, 2001:db8::/32}
    /// set.clear();
    /// set.is_empty();     // true
    /// ```
    #[inline]
    #[tactic(auto, using(crate::proofs::Changes::none_joined))]
    pub fn clear(&mut self)
        ensures entries { keys_of self.new ≡ no_entries }

        // This is a step of the model in both families, storage included.
        ensures step { StepOnEach Clear Done (sets_of self.old) (sets_of self.new) }
    {
        self.ipv4.clear();
        self.ipv6.clear();
    }
}

impl<A: Allocator + Clone> JointPrefixSet<A> {
    /// Creates an empty set with clones of this set's allocators, and the same slot limits.
    ///
    /// # Errors
    ///
    /// Returns `Memory` if an allocation fails. No set exists then.
    ///
    /// # Examples
    ///
    /// ```rust
    /// // set = {10.1.0.0/16}
    /// set.new_like()?.len();      // 0
    /// ```
    #[tactic(auto, using(crate::proofs::Changes::none_joined))]
    pub fn new_like(&self) -> Result<Self, Refusal>
        ensures entries { IfOk result (λ set. keys_of set ≡ no_entries) }
        ensures new { IfOk result
            (λ set. AreNew self.now.ipv4.space.limit self.now.ipv6.space.limit (sets_of set)) }
        ensures only_memory { IfErr result (λ refusal. refusal ≡ Memory) }
    {
        Ok(JointPrefixSet {
            ipv4: self.ipv4.new_like()?,
            ipv6: self.ipv6.new_like()?,
        })
    }

    /// Removes the networks that this network contains, itself included, and returns them as a second set.
    ///
    /// # Errors
    ///
    /// Returns `Memory` if an allocation fails. The keys are unchanged then, and no second set exists.
    ///
    /// # Examples
    ///
    /// ```rust
    /// // set = {10.1.0.0/16, 10.2.0.0/16, 2001:db8::/32}
    /// let part = set.remove_children(&"10.1.0.0/16".parse()?)?;
    /// (part.len(), set.len());        // (1, 2)
    /// ```
    #[tactic(auto, using(crate::proofs::Changes::part_ipv4, crate::proofs::Changes::part_ipv6, crate::proofs::Changes::below_kept_ipv4, crate::proofs::Changes::below_kept_ipv6))]
    pub fn remove_children(&mut self, prefix: &IpPrefix) -> Result<Self, Refusal>
        ensures split_off { IfOk result
            (λ second. keys_of second ≡ part_below (keys_of self.old) (ip_path prefix.now)) }
        ensures entries { OnOk result
            (keys_of self.new ≡ without_below (keys_of self.old) (ip_path prefix.now)) }

        // This is a step of the model in the family of the network, storage of both sets included. The other family is
        // unchanged, and new in the second set.
        ensures step { IfOk result
            (λ second. SplitsOnFamily prefix.now
            (sets_of self.old) (sets_of second) (sets_of self.new)) }
        ensures unchanged { OnErr result (keys_of self.new ≡ keys_of self.old) }
        ensures stays { OnErr result
            (StaysOnFamily prefix.now (sets_of self.old) (sets_of self.new)) }
        ensures only_memory { IfErr result (λ cause. cause ≡ Memory) }
    {
        match prefix.copy() {
            IpPrefix::V4(network) => {
                let ipv6 = self.ipv6.new_like()?;
                let ipv4 = self.ipv4.remove_children(&network)?;
                Ok(JointPrefixSet { ipv4, ipv6 })
            }
            IpPrefix::V6(network) => {
                let ipv4 = self.ipv4.new_like()?;
                let ipv6 = self.ipv6.remove_children(&network)?;
                Ok(JointPrefixSet { ipv4, ipv6 })
            }
        }
    }
}
