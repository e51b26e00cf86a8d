//! Maps from networks of both families to values.
//!
//! Contracts see the entries of both families as one finite map. Its keys are the bit of the family,
//! 0 for IPv4 and 1 for IPv6, and then the path of the network.
ghost use Rattle.std.specs.Prelude.{◌≡◌, ◌⊎◌, ◌-◌, ◌<◌, ◌^◌, ◌↔◌, IfErr, IfOk, IsErr, IsTrue, OnErr, OnOk};
ghost use Rattle.std.specs.FinMap.{get, len};
ghost use Rattle.prefix_trie_bits.specs.declared.prefix.Refusal.TheVariants.{IndexRange, Memory};
ghost use Rattle.prefix_trie_bits.specs.Model.Step.{Insert};
ghost use Rattle.prefix_trie_table.specs.Steps.{insert_reply};
ghost use Rattle.prefix_trie_table.specs.Model.Contents.{stored_state};
ghost use Rattle.prefix_trie_table.specs.Copies.{AreCloned};
ghost use Rattle.prefix_trie.specs.Terms.{no_entries, with_entry};
ghost use Rattle.prefix_trie_joint.specs.Changes.{maps_of, AreNew, AreStoredAlike, AreWhole, IsCompacted, OnEach, StepOnFamily};
ghost use Rattle.prefix_trie_joint.specs.Joined.{entries_of};
ghost use Rattle.prefix_trie_joint.specs.Networks.{ip_path};

mod collecting;
mod cover;
pub mod entry;
mod equality;
mod into_iter;
mod lookup;
mod removal;
mod retain;
mod walks;
mod writing;

use crate::prefix::IpPrefix;
pub use cover::{Cover, CoverKeys, CoverValues};
pub use entry::Entry;
pub use into_iter::{IntoIter, IntoKeys, IntoValues};
use prefix_trie::{Ipv4Prefix, Ipv6Prefix, PrefixMap, Refusal, Refused};
use std::alloc::{AllocError, Allocator};
pub use walks::{Iter, Keys, Values};
pub use writing::{IterMut, ValuesMut};

/// A map from IPv4 and IPv6 networks to values, in memory of the allocator `A`.
///
/// It is a map for each family, and both may be used directly: `map.ipv6.node_count()`. A
/// network of either family always fits, so only the `retain` calls have a `requires`, on their test.
///
/// In examples, a comment `map = {..}` says what a map with `u32` values holds at the start. The
/// comment after an expression is its value as `{:?}` prints it, or the list of what an iterator
/// returns.
///
/// # Examples
///
/// ```rust
/// let mut map: JointPrefixMap<u32, Global> = JointPrefixMap::new(alloc)?;
/// map.insert("10.0.0.0/8".parse()?, 1)?;          // None
/// map.insert("2001:db8::/32".parse()?, 2)?;       // None
/// map.get_lpm(&"10.1.2.3/32".parse()?);           // Some((V4(10.0.0.0/8), 1))
/// map.get_lpm_value(&"2001:db8::1/128".parse()?); // Some(2)
/// map.ipv6.len();                                 // 1
/// ```
#[derive(Drop)]
pub struct JointPrefixMap<T: Drop, A: Allocator> {
    /// The IPv4 networks.
    pub ipv4: PrefixMap<Ipv4Prefix, T, A>,
    /// The IPv6 networks.
    pub ipv6: PrefixMap<Ipv6Prefix, T, A>,
}

impl<T: Drop, A: Allocator + Clone> JointPrefixMap<T, A> {
    /// Creates an empty map, with a clone of the allocator for the second family.
    ///
    /// No array of either family can ever be longer than `u32::MAX` slots.
    ///
    /// # Errors
    ///
    /// Returns `Memory` if an allocation fails. No map exists then.
    ///
    /// # Examples
    ///
    /// ```rust
    /// let map: JointPrefixMap<u32, Global> = JointPrefixMap::new(alloc)?;
    /// map.len();      // 0
    /// ```
    #[tactic(auto, using(crate::proofs::Changes::none_joined))]
    pub fn new(alloc: A) -> Result<Self, Refusal>
        ensures entries { IfOk result (λ map. entries_of map ≡ no_entries) }
        ensures new { IfOk result (λ map. AreNew (2 ^ 32 - 1) (2 ^ 32 - 1) (maps_of map)) }
        ensures only_memory { IfErr result (λ refusal. refusal ≡ Memory) }
    {
        let Ok(second) = alloc.clone() else {
            return Err(Refusal::Memory);
        };
        Ok(JointPrefixMap {
            ipv4: PrefixMap::new(alloc)?,
            ipv6: PrefixMap::new(second)?,
        })
    }

    /// Creates an empty map, none of whose arrays is ever longer than `limit` slots.
    ///
    /// There are four arrays: those of nodes and of values, for each family.
    ///
    /// # Errors
    ///
    /// Returns `IndexRange` if `limit` is 0, since each root needs a slot. Otherwise returns `Memory`
    /// if an allocation fails. No map exists then.
    ///
    /// # Examples
    ///
    /// ```rust
    /// let mut map: JointPrefixMap<u32, Global> = JointPrefixMap::with_slot_limit(alloc, 4)?;
    /// map.insert("0.0.0.0/32".parse()?, 1);       // Err(Refused { cause: IndexRange, value: 1 }): it needs six more nodes
    /// map.insert("::/4".parse()?, 2);             // Ok(None)
    /// ```
    #[tactic(auto, using(crate::proofs::Changes::none_joined))]
    pub fn with_slot_limit(alloc: A, limit: u32) -> Result<Self, Refusal>
        ensures entries { IfOk result (λ map. entries_of map ≡ no_entries) }
        ensures new { IfOk result (λ map. AreNew limit limit (maps_of map)) }
        ensures range { IfErr result (λ cause. (cause ≡ IndexRange) ↔ (limit ≡ 0)) }
        ensures none { limit ≡ 0 → IsErr result }
    {
        if limit == 0 {
            return Err(Refusal::IndexRange);
        }
        let Ok(second) = alloc.clone() else {
            return Err(Refusal::Memory);
        };
        Ok(JointPrefixMap {
            ipv4: PrefixMap::with_slot_limit(alloc, limit)?,
            ipv6: PrefixMap::with_slot_limit(second, limit)?,
        })
    }

    /// Moves the entries of each family to new arrays that are as small as the entries allow, in listing order.
    ///
    /// The old arrays of a family are freed before those of the next family are made.
    ///
    /// # Errors
    ///
    /// Returns `Memory` if an allocation fails. The IPv4 map is then compacted or as it was, and the
    /// IPv6 map is as it was. The entries are the same in every case.
    ///
    /// # Examples
    ///
    /// ```rust
    /// // map = {10.1.0.0/16: 1, 10.1.2.0/24: 2, 2001:db8::/32: 3}
    /// map.remove(&"10.1.2.0/24".parse()?);
    /// map.compact()?;
    /// (map.ipv4.node_slots(), map.ipv4.cell_slots());     // (4, 1): as in a new map with 10.1.0.0/16 alone
    /// ```
    pub fn compact(&mut self) -> Result<(), Refusal>
        ensures entries { entries_of self.new ≡ entries_of self.old }
        ensures compacted { OnOk result
            (OnEach (λ width. IsCompacted) (maps_of self.old) (maps_of self.new)) }

        // If the IPv6 map is not compacted, the IPv4 map may be.
        ensures ipv4_after { OnErr result
            ((stored_state self.new.ipv4 ≡ stored_state self.old.ipv4)
            ⊎ IsCompacted self.old.ipv4 self.new.ipv4) }
        ensures ipv6_stays { OnErr result
            (stored_state self.new.ipv6 ≡ stored_state self.old.ipv6) }
        ensures only_memory { IfErr result (λ cause. cause ≡ Memory) }
    {
        self.ipv4.compact()?;
        self.ipv6.compact()
    }
}

impl<T: Drop, A: Allocator> JointPrefixMap<T, A> {
    /// Returns the number of entries of both families.
    ///
    /// # Examples
    ///
    /// ```rust
    /// // map = {10.0.0.0/8: 1, 2001:db8::/32: 2, 2001:db8:1::/48: 3}
    /// (map.len(), map.ipv4.len());        // (3, 1)
    /// ```
    #[inline]
    #[tactic(auto, using(crate::proofs::Walks::len_joined))]
    pub fn len(&self) -> usize
        ensures count { result ≡ len (entries_of self.now) }
        ensures few { len (entries_of self.now) < 2 ^ 33 }
        ensures whole { AreWhole (maps_of self.now) }
    {
        self.ipv4.len() + self.ipv6.len()
    }

    /// Returns whether there are no entries of either family.
    ///
    /// # Examples
    ///
    /// ```rust
    /// // map = {2001:db8::/32: 1}
    /// map.is_empty();     // false
    /// map.clear();
    /// map.is_empty();     // true
    /// ```
    #[inline]
    #[tactic(auto, using(crate::proofs::Changes::none_joined, crate::proofs::Changes::none_ipv4, crate::proofs::Changes::none_ipv6))]
    pub fn is_empty(&self) -> bool
        ensures none { IsTrue result ↔ (entries_of self.now ≡ no_entries) }
        ensures whole { AreWhole (maps_of self.now) }
    {
        let is_ipv6_empty = self.ipv6.is_empty();
        self.ipv4.is_empty() && is_ipv6_empty
    }

    /// Sets the value of a network and returns the previous one.
    ///
    /// Inserting a network that is already stored never fails and does not allocate.
    ///
    /// # Errors
    ///
    /// Returns the value back, with the cause, if a new network needs a block that cannot be made:
    /// `Memory` if an allocation fails, `IndexRange` if the missing blocks would exceed the slot
    /// limit. The entries are unchanged then.
    ///
    /// # Examples
    ///
    /// ```rust
    /// // map = {}
    /// map.insert("2001:db8::/32".parse()?, 1)?;       // None
    /// map.insert("2001:db8::1/32".parse()?, 2)?;      // Some(1): both have one path
    /// map.insert("0.0.0.0/0".parse()?, 3)?;           // None
    /// map.insert("::/0".parse()?, 4)?;                // None: the families are apart
    /// ```
    #[inline(always)]
    #[tactic(auto, using(crate::proofs::Joined::get_ipv4, crate::proofs::Joined::get_ipv6, crate::proofs::Changes::with_ipv4, crate::proofs::Changes::with_ipv6))]
    pub fn insert(&mut self, prefix: IpPrefix, value: T) -> Result<Option<T>, Refused<T>>
        ensures before { IfOk result
            (λ before. before ≡ get (entries_of self.old) (ip_path prefix)) }
        ensures entries { OnOk result
            (entries_of self.new ≡ with_entry (entries_of self.old) (ip_path prefix) value) }
        ensures unchanged { OnErr result (entries_of self.new ≡ entries_of self.old) }
        ensures returned { IfErr result (λ refused. refused.value ≡ value) }

        // This is a step of the model in the map of the network's family, storage included. The other map is unchanged.
        ensures step { StepOnFamily prefix (λ q. Insert q value) (insert_reply result)
            (maps_of self.old) (maps_of self.new) }
    {
        match prefix {
            IpPrefix::V4(network) => self.ipv4.insert(network, value),
            IpPrefix::V6(network) => self.ipv6.insert(network, value),
        }
    }

    /// Frees the memory that the map has reserved and does not use.
    ///
    /// # Errors
    ///
    /// Returns an error if memory of a smaller size could not be allocated. Some may have been freed
    /// until then. In both cases the map is the same.
    ///
    /// # Examples
    ///
    /// ```rust
    /// // map = {10.1.0.0/16: 1, 2001:db8::/32: 2}
    /// map.shrink_to_fit()?;
    /// map.len();                  // 2
    /// ```
    pub fn shrink_to_fit(&mut self) -> Result<(), AllocError>
        ensures { self.new ≡ self.old }
    {
        self.ipv4.shrink_to_fit()?;
        self.ipv6.shrink_to_fit()
    }
}

impl<T: Clone, A: Allocator + Clone> JointPrefixMap<T, A> {
    /// Creates a map with the same networks, whose values are clones, in memory of its own.
    ///
    /// Each value is cloned once.
    ///
    /// # Errors
    ///
    /// Returns an error if an allocation fails, for the arrays or in the clone of a value. No copy
    /// exists then.
    ///
    /// # Examples
    ///
    /// ```rust
    /// // map = {2001:db8::/32: 1}
    /// let mut copy = map.clone()?;
    /// copy.insert("2001:db8::/32".parse()?, 2)?;      // Some(1)
    /// map.get(&"2001:db8::/32".parse()?);             // Some(1): the two share nothing
    /// ```
    #[tactic(auto, using(crate::proofs::Changes::cloned_joined))]
    pub fn clone(&self) -> Result<Self, AllocError>
        ensures entries { IfOk result
            (λ copy. AreCloned T.is_clone (entries_of self.now) (entries_of copy)) }
        ensures storage { IfOk result
            (λ copy. OnEach (λ width. AreStoredAlike) (maps_of self.now) (maps_of copy)) }

        // If a clone of a value equals it, contracts see the same map.
        ensures same { IfOk result
            (λ copy. ((x y : T) → T.is_clone x y → y ≡ x) → copy ≡ self.now) }
    {
        let ipv4 = self.ipv4.clone()?;
        let ipv6 = self.ipv6.clone()?;
        Ok(JointPrefixMap { ipv4, ipv6 })
    }
}
