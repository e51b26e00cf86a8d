//! Sets of networks of both families.
//!
//! Contracts see the keys of both families as one finite map of units, as they see a `PrefixSet`.
ghost use Rattle.std.specs.Prelude.{◌≡◌, ◌⊎◌, ◌+◌, ◌-◌, ◌*◌, ◌<◌, ◌^◌, ◌↔◌, IfErr, IfOk, IsErr, IsTrue, List, OnErr, OnOk, length, map, not};
ghost use Rattle.std.specs.FinMap.{contains_key, len};
ghost use Rattle.std.specs.Iterator.{Drains, IsFinite, Yields};
ghost use Rattle.prefix_trie_bits.specs.declared.prefix.Refusal.TheVariants.{IndexRange, Memory};
ghost use Rattle.prefix_trie_bits.specs.Model.Step.{Insert};
ghost use Rattle.prefix_trie_table.specs.Model.Contents.{stored_state};
ghost use Rattle.prefix_trie.specs.Terms.{as_item, IsTidy, no_entries, put_all, set_insert_reply, with_entry};
ghost use Rattle.prefix_trie_joint.specs.Changes.{sets_of, AreNew, AreWhole, IsCompacted, OnEach, StepOnFamily};
ghost use Rattle.prefix_trie_joint.specs.Joined.{keys_of};
ghost use Rattle.prefix_trie_joint.specs.Networks.{ip_path};

mod equality;
mod lookup;
mod removal;
mod retain;
mod walks;

use crate::map::JointPrefixMap;
use crate::prefix::IpPrefix;
use prefix_trie::{Ipv4Prefix, Ipv6Prefix, PrefixSet, Refusal};
use std::alloc::{AllocError, Allocator};
use std::iter::IntoIterator;
pub use walks::{Cover, IntoIter, Iter};

/// A set of IPv4 and IPv6 networks, in memory of the allocator `A`.
///
/// It is a set for each family, and both may be used directly: `set.ipv6.node_count()`. A
/// network of either family always fits, so only the `retain` calls have a `requires`, on their test.
///
/// # Examples
///
/// ```rust
/// let mut set = JointPrefixSet::new(alloc)?;
/// set.insert("10.0.0.0/8".parse()?)?;             // true
/// set.insert("10.1.2.3/8".parse()?)?;             // false: both have one path
/// set.insert("2001:db8::/32".parse()?)?;          // true
/// set.get_lpm(&"10.1.2.3/32".parse()?);           // Some(V4(10.0.0.0/8))
/// ```
#[derive(Drop)]
pub struct JointPrefixSet<A: Allocator> {
    /// The IPv4 networks.
    pub ipv4: PrefixSet<Ipv4Prefix, A>,
    /// The IPv6 networks.
    pub ipv6: PrefixSet<Ipv6Prefix, A>,
}

impl<A: Allocator + Clone> JointPrefixSet<A> {
    /// Creates an empty set, with a clone of the allocator for the second family.
    ///
    /// # Errors
    ///
    /// Returns `Memory` if an allocation fails. No set exists then.
    ///
    /// # Examples
    ///
    /// ```rust
    /// let set: JointPrefixSet<Global> = JointPrefixSet::new(alloc)?;
    /// set.len();      // 0
    /// ```
    #[tactic(auto, using(crate::proofs::Changes::none_joined))]
    pub fn new(alloc: A) -> Result<Self, Refusal>
        ensures entries { IfOk result (λ set. keys_of set ≡ no_entries) }
        ensures new { IfOk result (λ set. AreNew (2 ^ 32 - 1) (2 ^ 32 - 1) (sets_of set)) }
        ensures only_memory { IfErr result (λ refusal. refusal ≡ Memory) }
    {
        let Ok(second) = alloc.clone() else {
            return Err(Refusal::Memory);
        };
        Ok(JointPrefixSet {
            ipv4: PrefixSet::new(alloc)?,
            ipv6: PrefixSet::new(second)?,
        })
    }

    /// Creates an empty set, none of whose four arrays is ever longer than `limit` slots.
    ///
    /// # Errors
    ///
    /// Returns `IndexRange` if `limit` is 0, since each root needs a slot. Otherwise returns `Memory`
    /// if an allocation fails. No set exists then.
    ///
    /// # Examples
    ///
    /// ```rust
    /// let mut set: JointPrefixSet<Global> = JointPrefixSet::with_slot_limit(alloc, 4)?;
    /// set.insert("0.0.0.0/32".parse()?);      // Err(IndexRange): it needs six more nodes
    /// set.insert("::/4".parse()?);            // Ok(true)
    /// ```
    #[tactic(auto, using(crate::proofs::Changes::none_joined))]
    pub fn with_slot_limit(alloc: A, limit: u32) -> Result<Self, Refusal>
        ensures entries { IfOk result (λ set. keys_of set ≡ no_entries) }
        ensures new { IfOk result (λ set. AreNew limit limit (sets_of set)) }
        ensures range { IfErr result (λ cause. (cause ≡ IndexRange) ↔ (limit ≡ 0)) }
        ensures none { limit ≡ 0 → IsErr result }
    {
        if limit == 0 {
            return Err(Refusal::IndexRange);
        }
        let Ok(second) = alloc.clone() else {
            return Err(Refusal::Memory);
        };
        Ok(JointPrefixSet {
            ipv4: PrefixSet::with_slot_limit(alloc, limit)?,
            ipv6: PrefixSet::with_slot_limit(second, limit)?,
        })
    }

    /// Creates a set with the same networks, in memory of its own.
    ///
    /// # Errors
    ///
    /// Returns an error if an allocation fails. No copy exists then.
    ///
    /// # Examples
    ///
    /// ```rust
    /// // set = {10.0.0.0/8, ::/0}
    /// let mut copy = set.clone()?;
    /// copy.clear();
    /// (set.len(), copy.len());        // (2, 0): the two share nothing
    /// ```
    pub fn clone(&self) -> Result<Self, AllocError>
        ensures { IfOk result (λ copy. copy ≡ self.now) }
    {
        let ipv4 = self.ipv4.clone()?;
        let ipv6 = self.ipv6.clone()?;
        Ok(JointPrefixSet { ipv4, ipv6 })
    }

    /// Moves the keys of each family to new arrays that are as small as the keys allow, in listing order.
    ///
    /// # Errors
    ///
    /// Returns `Memory` if an allocation fails. The IPv4 set is then compacted or as it was, and the
    /// IPv6 set is as it was. The keys are the same in every case.
    ///
    /// # Examples
    ///
    /// ```rust
    /// // set = {10.1.0.0/16, 10.1.2.0/24}
    /// set.remove(&"10.1.2.0/24".parse()?);
    /// set.compact()?;
    /// set.ipv4.node_slots();      // 4: as in a new set with 10.1.0.0/16 alone
    /// ```
    pub fn compact(&mut self) -> Result<(), Refusal>
        ensures entries { keys_of self.new ≡ keys_of self.old }
        ensures compacted { OnOk result
            (OnEach (λ width. IsCompacted) (sets_of self.old) (sets_of self.new)) }

        // If the IPv6 set is not compacted, the IPv4 set may be.
        ensures ipv4_after { OnErr result
            ((stored_state self.new.ipv4 ≡ stored_state self.old.ipv4)
            ⊎ IsCompacted self.old.ipv4 self.new.ipv4) }
        ensures ipv6_stays { OnErr result
            (stored_state self.new.ipv6 ≡ stored_state self.old.ipv6) }
        ensures only_memory { IfErr result (λ cause. cause ≡ Memory) }
    {
        self.ipv4.compact()?;
        self.ipv6.compact()
    }

    /// Creates a set from the networks of an iterator, inserted in order.
    ///
    /// The slot limits are those of `new`. Requires that the iterator ends.
    ///
    /// # Errors
    ///
    /// Returns `Memory` or `IndexRange` as `insert` does. `IndexRange` needs very many networks: each makes
    /// at most 56 slots of an array. No set exists then.
    ///
    /// # Examples
    ///
    /// ```rust
    /// let networks = vec![in alloc; "::/0".parse::<IpPrefix>()?, "10.0.0.0/8".parse()?, "::1/0".parse()?]?;
    /// JointPrefixSet::from_iter(alloc, networks)?.len();      // 2: the first and the last have one path
    /// ```
    pub fn from_iter<I: IntoIterator<Item = IpPrefix> + Drop>(
        alloc: A,
        items: I,
    ) -> Result<Self, Refusal>
        requires { (it : I.IntoIter) → I.into_iter_gives items it
            → I.IntoIter.can_next it × IsFinite (I.IntoIter.remaining it) }
        ensures entries { IfOk result
            (λ set. (it : I.IntoIter) × (xs : List IpPrefix) × I.into_iter_gives items it
            × Drains I.IntoIter.next_gives it xs
            × (keys_of set ≡ put_all ip_path (map as_item xs) no_entries)) }
        ensures tidy { IfOk result (λ set. IsTidy set.ipv4.entries set.ipv4.nodes
            × IsTidy set.ipv6.entries set.ipv6.nodes) }
        ensures limit { IfOk result (λ set. (set.ipv4.space.limit ≡ 2 ^ 32 - 1)
            × (set.ipv6.space.limit ≡ 2 ^ 32 - 1)) }

        // `IndexRange` comes only if 56 slots for each network taken would exceed the limit.
        ensures range { IfErr result
            (λ cause. cause ≡ IndexRange
            → (it : I.IntoIter) × (xs : List IpPrefix) × (rest : I.IntoIter)
            × I.into_iter_gives items it × Yields I.IntoIter.next_gives it xs rest
            × (2 ^ 32 - 1 < 1 + 56 * length xs)) }
    {
        let units = items.into_iter().map(|prefix| (prefix, ()));
        let JointPrefixMap { ipv4, ipv6 } = JointPrefixMap::from_iter(alloc, units)?;
        Ok(JointPrefixSet {
            ipv4: PrefixSet::from_map(ipv4),
            ipv6: PrefixSet::from_map(ipv6),
        })
    }
}

impl<A: Allocator> JointPrefixSet<A> {
    /// Returns the number of networks of both families.
    ///
    /// # Examples
    ///
    /// ```rust
    /// // set = {10.0.0.0/8, 2001:db8::/32, 2001:db8:1::/48}
    /// (set.len(), set.ipv4.len());        // (3, 1)
    /// ```
    #[inline]
    #[tactic(auto, using(crate::proofs::Walks::len_joined))]
    pub fn len(&self) -> usize
        ensures count { result ≡ len (keys_of self.now) }
        ensures few { len (keys_of self.now) < 2 ^ 33 }
        ensures whole { AreWhole (sets_of self.now) }
    {
        self.ipv4.len() + self.ipv6.len()
    }

    /// Returns whether there are no networks of either family.
    ///
    /// # Examples
    ///
    /// ```rust
    /// // set = {2001:db8::/32}
    /// set.is_empty();     // false
    /// ```
    #[inline]
    #[tactic(auto, using(crate::proofs::Changes::none_joined, crate::proofs::Changes::none_ipv4, crate::proofs::Changes::none_ipv6))]
    pub fn is_empty(&self) -> bool
        ensures none { IsTrue result ↔ (keys_of self.now ≡ no_entries) }
        ensures whole { AreWhole (sets_of self.now) }
    {
        let is_ipv6_empty = self.ipv6.is_empty();
        self.ipv4.is_empty() && is_ipv6_empty
    }

    /// Inserts a network and returns whether it is new.
    ///
    /// Inserting a stored network never fails.
    ///
    /// # Errors
    ///
    /// For a new network, returns `Memory` if an allocation failed, and `IndexRange` if the missing
    /// blocks would exceed the slot limit. The keys are unchanged then.
    ///
    /// # Examples
    ///
    /// ```rust
    /// // set = {}
    /// set.insert("2001:db8::/32".parse()?)?;      // true
    /// set.insert("2001:db8::1/32".parse()?)?;     // false: both have one path
    /// ```
    #[inline]
    #[tactic(auto, using(crate::proofs::Joined::get_ipv4, crate::proofs::Joined::get_ipv6, crate::proofs::Changes::with_ipv4, crate::proofs::Changes::with_ipv6))]
    pub fn insert(&mut self, prefix: IpPrefix) -> Result<bool, Refusal>
        ensures is_new { IfOk result
            (λ is_new. is_new ≡ not (contains_key (keys_of self.old) (ip_path prefix))) }
        ensures entries { OnOk result
            (keys_of self.new ≡ with_entry (keys_of self.old) (ip_path prefix) tt) }
        ensures unchanged { OnErr result (keys_of self.new ≡ keys_of self.old) }

        // This is a step of the model in the set of the network's family, storage included. The other set is unchanged.
        ensures step { StepOnFamily prefix (λ q. Insert q tt) (set_insert_reply result)
            (sets_of self.old) (sets_of self.new) }
    {
        match prefix {
            IpPrefix::V4(network) => self.ipv4.insert(network),
            IpPrefix::V6(network) => self.ipv6.insert(network),
        }
    }

    /// Frees the memory that the set has reserved and does not use.
    ///
    /// # Errors
    ///
    /// Returns an error if memory of a smaller size could not be allocated. In both cases the set is
    /// the same.
    ///
    /// # Examples
    ///
    /// ```rust
    /// // set = {10.0.0.0/8, ::/0}
    /// set.shrink_to_fit()?;
    /// set.len();      // 2
    /// ```
    pub fn shrink_to_fit(&mut self) -> Result<(), AllocError>
        ensures { self.new ≡ self.old }
    {
        self.ipv4.shrink_to_fit()?;
        self.ipv6.shrink_to_fit()
    }
}
