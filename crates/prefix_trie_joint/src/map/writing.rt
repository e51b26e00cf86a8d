//! Walks of both families that lend the values for writing, each until the next call.
//!
//! A walk gives the entries that are to come when it is made, each once: no write changes which networks are stored.
ghost use Rattle.std.specs.Prelude.{◌≡◌, Some, cond};
ghost use Rattle.std.specs.Borrow.{sem};
ghost use Rattle.std.specs.FinMap.{get};
ghost use Rattle.std.specs.Option.{option_copied_mut, option_map};
ghost use Rattle.prefix_trie.specs.Terms.{first_item, listing, listing_after, listing_from, prefix_pair};
ghost use Rattle.prefix_trie_map.specs.Walks.{lent_item_mut};
ghost use Rattle.prefix_trie_joint.specs.Joined.{entries_of, AreIpKeys};
ghost use Rattle.prefix_trie_joint.specs.Networks.{ip_back, ip_path};

use crate::map::JointPrefixMap;
use crate::prefix::IpPrefix;
use prefix_trie::laws::listed_laws;
use prefix_trie::{Ipv4Prefix, Ipv6Prefix, Prefix};
use std::alloc::Allocator;

/// The entries of a joint map in the order of `iter`, without host bits, with their values lent until the next call.
///
/// It borrows the map of both families, so each step looks up the next network, and its value. A walk
/// over one family goes on from node to node: `map.ipv6.iter_mut()`.
#[derive(Drop)]
pub struct IterMut<'a, T: Drop, A: Allocator> {
    map: &'a mut JointPrefixMap<T, A>,
    from: IpPrefix,
    inclusive: bool,
}

impl<T: Drop, A: Allocator> JointPrefixMap<T, A> {
    ghost use Rattle.prefix_trie_joint.specs.Writing.{as_entries, to_come};

    /// Returns a walk over the entries of `iter` that lends their values for writing.
    ///
    /// Each value is lent until the next call. Writing changes only that value, and the walk goes on as
    /// if nothing were written.
    ///
    /// # Examples
    ///
    /// ```rust
    /// // map = {10.0.0.0/8: 1, 2001:db8::/32: 2}
    /// let mut walk = map.iter_mut();
    /// while let Some((_network, value)) = walk.next() { *value += 1; }
    /// map.values();       // [2, 3]
    /// ```
    #[inline]
    pub fn iter_mut(&mut self) -> IterMut<'_, T, A>
        ensures same_map { result.map.ghost_name ≡ self.entry.ghost_name }
        ensures unchanged { result.map.now ≡ self.old }
        ensures items { to_come result ≡ listing (entries_of self.old) }
        ensures keys { AreIpKeys (entries_of self.old) }
    {
        known_keys(self);
        IterMut {
            map: self,
            from: IpPrefix::V4(Ipv4Prefix::from_repr_len(0, 0)),
            inclusive: true,
        }
    }

    /// Returns a walk over the entries of `iter_from` that lends their values for writing.
    ///
    /// # Examples
    ///
    /// ```rust
    /// // map = {10.0.0.0/8: 1, 10.1.0.0/16: 2, 2001:db8::/32: 3}
    /// let mut walk = map.iter_from_mut(&"10.1.0.0/16".parse()?, false);
    /// while let Some((_network, value)) = walk.next() { *value += 10; }
    /// map.values();       // [1, 2, 13]: with `true` it would be [1, 12, 13]
    /// ```
    #[inline]
    pub fn iter_from_mut(&mut self, prefix: &IpPrefix, inclusive: bool) -> IterMut<'_, T, A>
        ensures same_map { result.map.ghost_name ≡ self.entry.ghost_name }
        ensures unchanged { result.map.now ≡ self.old }
        ensures items { to_come result ≡ cond inclusive
            (listing_from (entries_of self.old) (ip_path prefix.now))
            (listing_after (entries_of self.old) (ip_path prefix.now)) }
        ensures keys { AreIpKeys (entries_of self.old) }
    {
        known_keys(self);
        IterMut {
            map: self,
            from: prefix.copy(),
            inclusive,
        }
    }

    /// Returns a walk over the values of `values` that lends them for writing, each until the next call.
    ///
    /// # Examples
    ///
    /// ```rust
    /// // map = {10.0.0.0/8: 1, 2001:db8::/32: 2}
    /// let mut walk = map.values_mut();
    /// while let Some(value) = walk.next() { *value *= 10; }
    /// map.values();       // [10, 20]
    /// ```
    #[inline]
    pub fn values_mut(&mut self) -> ValuesMut<'_, T, A>
        ensures same_map { result.map.ghost_name ≡ self.entry.ghost_name }
        ensures unchanged { result.map.now ≡ self.old }
        ensures items { to_come (as_entries result) ≡ listing (entries_of self.old) }
        ensures keys { AreIpKeys (entries_of self.old) }
    {
        let IterMut {
            map,
            from,
            inclusive,
        } = self.iter_mut();
        ValuesMut {
            map,
            from,
            inclusive,
        }
    }
}

impl<'a, T: Drop, A: Allocator> IterMut<'a, T, A> {
    ghost use Rattle.prefix_trie_joint.specs.Writing.{lends_next, lends_value_in, stepped, to_come};

    /// Advances to the next entry and returns its network, without host bits.
    ///
    /// `get_mut` lends its value.
    ///
    /// # Examples
    ///
    /// ```rust
    /// // map = {10.0.0.0/8: 1, 2001:db8::/32: 2}
    /// let mut walk = map.iter_mut();
    /// walk.step();        // Some(V4(10.0.0.0/8))
    /// walk.next();        // Some((V6(2001:0db8:0000:0000:0000:0000:0000:0000/32), 2))
    /// walk.step();        // None
    /// ```
    #[inline]
    #[tactic(auto, using(crate::proofs::Writing::first_stored, crate::proofs::Writing::first_is, crate::proofs::Writing::any_is, crate::proofs::Writing::none_first, crate::proofs::Writing::none_any))]
    pub fn step(&mut self) -> Option<IpPrefix>
        ensures network { result ≡ option_map (λ e. ip_back e.0) (first_item (to_come self.old)) }
        ensures stored { option_map (λ p. get (entries_of self.old.map.now) (ip_path p)) result
            ≡ option_map (λ e. Some e.1) (first_item (to_come self.old)) }
        ensures moved { self.new ≡ stepped self.old }
    {
        known_keys(self.map);
        let network = first_from(self.map, &self.from, self.inclusive)?;
        self.from = network.copy();
        self.inclusive = false;
        Some(network)
    }

    /// Returns the value stored for exactly this network, for writing. The walk goes on as if nothing were written.
    ///
    /// # Examples
    ///
    /// ```rust
    /// // map = {10.0.0.0/8: 1, 2001:db8::/32: 2}
    /// let mut walk = map.iter_mut();
    /// while let Some(network) = walk.step() {
    ///     if let Some(value) = walk.get_mut(&network) { *value *= 10; }
    /// }
    /// map.values();       // [10, 20]
    /// ```
    #[inline]
    pub fn get_mut(&mut self, network: &IpPrefix) -> Option<&mut T>
        ensures* writes_back { sem 𝓛
            (lends_value_in T.row A.row A.Allocator self.entry network.now result) }
        ensures value { option_copied_mut result
            ≡ get (entries_of self.old.map.now) (ip_path network.now) }
    {
        self.map.get_mut(network)
    }

    /// Returns the next value, lent until the next call.
    ///
    /// # Examples
    ///
    /// ```rust
    /// // map = {10.0.0.0/8: 1, 2001:db8::/32: 2}
    /// let mut walk = map.iter_mut();
    /// walk.next_value();      // Some(1)
    /// walk.next_value();      // Some(2)
    /// walk.next_value();      // None
    /// ```
    #[inline]
    #[tactic(auto, using(crate::proofs::Writing::first_value, crate::proofs::Writing::no_value))]
    pub fn next_value(&mut self) -> Option<&mut T>
        ensures* writes_back { sem 𝓛 (lends_next T.row A.row A.Allocator self.entry result) }
        ensures value { option_copied_mut result
            ≡ option_map (λ e. e.1) (first_item (to_come self.old)) }
    {
        let network = self.step()?;
        self.get_mut(&network)
    }

    /// Returns the next network, without host bits, and its value, lent until the next call.
    ///
    /// What is written becomes the stored value, and nothing else changes. Only the contracts of `step`
    /// with `get_mut`, or of `next_value`, tell a caller's proof what was written.
    ///
    /// # Examples
    ///
    /// ```rust
    /// // map = {10.0.0.0/8: 1, 10.1.0.0/16: 2}
    /// let mut walk = map.iter_mut();
    /// walk.next();    // Some((V4(10.0.0.0/8), 1))
    /// walk.next();    // Some((V4(10.1.0.0/16), 2))
    /// walk.next();    // None
    /// ```
    #[inline]
    pub fn next(&mut self) -> Option<(IpPrefix, &mut T)>
        ensures { option_map lent_item_mut result
            ≡ prefix_pair ip_back (first_item (to_come self.old)) }
    {
        let network = self.step()?;
        match self.map.get_mut(&network) {
            Some(value) => Some((network, value)),
            None => None,
        }
    }

    /// Ends the walk and returns its map, with what was written.
    ///
    /// A caller's proof that ends a walk with this call knows the map.
    ///
    /// # Examples
    ///
    /// ```rust
    /// // map = {10.0.0.0/8: 1, 10.1.0.0/16: 2}
    /// let mut walk = map.iter_mut();
    /// if let Some((_network, value)) = walk.next() { *value = 3; }
    /// walk.into_map().values();       // [3, 2]
    /// ```
    #[inline]
    pub fn into_map(self) -> &'a mut JointPrefixMap<T, A>
        ensures same_map { result.ghost_name ≡ self.entry.map.ghost_name }
        ensures map { result.now ≡ self.entry.map.now }
    {
        let IterMut {
            map,
            from: _,
            inclusive: _,
        } = self;
        map
    }
}

// Brings into the caller's proof that each stored key is the path of its network. The compiler removes it.
#[inline]
fn known_keys<T: Drop, A: Allocator>(map: &JointPrefixMap<T, A>)
    ensures { AreIpKeys (entries_of map.now) }
{
    listed_laws::<Ipv4Prefix, T>();
    listed_laws::<Ipv6Prefix, T>();
    let _ = map.ipv4.len();
    let _ = map.ipv6.len();
}

// Returns the network of the first entry after a network, its own included if `inclusive` is true.
#[inline]
fn first_from<T: Drop, A: Allocator>(
    map: &JointPrefixMap<T, A>,
    from: &IpPrefix,
    inclusive: bool,
) -> Option<IpPrefix>
    ensures { result ≡ option_map (λ e. ip_back e.0) (first_item (cond inclusive
        (listing_from (entries_of map.now) (ip_path from.now))
        (listing_after (entries_of map.now) (ip_path from.now)))) }
{
    let Some((network, _)) = map.iter_from(from, inclusive).next() else {
        return None;
    };
    Some(network)
}

/// The values of a joint map, each lent until the next call, in the order of `iter`.
#[derive(Drop)]
pub struct ValuesMut<'a, T: Drop, A: Allocator> {
    map: &'a mut JointPrefixMap<T, A>,
    from: IpPrefix,
    inclusive: bool,
}

impl<'a, T: Drop, A: Allocator> ValuesMut<'a, T, A> {
    ghost use Rattle.prefix_trie_joint.specs.Writing.{as_entries, as_values, lends_next_value, lends_value_of, stepped, to_come};

    /// Returns the next value, lent until the next call.
    ///
    /// # Examples
    ///
    /// ```rust
    /// // map = {10.0.0.0/8: 1, 10.1.0.0/16: 2}
    /// let mut walk = map.values_mut();
    /// walk.next();    // Some(1)
    /// walk.next();    // Some(2)
    /// walk.next();    // None
    /// ```
    #[inline]
    #[tactic(auto, using(crate::proofs::Writing::first_value, crate::proofs::Writing::no_value))]
    pub fn next(&mut self) -> Option<&mut T>
        ensures* writes_back { sem 𝓛
            (lends_next_value T.row A.row A.Allocator self.entry result) }
        ensures value { option_copied_mut result
            ≡ option_map (λ e. e.1) (first_item (to_come (as_entries self.old))) }
    {
        let network = self.step()?;
        self.value_of(&network)
    }

    // Returns the value stored for exactly this network, for writing.
    #[inline]
    fn value_of(&mut self, network: &IpPrefix) -> Option<&mut T>
        ensures* writes_back { sem 𝓛
            (lends_value_of T.row A.row A.Allocator self.entry network.now result) }
        ensures value { option_copied_mut result
            ≡ get (entries_of self.old.map.now) (ip_path network.now) }
    {
        self.map.get_mut(network)
    }

    // Advances to the next entry and returns its network.
    #[inline]
    #[tactic(auto, using(crate::proofs::Writing::first_is, crate::proofs::Writing::any_is, crate::proofs::Writing::none_first, crate::proofs::Writing::none_any))]
    fn step(&mut self) -> Option<IpPrefix>
        ensures network { result
            ≡ option_map (λ e. ip_back e.0) (first_item (to_come (as_entries self.old))) }
        ensures stored { option_map (λ p. get (entries_of self.old.map.now) (ip_path p)) result
            ≡ option_map (λ e. Some e.1) (first_item (to_come (as_entries self.old))) }
        ensures moved { self.new ≡ as_values (stepped (as_entries self.old)) }
    {
        known_keys(self.map);
        let network = first_from(self.map, &self.from, self.inclusive)?;
        self.from = network.copy();
        self.inclusive = false;
        Some(network)
    }

    /// Ends the walk and returns its map, with what was written.
    ///
    /// A caller's proof that ends a walk with this call knows the map.
    ///
    /// # Examples
    ///
    /// ```rust
    /// // map = {10.0.0.0/8: 1, 10.1.0.0/16: 2}
    /// let mut walk = map.values_mut();
    /// if let Some(value) = walk.next() { *value = 3; }
    /// walk.into_map().values();       // [3, 2]
    /// ```
    #[inline]
    pub fn into_map(self) -> &'a mut JointPrefixMap<T, A>
        ensures same_map { result.ghost_name ≡ self.entry.map.ghost_name }
        ensures map { result.now ≡ self.entry.map.now }
    {
        let ValuesMut {
            map,
            from: _,
            inclusive: _,
        } = self;
        map
    }
}
