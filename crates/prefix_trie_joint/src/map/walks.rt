//! Walks of both families: IPv4 networks first, then IPv6 networks, each in listing order.
//!
//! Contracts see each walk as the list of the items still to come.
ghost use Rattle.std.specs.Prelude.{◌≡◌, ◌<◌, ◌^◌, [], cond, length, map};
ghost use Rattle.std.specs.FinMap.{len};
ghost use Rattle.std.specs.Iterator.{at_most};
ghost use Rattle.std.specs.Map.Iter.{TakesFirst, deref};
ghost use Rattle.prefix_trie.specs.Terms.{lent_item, listing, listing_after, listing_below, listing_from, prefix_pairs};
ghost use Rattle.prefix_trie_joint.specs.Joined.{entries_of, joined};
ghost use Rattle.prefix_trie_joint.specs.Networks.{ip_back, ip_path};

use crate::map::JointPrefixMap;
use crate::networks::Networks;
use crate::prefix::IpPrefix;
use prefix_trie::map::{self, KeysOf};
use prefix_trie::{Ipv4Prefix, Ipv6Prefix, PrefixMap};
use std::alloc::Allocator;
use std::iter::IntoIterator;
use std::marker::Model;

impl<T: Drop, A: Allocator> JointPrefixMap<T, A> {
    /// Returns a walk over the entries: IPv4 networks first, then IPv6 networks, each in listing order.
    ///
    /// A network comes before those that it contains. Of two networks of a family that differ in a bit,
    /// the one with 0 comes first. Networks are without host bits.
    ///
    /// # Examples
    ///
    /// ```rust
    /// // map = {2001:db8::/32: 1, 10.0.0.0/8: 2, 10.1.0.0/16: 3}
    /// map.values();       // [2, 3, 1]
    /// map.iter().next();  // Some((V4(10.0.0.0/8), 2))
    /// ```
    #[inline]
    #[tactic(auto, using(crate::proofs::Walks::walk_joined, crate::proofs::Walks::count_joined, crate::proofs::Walks::len_joined))]
    pub fn iter(&self) -> Iter<'_, T, A>
        ensures items { result ≡ prefix_pairs ip_back (listing (entries_of self.now)) }
        ensures counted { length result ≡ len (entries_of self.now) }
        ensures fits { len (entries_of self.now) < 2 ^ 64 }
    {
        Iter {
            ipv4: self.ipv4.iter(),
            ipv6: self.ipv6.iter(),
        }
    }

    /// Returns a walk over the networks, in the order of `iter`.
    ///
    /// # Examples
    ///
    /// ```rust
    /// // map = {::/0: 1, 10.0.0.0/8: 2, 9.0.0.0/8: 3}
    /// map.keys();     // [V4(9.0.0.0/8), V4(10.0.0.0/8), V6(0000:0000:0000:0000:0000:0000:0000:0000/0)]
    /// ```
    #[inline]
    #[tactic(auto, using(crate::proofs::Walks::networks_joined, crate::proofs::Walks::count_networks, crate::proofs::Walks::len_joined))]
    pub fn keys(&self) -> Keys<'_, T, A>
        ensures items { result ≡ map (λ e. ip_back e.0) (listing (entries_of self.now)) }
        ensures counted { length result ≡ len (entries_of self.now) }
        ensures fits { len (entries_of self.now) < 2 ^ 64 }
    {
        Networks::new(self.ipv4.keys(), self.ipv6.keys())
    }

    /// Returns a walk over the values, in the order of `iter`.
    ///
    /// # Examples
    ///
    /// ```rust
    /// // map = {::/0: 1, 10.0.0.0/8: 2, 9.0.0.0/8: 3}
    /// map.values();   // [3, 2, 1]
    /// ```
    #[inline]
    pub fn values(&self) -> Values<'_, T, A>
        ensures items { result ≡ map (λ e. e.1) (listing (entries_of self.now)) }
        ensures counted { length result ≡ len (entries_of self.now) }
        ensures fits { len (entries_of self.now) < 2 ^ 64 }
    {
        Values { inner: self.iter() }
    }

    /// Returns a walk over the entries after a network, in the order of `iter`.
    ///
    /// The network's own entry comes first if `inclusive` is true and it is stored. After an IPv4 network
    /// come the IPv4 networks after it, and then all IPv6 networks.
    ///
    /// # Examples
    ///
    /// ```rust
    /// // map = {10.0.0.0/8: 1, 10.1.0.0/16: 2, 2001:db8::/32: 3}
    /// map.iter_from(&"10.1.0.0/16".parse()?, true).count();       // 2
    /// map.iter_from(&"10.1.0.0/16".parse()?, false).count();      // 1
    /// map.iter_from(&"2001:db8::/32".parse()?, false).next();     // None
    /// ```
    #[inline]
    pub fn iter_from(&self, prefix: &IpPrefix, inclusive: bool) -> Iter<'_, T, A>
        ensures items { result ≡ prefix_pairs ip_back (cond inclusive
            (listing_from (entries_of self.now) (ip_path prefix.now))
            (listing_after (entries_of self.now) (ip_path prefix.now))) }
        ensures fits { length result < 2 ^ 64 }
    {
        Iter::after(&self.ipv4, &self.ipv6, prefix, inclusive)
    }

    /// Returns a walk over the entries that this network contains, its own included, in the order of `iter`.
    ///
    /// # Examples
    ///
    /// ```rust
    /// // map = {10.0.0.0/8: 1, 10.1.0.0/16: 2, 2001:db8::/32: 3}
    /// map.children(&"::/0".parse()?).count();             // 1
    /// map.children(&"10.1.0.0/16".parse()?).next();       // Some((V4(10.1.0.0/16), 2))
    /// ```
    #[inline]
    pub fn children(&self, prefix: &IpPrefix) -> Iter<'_, T, A>
        ensures items { result
            ≡ prefix_pairs ip_back (listing_below (entries_of self.now) (ip_path prefix.now)) }
        ensures fits { length result < 2 ^ 64 }
    {
        Iter::below(&self.ipv4, &self.ipv6, prefix)
    }
}

impl<'a, T: Drop, A: Allocator> IntoIterator for &'a JointPrefixMap<T, A> {
    type Item = (IpPrefix, &'a T);

    type IntoIter = Iter<'a, T, A>;

    ghost use Rattle.prefix_trie_joint.specs.declared.prefix.IpPrefix.{IpPrefix};

    ghost into_iter_gives = { λ s it. (it ≡ prefix_pairs ip_back (listing (entries_of s.now)))
        × (length it ≡ len (entries_of s.now)) × (len (entries_of s.now) < 2 ^ 64) };

    #[inline]
    fn into_iter(self) -> Iter<'a, T, A> {
        self.iter()
    }
}

/// The entries of a joint map: each network, without host bits, with a reference to its value.
///
/// IPv4 networks come first, then IPv6 networks. The walk does not allocate. After its last item it
/// returns `None` each time.
#[derive(Drop)]
pub struct Iter<'a, T: Drop, A: Allocator> {
    ipv4: map::Iter<'a, Ipv4Prefix, T, A>,
    ipv6: map::Iter<'a, Ipv6Prefix, T, A>,
}

impl<'a, T: Drop, A: Allocator> Model for Iter<'a, T, A> {
    ghost use Rattle.std.specs.Prelude.{List};
    ghost use Rattle.prefix_trie_joint.specs.Joined.{both};
    ghost use Rattle.prefix_trie_joint.specs.declared.prefix.IpPrefix.{IpPrefix};

    ghost Value = { List (IpPrefix × T) };

    ghost view = { λ it. both it.ipv4 it.ipv6 };
}

impl<'a, T: Drop, A: Allocator> Iter<'a, T, A> {
    /// Returns a walk over the entries after a network, its own included if `inclusive` is true.
    #[inline]
    #[tactic(auto, using(crate::proofs::Walks::walk_from, crate::proofs::Walks::few_from_ipv6))]
    pub(crate) fn after(
        ipv4: &'a PrefixMap<Ipv4Prefix, T, A>,
        ipv6: &'a PrefixMap<Ipv6Prefix, T, A>,
        prefix: &IpPrefix,
        inclusive: bool,
    ) -> Self
        ensures items { result ≡ prefix_pairs ip_back (cond inclusive
            (listing_from (joined ipv4.now.entries ipv6.now.entries) (ip_path prefix.now))
            (listing_after (joined ipv4.now.entries ipv6.now.entries) (ip_path prefix.now))) }
        ensures fits { length result < 2 ^ 64 }
    {
        known_few(ipv4, ipv6);
        match prefix.copy() {
            IpPrefix::V4(network) => Iter {
                ipv4: ipv4.iter_from(&network, inclusive),
                ipv6: ipv6.iter(),
            },
            IpPrefix::V6(network) => Iter {
                ipv4: map::Iter::default(),
                ipv6: ipv6.iter_from(&network, inclusive),
            },
        }
    }

    /// Returns a walk over the entries that a network contains.
    #[inline]
    #[tactic(auto, using(crate::proofs::Walks::walk_below, crate::proofs::Walks::few_below_ipv4, crate::proofs::Walks::few_below_ipv6))]
    pub(crate) fn below(
        ipv4: &'a PrefixMap<Ipv4Prefix, T, A>,
        ipv6: &'a PrefixMap<Ipv6Prefix, T, A>,
        prefix: &IpPrefix,
    ) -> Self
        ensures items { result ≡ prefix_pairs ip_back
            (listing_below (joined ipv4.now.entries ipv6.now.entries) (ip_path prefix.now)) }
        ensures fits { length result < 2 ^ 64 }
    {
        known_few(ipv4, ipv6);
        match prefix.copy() {
            IpPrefix::V4(network) => Iter {
                ipv4: ipv4.children(&network),
                ipv6: map::Iter::default(),
            },
            IpPrefix::V6(network) => Iter {
                ipv4: map::Iter::default(),
                ipv6: ipv6.children(&network),
            },
        }
    }

    /// Returns a walk over the networks of the items to come.
    #[inline]
    #[tactic(auto, using(crate::proofs::Walks::networks_of_both))]
    pub(crate) fn networks(self) -> Keys<'a, T, A>
        ensures { result ≡ map (λ e. e.0) self.entry }
    {
        let Iter { ipv4, ipv6 } = self;
        Networks::new(KeysOf::new(ipv4), KeysOf::new(ipv6))
    }

    /// Returns a walk with the same items to come.
    #[inline]
    pub fn clone(&self) -> Self
        ensures { result ≡ self.now }
    {
        Iter {
            ipv4: self.ipv4.clone(),
            ipv6: self.ipv6.clone(),
        }
    }
}

// Brings into the caller's proof that the maps have few entries together. The compiler removes it.
#[inline]
#[tactic(auto, using(crate::proofs::Walks::few_joined))]
pub(super) fn known_few<T: Drop, A: Allocator>(
    ipv4: &PrefixMap<Ipv4Prefix, T, A>,
    ipv6: &PrefixMap<Ipv6Prefix, T, A>,
)
    ensures { len (joined ipv4.now.entries ipv6.now.entries) < 2 ^ 64 }
{
    let _ = ipv4.len();
    let _ = ipv6.len();
}

impl<'a, T: Drop, A: Allocator> Default for Iter<'a, T, A> {
    ghost is_default = { λ it. it ≡ [] };

    #[inline]
    fn default() -> Self {
        Iter {
            ipv4: map::Iter::default(),
            ipv6: map::Iter::default(),
        }
    }
}

impl<'a, T: Drop, A: Allocator> Iterator for Iter<'a, T, A> {
    type Item = (IpPrefix, &'a T);

    ghost next_gives = { TakesFirst lent_item };

    ghost remaining = { λ items. at_most (length items) };

    #[inline]
    fn next(&mut self) -> Option<(IpPrefix, &'a T)> {
        if let Some((network, value)) = self.ipv4.next() {
            return Some((IpPrefix::V4(network), value));
        }
        let Some((network, value)) = self.ipv6.next() else {
            return None;
        };
        Some((IpPrefix::V6(network), value))
    }
}

/// The networks of a joint map in the order of `iter`, without host bits.
pub type Keys<'a, T, A> = Networks<
    map::Iter<'a, Ipv4Prefix, T, A>,
    map::Iter<'a, Ipv6Prefix, T, A>,
>;

/// The values of a joint map, borrowed in the order of `iter`.
#[derive(Drop)]
pub struct Values<'a, T: Drop, A: Allocator> {
    inner: Iter<'a, T, A>,
}

impl<'a, T: Drop, A: Allocator> Model for Values<'a, T, A> {
    ghost use Rattle.std.specs.Prelude.{List, map};

    ghost Value = { List T };

    ghost view = { λ it. map (λ e. e.1) it.inner };
}

impl<'a, T: Drop, A: Allocator> Values<'a, T, A> {
    /// Returns a walk with the same items to come.
    #[inline]
    pub fn clone(&self) -> Self
        ensures { result ≡ self.now }
    {
        Values {
            inner: self.inner.clone(),
        }
    }
}

impl<'a, T: Drop, A: Allocator> Default for Values<'a, T, A> {
    ghost is_default = { λ it. it ≡ [] };

    #[inline]
    fn default() -> Self {
        Values {
            inner: Iter::default(),
        }
    }
}

impl<'a, T: Drop, A: Allocator> Iterator for Values<'a, T, A> {
    type Item = &'a T;

    ghost next_gives = { TakesFirst deref };

    ghost remaining = { λ items. at_most (length items) };

    #[inline]
    fn next(&mut self) -> Option<&'a T> {
        let Some((_, value)) = self.inner.next() else {
            return None;
        };
        Some(value)
    }

    // The default does not know that the borrowed values live as long as the map.
    #[inline]
    fn size_hint(&self) -> (usize, Option<usize>) {
        (0, None)
    }
}
