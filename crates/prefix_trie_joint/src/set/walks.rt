//! The walks of a set: IPv4 networks first, then IPv6 networks, each in listing order.
//!
//! Contracts see each walk as the list of the networks still to come.
ghost use Rattle.std.specs.Prelude.{◌≡◌, ◌<◌, ◌≤◌, ◌^◌, cond, length, map};
ghost use Rattle.std.specs.FinMap.{len};
ghost use Rattle.prefix_trie.specs.Terms.{covers, listing, listing_after, listing_below, listing_from};
ghost use Rattle.prefix_trie_joint.specs.Joined.{keys_of};
ghost use Rattle.prefix_trie_joint.specs.Networks.{ip_back, ip_path};

use crate::map;
use crate::networks::Networks;
use crate::prefix::IpPrefix;
use crate::set::JointPrefixSet;
use prefix_trie::map::KeysOf;
use std::alloc::Allocator;
use std::iter::IntoIterator;

/// The networks of a set, in the order of `iter`, without host bits.
pub type Iter<'a, A> = map::Keys<'a, (), A>;

/// The networks of a set that contain a network, shortest first and without host bits.
pub type Cover<'a, A> = map::CoverKeys<'a, (), A>;

impl<A: Allocator> JointPrefixSet<A> {
    /// Returns a walk over the networks: IPv4 networks first, then IPv6 networks, each in listing order.
    ///
    /// # Examples
    ///
    /// ```rust
    /// // set = {::/0, 10.0.0.0/8, 9.0.0.0/8}
    /// set.iter();     // [V4(9.0.0.0/8), V4(10.0.0.0/8), V6(0000:0000:0000:0000:0000:0000:0000:0000/0)]
    /// ```
    #[inline]
    #[tactic(auto, using(crate::proofs::Walks::networks_joined, crate::proofs::Walks::count_networks, crate::proofs::Walks::len_joined))]
    pub fn iter(&self) -> Iter<'_, A>
        ensures items { result ≡ map (λ e. ip_back e.0) (listing (keys_of self.now)) }
        ensures counted { length result ≡ len (keys_of self.now) }
        ensures fits { len (keys_of self.now) < 2 ^ 64 }
    {
        Networks::new(self.ipv4.iter(), self.ipv6.iter())
    }

    /// Returns a walk over the networks after a network, in the order of `iter`.
    ///
    /// The network itself comes first if `inclusive` is true and it is in the set.
    ///
    /// # Examples
    ///
    /// ```rust
    /// // set = {10.0.0.0/8, 10.1.0.0/16, 2001:db8::/32}
    /// set.iter_from(&"10.1.0.0/16".parse()?, true).count();       // 2
    /// set.iter_from(&"10.1.0.0/16".parse()?, false).count();      // 1
    /// ```
    #[inline]
    pub fn iter_from(&self, prefix: &IpPrefix, inclusive: bool) -> Iter<'_, A>
        ensures items { result ≡ map (λ e. ip_back e.0) (cond inclusive
            (listing_from (keys_of self.now) (ip_path prefix.now))
            (listing_after (keys_of self.now) (ip_path prefix.now))) }
        ensures fits { length result < 2 ^ 64 }
    {
        map::Iter::after(self.ipv4.as_map(), self.ipv6.as_map(), prefix, inclusive).networks()
    }

    /// Returns a walk over the networks that this network contains, itself included, in the order of `iter`.
    ///
    /// # Examples
    ///
    /// ```rust
    /// // set = {10.0.0.0/8, 10.1.0.0/16, 2001:db8::/32}
    /// set.children(&"10.0.0.0/8".parse()?);       // [V4(10.0.0.0/8), V4(10.1.0.0/16)]
    /// ```
    #[inline]
    pub fn children(&self, prefix: &IpPrefix) -> Iter<'_, A>
        ensures items { result
            ≡ map (λ e. ip_back e.0) (listing_below (keys_of self.now) (ip_path prefix.now)) }
        ensures fits { length result < 2 ^ 64 }
    {
        map::Iter::below(self.ipv4.as_map(), self.ipv6.as_map(), prefix).networks()
    }

    /// Returns a walk over the networks of the set that contain this one, shortest first.
    ///
    /// There are at most 129.
    ///
    /// # Examples
    ///
    /// ```rust
    /// // set = {10.0.0.0/8, 10.1.0.0/16, ::/0}
    /// set.cover(&"10.1.1.0/24".parse()?);     // [V4(10.0.0.0/8), V4(10.1.0.0/16)]
    /// ```
    #[inline]
    pub fn cover(&self, prefix: &IpPrefix) -> Cover<'_, A>
        ensures items { result
            ≡ map (λ e. ip_back e.0) (covers (keys_of self.now) (ip_path prefix.now)) }
        ensures counted { length result ≡ length (covers (keys_of self.now) (ip_path prefix.now)) }
        ensures fits { length (covers (keys_of self.now) (ip_path prefix.now)) ≤ 129 }
    {
        KeysOf::new(map::Cover::of(self.ipv4.as_map(), self.ipv6.as_map(), prefix))
    }
}

impl<'a, A: Allocator> IntoIterator for &'a JointPrefixSet<A> {
    type Item = IpPrefix;

    type IntoIter = Iter<'a, A>;

    ghost use Rattle.prefix_trie_joint.specs.declared.prefix.IpPrefix.{IpPrefix};

    ghost into_iter_gives = { λ s it. (it ≡ map (λ e. ip_back e.0) (listing (keys_of s.now)))
        × (length it ≡ len (keys_of s.now)) × (len (keys_of s.now) < 2 ^ 64) };

    #[inline]
    fn into_iter(self) -> Iter<'a, A> {
        self.iter()
    }
}

impl<A: Allocator> IntoIterator for JointPrefixSet<A> {
    type Item = IpPrefix;

    type IntoIter = IntoIter<A>;

    ghost use Rattle.prefix_trie_joint.specs.declared.prefix.IpPrefix.{IpPrefix};

    ghost into_iter_gives = { λ s it. (it ≡ map (λ e. ip_back e.0) (listing (keys_of s)))
        × (length it ≡ len (keys_of s)) × (len (keys_of s) < 2 ^ 64) };

    #[inline]
    fn into_iter(self) -> IntoIter<A> {
        // The proof learns from `len` that there are few entries.
        let _ = self.len();
        Networks::new(self.ipv4.into_iter(), self.ipv6.into_iter())
    }
}

/// The networks of a consumed set, in the order of `iter`, without host bits.
///
/// # Examples
///
/// ```rust
/// // set = {::/0, 10.0.0.0/8}
/// set.into_iter().next();     // Some(V4(10.0.0.0/8))
/// ```
pub type IntoIter<A> = map::IntoKeys<(), A>;
