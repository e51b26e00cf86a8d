//! Walks over the entries whose networks contain a network, shortest first.
//!
//! Contracts see each walk as the list of the items still to come.
ghost use Rattle.std.specs.Prelude.{◌≡◌, ◌≤◌, length, map};
ghost use Rattle.std.specs.Iterator.{at_most};
ghost use Rattle.std.specs.Map.Iter.{TakesFirst, deref};
ghost use Rattle.prefix_trie.specs.Terms.{covers, lent_item, prefix_pairs};
ghost use Rattle.prefix_trie_joint.specs.Joined.{entries_of, items_of, joined};
ghost use Rattle.prefix_trie_joint.specs.Networks.{ip_back, ip_path};

use crate::map::JointPrefixMap;
use crate::prefix::IpPrefix;
use prefix_trie::map::{self, Keyed, KeysOf};
use prefix_trie::{Ipv4Prefix, Ipv6Prefix, Prefix, PrefixMap};
use std::alloc::Allocator;
use std::marker::Model;

impl<T: Drop, A: Allocator> JointPrefixMap<T, A> {
    /// Returns a walk over the entries whose networks contain this one, shortest first.
    ///
    /// A stored network contains itself. Networks are without host bits. There are at most 129 items.
    ///
    /// # Examples
    ///
    /// ```rust
    /// // map = {10.0.0.0/8: 1, 10.1.0.0/16: 2, ::/0: 3}
    /// map.cover(&"10.1.1.0/24".parse()?).count();     // 2
    /// map.cover_values(&"10.1.1.0/24".parse()?);      // [1, 2]
    /// ```
    #[inline]
    pub fn cover(&self, prefix: &IpPrefix) -> Cover<'_, T, A>
        ensures items { result
            ≡ prefix_pairs ip_back (covers (entries_of self.now) (ip_path prefix.now)) }
        ensures counted { length result
            ≡ length (covers (entries_of self.now) (ip_path prefix.now)) }
        ensures fits { length (covers (entries_of self.now) (ip_path prefix.now)) ≤ 129 }
    {
        Cover::of(&self.ipv4, &self.ipv6, prefix)
    }

    /// Returns a walk over the stored networks that contain this one: the networks of `cover`.
    ///
    /// # Examples
    ///
    /// ```rust
    /// // map = {10.0.0.0/8: 1, 10.1.0.0/16: 2, ::/0: 3}
    /// map.cover_keys(&"10.1.1.0/24".parse()?);    // [V4(10.0.0.0/8), V4(10.1.0.0/16)]
    /// ```
    #[inline]
    pub fn cover_keys(&self, prefix: &IpPrefix) -> CoverKeys<'_, T, A>
        ensures items { result
            ≡ map (λ e. ip_back e.0) (covers (entries_of self.now) (ip_path prefix.now)) }
        ensures counted { length result
            ≡ length (covers (entries_of self.now) (ip_path prefix.now)) }
        ensures fits { length (covers (entries_of self.now) (ip_path prefix.now)) ≤ 129 }
    {
        KeysOf::new(self.cover(prefix))
    }

    /// Returns a walk over the values whose networks contain this one: the values of `cover`.
    ///
    /// # Examples
    ///
    /// ```rust
    /// // map = {::/0: 1, 2001:db8::/32: 2, 10.0.0.0/8: 3}
    /// map.cover_values(&"2001:db8::1/128".parse()?);      // [1, 2]
    /// ```
    #[inline]
    pub fn cover_values(&self, prefix: &IpPrefix) -> CoverValues<'_, T, A>
        ensures items { result
            ≡ map (λ e. e.1) (covers (entries_of self.now) (ip_path prefix.now)) }
        ensures counted { length result
            ≡ length (covers (entries_of self.now) (ip_path prefix.now)) }
        ensures fits { length (covers (entries_of self.now) (ip_path prefix.now)) ≤ 129 }
    {
        CoverValues {
            inner: self.cover(prefix),
        }
    }
}

/// The entries whose networks contain a network, shortest first.
///
/// Each item is a network without host bits and a reference to its value. The walk does not allocate.
/// After its last item it returns `None` each time.
#[derive(Drop)]
pub struct Cover<'a, T: Drop, A: Allocator> {
    ipv4: Option<map::Cover<'a, Ipv4Prefix, T, A>>,
    ipv6: Option<map::Cover<'a, Ipv6Prefix, T, A>>,
}

impl<'a, T: Drop, A: Allocator> Model for Cover<'a, T, A> {
    ghost use Rattle.std.specs.Prelude.{List};
    ghost use Rattle.prefix_trie_joint.specs.Joined.{both, items_of};
    ghost use Rattle.prefix_trie_joint.specs.declared.prefix.IpPrefix.{IpPrefix};

    ghost Value = { List (IpPrefix × T) };

    ghost view = { λ it. both (items_of it.ipv4) (items_of it.ipv6) };
}

impl<'a, T: Drop, A: Allocator> Cover<'a, T, A> {
    /// Returns a walk over the entries of a map for each family whose networks contain a network.
    #[inline]
    #[tactic(auto, using(crate::proofs::Walks::walk_covers, crate::proofs::Walks::covers_counted_ipv4, crate::proofs::Walks::covers_counted_ipv6, crate::proofs::Walks::covers_length))]
    pub(crate) fn of(
        ipv4: &'a PrefixMap<Ipv4Prefix, T, A>,
        ipv6: &'a PrefixMap<Ipv6Prefix, T, A>,
        prefix: &IpPrefix,
    ) -> Self
        ensures items { result ≡ prefix_pairs ip_back
            (covers (joined ipv4.now.entries ipv6.now.entries) (ip_path prefix.now)) }
        ensures counted { length result
            ≡ length (covers (joined ipv4.now.entries ipv6.now.entries) (ip_path prefix.now)) }
        ensures fits { length
            (covers (joined ipv4.now.entries ipv6.now.entries) (ip_path prefix.now)) ≤ 129 }
    {
        match prefix.copy() {
            IpPrefix::V4(network) => Cover {
                ipv4: Some(ipv4.cover(&network)),
                ipv6: None,
            },
            IpPrefix::V6(network) => Cover {
                ipv4: None,
                ipv6: Some(ipv6.cover(&network)),
            },
        }
    }
}

impl<'a, T: Drop, A: Allocator> Iterator for Cover<'a, T, A> {
    type Item = (IpPrefix, &'a T);

    ghost next_gives = { TakesFirst lent_item };

    ghost remaining = { λ items. at_most (length items) };

    #[inline]
    fn next(&mut self) -> Option<(IpPrefix, &'a T)> {
        if let Some((network, value)) = next_of(&mut self.ipv4) {
            return Some((IpPrefix::V4(network), value));
        }
        let Some((network, value)) = next_of(&mut self.ipv6) else {
            return None;
        };
        Some((IpPrefix::V6(network), value))
    }
}

impl<'a, T: Drop, A: Allocator> Keyed for Cover<'a, T, A> {
    ghost use Rattle.std.specs.Prelude.{map};

    type Key = IpPrefix;

    ghost keys = { map (λ e. e.0) };

    #[inline]
    fn next_key(&mut self) -> Option<IpPrefix> {
        let Some((network, _)) = self.next() else {
            return None;
        };
        Some(network)
    }
}

// Returns the next item of a walk, if there is a walk.
#[inline]
fn next_of<'a, P: Prefix, T: Drop, A: Allocator>(
    walk: &mut Option<map::Cover<'a, P, T, A>>,
) -> Option<(P, &'a T)>
    ensures { TakesFirst lent_item (items_of walk.old) result (items_of walk.new) }
{
    match walk {
        Some(walk) => walk.next(),
        None => None,
    }
}

/// The stored networks that contain a network, shortest first and without host bits.
pub type CoverKeys<'a, T, A> = KeysOf<Cover<'a, T, A>>;

/// The values whose networks contain a network, in the order of those networks, shortest first.
#[derive(Drop)]
pub struct CoverValues<'a, T: Drop, A: Allocator> {
    inner: Cover<'a, T, A>,
}

impl<'a, T: Drop, A: Allocator> Model for CoverValues<'a, T, A> {
    ghost use Rattle.std.specs.Prelude.{List, map};

    ghost Value = { List T };

    ghost view = { λ it. map (λ e. e.1) it.inner };
}

impl<'a, T: Drop, A: Allocator> Iterator for CoverValues<'a, T, A> {
    type Item = &'a T;

    ghost next_gives = { TakesFirst deref };

    ghost remaining = { λ items. at_most (length items) };

    #[inline]
    fn next(&mut self) -> Option<&'a T> {
        let Some((_, value)) = self.inner.next() else {
            return None;
        };
        Some(value)
    }

    // The default does not know that the borrowed values live as long as the map.
    #[inline]
    fn size_hint(&self) -> (usize, Option<usize>) {
        (0, None)
    }
}
