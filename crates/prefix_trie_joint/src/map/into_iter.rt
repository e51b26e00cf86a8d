//! Walks of both families that consume a map and move its values out.
//!
//! Contracts see each walk as the list of the items still to come.
ghost use Rattle.std.specs.Prelude.{◌≡◌, ◌<◌, ◌^◌, [], IfOk, length, map};
ghost use Rattle.std.specs.FinMap.{len};
ghost use Rattle.std.specs.Iterator.{at_most};
ghost use Rattle.std.specs.List.{AllZip};
ghost use Rattle.std.specs.Map.Iter.{TakesFirst};
ghost use Rattle.prefix_trie.specs.Terms.{listing, listing_below, prefix_pairs};
ghost use Rattle.prefix_trie_table.specs.Copies.{IsPairCloned};
ghost use Rattle.prefix_trie_joint.specs.Joined.{entries_of};
ghost use Rattle.prefix_trie_joint.specs.Networks.{ip_back, ip_path};

use crate::map::JointPrefixMap;
use crate::map::walks::known_few;
use crate::networks::Networks;
use crate::prefix::IpPrefix;
use prefix_trie::{Ipv4Prefix, Ipv6Prefix, Prefix, PrefixMap, map};
use std::alloc::{AllocError, Allocator};
use std::iter::IntoIterator;
use std::marker::Model;

impl<T: Drop, A: Allocator> JointPrefixMap<T, A> {
    /// Consumes the map and returns a walk over the entries that this network contains, its own included.
    ///
    /// They come in the order of `iter`, with their values moved out. The values of the other family
    /// are dropped at once, and the remaining values with the walk.
    ///
    /// # Examples
    ///
    /// ```rust
    /// // map = {10.0.0.0/8: 1, 10.1.0.0/16: 2, 2001:db8::/32: 3}
    /// map.into_children(&"10.1.0.0/16".parse()?);     // [(V4(10.1.0.0/16), 2)]
    /// ```
    #[inline]
    #[tactic(auto, using(crate::proofs::Walks::walk_below, crate::proofs::Walks::few_below_ipv4, crate::proofs::Walks::few_below_ipv6))]
    pub fn into_children(self, prefix: &IpPrefix) -> IntoIter<T, A>
        ensures items { result
            ≡ prefix_pairs ip_back (listing_below (entries_of self) (ip_path prefix.now)) }
        ensures fits { length result < 2 ^ 64 }
    {
        known_few(&self.ipv4, &self.ipv6);
        let JointPrefixMap { ipv4, ipv6 } = self;
        match prefix.copy() {
            IpPrefix::V4(network) => IntoIter {
                ipv4: ipv4.into_children(&network),
                ipv6: emptied(ipv6),
            },
            IpPrefix::V6(network) => IntoIter {
                ipv4: emptied(ipv4),
                ipv6: ipv6.into_children(&network),
            },
        }
    }

    /// Consumes the map and returns a walk over its networks, in the order of `iter`.
    ///
    /// Each value is dropped when its network is returned, and the rest with the walk.
    ///
    /// # Examples
    ///
    /// ```rust
    /// // map = {::/0: 1, 10.0.0.0/8: 2}
    /// map.into_keys().next();     // Some(V4(10.0.0.0/8))
    /// ```
    #[inline]
    #[tactic(auto, using(crate::proofs::Walks::networks_joined, crate::proofs::Walks::count_networks, crate::proofs::Walks::len_joined))]
    pub fn into_keys(self) -> IntoKeys<T, A>
        ensures items { result ≡ map (λ e. ip_back e.0) (listing (entries_of self)) }
        ensures counted { length result ≡ len (entries_of self) }
        ensures fits { len (entries_of self) < 2 ^ 64 }
    {
        Networks::new(self.ipv4.into_keys(), self.ipv6.into_keys())
    }

    /// Consumes the map and returns a walk over its values, in the order of `iter`.
    ///
    /// # Examples
    ///
    /// ```rust
    /// // map = {::/0: 1, 10.0.0.0/8: 2}
    /// map.into_values();      // [2, 1]
    /// ```
    #[inline]
    pub fn into_values(self) -> IntoValues<T, A>
        ensures items { result ≡ map (λ e. e.1) (listing (entries_of self)) }
        ensures counted { length result ≡ len (entries_of self) }
        ensures fits { len (entries_of self) < 2 ^ 64 }
    {
        IntoValues {
            inner: self.into_iter(),
        }
    }
}

impl<T: Drop, A: Allocator> IntoIterator for JointPrefixMap<T, A> {
    type Item = (IpPrefix, T);

    type IntoIter = IntoIter<T, A>;

    ghost use Rattle.prefix_trie_joint.specs.declared.prefix.IpPrefix.{IpPrefix};

    ghost into_iter_gives = { λ s it. (it ≡ prefix_pairs ip_back (listing (entries_of s)))
        × (length it ≡ len (entries_of s)) × (len (entries_of s) < 2 ^ 64) };

    #[inline]
    fn into_iter(self) -> IntoIter<T, A> {
        // The proof learns from `len` that there are few entries.
        let _ = self.len();
        IntoIter {
            ipv4: self.ipv4.into_iter(),
            ipv6: self.ipv6.into_iter(),
        }
    }
}

/// The entries of a joint map in the order of `iter`: each network, without host bits, with its value, which is moved out.
///
/// The walk does not allocate. After its last item it returns `None` each time. Entries that it has not
/// returned are dropped with it.
///
/// # Examples
///
/// ```rust
/// // map = {::/0: 1, 10.0.0.0/8: 2}
/// map.into_iter().next();     // Some((V4(10.0.0.0/8), 2))
/// ```
#[derive(Drop)]
pub struct IntoIter<T: Drop, A: Allocator> {
    ipv4: map::IntoIter<Ipv4Prefix, T, A>,
    ipv6: map::IntoIter<Ipv6Prefix, T, A>,
}

impl<T: Drop, A: Allocator> Model for IntoIter<T, A> {
    ghost use Rattle.std.specs.Prelude.{List};
    ghost use Rattle.prefix_trie_joint.specs.Joined.{both};
    ghost use Rattle.prefix_trie_joint.specs.declared.prefix.IpPrefix.{IpPrefix};

    ghost Value = { List (IpPrefix × T) };

    ghost view = { λ it. both it.ipv4 it.ipv6 };
}

impl<T: Clone, A: Allocator + Clone> IntoIter<T, A> {
    /// Creates a walk with the same networks to come, whose values are clones, in memory of its own.
    ///
    /// # Errors
    ///
    /// Returns an error if an allocation fails, for the arrays or in the clone of a value. No copy
    /// exists then.
    ///
    /// # Examples
    ///
    /// ```rust
    /// // map = {::/0: 1, 10.0.0.0/8: 2}
    /// let mut walk = map.into_iter();
    /// let copy = walk.clone()?;
    /// walk.next();        // Some((V4(10.0.0.0/8), 2))
    /// copy.count();       // 2
    /// ```
    pub fn clone(&self) -> Result<Self, AllocError>
        ensures items { IfOk result (λ copy. AllZip (IsPairCloned T.is_clone) self.now copy) }

        // If a clone of a value equals it, the same items are to come.
        ensures same { IfOk result
            (λ copy. ((x y : T) → T.is_clone x y → y ≡ x) → copy ≡ self.now) }
    {
        let ipv4 = self.ipv4.clone()?;
        let ipv6 = self.ipv6.clone()?;
        Ok(IntoIter { ipv4, ipv6 })
    }
}

// Drops all values of a map, and returns a walk with no items.
fn emptied<P: Prefix, T: Drop, A: Allocator>(mut map: PrefixMap<P, T, A>) -> map::IntoIter<P, T, A>
    ensures { result ≡ [] }
{
    map.clear();
    map.into_iter()
}

impl<T: Drop, A: Allocator> Iterator for IntoIter<T, A> {
    type Item = (IpPrefix, T);

    ghost next_gives = { TakesFirst (λ item. item) };

    ghost remaining = { λ items. at_most (length items) };

    #[inline]
    fn next(&mut self) -> Option<(IpPrefix, T)> {
        if let Some((network, value)) = self.ipv4.next() {
            return Some((IpPrefix::V4(network), value));
        }
        let Some((network, value)) = self.ipv6.next() else {
            return None;
        };
        Some((IpPrefix::V6(network), value))
    }
}

/// The networks of a joint map in the order of `iter`, without host bits. The values are dropped.
pub type IntoKeys<T, A> = Networks<
    map::IntoIter<Ipv4Prefix, T, A>,
    map::IntoIter<Ipv6Prefix, T, A>,
>;

/// The values of a joint map, moved out in the order of `iter`.
#[derive(Drop)]
pub struct IntoValues<T: Drop, A: Allocator> {
    inner: IntoIter<T, A>,
}

impl<T: Drop, A: Allocator> Model for IntoValues<T, A> {
    ghost use Rattle.std.specs.Prelude.{List, map};

    ghost Value = { List T };

    ghost view = { λ it. map (λ e. e.1) it.inner };
}

impl<T: Clone, A: Allocator + Clone> IntoValues<T, A> {
    /// Creates a walk with clones of the same values to come, in memory of its own.
    ///
    /// # Errors
    ///
    /// Returns the same errors as `IntoIter::clone`.
    pub fn clone(&self) -> Result<Self, AllocError>
        ensures items { IfOk result (λ copy. AllZip T.is_clone self.now copy) }

        // If a clone of a value equals it, the same values are to come.
        ensures same { IfOk result
            (λ copy. ((x y : T) → T.is_clone x y → y ≡ x) → copy ≡ self.now) }
    {
        let inner = self.inner.clone()?;
        Ok(IntoValues { inner })
    }
}

impl<T: Drop, A: Allocator> Iterator for IntoValues<T, A> {
    type Item = T;

    ghost next_gives = { TakesFirst (λ v. v) };

    ghost remaining = { λ items. at_most (length items) };

    #[inline]
    fn next(&mut self) -> Option<T> {
        let Some((_, value)) = self.inner.next() else {
            return None;
        };
        Some(value)
    }
}
