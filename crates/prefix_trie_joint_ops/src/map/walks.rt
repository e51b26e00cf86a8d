//! Walks over the entries of two joint maps: IPv4 networks first, then IPv6 networks, each in listing order.
ghost use Rattle.std.specs.Prelude.{◌≡◌, ◌+◌, ◌≤◌, ◌<◌, ◌^◌, length};
ghost use Rattle.std.specs.FinMap.{len};
ghost use Rattle.std.specs.Iterator.{at_most};
ghost use Rattle.std.specs.Map.Iter.{TakesFirst};
ghost use Rattle.prefix_trie.specs.Terms.{lent_item, listing, prefix_pairs};
ghost use Rattle.prefix_trie_ops.specs.Combining.{common, minus, not_covered};
ghost use Rattle.prefix_trie_ops.specs.Lending.{lent_pair};
ghost use Rattle.prefix_trie_ops.specs.Merging.{lent_side, union_of};
ghost use Rattle.prefix_trie_joint.specs.Joined.{entries_of};
ghost use Rattle.prefix_trie_joint.specs.Networks.{ip_back};

use prefix_trie::{Ipv4Prefix, Ipv6Prefix};
use prefix_trie_joint::{IpPrefix, JointPrefixMap};
use prefix_trie_ops::map::{self, Missing, Side, Uncovered};
use prefix_trie_ops::select::{PathTest, Selected};
use std::alloc::Allocator;
use std::marker::Model;

/// The networks of either of two maps, each with what both have there.
///
/// IPv4 networks come first, then IPv6 networks, each in listing order. The walk does not allocate. After its last item
/// it returns `None` each time.
#[derive(Drop)]
pub struct UnionWalk<'a, T: Drop, U: Drop, A: Allocator, B: Allocator> {
    ipv4: map::UnionWalk<'a, Ipv4Prefix, T, U, A, B>,
    ipv6: map::UnionWalk<'a, Ipv6Prefix, T, U, A, B>,
}

impl<'a, T: Drop, U: Drop, A: Allocator, B: Allocator> Model for UnionWalk<'a, T, U, A, B> {
    ghost use Rattle.std.specs.Prelude.{List};
    ghost use Rattle.prefix_trie_joint.specs.Joined.{both};
    ghost use Rattle.prefix_trie_joint.specs.declared.prefix.IpPrefix.{IpPrefix};
    ghost use Rattle.prefix_trie_ops.specs.declared.map.sides.Side.{Side};

    ghost Value = { List (IpPrefix × Side T U) };

    ghost view = { λ w. both w.ipv4 w.ipv6 };
}

/// Returns a walk over the networks of either map, each with what both maps have there.
///
/// IPv4 networks come first, then IPv6 networks, each in listing order.
///
/// # Examples
///
/// ```rust
/// // left = {10.0.0.0/8: 1, 2001:db8::/32: 2}
/// // right = {2001:db8::/32: 8, 2001:db8:1::/48: 9}
/// let mut walk = union(&left, &right);
/// matches!(walk.next(), Some((_, Side::Left(1))));        // true: 10.0.0.0/8
/// matches!(walk.next(), Some((_, Side::Both(2, 8))));     // true: 2001:db8::/32
/// matches!(walk.next(), Some((_, Side::Right(9))));       // true: 2001:db8:1::/48
/// ```
#[tactic(auto, using(crate::proofs::Combined::union_walk, crate::proofs::Combined::union_walk_at_most))]
pub fn union<'a, T: Drop, U: Drop, A: Allocator, B: Allocator>(
    left: &'a JointPrefixMap<T, A>,
    right: &'a JointPrefixMap<U, B>,
) -> UnionWalk<'a, T, U, A, B>
    ensures items { result
        ≡ prefix_pairs ip_back (listing (union_of (entries_of left.now) (entries_of right.now))) }
    ensures at_most { length result ≤ len (entries_of left.now) + len (entries_of right.now) }
{
    UnionWalk {
        ipv4: map::union(&left.ipv4, &right.ipv4),
        ipv6: map::union(&left.ipv6, &right.ipv6),
    }
}

impl<'a, T: Drop, U: Drop, A: Allocator, B: Allocator> Iterator for UnionWalk<'a, T, U, A, B> {
    type Item = (IpPrefix, Side<&'a T, &'a U>);

    ghost next_gives = { TakesFirst lent_side };

    ghost remaining = { λ items. at_most (length items) };

    #[inline]
    fn next(&mut self) -> Option<(IpPrefix, Side<&'a T, &'a U>)> {
        if let Some((network, side)) = self.ipv4.next() {
            return Some((IpPrefix::V4(network), side));
        }
        let Some((network, side)) = self.ipv6.next() else {
            return None;
        };
        Some((IpPrefix::V6(network), side))
    }
}

/// The networks that two maps have, each with both values.
///
/// IPv4 networks come first, then IPv6 networks, each in listing order. The walk does not allocate. After its last item
/// it returns `None` each time.
#[derive(Drop)]
pub struct IntersectionWalk<'a, T: Drop, U: Drop, A: Allocator, B: Allocator> {
    ipv4: map::IntersectionWalk<'a, Ipv4Prefix, T, U, A, B>,
    ipv6: map::IntersectionWalk<'a, Ipv6Prefix, T, U, A, B>,
}

impl<'a, T: Drop, U: Drop, A: Allocator, B: Allocator> Model for IntersectionWalk<'a, T, U, A, B> {
    ghost use Rattle.std.specs.Prelude.{List};
    ghost use Rattle.prefix_trie_joint.specs.Joined.{both};
    ghost use Rattle.prefix_trie_joint.specs.declared.prefix.IpPrefix.{IpPrefix};

    ghost Value = { List (IpPrefix × (T × U)) };

    ghost view = { λ w. both w.ipv4 w.ipv6 };
}

/// Returns a walk over the networks that both maps have, each with both values.
///
/// IPv4 networks come first, then IPv6 networks, each in listing order. It reads only nodes whose paths both maps have.
///
/// # Examples
///
/// ```rust
/// // left = {10.0.0.0/8: 1, 10.1.0.0/16: 2, 2001:db8::/32: 3}
/// // right = {10.1.0.0/16: 8, 2001:db8::/32: 9}
/// let mut walk = intersection(&left, &right);
/// walk.next();        // Some((V4(10.1.0.0/16), 2, 8))
/// walk.count();       // 1: 2001:db8::/32
/// ```
#[tactic(auto, using(crate::proofs::Combined::common_walk))]
pub fn intersection<'a, T: Drop, U: Drop, A: Allocator, B: Allocator>(
    left: &'a JointPrefixMap<T, A>,
    right: &'a JointPrefixMap<U, B>,
) -> IntersectionWalk<'a, T, U, A, B>
    ensures items { result
        ≡ prefix_pairs ip_back (listing (common (entries_of left.now) (entries_of right.now))) }
    ensures fits { length result < 2 ^ 64 }
{
    // The proof learns from it that the left map has few entries.
    let _ = left.len();
    IntersectionWalk {
        ipv4: map::intersection(&left.ipv4, &right.ipv4),
        ipv6: map::intersection(&left.ipv6, &right.ipv6),
    }
}

impl<'a, T: Drop, U: Drop, A: Allocator, B: Allocator> Iterator
    for IntersectionWalk<'a, T, U, A, B> {
    type Item = (IpPrefix, &'a T, &'a U);

    ghost next_gives = { TakesFirst lent_pair };

    ghost remaining = { λ items. at_most (length items) };

    #[inline]
    fn next(&mut self) -> Option<(IpPrefix, &'a T, &'a U)> {
        if let Some((network, left, right)) = self.ipv4.next() {
            return Some((IpPrefix::V4(network), left, right));
        }
        let Some((network, left, right)) = self.ipv6.next() else {
            return None;
        };
        Some((IpPrefix::V6(network), left, right))
    }
}

/// The entries of a map whose networks pass the test of their family.
///
/// IPv4 networks come first, then IPv6 networks, each in listing order. The walk does not allocate. After its last item
/// it returns `None` each time.
#[derive(Drop)]
pub struct SelectedWalk<
    'a,
    T: Drop,
    A: Allocator,
    F: PathTest<Ipv4Prefix>,
    G: PathTest<Ipv6Prefix>,
> {
    ipv4: Selected<'a, Ipv4Prefix, T, A, F>,
    ipv6: Selected<'a, Ipv6Prefix, T, A, G>,
}

impl<'a, T: Drop, A: Allocator, F: PathTest<Ipv4Prefix>, G: PathTest<Ipv6Prefix>> Model
    for SelectedWalk<'a, T, A, F, G> {
    ghost use Rattle.std.specs.Prelude.{List};
    ghost use Rattle.prefix_trie_joint.specs.Joined.{both};
    ghost use Rattle.prefix_trie_joint.specs.declared.prefix.IpPrefix.{IpPrefix};

    ghost Value = { List (IpPrefix × T) };

    ghost view = { λ w. both w.ipv4 w.ipv6 };
}

impl<'a, T: Drop, A: Allocator, F: PathTest<Ipv4Prefix>, G: PathTest<Ipv6Prefix>> Iterator
    for SelectedWalk<'a, T, A, F, G> {
    type Item = (IpPrefix, &'a T);

    ghost next_gives = { TakesFirst lent_item };

    ghost remaining = { λ items. at_most (length items) };

    #[inline]
    fn next(&mut self) -> Option<(IpPrefix, &'a T)> {
        if let Some((network, value)) = self.ipv4.next() {
            return Some((IpPrefix::V4(network), value));
        }
        let Some((network, value)) = self.ipv6.next() else {
            return None;
        };
        Some((IpPrefix::V6(network), value))
    }

    // The default does not know that the borrowed values live as long as the map.
    #[inline]
    fn size_hint(&self) -> (usize, Option<usize>) {
        (0, None)
    }
}

/// The entries of a map that another one does not have.
pub type DifferenceWalk<'a, T, U, A, B> = SelectedWalk<
    'a,
    T,
    A,
    Missing<'a, Ipv4Prefix, U, B>,
    Missing<'a, Ipv6Prefix, U, B>,
>;

/// The entries of a map whose networks no network of another one contains.
pub type CoveringDifferenceWalk<'a, T, U, A, B> = SelectedWalk<
    'a,
    T,
    A,
    Uncovered<'a, Ipv4Prefix, U, B>,
    Uncovered<'a, Ipv6Prefix, U, B>,
>;

/// Returns a walk over the entries of `left` whose networks `right` does not have.
///
/// IPv4 networks come first, then IPv6 networks, each in listing order. Each entry of `left` costs one
/// lookup in `right`.
///
/// # Examples
///
/// ```rust
/// // left = {10.0.0.0/8: 1, 10.1.0.0/16: 2, 2001:db8::/32: 3}
/// // right = {10.1.0.0/16: 8, ::/0: 9}
/// let mut walk = difference(&left, &right);
/// walk.next();        // Some((V4(10.0.0.0/8), 1))
/// walk.count();       // 1: 2001:db8::/32
/// ```
#[tactic(auto, using(crate::proofs::Combined::minus_walk))]
pub fn difference<'a, T: Drop, U: Drop, A: Allocator, B: Allocator>(
    left: &'a JointPrefixMap<T, A>,
    right: &'a JointPrefixMap<U, B>,
) -> DifferenceWalk<'a, T, U, A, B>
    ensures items { result
        ≡ prefix_pairs ip_back (listing (minus (entries_of left.now) (entries_of right.now))) }
    ensures fits { length result < 2 ^ 64 }
{
    // The proof learns from it that the left map has few entries.
    let _ = left.len();
    SelectedWalk {
        ipv4: map::difference(&left.ipv4, &right.ipv4),
        ipv6: map::difference(&left.ipv6, &right.ipv6),
    }
}

/// Returns a walk over the entries of `left` whose networks no network of `right` contains.
///
/// IPv4 networks come first, then IPv6 networks, each in listing order. A network contains itself, so
/// these are some of the entries of `difference`. Each entry of `left` costs one lookup in `right`.
///
/// # Examples
///
/// ```rust
/// // left = {10.0.0.0/8: 1, 10.1.2.0/24: 2, 2001:db8::/32: 3}
/// // right = {10.1.0.0/16: 8, ::/0: 9}
/// let mut walk = covering_difference(&left, &right);
/// walk.next();        // Some((V4(10.0.0.0/8), 1))
/// walk.next();        // None: ::/0 contains 2001:db8::/32
/// ```
#[tactic(auto, using(crate::proofs::Combined::uncovered_walk))]
pub fn covering_difference<'a, T: Drop, U: Drop, A: Allocator, B: Allocator>(
    left: &'a JointPrefixMap<T, A>,
    right: &'a JointPrefixMap<U, B>,
) -> CoveringDifferenceWalk<'a, T, U, A, B>
    ensures items { result ≡ prefix_pairs ip_back
        (listing (not_covered (entries_of left.now) (entries_of right.now))) }
    ensures fits { length result < 2 ^ 64 }
{
    // The proof learns from it that the left map has few entries.
    let _ = left.len();
    SelectedWalk {
        ipv4: map::covering_difference(&left.ipv4, &right.ipv4),
        ipv6: map::covering_difference(&left.ipv6, &right.ipv6),
    }
}
