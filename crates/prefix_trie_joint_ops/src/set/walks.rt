//! Walks over the networks of two joint sets: IPv4 networks first, then IPv6 networks, each in listing order.
//!
//! They are the walks over two sets of each family.
ghost use Rattle.std.specs.Prelude.{◌≡◌, ◌+◌, ◌≤◌, ◌<◌, ◌^◌, length, map};
ghost use Rattle.std.specs.FinMap.{len};
ghost use Rattle.prefix_trie.specs.Terms.{listing};
ghost use Rattle.prefix_trie_ops.specs.Combining.{minus, not_covered, restricted_to};
ghost use Rattle.prefix_trie_ops.specs.Merging.{union_of};
ghost use Rattle.prefix_trie_joint.specs.Joined.{keys_of};
ghost use Rattle.prefix_trie_joint.specs.Networks.{ip_back};

use prefix_trie::{Ipv4Prefix, Ipv6Prefix};
use prefix_trie_joint::{IpPrefix, JointPrefixSet, Networks};
use prefix_trie_ops::{map, set};
use std::alloc::Allocator;

/// The networks of either of two sets.
///
/// The walk does not allocate. After its last network it returns `None` each time.
pub type UnionWalk<'a, A, B> = Networks<
    map::UnionWalk<'a, Ipv4Prefix, (), (), A, B>,
    map::UnionWalk<'a, Ipv6Prefix, (), (), A, B>,
>;

/// The networks that two sets have.
///
/// The walk does not allocate. After its last network it returns `None` each time.
pub type IntersectionWalk<'a, A, B> = Networks<
    map::IntersectionWalk<'a, Ipv4Prefix, (), (), A, B>,
    map::IntersectionWalk<'a, Ipv6Prefix, (), (), A, B>,
>;

/// The networks of a set that another one does not have.
pub type DifferenceWalk<'a, A, B> = Networks<
    map::DifferenceWalk<'a, Ipv4Prefix, (), (), A, B>,
    map::DifferenceWalk<'a, Ipv6Prefix, (), (), A, B>,
>;

/// The networks of a set that no network of another one contains.
pub type CoveringDifferenceWalk<'a, A, B> = Networks<
    map::CoveringDifferenceWalk<'a, Ipv4Prefix, (), (), A, B>,
    map::CoveringDifferenceWalk<'a, Ipv6Prefix, (), (), A, B>,
>;

/// Returns a walk over the networks of either set.
///
/// It reads each node of either set once.
///
/// # Examples
///
/// ```rust
/// // left = {10.0.0.0/8, 10.1.0.0/16}
/// // right = {10.1.0.0/16, 10.2.0.0/16}
/// union(&left, &right);       // [V4(10.0.0.0/8), V4(10.1.0.0/16), V4(10.2.0.0/16)]
/// ```
#[tactic(auto, using(crate::proofs::Combined::union_networks, prefix_trie_joint::proofs::Walks::len_joined, prefix_trie_joint::proofs::Walks::length_networks))]
pub fn union<'a, A: Allocator, B: Allocator>(
    left: &'a JointPrefixSet<A>,
    right: &'a JointPrefixSet<B>,
) -> UnionWalk<'a, A, B>
    ensures items { result
        ≡ map (λ e. ip_back e.0) (listing (union_of (keys_of left.now) (keys_of right.now))) }
    ensures at_most { length result ≤ len (keys_of left.now) + len (keys_of right.now) }
{
    Networks::new(
        set::union(&left.ipv4, &right.ipv4),
        set::union(&left.ipv6, &right.ipv6),
    )
}

/// Returns a walk over the networks that both sets have.
///
/// It reads only nodes whose paths both sets have.
///
/// # Examples
///
/// ```rust
/// // left = {10.0.0.0/8, 10.1.0.0/16}
/// // right = {10.1.0.0/16, ::/0}
/// intersection(&left, &right);    // [V4(10.1.0.0/16)]
/// ```
#[tactic(auto, using(crate::proofs::Combined::restricted_networks))]
pub fn intersection<'a, A: Allocator, B: Allocator>(
    left: &'a JointPrefixSet<A>,
    right: &'a JointPrefixSet<B>,
) -> IntersectionWalk<'a, A, B>
    ensures items { result
        ≡ map (λ e. ip_back e.0) (listing (restricted_to (keys_of left.now) (keys_of right.now))) }
    ensures fits { length result < 2 ^ 64 }
{
    let _ = left.len();
    Networks::new(
        set::intersection(&left.ipv4, &right.ipv4),
        set::intersection(&left.ipv6, &right.ipv6),
    )
}

/// Returns a walk over the networks of `left` that `right` does not have.
///
/// Each network of `left` costs one lookup in `right`.
///
/// # Examples
///
/// ```rust
/// // left = {10.0.0.0/8, 10.1.0.0/16, ::/0}
/// // right = {10.1.0.0/16, ::/0}
/// difference(&left, &right);      // [V4(10.0.0.0/8)]
/// ```
#[tactic(auto, using(crate::proofs::Combined::minus_networks))]
pub fn difference<'a, A: Allocator, B: Allocator>(
    left: &'a JointPrefixSet<A>,
    right: &'a JointPrefixSet<B>,
) -> DifferenceWalk<'a, A, B>
    ensures items { result
        ≡ map (λ e. ip_back e.0) (listing (minus (keys_of left.now) (keys_of right.now))) }
    ensures fits { length result < 2 ^ 64 }
{
    let _ = left.len();
    Networks::new(
        set::difference(&left.ipv4, &right.ipv4),
        set::difference(&left.ipv6, &right.ipv6),
    )
}

/// Returns a walk over the networks of `left` that no network of `right` contains.
///
/// Each network of `left` costs one lookup in `right`.
///
/// # Examples
///
/// ```rust
/// // left = {10.0.0.0/8, 10.1.2.0/24, 2001:db8::/32}
/// // right = {10.1.0.0/16, ::/0}
/// covering_difference(&left, &right);     // [V4(10.0.0.0/8)]
/// ```
#[tactic(auto, using(crate::proofs::Combined::uncovered_networks))]
pub fn covering_difference<'a, A: Allocator, B: Allocator>(
    left: &'a JointPrefixSet<A>,
    right: &'a JointPrefixSet<B>,
) -> CoveringDifferenceWalk<'a, A, B>
    ensures items { result
        ≡ map (λ e. ip_back e.0) (listing (not_covered (keys_of left.now) (keys_of right.now))) }
    ensures fits { length result < 2 ^ 64 }
{
    let _ = left.len();
    Networks::new(
        set::covering_difference(&left.ipv4, &right.ipv4),
        set::covering_difference(&left.ipv6, &right.ipv6),
    )
}
