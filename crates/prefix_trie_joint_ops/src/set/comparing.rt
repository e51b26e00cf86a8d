//! Comparison of two joint sets by their networks.
//!
//! None of these functions compares the addresses that the networks contain.
ghost use Rattle.std.specs.Prelude.{◌≡◌, ◌↔◌, Bool, true, false, List, IsTrue};
ghost use Rattle.std.specs.FinMap.{contains_key};
ghost use Rattle.prefix_trie_joint.specs.Joined.{keys_of};

use prefix_trie_joint::JointPrefixSet;
use prefix_trie_ops::set;
use std::alloc::Allocator;

/// Returns whether `right` has every network of `left`.
///
/// It compares networks, not addresses. {10.1.0.0/16} is not a subset of {10.0.0.0/8}, although 10.0.0.0/8 contains all
/// of its addresses. If `covering_difference` has no network, `right` has all addresses of `left`.
///
/// # Examples
///
/// ```rust
/// // left = {10.1.0.0/16, ::/0}
/// // right = {10.0.0.0/8, 10.1.0.0/16, ::/0}
/// is_subset(&left, &right);       // true
/// is_subset(&right, &left);       // false
/// ```
pub fn is_subset<A: Allocator, B: Allocator>(
    left: &JointPrefixSet<A>,
    right: &JointPrefixSet<B>,
) -> bool
    ensures { IsTrue result
        ↔ ((s : List Bool) → contains_key (keys_of left.now) s ≡ true
        → contains_key (keys_of right.now) s ≡ true) }
{
    set::is_subset(&left.ipv4, &right.ipv4) && set::is_subset(&left.ipv6, &right.ipv6)
}

/// Returns whether the sets have no network in common.
///
/// It compares networks, not addresses: a network may still contain one of the other set.
///
/// # Examples
///
/// ```rust
/// // left = {10.1.0.0/16, ::/0}
/// // right = {10.0.0.0/8, 2001:db8::/32}
/// is_disjoint(&left, &right);     // true
/// ```
pub fn is_disjoint<A: Allocator, B: Allocator>(
    left: &JointPrefixSet<A>,
    right: &JointPrefixSet<B>,
) -> bool
    ensures { IsTrue result
        ↔ ((s : List Bool) → contains_key (keys_of left.now) s ≡ true
        → contains_key (keys_of right.now) s ≡ false) }
{
    set::is_disjoint(&left.ipv4, &right.ipv4) && set::is_disjoint(&left.ipv6, &right.ipv6)
}

/// Returns whether the sets have a network in common.
///
/// It compares networks, not addresses: sets without a common network may have common addresses.
///
/// # Examples
///
/// ```rust
/// // left = {10.0.0.0/8, ::/0}
/// // right = {10.1.0.0/16, ::/0}
/// intersects(&left, &right);      // true: both have ::/0
/// ```
pub fn intersects<A: Allocator, B: Allocator>(
    left: &JointPrefixSet<A>,
    right: &JointPrefixSet<B>,
) -> bool
    ensures { IsTrue result
        ↔ ((s : List Bool) × (contains_key (keys_of left.now) s ≡ true)
        × (contains_key (keys_of right.now) s ≡ true)) }
{
    set::intersects(&left.ipv4, &right.ipv4) || set::intersects(&left.ipv6, &right.ipv6)
}
