//! Comparison of two sets by their keys.
//!
//! None of these functions compares the addresses that the keys contain.
ghost use Rattle.std.specs.Prelude.{◌≡◌, ◌↔◌, Bool, true, false, List, IsTrue};
ghost use Rattle.std.specs.FinMap.{contains_key};

use crate::set::walks::{difference, intersection};
use prefix_trie::laws::listing_laws;
use prefix_trie::{Prefix, PrefixSet};
use std::alloc::Allocator;

/// Returns whether `right` has every key of `left`.
///
/// It compares keys, not addresses. {10.1.0.0/16} is not a subset of {10.0.0.0/8}, although 10.0.0.0/8 contains all of
/// its addresses. If `covering_difference` has no key, `right` has all addresses of `left`.
///
/// # Examples
///
/// ```rust
/// // left = {10.1.0.0/16}
/// // right = {10.0.0.0/8, 10.1.0.0/16}
/// is_subset(&left, &right);       // true
/// is_subset(&right, &left);       // false
/// ```
///
/// A key that a shorter one covers is another key:
///
/// ```rust
/// // left = {10.1.0.0/16}
/// // right = {10.0.0.0/8}
/// is_subset(&left, &right);                       // false
/// right.is_covered(&"10.1.0.0/16".parse()?);      // true
/// ```
pub fn is_subset<P: Prefix, A: Allocator, B: Allocator>(
    left: &PrefixSet<P, A>,
    right: &PrefixSet<P, B>,
) -> bool
    ensures { IsTrue result
        ↔ ((s : List Bool) → contains_key left.now.entries s ≡ true
        → contains_key right.now.entries s ≡ true) }
{
    listing_laws::<()>();
    difference(left, right).next().is_none()
}

/// Returns whether the sets have no key in common.
///
/// It compares keys, not addresses: a key may still contain one of the other set.
///
/// # Examples
///
/// ```rust
/// // left = {10.1.0.0/16}
/// // right = {10.0.0.0/8}
/// is_disjoint(&left, &right);                     // true
/// right.is_covered(&"10.1.0.0/16".parse()?);      // true
/// ```
pub fn is_disjoint<P: Prefix, A: Allocator, B: Allocator>(
    left: &PrefixSet<P, A>,
    right: &PrefixSet<P, B>,
) -> bool
    ensures { IsTrue result
        ↔ ((s : List Bool) → contains_key left.now.entries s ≡ true
        → contains_key right.now.entries s ≡ false) }
{
    listing_laws::<()>();
    intersection(left, right).next().is_none()
}

/// Returns whether the sets have a key in common.
///
/// It compares keys, not addresses: sets without a common key may have common addresses.
///
/// # Examples
///
/// ```rust
/// // left = {10.0.0.0/8, 10.1.0.0/16}
/// // right = {10.1.0.0/16}
/// intersects(&left, &right);      // true
/// right.remove(&"10.1.0.0/16".parse()?);
/// right.insert("10.1.2.0/24".parse()?)?;
/// intersects(&left, &right);      // false
/// ```
pub fn intersects<P: Prefix, A: Allocator, B: Allocator>(
    left: &PrefixSet<P, A>,
    right: &PrefixSet<P, B>,
) -> bool
    ensures { IsTrue result
        ↔ ((s : List Bool) × (contains_key left.now.entries s ≡ true)
        × (contains_key right.now.entries s ≡ true)) }
{
    listing_laws::<()>();
    intersection(left, right).next().is_some()
}
