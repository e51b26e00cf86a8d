//! Walks over the keys of two sets.
//!
//! They are the walks over the sets' maps of units, without the values.
ghost use Rattle.std.specs.Prelude.{◌≡◌, ◌+◌, ◌≤◌, ◌<◌, ◌^◌, All, length, map};
ghost use Rattle.std.specs.FinMap.{len};
ghost use Rattle.prefix_trie.specs.Terms.{listing};
ghost use Rattle.prefix_trie_ops.specs.Combining.{minus, not_covered, restricted_to};
ghost use Rattle.prefix_trie_ops.specs.Merging.{union_of};

use crate::map;
use prefix_trie::map::KeysOf;
use prefix_trie::{Prefix, PrefixSet};
use std::alloc::Allocator;

/// The keys of either of two sets, in listing order.
///
/// The walk does not allocate. After its last key it returns `None` each time.
pub type UnionWalk<'a, P, A, B> = KeysOf<map::UnionWalk<'a, P, (), (), A, B>>;

/// The keys that two sets have, in listing order.
///
/// The walk does not allocate. After its last key it returns `None` each time.
pub type IntersectionWalk<'a, P, A, B> = KeysOf<map::IntersectionWalk<'a, P, (), (), A, B>>;

/// The keys of a set that another one does not have, in listing order.
pub type DifferenceWalk<'a, P, A, B> = KeysOf<map::DifferenceWalk<'a, P, (), (), A, B>>;

/// The keys of a set that no key of another one contains, in listing order.
pub type CoveringDifferenceWalk<'a, P, A, B> = KeysOf<
    map::CoveringDifferenceWalk<'a, P, (), (), A, B>,
>;

/// Returns a walk over the keys of either set, in listing order.
///
/// It reads each node of either set once.
///
/// # Examples
///
/// ```rust
/// // left = {10.0.0.0/8, 10.1.0.0/16}
/// // right = {10.1.0.0/16, 10.2.0.0/16}
/// union(&left, &right);       // [10.0.0.0/8, 10.1.0.0/16, 10.2.0.0/16]
/// ```
pub fn union<'a, P: Prefix, A: Allocator, B: Allocator>(
    left: &'a PrefixSet<P, A>,
    right: &'a PrefixSet<P, B>,
) -> UnionWalk<'a, P, A, B>
    ensures items { result
        ≡ map (λ e. P.back e.0) (listing (union_of left.now.entries right.now.entries)) }
    ensures each_fits { All P.IsFitting result }
    ensures at_most { length result ≤ len left.now.entries + len right.now.entries }
{
    KeysOf::new(map::union(left.as_map(), right.as_map()))
}

/// Returns a walk over the keys that both sets have, in listing order.
///
/// It reads only nodes whose paths both sets have.
///
/// # Examples
///
/// ```rust
/// // left = {10.0.0.0/8, 10.1.0.0/16}
/// // right = {10.1.0.0/16, 10.2.0.0/16}
/// intersection(&left, &right);    // [10.1.0.0/16]
/// ```
pub fn intersection<'a, P: Prefix, A: Allocator, B: Allocator>(
    left: &'a PrefixSet<P, A>,
    right: &'a PrefixSet<P, B>,
) -> IntersectionWalk<'a, P, A, B>
    ensures items { result
        ≡ map (λ e. P.back e.0) (listing (restricted_to left.now.entries right.now.entries)) }
    ensures each_fits { All P.IsFitting result }
    ensures fits { length result < 2 ^ 64 }
{
    KeysOf::new(map::intersection(left.as_map(), right.as_map()))
}

/// Returns a walk over the keys of `left` that `right` does not have, in listing order.
///
/// Each key of `left` costs one lookup in `right`.
///
/// # Examples
///
/// ```rust
/// // left = {10.0.0.0/8, 10.1.0.0/16, 10.2.0.0/16}
/// // right = {10.1.0.0/16}
/// difference(&left, &right);      // [10.0.0.0/8, 10.2.0.0/16]
/// ```
pub fn difference<'a, P: Prefix, A: Allocator, B: Allocator>(
    left: &'a PrefixSet<P, A>,
    right: &'a PrefixSet<P, B>,
) -> DifferenceWalk<'a, P, A, B>
    ensures items { result
        ≡ map (λ e. P.back e.0) (listing (minus left.now.entries right.now.entries)) }
    ensures each_fits { All P.IsFitting result }
    ensures fits { length result < 2 ^ 64 }
{
    KeysOf::new(map::difference(left.as_map(), right.as_map()))
}

/// Returns a walk over the keys of `left` that no key of `right` contains, in listing order.
///
/// Each key of `left` costs one lookup in `right`.
///
/// # Examples
///
/// ```rust
/// // left = {10.0.0.0/8, 10.1.2.0/24, 10.2.0.0/16}
/// // right = {10.1.0.0/16}
/// covering_difference(&left, &right);     // [10.0.0.0/8, 10.2.0.0/16]
/// ```
pub fn covering_difference<'a, P: Prefix, A: Allocator, B: Allocator>(
    left: &'a PrefixSet<P, A>,
    right: &'a PrefixSet<P, B>,
) -> CoveringDifferenceWalk<'a, P, A, B>
    ensures items { result
        ≡ map (λ e. P.back e.0) (listing (not_covered left.now.entries right.now.entries)) }
    ensures each_fits { All P.IsFitting result }
    ensures fits { length result < 2 ^ 64 }
{
    KeysOf::new(map::covering_difference(left.as_map(), right.as_map()))
}
