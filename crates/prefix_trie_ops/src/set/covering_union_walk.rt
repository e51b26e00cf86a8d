//! The keys of either of two sets, each with its longest match in both.
ghost use Rattle.std.specs.Prelude.{◌≡◌, ◌+◌, ◌≤◌, All, length, map};
ghost use Rattle.std.specs.FinMap.{len};
ghost use Rattle.std.specs.Iterator.{at_most};
ghost use Rattle.std.specs.Map.Iter.{TakesFirst};
ghost use Rattle.prefix_trie.specs.Terms.{listing};
ghost use Rattle.prefix_trie_ops.specs.CoveringUnion.{with_matching_keys};
ghost use Rattle.prefix_trie_ops.specs.Merging.{union_of};

use crate::set::walks::{UnionWalk, union};
use prefix_trie::{Prefix, PrefixSet};
use std::alloc::Allocator;
use std::marker::Model;

/// The keys of either of two sets, each with its longest match in both sets, in listing order.
///
/// The walk does not allocate. After its last item it returns `None` each time.
#[derive(Drop)]
pub struct CoveringUnionWalk<'a, P: Prefix, A: Allocator, B: Allocator> {
    left: &'a PrefixSet<P, A>,
    right: &'a PrefixSet<P, B>,
    keys: UnionWalk<'a, P, A, B>,
}

impl<'a, P: Prefix, A: Allocator, B: Allocator> Model for CoveringUnionWalk<'a, P, A, B> {
    ghost use Rattle.std.specs.Prelude.{All, List, Option, map};
    ghost use Rattle.prefix_trie_ops.specs.CoveringUnion.{with_matching_keys};

    ghost Value = { List (P × Option P × Option P) };

    ghost view = { λ w. map (with_matching_keys P.path P.back w.left.now.entries
        w.right.now.entries) w.keys };

    ghost invariant = { λ w. All P.IsFitting w.keys };
}

/// Returns a walk over the keys of either set, each with its longest match in both sets, in listing order.
///
/// A key that a set has is its own longest match there. Each key costs one lookup in each set.
///
/// # Examples
///
/// ```rust
/// // left = {10.0.0.0/8}
/// // right = {10.2.0.0/16}
/// let mut walk = covering_union(&left, &right);
/// walk.next();        // Some((10.0.0.0/8, Some(10.0.0.0/8), None))
/// walk.next();        // Some((10.2.0.0/16, Some(10.0.0.0/8), Some(10.2.0.0/16)))
/// ```
pub fn covering_union<'a, P: Prefix, A: Allocator, B: Allocator>(
    left: &'a PrefixSet<P, A>,
    right: &'a PrefixSet<P, B>,
) -> CoveringUnionWalk<'a, P, A, B>
    ensures items { result
        ≡ map (with_matching_keys P.path P.back left.now.entries right.now.entries)
        (map (λ e. P.back e.0) (listing (union_of left.now.entries right.now.entries))) }
    ensures each_fits { All (λ e. P.IsFitting e.0) result }
    ensures at_most { length result ≤ len left.now.entries + len right.now.entries }
{
    CoveringUnionWalk {
        left,
        right,
        keys: union(left, right),
    }
}

impl<'a, P: Prefix, A: Allocator, B: Allocator> Iterator for CoveringUnionWalk<'a, P, A, B> {
    type Item = (P, Option<P>, Option<P>);

    ghost next_gives = { TakesFirst (λ x. x) };

    ghost remaining = { λ items. at_most (length items) };

    fn next(&mut self) -> Option<(P, Option<P>, Option<P>)> {
        let Some(prefix) = self.keys.next() else {
            return None;
        };
        let left = self.left.get_lpm(&prefix);
        let right = self.right.get_lpm(&prefix);
        Some((prefix, left, right))
    }
}
