//! The keys of either of two maps, each with its longest match in both.
ghost use Rattle.std.specs.Prelude.{◌≡◌, ◌+◌, ◌≤◌, All, List, length, map};
ghost use Rattle.std.specs.FinMap.{len};
ghost use Rattle.std.specs.Iterator.{at_most};
ghost use Rattle.std.specs.Map.Iter.{TakesFirst};
ghost use Rattle.prefix_trie.specs.Terms.{listing, prefix_pairs};
ghost use Rattle.prefix_trie_ops.specs.CoveringUnion.{lent_matches, with_matches};
ghost use Rattle.prefix_trie_ops.specs.Merging.{union_of};

use crate::map::union_walk::{UnionWalk, union};
use prefix_trie::{Prefix, PrefixMap};
use std::alloc::Allocator;
use std::marker::Model;

/// The keys of either of two maps, each with its longest match in both, in listing order.
///
/// The walk does not allocate. After its last item it returns `None` each time.
#[derive(Drop)]
pub struct CoveringUnionWalk<'a, P: Prefix, T: Drop, U: Drop, A: Allocator, B: Allocator> {
    left: &'a PrefixMap<P, T, A>,
    right: &'a PrefixMap<P, U, B>,
    keys: UnionWalk<'a, P, T, U, A, B>,
}

impl<'a, P: Prefix, T: Drop, U: Drop, A: Allocator, B: Allocator> Model
    for CoveringUnionWalk<'a, P, T, U, A, B> {
    ghost use Rattle.std.specs.Prelude.{All, List, Option, map};
    ghost use Rattle.prefix_trie_ops.specs.CoveringUnion.{with_matches};

    ghost Value = { List (P × (Option (P × T) × Option (P × U))) };

    ghost view = { λ w. map (with_matches P.path P.back w.left.now.entries w.right.now.entries)
        w.keys };

    ghost invariant = { λ w. All (λ e. P.IsFitting e.0) w.keys };
}

/// Returns a walk over the keys of either map, each with its longest match in both maps, in listing order.
///
/// A key that a map has is its own longest match there. Each key costs one lookup in each map.
///
/// # Examples
///
/// ```rust
/// // left = {10.0.0.0/8: 1, 10.1.0.0/16: 2}
/// // right = {10.1.0.0/16: 8, 10.2.0.0/16: 9}
/// let mut walk = covering_union(&left, &right);
/// walk.next();        // Some((10.0.0.0/8, Some((10.0.0.0/8, 1)), None))
/// walk.next();        // Some((10.1.0.0/16, Some((10.1.0.0/16, 2)), Some((10.1.0.0/16, 8))))
/// walk.next();        // Some((10.2.0.0/16, Some((10.0.0.0/8, 1)), Some((10.2.0.0/16, 9))))
/// ```
pub fn covering_union<'a, P: Prefix, T: Drop, U: Drop, A: Allocator, B: Allocator>(
    left: &'a PrefixMap<P, T, A>,
    right: &'a PrefixMap<P, U, B>,
) -> CoveringUnionWalk<'a, P, T, U, A, B>
    ensures items { result
        ≡ map (with_matches P.path P.back left.now.entries right.now.entries)
        (prefix_pairs P.back (listing (union_of left.now.entries right.now.entries))) }
    ensures each_fits { All (λ e. P.IsFitting e.0) result }
    ensures at_most { length result ≤ len left.now.entries + len right.now.entries }
{
    CoveringUnionWalk {
        left,
        right,
        keys: union(left, right),
    }
}

impl<'a, P: Prefix, T: Drop, U: Drop, A: Allocator, B: Allocator> Iterator
    for CoveringUnionWalk<'a, P, T, U, A, B> {
    type Item = (P, Option<(P, &'a T)>, Option<(P, &'a U)>);

    ghost next_gives = { TakesFirst lent_matches };

    ghost remaining = { λ items. at_most (length items) };

    fn next(&mut self) -> Option<(P, Option<(P, &'a T)>, Option<(P, &'a U)>)> {
        let Some((prefix, _)) = self.keys.next() else {
            return None;
        };
        let left = self.left.get_lpm(&prefix);
        let right = self.right.get_lpm(&prefix);
        Some((prefix, left, right))
    }
}
