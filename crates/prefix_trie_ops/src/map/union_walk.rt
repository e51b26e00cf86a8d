//! The keys of either of two maps.
ghost use Rattle.std.specs.Prelude.{◌≡◌, ◌+◌, ◌≤◌, All, List, length};
ghost use Rattle.std.specs.FinMap.{len};
ghost use Rattle.std.specs.Iterator.{at_most};
ghost use Rattle.std.specs.Map.Iter.{TakesFirst};
ghost use Rattle.prefix_trie.specs.Terms.{listing, prefix_pairs};
ghost use Rattle.prefix_trie_ops.specs.Merging.{lent_side, union_of};

use crate::map::sides::Side;
use prefix_trie::laws::{listed_laws, listing_laws};
use prefix_trie::map::{Combination, CombinedCursor, Keyed};
use prefix_trie::{Prefix, PrefixMap};
use std::alloc::Allocator;
use std::marker::Model;

/// The keys of either of two maps, each with what both have there, in listing order.
///
/// The walk does not allocate. After its last item it returns `None` each time.
#[derive(Drop)]
pub struct UnionWalk<'a, P: Prefix, T: Drop, U: Drop, A: Allocator, B: Allocator> {
    left: &'a PrefixMap<P, T, A>,
    right: &'a PrefixMap<P, U, B>,
    cursor: CombinedCursor<P::R>,
}

impl<'a, P: Prefix, T: Drop, U: Drop, A: Allocator, B: Allocator> Model
    for UnionWalk<'a, P, T, U, A, B> {
    ghost use Rattle.std.specs.Prelude.{List};
    ghost use Rattle.prefix_trie.specs.Terms.{IsCombinedCursorIn, combined_to_come, prefix_pairs};
    ghost use Rattle.prefix_trie_table.specs.declared.table.combined_spot.Combination.TheVariants.{Union};
    ghost use Rattle.prefix_trie_ops.specs.Merging.{union_of};
    ghost use Rattle.prefix_trie_ops.specs.declared.map.sides.Side.{Side};

    ghost Value = { List (P × Side T U) };

    ghost view = { λ w. prefix_pairs P.back
        (combined_to_come P.R.bits (union_of w.left.now.entries w.right.now.entries) w.cursor) };

    ghost invariant = { λ w. IsCombinedCursorIn P.R.bits P.R.bit_width w.left.now.build
        w.right.now.build Union w.cursor };
}

/// Returns a walk over the keys of either map, each with what both maps have there, in listing order.
///
/// # Examples
///
/// ```rust
/// // left = {10.0.0.0/8: 1, 10.1.0.0/16: 2}
/// // right = {10.1.0.0/16: 8, 10.2.0.0/16: 9}
/// let mut walk = union(&left, &right);
/// matches!(walk.next(), Some((_, Side::Left(1))));        // true: 10.0.0.0/8
/// matches!(walk.next(), Some((_, Side::Both(2, 8))));     // true: 10.1.0.0/16
/// matches!(walk.next(), Some((_, Side::Right(9))));       // true: 10.2.0.0/16
/// ```
pub fn union<'a, P: Prefix, T: Drop, U: Drop, A: Allocator, B: Allocator>(
    left: &'a PrefixMap<P, T, A>,
    right: &'a PrefixMap<P, U, B>,
) -> UnionWalk<'a, P, T, U, A, B>
    ensures items { result
        ≡ prefix_pairs P.back (listing (union_of left.now.entries right.now.entries)) }
    ensures each_fits { All (λ e. P.IsFitting e.0) result }
    ensures at_most { length result ≤ len left.now.entries + len right.now.entries }
{
    listing_laws::<T>();
    listing_laws::<U>();
    listed_laws::<P, T>();
    listed_laws::<P, U>();
    listed_laws::<P, Side<T, U>>();

    // The proofs learn from it that no key is longer than the width.
    let _ = (left.len(), right.len());
    UnionWalk {
        left,
        right,
        cursor: left.combined_cursor::<U, B, Side<T, U>>(right, Combination::Union),
    }
}

impl<'a, P: Prefix, T: Drop, U: Drop, A: Allocator, B: Allocator> Iterator
    for UnionWalk<'a, P, T, U, A, B> {
    type Item = (P, Side<&'a T, &'a U>);

    ghost next_gives = { TakesFirst lent_side };

    ghost remaining = { λ items. at_most (length items) };

    #[inline]
    fn next(&mut self) -> Option<(P, Side<&'a T, &'a U>)> {
        let Some(item) = self
            .left
            .combined_step::<U, B, Side<T, U>>(self.right, Combination::Union, &mut self.cursor)
        else {
            return None;
        };
        let Some(side) = Side::of(item.1, item.2) else {
            unreachable!();
        };
        Some((item.0, side))
    }
}

impl<'a, P: Prefix, T: Drop, U: Drop, A: Allocator, B: Allocator> Keyed
    for UnionWalk<'a, P, T, U, A, B> {
    ghost use Rattle.std.specs.Prelude.{map};

    type Key = P;

    ghost keys = { map (λ item. item.0) };

    #[inline]
    fn next_key(&mut self) -> Option<P> {
        let Some((prefix, _)) = self.next() else {
            return None;
        };
        Some(prefix)
    }
}
