//! The keys that two maps have.
ghost use Rattle.std.specs.Prelude.{◌≡◌, ◌<◌, ◌^◌, All, List, length};
ghost use Rattle.std.specs.Iterator.{at_most};
ghost use Rattle.std.specs.Map.Iter.{TakesFirst};
ghost use Rattle.prefix_trie.specs.Terms.{listing, prefix_pairs};
ghost use Rattle.prefix_trie_ops.specs.Combining.{common};
ghost use Rattle.prefix_trie_ops.specs.Lending.{lent_pair};

use prefix_trie::laws::{listed_laws, listing_laws};
use prefix_trie::map::{Combination, CombinedCursor, Keyed};
use prefix_trie::{Prefix, PrefixMap};
use std::alloc::Allocator;
use std::marker::Model;

/// The keys that two maps have, each with both values, in listing order.
///
/// The walk does not allocate. After its last item it returns `None` each time.
#[derive(Drop)]
pub struct IntersectionWalk<'a, P: Prefix, T: Drop, U: Drop, A: Allocator, B: Allocator> {
    left: &'a PrefixMap<P, T, A>,
    right: &'a PrefixMap<P, U, B>,
    cursor: CombinedCursor<P::R>,
}

impl<'a, P: Prefix, T: Drop, U: Drop, A: Allocator, B: Allocator> Model
    for IntersectionWalk<'a, P, T, U, A, B> {
    ghost use Rattle.std.specs.Prelude.{List};
    ghost use Rattle.prefix_trie.specs.Terms.{IsCombinedCursorIn, combined_to_come, prefix_pairs};
    ghost use Rattle.prefix_trie_table.specs.declared.table.combined_spot.Combination.TheVariants.{Intersection};
    ghost use Rattle.prefix_trie_ops.specs.Combining.{common};

    ghost Value = { List (P × (T × U)) };

    ghost view = { λ w. prefix_pairs P.back
        (combined_to_come P.R.bits (common w.left.now.entries w.right.now.entries) w.cursor) };

    ghost invariant = { λ w. IsCombinedCursorIn P.R.bits P.R.bit_width w.left.now.build
        w.right.now.build Intersection w.cursor };
}

/// Returns a walk over the keys that both maps have, each with both values, in listing order.
///
/// It reads only nodes whose paths both maps have.
///
/// # Examples
///
/// ```rust
/// // left = {10.0.0.0/8: 1, 10.1.0.0/16: 2}
/// // right = {10.1.0.0/16: 8, 10.2.0.0/16: 9}
/// intersection(&left, &right);    // [(10.1.0.0/16, 2, 8)]
/// ```
pub fn intersection<'a, P: Prefix, T: Drop, U: Drop, A: Allocator, B: Allocator>(
    left: &'a PrefixMap<P, T, A>,
    right: &'a PrefixMap<P, U, B>,
) -> IntersectionWalk<'a, P, T, U, A, B>
    ensures items { result
        ≡ prefix_pairs P.back (listing (common left.now.entries right.now.entries)) }
    ensures each_fits { All (λ e. P.IsFitting e.0) result }
    ensures fits { length result < 2 ^ 64 }
{
    listing_laws::<T>();
    listing_laws::<U>();
    listed_laws::<P, T>();
    listed_laws::<P, U>();
    listed_laws::<P, (T, U)>();

    // The proofs learn from it that no key is longer than the width.
    let _ = (left.len(), right.len());
    IntersectionWalk {
        left,
        right,
        cursor: left.combined_cursor::<U, B, (T, U)>(right, Combination::Intersection),
    }
}

impl<'a, P: Prefix, T: Drop, U: Drop, A: Allocator, B: Allocator> Iterator
    for IntersectionWalk<'a, P, T, U, A, B> {
    type Item = (P, &'a T, &'a U);

    ghost next_gives = { TakesFirst lent_pair };

    ghost remaining = { λ items. at_most (length items) };

    #[inline]
    fn next(&mut self) -> Option<(P, &'a T, &'a U)> {
        let Some(item) = self
            .left
            .combined_step::<U, B, (T, U)>(self.right, Combination::Intersection, &mut self.cursor)
        else {
            return None;
        };
        let Some(left) = item.1 else {
            unreachable!();
        };
        let Some(right) = item.2 else {
            unreachable!();
        };
        Some((item.0, left, right))
    }
}

impl<'a, P: Prefix, T: Drop, U: Drop, A: Allocator, B: Allocator> Keyed
    for IntersectionWalk<'a, P, T, U, A, B> {
    ghost use Rattle.std.specs.Prelude.{map};

    type Key = P;

    ghost keys = { map (λ item. item.0) };

    #[inline]
    fn next_key(&mut self) -> Option<P> {
        let Some((prefix, _, _)) = self.next() else {
            return None;
        };
        Some(prefix)
    }
}
