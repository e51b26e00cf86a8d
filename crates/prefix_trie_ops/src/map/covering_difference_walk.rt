//! The entries of one map that nothing in another one covers.
ghost use Rattle.std.specs.Prelude.{◌≡◌, ◌<◌, ◌^◌, All, length, not};
ghost use Rattle.prefix_trie.specs.Terms.{listing, prefix_pairs};
ghost use Rattle.prefix_trie_ops.specs.Combining.{not_covered};

use crate::select::{PathTest, Selected};
use prefix_trie::laws::{listed_laws, listing_laws};
use prefix_trie::{Prefix, PrefixMap};
use std::alloc::Allocator;

/// The entries of a map that no prefix of another one contains, in listing order.
pub type CoveringDifferenceWalk<'a, P, T, U, A, B> = Selected<'a, P, T, A, Uncovered<'a, P, U, B>>;

/// Passes the prefixes that no stored prefix of a map contains.
#[derive(Drop)]
pub struct Uncovered<'a, P: Prefix, U: Drop, B: Allocator> {
    map: &'a PrefixMap<P, U, B>,
}

impl<'a, P: Prefix, U: Drop, B: Allocator> PathTest<P> for Uncovered<'a, P, U, B> {
    ghost use Rattle.std.specs.Prelude.{not};
    ghost use Rattle.std.specs.Option.{is_some};
    ghost use Rattle.prefix_trie.specs.Terms.{shortest_match};

    ghost outcome = { λ t s. not (is_some (shortest_match t.map.now.entries s)) };

    fn passes(&mut self, prefix: &P) -> bool {
        !self.map.is_covered(prefix)
    }
}

/// Returns a walk over the entries of `left` whose prefixes no prefix of `right` contains, in listing order.
///
/// A prefix contains itself, so these are some of the entries of `difference`. Each item costs one lookup in `right`.
///
/// # Examples
///
/// ```rust
/// // left = {10.0.0.0/8: 1, 10.1.2.0/24: 2, 10.2.0.0/16: 3}
/// // right = {10.1.0.0/16: 9}
/// covering_difference(&left, &right);     // [(10.0.0.0/8, 1), (10.2.0.0/16, 3)]
/// ```
pub fn covering_difference<'a, P: Prefix, T: Drop, U: Drop, A: Allocator, B: Allocator>(
    left: &'a PrefixMap<P, T, A>,
    right: &'a PrefixMap<P, U, B>,
) -> CoveringDifferenceWalk<'a, P, T, U, A, B>
    ensures items { result
        ≡ prefix_pairs P.back (listing (not_covered left.now.entries right.now.entries)) }
    ensures each_fits { All (λ e. P.IsFitting e.0) result }
    ensures fits { length result < 2 ^ 64 }
{
    listing_laws::<T>();
    listed_laws::<P, T>();
    Selected::new(left.iter(), Uncovered { map: right })
}
