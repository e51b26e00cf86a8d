//! The entries of one map whose keys another one does not have.
ghost use Rattle.std.specs.Prelude.{◌≡◌, ◌<◌, ◌^◌, All, length, not};
ghost use Rattle.std.specs.FinMap.{contains_key};
ghost use Rattle.prefix_trie.specs.Terms.{listing, prefix_pairs};
ghost use Rattle.prefix_trie_ops.specs.Combining.{minus};

use crate::select::{PathTest, Selected};
use prefix_trie::laws::{listed_laws, listing_laws};
use prefix_trie::{Prefix, PrefixMap};
use std::alloc::Allocator;

/// The entries of a map whose keys another one does not have, in listing order.
pub type DifferenceWalk<'a, P, T, U, A, B> = Selected<'a, P, T, A, Missing<'a, P, U, B>>;

/// Passes the prefixes that are not stored in a map.
#[derive(Drop)]
pub struct Missing<'a, P: Prefix, U: Drop, B: Allocator> {
    map: &'a PrefixMap<P, U, B>,
}

impl<'a, P: Prefix, U: Drop, B: Allocator> PathTest<P> for Missing<'a, P, U, B> {
    ghost use Rattle.std.specs.Prelude.{not};
    ghost use Rattle.std.specs.FinMap.{contains_key};

    ghost outcome = { λ t s. not (contains_key t.map.now.entries s) };

    fn passes(&mut self, prefix: &P) -> bool {
        !self.map.contains_key(prefix)
    }
}

/// Returns a walk over the entries of `left` whose keys `right` does not have, in listing order.
///
/// Each entry of `left` costs one lookup in `right`.
///
/// # Examples
///
/// ```rust
/// // left = {10.0.0.0/8: 1, 10.1.0.0/16: 2, 10.2.0.0/16: 3}
/// // right = {10.1.0.0/16: 9}
/// difference(&left, &right);      // [(10.0.0.0/8, 1), (10.2.0.0/16, 3)]
/// ```
pub fn difference<'a, P: Prefix, T: Drop, U: Drop, A: Allocator, B: Allocator>(
    left: &'a PrefixMap<P, T, A>,
    right: &'a PrefixMap<P, U, B>,
) -> DifferenceWalk<'a, P, T, U, A, B>
    ensures items { result
        ≡ prefix_pairs P.back (listing (minus left.now.entries right.now.entries)) }
    ensures each_fits { All (λ e. P.IsFitting e.0) result }
    ensures fits { length result < 2 ^ 64 }
{
    listing_laws::<T>();
    listed_laws::<P, T>();
    Selected::new(left.iter(), Missing { map: right })
}
