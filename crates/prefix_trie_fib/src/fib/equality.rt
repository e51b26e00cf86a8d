//! Equality of compiled tables.
ghost use Rattle.std.specs.Prelude.{◌≡◌, ℕ, ◌<◌, Option, length, slice_index_or};
ghost use Rattle.std.specs.Cmp.Lexicographic.{pointwise, lists_equiv, lists_per};
ghost use Rattle.prefix_trie_fib.specs.Equality.{range_eq, range_equiv, range_per};

use crate::fib::Fib;
use crate::ranges::is_at_most;
use prefix_trie_bits::prefix::Prefix;
use std::alloc::Allocator;

/// Compares the ranges of two tables.
///
/// Tables are equal if they have as many ranges, and equal first addresses and values range by range.
///
/// # Examples
///
/// ```rust
/// // map = {10.0.0.0/8: 1}
/// let fib = Fib::new(&map, alloc)?;
/// fib.clone()? == fib;    // true
/// ```
impl<P: Prefix, T: Copy + PartialEq, A: Allocator> PartialEq for Fib<P, T, A> {
    ghost eq = { pointwise (range_eq T.PartialEq.eq) };

    ghost laws = { lists_per (range_per T.PartialEq.laws) };

    fn eq(&self, other: &Self) -> bool {
        let len = self.ranges.len();
        if len != other.ranges.len() {
            return false;
        }
        for i in 0..len {
            if !is_same_range(self, other, i) {
                return false;
            }
        }
        true
    }
}

impl<P: Prefix, T: Copy + Eq, A: Allocator> Eq for Fib<P, T, A> {
    ghost laws = { lists_equiv (range_equiv T.Eq.laws) };
}

/// Returns whether two tables have the same range at this place.
///
/// Requires that `i` is below both numbers of ranges.
fn is_same_range<P: Prefix, T: Copy + PartialEq, A: Allocator>(
    left: &Fib<P, T, A>,
    right: &Fib<P, T, A>,
    i: usize,
) -> bool
    requires left { i < length left.now }
    requires right { i < length right.now }
    ensures { (d : ℕ × Option T)
        → result ≡ range_eq T.PartialEq.eq
        (slice_index_or left.now i d) (slice_index_or right.now i d) }
{
    let (start, other) = (left.ranges.start(i), right.ranges.start(i));
    let is_same_start = is_at_most(start, other) && is_at_most(other, start);
    is_same_start && left.ranges.value(i) == right.ranges.value(i)
}
