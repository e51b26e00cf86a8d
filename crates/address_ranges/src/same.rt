//! Equality of sets.
ghost use Rattle.std.specs.Prelude.{◌≡◌, bytes_eq};
ghost use Rattle.address_ranges.specs.Breaks.{numbers};

use crate::order::order;
use prefix_trie_bits::prefix::Key;

/// Returns whether two lists of breakpoints are equal.
pub(crate) fn are_same<K: Key>(left: &[K], right: &[K]) -> bool
    ensures { result ≡ bytes_eq (numbers K.bits left.now) (numbers K.bits right.now) }
{
    if left.len() != right.len() {
        return false;
    }
    for i in 0..left.len() {
        if order(left[i], right[i]).is_ne() {
            return false;
        }
    }
    true
}
