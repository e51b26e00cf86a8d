//! Ranges that touch and have one value.
ghost use Rattle.std.specs.Prelude.{◌≡◌, ℕ, ◌-◌, ◌<◌, ◌++◌, ◌∷◌, [], ◌⊎◌, OnOk, Option, false, length, slice_index_or, true};
ghost use Rattle.prefix_trie_bits.specs.Model.Bits.{number};
ghost use Rattle.prefix_trie_fib.specs.Line.{are_same};

use super::Line;
use prefix_trie_bits::prefix::Key;
use std::alloc::{AllocError, Allocator};

/// Appends a range, unless the last one has the same value.
pub(super) fn add_range<K: Key, T: Copy + PartialEq, B: Allocator>(
    line: &mut Line<K, T, B>,
    start: K,
    value: Option<T>,
) -> Result<(), AllocError>
    ensures { OnOk result (((line.new ≡ line.old ++ (number (K.bits start), value) ∷ [])
        × ((d : ℕ × Option T) → 0 < length line.old
        → are_same T.PartialEq.eq (slice_index_or line.old (length line.old - 1) d).1 value
        ≡ false))
        ⊎ ((line.new ≡ line.old) × (0 < length line.old)
        × ((d : ℕ × Option T)
        → are_same T.PartialEq.eq (slice_index_or line.old (length line.old - 1) d).1 value
        ≡ true))) }
{
    let len = line.len();
    if len > 0 && is_same(line.value(len - 1), value) {
        return Ok(());
    }
    line.push(start, value)
}

/// Returns whether both values are missing, or both exist and are equal.
fn is_same<T: Copy + PartialEq>(a: Option<T>, b: Option<T>) -> bool
    ensures { result ≡ are_same T.PartialEq.eq a b }
{
    match (a, b) {
        (None, None) => true,
        (Some(x), Some(y)) => x == y,
        _ => false,
    }
}
