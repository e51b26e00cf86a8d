//! Ranges whose first addresses are kept as their upper 64 bits.
ghost use Rattle.std.specs.Prelude.{◌≡◌, ◌≤◌, IfOk, IfSome};
ghost use Rattle.prefix_trie_fib.specs.Layouts.{widened};

use super::halves::{is_upper, upper_half};
use crate::ranges::Line;
use prefix_trie_bits::prefix::Key;
use std::alloc::{AllocError, Allocator};

/// Returns the same ranges by the upper 64 bits of their first addresses.
///
/// Returns `None` if addresses have at most 64 bits, or if another bit of a first address is 1.
pub(super) fn upper_line<K: Key, T: Copy, A: Allocator, B: Allocator + Clone>(
    line: &Line<K, T, A>,
    alloc: B,
) -> Result<Option<Line<u64, T, B>>, AllocError>
    ensures { IfOk result (λ found. IfSome found
        (λ upper. (64 ≤ K.bit_width) × (widened K.bit_width upper ≡ line.now))) }
{
    if K::width() <= 64 {
        return Ok(None);
    }
    let mut upper = Line::new(line.placeholder(), alloc.clone()?, alloc);
    for i in 0..line.len() {
        let start = line.start(i);
        if !is_upper(start) {
            return Ok(None);
        }
        upper.push(upper_half(start), line.value(i))?;
    }
    Ok(Some(upper))
}
