//! Lookups by the upper 64 bits of addresses.
ghost use Rattle.std.specs.Prelude.{◌≡◌, ◌≤◌, None};
ghost use Rattle.prefix_trie_bits.specs.Model.Bits.{digits, number};
ghost use Rattle.prefix_trie_fib.specs.Index.{IsTop};
ghost use Rattle.prefix_trie_fib.specs.Layouts.{widened};
ghost use Rattle.prefix_trie_fib.specs.Line.{value_along};

use super::halves::upper_half;
use crate::indexed::Indexed;
use prefix_trie_bits::prefix::Key;
use std::alloc::Allocator;

/// Returns the value of the range of an address, where ranges are kept by the upper 64 bits of their first addresses.
#[inline(always)]
pub(super) fn value_by_upper<K: Key, T: Copy, A: Allocator>(
    indexed: &Indexed<u64, T, A>,
    address: K,
) -> Option<T>
    requires { 64 ≤ K.bit_width }
    ensures { result
        ≡ value_along None (widened K.bit_width indexed.now) (number (K.bits address)) }
{
    let _ = address.is_key();
    let half = upper_half(address);
    indexed.lookup(top_of(half), half)
}

/// Returns the number of the first 30 of 64 bits.
///
/// `first_bits` does the same for all keys, but the compiler does not make one shift of it here.
#[inline(always)]
pub(super) fn top_of(half: u64) -> u32
    ensures { IsTop result (digits 64 half) }
{
    (half >> 34) as u32
}
