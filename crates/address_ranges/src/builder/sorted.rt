//! Ranges that are sorted.
ghost use Rattle.std.specs.Prelude.{◌≡◌, ℕ, ◌^◌, ◌<◌, IfOk};
ghost use Rattle.std.specs.List.Sorted.{IsNonDecreasingBy, IsPermutation};
ghost use Rattle.prefix_trie_bits.specs.Model.Bits.{number};
ghost use Rattle.address_ranges.specs.Breaks.{AreBreaks, has_address, numbers};
ghost use Rattle.address_ranges.specs.Builders.{AreSome, is_in_one, ranges_as_numbers};

use crate::append::push_range;
use crate::order::order;
use prefix_trie_bits::prefix::Key;
use std::alloc::{AllocError, Allocator};

/// Sorts ranges by their first addresses, and returns the breakpoints of their addresses.
pub(super) fn sorted_breaks<K: Key, A: Allocator, B: Allocator>(
    ranges: &mut Vec<(K, Option<K>), A>,
    alloc: B,
) -> Result<Vec<K, B>, AllocError>
    requires { AreSome (ranges_as_numbers K.bit_width K.bits ranges.old.items) }
    ensures breaks { IfOk result (λ out. AreBreaks K.bit_width (numbers K.bits out.items)) }
    ensures has { IfOk result (λ out. (n : ℕ) → n < 2 ^ K.bit_width
        → has_address (numbers K.bits out.items) n
        ≡ is_in_one (ranges_as_numbers K.bit_width K.bits ranges.old.items) n) }
{
    sort(ranges);
    breaks_of(ranges, alloc)
}

/// Sorts ranges by their first addresses.
fn sort<K: Key, A: Allocator>(ranges: &mut Vec<(K, Option<K>), A>)
    ensures permutation { IsPermutation ranges.old.items ranges.new.items }
    ensures sorted { IsNonDecreasingBy (λ r. number (K.bits r.0)) ranges.new.items }
{
    ranges.sort_unstable_by(|a, b| order(a.0, b.0));
}

/// Returns the breakpoints of the addresses of sorted ranges.
fn breaks_of<K: Key, B: Allocator>(
    ranges: &[(K, Option<K>)],
    alloc: B,
) -> Result<Vec<K, B>, AllocError>
    requires some { AreSome (ranges_as_numbers K.bit_width K.bits ranges.now) }
    requires sorted { IsNonDecreasingBy (λ r. number (K.bits r.0)) ranges.now }
    ensures breaks { IfOk result (λ out. AreBreaks K.bit_width (numbers K.bits out.items)) }
    ensures has { IfOk result (λ out. (n : ℕ) → n < 2 ^ K.bit_width
        → has_address (numbers K.bits out.items) n
        ≡ is_in_one (ranges_as_numbers K.bit_width K.bits ranges.now) n) }
{
    let mut out = Vec::new(alloc);
    for range in ranges {
        push_range(&mut out, range.0, range.1)?;
    }
    Ok(out)
}
