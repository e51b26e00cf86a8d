//! The change of membership of all addresses.
ghost use Rattle.std.specs.Prelude.{◌≡◌, ℕ, ◌<◌, ◌∷◌, IfOk, MatchBool, length, not, slice_index};
ghost use Rattle.address_ranges.specs.Breaks.{AreBreaks, StartsAtZero, has_address, numbers};

use crate::order::order;
use prefix_trie_bits::prefix::Key;
use std::alloc::{AllocError, Allocator};

/// Returns the breakpoints of the addresses that a set does not have: those of the set, with or without 0.
pub(crate) fn toggled<K: Key, A: Allocator>(breaks: &[K], alloc: A) -> Result<Vec<K, A>, AllocError>
    requires { AreBreaks K.bit_width (numbers K.bits breaks.now) }
    ensures breaks { IfOk result (λ out. AreBreaks K.bit_width (numbers K.bits out.items)) }
    ensures toggled { IfOk result (λ out. (n : ℕ) → has_address (numbers K.bits out.items) n
        ≡ not (has_address (numbers K.bits breaks.now) n)) }
{
    if starts_at_zero(breaks) {
        Vec::from_slice(alloc, &breaks[1..])
    } else {
        with_zero(breaks, alloc)
    }
}

/// Returns whether the first breakpoint is 0.
pub(crate) fn starts_at_zero<K: Key>(breaks: &[K]) -> bool
    ensures { MatchBool result (StartsAtZero (numbers K.bits breaks.now))
        (0 < length breaks.now → 0 < slice_index (numbers K.bits breaks.now) 0) }
{
    match breaks.first() {
        Some(first) => order(*first, K::zero()).is_eq(),
        None => false,
    }
}

/// Returns the breakpoints with 0 before them.
fn with_zero<K: Key, A: Allocator>(breaks: &[K], alloc: A) -> Result<Vec<K, A>, AllocError>
    ensures { IfOk result
        (λ out. numbers K.bits out.items ≡ 0 ∷ numbers K.bits breaks.now) }
{
    let mut out = Vec::with_capacity(alloc, breaks.len().saturating_add(1))?;
    out.push(K::zero())?;
    out.extend_from_slice(breaks)?;
    Ok(out)
}
