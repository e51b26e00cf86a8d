//! One more range of addresses, in order.
ghost use Rattle.std.specs.Prelude.{◌≡◌, ℕ, ◌-◌, ◌^◌, ◌<◌, ◌++◌, ◌∷◌, IfSome, MatchBool, OnErr, OnOk, length, slice_index, true};
ghost use Rattle.std.specs.Bool.{OnTrue};
ghost use Rattle.prefix_trie_bits.specs.Model.Bits.{number};
ghost use Rattle.address_ranges.specs.Appends.{AddsRange, EndsFrom, StartBy, end_of, extended, past_number};
ghost use Rattle.address_ranges.specs.Breaks.{AreBreaks, AreRising, numbers};

use crate::order::order;
use prefix_trie_bits::prefix::Key;
use std::alloc::{AllocError, Allocator};

/// Returns whether each range of a set starts at an address or before it.
pub(crate) fn start_by<K: Key>(breaks: &[K], address: K) -> bool
    requires { AreRising (numbers K.bits breaks.now) }
    ensures { OnTrue result (StartBy (numbers K.bits breaks.now) (number (K.bits address))) }
{
    let len = breaks.len();
    len == 0 || order(breaks[(len - 1) / 2 * 2], address).is_le()
}

/// Adds the addresses from `first` on and before `past`. `None` is the end of all addresses.
///
/// Requires that each range of the set starts at `first` or before it. On error nothing changes.
pub(crate) fn push_range<K: Key, A: Allocator>(
    breaks: &mut Vec<K, A>,
    first: K,
    past: Option<K>,
) -> Result<(), AllocError>
    requires breaks { AreBreaks K.bit_width (numbers K.bits breaks.old.items) }
    requires starts { StartBy (numbers K.bits breaks.old.items) (number (K.bits first)) }
    requires some { number (K.bits first) < end_of K.bit_width K.bits past }
    ensures added { OnOk result (AddsRange K.bit_width (numbers K.bits breaks.old.items)
        (number (K.bits first)) (end_of K.bit_width K.bits past)
        (numbers K.bits breaks.new.items)) }
    ensures unchanged { OnErr result (breaks.new.items ≡ breaks.old.items) }
{
    // The proof learns from these calls that the numbers are keys.
    let _ = first.is_key();
    let _ = is_end(past);
    if breaks.len() % 2 == 1 {
        return Ok(());
    }
    if is_past(breaks, first) {
        return append(breaks, first, past);
    }
    extend(breaks, past);
    Ok(())
}

/// Returns true. Its contract tells a caller's proof that an end of a range is a key.
#[inline(always)]
pub(crate) fn is_end<K: Key>(past: Option<K>) -> bool
    ensures { IfSome past (λ k. number (K.bits k) < 2 ^ K.bit_width) }
{
    match past {
        Some(past) => past.is_key(),
        None => true,
    }
}

/// Returns whether all breakpoints are below an address.
fn is_past<K: Key>(breaks: &[K], address: K) -> bool
    requires { AreRising (numbers K.bits breaks.now) }
    ensures { MatchBool result
        ((k : ℕ) → k < length (numbers K.bits breaks.now)
        → slice_index (numbers K.bits breaks.now) k < number (K.bits address))
        (EndsFrom (number (K.bits address)) (numbers K.bits breaks.now)) }
{
    let len = breaks.len();
    len == 0 || order(breaks[len - 1], address).is_lt()
}

/// Appends a range as breakpoints of its own.
fn append<K: Key, A: Allocator>(
    breaks: &mut Vec<K, A>,
    first: K,
    past: Option<K>,
) -> Result<(), AllocError>
    ensures appended { OnOk result (numbers K.bits breaks.new.items
        ≡ numbers K.bits breaks.old.items
        ++ number (K.bits first) ∷ past_number K.bits past) }
    ensures unchanged { OnErr result (breaks.new.items ≡ breaks.old.items) }
{
    breaks.reserve(2)?;
    breaks.push(first)?;
    if let Some(past) = past {
        breaks.push(past)?;
    }
    Ok(())
}

/// Lets the last range end no earlier than before `past`.
fn extend<K: Key, A: Allocator>(breaks: &mut Vec<K, A>, past: Option<K>)
    requires { 0 < length breaks.old.items }
    ensures { numbers K.bits breaks.new.items
        ≡ extended (numbers K.bits breaks.old.items) (past_number K.bits past) }
{
    let Some(past) = past else {
        breaks.pop();
        return;
    };
    let last = breaks.len() - 1;
    if order(breaks[last], past).is_lt() {
        breaks[last] = past;
    }
}
