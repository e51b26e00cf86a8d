//! The networks that begin at an address.
ghost use Rattle.std.specs.Prelude.{◌≡◌, ℕ, ◌+◌, ◌-◌, ◌^◌, ◌<◌, ◌≤◌, IfSome};
ghost use Rattle.std.specs.Bool.{MatchBool};
ghost use Rattle.std.specs.Option.{MatchOption};
ghost use Rattle.prefix_trie_bits.specs.Model.Bits.{number};
ghost use Rattle.address_ranges.specs.Appends.{end_of};
ghost use Rattle.address_ranges.specs.Networks.{IsBlock};

use crate::append::is_end;
use crate::order::is_at_most;
use prefix_trie_bits::prefix::Key;

/// Returns the length of the largest network that begins at an address and ends before `past`.
///
/// `None` is the end of all addresses. The search begins at the length `guess`.
pub(super) fn largest_at<K: Key>(at: K, past: Option<K>, guess: u32) -> u32
    requires guess { guess ≤ K.bit_width }
    requires some { number (K.bits at) < end_of K.bit_width K.bits past }
    ensures within { result ≤ K.bit_width }
    ensures block { IsBlock K.bit_width (number (K.bits at)) result
        (end_of K.bit_width K.bits past) }
    ensures largest { (k : ℕ) → k < result
        → IsBlock K.bit_width (number (K.bits at)) k (end_of K.bit_width K.bits past) → ⊥ }
{
    let mut len = guess;
    while !is_block(at, len, past) {
        len += 1;
    }
    while len > 0 && is_block(at, len - 1, past) {
        len -= 1;
    }
    len
}

/// Returns whether a network of this length begins at an address and ends before `past`.
fn is_block<K: Key>(at: K, len: u32, past: Option<K>) -> bool
    requires { len ≤ K.bit_width }
    ensures { MatchBool result
        (IsBlock K.bit_width (number (K.bits at)) len (end_of K.bit_width K.bits past))
        (IsBlock K.bit_width (number (K.bits at)) len (end_of K.bit_width K.bits past) → ⊥) }
{
    // The proof learns from it that the number is a key.
    let _ = at.is_key();
    is_at_most(at, at.keep(len)) && is_within(past_of(at, len), past)
}

/// Returns the address after the last one of the network of this length that begins at an address.
///
/// `None` is the end of all addresses.
pub(crate) fn past_of<K: Key>(at: K, len: u32) -> Option<K>
    requires { len ≤ K.bit_width }
    ensures key { IfSome result (λ k. K.IsKey k) }
    ensures end { number (K.bits at) + 2 ^ (K.bit_width - len) ≤ 2 ^ K.bit_width
        → end_of K.bit_width K.bits result ≡ number (K.bits at) + 2 ^ (K.bit_width - len) }
{
    if len == 0 {
        return None;
    }
    at.plus(K::power(K::width() - len))
}

/// Returns whether a range ends before another one or with it. `None` is the end of all addresses.
pub(crate) fn is_within<K: Key>(end: Option<K>, past: Option<K>) -> bool
    ensures order { MatchBool result
        (end_of K.bit_width K.bits end ≤ end_of K.bit_width K.bits past)
        (end_of K.bit_width K.bits past < end_of K.bit_width K.bits end) }
    ensures line { end_of K.bit_width K.bits end ≤ 2 ^ K.bit_width }
{
    match (end, past) {
        (Some(end), Some(past)) => end.is_key() && is_at_most(end, past),
        (Some(end), None) => end.is_key(),
        (None, Some(past)) => !past.is_key(),
        (None, None) => true,
    }
}

/// Returns the address after a network, or `None` if the range ends there.
pub(super) fn rest_after<K: Key>(at: K, len: u32, past: Option<K>) -> Option<K>
    requires within { len ≤ K.bit_width }
    requires block { IsBlock K.bit_width (number (K.bits at)) len (end_of K.bit_width K.bits past) }
    ensures { MatchOption result
        (end_of K.bit_width K.bits past ≡ number (K.bits at) + 2 ^ (K.bit_width - len))
        (λ k. (number (K.bits k) ≡ number (K.bits at) + 2 ^ (K.bit_width - len))
        × (number (K.bits k) < end_of K.bit_width K.bits past)) }
{
    // The proof learns from it that the number is a key.
    let _ = at.is_key();
    let next = past_of(at, len);
    if is_within(past, next) {
        return None;
    }
    next
}

/// Returns the first address from another one on at which a network of a length begins that ends before `past`.
pub(super) fn first_block<K: Key>(at: K, len: u32, past: Option<K>) -> Option<K>
    requires { len ≤ K.bit_width }
    ensures { MatchOption result
        ((n : ℕ) → number (K.bits at) ≤ n
        → IsBlock K.bit_width n len (end_of K.bit_width K.bits past) → ⊥)
        (λ k. K.IsKey k × (number (K.bits at) ≤ number (K.bits k))
        × IsBlock K.bit_width (number (K.bits k)) len (end_of K.bit_width K.bits past)
        × ((n : ℕ) → number (K.bits at) ≤ n
        → IsBlock K.bit_width n len (end_of K.bit_width K.bits past) → number (K.bits k) ≤ n)) }
{
    // The proof learns from it that the end is a key.
    let _ = is_end(past);
    let Some(first) = aligned_from(at, len) else {
        return None;
    };
    if is_block(first, len, past) {
        Some(first)
    } else {
        None
    }
}

/// Returns the first address from another one on at which a network of a length begins.
fn aligned_from<K: Key>(at: K, len: u32) -> Option<K>
    requires { len ≤ K.bit_width }
    ensures { MatchOption result
        ((n : ℕ) → number (K.bits at) ≤ n → IsBlock K.bit_width n len (2 ^ K.bit_width) → ⊥)
        (λ k. K.IsKey k × (number (K.bits at) ≤ number (K.bits k))
        × IsBlock K.bit_width (number (K.bits k)) len (number (K.bits k) + 2 ^ (K.bit_width - len))
        × ((n : ℕ) → number (K.bits at) ≤ n
        → IsBlock K.bit_width n len (2 ^ K.bit_width) → number (K.bits k) ≤ n)) }
{
    // The proof learns from it that the number is a key.
    let _ = at.is_key();
    let front = at.keep(len);
    if is_at_most(at, front) {
        return Some(front);
    }
    past_of(front, len)
}
