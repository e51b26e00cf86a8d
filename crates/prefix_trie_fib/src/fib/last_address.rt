//! The last address of a range.
ghost use Rattle.std.specs.Prelude.{◌≡◌, ◌+◌, ◌^◌, ◌<◌, ◌≤◌, ◌⊎◌};
ghost use Rattle.prefix_trie_bits.specs.Model.Bits.{number};
ghost use Rattle.prefix_trie_fib.specs.Line.{end_of};

use crate::ranges::is_within;
use prefix_trie_bits::prefix::Key;

/// Returns the last address of a range that begins at `first` and ends before `past`.
///
/// `None` is the end of all addresses. The search takes a step for each bit of an address.
pub(super) fn last_address<K: Key>(first: K, past: Option<K>) -> K
    requires { number (K.bits first) < end_of K.bit_width K.bits past }
    ensures { number (K.bits result) + 1 ≡ end_of K.bit_width K.bits past }
{
    // The proof learns from it that the range ends by the end of all addresses.
    let _ = is_within(past, None);
    let mut last = first;
    let mut exponent = K::width();
    while exponent > 0 {
        exponent -= 1;
        last = further(last, exponent, past);
    }
    last
}

/// Returns the address that is 2^`exponent` after another one, or that one itself if the range ends by then.
fn further<K: Key>(at: K, exponent: u32, past: Option<K>) -> K
    requires exponent { exponent < K.bit_width }
    requires line { end_of K.bit_width K.bits past ≤ 2 ^ K.bit_width }
    requires inside { number (K.bits at) < end_of K.bit_width K.bits past }
    ensures inside { number (K.bits result) < end_of K.bit_width K.bits past }
    ensures step { (number (K.bits result) ≡ number (K.bits at) + 2 ^ exponent)
        ⊎ ((number (K.bits result) ≡ number (K.bits at))
        × (end_of K.bit_width K.bits past ≤ number (K.bits at) + 2 ^ exponent)) }
{
    let Some(next) = at.plus(K::power(exponent)) else {
        return at;
    };
    if is_within(past, Some(next)) {
        return at;
    }
    next
}
