//! Where networks and ranges end.
ghost use Rattle.std.specs.Prelude.{◌≡◌, ◌^◌, ◌<◌, ◌≤◌, MatchOption};
ghost use Rattle.std.specs.Bool.{MatchBool};
ghost use Rattle.prefix_trie_bits.specs.Model.Bits.{number};
ghost use Rattle.prefix_trie_fib.specs.Line.{end_of, first_address, past_address};

use super::search::is_at_most;
use prefix_trie_bits::prefix::{Key, Prefix};

/// Returns the first address of a network, and the address after its last one if there is one.
pub(super) fn ends_of<P: Prefix>(prefix: &P) -> (P::R, Option<P::R>)
    requires { P.IsFitting prefix.now }
    ensures first { number (P.R.bits result.0)
        ≡ first_address P.R.bit_width (P.path prefix.now) }
    ensures past { MatchOption result.1
        (2 ^ P.R.bit_width ≤ past_address P.R.bit_width (P.path prefix.now))
        (λ past. number (P.R.bits past) ≡ past_address P.R.bit_width (P.path prefix.now)) }
{
    let first = prefix.mask();
    let len = u32::from(prefix.prefix_len());
    let past = if len == 0 {
        None
    } else {
        first.plus(P::R::power(P::R::width() - len))
    };
    (first, past)
}

/// Returns whether a range ends before another one or with it. `None` is the end of all addresses.
pub(crate) fn is_within<K: Key>(end: Option<K>, past: Option<K>) -> bool
    ensures order { MatchBool result
        (end_of K.bit_width K.bits end ≤ end_of K.bit_width K.bits past)
        (end_of K.bit_width K.bits past < end_of K.bit_width K.bits end) }
    ensures line { end_of K.bit_width K.bits end ≤ 2 ^ K.bit_width }
{
    match (end, past) {
        (Some(end), Some(past)) => end.is_key() && is_at_most(end, past),
        (Some(end), None) => end.is_key(),
        (None, Some(past)) => !past.is_key(),
        (None, None) => true,
    }
}
