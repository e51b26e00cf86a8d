//! The order of addresses, as numbers.
ghost use Rattle.std.specs.Prelude.{◌≡◌, ◌<◌, ◌≤◌, MatchBool};
ghost use Rattle.std.specs.Ordering.{nat_cmp};
ghost use Rattle.prefix_trie_bits.specs.Model.Bits.{number};

use prefix_trie_bits::laws::listing_laws;
use prefix_trie_bits::prefix::Key;
use std::cmp::Ordering;

/// Compares two addresses as numbers.
#[inline(always)]
pub(crate) fn order<K: Key>(a: K, b: K) -> Ordering
    ensures { result ≡ nat_cmp (number (K.bits a)) (number (K.bits b)) }
{
    listing_laws::<()>();
    let _ = a.is_key();
    let _ = b.is_key();
    a.compare(b)
}

/// Returns whether an address is at most another, as numbers.
#[inline(always)]
pub(crate) fn is_at_most<K: Key>(a: K, b: K) -> bool
    ensures { MatchBool result (number (K.bits a) ≤ number (K.bits b))
        (number (K.bits b) < number (K.bits a)) }
{
    order(a, b).is_le()
}
