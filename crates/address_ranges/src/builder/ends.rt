//! The ends of ranges and networks.
ghost use Rattle.std.specs.Prelude.{◌≡◌, ◌+◌};
ghost use Rattle.prefix_trie_bits.specs.Model.Bits.{number};
ghost use Rattle.address_ranges.specs.Appends.{end_of};
ghost use Rattle.address_ranges.specs.Networks.{first_address, past_address};

use crate::networks::past_of;
use prefix_trie_bits::prefix::{Key, Prefix};

/// Returns the address after another one, or `None` if that is the last one.
pub(crate) fn after<K: Key>(last: K) -> Option<K>
    ensures { end_of K.bit_width K.bits result ≡ number (K.bits last) + 1 }
{
    // The proof learns from it that the number is a key.
    let _ = last.is_key();
    past_of(last, K::width())
}

/// Returns the first address of a network, and the address after its last one if there is one.
pub(crate) fn ends_of<P: Prefix>(network: &P) -> (P::R, Option<P::R>)
    requires { P.IsFitting network.now }
    ensures first { number (P.R.bits result.0)
        ≡ first_address P.R.bit_width (P.path network.now) }
    ensures past { end_of P.R.bit_width P.R.bits result.1
        ≡ past_address P.R.bit_width (P.path network.now) }
{
    let first = network.mask();
    (first, past_of(first, u32::from(network.prefix_len())))
}
