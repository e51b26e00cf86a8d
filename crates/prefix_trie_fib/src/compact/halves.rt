//! Addresses and their upper 64 bits.
ghost use Rattle.std.specs.Prelude.{◌≡◌, ◌-◌, ◌*◌, ◌^◌, ◌<◌, ◌≤◌, IsTrue, take};
ghost use Rattle.prefix_trie_bits.specs.Model.Bits.{number};

use crate::index::first_bits;
use prefix_trie_bits::prefix::Key;

/// Returns the number of the first 64 bits of an address.
///
/// The compiler makes one shift of it.
#[inline(always)]
pub(super) fn upper_half<K: Key>(address: K) -> u64
    requires { 64 ≤ K.bit_width }
    ensures { result ≡ number (take 64 (K.bits address)) }
{
    let _ = address.is_key();
    let first = u64::from(first_bits(address));
    let second = u64::from(first_bits(address.behind(30)));
    let third = u64::from(address.window(60, 4));
    (first * 0x4000_0000 + second) * 16 + third
}

/// Returns the address that begins with these 64 bits. Its other bits are 0.
pub(super) fn from_upper<K: Key>(half: u64) -> K
    requires { 64 ≤ K.bit_width }
    ensures { number (K.bits result) ≡ half * 2 ^ (K.bit_width - 64) }
{
    let mut key = K::zero();
    for i in 0..16_u32 {
        key = key.extend(4 * i, 4, half.window(4 * i, 4));
    }
    key
}

/// Returns whether all bits of an address after the first 64 are 0.
pub(super) fn is_upper<K: Key>(address: K) -> bool
    requires { 64 < K.bit_width }
    ensures { IsTrue result
        → number (K.bits address) ≡ number (take 64 (K.bits address)) * 2 ^ (K.bit_width - 64) }
{
    address.keep(64) == address
}
