//! The address before another one.
ghost use Rattle.std.specs.Prelude.{◌≡◌, ◌+◌, ◌-◌, ◌^◌, ◌<◌, ◌≤◌, ◌++◌, take};
ghost use Rattle.prefix_trie_bits.specs.Model.Bits.{number, zeros};

use crate::order::order;
use prefix_trie_bits::prefix::Key;

/// Returns the address before another one.
///
/// Requires that the address is not 0.
pub(crate) fn before<K: Key>(address: K) -> K
    requires { 0 < number (K.bits address) }
    ensures { number (K.bits result) + 1 ≡ number (K.bits address) }
{
    // The proof learns from it that the number is a key.
    let _ = address.is_key();
    let mut depth = K::width();
    let mut front = address.keep(depth - 1);
    while order(front, address).is_eq() {
        depth -= 1;
        front = address.keep(depth - 1);
    }
    filled(front, depth)
}

/// Returns the first `depth` bits of a key, and then ones.
///
/// Requires that the other bits of the key are 0.
pub(crate) fn filled<K: Key>(key: K, depth: u32) -> K
    requires within { depth ≤ K.bit_width }
    requires zeros { K.bits key ≡ take depth (K.bits key) ++ zeros (K.bit_width - depth) }
    ensures { number (K.bits result) + 1 ≡ number (K.bits key) + 2 ^ (K.bit_width - depth) }
{
    // The proof learns from it that the number is a key.
    let _ = key.is_key();
    let width = K::width();
    let mut last = key;
    let mut done = depth;
    while done < width {
        let n = (width - done).min(5);
        last = last.extend(done, n, (1 << n) - 1);
        done += n;
    }
    last
}
