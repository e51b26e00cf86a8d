//! The parts of an address that select a slot at each level.
ghost use Rattle.std.specs.Prelude.{◌≡◌, ℕ, ◌+◌, ◌*◌, ◌%◌, ◌^◌, ◌<◌, ◌≤◌, ◌++◌, take, drop};
ghost use Rattle.std.proofs.Common.{suc};
ghost use Rattle.prefix_trie_bits.specs.Model.Bits.{number, zeros};
ghost use Rattle.prefix_trie_forwarding.specs.Keys.{first_of};
ghost use Rattle.prefix_trie_forwarding.specs.Walks.{slot_in, upper};

use super::find::GROUP;
use prefix_trie_bits::prefix::Key;

/// Returns the number of the first `root_bits` bits of an address, which selects its first slot.
#[inline(always)]
pub(super) fn root_index<K: Key>(address: K, root_bits: u32) -> usize
    requires few { root_bits ≤ 24 }
    requires within { root_bits ≤ K.bit_width }
    ensures { (levels : ℕ) → K.bit_width ≤ root_bits + 8 * levels
        → result ≡ upper levels (first_of (root_bits + 8 * levels) (K.bits address)) }
{
    // The proof learns from it that the number is a key.
    let _ = address.is_key();
    let first = with_byte(0, address, 0);
    let second = with_byte(first, address, 8);
    let third = with_byte(second, address, 16);
    (third >> (24 - root_bits)) as usize
}

/// Returns the number of the first `depth + 8` bits of an address, from that of the first `depth`. Bits past the end are 0.
#[inline(always)]
fn with_byte<K: Key>(upper: u32, address: K, depth: u32) -> u32
    requires few { depth ≤ 16 }
    requires upper { upper ≡ number (take depth (K.bits address ++ zeros 24)) }
    ensures { result ≡ number (take (depth + 8) (K.bits address ++ zeros 24)) }
{
    // The proof learns from it that the number is a key.
    let _ = address.is_key();
    let next = if depth <= K::width() {
        byte_at(address, depth)
    } else {
        0
    };
    upper * 256 + next
}

/// Returns the number of the eight bits of an address from `depth` on. Bits past the end are 0.
#[inline(always)]
pub(super) fn byte_at<K: Key>(address: K, depth: u32) -> u32
    requires { depth ≤ K.bit_width }
    ensures byte { result ≡ number (take 8 (drop depth (K.bits address) ++ zeros 8)) }
    ensures small { result < 256 }
    ensures part { (w k : ℕ) → K.bit_width ≤ w → w ≡ depth + 8 * suc k
        → result ≡ upper k (first_of w (K.bits address)) % 256 }
{
    // The proof learns from it that the number is a key.
    let _ = address.is_key();
    first_byte(address.behind(depth))
}

/// Returns the number of the first eight bits of a key. Bits past the end are 0.
#[inline(always)]
pub(super) fn first_byte<K: Key>(key: K) -> u32
    ensures byte { result ≡ number (take 8 (K.bits key ++ zeros 8)) }
    ensures small { result < 256 }
{
    // The proof learns from it that the number is a key.
    let _ = key.is_key();
    let half = 4;
    let upper = key.window(0, half);
    let lower = if half <= K::width() {
        key.window(half, half)
    } else {
        0
    };
    upper * 16 + lower
}

/// Returns the slot that a byte selects in the group that `slot` refers to.
#[inline(always)]
pub(super) fn next_slot(root_bits: u32, slot: u32, byte: u32) -> usize
    requires few { root_bits ≤ 24 }
    requires small { byte < 256 }
    requires group { 2147483648 ≤ slot }
    ensures { (q : ℕ) → byte ≡ q % 256 → result ≡ slot_in (2 ^ root_bits) slot q }
{
    power(root_bits) + 256 * (slot - GROUP) as usize + byte as usize
}

/// Returns a power of two, as the number of slots of a root by so many bits.
#[inline(always)]
pub(super) fn power(bits: u32) -> usize
    requires { bits ≤ 24 }
    ensures { result ≡ 2 ^ bits }
{
    1 << bits
}
