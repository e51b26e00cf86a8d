//! The bits of short strings in a node's two bitmaps, and ranks.
ghost use Rattle.std.specs.Prelude.{◌≡◌, ◌^◌, ◌<◌, ◌≤◌, List, Bool, true, false};
ghost use Rattle.prefix_trie_bits.specs.Model.Bits.{digits};
ghost use Rattle.prefix_trie_bits.specs.Bitmaps.{rank as rank_of};
ghost use Rattle.prefix_trie_bits.specs.Places.{has, value_bit, Sets};

/// Returns whether bit `k` of a bitmap is set.
#[inline]
pub fn has_bit(bitmap: u32, k: u32) -> bool
    requires { k < 32 }
    ensures { result ≡ has bitmap k }
{
    (bitmap >> k) & 1 == 1
}

/// Returns how many of the bits below bit `k` are set.
///
/// In the full bitmap of a node, this is the offset of the item of `k` in the node's block. A filtered bitmap gives
/// other ranks, which are no offsets.
// The bits from `k` on are shifted out: a mask takes one instruction more.
#[inline]
pub fn rank(bitmap: u32, k: u32) -> u32
    requires { k < 32 }
    ensures { result ≡ rank_of bitmap k }
{
    (bitmap << 1 << (31 - k)).count_ones()
}

/// Returns how many bits are set: the number of items in the node's block.
#[inline]
#[tactic(auto, using(crate::proofs::Ranks::count_ones_all))]
pub fn count(bitmap: u32) -> u32
    ensures { result ≡ rank_of bitmap 32 }
{
    bitmap.count_ones()
}

/// Returns the bitmap with bit `k` set, which was clear.
#[inline]
#[tactic(auto, using(crate::proofs::Ranks::set_bit_sets, crate::proofs::Ranks::set_bit_small))]
pub fn with_bit(bitmap: u32, k: u32) -> u32
    requires bit { k < 32 }
    requires clear { has bitmap k ≡ false }
    ensures sets { Sets bitmap k result }
    ensures small { bitmap < 2 ^ 31 → k < 31 → result < 2 ^ 31 }
{
    bitmap | 1 << k
}

/// Returns the bitmap with bit `k` cleared, which was set.
#[inline]
#[tactic(auto, using(crate::proofs::Ranks::clear_bit_sets, crate::proofs::Ranks::clear_bit_small))]
pub fn without_bit(bitmap: u32, k: u32) -> u32
    requires bit { k < 32 }
    requires set { has bitmap k ≡ true }
    ensures clears { Sets result k bitmap }
    ensures small { bitmap < 2 ^ 31 → result < 2 ^ 31 }
{
    bitmap & !(1 << k)
}

/// Returns the length and the number of the string that has a value bit, as `Key::extend` takes them.
///
/// For example, bit 28 is that of 1101: length 4, number 13.
#[inline]
pub fn string_of(bit: u32) -> (u32, u32)
    requires { bit < 31 }
    ensures short { result.0 ≤ 4 }
    ensures fits { result.1 < 2 ^ result.0 }
    ensures bit { value_bit (digits result.0 result.1) ≡ bit }
    ensures only { (s : List Bool) → value_bit s ≡ bit → s ≡ digits result.0 result.1 }
{
    let n = 31 - (bit + 1).leading_zeros();
    (n, bit + 1 - (1 << n))
}
