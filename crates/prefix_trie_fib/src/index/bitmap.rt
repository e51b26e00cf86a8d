//! Chunks with ranges that start where a sixteenth of the chunk does: a bit for each sixteenth says whether one starts there.
//!
//! So an address needs no search. The bits up to its sixteenth are counted, as the bits of a node in a tree bitmap.
ghost use Rattle.std.specs.Prelude.{◌≡◌, ℕ, ◌+◌, ◌*◌, ◌-◌, ◌^◌, ◌<◌, ◌≤◌, IfSome, IsTrue, length};
ghost use Rattle.prefix_trie_bits.specs.Model.Bits.{number};
ghost use Rattle.prefix_trie_bits.specs.Bitmaps.{rank as rank_of};
ghost use Rattle.prefix_trie_fib.specs.declared.index.chunk.Chunk.TheVariants.{Bitmap};
ghost use Rattle.prefix_trie_fib.specs.Index.{IsChunk};
ghost use Rattle.prefix_trie_fib.specs.Line.{IsDivision};
ghost use Rattle.prefix_trie_fib.specs.Search.{IsRangeOf};

use super::{count_until, first_bits, sixteenth_of};
use crate::ranges::{Line, is_at_most};
use prefix_trie_bits::node::rank;
use prefix_trie_bits::prefix::Key;
use std::alloc::Allocator;

/// Returns the bitmap of the chunk of `depth` bits from the address `low` on, which has the `count` ranges from `first` on.
///
/// The number before it says how many of the first 30 bits of an address follow those that select its sixteenth. Returns
/// `None` if one of the ranges after the first starts elsewhere than a sixteenth.
pub(super) fn bitmap_of<K: Key, T: Copy, A: Allocator>(
    line: &Line<K, T, A>,
    first: usize,
    count: usize,
    low: K,
    depth: u32,
) -> Option<(u8, u16)>
    requires division { IsDivision line.now }
    requires few { length line.now < 2 ^ 32 }
    requires within { first + count ≤ length line.now }
    requires line { number (K.bits low) + 2 ^ (K.bit_width - depth) ≤ 2 ^ K.bit_width }
    ensures { IfSome result (λ bitmap. (c : ℕ)
        → number (K.bits low) ≡ c * 2 ^ (K.bit_width - depth)
        → IsChunk K.bit_width depth line.now c (Bitmap bitmap.0 bitmap.1 first)) }
{
    if depth > 26 || depth + 4 > K::width() {
        return None;
    }
    let rest = 26 - depth;
    let starts = starts_in(line, first, count, rest);
    let step = K::power(K::width() - (depth + 4));
    if are_starts(line, starts, first, low, step) {
        Some((rest as u8, starts))
    } else {
        None
    }
}

/// Returns the bits of the sixteenths that the ranges after the first one start in.
fn starts_in<K: Key, T: Copy, A: Allocator>(
    line: &Line<K, T, A>,
    first: usize,
    count: usize,
    rest: u32,
) -> u16
    requires few { length line.now < 2 ^ 32 }
    requires inside { first + count ≤ length line.now }
    requires rest { rest ≤ 26 }
{
    let mut starts = 0;
    for i in first + 1..first + count {
        starts |= 1 << sixteenth_of(first_bits(line.start(i)), rest);
    }
    starts
}

/// Returns whether the range of each address from `low` on is the one that the bits up to its sixteenth give.
///
/// A sixteenth has `step` addresses.
fn are_starts<K: Key, T: Copy, A: Allocator>(
    line: &Line<K, T, A>,
    starts: u16,
    first: usize,
    low: K,
    step: K,
) -> bool
    requires division { IsDivision line.now }
    requires few { length line.now < 2 ^ 32 }
    requires inside { first < 2 ^ 32 }
    requires some { 0 < number (K.bits step) }
    requires fits { number (K.bits low) + 16 * number (K.bits step) ≤ 2 ^ K.bit_width }
    ensures { IsTrue result → (p n : ℕ) → p < 16
        → number (K.bits low) + p * number (K.bits step) ≤ n
        → n < number (K.bits low) + (p + 1) * number (K.bits step)
        → IsRangeOf line.now (first + rank_of starts (p + 1)) n }
{
    let mut at = low;
    for place in 0..16 {
        let next = at.plus(step);
        let range = first + rank(u32::from(starts), place + 1) as usize;
        if !is_alone(line, range, at, next) {
            return false;
        }
        at = next.unwrap_or(at);
    }
    true
}

/// Returns whether each address from `at` up to the address `next`, or to the end of all addresses, is in a range.
fn is_alone<K: Key, T: Copy, A: Allocator>(
    line: &Line<K, T, A>,
    range: usize,
    at: K,
    next: Option<K>,
) -> bool
    requires division { IsDivision line.now }
    requires up { IfSome next (λ k. number (K.bits at) ≤ number (K.bits k)) }
    ensures { IsTrue result → (n : ℕ) → number (K.bits at) ≤ n
        → IfSome next (λ k. n < number (K.bits k)) → IsRangeOf line.now range n }
{
    if range >= line.len() {
        return false;
    }
    let starts = is_at_most(line.start(range), at);
    starts && count_until(line, range, next) <= 1
}
