//! An index of a division by the first bits of addresses.
ghost use Rattle.std.specs.Prelude.{◌≡◌, ℕ, ◌+◌, ◌*◌, ◌-◌, ◌^◌, ◌<◌, ◌≤◌, IfOk, IfSome, IsTrue, OnOk, length};
ghost use Rattle.prefix_trie_bits.specs.Model.Bits.{number};
ghost use Rattle.prefix_trie_fib.specs.Index.{AreValued, Extends, HasParts, IsChunk, IsEntry, IsIndex, IsWhole};
ghost use Rattle.prefix_trie_fib.specs.Line.{IsDivision};
ghost use Rattle.prefix_trie_fib.specs.Search.{EndsBy, IsRangeOfNext, StartsBy};
ghost use Rattle.prefix_trie_fib.specs.Sizes.{AreIndexBits};

mod bitmap;
mod chunk;
mod first_bits;

use crate::ranges::{Line, is_at_most};
use bitmap::bitmap_of;
pub(crate) use chunk::Chunk;
pub(crate) use first_bits::{chunk_of, first_bits, part_of, sixteenth_of};
use prefix_trie_bits::prefix::Key;
use std::alloc::{AllocError, Allocator};

/// The most bits of an address that select a chunk.
const MOST_BITS: u32 = 20;

/// A chunk with more ranges is split.
const MOST_RANGES: usize = 12;

/// An entry for each chunk, and the entries of the parts of chunks that are split.
#[derive(Drop)]
pub(crate) struct Index<T: Copy, A: Allocator> {
    pub(crate) chunks: Vec<Chunk<T>, A>,
    pub(crate) parts: Vec<Chunk<T>, A>,
}

/// Returns the index of a division by the first `bits` bits.
///
/// Requires that there are fewer than 2^32 ranges.
pub(crate) fn index_of<K: Key, T: Copy, A: Allocator, B: Allocator>(
    line: &Line<K, T, A>,
    bits: u32,
    alloc: B,
    parts_alloc: B,
) -> Result<Index<T, B>, AllocError>
    requires division { IsDivision line.now }
    requires few { length line.now < 2 ^ 32 }
    requires some { 0 < bits }
    requires at_most { bits ≤ 20 }
    requires within { bits ≤ K.bit_width }
    ensures long { IfOk result (λ index. length index.chunks.items ≡ 2 ^ bits) }
    ensures right { IfOk result
        (λ index. IsIndex K.bit_width bits line.now index.chunks.items index.parts.items) }
    ensures few { IfOk result (λ index. length index.parts.items ≤ 2 * length line.now) }
{
    let step = K::power(K::width() - bits);
    let mut chunks = Vec::with_capacity(alloc, 1 << bits)?;
    let mut parts = Vec::new(parts_alloc);
    let mut first = 0;
    let mut low = Some(K::zero());
    while let Some(at) = low {
        let next = at.plus(step);
        first = line.range_from(first, at);
        let entry = entry_at(line, bits, first, at, next, &mut parts)?;
        chunks.push(entry)?;
        low = next;
    }
    parts.shrink_to_fit();
    Ok(Index { chunks, parts })
}

/// Returns the entry of the chunk from the address `low` up to the address `next`, or to the end of all addresses.
///
/// Its parts are appended if it is split.
fn entry_at<K: Key, T: Copy, A: Allocator, B: Allocator>(
    line: &Line<K, T, A>,
    bits: u32,
    first: usize,
    low: K,
    next: Option<K>,
    parts: &mut Vec<Chunk<T>, B>,
) -> Result<Chunk<T>, AllocError>
    requires division { IsDivision line.now }
    requires few { length line.now < 2 ^ 32 }
    requires within { bits ≤ K.bit_width }
    requires starts { StartsBy line.now first (number (K.bits low)) }
    requires up { IfSome next (λ k. number (K.bits low) ≤ number (K.bits k)) }
    requires line { number (K.bits low) + 2 ^ (K.bit_width - bits) ≤ 2 ^ K.bit_width }
    ensures kept { OnOk result (Extends parts.old.items parts.new.items) }
    ensures right { IfOk result (λ entry. (c : ℕ)
        → number (K.bits low) ≡ c * 2 ^ (K.bit_width - bits)
        → IfSome next (λ k. (c + 1) * 2 ^ (K.bit_width - bits) ≤ number (K.bits k))
        → IsEntry K.bit_width bits line.now parts.new.items c entry) }
    ensures few { OnOk result ((i : ℕ) → IsRangeOfNext K.bits line.now next i
        → length parts.new.items + 2 * first ≤ length parts.old.items + 2 * i) }
{
    let count = count_until(line, first, next);
    let entry = chunk_with(line, first, count, low, bits);
    let base = parts.len();
    match bits_of_part(count, bits, K::width()) {
        Some(more) if !matches!(entry, Chunk::Bitmap(_, _, _)) && base <= u32::MAX as usize => {
            push_parts(line, first, low, bits + more, 1 << more, parts)?;
            Ok(Chunk::Split(more as u16, base as u32))
        }
        _ => Ok(entry),
    }
}

/// Appends the entries of `count` chunks of `depth` bits, from the address `low` on.
fn push_parts<K: Key, T: Copy, A: Allocator, B: Allocator>(
    line: &Line<K, T, A>,
    first: usize,
    low: K,
    depth: u32,
    count: usize,
    parts: &mut Vec<Chunk<T>, B>,
) -> Result<(), AllocError>
    requires division { IsDivision line.now }
    requires few { length line.now < 2 ^ 32 }
    requires starts { StartsBy line.now first (number (K.bits low)) }
    requires some { 0 < depth }
    requires within { depth ≤ K.bit_width }
    requires fits { number (K.bits low) + count * 2 ^ (K.bit_width - depth) ≤ 2 ^ K.bit_width }
    ensures kept { OnOk result (Extends parts.old.items parts.new.items) }
    ensures long { OnOk result (length parts.new.items ≡ length parts.old.items + count) }
    ensures right { OnOk result
        ((c : ℕ) → number (K.bits low) ≡ c * 2 ^ (K.bit_width - depth)
        → HasParts K.bit_width depth line.now count parts.new.items (length parts.old.items) c) }
{
    let step = K::power(K::width() - depth);
    let mut from = first;
    let mut at = low;
    for part in 0..count {
        // The proof counts the parts by it.
        let _ = part;
        let next = at.plus(step);
        from = line.range_from(from, at);
        parts.push(chunk_at(line, from, at, next, depth))?;
        at = next.unwrap_or(at);
    }
    Ok(())
}

/// Returns the entry of the chunk of `depth` bits from the address `low` up to the address `next`, or to the end of all addresses.
///
/// It is not split.
fn chunk_at<K: Key, T: Copy, A: Allocator>(
    line: &Line<K, T, A>,
    first: usize,
    low: K,
    next: Option<K>,
    depth: u32,
) -> Chunk<T>
    requires division { IsDivision line.now }
    requires few { length line.now < 2 ^ 32 }
    requires starts { StartsBy line.now first (number (K.bits low)) }
    requires up { IfSome next (λ k. number (K.bits low) ≤ number (K.bits k)) }
    requires line { number (K.bits low) + 2 ^ (K.bit_width - depth) ≤ 2 ^ K.bit_width }
    ensures { (c : ℕ) → number (K.bits low) ≡ c * 2 ^ (K.bit_width - depth)
        → IfSome next (λ k. (c + 1) * 2 ^ (K.bit_width - depth) ≤ number (K.bits k))
        → IsChunk K.bit_width depth line.now c result }
{
    chunk_with(line, first, count_until(line, first, next), low, depth)
}

/// Returns the entry of the chunk of `depth` bits from the address `low` on, which has the `count` ranges from `first` on.
///
/// It is not split.
fn chunk_with<K: Key, T: Copy, A: Allocator>(
    line: &Line<K, T, A>,
    first: usize,
    count: usize,
    low: K,
    depth: u32,
) -> Chunk<T>
    requires division { IsDivision line.now }
    requires few { length line.now < 2 ^ 32 }
    requires within { first + count ≤ length line.now }
    requires starts { StartsBy line.now first (number (K.bits low)) }
    requires line { number (K.bits low) + 2 ^ (K.bit_width - depth) ≤ 2 ^ K.bit_width }
    ensures whole { IsWhole result }
    ensures right { (c : ℕ) → number (K.bits low) ≡ c * 2 ^ (K.bit_width - depth)
        → EndsBy line.now (first + count) ((c + 1) * 2 ^ (K.bit_width - depth))
        → IsChunk K.bit_width depth line.now c result }
{
    let alone = count <= 1;
    if alone {
        match line.value(first) {
            Some(value) => Chunk::Alone(true, value),
            None => Chunk::Alone(false, line.placeholder()),
        }
    } else if let Some((rest, starts)) = bitmap_of(line, first, count, low, depth) {
        Chunk::Bitmap(rest, starts, first as u32)
    } else if count > u16::MAX as usize {
        Chunk::Many(first as u32)
    } else if are_valued(line, first, count) {
        Chunk::Full(count as u16, first as u32)
    } else {
        Chunk::Several(count as u16, first as u32)
    }
}

/// Returns whether each of `count` ranges from `first` on has a value.
fn are_valued<K: Key, T: Copy, A: Allocator>(
    line: &Line<K, T, A>,
    first: usize,
    count: usize,
) -> bool
    requires { first + count ≤ length line.now }
    ensures { IsTrue result → AreValued line.now first count }
{
    // The proof learns from it that the number of ranges fits.
    let _ = line.len();
    for i in first..first + count {
        if line.value(i).is_none() {
            return false;
        }
    }
    true
}

/// Returns how many ranges from `first` on start before the address `next`, or how many there are.
fn count_until<K: Key, T: Copy, A: Allocator>(
    line: &Line<K, T, A>,
    first: usize,
    next: Option<K>,
) -> usize
    requires division { IsDivision line.now }
    requires inside { first < length line.now }
    requires starts { IfSome next (λ k. StartsBy line.now first (number (K.bits k))) }
    ensures inside { first + result ≤ length line.now }
    ensures above { (high : ℕ) → IfSome next (λ k. high ≤ number (K.bits k))
        → EndsBy line.now (first + result) high }
    ensures few { (i : ℕ) → IsRangeOfNext K.bits line.now next i → first + result ≤ i + 1 }
{
    let len = line.len();
    let Some(end) = next else {
        return len - first;
    };
    let last = line.range_from(first, end);
    if is_at_most(end, line.start(last)) {
        last - first
    } else {
        last - first + 1
    }
}

/// Returns how many more bits select a part of a chunk with so many ranges, if the chunk should be split.
///
/// Then the parts have about four ranges on average, or there are 16. The chunk is one of an index by `bits` bits.
fn bits_of_part(count: usize, bits: u32, width: u32) -> Option<u32>
    ensures { IfSome result (λ more. (0 < more) × (bits + more ≤ 30) × (bits + more ≤ width)
        × (2 ^ more + 2 ≤ 2 * count)) }
{
    let most = width.min(30).saturating_sub(bits);
    if count <= MOST_RANGES || most < 4 {
        return None;
    }
    let mut more = 4;
    while more < most && 4 << more < count {
        more += 1;
    }
    Some(more)
}

/// Returns how many bits the index of so many ranges reads: at most as many chunks as ranges, but at least 2^8.
pub(crate) fn index_bits(ranges: usize, width: u32) -> u32
    requires { 0 < width }
    ensures some { 0 < result }
    ensures right { AreIndexBits width ranges result }
{
    let mut bits = 8;
    while bits < MOST_BITS && 2 << bits <= ranges {
        bits += 1;
    }
    bits.min(width)
}
