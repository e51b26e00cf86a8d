//! What a lookup reads first: the entry of a chunk of addresses.
ghost use Rattle.std.specs.Prelude.{◌≡◌, ◌+◌, ◌/◌, ◌%◌, ◌^◌, ◌≤◌, MatchOption, None, false};
ghost use Rattle.prefix_trie_bits.specs.Bitmaps.{rank as rank_of};
ghost use Rattle.prefix_trie_bits.specs.Model.Bits.{number};
ghost use Rattle.prefix_trie_fib.specs.Bulk.{is_alone, value_alone};
ghost use Rattle.prefix_trie_fib.specs.Index.{IsEntryAt, IsTop, IsWhole};
ghost use Rattle.prefix_trie_fib.specs.declared.index.chunk.Chunk.TheVariants.{Split};
ghost use Rattle.prefix_trie_fib.specs.Line.{IsDivision, value_along};
ghost use Rattle.prefix_trie_fib.specs.Search.{IsRangeOf};

use super::sixteenth_of;
use crate::ranges::Line;
use prefix_trie_bits::node::rank;
use prefix_trie_bits::prefix::Key;
use std::alloc::Allocator;

/// Which ranges a chunk of addresses has.
#[derive(Clone, Copy)]
pub(crate) enum Chunk<T> {
    // The first of these has the tag 0, so an array of `Many(0)` is one of zeros, which is made fastest.
    /// More ranges than a `u16` counts, from this one on.
    Many(u32),
    /// So many ranges, from this one on.
    Several(u16, u32),
    /// So many ranges, from this one on, each with a value.
    Full(u16, u32),
    /// One range: whether it has a value, and this value.
    Alone(bool, T),
    /// Ranges from this one on, of which all but the first start where a sixteenth of the chunk does.
    ///
    /// So many of the first 30 bits of an address follow those that select its sixteenth. A bit for each sixteenth says
    /// whether a range starts there.
    Bitmap(u8, u16, u32),
    /// The chunk is split by so many more bits, and the entries of its parts begin at this place.
    Split(u16, u32),
}

/// Returns the range of an address: `first`, or one more for each bit up to that of the sixteenth of the address.
#[inline(always)]
fn range_by_bitmap(rest: u8, starts: u16, first: u32, top: u32) -> usize
    requires { rest ≤ 26 }
    ensures { result ≡ first + rank_of starts (top / 2 ^ rest % 16 + 1) }
{
    let place = sixteenth_of(top, u32::from(rest));
    first as usize + rank(u32::from(starts), place + 1) as usize
}

impl<T: Copy> Chunk<T> {
    /// Returns by how many more bits the chunk is split and the place of the entries of its parts, if it is split.
    #[inline(always)]
    pub(crate) fn parts(self) -> Option<(u32, u32)>
        ensures { MatchOption result (IsWhole self) (λ parts. self ≡ Split parts.0 parts.1) }
    {
        match self {
            Chunk::Split(more, base) => Some((u32::from(more), base)),
            Chunk::Alone(_, _)
            | Chunk::Bitmap(_, _, _)
            | Chunk::Full(_, _)
            | Chunk::Several(_, _)
            | Chunk::Many(_) => None,
        }
    }

    /// Returns whether the chunk has one range.
    #[inline(always)]
    pub(crate) fn is_alone(self) -> bool
        ensures { result ≡ is_alone self }
    {
        matches!(self, Chunk::Alone(_, _))
    }

    /// Returns the value of the chunk if it has one range, and this range has a value.
    ///
    /// `placeholder` is any value. With it, the function compiles to selects, and no branch waits for the entry.
    #[inline(always)]
    pub(crate) fn alone(self, placeholder: T) -> Option<T>
        ensures { result ≡ value_alone self }
    {
        let (valued, value) = match self {
            Chunk::Alone(valued, value) => (valued, value),
            Chunk::Bitmap(_, _, _)
            | Chunk::Full(_, _)
            | Chunk::Several(_, _)
            | Chunk::Many(_)
            | Chunk::Split(_, _) => (false, placeholder),
        };
        valued.then_some(value)
    }

    /// Returns the number of the range of an address in the chunk.
    ///
    /// Requires that the chunk has several ranges and is not split, and that `top` is the number of the first 30 bits of
    /// the address.
    #[inline(always)]
    pub(crate) fn range<K: Key, A: Allocator>(
        self,
        line: &Line<K, T, A>,
        top: u32,
        address: K,
    ) -> usize
        requires division { IsDivision line.now }
        requires top { IsTop top (K.bits address) }
        requires several { is_alone self ≡ false }
        requires right { IsEntryAt line.now (K.bits address) self }
        ensures { IsRangeOf line.now result (number (K.bits address)) }
    {
        match self {
            Chunk::Bitmap(rest, starts, first) => range_by_bitmap(rest, starts, first, top),
            Chunk::Full(count, first) | Chunk::Several(count, first) => {
                line.range_among(first as usize, count as usize, address)
            }
            Chunk::Many(first) => line.range_in_rest(first as usize, address),
            Chunk::Alone(_, _) | Chunk::Split(_, _) => unreachable!(),
        }
    }

    /// Returns the value of an address in the chunk.
    ///
    /// Requires that the chunk is not split, and that `top` is the number of the first 30 bits of the address.
    #[inline(always)]
    pub(crate) fn value<K: Key, A: Allocator>(
        self,
        line: &Line<K, T, A>,
        top: u32,
        address: K,
    ) -> Option<T>
        requires division { IsDivision line.now }
        requires top { IsTop top (K.bits address) }
        requires right { IsEntryAt line.now (K.bits address) self }
        ensures { result ≡ value_along None line.now (number (K.bits address)) }
    {
        match self {
            Chunk::Alone(true, value) => Some(value),
            // No mark is read.
            Chunk::Full(count, first) => {
                Some(line.kept(line.range_among(first as usize, count as usize, address)))
            }
            Chunk::Bitmap(_, _, _) | Chunk::Several(_, _) | Chunk::Many(_) => {
                line.value(self.range(line, top, address))
            }
            Chunk::Alone(false, _) | Chunk::Split(_, _) => None,
        }
    }
}
