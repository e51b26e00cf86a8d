//! A division of all addresses with an index of it.
ghost use Rattle.std.specs.Prelude.{◌≡◌, ℕ, ◌^◌, ◌<◌, ◌≤◌, IfErr, IfOk, None, Option, length, slice_index_or};
ghost use Rattle.prefix_trie_bits.specs.Model.Bits.{number};
ghost use Rattle.prefix_trie_bits.specs.declared.prefix.Refusal.TheVariants.{IndexRange};
ghost use Rattle.prefix_trie_fib.specs.Index.{IsEntryAt, IsTop};
ghost use Rattle.prefix_trie_fib.specs.Line.{IsDivision, value_along};
ghost use Rattle.prefix_trie_fib.specs.Sizes.{AreSlots, IsIndexSize};

mod bulk;

use crate::copies::copy_of;
use crate::index::{Chunk, Index, chunk_of, index_bits, index_of, part_of};
use crate::ranges::Line;
pub(crate) use bulk::GROUP;
use prefix_trie_bits::prefix::{Key, Refusal};
use std::alloc::{AllocError, Allocator};
use std::marker::Model;

/// Ranges of addresses, found by the first bits of an address.
#[derive(Drop)]
pub(crate) struct Indexed<K: Key, T: Copy, A: Allocator> {
    line: Line<K, T, A>,
    index: Index<T, A>,
    /// How many of the first 30 bits of an address follow those that select its chunk.
    rest: u32,
}

// a contract sees the first address of each range, as a number, and its value
impl<K: Key, T: Copy, A: Allocator> Model for Indexed<K, T, A> {
    ghost use Rattle.std.specs.Prelude.{List, ℕ, ◌-◌, ◌≤◌, Option};
    ghost use Rattle.prefix_trie_fib.specs.Compiled.{IsCompiled};

    ghost Value = { List (ℕ × Option T) };

    ghost view = { λ indexed. indexed.line };

    ghost invariant = { λ indexed. (indexed.rest ≤ 30)
        × IsCompiled K.bit_width indexed.line indexed.index.chunks.items
        indexed.index.parts.items (30 - indexed.rest) };
}

impl<K: Key, T: Copy, A: Allocator> Indexed<K, T, A> {
    /// Creates the index of a division.
    ///
    /// # Errors
    ///
    /// Returns `Memory` if an allocation fails, and `IndexRange` if there are 2^32 ranges or more.
    pub(crate) fn new(mut line: Line<K, T, A>, alloc: A, parts_alloc: A) -> Result<Self, Refusal>
        requires { IsDivision line }
        ensures same { IfOk result (λ indexed. indexed ≡ line) }
        ensures few { IfOk result (λ indexed. length indexed < 2 ^ 32) }
        ensures too_many { IfErr result (λ cause. cause ≡ IndexRange → 2 ^ 32 ≤ length line) }
    {
        line.shrink_to_fit();
        if line.len() > u32::MAX as usize {
            return Err(Refusal::IndexRange);
        }
        let bits = index_bits(line.len(), K::width());
        let Ok(index) = index_of(&line, bits, alloc, parts_alloc) else {
            return Err(Refusal::Memory);
        };
        let rest = 30 - bits;
        Ok(Indexed { line, index, rest })
    }

    /// Returns the number of ranges.
    pub(crate) fn len(&self) -> usize
        ensures { result ≡ length self.now }
    {
        self.line.len()
    }

    /// Returns the first address of a range.
    ///
    /// Requires that `i` is below the number of ranges.
    pub(crate) fn start(&self, i: usize) -> K
        requires { i < length self.now }
        ensures { (d : ℕ × Option T) → number (K.bits result) ≡ (slice_index_or self.now i d).0 }
    {
        self.line.start(i)
    }

    /// Returns the value of a range.
    ///
    /// Requires that `i` is below the number of ranges.
    pub(crate) fn value(&self, i: usize) -> Option<T>
        requires { i < length self.now }
        ensures { (d : ℕ × Option T) → result ≡ (slice_index_or self.now i d).1 }
    {
        self.line.value(i)
    }

    /// Returns the number of chunks of the index.
    pub(crate) fn chunks(&self) -> usize
        ensures { IsIndexSize K.bit_width self.now result }
    {
        self.index.chunks.len()
    }

    /// Returns the number of ranges, chunks and parts of chunks.
    pub(crate) fn slots(&self) -> usize
        ensures { AreSlots K.bit_width self.now result }
    {
        self.line.len() + self.index.chunks.len() + self.index.parts.len()
    }

    /// Returns the value of the range of an address, whose first 30 bits have the number `top`.
    #[inline(always)]
    pub(crate) fn lookup(&self, top: u32, address: K) -> Option<T>
        requires { IsTop top (K.bits address) }
        ensures { result ≡ value_along None self.now (number (K.bits address)) }
    {
        self.chunk(top, address).value(&self.line, top, address)
    }

    /// Returns the entry of an address: that of its chunk, or of its part of the chunk if the chunk is split.
    ///
    /// It is lent, since the compiler would pack a copy of it into a word, and unpack it again.
    #[inline(always)]
    fn chunk(&self, top: u32, address: K) -> &Chunk<T>
        requires { IsTop top (K.bits address) }
        ensures { IsEntryAt self.now (K.bits address) result.now }
    {
        let _ = address.is_key();
        let entry = &self.index.chunks[chunk_of(top, self.rest)];
        match entry.parts() {
            Some((more, base)) => {
                &self.index.parts[base as usize + part_of(top, self.rest, more)]
            }
            None => entry,
        }
    }
}

impl<K: Key, T: Copy, A: Allocator + Clone> Indexed<K, T, A> {
    /// Copies the ranges and the index.
    pub(crate) fn clone(&self) -> Result<Self, AllocError>
        ensures { IfOk result (λ copy. copy ≡ self.now) }
    {
        let line = self.line.clone()?;
        let chunks = copy_of(&self.index.chunks)?;
        let parts = copy_of(&self.index.parts)?;
        let index = Index { chunks, parts };
        Ok(Indexed {
            line,
            index,
            rest: self.rest,
        })
    }
}
