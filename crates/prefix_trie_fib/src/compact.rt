//! Indexed ranges in the layout that a lookup reads fastest.
ghost use Rattle.std.specs.Prelude.{◌≡◌, ℕ, ◌^◌, ◌<◌, ◌≤◌, ◌∷◌, [], IfErr, IfOk, None, Option, length, slice_index_or};
ghost use Rattle.prefix_trie_bits.specs.Model.Bits.{number};
ghost use Rattle.prefix_trie_bits.specs.declared.prefix.Refusal.TheVariants.{IndexRange};
ghost use Rattle.prefix_trie_fib.specs.Line.{IsDivision, value_along};
ghost use Rattle.prefix_trie_fib.specs.Sizes.{AreSlots, IsIndexSize};

mod bulk;
mod halves;
mod lookups;
mod upper_line;

use crate::index::first_bits;
use crate::indexed::Indexed;
use crate::ranges::Line;
use halves::from_upper;
use lookups::value_by_upper;
use prefix_trie_bits::prefix::{Key, Refusal};
use std::alloc::{AllocError, Allocator};
use std::marker::Model;
use upper_line::upper_line;

/// Ranges with an index, by whole addresses or by the upper 64 bits of addresses.
#[derive(Drop)]
enum Layout<K: Key, T: Copy, A: Allocator> {
    /// One range without a value.
    Empty,
    /// The first address of each range.
    Whole(Indexed<K, T, A>),
    /// The upper 64 bits of the first address of each range. All other bits of these addresses are 0.
    Upper(Indexed<u64, T, A>),
}

/// Ranges of addresses with an index, which keep only the upper 64 bits of first addresses if the others are 0.
#[derive(Drop)]
pub(crate) struct Compact<K: Key, T: Copy, A: Allocator> {
    layout: Layout<K, T, A>,
}

// a contract sees the first address of each range, as a number, and its value
impl<K: Key, T: Copy, A: Allocator> Model for Compact<K, T, A> {
    ghost use Rattle.std.specs.Prelude.{List, ℕ, Option};
    ghost use Rattle.prefix_trie_fib.specs.Layouts.{HasUpperHalf, ranges_in};

    ghost Value = { List (ℕ × Option T) };

    ghost view = { λ compact. ranges_in K.bit_width compact.layout };

    ghost invariant = { λ compact. HasUpperHalf K.bit_width compact.layout };
}

impl<K: Key, T: Copy, A: Allocator> Compact<K, T, A> {
    /// Returns the ranges of a line where no address has a value.
    pub(crate) fn empty() -> Self
        ensures { result ≡ (0, None) ∷ [] }
    {
        Compact {
            layout: Layout::Empty,
        }
    }

    /// Returns the number of ranges.
    pub(crate) fn len(&self) -> usize
        ensures { result ≡ length self.now }
    {
        match &self.layout {
            Layout::Empty => 1,
            Layout::Whole(indexed) => indexed.len(),
            Layout::Upper(indexed) => indexed.len(),
        }
    }

    /// Returns the first address of a range.
    ///
    /// Requires that `i` is below the number of ranges.
    pub(crate) fn start(&self, i: usize) -> K
        requires { i < length self.now }
        ensures { (d : ℕ × Option T) → number (K.bits result) ≡ (slice_index_or self.now i d).0 }
    {
        match &self.layout {
            Layout::Empty => K::zero(),
            Layout::Whole(indexed) => indexed.start(i),
            Layout::Upper(indexed) => from_upper(indexed.start(i)),
        }
    }

    /// Returns the value of a range.
    ///
    /// Requires that `i` is below the number of ranges.
    pub(crate) fn value(&self, i: usize) -> Option<T>
        requires { i < length self.now }
        ensures { (d : ℕ × Option T) → result ≡ (slice_index_or self.now i d).1 }
    {
        match &self.layout {
            Layout::Empty => None,
            Layout::Whole(indexed) => indexed.value(i),
            Layout::Upper(indexed) => indexed.value(i),
        }
    }

    /// Returns the number of chunks of the index.
    pub(crate) fn chunks(&self) -> usize
        ensures { IsIndexSize K.bit_width self.now result }
    {
        match &self.layout {
            Layout::Empty => 0,
            Layout::Whole(indexed) => indexed.chunks(),
            Layout::Upper(indexed) => indexed.chunks(),
        }
    }

    /// Returns the number of ranges and of entries of the index.
    pub(crate) fn slots(&self) -> usize
        ensures { AreSlots K.bit_width self.now result }
    {
        match &self.layout {
            Layout::Empty => 1,
            Layout::Whole(indexed) => indexed.slots(),
            Layout::Upper(indexed) => indexed.slots(),
        }
    }

    /// Returns the value of the range of an address.
    #[inline(always)]
    pub(crate) fn lookup(&self, address: K) -> Option<T>
        ensures { result ≡ value_along None self.now (number (K.bits address)) }
    {
        match &self.layout {
            Layout::Whole(indexed) if K::width() <= 64 => {
                indexed.lookup(first_bits(address), address)
            }
            Layout::Upper(indexed) if K::width() >= 64 => value_by_upper(indexed, address),
            _ => self.lookup_rare(address),
        }
    }

    /// Does the same out of line, for the layouts that tables of a width rarely have.
    #[inline(never)]
    fn lookup_rare(&self, address: K) -> Option<T>
        ensures { result ≡ value_along None self.now (number (K.bits address)) }
    {
        match &self.layout {
            Layout::Empty => None,
            Layout::Whole(indexed) => indexed.lookup(first_bits(address), address),
            Layout::Upper(indexed) => value_by_upper(indexed, address),
        }
    }
}

impl<K: Key, T: Copy, A: Allocator + Clone> Compact<K, T, A> {
    /// Creates the index of a division.
    ///
    /// # Errors
    ///
    /// Returns `Memory` if an allocation fails, and `IndexRange` if there are 2^32 ranges or more.
    pub(crate) fn new(line: Line<K, T, A>, alloc: A) -> Result<Self, Refusal>
        requires { IsDivision line }
        ensures same { IfOk result (λ compact. compact ≡ line) }
        ensures few { IfOk result (λ compact. length compact < 2 ^ 32) }
        ensures too_many { IfErr result (λ cause. cause ≡ IndexRange → 2 ^ 32 ≤ length line) }
    {
        let first = alloc.clone()?;
        let second = alloc.clone()?;
        let Ok(upper) = upper_line(&line, first) else {
            return Err(Refusal::Memory);
        };
        let layout = match upper {
            Some(upper) => Layout::Upper(Indexed::new(upper, second, alloc)?),
            None => Layout::Whole(Indexed::new(line, second, alloc)?),
        };
        Ok(Compact { layout })
    }

    /// Copies the ranges and the index.
    pub(crate) fn clone(&self) -> Result<Self, AllocError>
        ensures { IfOk result (λ copy. copy ≡ self.now) }
    {
        let layout = match &self.layout {
            Layout::Empty => Layout::Empty,
            Layout::Whole(indexed) => Layout::Whole(indexed.clone()?),
            Layout::Upper(indexed) => Layout::Upper(indexed.clone()?),
        };
        Ok(Compact { layout })
    }
}
