//! A division of all addresses into ranges.
ghost use Rattle.std.specs.Prelude.{◌≡◌, ℕ, ◌<◌, ◌++◌, ◌∷◌, [], IfOk, Option, OnErr, OnOk, Some, is_some, length, slice_index_or, true};
ghost use Rattle.prefix_trie_bits.specs.Model.Bits.{number};

use super::marks::{has_mark, mark, reach};
use crate::copies::copy_of;
use prefix_trie_bits::prefix::Key;
use std::alloc::{AllocError, Allocator};
use std::marker::Model;

/// Ranges of addresses in order, each with its first address, and with a value or none.
///
/// A pair has no tag: a range without a value keeps `placeholder` in its place, and is marked in `gaps`.
#[derive(Drop)]
pub(crate) struct Line<K: Key, T: Copy, A: Allocator> {
    pairs: Vec<(K, T), A>,
    gaps: Vec<u32, A>,
    placeholder: T,
}

// a contract sees the first address of each range, as a number, and its value
impl<K: Key, T: Copy, A: Allocator> Model for Line<K, T, A> {
    ghost use Rattle.std.specs.Prelude.{List, ℕ, Option, length, map};
    ghost use Rattle.prefix_trie_bits.specs.Model.Bits.{number};
    ghost use Rattle.prefix_trie_fib.specs.Gaps.{AreMarks, is_marked, with_gaps};

    ghost Value = { List (ℕ × Option T) };

    ghost view = { λ line. with_gaps (is_marked line.gaps.items) 0
        (map (λ r. (number (K.bits r.0), r.1)) line.pairs.items) };

    ghost invariant = { λ line. AreMarks (length line.pairs.items) line.gaps.items };
}

impl<K: Key, T: Copy, A: Allocator> Line<K, T, A> {
    /// Creates a line with no range. Ranges without a value keep `placeholder` in its place.
    pub(crate) fn new(placeholder: T, alloc: A, gaps_alloc: A) -> Self
        ensures { result ≡ [] }
    {
        Line {
            pairs: Vec::new(alloc),
            gaps: Vec::new(gaps_alloc),
            placeholder,
        }
    }

    /// Appends a range.
    pub(crate) fn push(&mut self, start: K, value: Option<T>) -> Result<(), AllocError>
        ensures pushed { OnOk result (self.new ≡ self.old ++ (number (K.bits start), value) ∷ []) }
        ensures unchanged { OnErr result (self.new ≡ self.old) }
    {
        let place = self.pairs.len();
        reach(&mut self.gaps, place)?;
        self.pairs.push((start, value.unwrap_or(self.placeholder)))?;
        if value.is_none() {
            mark(&mut self.gaps, place);
        }
        Ok(())
    }

    /// Frees the capacity that no range takes.
    pub(crate) fn shrink_to_fit(&mut self)
        ensures { self.new ≡ self.old }
    {
        self.pairs.shrink_to_fit();
        self.gaps.shrink_to_fit();
    }

    /// Returns what ranges without a value keep in its place.
    pub(crate) fn placeholder(&self) -> T {
        self.placeholder
    }

    /// Returns the number of ranges.
    #[inline(always)]
    pub(crate) fn len(&self) -> usize
        ensures { result ≡ length self.now }
    {
        self.pairs.len()
    }

    /// Returns the first address of a range.
    ///
    /// Requires that `i` is below the number of ranges.
    #[inline(always)]
    pub(crate) fn start(&self, i: usize) -> K
        requires { i < length self.now }
        ensures { (d : ℕ × Option T) → number (K.bits result) ≡ (slice_index_or self.now i d).0 }
    {
        self.pairs[i].0
    }

    /// Returns the value of a range that has one.
    ///
    /// Requires that `i` is below the number of ranges, and that this range has a value.
    #[inline(always)]
    pub(crate) fn kept(&self, i: usize) -> T
        requires inside { i < length self.now }
        requires valued { (d : ℕ × Option T) → is_some (slice_index_or self.now i d).1 ≡ true }
        ensures { (d : ℕ × Option T) → Some result ≡ (slice_index_or self.now i d).1 }
    {
        self.pairs[i].1
    }

    /// Returns the value of a range.
    ///
    /// Requires that `i` is below the number of ranges.
    #[inline(always)]
    pub(crate) fn value(&self, i: usize) -> Option<T>
        requires { i < length self.now }
        ensures { (d : ℕ × Option T) → result ≡ (slice_index_or self.now i d).1 }
    {
        // Both are read at once, whatever the mark says.
        let value = self.pairs[i].1;
        (!has_mark(&self.gaps, i)).then_some(value)
    }
}

impl<K: Key, T: Copy, A: Allocator + Clone> Line<K, T, A> {
    /// Copies the ranges.
    pub(crate) fn clone(&self) -> Result<Self, AllocError>
        ensures { IfOk result (λ copy. copy ≡ self.now) }
    {
        let pairs = copy_of(&self.pairs)?;
        let gaps = copy_of(&self.gaps)?;
        Ok(Line {
            pairs,
            gaps,
            placeholder: self.placeholder,
        })
    }
}
