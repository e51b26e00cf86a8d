//! A table of longest matches that is compiled from a map.
ghost use Rattle.std.specs.Prelude.{◌≡◌, ℕ, ◌+◌, ◌^◌, ◌<◌, ◌≤◌, ◌↔◌, ◌∷◌, [], IfErr, IfOk, IsTrue, MatchOption, None, Option, length, slice_index_or};
ghost use Rattle.prefix_trie_bits.specs.Model.Bits.{number};
ghost use Rattle.prefix_trie_bits.specs.declared.prefix.Refusal.TheVariants.{IndexRange};
ghost use Rattle.prefix_trie_fib.specs.Line.{end_of, value_along};
ghost use Rattle.prefix_trie_fib.specs.Sizes.{AreSlots, IsIndexSize};
ghost use Rattle.prefix_trie_fib.specs.Tables.{HasLongTable, IsTableOf};

mod addresses;
mod bulk;
mod equality;
mod fmt;
mod last_address;
mod walk;

use crate::compact::Compact;
use crate::ranges::{ranges_of, some_value};
use prefix_trie_bits::prefix::{Key, Prefix, Refusal};
use prefix_trie_map::map::PrefixMap;
use std::alloc::{AllocError, Allocator};
use std::marker::Model;
pub use walk::Ranges;

/// The longest match of each address in a map, as ranges of addresses.
///
/// A lookup reads an index by the first bits of the address. An entry has the value of the address, or says which range it
/// is in, or which few ranges have to be searched. First addresses are kept as 64 bits if no other bit of them is 1, as in
/// most tables of IPv6 routes.
///
/// The table does not change when the map does. After changes of the map, compile it again and replace the table:
/// `fib = Fib::new(&map, alloc)?`. This takes about as long as building the map, or less, however little changed. Until
/// it returns, the old table can be used.
///
/// # Examples
///
/// ```rust
/// // map = {10.0.0.0/8: 1, 10.1.0.0/16: 2}
/// let fib = Fib::new(&map, alloc)?;
/// fib.lookup(0x0a010203);     // Some(2)
/// fib.lookup(0x0b000000);     // None
/// ```
#[derive(Drop)]
pub struct Fib<P: Prefix, T: Copy + PartialEq, A: Allocator> {
    ranges: Compact<P::R, T, A>,
}

// a contract sees the first address of each range, as a number, and its value
impl<P: Prefix, T: Copy + PartialEq, A: Allocator> Model for Fib<P, T, A> {
    ghost use Rattle.std.specs.Prelude.{List, ℕ, Option};
    ghost use Rattle.prefix_trie_fib.specs.Line.{AreMerged, IsDivision, are_same};

    ghost Value = { List (ℕ × Option T) };

    ghost view = { λ fib. fib.ranges };

    ghost invariant = { λ fib. IsDivision fib.ranges
        × AreMerged (are_same T.PartialEq.eq) fib.ranges };
}

impl<P: Prefix, T: Copy + PartialEq, A: Allocator + Clone> Fib<P, T, A> {
    /// Compiles a map.
    ///
    /// The time is that of a walk over the map and of one along the ranges. Neighbours with equal values become one range,
    /// which has the first of these values. Maps with the same entries have the same table, if a value equals itself and
    /// no other. See `fib_laws`.
    ///
    /// # Errors
    ///
    /// Returns `Memory` if an allocation fails, and `IndexRange` if the table would have 2^32 ranges or more. No table
    /// exists then. If only the attempt to free spare memory fails, the table keeps that memory.
    ///
    /// # Examples
    ///
    /// ```rust
    /// // map = {10.0.0.0/8: 1, 10.1.0.0/16: 2}
    /// Fib::new(&map, alloc)?.len();   // 5: up to 10.0.0.0, two around 10.1.0.0/16, that one, and from 11.0.0.0 on
    /// ```
    pub fn new<M: Allocator>(map: &PrefixMap<P, T, M>, alloc: A) -> Result<Self, Refusal>
        ensures table { IfOk result
            (λ fib. IsTableOf P.R.bit_width T.PartialEq.eq map.now.entries fib) }
        ensures few { IfOk result (λ fib. length fib < 2 ^ 32) }
        ensures too_many { IfErr result (λ cause. cause ≡ IndexRange
            → HasLongTable P.R.bit_width T.PartialEq.eq map.now.entries) }
    {
        let ranges = compact_of(map, alloc)?;
        Ok(Fib { ranges })
    }

    /// Copies the table, in memory of its own.
    ///
    /// # Errors
    ///
    /// Returns an error if an allocation fails. No copy exists then.
    ///
    /// # Examples
    ///
    /// ```rust
    /// // map = {10.0.0.0/8: 1}
    /// Fib::new(&map, alloc)?.clone()?.len();      // 3
    /// ```
    pub fn clone(&self) -> Result<Self, AllocError>
        ensures { IfOk result (λ copy. copy ≡ self.now) }
    {
        let ranges = self.ranges.clone()?;
        Ok(Fib { ranges })
    }
}

/// Returns the ranges of a map with an index.
fn compact_of<P: Prefix, T: Copy + PartialEq, M: Allocator, A: Allocator + Clone>(
    map: &PrefixMap<P, T, M>,
    alloc: A,
) -> Result<Compact<P::R, T, A>, Refusal>
    ensures table { IfOk result
        (λ ranges. IsTableOf P.R.bit_width T.PartialEq.eq map.now.entries ranges) }
    ensures few { IfOk result (λ ranges. length ranges < 2 ^ 32) }
    ensures too_many { IfErr result (λ cause. cause ≡ IndexRange
        → HasLongTable P.R.bit_width T.PartialEq.eq map.now.entries) }
{
    let Some(placeholder) = some_value(map) else {
        return Ok(Compact::empty());
    };
    let first = alloc.clone()?;
    let Ok(line) = ranges_of(map, placeholder, first) else {
        return Err(Refusal::Memory);
    };
    Compact::new(line, alloc)
}

impl<P: Prefix, T: Copy + PartialEq, A: Allocator> Fib<P, T, A> {
    /// Returns the value of the longest match of an address.
    ///
    /// # Examples
    ///
    /// ```rust
    /// // map = {10.0.0.0/8: 1, 10.1.0.0/16: 2}
    /// Fib::new(&map, alloc)?.lookup(0x0a020304);      // Some(1)
    /// ```
    #[inline(always)]
    pub fn lookup(&self, address: P::R) -> Option<T>
        ensures { result ≡ value_along None self.now (number (P.R.bits address)) }
    {
        self.ranges.lookup(address)
    }

    /// Returns the number of ranges, with those that have no value.
    ///
    /// # Examples
    ///
    /// ```rust
    /// // map = {10.0.0.0/8: 1}
    /// Fib::new(&map, alloc)?.len();       // 3
    /// ```
    pub fn len(&self) -> usize
        ensures { result ≡ length self.now }
    {
        self.ranges.len()
    }

    /// Returns whether no address has a value.
    ///
    /// # Examples
    ///
    /// ```rust
    /// // map = {}
    /// Fib::new(&map, alloc)?.is_empty();  // true
    /// ```
    pub fn is_empty(&self) -> bool
        ensures { IsTrue result ↔ (self.now ≡ (0, None) ∷ []) }
    {
        self.ranges.len() == 1 && self.ranges.value(0).is_none()
    }

    /// Returns a range: its first address, the address after its last one, and its value.
    ///
    /// The second is `None` if the range ends at the last address. Ranges are in order, and each begins where the one
    /// before it ends. Requires that `i` is below the number of ranges. `ranges` walks over those with a value.
    ///
    /// # Examples
    ///
    /// ```rust
    /// // map = {10.0.0.0/8: 1}
    /// Fib::new(&map, alloc)?.range(1);    // (167772160, Some(184549376), Some(1)): from 10.0.0.0 up to 11.0.0.0
    /// ```
    pub fn range(&self, i: usize) -> (P::R, Option<P::R>, Option<T>)
        requires { i < length self.now }
        ensures first { (d : ℕ × Option T)
            → number (P.R.bits result.0) ≡ (slice_index_or self.now i d).0 }
        ensures past { MatchOption result.1 (i + 1 ≡ length self.now)
            (λ past. (i + 1 < length self.now)
            × ((d : ℕ × Option T)
            → number (P.R.bits past) ≡ (slice_index_or self.now (i + 1) d).0)) }
        ensures value { (d : ℕ × Option T) → result.2 ≡ (slice_index_or self.now i d).1 }
        ensures some { number (P.R.bits result.0) < end_of P.R.bit_width P.R.bits result.1 }
    {
        let len = self.ranges.len();
        let first = self.ranges.start(i);
        // The proof learns from it that the number is a key.
        let _ = first.is_key();
        let past = if i + 1 < len {
            Some(self.ranges.start(i + 1))
        } else {
            None
        };
        (first, past, self.ranges.value(i))
    }

    /// Returns the number of chunks that the index cuts all addresses into.
    ///
    /// This is the largest power of two that is at most the number of ranges, but at least 2^8, and at most 2^20 and the
    /// number of addresses. The table of an empty map has no chunk.
    ///
    /// Each has an entry of the size of a value and a tag. A chunk with more than 12 ranges has more entries, unless its
    /// ranges start at its sixteenths: 16, or a power of two that is at most half the number of its ranges.
    ///
    /// # Examples
    ///
    /// ```rust
    /// // map = {10.0.0.0/8: 1}
    /// Fib::new(&map, alloc)?.index_slots();   // 256
    /// ```
    pub fn index_slots(&self) -> usize
        ensures few { result ≤ 2 ^ 20 }
        ensures size { IsIndexSize P.R.bit_width self.now result }
    {
        self.ranges.chunks()
    }

    /// Returns the number of slots that the table stores: one for each range, and one for each entry of its index.
    ///
    /// The slot of a range has the size of an address and a value, and one bit more. In a table of IPv6 networks of at
    /// most 64 bits the address takes 8 bytes. An entry of the index is that of a chunk or of a part of a chunk. It has
    /// the size of a value and a tag, and at least 8 bytes. There are at most two parts of chunks for each range.
    ///
    /// # Examples
    ///
    /// ```rust
    /// // map = {10.0.0.0/8: 1}
    /// Fib::new(&map, alloc)?.slots();         // 259: 3 ranges, and an index of 256 chunks
    /// ```
    pub fn slots(&self) -> usize
        ensures ranges { length self.now ≤ result }
        ensures slots { AreSlots P.R.bit_width self.now result }
    {
        self.ranges.slots()
    }
}
