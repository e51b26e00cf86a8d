//! One node of the tree: two bitmaps, with a bit for each short string below the node's path.
//!
//! A node holds a value for each set value bit (strings of 0 to 4 bits) and a child for each set
//! child bit (strings of 5 bits), both in blocks in the order of the bits. So a set bit's place in
//! its block is its rank, what matches a key is a mask, and the listing order of the places is a
//! fixed table.
ghost use Rattle.std.specs.Prelude.{◌≡◌, ◌^◌, ◌<◌, ◌≤◌, ◌↔◌, List, Bool, length, filter, not, true, [], MatchOption, Contains};
ghost use Rattle.std.specs.List.Sorted.{IsStrictlySortedBy};
ghost use Rattle.prefix_trie_bits.specs.Model.Bits.{begins};
ghost use Rattle.prefix_trie_bits.specs.Model.Order.{listing_cmp};
ghost use Rattle.prefix_trie_bits.specs.Places.{is_in, places, value_bit, TakesPlace};

mod bits;
mod masks;
mod matching;
mod order;

pub use bits::{count, has_bit, rank, string_of, with_bit, without_bit};
pub use order::{after_child, from_value};
use order::{not_below, place_at, position_of};

/// A place of a node: a value bit, 0 to 30, or a child bit, 0 to 31.
#[derive(Clone, Copy, PartialEq, Eq, Debug)]
pub enum Place {
    Value(u32),
    Child(u32),
}

/// The places of one node that a walk has still to give.
///
/// It is copied with the walk. It has one bit for each place, in listing order, and not the bitmaps of the node. So
/// each step takes the same time however many places there are.
#[derive(Clone, Copy)]
pub struct Places {
    listing: u64,
    ghost within: { listing < 2 ^ 63 },
}

impl Default for Places {
    ghost use Rattle.prefix_trie_bits.specs.Walks.{to_come};

    ghost is_default = { λ p. to_come p ≡ [] };

    /// Returns no places.
    #[inline]
    fn default() -> Places {
        Places { listing: 0 }
    }
}

impl Places {
    ghost use Rattle.prefix_trie_bits.specs.Walks.{to_come};

    /// Returns the places of the set bits of a value bitmap and a child bitmap.
    ///
    /// To select among a node's places, pass masked bitmaps, as `values & from`.
    #[inline]
    pub fn new(values: u32, children: u32) -> Places
        requires { values < 2 ^ 31 }
        ensures places { to_come result ≡ places values children }
        ensures each { (s : List Bool)
            → Contains (to_come result) s ↔ ((length s ≤ 5) × (is_in values children s ≡ true)) }
        ensures sorted { IsStrictlySortedBy listing_cmp (to_come result) }
    {
        let mut rest = (values as u64) << 1 | (children as u64) << 32;
        let mut listing: u64 = 0;
        while rest != 0 {
            listing |= 1 << position_of(rest.trailing_zeros());
            rest &= rest - 1;
        }
        Places { listing }
    }

    /// Removes the first place in listing order and returns it. Returns `None` if none is left.
    #[inline]
    pub fn next_place(&mut self) -> Option<Place>
        ensures place { MatchOption result
            ((to_come self.old ≡ []) × (to_come self.new ≡ []))
            (TakesPlace (to_come self.old) (to_come self.new)) }
        ensures sorted { IsStrictlySortedBy listing_cmp (to_come self.old) }
    {
        if self.listing == 0 {
            return None;
        }
        let first = self.listing.trailing_zeros();
        self.listing &= self.listing - 1;
        Some(place_at(first))
    }
    /// Drops the places that the string of a value bit begins, its own among them.
    ///
    /// For example, bit 29 is that of 1110, which begins the bit itself and the child bits 28 and 29.
    ///
    /// # Examples
    ///
    /// ```rust
    /// let mut places = Places::new(1 << 29 | 1 << 30, 1 << 29 | 1 << 31);
    /// places.skip_below(29);
    /// places.next_place();    // Some(Value(30))
    /// places.next_place();    // Some(Child(31))
    /// ```
    #[inline]
    pub fn skip_below(&mut self, bit: u32)
        requires { bit < 31 }
        ensures { (t : List Bool) → length t ≤ 4 → value_bit t ≡ bit
            → to_come self.new ≡ filter (λ s. not (begins t s)) (to_come self.old) }
    {
        self.listing &= not_below(bit);
    }
}
