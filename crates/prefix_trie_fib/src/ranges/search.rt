//! The search for the range of an address.
ghost use Rattle.std.specs.Prelude.{◌-◌, ◌/◌, ◌<◌, ◌≤◌};
ghost use Rattle.std.specs.Bool.{MatchBool};
ghost use Rattle.prefix_trie_bits.specs.Model.Bits.{number};
ghost use Rattle.prefix_trie_fib.specs.Line.{IsDivision};
ghost use Rattle.prefix_trie_fib.specs.Search.{IsAmong, IsRangeOf, StartsBy};

use super::Line;
use prefix_trie_bits::laws::listing_laws;
use prefix_trie_bits::prefix::Key;
use std::alloc::Allocator;

/// The most ranges that `range_among_few` searches.
const FEW: usize = 16;

/// Returns whether a key is at most another, as numbers.
#[inline(always)]
pub(crate) fn is_at_most<K: Key>(a: K, b: K) -> bool
    ensures { MatchBool result (number (K.bits a) ≤ number (K.bits b))
        (number (K.bits b) < number (K.bits a)) }
{
    listing_laws::<()>();
    let _ = a.is_key();
    let _ = b.is_key();
    a.compare(b).is_le()
}

impl<K: Key, T: Copy, A: Allocator> Line<K, T, A> {
    /// Returns the range of an address: the last one that starts at the address or before it.
    ///
    /// Requires that the range `first` starts at the address or before it. It reads one range after the other from
    /// there on, so a walk from address to address reads each range once.
    #[inline]
    pub(crate) fn range_from(&self, first: usize, address: K) -> usize
        requires division { IsDivision self.now }
        requires by { StartsBy self.now first (number (K.bits address)) }
        ensures { IsRangeOf self.now result (number (K.bits address)) }
    {
        let len = self.len();
        let mut past = first + 1;
        while past < len && is_at_most(self.start(past), address) {
            past += 1;
        }
        past - 1
    }

    /// Returns the range of an address, which is one of the `count` ranges from `first` on.
    #[inline(always)]
    pub(crate) fn range_among(&self, first: usize, count: usize, address: K) -> usize
        requires division { IsDivision self.now }
        requires among { IsAmong self.now first count (number (K.bits address)) }
        ensures { IsRangeOf self.now result (number (K.bits address)) }
    {
        let mut base = first;
        let mut size = count;
        while size > FEW {
            base = self.half(base, size, address);
            size -= size / 2;
        }
        self.range_among_few(base, size, address)
    }

    /// Returns the range of an address, which is one of those from `first` on.
    ///
    /// Requires that the range `first` starts at the address or before it.
    #[inline(always)]
    pub(crate) fn range_in_rest(&self, first: usize, address: K) -> usize
        requires division { IsDivision self.now }
        requires by { StartsBy self.now first (number (K.bits address)) }
        ensures { IsRangeOf self.now result (number (K.bits address)) }
    {
        self.range_among(first, self.len() - first, address)
    }

    /// Returns the range of an address, which is one of at most 16.
    ///
    /// Its steps are written out, because the compiler makes a branch of a step in a loop, which the processor guesses
    /// wrong half the time. The last step is left out where three are enough, as for most chunks.
    #[inline(always)]
    fn range_among_few(&self, first: usize, count: usize, address: K) -> usize
        requires division { IsDivision self.now }
        requires few { count ≤ 16 }
        requires among { IsAmong self.now first count (number (K.bits address)) }
        ensures { IsRangeOf self.now result (number (K.bits address)) }
    {
        let second = self.half(first, count, address);
        let half = count - count / 2;
        let third = self.half(second, half, address);
        let quarter = half - half / 2;
        let fourth = self.half(third, quarter, address);
        if count <= 8 {
            return fourth;
        }
        self.half(fourth, quarter - quarter / 2, address)
    }

    /// Returns where the half of `count` ranges begins that has the range of an address. The first half may have one more.
    #[inline(always)]
    fn half(&self, first: usize, count: usize, address: K) -> usize
        requires division { IsDivision self.now }
        requires among { IsAmong self.now first count (number (K.bits address)) }
        ensures { IsAmong self.now result (count - count / 2) (number (K.bits address)) }
    {
        // The proof learns from it that the number of ranges fits.
        let _ = self.len();
        let middle = first + count / 2;
        if is_at_most(self.start(middle), address) {
            middle
        } else {
            first
        }
    }
}
