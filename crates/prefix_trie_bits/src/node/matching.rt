//! What a bit string matches in one node: masks, and the longest and the shortest match.
ghost use Rattle.std.specs.Prelude.{◌≡◌, ◌^◌, ◌<◌, ◌≤◌, take, length, MatchOption};
ghost use Rattle.prefix_trie_bits.specs.Model.Bits.{digits, begins};
ghost use Rattle.prefix_trie_bits.specs.Places.{HoldsValues, HoldsChildren, IsLongest, IsShortest, NoneBegins};

use crate::node::masks::{child_cover_entry, match_entry, value_cover_entry};
use crate::prefix::{BitString, Key};

impl<K: Key> BitString<K> {
    /// Returns the value bits of the strings of at most four bits that begin the bit string.
    #[inline(always)]
    pub fn match_mask(&self) -> u32
        ensures { HoldsValues result (λ s. begins s self.now) }
    {
        let (level, pos) = self.table_place();
        match_entry(level, pos)
    }

    /// Returns the value bits of the strings that a string of at most four bits begins.
    #[inline(always)]
    pub fn value_cover_mask(&self) -> u32
        requires { length self.now < 5 }
        ensures { HoldsValues result (begins self.now) }
    {
        let (level, pos) = self.table_place();
        value_cover_entry(level, pos)
    }

    /// Returns the child bits of the strings that a string of at most four bits begins.
    #[inline(always)]
    pub fn child_cover_mask(&self) -> u32
        requires { length self.now < 5 }
        ensures { HoldsChildren result (begins self.now) }
    {
        let (level, pos) = self.table_place();
        child_cover_entry(level, pos)
    }

    /// Returns the value bit of the longest string in a bitmap that begins the bit string.
    // A longer string has a higher bit.
    #[inline(always)]
    pub fn longest_match(&self, bitmap: u32) -> Option<u32>
        requires { bitmap < 2 ^ 31 }
        ensures { MatchOption result (NoneBegins bitmap self.now) (IsLongest bitmap self.now) }
    {
        let matches = bitmap & self.match_mask();
        if matches == 0 {
            return None;
        }
        Some(31 - matches.leading_zeros())
    }

    /// Returns the value bit of the shortest string in a bitmap that begins the bit string.
    #[inline(always)]
    pub fn shortest_match(&self, bitmap: u32) -> Option<u32>
        requires { bitmap < 2 ^ 31 }
        ensures { MatchOption result (NoneBegins bitmap self.now) (IsShortest bitmap self.now) }
    {
        let matches = bitmap & self.match_mask();
        if matches == 0 {
            return None;
        }
        Some(matches.trailing_zeros())
    }

    // Returns the level and the number in the tables of masks: of the first four bits, where bits past the string are 0.
    #[inline(always)]
    fn table_place(&self) -> (u32, u32)
        ensures level { result.0 ≤ 4 }
        ensures pos { result.1 < 16 }
        ensures string { take result.0 (digits 4 result.1) ≡ take 4 self.now }
    {
        (self.len().min(4), self.key().window(0, 4))
    }
}
