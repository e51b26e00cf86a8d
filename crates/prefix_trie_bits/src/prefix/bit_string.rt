//! Bit strings as one value: the first bits of a key.
ghost use Rattle.std.specs.Prelude.{◌≡◌, ◌<◌, ◌≤◌, take, drop, length};
ghost use Rattle.prefix_trie_bits.specs.Model.Bits.{number};
ghost use Rattle.prefix_trie_bits.specs.Places.{value_bit as value_bit_in};

use crate::prefix::Key;
use std::marker::Model;

/// A bit string: the first `len` bits of a key. Contracts see the list of its bits.
///
/// The later bits of the key do not matter.
///
/// # Examples
///
/// ```rust
/// BitString::new(0xd4000000_u32, 6).len();    // 6: the bits are 110101
/// ```
#[derive(Drop)]
pub struct BitString<K: Key> {
    key: K,
    len: u32,
}

impl<K: Key> Model for BitString<K> {
    ghost use Rattle.std.specs.Prelude.{List, Bool, take, ◌≤◌};

    ghost Value = { List Bool };

    ghost view = { λ s. take s.len (K.bits s.key) };

    ghost invariant = { λ s. K.IsKey s.key × (s.len ≤ K.bit_width) };
}

impl<K: Key> BitString<K> {
    /// Returns the first `len` bits of a key.
    ///
    /// # Examples
    ///
    /// ```rust
    /// BitString::new(0xd4000000_u32, 6).child_bit();      // 26: the first five bits are 11010
    /// ```
    #[inline(always)]
    pub fn new(key: K, len: u32) -> Self
        requires key { K.IsKey key }
        requires within { len ≤ K.bit_width }
        ensures { result ≡ take len (K.bits key) }
    {
        BitString { key, len }
    }

    /// Returns a copy.
    // A derived `Clone` would owe that a clone of a key is a key.
    #[inline(always)]
    pub fn copy(&self) -> Self
        ensures { result ≡ self.now }
    {
        BitString {
            key: self.key,
            len: self.len,
        }
    }

    /// Returns the first `n` bits.
    #[inline(always)]
    pub fn first(&self, n: u32) -> Self
        requires { n ≤ length self.now }
        ensures { result ≡ take n self.now }
    {
        BitString {
            key: self.key,
            len: n,
        }
    }

    /// Returns a key that begins with the bit string.
    #[inline(always)]
    pub fn key(&self) -> K
        ensures key { K.IsKey result }
        ensures bits { take (length self.now) (K.bits result) ≡ self.now }
        ensures within { length self.now ≤ K.bit_width }
    {
        // Needed only for the proof: a key has as many bits as its type says.
        let _ = self.key.is_key();
        self.key
    }

    /// Returns the number of bits, at most 128.
    #[inline(always)]
    pub fn len(&self) -> u32
        ensures len { result ≡ length self.now }
        ensures within { result ≤ K.bit_width }
        ensures short { result ≤ 128 }
    {
        // Needed only for the proof: a key has as many bits as its type says.
        let _ = self.key.is_key();
        self.len
    }

    /// Returns the number of the first five bits: the child bit of the next node on the search path.
    #[inline(always)]
    pub fn child_bit(&self) -> u32
        requires { 5 ≤ length self.now }
        ensures value { result ≡ number (take 5 self.now) }
        ensures small { result < 32 }
    {
        self.key.window(0, 5)
    }

    /// Returns the bits after the first five.
    // It shifts by the same number of bits at each level, so no shift depends on the depth.
    #[inline(always)]
    pub fn after_five(self) -> Self
        requires { 5 ≤ length self }
        ensures { result ≡ drop 5 self }
    {
        BitString {
            key: self.key.behind(5),
            len: self.len - 5,
        }
    }

    /// Returns the bits after the first `n`.
    #[inline(always)]
    pub fn after(&self, n: u32) -> Self
        requires { n ≤ length self.now }
        ensures { result ≡ drop n self.now }
    {
        BitString {
            key: self.key.behind(n),
            len: self.len - n,
        }
    }

    /// Returns the value bit, 0 to 30, of a string of at most four bits.
    ///
    /// A string of n bits has the value bit 2^n - 1 + its number.
    #[inline(always)]
    pub fn value_bit(&self) -> u32
        requires { length self.now < 5 }
        ensures value { result ≡ value_bit_in self.now }
        ensures small { result < 31 }
    {
        // A 1 and the bits, without those past the string, is one more than the value bit.
        let five = self.key.window(0, 5);
        ((32 + five) >> (5 - self.len)) - 1
    }
}
