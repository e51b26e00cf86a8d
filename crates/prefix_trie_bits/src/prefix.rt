//! Keys and prefixes as strings of bits: numbers, pairs of a number and a length, and IP networks.
ghost use Rattle.std.specs.Prelude.{◌≡◌, ℕ, ◌+◌, ◌-◌, ◌^◌, ◌<◌, ◌≤◌, ◌++◌, List, Bool, length, take, drop, IsTrue, MatchOption, true, ◌↔◌};
ghost use Rattle.prefix_trie_bits.specs.Model.Keys.{KeyLaws, PrefixLaws};
ghost use Rattle.prefix_trie_bits.specs.Model.Bits.{number, digits, zeros, begins};
ghost use Rattle.prefix_trie_bits.specs.Model.Order.{listing_cmp};

use std::cmp::Ordering;
use std::fmt::Debug;

mod bit_string;
mod decimal;
mod narrow;
mod networks;
mod numbers;
mod pair;
mod refusals;

pub use bit_string::BitString;
pub use narrow::{Narrow, ParseNarrowError};
pub use networks::{Ipv4Prefix, Ipv4Subnets, Ipv6Prefix, Ipv6Subnets, ParseNetworkError};

/// A number that is read as a string of bits, the most significant first.
///
/// Laws: all keys of a type have the same number of bits, from 1 to 128, and every string of that many bits belongs to
/// exactly one key. For `u8`, `u16`, `u32`, `u64`, `u128` and `usize` (64 bits), every number is a key. For
/// `Narrow<W>`, every number below `2^width` is a key. Keys that are `==` are the same.
///
/// `behind`, `power` and `compare` have bodies here, which a type may replace. The bodies of `behind` and `compare`
/// read five bits at a time.
///
/// # Examples
///
/// ```rust
/// let key = 0xd4adbeef_u32;               // the bits 1101 0100 1010 1101 ..
/// key.window(5, 5);                       // 18: the bits 10010
/// key.keep(6) == 0xd4000000;              // true
/// key.extend(6, 2, 1) == 0xd5000000;      // true
/// key.behind(8) == 0xadbeef00;            // true
/// ```
pub trait Key: Copy + Eq + Debug {
    // how many bits a key has
    ghost bit_width: { ℕ };

    // which values are keys
    ghost IsKey: { Self → Type 0 };

    // a key's bits
    ghost bits: { Self → List Bool };

    // the key with these bits
    ghost key_of: { List Bool → Self };

    /// Returns the number of bits of every key.
    fn width() -> u32
        ensures { result ≡ bit_width };

    /// Returns the key whose bits are all 0.
    fn zero() -> Self
        ensures key { IsKey result }
        ensures value { bits result ≡ zeros bit_width };

    /// Returns true. Its contract tells a caller's proof that this value is a key.
    fn is_key(self) -> bool
        ensures key { IsKey self }
        ensures value { IsTrue result };

    /// Returns the number of the `n` bits from `depth` on, where bits past the end read as 0.
    ///
    /// Requires that `depth` is at most the width and `n` at most 5.
    fn window(self, depth: u32, n: u32) -> u32
        requires start { depth ≤ bit_width }
        requires few { n ≤ 5 }
        ensures { result ≡ number (take n (drop depth (bits self ++ zeros 5))) };

    /// Returns the first `len` bits, and then zeros.
    ///
    /// Requires that `len` is at most the width.
    fn keep(self, len: u32) -> Self
        requires { len ≤ bit_width }
        ensures key { IsKey result }
        ensures value { bits result ≡ take len (bits self) ++ zeros (bit_width - len) };

    /// Returns the first `depth` bits, then the `n` bits of the number `tail`, and then zeros.
    ///
    /// Requires that `n` is at most 5, that `depth + n` is at most the width, and that `tail` is below `2^n`.
    fn extend(self, depth: u32, n: u32, tail: u32) -> Self
        requires few { n ≤ 5 }
        requires within { depth + n ≤ bit_width }
        requires fits { tail < 2 ^ n }
        ensures key { IsKey result }
        ensures value { bits result
            ≡ take depth (bits self) ++ digits n tail ++ zeros (bit_width - (depth + n)) };

    /// Returns the bits after the first `n`, and then zeros.
    ///
    /// Requires that `n` is at most the width.
    #[inline]
    fn behind(self, n: u32) -> Self
        requires { n ≤ bit_width }
        ensures key { IsKey result }
        ensures value { bits result ≡ drop n (bits self) ++ zeros n }
    {
        // The proof learns from it that the number is a key.
        let _ = self.is_key();
        let width = Self::width();
        let mut rest = Self::zero();
        let mut depth = 0;
        while n + depth < width {
            let len = (width - (n + depth)).min(5);
            rest = rest.extend(depth, len, self.window(n + depth, len));
            depth += len;
        }
        rest
    }

    /// Returns the key whose number is `2^k`.
    ///
    /// Requires that `k` is below the width.
    ///
    /// # Examples
    ///
    /// ```rust
    /// u8::power(3);       // 8: as many strings of 8 bits begin with a given one of 5
    /// ```
    #[inline]
    fn power(k: u32) -> Self
        requires { k < bit_width }
        ensures key { IsKey result }
        ensures value { number (bits result) ≡ 2 ^ k }
    {
        Self::zero().extend(Self::width() - 1 - k, 1, 1)
    }

    /// Returns the key whose number is the sum of the two, or `None` if the sum is `2^width` or more.
    ///
    /// # Examples
    ///
    /// ```rust
    /// 1_u8.plus(2);           // Some(3)
    /// 128_u8.plus(128);       // None
    /// ```
    fn plus(self, other: Self) -> Option<Self>
        ensures { MatchOption result (2 ^ bit_width ≤ number (bits self) + number (bits other))
            (λ sum. IsKey sum × (number (bits sum) ≡ number (bits self) + number (bits other))) };

    /// Compares two keys in listing order: the first bit in which they differ decides, and 0 comes before 1.
    ///
    /// So keys compare as their numbers. Prefixes without host bits are in listing order if their numbers are compared
    /// first and, if these are equal, their lengths (`by_filled` of `listing_laws`).
    ///
    /// # Examples
    ///
    /// ```rust
    /// 0b0100_0000_u8.compare(0b0110_0000);    // Less
    /// ```
    #[inline]
    fn compare(self, other: Self) -> Ordering
        ensures { result ≡ listing_cmp (bits self) (bits other) }
    {
        // The proof learns from these calls that the numbers are keys.
        let _ = self.is_key();
        let _ = other.is_key();
        let width = Self::width();
        let mut depth = 0;
        while depth < width {
            let len = (width - depth).min(5);
            let order = self.window(depth, len).cmp(&other.window(depth, len));
            if order.is_ne() {
                return order;
            }
            depth += len;
        }
        Ordering::Equal
    }

    // every string of bit_width bits is that of exactly one key
    ghost key_laws: { KeyLaws bit_width IsKey bits key_of };

    // what `==` calls equal is one key
    ghost same_if_equal: { (a b : Self) → Self.eq a b ≡ true → a ≡ b };
}

/// A string of bits at the front of a number: its path. The bits after it, the host bits, are ignored.
///
/// A prefix fits if its number is a key and its length at most `num_bits()`. Every call that takes a prefix requires
/// that it fits, except `repr`, `prefix_len` and `fits`, which tests it.
///
/// Laws, for prefixes that fit:
/// - `num_bits()` is the width of `R`;
/// - the path is the first `prefix_len` bits of `repr`;
/// - `mask` is the path, and then zeros;
/// - `a.contains(b)` exactly if the path of `a` begins the path of `b`;
/// - `from_repr_len(r, len)` has the length `len` and as path the first `len` bits of `r`; if the other bits of `r` are
///   0, its `repr` is `r`.
///
/// `num_bits`, `mask`, `contains` and `fits` have bodies here, which a type may replace.
///
/// # Examples
///
/// ```rust
/// let prefix = (0x0a010000_u32, 8_u8);
/// prefix.repr() == 0x0a010000;                // true
/// prefix.mask() == 0x0a000000;                // true
/// prefix.contains(&(0x0a820205_u32, 9));      // true
/// ```
pub trait Prefix: Sized + Debug + Drop {
    /// The type of the number.
    type R: Key;

    // the number as it was passed
    ghost repr_of: { Self → Self.R };

    // how many bits the path has
    ghost len_of: { Self → ℕ };

    // the bits that count
    ghost path: { Self → List Bool };

    // the number is a key, and the length at most its width
    ghost IsFitting: { Self → Type 0 };

    // the prefix that from_repr_len returns
    ghost from_parts: { Self.R → ℕ → Self };

    // the prefix with this path, without host bits
    ghost back: { List Bool → Self };

    /// Returns the width of the number in bits, which is the greatest length.
    #[inline]
    fn num_bits() -> u32
        ensures { result ≡ Self.R.bit_width }
    {
        Self::R::width()
    }

    /// Returns the number as it was passed, with its host bits.
    fn repr(&self) -> Self::R
        ensures { result ≡ repr_of self.now };

    /// Returns the number of bits of the path.
    fn prefix_len(&self) -> u8
        ensures { result ≡ len_of self.now };

    /// Returns the prefix of the first `len` bits of `repr`.
    ///
    /// Requires that `repr` is a key and `len` at most the width.
    fn from_repr_len(repr: Self::R, len: u8) -> Self
        requires key { Self.R.IsKey repr }
        requires within { len ≤ Self.R.bit_width }
        ensures { result ≡ from_parts repr len };

    /// Returns the path, and then zeros.
    ///
    /// Requires that the prefix fits.
    #[inline]
    fn mask(&self) -> Self::R
        requires { IsFitting self.now }
        ensures key { Self.R.IsKey result }
        ensures value { Self.R.bits result
            ≡ path self.now ++ zeros (Self.R.bit_width - len_of self.now) }
    {
        self.repr().keep(u32::from(self.prefix_len()))
    }

    /// Returns whether this path begins the other path. Each path begins itself.
    ///
    /// Requires that both prefixes fit.
    #[inline]
    fn contains(&self, other: &Self) -> bool
        requires fits { IsFitting self.now }
        requires other_fits { IsFitting other.now }
        ensures { result ≡ begins (path self.now) (path other.now) }
    {
        self.prefix_len() <= other.prefix_len()
            && other.repr().keep(u32::from(self.prefix_len())) == self.mask()
    }

    /// Returns the path as one value.
    ///
    /// Requires that the prefix fits.
    #[inline(always)]
    fn path(&self) -> BitString<Self::R>
        requires { IsFitting self.now }
        ensures path { result ≡ path self.now }
        ensures short { length (path self.now) ≤ Self.R.bit_width }
    {
        BitString::new(self.repr(), u32::from(self.prefix_len()))
    }

    /// Returns whether the number is a key and the length at most `num_bits()`.
    #[inline]
    fn fits(&self) -> bool
        ensures { IsTrue result ↔ IsFitting self.now }
    {
        self.repr().is_key() && u32::from(self.prefix_len()) <= Self::num_bits()
    }

    // the laws of paths, lengths and host bits
    ghost prefix_laws: { PrefixLaws Self.R.bit_width Self.R.IsKey Self.R.bits Self.R.key_of
        repr_of len_of path IsFitting from_parts back };
}

/// Why a call failed.
///
/// It has a text and is a `std::error::Error`, so `?` converts it to an `anyhow::Error`. `?` converts it to an
/// `io::Error` too, of the kind `OutOfMemory` or `QuotaExceeded`. A crate that does this lists `prefix_trie_bits`,
/// which has that `impl`.
///
/// # Examples
///
/// ```rust
/// format!(in alloc; "{}", Refusal::Memory)?;          // "a request for memory was refused"
/// format!(in alloc; "{}", Refusal::IndexRange)?;      // "the slots needed pass the limit"
/// ```
#[derive(Clone, Copy, PartialEq, Eq, Debug)]
pub enum Refusal {
    /// An allocation failed.
    Memory = 1,
    /// The slots needed would exceed the limit.
    IndexRange = 2,
}

/// A refusal with the value that was not stored.
///
/// In a function that returns a `Result` with a `Refusal`, `?` converts it to its cause and drops the value. It has the
/// text of its cause. Like its cause, it is a `std::error::Error` and converts to an `io::Error`.
///
/// # Examples
///
/// ```rust
/// let mut map: PrefixMap<Ipv4Prefix, u32, Global> = PrefixMap::with_slot_limit(alloc, 4)?;
/// map.insert("0.0.0.0/32".parse()?, 1);       // Err(Refused { cause: IndexRange, value: 1 })
/// ```
#[derive(PartialEq, Eq, Debug, Drop)]
pub struct Refused<T> {
    /// Why the call failed.
    pub cause: Refusal,
    /// The value as it was passed.
    pub value: T,
}
