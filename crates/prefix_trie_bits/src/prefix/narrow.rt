//! Numbers of any width from 1 to 63 bits as keys.
ghost use Rattle.std.specs.Prelude.{◌≡◌, ℕ, ◌^◌, ◌<◌, ◌≤◌, MatchOption, Some};
ghost use Rattle.std.specs.Fmt.{decimal};
ghost use Rattle.std.proofs.Common.{eqb-true};
ghost use Rattle.prefix_trie_bits.specs.Model.Bits.{number, digits};
ghost use Rattle.prefix_trie_bits.specs.Keys.{narrow_width, narrow_keys};

use crate::digits::{behind_of, extend_of, keep_of, window_of};
use crate::prefix::Key;
use std::cmp::Ordering;
use std::fmt::{self, Debug, Formatter, Write};
use std::marker::Model;

mod text;

pub use text::ParseNarrowError;

/// A number of `W` bits as a key: a label, a VLAN, digits of a telephone number, a part of an address.
///
/// Its width is `W`, raised to 1 if `W` is 0 and cut to 63 if `W` is larger. With a length, it is a prefix:
/// `(Narrow<W>, u8)`. Its text is the number in plain decimal, which `parse` reads back.
///
/// # Examples
///
/// ```rust
/// let mut map = PrefixMap::new(alloc)?;
/// if let Some(vlan) = Narrow::<12>::new(100) {
///     map.insert((vlan, 10), "office")?;      // None: VLANs 100 to 103, since the bits are 0000 0110 0100
/// }
/// "100".parse::<Narrow<12>>();                // Ok(100)
/// "4096".parse::<Narrow<12>>();               // Err(ParseNarrowError): it has 13 bits
/// "0100".parse::<Narrow<12>>();               // Err(ParseNarrowError): "+100" and "" are errors too
/// ```
#[derive(Clone, Copy, PartialEq, Eq)]
pub struct Narrow<const W: u32> {
    value: u64,
}

// a contract sees the number
impl<const W: u32> Model for Narrow<W> {
    ghost Value = { ℕ };

    ghost view = { λ a. a.value };

    ghost invariant = { λ a. a.value < 2 ^ narrow_width W };

    ghost inverse = { λ n. record { value = n } };
}

impl<const W: u32> Narrow<W> {
    /// Returns the key of a number, or `None` if the number is `2^width` or more.
    ///
    /// # Examples
    ///
    /// ```rust
    /// Narrow::<5>::new(31);       // Some(31)
    /// Narrow::<5>::new(32);       // None
    /// ```
    #[inline]
    pub fn new(value: u64) -> Option<Self>
        ensures { MatchOption result (2 ^ narrow_width W ≤ value)
            (λ key. (key ≡ value) × (value < 2 ^ narrow_width W)) }
    {
        if value < 1 << Self::width() {
            Some(Narrow { value })
        } else {
            None
        }
    }

    /// Returns the number, which is below `2^width`.
    ///
    /// # Examples
    ///
    /// ```rust
    /// Narrow::<5>::new(31).map(|key| key.get());      // Some(31)
    /// ```
    #[inline]
    pub fn get(self) -> u64
        ensures value { result ≡ self.entry }
        ensures below { result < 2 ^ narrow_width W }
    {
        self.value
    }
}

impl<const W: u32> Debug for Narrow<W> {
    ghost debug_output = { λ key. Some (decimal key) };

    fn fmt<F: Write>(&self, f: &mut Formatter<F>) -> fmt::Result {
        write!(f, "{}", self.value)
    }
}

impl<const W: u32> Key for Narrow<W> {
    ghost bit_width = { narrow_width W };

    ghost IsKey = { λ k. k < 2 ^ narrow_width W };

    ghost bits = { digits (narrow_width W) };

    ghost key_of = { number };

    ghost key_laws = { narrow_keys W };

    ghost same_if_equal = { eqb-true };

    #[inline]
    fn width() -> u32 {
        W.clamp(1, 63)
    }

    #[inline]
    #[tactic(auto, using(crate::specs::BitStrings::zero_bits))]
    fn zero() -> Self {
        Narrow { value: 0 }
    }

    #[inline]
    fn is_key(self) -> bool {
        true
    }

    #[inline]
    fn window(self, depth: u32, n: u32) -> u32 {
        window_of(self.value, Self::width(), depth, n)
    }

    #[inline]
    fn keep(self, len: u32) -> Self {
        let value = keep_of(self.value, Self::width(), len);
        Narrow { value }
    }

    #[inline]
    fn extend(self, depth: u32, n: u32, tail: u32) -> Self {
        let value = extend_of(self.value, Self::width(), depth, n, tail);
        Narrow { value }
    }

    #[inline]
    fn behind(self, n: u32) -> Self {
        let value = behind_of(self.value, Self::width(), n);
        Narrow { value }
    }

    #[inline]
    #[tactic(auto, using(crate::specs::BitStrings::number_of_digits))]
    fn plus(self, other: Self) -> Option<Self> {
        Narrow::new(self.value + other.value)
    }

    #[inline]
    #[tactic(auto, using(crate::specs::Comparing::ordered_as_numbers))]
    fn compare(self, other: Self) -> Ordering {
        self.get().cmp(&other.get())
    }
}
