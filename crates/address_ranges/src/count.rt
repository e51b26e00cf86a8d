//! Numbers of addresses.
ghost use Rattle.std.specs.Prelude.{◌≡◌, ◌+◌, ◌-◌, ◌^◌, ◌≤◌, MatchOption};
ghost use Rattle.prefix_trie_bits.specs.Model.Bits.{number};
ghost use Rattle.address_ranges.specs.Appends.{end_of};
ghost use Rattle.address_ranges.specs.Breaks.{AreBreaks, has_address, numbers};
ghost use Rattle.address_ranges.specs.Counts.{count_below, count_of};

use crate::networks::break_after;
use prefix_trie_bits::prefix::Key;
use std::fmt::{self, Display, Formatter, Write};

/// A number of addresses of one family: at most 2^128.
///
/// `{}` writes it in decimal.
///
/// # Examples
///
/// ```rust
/// AddressCount::Number(256);                              // Number(256)
/// AddressCount::Number(5) < AddressCount::AllIpv6;        // true
/// format!(in alloc; "{}", AddressCount::AllIpv6)?;        // "340282366920938463463374607431768211456"
/// ```
#[derive(Clone, Copy, PartialEq, Eq, PartialOrd, Ord, Debug)]
pub enum AddressCount {
    /// A number below 2^128.
    Number(u128),
    /// 2^128: all IPv6 addresses.
    AllIpv6,
}

impl AddressCount {
    /// Returns the number, or `None` if it is 2^128.
    ///
    /// # Examples
    ///
    /// ```rust
    /// AddressCount::Number(256).to_u128();        // Some(256)
    /// AddressCount::AllIpv6.to_u128();            // None
    /// ```
    pub fn to_u128(self) -> Option<u128>
        ensures { MatchOption result (count_of self ≡ 2 ^ 128) (λ n. count_of self ≡ n) }
    {
        match self {
            AddressCount::Number(number) => Some(number),
            AddressCount::AllIpv6 => None,
        }
    }

    /// Returns the number of a key. `None` is the number of all addresses of its width.
    ///
    /// So it turns the result of `PrefixMap::address_count` into a number.
    ///
    /// # Examples
    ///
    /// ```rust
    /// AddressCount::from_key(Some(256_u32));      // Number(256)
    /// AddressCount::from_key::<u32>(None);        // Number(4294967296)
    /// AddressCount::from_key::<u128>(None);       // AllIpv6
    /// ```
    pub fn from_key<K: Key>(key: Option<K>) -> Self
        ensures { count_of result ≡ end_of K.bit_width K.bits key }
    {
        match key {
            Some(key) => AddressCount::Number(value_of(key)),
            None => all_of(K::width()),
        }
    }
}

impl Display for AddressCount {
    fn fmt<W: Write>(&self, f: &mut Formatter<W>) -> fmt::Result {
        match self {
            AddressCount::Number(number) => write!(f, "{number}"),
            AddressCount::AllIpv6 => f.write_str("340282366920938463463374607431768211456"),
        }
    }
}

/// Returns the number of all addresses of a width.
fn all_of(width: u32) -> AddressCount
    requires { width ≤ 128 }
    ensures { count_of result ≡ 2 ^ width }
{
    if width < 128 {
        AddressCount::Number(1 << width)
    } else {
        AddressCount::AllIpv6
    }
}

/// Returns a key as a number.
pub(crate) fn value_of<K: Key>(key: K) -> u128
    ensures { result ≡ number (K.bits key) }
{
    // The proof learns from it that the number is a key.
    let _ = key.is_key();
    let width = K::width();
    let mut value: u128 = 0;
    let mut depth = 0;
    while depth < width {
        let n = (width - depth).min(5);
        value = value * (1 << n) + u128::from(key.window(depth, n));
        depth += n;
    }
    value
}

/// Returns the number of addresses of a set.
pub(crate) fn address_count<K: Key>(breaks: &[K]) -> AddressCount
    requires { AreBreaks K.bit_width (numbers K.bits breaks.now) }
    ensures { count_of result
        ≡ count_below (has_address (numbers K.bits breaks.now)) (2 ^ K.bit_width) }
{
    let mut total: u128 = 0;
    for i in 0..breaks.len() {
        if i % 2 == 0 {
            let first = value_of(breaks[i]);
            match AddressCount::from_key(break_after(breaks, i)) {
                AddressCount::Number(past) => total += past - first,
                AddressCount::AllIpv6 => return with_rest(total, first),
            }
        }
    }
    AddressCount::Number(total)
}

/// Returns a number and the number of the addresses from `first` on to the last one of 128 bits.
fn with_rest(total: u128, first: u128) -> AddressCount
    requires { total ≤ first }
    ensures { count_of result ≡ total + (2 ^ 128 - first) }
{
    match (total + (u128::MAX - first)).checked_add(1) {
        Some(number) => AddressCount::Number(number),
        None => AddressCount::AllIpv6,
    }
}
