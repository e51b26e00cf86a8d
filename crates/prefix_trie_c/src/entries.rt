//! Entries, addresses and results as C reads and writes them.
ghost use Rattle.std.specs.Prelude.{◌≡◌, ℕ, ◌+◌, ◌*◌, ◌^◌, ◌<◌, ◌≤◌, MatchOption, Option};
ghost use Rattle.prefix_trie_c.specs.Entries.{found_value, no_match, no_value, replaced_value, v4_entry, v4_item, v6_entry, v6_item};

use crate::codes::{DONE, MISSING};
use prefix_trie::{Ipv4Prefix, Ipv6Prefix, Prefix};

/// An IPv4 network and its value, if `found`.
#[repr(C)]
#[derive(Clone, Copy)]
pub struct V4Entry {
    pub value: u64,
    pub address: u32,
    pub length: u8,
    pub found: bool,
}

/// An IPv6 network and its value, if `found`.
#[repr(C)]
#[derive(Clone, Copy)]
pub struct V6Entry {
    pub value: u64,
    pub high: u64,
    pub low: u64,
    pub length: u8,
    pub found: bool,
}

/// An IPv6 address: its first and its last 64 bits.
#[repr(C)]
#[derive(Clone, Copy)]
pub struct V6Address {
    pub high: u64,
    pub low: u64,
}

/// A value that was found, if the code is `DONE`. Otherwise the value is 0.
#[repr(C)]
#[derive(Clone, Copy)]
pub struct FoundValue {
    pub value: u64,
    pub code: u32,
}

/// The value and the length of a longest match, if the code is `DONE`. Otherwise both are 0.
// With its code in a byte after the length, a match needs no shift to be packed into two registers, nor to be unpacked.
#[repr(C)]
#[derive(Clone, Copy)]
pub struct FoundMatch {
    pub value: u64,
    pub length: u8,
    pub code: u8,
}

/// The code of an insertion, and the value that it replaced, if `found`. Otherwise the value is 0.
#[repr(C)]
#[derive(Clone, Copy)]
pub struct Replaced {
    pub value: u64,
    pub code: u32,
    pub found: bool,
}

impl Replaced {
    /// Returns the result of an insertion.
    #[inline]
    pub(crate) fn of(code: u32, before: Option<u64>) -> Replaced
        ensures { result ≡ replaced_value code before }
    {
        match before {
            Some(value) => Replaced {
                value,
                code,
                found: true,
            },
            None => Replaced {
                value: 0,
                code,
                found: false,
            },
        }
    }
}

impl FoundValue {
    /// Returns a value, or that there is none.
    #[inline]
    pub(crate) fn of(found: Option<u64>) -> FoundValue
        ensures { result ≡ found_value found }
    {
        match found {
            Some(value) => FoundValue { value, code: DONE },
            None => FoundValue::none(MISSING),
        }
    }

    /// Returns the result of a call that found no value.
    #[inline]
    pub(crate) fn none(code: u32) -> FoundValue
        ensures { result ≡ no_value code }
    {
        FoundValue { value: 0, code }
    }
}

impl FoundMatch {
    /// Returns the result of a call that found no match.
    #[inline]
    pub(crate) fn none(code: u8) -> FoundMatch
        ensures { result ≡ no_match code }
    {
        FoundMatch {
            value: 0,
            length: 0,
            code,
        }
    }
}

/// An entry as C reads it.
pub(crate) trait Entry<P: Prefix>: Drop + Sized {
    // the entry of a prefix and its value, or of none
    ghost made: { Option (P × ℕ) → Self };

    // the network and the value of an entry that is to be inserted
    ghost item_of: { Self → P × ℕ };

    fn of(found: Option<(P, u64)>) -> Self
        ensures { result ≡ made found };

    // the item, if its length is at most the width of an address
    fn item(&self) -> Option<(P, u64)>
        ensures { MatchOption result (P.R.bit_width < P.len_of (item_of self.now).0)
            (λ item. (item ≡ item_of self.now) × P.IsFitting item.0
            × (P.len_of (item_of self.now).0 ≤ P.R.bit_width)) };
}

impl Entry<Ipv4Prefix> for V4Entry {
    ghost made = { v4_entry };

    ghost item_of = { v4_item };

    #[inline]
    fn of(found: Option<(Ipv4Prefix, u64)>) -> V4Entry
        ensures { result ≡ v4_entry found }
    {
        match found {
            Some((prefix, value)) => V4Entry {
                value,
                address: prefix.addr(),
                length: prefix.prefix_len(),
                found: true,
            },
            None => V4Entry {
                value: 0,
                address: 0,
                length: 0,
                found: false,
            },
        }
    }

    fn item(&self) -> Option<(Ipv4Prefix, u64)> {
        Some((Ipv4Prefix::new(self.address, self.length)?, self.value))
    }
}

impl Entry<Ipv6Prefix> for V6Entry {
    ghost made = { v6_entry };

    ghost item_of = { v6_item };

    #[inline]
    fn of(found: Option<(Ipv6Prefix, u64)>) -> V6Entry
        ensures { result ≡ v6_entry found }
    {
        match found {
            Some((prefix, value)) => V6Entry {
                value,
                high: (prefix.addr() / TWO_TO_64) as u64,
                low: (prefix.addr() % TWO_TO_64) as u64,
                length: prefix.prefix_len(),
                found: true,
            },
            None => V6Entry {
                value: 0,
                high: 0,
                low: 0,
                length: 0,
                found: false,
            },
        }
    }

    fn item(&self) -> Option<(Ipv6Prefix, u64)> {
        let prefix = Ipv6Prefix::new(joined(self.high, self.low), self.length)?;
        Some((prefix, self.value))
    }
}

const TWO_TO_64: u128 = 0x1_0000_0000_0000_0000;

/// Returns the number of an IPv6 address.
#[inline]
pub(crate) fn joined(high: u64, low: u64) -> u128
    ensures { result ≡ high * 2 ^ 64 + low }
{
    u128::from(high) * TWO_TO_64 + u128::from(low)
}

/// An address as C writes it.
pub(crate) trait Address<P: Prefix>: Copy {
    // the network of the address alone
    ghost host_of: { Self → P };

    fn host(self) -> P
        ensures value { result ≡ host_of self }
        ensures fits { P.IsFitting result };
}

impl Address<Ipv4Prefix> for u32 {
    ghost host_of = { λ a. (a, 32) };

    #[inline]
    fn host(self) -> Ipv4Prefix {
        Ipv4Prefix::host(self)
    }
}

impl Address<Ipv6Prefix> for V6Address {
    ghost host_of = { λ a. (a.high * 2 ^ 64 + a.low, 128) };

    #[inline]
    fn host(self) -> Ipv6Prefix {
        Ipv6Prefix::host(joined(self.high, self.low))
    }
}
