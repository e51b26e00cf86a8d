//! IPv4 and IPv6 networks as prefixes.
ghost use Rattle.std.specs.Prelude.{◌≡◌, ℕ, ◌-◌, ◌^◌, ◌<◌, ◌≤◌, ◌++◌, length, take, IsTrue, MatchOption, ◌↔◌, refl};
ghost use Rattle.std.proofs.Common.{lit≤};
ghost use Rattle.prefix_trie_bits.specs.Keys.{number_keys};
ghost use Rattle.prefix_trie_bits.specs.Model.Bits.{number, digits, zeros};
ghost use Rattle.prefix_trie_bits.specs.Networks.{network_back, network_path};

use crate::prefix::{Key, Prefix};
use std::marker::Model;

mod addresses;
mod subnets;
mod text;

pub use subnets::{Ipv4Subnets, Ipv6Subnets};
pub use text::ParseNetworkError;

/// An IPv4 network: an address, with its host bits, and a length of at most 32.
///
/// Two networks are equal if both numbers are. They are ordered by address and then by length, so networks without host bits are
/// ordered as a map lists them.
///
/// The text of a network, for `Display`, `Debug` and `parse`, is the address, a slash and the length in plain decimal: `10.1.2.3/8`.
/// `parse` keeps host bits, and reads no other text.
///
/// # Examples
///
/// ```rust
/// let network: Ipv4Prefix = "10.1.2.3/8".parse()?;
/// network.network();                      // 10.0.0.0
/// network.last();                         // 10.255.255.255
/// network.parent();                       // Some(10.0.0.0/7)
/// "10.1.2.3".parse::<Ipv4Prefix>();       // Err(MissingSlash)
/// ```
#[derive(Clone, Copy, PartialEq, Eq, PartialOrd, Ord, Hash)]
pub struct Ipv4Prefix {
    addr: u32,
    len: u8,
}

// a contract sees the address and the length
impl Model for Ipv4Prefix {
    ghost Value = { ℕ × ℕ };

    ghost view = { λ a. (a.addr, a.len) };

    ghost invariant = { λ a. a.len ≤ 32 };

    ghost inverse = { λ d. record { addr = d.0; len = d.1 } };
}

impl Ipv4Prefix {
    /// Returns the network of an address and a length, or `None` if the length is above 32. Host bits are kept.
    ///
    /// # Examples
    ///
    /// ```rust
    /// Ipv4Prefix::new(0x0a010203, 16);    // Some(10.1.2.3/16): in a map the same key as 10.1.0.0/16
    /// Ipv4Prefix::new(0, 33);             // None
    /// ```
    #[inline]
    pub fn new(addr: u32, len: u8) -> Option<Self>
        ensures { MatchOption result (32 < len) (λ p. (p ≡ (addr, len)) × (len ≤ 32)) }
    {
        if len <= 32 {
            Some(Ipv4Prefix { addr, len })
        } else {
            None
        }
    }

    /// Returns the network of one address: all 32 bits count.
    ///
    /// # Examples
    ///
    /// ```rust
    /// Ipv4Prefix::host(0x0a010203);       // 10.1.2.3/32
    /// ```
    #[inline]
    pub fn host(addr: u32) -> Self
        ensures value { result ≡ (addr, 32) }
        ensures path { take result.1 (digits 32 result.0) ≡ digits 32 addr }
        ensures fits { (result.0 < 2 ^ 32) × (result.1 ≤ 32) }
    {
        Ipv4Prefix { addr, len: 32 }
    }

    /// Returns the address as it was passed, with its host bits.
    ///
    /// # Examples
    ///
    /// ```rust
    /// Ipv4Prefix::new(0x0a010203, 8).map(|network| network.addr());       // Some(167838211): 0x0a010203
    /// ```
    #[inline]
    pub fn addr(&self) -> u32
        ensures { result ≡ self.now.0 }
    {
        self.addr
    }

    /// Returns the network one bit shorter that contains this one, without host bits, or `None` if the length is 0.
    ///
    /// # Examples
    ///
    /// ```rust
    /// "10.1.2.3/16".parse::<Ipv4Prefix>()?.parent();      // Some(10.0.0.0/15)
    /// "0.0.0.0/0".parse::<Ipv4Prefix>()?.parent();        // None
    /// ```
    #[inline]
    pub fn parent(&self) -> Option<Self>
        ensures { MatchOption result (self.now.1 ≡ 0)
            (λ p. (0 < self.now.1)
            × (p ≡ network_back 32 (take (self.now.1 - 1) (network_path 32 self.now)))) }
    {
        if self.len == 0 {
            return None;
        }
        let len = self.len - 1;
        let addr = self.addr.keep(u32::from(len));
        Some(Ipv4Prefix { addr, len })
    }
}

impl Prefix for Ipv4Prefix {
    type R = u32;

    ghost repr_of = { λ p. p.0 };

    ghost len_of = { λ p. p.1 };

    ghost path = { λ p. take p.1 (digits 32 p.0) };

    ghost IsFitting = { λ p. (p.0 < 2 ^ 32) × (p.1 ≤ 32) };

    ghost from_parts = { λ r n. (r, n) };

    ghost back = { λ s. (number (s ++ zeros (32 - length s)), length s) };

    ghost prefix_laws = { record {
      keys = number_keys 32 (lit≤ tt) (lit≤ tt);
      fits_is = λ p. (λ h. h, λ h. h);
      path_is = λ p. refl;
      len_from_parts = λ r n k h. refl;
      fits_from_parts = λ r n k h. (k, h);
      path_from_parts = λ r n k h. refl;
      repr_from_parts = λ r n k h z. refl;
      back_is = λ s. refl;
    } };

    #[inline]
    fn repr(&self) -> u32 {
        self.addr
    }

    #[inline]
    fn prefix_len(&self) -> u8 {
        self.len
    }

    #[inline]
    fn from_repr_len(repr: u32, len: u8) -> Self {
        Ipv4Prefix { addr: repr, len }
    }

    /// Returns true: an IPv4 network always fits.
    #[inline]
    fn fits(&self) -> bool
        ensures value { IsTrue result ↔ ((self.now.0 < 2 ^ 32) × (self.now.1 ≤ 32)) }
        ensures always { IsTrue result }
    {
        self.addr.is_key() && self.len <= 32
    }
}

/// An IPv6 network: an address, with its host bits, and a length of at most 128.
///
/// Two networks are equal if both numbers are. They are ordered by address and then by length, so networks without host
/// bits are ordered as a map lists them.
///
/// `Display` writes the address as in RFC 5952, a slash and the length in plain decimal: `2001:db8::1/32`. `Debug`
/// writes all eight groups in full: `2001:0db8:0000:0000:0000:0000:0000:0001/32`. `parse` reads each text that
/// `Ipv6Addr` of `std` reads, with a slash and a length after it, and keeps host bits.
///
/// # Examples
///
/// ```rust
/// let network: Ipv6Prefix = "2001:db8::1/32".parse()?;
/// network.network();                  // 2001:db8::
/// network.last();                     // 2001:db8:ffff:ffff:ffff:ffff:ffff:ffff
/// network.parent();                   // Some(2001:0db8:0000:0000:0000:0000:0000:0000/31)
/// "::/129".parse::<Ipv6Prefix>();     // Err(Length)
/// ```
#[derive(Clone, Copy, PartialEq, Eq, PartialOrd, Ord, Hash)]
pub struct Ipv6Prefix {
    addr: u128,
    len: u8,
}

// a contract sees the address and the length
impl Model for Ipv6Prefix {
    ghost Value = { ℕ × ℕ };

    ghost view = { λ a. (a.addr, a.len) };

    ghost invariant = { λ a. a.len ≤ 128 };

    ghost inverse = { λ d. record { addr = d.0; len = d.1 } };
}

impl Ipv6Prefix {
    /// Returns the network of an address and a length, or `None` if the length is above 128. Host bits are kept.
    ///
    /// # Examples
    ///
    /// ```rust
    /// Ipv6Prefix::new(0x2001_0db8 << 96, 32);     // Some(2001:0db8:0000:0000:0000:0000:0000:0000/32)
    /// Ipv6Prefix::new(0, 129);                    // None
    /// ```
    #[inline]
    pub fn new(addr: u128, len: u8) -> Option<Self>
        ensures { MatchOption result (128 < len) (λ p. (p ≡ (addr, len)) × (len ≤ 128)) }
    {
        if len <= 128 {
            Some(Ipv6Prefix { addr, len })
        } else {
            None
        }
    }

    /// Returns the network of one address: all 128 bits count.
    ///
    /// # Examples
    ///
    /// ```rust
    /// Ipv6Prefix::host(1);    // 0000:0000:0000:0000:0000:0000:0000:0001/128
    /// ```
    #[inline]
    pub fn host(addr: u128) -> Self
        ensures value { result ≡ (addr, 128) }
        ensures path { take result.1 (digits 128 result.0) ≡ digits 128 addr }
        ensures fits { (result.0 < 2 ^ 128) × (result.1 ≤ 128) }
    {
        Ipv6Prefix { addr, len: 128 }
    }

    /// Returns the address as it was passed, with its host bits.
    ///
    /// # Examples
    ///
    /// ```rust
    /// "::ff/120".parse::<Ipv6Prefix>()?.addr();       // 255
    /// ```
    #[inline]
    pub fn addr(&self) -> u128
        ensures { result ≡ self.now.0 }
    {
        self.addr
    }

    /// Returns the network one bit shorter that contains this one, without host bits, or `None` if the length is 0.
    ///
    /// # Examples
    ///
    /// ```rust
    /// "2001:db8::1/32".parse::<Ipv6Prefix>()?.parent();       // Some(2001:0db8:0000:0000:0000:0000:0000:0000/31)
    /// "::/0".parse::<Ipv6Prefix>()?.parent();                 // None
    /// ```
    #[inline]
    pub fn parent(&self) -> Option<Self>
        ensures { MatchOption result (self.now.1 ≡ 0)
            (λ p. (0 < self.now.1)
            × (p ≡ network_back 128 (take (self.now.1 - 1) (network_path 128 self.now)))) }
    {
        if self.len == 0 {
            return None;
        }
        let len = self.len - 1;
        let addr = self.addr.keep(u32::from(len));
        Some(Ipv6Prefix { addr, len })
    }
}

impl Prefix for Ipv6Prefix {
    type R = u128;

    ghost repr_of = { λ p. p.0 };

    ghost len_of = { λ p. p.1 };

    ghost path = { λ p. take p.1 (digits 128 p.0) };

    ghost IsFitting = { λ p. (p.0 < 2 ^ 128) × (p.1 ≤ 128) };

    ghost from_parts = { λ r n. (r, n) };

    ghost back = { λ s. (number (s ++ zeros (128 - length s)), length s) };

    ghost prefix_laws = { record {
      keys = number_keys 128 (lit≤ tt) (lit≤ tt);
      fits_is = λ p. (λ h. h, λ h. h);
      path_is = λ p. refl;
      len_from_parts = λ r n k h. refl;
      fits_from_parts = λ r n k h. (k, h);
      path_from_parts = λ r n k h. refl;
      repr_from_parts = λ r n k h z. refl;
      back_is = λ s. refl;
    } };

    #[inline]
    fn repr(&self) -> u128 {
        self.addr
    }

    #[inline]
    fn prefix_len(&self) -> u8 {
        self.len
    }

    #[inline]
    fn from_repr_len(repr: u128, len: u8) -> Self {
        Ipv6Prefix { addr: repr, len }
    }

    /// Returns true: an IPv6 network always fits.
    #[inline]
    fn fits(&self) -> bool
        ensures value { IsTrue result ↔ ((self.now.0 < 2 ^ 128) × (self.now.1 ≤ 128)) }
        ensures always { IsTrue result }
    {
        self.addr.is_key() && self.len <= 128
    }
}
