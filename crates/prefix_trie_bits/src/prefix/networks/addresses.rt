//! Networks from the addresses of `std`, and their addresses.
ghost use Rattle.std.specs.Prelude.{◌≡◌, ◌-◌, ◌^◌, ◌<◌, ◌≤◌, MatchOption};
ghost use Rattle.std.specs.Net.Addr.{ipv4_bits, ipv6_bits, IsIpv4OfBits, IsIpv6OfBits};
ghost use Rattle.prefix_trie_bits.specs.Networks.{lowest_address, highest_address};

use super::{Ipv4Prefix, Ipv6Prefix};
use crate::prefix::Key;
use std::net::{Ipv4Addr, Ipv6Addr};

impl Ipv4Prefix {
    /// Returns the network of an address and a length, host bits kept, or `None` if the length is above 32.
    ///
    /// # Examples
    ///
    /// ```rust
    /// Ipv4Prefix::from_address(Ipv4Addr::new(10, 1, 2, 3), 8);    // Some(10.1.2.3/8)
    /// ```
    #[inline]
    pub fn from_address(address: Ipv4Addr, len: u8) -> Option<Self>
        ensures { MatchOption result (32 < len) (λ p. (p ≡ (ipv4_bits address, len)) × (len ≤ 32)) }
    {
        Ipv4Prefix::new(address.to_bits(), len)
    }

    /// Returns the address, host bits kept.
    ///
    /// # Examples
    ///
    /// ```rust
    /// "10.1.2.3/8".parse::<Ipv4Prefix>()?.address();      // 10.1.2.3
    /// ```
    #[inline]
    pub fn address(&self) -> Ipv4Addr
        ensures value { IsIpv4OfBits result self.now.0 }
        ensures fits { (self.now.0 < 2 ^ 32) × (self.now.1 ≤ 32) }
    {
        Ipv4Addr::from_bits(self.addr)
    }

    /// Returns the lowest address of the network: each host bit is 0.
    ///
    /// # Examples
    ///
    /// ```rust
    /// "10.1.2.3/8".parse::<Ipv4Prefix>()?.network();      // 10.0.0.0
    /// ```
    #[inline]
    pub fn network(&self) -> Ipv4Addr
        ensures { IsIpv4OfBits result (lowest_address 32 self.now) }
    {
        Ipv4Addr::from_bits(self.addr.keep(u32::from(self.len)))
    }

    /// Returns the network without its host bits.
    ///
    /// # Examples
    ///
    /// ```rust
    /// "10.1.2.3/8".parse::<Ipv4Prefix>()?.trunc();      // 10.0.0.0/8
    /// ```
    #[inline]
    pub fn trunc(&self) -> Self
        ensures { result ≡ (lowest_address 32 self.now, self.now.1) }
    {
        Ipv4Prefix {
            addr: self.addr.keep(u32::from(self.len)),
            len: self.len,
        }
    }

    /// Returns the highest address of the network: each host bit is 1.
    ///
    /// It is the broadcast address of an IPv4 network of at most 30 bits.
    ///
    /// # Examples
    ///
    /// ```rust
    /// "10.1.2.3/8".parse::<Ipv4Prefix>()?.last();     // 10.255.255.255
    /// ```
    #[inline]
    pub fn last(&self) -> Ipv4Addr
        ensures { IsIpv4OfBits result (highest_address 32 self.now) }
    {
        Ipv4Addr::from_bits(last_u32(self.addr, self.len))
    }
}

impl From<Ipv4Addr> for Ipv4Prefix {
    ghost from_gives = { λ address p. p ≡ (ipv4_bits address, 32) };

    /// Returns the network of one address.
    fn from(address: Ipv4Addr) -> Ipv4Prefix {
        Ipv4Prefix {
            addr: address.to_bits(),
            len: 32,
        }
    }
}

impl Ipv6Prefix {
    /// Returns the network of an address and a length, host bits kept, or `None` if the length is above 128.
    ///
    /// # Examples
    ///
    /// ```rust
    /// Ipv6Prefix::from_address(Ipv6Addr::LOCALHOST, 64);      // Some(0000:0000:0000:0000:0000:0000:0000:0001/64)
    /// ```
    #[inline]
    pub fn from_address(address: Ipv6Addr, len: u8) -> Option<Self>
        ensures { MatchOption result (128 < len)
            (λ p. (p ≡ (ipv6_bits address, len)) × (len ≤ 128)) }
    {
        Ipv6Prefix::new(address.to_bits(), len)
    }

    /// Returns the address, host bits kept.
    ///
    /// # Examples
    ///
    /// ```rust
    /// "2001:db8::1/32".parse::<Ipv6Prefix>()?.address();      // 2001:db8::1
    /// ```
    #[inline]
    pub fn address(&self) -> Ipv6Addr
        ensures value { IsIpv6OfBits result self.now.0 }
        ensures fits { (self.now.0 < 2 ^ 128) × (self.now.1 ≤ 128) }
    {
        Ipv6Addr::from_bits(self.addr)
    }

    /// Returns the lowest address of the network: each host bit is 0.
    ///
    /// # Examples
    ///
    /// ```rust
    /// "2001:db8::1/32".parse::<Ipv6Prefix>()?.network();      // 2001:db8::
    /// ```
    #[inline]
    pub fn network(&self) -> Ipv6Addr
        ensures { IsIpv6OfBits result (lowest_address 128 self.now) }
    {
        Ipv6Addr::from_bits(self.addr.keep(u32::from(self.len)))
    }

    /// Returns the network without its host bits.
    ///
    /// # Examples
    ///
    /// ```rust
    /// "2001:db8::1/32".parse::<Ipv6Prefix>()?.trunc();      // 2001:0db8:0000:0000:0000:0000:0000:0000/32
    /// ```
    #[inline]
    pub fn trunc(&self) -> Self
        ensures { result ≡ (lowest_address 128 self.now, self.now.1) }
    {
        Ipv6Prefix {
            addr: self.addr.keep(u32::from(self.len)),
            len: self.len,
        }
    }

    /// Returns the highest address of the network: each host bit is 1.
    ///
    /// # Examples
    ///
    /// ```rust
    /// "2001:db8::1/32".parse::<Ipv6Prefix>()?.last();     // 2001:db8:ffff:ffff:ffff:ffff:ffff:ffff
    /// ```
    #[inline]
    pub fn last(&self) -> Ipv6Addr
        ensures { IsIpv6OfBits result (highest_address 128 self.now) }
    {
        Ipv6Addr::from_bits(last_u128(self.addr, self.len))
    }
}

impl From<Ipv6Addr> for Ipv6Prefix {
    ghost from_gives = { λ address p. p ≡ (ipv6_bits address, 128) };

    /// Returns the network of one address.
    fn from(address: Ipv6Addr) -> Ipv6Prefix {
        Ipv6Prefix {
            addr: address.to_bits(),
            len: 128,
        }
    }
}

// Returns the number with zeros in the first `len` bits and ones after them.
pub(super) fn host_u32(len: u8) -> u32
    requires { len ≤ 32 }
    ensures { result ≡ 2 ^ (32 - len) - 1 }
{
    if len == 0 {
        return u32::MAX;
    }
    (1 << (32 - len)) - 1
}

// Returns the first `len` bits of the address, and then ones.
fn last_u32(addr: u32, len: u8) -> u32
    requires { len ≤ 32 }
    ensures { result ≡ highest_address 32 (addr, len) }
{
    addr.keep(u32::from(len)) + host_u32(len)
}

// Returns the number with zeros in the first `len` bits and ones after them.
pub(super) fn host_u128(len: u8) -> u128
    requires { len ≤ 128 }
    ensures { result ≡ 2 ^ (128 - len) - 1 }
{
    if len == 0 {
        return u128::MAX;
    }
    (1 << (128 - len)) - 1
}

// Returns the first `len` bits of the address, and then ones.
fn last_u128(addr: u128, len: u8) -> u128
    requires { len ≤ 128 }
    ensures { result ≡ highest_address 128 (addr, len) }
{
    addr.keep(u32::from(len)) + host_u128(len)
}
