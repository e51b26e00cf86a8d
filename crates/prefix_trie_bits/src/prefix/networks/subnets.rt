//! The networks of one length inside a network.
ghost use Rattle.std.specs.Prelude.{◌≡◌, ◌≤◌, MatchOption};
ghost use Rattle.std.specs.Iterator.{YieldsFirst, item_count};
ghost use Rattle.prefix_trie_bits.specs.Networks.{subnets_of};

use super::addresses::{host_u32, host_u128};
use super::{Ipv4Prefix, Ipv6Prefix};
use crate::prefix::Key;
use std::marker::Model;

impl Ipv4Prefix {
    /// Returns the networks of a length inside this one, in order of their addresses, or `None` if the length is
    /// shorter than this network's or above 32.
    ///
    /// Each network is returned once, without host bits. There are 2 to the power of the difference of the lengths.
    ///
    /// # Examples
    ///
    /// ```rust
    /// let network: Ipv4Prefix = "10.1.2.3/8".parse()?;
    /// network.subnets(7).is_some();       // false
    /// if let Some(subnets) = network.subnets(10) {
    ///     subnets;        // [10.0.0.0/10, 10.64.0.0/10, 10.128.0.0/10, 10.192.0.0/10]
    /// }
    /// ```
    pub fn subnets(&self, len: u8) -> Option<Ipv4Subnets>
        ensures { MatchOption result (¬ ((self.now.1 ≤ len) × (len ≤ 32)))
            (λ networks. (self.now.1 ≤ len) × (len ≤ 32)
            × (networks ≡ subnets_of 32 self.now len)) }
    {
        if len < self.len || len > 32 {
            return None;
        }
        Some(Ipv4Subnets {
            next: Some(self.addr.keep(u32::from(self.len))),
            more: host_u32(32 - (len - self.len)),
            len,
        })
    }
}

/// The networks of one length inside an IPv4 network, in order of their addresses. `subnets` makes it.
#[derive(Drop)]
pub struct Ipv4Subnets {
    next: Option<u32>,
    more: u32,
    len: u8,
}

// a contract sees the networks to come
impl Model for Ipv4Subnets {
    ghost use Rattle.std.specs.Prelude.{ℕ, List};
    ghost use Rattle.prefix_trie_bits.specs.Networks.{networks_left, EndsWithin};

    ghost Value = { List (ℕ × ℕ) };

    ghost view = { λ a. networks_left 32 a.len a.next a.more };

    ghost invariant = { λ a. EndsWithin 32 a.len a.next a.more };
}

impl Iterator for Ipv4Subnets {
    type Item = Ipv4Prefix;

    ghost next_gives = { YieldsFirst (λ networks. networks) };

    ghost remaining = { item_count (λ networks. networks) };

    fn next(&mut self) -> Option<Ipv4Prefix> {
        let Some(addr) = self.next else {
            return None;
        };
        let network = Ipv4Prefix {
            addr,
            len: self.len,
        };
        if self.more == 0 {
            self.next = None;
            return Some(network);
        }
        self.more -= 1;
        self.next = Some(addr + host_u32(self.len) + 1);
        Some(network)
    }
}

impl Ipv6Prefix {
    /// Returns the networks of a length inside this one, in order of their addresses, or `None` if the length is
    /// shorter than this network's or above 128.
    ///
    /// Each network is returned once, without host bits. There are 2 to the power of the difference of the lengths.
    ///
    /// # Examples
    ///
    /// ```rust
    /// let network: Ipv6Prefix = "2001:db8::/32".parse()?;
    /// network.subnets(129).is_some();     // false
    /// if let Some(mut subnets) = network.subnets(128) {
    ///     subnets.next();     // Some(2001:0db8:0000:0000:0000:0000:0000:0000/128)
    ///     subnets.next();     // Some(2001:0db8:0000:0000:0000:0000:0000:0001/128)
    /// }
    /// ```
    pub fn subnets(&self, len: u8) -> Option<Ipv6Subnets>
        ensures { MatchOption result (¬ ((self.now.1 ≤ len) × (len ≤ 128)))
            (λ networks. (self.now.1 ≤ len) × (len ≤ 128)
            × (networks ≡ subnets_of 128 self.now len)) }
    {
        if len < self.len || len > 128 {
            return None;
        }
        Some(Ipv6Subnets {
            next: Some(self.addr.keep(u32::from(self.len))),
            more: host_u128(128 - (len - self.len)),
            len,
        })
    }
}

/// The networks of one length inside an IPv6 network, in order of their addresses. `subnets` makes it.
#[derive(Drop)]
pub struct Ipv6Subnets {
    next: Option<u128>,
    more: u128,
    len: u8,
}

// a contract sees the networks to come
impl Model for Ipv6Subnets {
    ghost use Rattle.std.specs.Prelude.{ℕ, List};
    ghost use Rattle.prefix_trie_bits.specs.Networks.{networks_left, EndsWithin};

    ghost Value = { List (ℕ × ℕ) };

    ghost view = { λ a. networks_left 128 a.len a.next a.more };

    ghost invariant = { λ a. EndsWithin 128 a.len a.next a.more };
}

impl Iterator for Ipv6Subnets {
    type Item = Ipv6Prefix;

    ghost next_gives = { YieldsFirst (λ networks. networks) };

    ghost remaining = { item_count (λ networks. networks) };

    fn next(&mut self) -> Option<Ipv6Prefix> {
        let Some(addr) = self.next else {
            return None;
        };
        let network = Ipv6Prefix {
            addr,
            len: self.len,
        };
        if self.more == 0 {
            self.next = None;
            return Some(network);
        }
        self.more -= 1;
        self.next = Some(addr + host_u128(self.len) + 1);
        Some(network)
    }
}
