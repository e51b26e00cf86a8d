//! The networks of one length inside a network of either family.
ghost use Rattle.std.specs.Prelude.{◌≡◌, ◌≤◌, MatchOption};
ghost use Rattle.std.specs.Iterator.{YieldsFirst, item_count};
ghost use Rattle.prefix_trie_joint.specs.Networks.{ip_len, ip_width};
ghost use Rattle.prefix_trie_joint.specs.Subnets.{ip_subnets_of};

use super::IpPrefix;
use prefix_trie::{Ipv4Subnets, Ipv6Subnets};
use std::marker::Model;

impl IpPrefix {
    /// Returns the networks of a length inside this one, in order of their addresses, or `None` if the length is
    /// shorter than this network's or above the width of its addresses.
    ///
    /// Each network is returned once, without host bits. There are 2 to the power of the difference of the lengths.
    ///
    /// # Examples
    ///
    /// ```rust
    /// let network: IpPrefix = "10.1.2.3/8".parse()?;
    /// network.subnets(33).is_some();      // false
    /// if let Some(subnets) = network.subnets(9) {
    ///     subnets;        // [V4(10.0.0.0/9), V4(10.128.0.0/9)]
    /// }
    /// ```
    pub fn subnets(&self, len: u8) -> Option<IpSubnets>
        ensures { MatchOption result (¬ ((ip_len self.now ≤ len) × (len ≤ ip_width self.now)))
            (λ networks. (ip_len self.now ≤ len) × (len ≤ ip_width self.now)
            × (networks ≡ ip_subnets_of self.now len)) }
    {
        let family = match self {
            IpPrefix::V4(network) => Subnets::V4(network.subnets(len)?),
            IpPrefix::V6(network) => Subnets::V6(network.subnets(len)?),
        };
        Some(IpSubnets { family })
    }
}

/// The networks of one length inside a network, in order of their addresses. `subnets` makes it.
#[derive(Drop)]
pub struct IpSubnets {
    family: Subnets,
}

#[derive(Drop)]
enum Subnets {
    V4(Ipv4Subnets),
    V6(Ipv6Subnets),
}

// a contract sees the networks to come
impl Model for IpSubnets {
    ghost use Rattle.std.specs.Prelude.{List};
    ghost use Rattle.prefix_trie_joint.specs.Subnets.{subnets_left};
    ghost use Rattle.prefix_trie_joint.specs.declared.prefix.IpPrefix.{IpPrefix};

    ghost Value = { List IpPrefix };

    ghost view = { λ it. subnets_left it.family };
}

impl Iterator for IpSubnets {
    type Item = IpPrefix;

    ghost next_gives = { YieldsFirst (λ networks. networks) };

    ghost remaining = { item_count (λ networks. networks) };

    fn next(&mut self) -> Option<IpPrefix> {
        match &mut self.family {
            Subnets::V4(subnets) => subnets.next().map(IpPrefix::V4),
            Subnets::V6(subnets) => subnets.next().map(IpPrefix::V6),
        }
    }
}
