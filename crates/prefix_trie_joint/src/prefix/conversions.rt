//! Networks of either family from networks of one family, and from addresses.
ghost use Rattle.std.specs.Prelude.{◌≡◌};
ghost use Rattle.prefix_trie_joint.specs.Networks.{ip_host};
ghost use Rattle.prefix_trie_joint.specs.declared.prefix.IpPrefix.TheVariants.{V4, V6};

use super::IpPrefix;
use prefix_trie::{Ipv4Prefix, Ipv6Prefix};
use std::net::IpAddr;

impl From<Ipv4Prefix> for IpPrefix {
    ghost from_gives = { λ network p. p ≡ V4 network };

    fn from(network: Ipv4Prefix) -> IpPrefix {
        IpPrefix::V4(network)
    }
}

impl From<Ipv6Prefix> for IpPrefix {
    ghost from_gives = { λ network p. p ≡ V6 network };

    fn from(network: Ipv6Prefix) -> IpPrefix {
        IpPrefix::V6(network)
    }
}

impl From<IpAddr> for IpPrefix {
    ghost from_gives = { λ address p. p ≡ ip_host address };

    /// Returns the network of one address.
    fn from(address: IpAddr) -> IpPrefix {
        IpPrefix::host(address)
    }
}
