//! The type of networks of one family, as a bound for functions that serve both.
ghost use Rattle.std.specs.Prelude.{◌≡◌, ◌∷◌, Bool, List, false, refl, true};
ghost use Rattle.prefix_trie_joint.specs.Networks.{ip_back};
ghost use Rattle.prefix_trie_joint.specs.declared.prefix.IpPrefix.{IpPrefix};
ghost use Rattle.prefix_trie_joint.specs.declared.prefix.IpPrefix.TheVariants.{V4, V6};

use super::IpPrefix;
use prefix_trie::{Ipv4Prefix, Ipv6Prefix, Prefix};

/// A type of networks, all of one family.
pub trait Family: Prefix {
    // the bit of the family
    ghost bit: { Bool };

    // the network, as one of either family
    ghost as_ip: { Self → IpPrefix };

    /// Returns the network, as one of either family.
    fn to_ip(&self) -> IpPrefix
        ensures { result ≡ as_ip self.now };

    // the network with a path is the one with the bit of the family and the path
    ghost back_is: { (s : List Bool) → as_ip (Self.back s) ≡ ip_back (bit ∷ s) };
}

impl Family for Ipv4Prefix {
    ghost bit = { false };

    ghost as_ip = { V4 };

    ghost back_is = { λ s. refl };

    #[inline]
    fn to_ip(&self) -> IpPrefix {
        IpPrefix::V4(*self)
    }
}

impl Family for Ipv6Prefix {
    ghost bit = { true };

    ghost as_ip = { V6 };

    ghost back_is = { λ s. refl };

    #[inline]
    fn to_ip(&self) -> IpPrefix {
        IpPrefix::V6(*self)
    }
}
