//! Networks of either family.
ghost use Rattle.std.specs.Prelude.{◌≡◌, ◌<◌, MatchOption, false, take, true};
ghost use Rattle.prefix_trie_bits.specs.Model.Bits.{begins};
ghost use Rattle.prefix_trie_joint.specs.Texts.{IsIp};
ghost use Rattle.prefix_trie_joint.specs.Networks.{fits_width, highest_ip, ip_back, ip_host, ip_len, ip_of_address, ip_path, is_ip_of_ipv4, IsIpOf, lowest_ip};

mod conversions;
pub(crate) mod family;
mod subnets;
mod text;

use prefix_trie::{Ipv4Prefix, Ipv6Prefix, Prefix};
use std::net::IpAddr;
pub use subnets::IpSubnets;

/// An IPv4 or an IPv6 network: an address, with its host bits, and a length.
///
/// IPv4 networks are ordered before IPv6 networks, and networks of one family as their own type
/// orders them. So networks without host bits are ordered as a map lists them.
///
/// `Display` and `parse` use the text of the family. If a text is no network, the error says why it
/// is no IPv6 network if it has a colon, and otherwise why it is no IPv4 network.
///
/// # Examples
///
/// ```rust
/// "10.1.2.3/8".parse::<IpPrefix>();       // Ok(V4(10.1.2.3/8))
/// "2001:db8::/32".parse::<IpPrefix>();    // Ok(V6(2001:0db8:0000:0000:0000:0000:0000:0000/32))
/// "ten".parse::<IpPrefix>();              // Err(MissingSlash)
/// "::/129".parse::<IpPrefix>();           // Err(Length)
/// ```
#[derive(Clone, Copy, Debug, PartialEq, Eq, PartialOrd, Ord, Hash)]
pub enum IpPrefix {
    /// An IPv4 network.
    V4(Ipv4Prefix),
    /// An IPv6 network.
    V6(Ipv6Prefix),
}

impl IpPrefix {
    /// Returns the network of an address and a length, or `None` if the length exceeds the address's width.
    ///
    /// Host bits are kept. The width is 32 for IPv4 and 128 for IPv6.
    ///
    /// # Examples
    ///
    /// ```rust
    /// IpPrefix::from_address("10.1.2.3".parse()?, 8);     // Some(V4(10.1.2.3/8))
    /// IpPrefix::from_address("10.1.2.3".parse()?, 33);    // None
    /// ```
    #[inline]
    pub fn from_address(address: IpAddr, len: u8) -> Option<Self>
        ensures { MatchOption result (fits_width address len ≡ false)
            (λ network. (network ≡ ip_of_address address len) × (fits_width address len ≡ true)) }
    {
        match address {
            IpAddr::V4(address) => Some(IpPrefix::V4(Ipv4Prefix::from_address(address, len)?)),
            IpAddr::V6(address) => Some(IpPrefix::V6(Ipv6Prefix::from_address(address, len)?)),
        }
    }

    /// Returns the network of one address: all its bits count.
    ///
    /// # Examples
    ///
    /// ```rust
    /// IpPrefix::host("10.1.2.3".parse()?);    // V4(10.1.2.3/32)
    /// ```
    #[inline]
    pub fn host(address: IpAddr) -> Self
        ensures { result ≡ ip_host address }
    {
        match address {
            IpAddr::V4(address) => IpPrefix::V4(Ipv4Prefix::from(address)),
            IpAddr::V6(address) => IpPrefix::V6(Ipv6Prefix::from(address)),
        }
    }

    // Brings into the caller's proof that the network fits. The compiler removes it.
    #[inline(always)]
    pub(crate) fn known_fitting(&self)
        ensures { IsIp self.now }
    {
        match self {
            IpPrefix::V4(network) => {
                let _ = network.fits();
            }
            IpPrefix::V6(network) => {
                let _ = network.fits();
            }
        }
    }

    // Returns a copy. The proof learns from it that the network fits.
    #[inline]
    pub(crate) fn copy(&self) -> Self
        ensures { result ≡ self.now }
    {
        *self
    }

    /// Returns whether this is an IPv4 network.
    ///
    /// # Examples
    ///
    /// ```rust
    /// "10.0.0.0/8".parse::<IpPrefix>()?.is_ipv4();    // true
    /// "::/0".parse::<IpPrefix>()?.is_ipv4();          // false
    /// ```
    #[inline]
    pub fn is_ipv4(&self) -> bool
        ensures { result ≡ is_ip_of_ipv4 self.now }
    {
        match self {
            IpPrefix::V4(_) => true,
            IpPrefix::V6(_) => false,
        }
    }

    /// Returns the length: how many bits of the address count.
    ///
    /// # Examples
    ///
    /// ```rust
    /// "2001:db8::/32".parse::<IpPrefix>()?.prefix_len();      // 32
    /// ```
    #[inline]
    pub fn prefix_len(&self) -> u8
        ensures { result ≡ ip_len self.now }
    {
        match self {
            IpPrefix::V4(network) => network.prefix_len(),
            IpPrefix::V6(network) => network.prefix_len(),
        }
    }

    /// Returns the address, host bits kept.
    ///
    /// # Examples
    ///
    /// ```rust
    /// "10.1.2.3/8".parse::<IpPrefix>()?.address();    // 10.1.2.3
    /// ```
    #[inline]
    pub fn address(&self) -> IpAddr
        ensures value { IsIpOf self.now result }
        ensures fits { IsIp self.now }
    {
        match self {
            IpPrefix::V4(network) => IpAddr::V4(network.address()),
            IpPrefix::V6(network) => IpAddr::V6(network.address()),
        }
    }

    /// Returns the lowest address of the network: each host bit is 0.
    ///
    /// # Examples
    ///
    /// ```rust
    /// "10.1.2.3/8".parse::<IpPrefix>()?.network();    // 10.0.0.0
    /// ```
    #[inline]
    pub fn network(&self) -> IpAddr
        ensures { IsIpOf (lowest_ip self.now) result }
    {
        match self {
            IpPrefix::V4(network) => IpAddr::V4(network.network()),
            IpPrefix::V6(network) => IpAddr::V6(network.network()),
        }
    }

    /// Returns the network without its host bits.
    ///
    /// # Examples
    ///
    /// ```rust
    /// "10.1.2.3/8".parse::<IpPrefix>()?.trunc();      // V4(10.0.0.0/8)
    /// ```
    #[inline]
    pub fn trunc(&self) -> Self
        ensures { result ≡ lowest_ip self.now }
    {
        match self {
            IpPrefix::V4(network) => IpPrefix::V4(network.trunc()),
            IpPrefix::V6(network) => IpPrefix::V6(network.trunc()),
        }
    }

    /// Returns the highest address of the network: each host bit is 1.
    ///
    /// # Examples
    ///
    /// ```rust
    /// "10.1.2.3/8".parse::<IpPrefix>()?.last();       // 10.255.255.255
    /// ```
    #[inline]
    pub fn last(&self) -> IpAddr
        ensures { IsIpOf (highest_ip self.now) result }
    {
        match self {
            IpPrefix::V4(network) => IpAddr::V4(network.last()),
            IpPrefix::V6(network) => IpAddr::V6(network.last()),
        }
    }

    /// Returns whether this network contains another one. None contains one of the other family.
    ///
    /// # Examples
    ///
    /// ```rust
    /// let network = "10.0.0.0/8".parse::<IpPrefix>()?;
    /// network.contains(&"10.1.0.0/16".parse()?);      // true
    /// network.contains(&"::/0".parse()?);             // false
    /// ```
    #[inline]
    #[tactic(auto, using(crate::proofs::Families::begins_ipv4, crate::proofs::Families::begins_ipv6, crate::proofs::Families::begins_apart, crate::proofs::Families::begins_apart_too))]
    pub fn contains(&self, other: &Self) -> bool
        ensures { result ≡ begins (ip_path self.now) (ip_path other.now) }
    {
        match (self, other) {
            (IpPrefix::V4(network), IpPrefix::V4(other)) => {
                network.fits() && other.fits() && network.contains(other)
            }
            (IpPrefix::V6(network), IpPrefix::V6(other)) => {
                network.fits() && other.fits() && network.contains(other)
            }
            _ => false,
        }
    }

    /// Returns the network one bit shorter that contains this one, without host bits, or `None` if the length is 0.
    ///
    /// # Examples
    ///
    /// ```rust
    /// "10.1.2.3/16".parse::<IpPrefix>()?.parent();    // Some(V4(10.0.0.0/15))
    /// "::/0".parse::<IpPrefix>()?.parent();           // None
    /// ```
    #[inline]
    #[tactic(auto, using(crate::proofs::Families::take_family))]
    pub fn parent(&self) -> Option<Self>
        ensures { MatchOption result (ip_len self.now ≡ 0)
            (λ parent. (0 < ip_len self.now)
            × (parent ≡ ip_back (take (ip_len self.now) (ip_path self.now)))) }
    {
        match self {
            IpPrefix::V4(network) => Some(IpPrefix::V4(network.parent()?)),
            IpPrefix::V6(network) => Some(IpPrefix::V6(network.parent()?)),
        }
    }
}
