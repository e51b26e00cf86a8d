//! The text of networks of either family: what `Display` writes, and what `parse` reads.
ghost use Rattle.std.specs.Fmt.{padded};
ghost use Rattle.std.specs.Prelude.{Some};
ghost use Rattle.prefix_trie_joint.specs.Texts.{ip_network_text, ParsesIpNetwork};

use super::IpPrefix;
use prefix_trie::{Ipv4Prefix, Ipv6Prefix, ParseNetworkError};
use std::fmt::{self, Display, Formatter, Write};
use std::str::FromStr;

impl Display for IpPrefix {
    ghost output = { λ network. Some (ip_network_text network) };

    ghost styled_output = { λ network spec. Some (padded spec (ip_network_text network)) };

    fn fmt<W: Write>(&self, f: &mut Formatter<W>) -> fmt::Result {
        match self {
            IpPrefix::V4(network) => Display::fmt(network, f),
            IpPrefix::V6(network) => Display::fmt(network, f),
        }
    }
}

impl IpPrefix {
    ghost use Rattle.prefix_trie_joint.specs.Texts.{ParsesIpHost};

    /// Reads a network, or an address alone, which is the network of that one address.
    ///
    /// # Errors
    ///
    /// Returns what `Ipv6Prefix::parse_host` returns if the text has a colon, and otherwise what
    /// `Ipv4Prefix::parse_host` returns.
    ///
    /// # Examples
    ///
    /// ```rust
    /// IpPrefix::parse_host("10.1.2.3");           // Ok(V4(10.1.2.3/32))
    /// IpPrefix::parse_host("2001:db8::/32");      // Ok(V6(2001:0db8:0000:0000:0000:0000:0000:0000/32))
    /// IpPrefix::parse_host("10.1.2");             // Err(Address)
    /// ```
    pub fn parse_host(text: &str) -> Result<IpPrefix, ParseNetworkError>
        ensures { ParsesIpHost text.now result }
    {
        if text.contains(':') {
            Ok(IpPrefix::V6(Ipv6Prefix::parse_host(text)?))
        } else {
            Ok(IpPrefix::V4(Ipv4Prefix::parse_host(text)?))
        }
    }
}

impl FromStr for IpPrefix {
    type Err = ParseNetworkError;

    ghost from_str_gives = { ParsesIpNetwork };

    /// Reads an IPv4 or an IPv6 network, host bits kept.
    ///
    /// # Errors
    ///
    /// Returns why the text is no IPv6 network if it has a colon, and otherwise why it is no IPv4
    /// network.
    fn from_str(text: &str) -> Result<IpPrefix, ParseNetworkError> {
        let as_ipv4 = match text.parse::<Ipv4Prefix>() {
            Ok(network) => return Ok(IpPrefix::V4(network)),
            Err(error) => error,
        };
        match text.parse::<Ipv6Prefix>() {
            Ok(network) => Ok(IpPrefix::V6(network)),
            Err(error) => {
                if text.contains(':') {
                    Err(error)
                } else {
                    Err(as_ipv4)
                }
            }
        }
    }
}
