//! Networks of a table, and their texts.
ghost use Rattle.std.specs.Prelude.{◌≡◌, IfErr, MatchResult, false, true};
ghost use Rattle.std.specs.Net.Grammar.{IsIpText};
ghost use Rattle.std.specs.declared.net.ip_addr.IpAddr.{IpAddr as Ip};
ghost use Rattle.prefix_trie_joint.specs.Networks.{lowest_ip};
ghost use Rattle.prefix_trie_joint.specs.declared.prefix.IpPrefix.{IpPrefix};
ghost use Rattle.route_tables.specs.Networks.{IsNetworkText, IsReadAs, IsTextBySlash, has_slash};
ghost use Rattle.route_tables.specs.Reasons.{IsNetworkReason, IsSlashReason};
ghost use Rattle.route_tables.specs.declared.network.HostBits.{HostBits};

use prefix_trie::{ParseNetworkError, Prefix};
use prefix_trie_joint::IpPrefix;
use prefix_trie_joint::laws::ip_text_laws;
use std::error::Error;
use std::fmt::{self, Display, Formatter, Write};
use std::net::IpAddr;

/// What is done with a network that has host bits: bits of its address after its length that are not 0.
#[derive(Clone, Copy, Debug, Default, PartialEq, Eq)]
pub enum HostBits {
    /// It is an error.
    #[default]
    Refused,
    /// The host bits are set to 0.
    Cleared,
}

/// Why a text is not a network of a table.
#[derive(Clone, Copy, Debug, PartialEq, Eq)]
pub enum NetworkError {
    /// The text has a slash, and is not the text of a network.
    Text(ParseNetworkError),
    /// The text has no slash, and is not the text of an address.
    Address,
    /// A bit of the address after the length is not 0.
    HostBits,
}

impl Display for NetworkError {
    fn fmt<W: Write>(&self, f: &mut Formatter<W>) -> fmt::Result {
        match self {
            NetworkError::Text(error) => Display::fmt(error, f),
            NetworkError::Address => f.write_str("expected a network or an address"),
            NetworkError::HostBits => f.write_str("address has bits set after the length"),
        }
    }
}

impl Error for NetworkError {}

/// Reads a network without host bits, such as `10.0.0.0/8` or `2001:db8::/32`, or an address alone.
///
/// The network of an address has all its bits: `10.0.0.1` is `10.0.0.1/32`, and `::1` is `::1/128`.
///
/// # Errors
///
/// Returns why the text is neither. If it has a slash, the error is that of an IPv6 network if it has a colon, otherwise
/// that of an IPv4 network.
///
/// # Examples
///
/// ```rust
/// parse_network("10.0.0.0/8");       // Ok(V4(10.0.0.0/8))
/// parse_network("10.0.0.1/8");       // Err(HostBits)
/// parse_network("10.0.0.1");         // Ok(V4(10.0.0.1/32))
/// parse_network("ten");              // Err(Address)
/// ```
pub fn parse_network(text: &str) -> Result<IpPrefix, NetworkError>
    ensures network { MatchResult result (IsNetworkText HostBits.Refused text.now)
        (λ _. (network : IpPrefix) → ¬ (IsNetworkText HostBits.Refused text.now network)) }
    ensures reason { IfErr result (IsNetworkReason HostBits.Refused text.now) }
{
    parse_network_with(text, HostBits::Refused)
}

/// Reads a network or an address alone, as `parse_network` does, and clears host bits if they are to be cleared.
///
/// # Errors
///
/// Returns why the text is neither, as `parse_network` does.
///
/// # Examples
///
/// ```rust
/// parse_network_with("10.0.0.1/8", HostBits::Cleared);       // Ok(V4(10.0.0.0/8))
/// parse_network_with("10.0.0.1/8", HostBits::Refused);       // Err(HostBits)
/// ```
pub fn parse_network_with(text: &str, host_bits: HostBits) -> Result<IpPrefix, NetworkError>
    ensures network { MatchResult result (IsNetworkText host_bits text.now)
        (λ _. (network : IpPrefix) → ¬ (IsNetworkText host_bits text.now network)) }
    ensures reason { IfErr result (IsNetworkReason host_bits text.now) }
{
    if has_slash(text) {
        parse_with_length(text, host_bits)
    } else {
        parse_host(text)
    }
}

// Returns whether a text has a slash.
fn has_slash(text: &str) -> bool
    ensures { result ≡ has_slash text.now }
{
    text.as_bytes().iter().any(|byte| *byte == b'/')
}

// Reads an address, as the network that has all its bits.
fn parse_host(text: &str) -> Result<IpPrefix, NetworkError>
    ensures network { (host_bits : HostBits)
        → MatchResult result (IsTextBySlash false host_bits text.now)
        (λ _. (network : IpPrefix) → ¬ (IsTextBySlash false host_bits text.now network)) }
    ensures reason { IfErr result (λ error. (error ≡ NetworkError.Address)
        × ((address : Ip) → ¬ (IsIpText text.now address))) }
{
    match text.parse::<IpAddr>() {
        Ok(address) => Ok(IpPrefix::host(address)),
        Err(_) => Err(NetworkError::Address),
    }
}

// Reads a network with a length.
fn parse_with_length(text: &str, host_bits: HostBits) -> Result<IpPrefix, NetworkError>
    ensures network { MatchResult result (IsTextBySlash true host_bits text.now)
        (λ _. (network : IpPrefix) → ¬ (IsTextBySlash true host_bits text.now network)) }
    ensures reason { IfErr result (IsSlashReason host_bits text.now) }
{
    ip_text_laws();
    match text.parse::<IpPrefix>() {
        Ok(network) => without_host_bits(network, host_bits),
        Err(error) => Err(NetworkError::Text(error)),
    }
}

// Returns a network without its host bits, or an error if it has some that are refused.
fn without_host_bits(network: IpPrefix, host_bits: HostBits) -> Result<IpPrefix, NetworkError>
    ensures network { MatchResult result (IsReadAs host_bits network)
        (λ _. (other : IpPrefix) → ¬ (IsReadAs host_bits network other)) }
    ensures reason { IfErr result (λ error. (error ≡ NetworkError.HostBits)
        × (host_bits ≡ HostBits.Refused) × ¬ (network ≡ lowest_ip network)) }
{
    match host_bits {
        HostBits::Refused => refuse_host_bits(network),
        HostBits::Cleared => Ok(lowest(network)),
    }
}

// Returns a network with zeros for its host bits.
fn lowest(network: IpPrefix) -> IpPrefix
    ensures { result ≡ lowest_ip network }
{
    match network {
        IpPrefix::V4(network) => IpPrefix::V4(network.trunc()),
        IpPrefix::V6(network) => IpPrefix::V6(network.trunc()),
    }
}

// Returns a network back if each bit of its address after its length is 0.
#[tactic(auto, using(crate::proofs::HostBits::lowest_ipv4, crate::proofs::HostBits::of_lowest_ipv4, crate::proofs::HostBits::lowest_ipv6, crate::proofs::HostBits::of_lowest_ipv6))]
fn refuse_host_bits(network: IpPrefix) -> Result<IpPrefix, NetworkError>
    ensures network { MatchResult result (λ same. (same ≡ network) × (network ≡ lowest_ip network))
        (λ _. ¬ (network ≡ lowest_ip network)) }
    ensures reason { IfErr result (λ error. (error ≡ NetworkError.HostBits)
        × ¬ (network ≡ lowest_ip network)) }
{
    match network {
        IpPrefix::V4(network) => {
            if network.addr() == network.mask() {
                Ok(IpPrefix::V4(network))
            } else {
                Err(NetworkError::HostBits)
            }
        }
        IpPrefix::V6(network) => {
            if network.addr() == network.mask() {
                Ok(IpPrefix::V6(network))
            } else {
                Err(NetworkError::HostBits)
            }
        }
    }
}
