//! The networks of a text: a network, an address, or a range of addresses.
ghost use Rattle.std.specs.Prelude.{◌≡◌, IfErr, IfOk, List, false};
ghost use Rattle.std.specs.declared.net.ip_addr.IpAddr.TheVariants as Ip;
ghost use Rattle.prefix_trie_joint.specs.declared.prefix.IpPrefix.{IpPrefix};
ghost use Rattle.route_tables.specs.Networks.{AreOfEnds, AreOfIpv4Range, AreOfIpv6Range, AreOfRange, AreOfText, AreOfTextByHyphen, all_networks, has_hyphen};
ghost use Rattle.route_tables.specs.Reasons.{IsEndsReason, IsRangeReason, IsReasonByHyphen, IsTextReason};
ghost use Rattle.route_tables.specs.Routes.{IfLine};

use crate::line::{LineError, ReadError};
use crate::network::{HostBits, parse_network_with};
use address_ranges::networks_of;
use prefix_trie::{Ipv4Prefix, Ipv6Prefix};
use prefix_trie_joint::IpPrefix;
use std::alloc::Global;
use std::net::{IpAddr, Ipv4Addr, Ipv6Addr};
use std::slice;

/// The networks that a text denotes.
#[derive(Debug, Drop)]
pub enum Networks {
    /// One network. It needs no allocation.
    One(IpPrefix),
    /// The fewest networks of a range, in order.
    Many(Vec<IpPrefix>),
}

impl Networks {
    /// Returns the networks, in order.
    ///
    /// # Examples
    ///
    /// ```rust
    /// let networks = parse_network_or_range("10.0.0.1-10.0.0.2", HostBits::Refused, alloc)?;
    /// networks.as_slice();        // [V4(10.0.0.1/32), V4(10.0.0.2/32)]
    /// ```
    pub fn as_slice(&self) -> &[IpPrefix]
        ensures { result.now ≡ all_networks self.now }
    {
        match self {
            Networks::One(network) => slice::from_ref(network),
            Networks::Many(networks) => networks.as_slice(),
        }
    }
}

/// Reads a network, an address, or a range of addresses such as `10.0.0.0-10.0.1.255`.
///
/// A text with a hyphen is a range: the first address, the hyphen and the last address, both of one family. Its networks
/// are the fewest that cover these addresses and no others. They are in order, no two of them cover the same address, and
/// none has host bits.
/// A text without a hyphen is read as `parse_network_with` reads it.
///
/// # Errors
///
/// Returns why the text denotes no networks, or `Memory` if an allocation fails. One network needs no allocation.
///
/// # Examples
///
/// ```rust
/// let networks = parse_network_or_range("10.0.0.1-10.0.0.4", HostBits::Refused, alloc)?;
/// networks.as_slice();        // [V4(10.0.0.1/32), V4(10.0.0.2/31), V4(10.0.0.4/32)]
/// parse_network_or_range("10.0.0.4-10.0.0.1", HostBits::Refused, alloc).err();       // Some(Line(RangeOrder))
/// ```
pub fn parse_network_or_range(
    text: &str,
    host_bits: HostBits,
    alloc: Global,
) -> Result<Networks, ReadError>
    ensures read { IfOk result (λ networks. AreOfText host_bits text.now (all_networks networks)) }
    ensures none { IfErr result (IfLine ((networks : List IpPrefix)
        → ¬ (AreOfText host_bits text.now networks))) }
    ensures reason { IfErr result (IsTextReason host_bits text.now) }
{
    // Most texts have no hyphen, and a search of bytes finds that sooner than `split_once`.
    if has_hyphen(text) {
        parse_split(text, host_bits, alloc)
    } else {
        parse_one(text, host_bits)
    }
}

// Reads a text that is split at its first hyphen, or one network if there is no hyphen.
fn parse_split(text: &str, host_bits: HostBits, alloc: Global) -> Result<Networks, ReadError>
    ensures read { IfOk result (λ networks. AreOfText host_bits text.now (all_networks networks)) }
    ensures none { IfErr result (IfLine ((networks : List IpPrefix)
        → ¬ (AreOfText host_bits text.now networks))) }
    ensures reason { IfErr result (IsTextReason host_bits text.now) }
{
    match text.split_once('-') {
        Some((first, last)) => parse_range(first, last, alloc),
        None => parse_one(text, host_bits),
    }
}

// Returns whether a text has a hyphen.
fn has_hyphen(text: &str) -> bool
    ensures { result ≡ has_hyphen text.now }
{
    text.as_bytes().iter().any(|byte| *byte == b'-')
}

// Reads one network.
fn parse_one(text: &str, host_bits: HostBits) -> Result<Networks, ReadError>
    ensures read { IfOk result
        (λ networks. AreOfTextByHyphen false host_bits text.now (all_networks networks)) }
    ensures none { IfErr result (IfLine ((networks : List IpPrefix)
        → ¬ (AreOfTextByHyphen false host_bits text.now networks))) }
    ensures reason { IfErr result (IsReasonByHyphen false host_bits text.now) }
{
    match parse_network_with(text, host_bits) {
        Ok(network) => Ok(Networks::One(network)),
        Err(error) => Err(ReadError::Line(LineError::Network(error))),
    }
}

// Reads the two ends of a range, and returns its networks.
pub(crate) fn parse_range(first: &str, last: &str, alloc: Global) -> Result<Networks, ReadError>
    ensures read { IfOk result (λ networks. AreOfEnds first.now last.now (all_networks networks)) }
    ensures none { IfErr result (IfLine ((networks : List IpPrefix)
        → ¬ (AreOfEnds first.now last.now networks))) }
    ensures reason { IfErr result (IsEndsReason first.now last.now) }
{
    let (Ok(first), Ok(last)) = (first.parse::<IpAddr>(), last.parse::<IpAddr>()) else {
        return Err(ReadError::Line(LineError::RangeEnds));
    };
    range_networks(first, last, alloc)
}

// Returns the networks of a range of addresses.
fn range_networks(first: IpAddr, last: IpAddr, alloc: Global) -> Result<Networks, ReadError>
    ensures read { IfOk result (λ networks. AreOfRange first last (all_networks networks)) }
    ensures none { IfErr result (IfLine ((networks : List IpPrefix)
        → ¬ (AreOfRange first last networks))) }
    ensures reason { IfErr result (IsRangeReason first last) }
{
    match (first, last) {
        (IpAddr::V4(first), IpAddr::V4(last)) => ipv4_networks(first, last, alloc),
        (IpAddr::V6(first), IpAddr::V6(last)) => ipv6_networks(first, last, alloc),
        (IpAddr::V4(_), IpAddr::V6(_)) | (IpAddr::V6(_), IpAddr::V4(_)) => {
            Err(ReadError::Line(LineError::RangeFamilies))
        }
    }
}

// Returns the networks of a range of IPv4 addresses.
fn ipv4_networks(first: Ipv4Addr, last: Ipv4Addr, alloc: Global) -> Result<Networks, ReadError>
    ensures read { IfOk result (λ networks. AreOfIpv4Range first last (all_networks networks)) }
    ensures none { IfErr result (IfLine ((networks : List IpPrefix)
        → ¬ (AreOfIpv4Range first last networks))) }
    ensures reason { IfErr result (IsRangeReason (Ip.V4 first) (Ip.V4 last)) }
{
    let (first, last) = (first.to_bits(), last.to_bits());
    if last < first {
        return Err(ReadError::Line(LineError::RangeOrder));
    }
    let networks = networks_of::<Ipv4Prefix, Global>(first, last, alloc)?;
    Ok(Networks::Many(networks.into_iter().map(IpPrefix::V4).collect(alloc)?))
}

// Returns the networks of a range of IPv6 addresses.
fn ipv6_networks(first: Ipv6Addr, last: Ipv6Addr, alloc: Global) -> Result<Networks, ReadError>
    ensures read { IfOk result (λ networks. AreOfIpv6Range first last (all_networks networks)) }
    ensures none { IfErr result (IfLine ((networks : List IpPrefix)
        → ¬ (AreOfIpv6Range first last networks))) }
    ensures reason { IfErr result (IsRangeReason (Ip.V6 first) (Ip.V6 last)) }
{
    let (first, last) = (first.to_bits(), last.to_bits());
    if last < first {
        return Err(ReadError::Line(LineError::RangeOrder));
    }
    let networks = networks_of::<Ipv6Prefix, Global>(first, last, alloc)?;
    Ok(Networks::Many(networks.into_iter().map(IpPrefix::V6).collect(alloc)?))
}
