//! A proved example program, written as a user would write it.
pub mod countries;

use countries::{Countries, DE, FR, Networks};
use prefix_trie::{Ipv4Prefix, Ipv6Prefix, PrefixMap, Refusal};
use std::alloc::Global;

/// The address of 192.0.2.0/24, a network of documentation.
const IPV4_SITE: u32 = 0xc000_0200;

/// The address of 2001:db8::/32, a network of documentation.
const IPV6_SITE: u128 = 0x2001_0db8_0000_0000_0000_0000_0000_0000;

/// The address of 2001:db8:1::/48.
const IPV6_BRANCH: u128 = 0x2001_0db8_0001_0000_0000_0000_0000_0000;

/// Creates an IPv4 network with a country, and another country for its upper half.
fn ipv4_networks(alloc: Global) -> Result<Networks<Ipv4Prefix, Global>, Refusal> {
    let mut networks = PrefixMap::new(alloc)?;
    networks.insert(Ipv4Prefix::new(IPV4_SITE, 24).unwrap(), DE)?;
    networks.insert(Ipv4Prefix::new(IPV4_SITE + 128, 25).unwrap(), FR)?;
    Ok(networks)
}

/// Creates an IPv6 network with a country, and another country for a branch.
fn ipv6_networks(alloc: Global) -> Result<Networks<Ipv6Prefix, Global>, Refusal> {
    let mut networks = PrefixMap::new(alloc)?;
    networks.insert(Ipv6Prefix::new(IPV6_SITE, 32).unwrap(), FR)?;
    networks.insert(Ipv6Prefix::new(IPV6_BRANCH, 48).unwrap(), DE)?;
    Ok(networks)
}

/// Returns whether groups of addresses have the countries of these networks.
fn are_found(countries: &Countries<'_, Global, Global>) -> bool {
    let mut ipv4 = [None; 3];
    countries.of_ipv4(
        &[IPV4_SITE + 1, IPV4_SITE + 200, IPV4_SITE + 256],
        &mut ipv4,
    );
    let mut ipv6 = [None; 3];
    countries.of_ipv6(&[IPV6_SITE + 1, IPV6_BRANCH + 1, 1], &mut ipv6);
    ipv4 == [Some(DE), Some(FR), None] && ipv6 == [Some(FR), Some(DE), None]
}

/// Compiles the networks, and returns whether addresses have their countries.
fn compiles_and_finds(alloc: Global) -> Result<bool, Refusal> {
    let ipv4 = ipv4_networks(alloc)?;
    let ipv6 = ipv6_networks(alloc)?;
    let countries = Countries::new(&ipv4, &ipv6, alloc)?;
    Ok(are_found(&countries))
}

#[test]
fn addresses_of_both_families_have_their_countries(rt: HostRuntime) {
    assert!(rt; compiles_and_finds(rt.alloc()) == Ok(true));
}
