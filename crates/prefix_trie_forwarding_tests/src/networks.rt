//! Tables of IPv4 and IPv6 networks, asked by the addresses of `std`, and the maps that they become.
use prefix_trie::{Ipv4Prefix, Ipv6Prefix, PrefixMap, Refusal};
use prefix_trie_forwarding::{ForwardingTable, Hop};
use std::alloc::Global;
use std::net::{Ipv4Addr, Ipv6Addr};

type Hops = (Option<Hop>, Option<Hop>);

/// Stores the network of one address. Returns its hop, and the hop of another address.
fn ipv4_hops(hop: Hop, alloc: Global) -> Result<Hops, Refusal> {
    let stored = Ipv4Addr::new(10, 1, 2, 3);
    let mut table = ForwardingTable::with_root_bits(alloc, 16)?;
    table.insert(Ipv4Prefix::from(stored), hop)?;
    Ok((
        table.lookup_addr(stored),
        table.lookup_addr(Ipv4Addr::BROADCAST),
    ))
}

/// Does the same for IPv6.
fn ipv6_hops(hop: Hop, alloc: Global) -> Result<Hops, Refusal> {
    let stored = Ipv6Addr::LOCALHOST;
    let mut table = ForwardingTable::with_root_bits(alloc, 16)?;
    table.insert(Ipv6Prefix::from(stored), hop)?;
    Ok((
        table.lookup_addr(stored),
        table.lookup_addr(Ipv6Addr::UNSPECIFIED),
    ))
}

/// Returns whether exactly the stored addresses have the hop.
fn are_found(hop: Hop, alloc: Global) -> Result<bool, Refusal> {
    let found = (Some(hop), None);
    Ok((ipv4_hops(hop, alloc)? == found) & (ipv6_hops(hop, alloc)? == found))
}

/// Creates the map of one network.
fn map_of(hop: Hop, alloc: Global) -> Result<PrefixMap<Ipv4Prefix, Hop, Global>, Refusal> {
    let mut map = PrefixMap::new(alloc)?;
    map.insert(Ipv4Prefix::new(0x0a01_0000, 16).unwrap(), hop)?;
    Ok(map)
}

/// Returns whether the table of a map becomes the same map again.
fn returns_its_map(hop: Hop, alloc: Global) -> Result<bool, Refusal> {
    let map = map_of(hop, alloc)?;
    let table = ForwardingTable::from_map(alloc, map_of(hop, alloc)?, 16)?;
    Ok(table.into_map() == map)
}

#[test]
fn addresses_of_std_are_found(rt: HostRuntime) {
    if let Some(hop) = Hop::new(7) {
        assert!(rt; are_found(hop, rt.alloc()) == Ok(true));
    }
}

#[test]
fn the_table_of_a_map_becomes_the_map(rt: HostRuntime) {
    if let Some(hop) = Hop::new(7) {
        assert!(rt; returns_its_map(hop, rt.alloc()) == Ok(true));
    }
}
