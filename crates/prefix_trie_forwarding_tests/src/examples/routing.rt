//! Packets that are routed while routes come and go.
use super::router::Event::{Announced, Packet, Withdrawn};
use super::router::route;
use prefix_trie::{Ipv4Prefix, Refusal};
use prefix_trie_forwarding::Hop;
use std::alloc::Global;

/// The address 10.1.2.3, which both routes contain.
const ADDRESS: u32 = 0x0a01_0203;

/// Routes packets while two routes come and one goes. Returns the next hops.
fn hops(first: Hop, second: Hop, alloc: Global) -> Result<Vec<Option<Hop>>, Refusal> {
    let wide = Ipv4Prefix::new(0x0a00_0000, 8).unwrap();
    let near = Ipv4Prefix::new(0x0a01_0200, 24).unwrap();
    let events = [
        Packet(ADDRESS),
        Announced(wide, first),
        Packet(ADDRESS),
        Announced(near, second),
        Packet(ADDRESS),
        Withdrawn(near),
        Packet(ADDRESS),
    ];
    route(&events, alloc)
}

/// Returns whether packets have no hop, then those of the two routes, and then that of the route that is left.
fn is_routed(alloc: Global) -> Result<bool, Refusal> {
    match (Hop::new(1), Hop::new(2)) {
        (Some(first), Some(second)) => {
            let found = hops(first, second, alloc)?;
            Ok(found.as_slice() == [None, Some(first), Some(second), Some(first)].as_slice())
        }
        _ => Ok(false),
    }
}

#[test]
fn example_runs(rt: HostRuntime) {
    assert!(rt; is_routed(rt.alloc()) == Ok(true));
}
