//! Compiled tables of IPv4 and IPv6 networks, asked by the addresses of `std`.
use crate::tables::map_of;
use prefix_trie::{Ipv4Prefix, Ipv6Prefix, Refusal};
use prefix_trie_fib::Fib;
use std::alloc::Global;
use std::net::{Ipv4Addr, Ipv6Addr};

type Values = (Option<u32>, Option<u32>);

/// Compiles the network of one address. Returns its value, and the value of another address.
fn ipv4_values(alloc: Global) -> Result<Values, Refusal> {
    let stored = Ipv4Addr::new(10, 1, 2, 3);
    let map = map_of(&[Ipv4Prefix::from(stored)], alloc)?;
    let fib = Fib::new(&map, alloc)?;
    Ok((
        fib.lookup_addr(stored),
        fib.lookup_addr(Ipv4Addr::BROADCAST),
    ))
}

/// Does the same for IPv6.
fn ipv6_values(alloc: Global) -> Result<Values, Refusal> {
    let stored = Ipv6Addr::LOCALHOST;
    let map = map_of(&[Ipv6Prefix::from(stored)], alloc)?;
    let fib = Fib::new(&map, alloc)?;
    Ok((
        fib.lookup_addr(stored),
        fib.lookup_addr(Ipv6Addr::UNSPECIFIED),
    ))
}

#[test]
fn addresses_of_std_are_found(rt: HostRuntime) {
    assert!(rt; ipv4_values(rt.alloc()) == Ok((Some(0), None)));
    assert!(rt; ipv6_values(rt.alloc()) == Ok((Some(0), None)));
}
