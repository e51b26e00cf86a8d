//! Networks that are inserted in every order and removed in every order, with all addresses asked after each call.
//!
//! The root has two bits. Of addresses of four bits, every map with at most three networks is made. Addresses of ten bits
//! have 2,047 networks, too many for all sets of three. There the tests make every map with at most three networks of a
//! list, and every map of one network of the 2,047, one that ends beside the middle, and all addresses.
use crate::agreement::{Table, groups_needed};
use prefix_trie::{Narrow, Prefix, PrefixMap, Refusal};
use prefix_trie_forwarding::Hop;
use std::alloc::Global;

type Network<const W: u32> = (Narrow<W>, u8);

/// The bits of the root.
const ROOT_BITS: u32 = 2;

/// The orders of three networks.
static ORDERS: [[usize; 3]; 6] = [
    [0, 1, 2],
    [0, 2, 1],
    [1, 0, 2],
    [1, 2, 0],
    [2, 0, 1],
    [2, 1, 0],
];

/// Networks of ten bits: all addresses, blocks of the root and wider ones, parts of a block, and hosts at their ends.
static LISTED: [(u64, u8); 18] = [
    (0, 0),
    (0, 1),
    (0, 2),
    (0, 3),
    (0, 9),
    (0, 10),
    (0x001, 10),
    (0x07e, 9),
    (0x07f, 10),
    (0x080, 3),
    (0x0f0, 6),
    (0x0ff, 10),
    (0x100, 2),
    (0x100, 8),
    (0x100, 10),
    (0x200, 1),
    (0x300, 2),
    (0x3ff, 10),
];

/// A network with its first and its last address.
#[derive(Clone, Copy)]
struct Entry {
    first: u64,
    last: u64,
    len: u8,
    hop: Hop,
}

/// Returns the entries of a map in the order of its walk, in which a network comes after those that contain it.
fn entries_of<const W: u32>(
    map: &PrefixMap<Network<W>, Hop, Global>,
    alloc: Global,
) -> Result<Vec<Entry>, Refusal> {
    let mut entries = Vec::new(alloc);
    for ((first, len), hop) in map {
        let first = first.get();
        let host_bits = W.wrapping_sub(u32::from(len));
        let more = 1_u64.checked_shl(host_bits).unwrap_or(0).wrapping_sub(1);
        let last = first.wrapping_add(more);
        let hop = *hop;
        let entry = Entry {
            first,
            last,
            len,
            hop,
        };
        entries.push(entry).map_err(|_| Refusal::Memory)?;
    }
    Ok(entries)
}

/// Returns the length and the hop of the last entry that contains an address.
fn scanned(entries: &[Entry], address: u64) -> Option<(u8, Hop)> {
    let mut found = None;
    for entry in entries {
        if entry.first <= address && address <= entry.last {
            found = Some((entry.len, entry.hop));
        }
    }
    found
}

/// Returns whether a table agrees at all addresses with a scan of its map, and has the groups that its networks need.
fn is_right<const W: u32>(
    table: &Table<Narrow<W>, Global>,
    alloc: Global,
) -> Result<bool, Refusal> {
    let entries = entries_of(table.map(), alloc)?;
    let mut all = table.group_count() == groups_needed(table.map(), ROOT_BITS);
    for number in 0..1024_u64 {
        match Narrow::new(number) {
            Some(address) => all &= table.lookup_len(address) == scanned(&entries, number),
            None => return Ok(all),
        }
    }
    Ok(all)
}

/// Inserts networks in an order, each with its place as its hop. Returns whether the table is right after each insertion,
/// if `is_asked`.
fn inserts<const W: u32>(
    table: &mut Table<Narrow<W>, Global>,
    networks: &[Network<W>; 3],
    order: &[usize; 3],
    is_asked: bool,
    alloc: Global,
) -> Result<bool, Refusal> {
    let mut all = true;
    for place in order {
        match (networks.get(*place), Hop::new((*place % 4) as u32)) {
            (Some(network), Some(hop)) if network.fits() => {
                all &= table.insert(*network, hop)?.is_none();
            }
            _ => all = false,
        }
        all &= !is_asked || is_right(table, alloc)?;
    }
    Ok(all)
}

/// Removes networks in an order. Returns whether the table is right after each removal.
fn removes<const W: u32>(
    table: &mut Table<Narrow<W>, Global>,
    networks: &[Network<W>; 3],
    order: &[usize; 3],
    alloc: Global,
) -> Result<bool, Refusal> {
    let mut all = true;
    for place in order {
        match networks.get(*place) {
            Some(network) if network.fits() => {
                all &= table.remove(network) == Hop::new((*place % 4) as u32);
            }
            _ => all = false,
        }
        all &= table.is_empty() || is_right(table, alloc)?;
    }
    Ok(all & table.is_empty() & (table.group_count() == 0))
}

/// Returns whether a table is right while networks are inserted in an order and removed, in every order.
fn go<const W: u32>(
    table: &mut Table<Narrow<W>, Global>,
    networks: &[Network<W>; 3],
    order: &[usize; 3],
    alloc: Global,
) -> Result<bool, Refusal> {
    let mut all = true;
    for (place, removals) in ORDERS.iter().enumerate() {
        all &= inserts(table, networks, order, place == 0, alloc)?;
        all &= removes(table, networks, removals, alloc)?;
    }
    Ok(all)
}

/// Returns whether an empty table is right while three networks are inserted in every order and removed in every order.
fn come_and_go<const W: u32>(
    table: &mut Table<Narrow<W>, Global>,
    networks: &[Network<W>; 3],
    alloc: Global,
) -> Result<bool, Refusal> {
    let mut all = true;
    for order in ORDERS.iter() {
        all &= go(table, networks, order, alloc)?;
    }
    Ok(all)
}

/// Returns whether two networks come and go with each network of a list.
fn come_and_go_with<const W: u32>(
    table: &mut Table<Narrow<W>, Global>,
    first: Network<W>,
    second: Network<W>,
    list: &[Network<W>],
    alloc: Global,
) -> Result<bool, Refusal> {
    let mut all = true;
    for third in list {
        if *third != first && *third != second {
            all &= come_and_go(table, &[first, second, *third], alloc)?;
        }
    }
    Ok(all)
}

/// Returns whether a network comes and goes with all sets of two networks of a list.
fn come_and_go_with_two<const W: u32>(
    table: &mut Table<Narrow<W>, Global>,
    first: Network<W>,
    list: &[Network<W>],
    alloc: Global,
) -> Result<bool, Refusal> {
    let mut all = true;
    let mut rest = list;
    for _ in 0..list.len() {
        if let Some((second, more)) = rest.split_first() {
            rest = more;
            all &= come_and_go_with(table, first, *second, rest, alloc)?;
        }
    }
    Ok(all)
}

/// Returns whether all sets of three networks of a list come and go, and a table has no more groups than three need.
fn all_come_and_go<const W: u32>(list: &[Network<W>], alloc: Global) -> Result<bool, Refusal> {
    let mut table = Table::with_root_bits(alloc, ROOT_BITS)?;
    let mut all = true;
    let mut rest = list;
    for _ in 0..list.len() {
        if let Some((first, more)) = rest.split_first() {
            rest = more;
            all &= come_and_go_with_two(&mut table, *first, rest, alloc)?;
        }
    }
    Ok(all & (table.slot_count() <= 4 + 3 * 256))
}

/// Adds the networks of a length to a list.
fn add_networks<const W: u32>(list: &mut Vec<Network<W>>, len: u8) -> Result<(), Refusal> {
    for number in 0..1024_u64 {
        if let Some(first) = Narrow::new(number) {
            let network = (first, len);
            if network.fits() && network.mask() == first {
                list.push(network).map_err(|_| Refusal::Memory)?;
            }
        }
    }
    Ok(())
}

/// Returns all networks.
fn all_networks<const W: u32>(alloc: Global) -> Result<Vec<Network<W>>, Refusal> {
    let mut list = Vec::new(alloc);
    for len in 0..=10_u8 {
        add_networks(&mut list, len)?;
    }
    Ok(list)
}

/// Returns the networks of `LISTED`.
fn listed(alloc: Global) -> Result<Vec<Network<10>>, Refusal> {
    let mut list = Vec::new(alloc);
    for (number, len) in LISTED.iter() {
        if let Some(first) = Narrow::new(*number) {
            list.push((first, *len)).map_err(|_| Refusal::Memory)?;
        }
    }
    Ok(list)
}

/// Returns whether every map with at most three networks of four bits is right.
fn small_maps_are_right(alloc: Global) -> Result<bool, Refusal> {
    let list = all_networks::<4>(alloc)?;
    Ok((list.len() == 31) & all_come_and_go(&list, alloc)?)
}

/// Returns whether every map with at most three listed networks is right.
fn listed_maps_are_right(alloc: Global) -> Result<bool, Refusal> {
    let list = listed(alloc)?;
    Ok((list.len() == 18) & all_come_and_go(&list, alloc)?)
}

/// Returns whether each network of ten bits comes and goes with two others.
fn each_network_is_right(alloc: Global) -> Result<bool, Refusal> {
    let list = all_networks::<10>(alloc)?;
    let mut table = Table::with_root_bits(alloc, ROOT_BITS)?;
    match (Narrow::new(0), Narrow::new(0x1ff)) {
        (Some(start), Some(host)) => {
            let all = come_and_go_with(&mut table, (start, 0), (host, 10), &list, alloc)?;
            Ok((list.len() == 2047) & all)
        }
        _ => Ok(false),
    }
}

#[test]
fn small_networks_come_and_go_in_every_order(rt: HostRuntime) {
    assert!(rt; small_maps_are_right(rt.alloc()) == Ok(true));
}

#[test]
fn listed_networks_come_and_go_in_every_order(rt: HostRuntime) {
    assert!(rt; listed_maps_are_right(rt.alloc()) == Ok(true));
}

#[test]
fn each_network_comes_and_goes_in_every_order(rt: HostRuntime) {
    assert!(rt; each_network_is_right(rt.alloc()) == Ok(true));
}
