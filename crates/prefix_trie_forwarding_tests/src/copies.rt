//! Tables made from maps, copies, equality, text, and lookups in bulk.
use crate::agreement::{Table, agrees, agrees_at, groups_needed};
use prefix_trie::{Prefix, PrefixMap, Refusal};
use prefix_trie_forwarding::{ForwardingTable, Hop};
use prefix_trie_tests::refusing::Refusing;
use std::alloc::{Allocator, Global};

/// More allocations than a call makes.
const MANY: u64 = 100;

/// The bits of the root.
const ROOT_BITS: u32 = 16;

/// Networks in one another and beside one another. The hop of each is its place.
static NETWORKS: [(u32, u8); 6] = [
    (0, 0),
    (0x0a00_0000, 8),
    (0x0a01_0200, 24),
    (0x0a01_0203, 32),
    (0x0a01_0300, 25),
    (0xffff_ffff, 32),
];

type Map<A> = PrefixMap<(u32, u8), Hop, A>;

/// A call that makes a table.
#[derive(Clone, Copy)]
enum Making {
    WithRoot,
    FromMap,
    Copying,
}

/// Creates the map of the networks.
fn map_of<A: Allocator + Copy>(alloc: A) -> Result<Map<A>, Refusal> {
    let mut map = PrefixMap::new(alloc)?;
    for (place, network) in NETWORKS.iter().enumerate() {
        if let (Some(hop), true) = (Hop::new(place as u32 % 8), network.fits()) {
            map.insert(*network, hop)?;
        }
    }
    Ok(map)
}

/// Creates the table of the networks.
fn table_of<A: Allocator + Copy>(alloc: A) -> Result<Table<u32, A>, Refusal> {
    Ok(ForwardingTable::from_map(alloc, map_of(alloc)?, ROOT_BITS)?)
}

/// Returns whether a table has the answers, the groups and the map of the networks.
fn is_right<A: Allocator>(table: &Table<u32, A>, map: &Map<A>) -> bool {
    (table.map() == map)
        & agrees(table)
        & (table.len() == 6)
        & (table.group_count() == groups_needed(map, ROOT_BITS))
        & (table.group_count() == 5)
}

/// Returns whether a table made from a map is right, and a copy that is changed leaves it so.
fn copies_are_apart(alloc: Global) -> Result<bool, Refusal> {
    let map = map_of(alloc)?;
    let table = table_of(alloc)?;
    let mut copy = table.clone()?;
    let is_same = (copy == table) & is_right(&copy, &map);
    let host = (0x0a01_0203, 32);
    let removed = host.fits() && copy.remove(&host).is_some();
    Ok(is_same & removed & (copy != table) & is_right(&table, &map) & agrees_at(&copy, host.0))
}

/// Returns whether looking up the first addresses of the networks in bulk finds their hops.
fn finds_in_bulk(table: &Table<u32, Global>) -> bool {
    let addresses = [0x0a01_0203, 0x0a01_0301, 0x0b00_0000];
    let mut hops = [None; 3];
    table.lookup_bulk(&addresses, &mut hops);
    hops == [Hop::new(3), Hop::new(4), Hop::new(0)]
}

/// Returns whether the debug output of a table of one network is this text.
fn is_printed(text: &str, alloc: Global) -> Result<bool, Refusal> {
    let mut table = Table::<u32, Global>::with_root_bits(alloc, ROOT_BITS)?;
    let network = (0x0a00_0000, 8);
    if let (Some(hop), true) = (Hop::new(1), network.fits()) {
        table.insert(network, hop)?;
    }
    match format!(in alloc; "{table:?}") {
        Ok(printed) => Ok(printed.as_str() == text),
        Err(_) => Err(Refusal::Memory),
    }
}

/// Makes a table from a map. Returns whether it is right, or the map is as it was if it is given back.
fn made_from<A: Allocator + Copy>(alloc: A, map: Map<A>, wanted: &Map<A>) -> Result<bool, Refusal> {
    match ForwardingTable::from_map(alloc, map, ROOT_BITS) {
        Ok(table) => Ok(is_right(&table, wanted)),
        Err(refused) => {
            if refused.value == *wanted {
                Err(refused.cause)
            } else {
                Ok(false)
            }
        }
    }
}

/// Makes a table, and lets allocations fail after `passed` of them. Returns whether it is right.
fn outcome<A: Allocator + Copy>(
    heap: &Refusing<Global>,
    alloc: A,
    making: Making,
    passed: u64,
) -> Result<bool, Refusal> {
    heap.refuse(0, 0);
    let wanted = map_of(alloc)?;
    let map = map_of(alloc)?;
    let table = table_of(alloc)?;
    heap.refuse(passed, u64::MAX);
    match making {
        Making::WithRoot => Ok(Table::<u32, A>::with_root_bits(alloc, ROOT_BITS)?.is_empty()),
        Making::FromMap => made_from(alloc, map, &wanted),
        Making::Copying => Ok(is_right(&table.clone()?, &wanted)),
    }
}

/// Returns whether making a table fails exactly if an allocation fails.
fn fails_with_each(heap: &Refusing<Global>, making: Making) -> bool {
    for passed in 0..MANY {
        let result = outcome(heap, heap, making, passed);
        if heap.left() == u64::MAX {
            return passed > 1 && result == Ok(true);
        }
        if result != Err(Refusal::Memory) {
            return false;
        }
    }
    false
}

#[test]
fn copies_share_nothing(rt: HostRuntime) {
    assert!(rt; copies_are_apart(rt.alloc()) == Ok(true));
}

#[test]
fn many_addresses_have_their_hops(rt: HostRuntime) {
    let table = table_of(rt.alloc());
    assert!(rt;
        match &table {
            Ok(table) => finds_in_bulk(table),
            Err(_) => false
        }
    );
}

#[test]
fn debug_output_is_that_of_the_map(rt: HostRuntime) {
    let text = "{(167772160, 8): { value: Hop { number: 1 } }}";
    assert!(rt; is_printed(text, rt.alloc()) == Ok(true));
}

#[test]
fn making_a_table_fails_exactly_if_an_allocation_fails(rt: HostRuntime) {
    let heap = Refusing::new(rt.alloc());
    for making in [Making::WithRoot, Making::FromMap, Making::Copying] {
        assert!(rt; fails_with_each(&heap, making));
    }
}
