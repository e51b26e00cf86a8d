//! Every map over keys of three bits, compiled and compared with the map at each address.
use crate::tables::{agrees, keys_of, put};
use prefix_trie::{Narrow, PrefixMap, Refusal};
use std::alloc::Global;

/// The number and the length of each prefix of at most three bits.
static PREFIXES: [(u64, u8); 15] = [
    (0, 0),
    (0, 1),
    (4, 1),
    (0, 2),
    (2, 2),
    (4, 2),
    (6, 2),
    (0, 3),
    (1, 3),
    (2, 3),
    (3, 3),
    (4, 3),
    (5, 3),
    (6, 3),
    (7, 3),
];

static ADDRESSES: [u64; 8] = [0, 1, 2, 3, 4, 5, 6, 7];

/// Replaces the entries of a map by the prefixes of a set, each with one of `values` values.
///
/// The k-th prefix is in the set if bit k of its number is 1.
fn fill(
    map: &mut PrefixMap<(Narrow<3>, u8), u32, Global>,
    set: u32,
    values: u32,
) -> Result<(), Refusal> {
    map.clear();
    let mut rest = set;
    for (k, network) in PREFIXES.iter().enumerate() {
        if rest % 2 == 1 {
            put(map, *network, (k as u32).checked_rem(values).unwrap_or(0))?;
        }
        rest /= 2;
    }
    Ok(())
}

/// Returns whether each map with these values has its entries, and agrees with its table at each address.
fn all_agree(alloc: Global, values: u32) -> Result<bool, Refusal> {
    let addresses = keys_of(&ADDRESSES, alloc)?;
    let mut map = PrefixMap::new(alloc)?;
    let mut all = addresses.len() == 8;
    for set in 0..32_768_u32 {
        fill(&mut map, set, values)?;
        all &= map.len() == set.count_ones() as usize;
        all &= agrees(&map, &addresses, alloc)?;
    }
    Ok(all)
}

#[test]
fn every_map_with_values_of_its_own_agrees(rt: HostRuntime) {
    assert!(rt; all_agree(rt.alloc(), 15) == Ok(true));
}

#[test]
fn every_map_with_two_values_agrees(rt: HostRuntime) {
    assert!(rt; all_agree(rt.alloc(), 2) == Ok(true));
}
