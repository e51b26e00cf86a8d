//! Cases: calls of a table with the expected results. One function runs them all.
use crate::agreement::Table;
use prefix_trie::{Key, Prefix, Refusal};
use prefix_trie_forwarding::Hop;
use std::alloc::{Allocator, Global};

/// A call of a table with its expected result. Hops are numbers.
#[derive(Clone, Copy)]
pub enum Case<K> {
    /// `insert` sets this hop and returns the previous one.
    Inserts((K, u8), u32, Option<u32>),
    /// `remove` returns this hop.
    Removes((K, u8), Option<u32>),
    /// `lookup_len` of an address returns this length and this hop, and `lookup` the hop.
    Finds(K, Option<(u8, u32)>),
    /// `lookup_counted` of an address returns this hop and this number of reads.
    Reads(K, Option<u32>, u32),
    /// `clear` removes all networks.
    Clears,
    /// The number of networks.
    Len(usize),
    /// The number of groups.
    Groups(usize),
    /// The number of slots.
    Slots(usize),
}

/// Returns the number of a hop.
fn number(hop: Option<Hop>) -> Option<u32> {
    match hop {
        Some(hop) => Some(hop.get()),
        None => None,
    }
}

/// Returns whether an insertion returns this hop.
fn inserts<K: Key, A: Allocator>(
    table: &mut Table<K, A>,
    network: (K, u8),
    hop: u32,
    before: Option<u32>,
) -> bool {
    match Hop::new(hop) {
        Some(hop) if network.fits() => match table.insert(network, hop) {
            Ok(previous) => number(previous) == before,
            Err(_) => false,
        },
        _ => false,
    }
}

/// Returns whether the lookups of an address return this.
fn finds<K: Key, A: Allocator>(table: &Table<K, A>, address: K, wanted: Option<(u8, u32)>) -> bool {
    match (table.lookup_len(address), wanted) {
        (Some((len, hop)), Some(wanted)) => {
            (len, hop.get()) == wanted && table.lookup(address) == Some(hop)
        }
        (None, None) => table.lookup(address).is_none(),
        _ => false,
    }
}

/// Returns whether the counted lookup of an address returns this hop and this number of reads.
fn reads<K: Key, A: Allocator>(
    table: &Table<K, A>,
    address: K,
    hop: Option<u32>,
    wanted: u32,
) -> bool {
    let (found, count) = table.lookup_counted(address);
    number(found) == hop && count == wanted
}

/// Removes all networks. Returns whether none is left.
fn clears<K: Key, A: Allocator>(table: &mut Table<K, A>) -> bool {
    table.clear();
    table.is_empty()
}

/// Makes the call of a case. Returns whether its result is the expected one.
fn holds<K: Key, A: Allocator>(table: &mut Table<K, A>, case: &Case<K>) -> bool {
    match *case {
        Case::Inserts(network, hop, before) => inserts(table, network, hop, before),
        Case::Removes(network, hop) => network.fits() && number(table.remove(&network)) == hop,
        Case::Finds(address, wanted) => finds(table, address, wanted),
        Case::Reads(address, hop, count) => reads(table, address, hop, count),
        Case::Clears => clears(table),
        Case::Len(len) => table.len() == len && table.is_empty() == (len == 0),
        Case::Groups(groups) => table.group_count() == groups,
        Case::Slots(slots) => table.slot_count() == slots,
    }
}

/// Makes the calls of cases. Returns the place of the first one whose result is not the expected one.
fn first_failure<K: Key, A: Allocator>(
    table: &mut Table<K, A>,
    cases: &[Case<K>],
) -> Option<usize> {
    for (place, case) in cases.iter().enumerate() {
        if !holds(table, case) {
            return Some(place);
        }
    }
    None
}

/// Makes the calls of cases on a new table with a root of so many bits, and returns the first failure.
pub fn failure_in<K: Key>(
    alloc: Global,
    root_bits: u32,
    cases: &[Case<K>],
) -> Result<Option<usize>, Refusal> {
    let mut table = Table::<K, Global>::with_root_bits(alloc, root_bits)?;
    Ok(first_failure(&mut table, cases))
}
