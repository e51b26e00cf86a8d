//! Maps that are compared with others.
use crate::table::{Entry, Map, TablePrefix, inserts};
use prefix_trie::Prefix;
use std::alloc::Global;

/// Returns whether a map is equal to its clone, and the clone has the same slots and blocks.
pub fn clones<P: TablePrefix>(map: &Map<P>) -> bool {
    match map.clone() {
        Ok(copy) => copy == *map && is_stored_alike(map, &copy),
        Err(_) => false,
    }
}

fn is_stored_alike<P: Prefix>(map: &Map<P>, copy: &Map<P>) -> bool {
    copy.node_slots() == map.node_slots()
        && copy.cell_slots() == map.cell_slots()
        && copy.node_blocks() == map.node_blocks()
        && copy.cell_blocks() == map.cell_blocks()
}

/// Returns whether a new map with these entries, inserted in this order, is equal to the map, as expected.
pub fn equals<P: TablePrefix>(
    alloc: Global,
    map: &Map<P>,
    entries: &[Entry],
    expected: bool,
) -> bool {
    let Ok(mut other) = Map::<P>::new(alloc) else {
        return false;
    };
    inserts_each(&mut other, entries) & ((other == *map) == expected)
}

/// Inserts entries in order. Returns whether each is new.
fn inserts_each<P: TablePrefix>(map: &mut Map<P>, entries: &[Entry]) -> bool {
    for (pair, value) in entries {
        if !inserts(map, *pair, *value, Ok(None)) {
            return false;
        }
    }
    true
}
