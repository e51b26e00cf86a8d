//! Lookups in a map.
use crate::table::{Entry, Map, Pair, TablePrefix, fitting_prefix, is_prefix};
use prefix_trie::Prefix;

pub fn gets<P: TablePrefix>(map: &Map<P>, pair: Pair, expected: Option<u64>) -> bool {
    match fitting_prefix::<P>(pair) {
        Some(prefix) => map.get(&prefix).copied() == expected,
        None => false,
    }
}

/// Returns whether a lookup or a walk returned this entry.
pub fn is_entry<P: Prefix>(found: Option<(P, &u64)>, expected: Option<Entry>) -> bool {
    match (found, expected) {
        (Some((prefix, value)), Some((pair, expected))) => is_prefix(&prefix, pair)
            && *value == expected,
        (None, None) => true,
        _ => false,
    }
}

pub fn finds<P: TablePrefix>(map: &Map<P>, pair: Pair, expected: Option<Entry>) -> bool {
    match fitting_prefix::<P>(pair) {
        Some(prefix) => is_entry(map.get_key_value(&prefix), expected),
        None => false,
    }
}

pub fn finds_longest<P: TablePrefix>(map: &Map<P>, pair: Pair, expected: Option<Entry>) -> bool {
    match fitting_prefix::<P>(pair) {
        Some(prefix) => is_entry(map.get_lpm(&prefix), expected),
        None => false,
    }
}

pub fn finds_shortest<P: TablePrefix>(map: &Map<P>, pair: Pair, expected: Option<Entry>) -> bool {
    match fitting_prefix::<P>(pair) {
        Some(prefix) => is_entry(map.get_spm(&prefix), expected),
        None => false,
    }
}

pub fn is_covered<P: TablePrefix>(map: &Map<P>, pair: Pair, expected: bool) -> bool {
    match fitting_prefix::<P>(pair) {
        Some(prefix) => map.is_covered(&prefix) == expected,
        None => false,
    }
}
