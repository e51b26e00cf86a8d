//! Walks that consume a map. They consume a clone, so that the lines after them find the map unchanged.
use crate::table::{Entry, Map, Pair, TablePrefix, fitting_prefix, is_prefix};
use prefix_trie::Prefix;
use prefix_trie::map::{IntoIter, IntoKeys};
use std::alloc::Global;

pub fn gives_children<P: TablePrefix>(map: &Map<P>, pair: Pair, entries: &[Entry]) -> bool {
    match (map.clone(), fitting_prefix::<P>(pair)) {
        (Ok(copy), Some(prefix)) => are_entries(&mut copy.into_children(&prefix), entries),
        _ => false,
    }
}

fn are_entries<P: Prefix>(walk: &mut IntoIter<P, u64, Global>, entries: &[Entry]) -> bool {
    for (pair, value) in entries {
        match walk.next() {
            Some((prefix, taken)) if is_prefix(&prefix, *pair) && taken == *value => {}
            _ => return false,
        }
    }
    walk.next().is_none()
}

pub fn gives_keys<P: Prefix>(map: &Map<P>, pairs: &[Pair]) -> bool {
    match map.clone() {
        Ok(copy) => are_keys(&mut copy.into_keys(), pairs),
        Err(_) => false,
    }
}

fn are_keys<P: Prefix>(walk: &mut IntoKeys<P, u64, Global>, pairs: &[Pair]) -> bool {
    for pair in pairs {
        match walk.next() {
            Some(prefix) if is_prefix(&prefix, *pair) => {}
            _ => return false,
        }
    }
    walk.next().is_none()
}
