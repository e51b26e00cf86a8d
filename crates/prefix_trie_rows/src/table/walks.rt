//! The walks of a map.
use crate::table::lookups::is_entry;
use crate::table::{Entry, Map, Pair, TablePrefix, fitting_prefix};
use prefix_trie::Prefix;

pub fn lists<P: Prefix>(map: &Map<P>, pairs: &[Pair]) -> bool {
    let mut walk = map.iter();
    let mut value = 0_u64;
    for pair in pairs {
        if !is_entry(walk.next(), Some((*pair, value))) {
            return false;
        }
        value = value.wrapping_add(1);
    }
    walk.next().is_none()
}

pub fn lists_entries<P: Prefix>(map: &Map<P>, entries: &[Entry]) -> bool {
    let mut walk = map.iter();
    for entry in entries {
        if !is_entry(walk.next(), Some(*entry)) {
            return false;
        }
    }
    walk.next().is_none()
}

pub fn goes_on_from<P: TablePrefix>(
    map: &Map<P>,
    pair: Pair,
    inclusive: bool,
    count: usize,
    values: &[u64],
) -> bool {
    match fitting_prefix::<P>(pair) {
        Some(prefix) => map
            .iter_from(&prefix, inclusive)
            .map(value_of)
            .take(count)
            .eq(values),
        None => false,
    }
}

pub fn has_children<P: TablePrefix>(map: &Map<P>, pair: Pair, values: &[u64]) -> bool {
    match fitting_prefix::<P>(pair) {
        Some(prefix) => map.children(&prefix).map(value_of).eq(values),
        None => false,
    }
}

/// Returns the value of an entry that is lent.
fn value_of<'a, P: Prefix>(entry: (P, &'a u64)) -> &'a u64 {
    let (_, value) = entry;
    value
}

pub fn covers<P: TablePrefix>(map: &Map<P>, pair: Pair, entries: &[Entry]) -> bool {
    let Some(prefix) = fitting_prefix::<P>(pair) else {
        return false;
    };
    let mut walk = map.cover(&prefix);
    for entry in entries {
        if !is_entry(walk.next(), Some(*entry)) {
            return false;
        }
    }
    walk.next().is_none()
}

pub fn covers_values<P: TablePrefix>(map: &Map<P>, pair: Pair, values: &[u64]) -> bool {
    match fitting_prefix::<P>(pair) {
        Some(prefix) => map.cover_values(&prefix).eq(values),
        None => false,
    }
}
