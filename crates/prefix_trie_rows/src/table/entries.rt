//! Calls of one entry of a map.
use crate::table::{Map, Pair, TablePrefix, fitting_prefix, is_prefix};
use prefix_trie::map::Entry as MapEntry;
use prefix_trie::{Prefix, Refusal, Refused};

pub fn has_key<P: TablePrefix>(map: &mut Map<P>, pair: Pair, expected: Pair) -> bool {
    match fitting_prefix::<P>(pair) {
        Some(prefix) => is_prefix(map.entry(prefix).key(), expected),
        None => false,
    }
}

pub fn has_value<P: TablePrefix>(map: &mut Map<P>, pair: Pair, expected: Option<u64>) -> bool {
    match fitting_prefix::<P>(pair) {
        Some(prefix) => map.entry(prefix).get().copied() == expected,
        None => false,
    }
}

/// Adds one to a stored value, or inserts this one. Returns whether the value is then the expected one.
pub fn adds<P: TablePrefix>(map: &mut Map<P>, pair: Pair, fresh: u64, expected: u64) -> bool {
    let Some(prefix) = fitting_prefix::<P>(pair) else {
        return false;
    };
    let entry = map.entry(prefix).and_modify(|n| *n = n.saturating_add(1));
    match entry.or_insert(fresh) {
        Ok(value) => *value == expected,
        Err(_) => false,
    }
}

/// Returns whether `or_default` lends the expected value. Sets it to another.
pub fn or_default<P: TablePrefix>(map: &mut Map<P>, pair: Pair, expected: u64, then: u64) -> bool {
    let Some(prefix) = fitting_prefix::<P>(pair) else {
        return false;
    };
    match map.entry(prefix).or_default() {
        Ok(value) => {
            let found = *value;
            *value = then;
            found == expected
        }
        Err(_) => false,
    }
}

/// Returns whether the value is the expected one and the closure, which returns `fresh`, is called this many times.
pub fn or_insert_with<P: TablePrefix>(
    map: &mut Map<P>,
    pair: Pair,
    fresh: u64,
    expected: u64,
    calls: u64,
) -> bool {
    let Some(prefix) = fitting_prefix::<P>(pair) else {
        return false;
    };
    let mut called = 0_u64;
    let value = map.entry(prefix).or_insert_with(|| {
        called = called.saturating_add(1);
        fresh
    });
    let found = match value {
        Ok(value) => *value,
        Err(_) => return false,
    };
    found == expected && called == calls
}

pub fn inserts<P: TablePrefix>(
    map: &mut Map<P>,
    pair: Pair,
    value: u64,
    expected: Result<Option<u64>, Refusal>,
) -> bool {
    match fitting_prefix::<P>(pair) {
        Some(prefix) => map.entry(prefix).put(value).answer()
            == expected.map_err(|cause| Refused { cause, value }),
        None => false,
    }
}

pub fn removes<P: TablePrefix>(map: &mut Map<P>, pair: Pair, expected: Option<u64>) -> bool {
    let Some(prefix) = fitting_prefix::<P>(pair) else {
        return false;
    };
    match map.entry(prefix) {
        MapEntry::Occupied(entry) => Some(entry.remove()) == expected,
        MapEntry::Vacant(_) => expected.is_none(),
    }
}
