//! Filling maps and comparing their contents, for the tests of any map.
use prefix_trie::{Prefix, PrefixMap, Refused};
use std::alloc::Allocator;

/// Returns whether an insertion was of a new key.
fn is_new_key<T: Drop>(answer: Result<Option<T>, Refused<T>>) -> bool {
    match answer {
        Ok(None) => true,
        _ => false,
    }
}

/// Inserts a value. It has no `ensures`, because each caller would check the clauses of `insert` again.
pub fn put<P: Prefix, T: Drop, A: Allocator>(
    map: &mut PrefixMap<P, T, A>,
    prefix: P,
    value: T,
) -> Result<Option<T>, Refused<T>>
    requires { P.IsFitting prefix }
{
    map.insert(prefix, value)
}

/// Inserts a value. Returns whether its prefix fits and is new.
pub fn adds<P: Prefix, T: Drop, A: Allocator>(
    map: &mut PrefixMap<P, T, A>,
    prefix: P,
    value: T,
) -> bool {
    prefix.fits() && is_new_key(put(map, prefix, value))
}

/// Inserts entries in order. Returns whether each prefix fits and is new.
pub fn stores<P: Prefix + Copy, T: Copy + Drop, A: Allocator>(
    map: &mut PrefixMap<P, T, A>,
    entries: &[(P, T)],
) -> bool {
    for (prefix, value) in entries {
        if !adds(map, *prefix, *value) {
            return false;
        }
    }
    true
}

/// Returns whether these are all prefixes, in listing order.
pub fn has_keys<P: Prefix + Copy + PartialEq, T: Drop, A: Allocator>(
    map: &PrefixMap<P, T, A>,
    prefixes: &[P],
) -> bool {
    let mut keys = map.keys();
    for prefix in prefixes {
        if keys.next() != Some(*prefix) {
            return false;
        }
    }
    keys.next().is_none()
}
