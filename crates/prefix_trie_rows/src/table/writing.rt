//! Walks that write to a map.
use crate::table::{Map, Pair, TablePrefix, fitting_prefix};
use prefix_trie::Prefix;
use prefix_trie::map::IterMut;
use std::alloc::Global;

/// Adds a number to each value from a prefix on.
pub fn adds<P: TablePrefix>(map: &mut Map<P>, pair: Pair, inclusive: bool, more: u64) -> bool {
    let steps = map.len();
    match fitting_prefix::<P>(pair) {
        Some(prefix) => {
            change_each(&mut map.iter_from_mut(&prefix, inclusive), steps, 1, more);
            true
        }
        None => false,
    }
}

/// Multiplies each value that a prefix contains.
pub fn multiplies<P: TablePrefix>(map: &mut Map<P>, pair: Pair, factor: u64) -> bool {
    let steps = map.len();
    match fitting_prefix::<P>(pair) {
        Some(prefix) => {
            change_each(&mut map.children_mut(&prefix), steps, factor, 0);
            true
        }
        None => false,
    }
}

/// Multiplies each value and adds a number to it, in as many steps as there are entries.
fn change_each<'b, 'a, P: Prefix>(
    walk: &'b mut IterMut<'a, P, u64, Global>,
    steps: usize,
    factor: u64,
    more: u64,
) {
    for _ in 0..steps {
        if let Some((_prefix, value)) = walk.next() {
            *value = value.wrapping_mul(factor).wrapping_add(more);
        }
    }
}

/// Sets the first value, if there is one.
pub fn sets_first<P: Prefix>(map: &mut Map<P>, value: u64) -> bool {
    match map.values_mut().next() {
        Some(first) => {
            *first = value;
            true
        }
        None => false,
    }
}
