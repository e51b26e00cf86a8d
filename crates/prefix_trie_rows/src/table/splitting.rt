//! Maps that are split off.
use crate::table::{Line, Map, Pair, TablePrefix, fitting_prefix, holds_unchanged};
use prefix_trie::Refusal;

/// Returns whether these lines hold for the map with the entries that a prefix contains.
pub fn splits_off<P: TablePrefix>(map: &mut Map<P>, pair: Pair, lines: &[Line]) -> bool {
    match fitting_prefix::<P>(pair) {
        Some(prefix) => all_hold_in_part(map.remove_children(&prefix), lines),
        None => false,
    }
}

fn all_hold_in_part<P: TablePrefix>(second: Result<Map<P>, Refusal>, lines: &[Line]) -> bool {
    match second {
        Ok(second) => all_hold_in(&second, lines),
        Err(_) => false,
    }
}

/// Returns whether all lines hold for a map.
fn all_hold_in<P: TablePrefix>(map: &Map<P>, lines: &[Line]) -> bool {
    for line in lines {
        if !holds_unchanged(map, line) {
            return false;
        }
    }
    true
}
