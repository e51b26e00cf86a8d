//! Debug text.
use crate::table::{Map, Pair, TablePrefix};
use prefix_trie::Prefix;
use std::alloc::Global;

pub fn is_text<P: Prefix>(alloc: Global, map: &Map<P>, text: &str) -> bool {
    match format!(in alloc; "{map:?}") {
        Ok(written) => written.as_str() == text,
        Err(_) => false,
    }
}

pub fn is_prefix_text<P: TablePrefix>(alloc: Global, (number, len): Pair, text: &str) -> bool {
    let Some(prefix) = P::of(number, len) else {
        return false;
    };
    match format!(in alloc; "{prefix:?}") {
        Ok(written) => written.as_str() == text,
        Err(_) => false,
    }
}
