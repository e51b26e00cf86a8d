//! Numbers as tables write them, read as keys of any type.
use prefix_trie::Key;

/// A number as tables write it. Keys of some types are no constants, so all tables use this type.
pub type Number = u128;

/// Returns the key with this number, if there is one.
pub fn key_of<K: Key>(number: Number) -> Option<K> {
    let width = K::width();
    if width < 128 && number >> width != 0 {
        return None;
    }
    let mut key = K::zero();
    for depth in 0..width {
        let bit = u32::from(number >> (width - 1 - depth) & 1 == 1);
        key = key.extend(depth, 1, bit);
    }
    Some(key)
}

/// Returns whether a count of addresses is this number.
pub fn is_number<K: Key>(count: Option<K>, expected: Option<Number>) -> bool {
    match (count, expected) {
        (Some(key), Some(number)) => key_of(number) == Some(key),
        (None, None) => true,
        _ => false,
    }
}
