//! Numbers as narrow keys.
use prefix_trie::Narrow;

/// A width, a number, and whether the number is a key of this width.
pub type KeyCase = (u32, u64, bool);

/// Returns whether exactly the numbers are keys that should be.
pub fn all_as_expected(table: &[KeyCase]) -> bool {
    for (width, number, expected) in table {
        if is_key(*width, *number) != *expected {
            return false;
        }
    }
    true
}

/// Returns whether a number is a key, for the widths in tables.
fn is_key(width: u32, number: u64) -> bool {
    match width {
        0 => Narrow::<0>::new(number).is_some(),
        5 => Narrow::<5>::new(number).is_some(),
        64 => Narrow::<64>::new(number).is_some(),
        _ => false,
    }
}
