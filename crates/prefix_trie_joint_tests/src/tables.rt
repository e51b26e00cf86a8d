//! Tables of calls on joint maps with the results that they must have, and maps and sets made of tables.
use prefix_trie::Refusal;
use prefix_trie_joint::{IpPrefix, JointPrefixMap, JointPrefixSet};
use prefix_trie_tests::cases::under_test::is_result;
use std::alloc::Allocator;

/// A call with its result. Networks are texts.
#[derive(Clone, Copy)]
pub enum Case<'a> {
    /// `insert` returns this previous value.
    Inserts(&'a str, u32, Option<u32>),
    /// `remove` returns this value.
    Removes(&'a str, Option<u32>),
    /// `remove_keep_tree` returns this value.
    RemovesKeepTree(&'a str, Option<u32>),
    /// `drop_children` leaves so many entries.
    Drops(&'a str, usize),
    /// `remove_children` returns a map with so many entries, and leaves so many.
    Splits(&'a str, usize, usize),
    /// `get` returns this value.
    Gets(&'a str, Option<u32>),
    /// `get_lpm` returns this network, and `get_spm` that one.
    Finds(&'a str, Option<&'a str>, Option<&'a str>),
    /// `values` gives these.
    Lists(&'a [u32]),
    /// `children` gives so many entries.
    Contains(&'a str, usize),
    /// `cover` gives so many entries.
    Covers(&'a str, usize),
    /// `compact` leaves the entries.
    Compacts,
    /// `shrink_to_fit` leaves the entries.
    Shrinks,
    /// `clone` gives an equal map.
    Clones,
}

/// Returns the network of a text. An error, for a text that is none, fails the test.
fn network(text: &str) -> Result<IpPrefix, Refusal> {
    text.parse().map_err(|_| Refusal::IndexRange)
}

/// Returns whether a network is that of a text, or both are missing.
fn finds(found: Option<IpPrefix>, stated: Option<&str>) -> bool {
    match (found, stated) {
        (Some(found), Some(text)) => network(text) == Ok(found),
        (None, None) => true,
        _ => false,
    }
}

/// Returns whether a call that only reads has its result.
fn reads<A: Allocator>(map: &JointPrefixMap<u32, A>, case: &Case<'_>) -> Result<bool, Refusal> {
    match case {
        Case::Gets(text, value) => {
            let at = network(text)?;
            Ok(map.get(&at).copied() == *value && map.contains_key(&at) == value.is_some())
        }
        Case::Finds(text, longest, shortest) => {
            let at = network(text)?;
            let is_longest = finds(map.get_lpm_prefix(&at), *longest);
            Ok(is_longest && finds(map.get_spm_prefix(&at), *shortest))
        }
        Case::Contains(text, count) => Ok(map.children(&network(text)?).count() == *count),
        Case::Covers(text, count) => Ok(map.cover(&network(text)?).count() == *count),
        Case::Lists(values) => Ok(map.len() == values.len() && map.values().eq(*values)),
        _ => Ok(false),
    }
}

/// Returns whether a call has its result.
pub fn holds<A: Allocator + Clone>(
    map: &mut JointPrefixMap<u32, A>,
    case: &Case<'_>,
) -> Result<bool, Refusal> {
    match case {
        Case::Inserts(text, value, before) => Ok(map.insert(network(text)?, *value)? == *before),
        Case::Removes(text, value) => Ok(map.remove(&network(text)?) == *value),
        Case::RemovesKeepTree(text, value) => Ok(map.remove_keep_tree(&network(text)?) == *value),
        Case::Drops(text, left) => {
            map.drop_children(&network(text)?);
            Ok(map.len() == *left)
        }
        Case::Splits(text, part, left) => {
            let second = map.remove_children(&network(text)?)?;
            Ok(second.len() == *part && map.len() == *left)
        }
        Case::Compacts => is_result(map.compact(), Ok(())),
        Case::Shrinks => is_result(map.shrink_to_fit().map_err(|_| Refusal::Memory), Ok(())),
        Case::Clones => Ok(map.clone().map_err(|_| Refusal::Memory)? == *map),
        _ => reads(map, case),
    }
}

/// Both families at once: neither sees the other.
pub const APART: [Case<'static>; 12] = [
    Case::Inserts("0.0.0.0/0", 1, None),
    Case::Inserts("::/0", 2, None),
    Case::Inserts("10.0.0.0/8", 3, None),
    Case::Inserts("2001:db8::/32", 4, None),
    Case::Inserts("2001:db8::1/32", 5, Some(4)),
    Case::Lists(&[1, 3, 2, 5]),
    Case::Finds("10.1.2.3/32", Some("10.0.0.0/8"), Some("0.0.0.0/0")),
    Case::Finds("2001:db8::1/128", Some("2001:db8::/32"), Some("::/0")),
    Case::Contains("0.0.0.0/0", 2),
    Case::Covers("2001:db8::/48", 2),
    Case::Gets("10.1.2.3/8", Some(3)),
    Case::Gets("10.0.0.0/9", None),
];

/// Removals of one family leave the other.
pub const REMOVED: [Case<'static>; 13] = [
    Case::Inserts("10.0.0.0/8", 1, None),
    Case::Inserts("10.1.0.0/16", 2, None),
    Case::Inserts("2001:db8::/32", 3, None),
    Case::Inserts("2001:db8:1::/48", 4, None),
    Case::Splits("::/0", 2, 2),
    Case::Lists(&[1, 2]),
    Case::Inserts("::/0", 5, None),
    Case::Clones,
    Case::Splits("10.1.0.0/16", 1, 2),
    Case::RemovesKeepTree("10.0.0.0/8", Some(1)),
    Case::Compacts,
    Case::Removes("::/0", Some(5)),
    Case::Lists(&[]),
];

/// Memory is given back, and the entries stay.
pub const KEPT: [Case<'static>; 8] = [
    Case::Inserts("10.0.0.0/8", 1, None),
    Case::Inserts("2001:db8::/32", 2, None),
    Case::Inserts("2001:db8:1::/48", 3, None),
    Case::Shrinks,
    Case::Compacts,
    Case::Lists(&[1, 2, 3]),
    Case::Drops("2001:db8::/32", 1),
    Case::Lists(&[1]),
];

/// Creates a map of these entries.
pub fn filled<A: Allocator + Clone>(
    alloc: A,
    entries: &[(&str, u32)],
) -> Result<JointPrefixMap<u32, A>, Refusal> {
    let mut map = JointPrefixMap::new(alloc)?;
    for (text, value) in entries.iter() {
        map.insert(network(text)?, *value)?;
    }
    Ok(map)
}

/// Creates the set of the networks of these entries.
pub fn networks<A: Allocator + Clone>(
    alloc: A,
    entries: &[(&str, u32)],
) -> Result<JointPrefixSet<A>, Refusal> {
    let mut set = JointPrefixSet::new(alloc)?;
    for (text, _) in entries.iter() {
        set.insert(network(text)?)?;
    }
    Ok(set)
}
