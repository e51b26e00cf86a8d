//! Cases: calls of a map or a set with the expected results.
pub mod entries;
pub mod found;
pub mod maps;
pub mod sets;
pub mod under_test;

use crate::cases::entries::InsertVia;
use crate::cases::under_test::Shrinking;
use prefix_trie::{Key, Prefix};

/// A number and a length, which make a prefix.
pub type Pair<K> = (K, u8);

/// A pair without host bits, and its value.
pub type Entry<K> = (Pair<K>, u64);

/// A call with its expected result. Prefixes are pairs, so one table serves all prefix types with these numbers.
#[derive(Drop)]
pub enum Case<'a, K: 'a> {
    /// Replaces the map by a new one, with a slot limit or without.
    StartsAnew(Option<u32>),
    /// `insert` sets this value and returns the previous one.
    Inserts(Pair<K>, u64, Option<u64>),
    /// `insert` of this value fails, because the slots would exceed the limit.
    ExceedsLimit(Pair<K>, u64),
    /// This call inserts the value at an entry, or finds the previous one.
    InsertsVia(InsertVia, Pair<K>, u64, Option<u64>),
    /// `remove` returns this value.
    Removes(Pair<K>, Option<u64>),
    /// `remove_keep_tree` returns this value.
    RemovesKeepTree(Pair<K>, Option<u64>),
    /// Removes an occupied entry with this value.
    RemovesEntry(Pair<K>, u64),
    /// Calls `drop_children`.
    DropsChildren(Pair<K>),
    /// `retain` keeps the prefixes with at least this many bits.
    RetainsLong(u8),
    /// Calls `clear`.
    Clears,
    /// This call returns memory. Entries are unchanged.
    Shrinks(Shrinking),
    /// `clone` makes the second map equal to the first.
    Copies,
    /// The two maps have the same entries, nodes and blocks.
    AreSame,
    /// Swaps the two maps.
    Swaps,
    /// The lookups of a prefix: its own entry, its longest match and its shortest match.
    Finds(Pair<K>, Option<Entry<K>>, Option<Entry<K>>, Option<Entry<K>>),
    /// The walk over all entries returns these.
    Lists(&'a [Entry<K>]),
    /// The number of entries.
    Len(usize),
    /// The number of nodes.
    NodeCount(usize),
    /// The number of slots for nodes and for values.
    Slots(usize, usize),
    /// The blocks of this size in the array of nodes: used and free.
    NodeBlocks(usize, usize, usize),
    /// The blocks of this size in the array of values: used and free.
    CellBlocks(usize, usize, usize),
}

/// Makes the prefix of a pair. A length greater than the width is cut to the width.
pub fn prefix_of<P: Prefix>(pair: Pair<P::R>) -> P
    ensures { P.IsFitting result }
{
    let (repr, len) = pair;
    let _ = repr.is_key();
    P::from_repr_len(repr, u32::from(len).min(P::num_bits()) as u8)
}
