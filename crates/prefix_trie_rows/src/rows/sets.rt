//! Rows of sets.
use crate::networks::v4;
use crate::table::sets::SetLine::{self, *};
use prefix_trie::Refusal::IndexRange;

/// Row 11: the addresses of one half, and of both.
pub const HALVES: [SetLine; 4] = [
    Insert((0, 1), Ok(true)),
    AddressCount(Some(128)),
    Insert((128, 1), Ok(true)),
    AddressCount(None),
];

/// Row 23: sets with the same keys are equal, in any order of insertions.
pub const EQUAL: [SetLine; 3] = [
    FromIter(&[(0, 1), (128, 1)]),
    Equals(&[(128, 1), (0, 1)], true),
    Equals(&[(128, 1)], false),
];

/// Row 24: the text of a set.
pub const PAIRS_AS_TEXT: [SetLine; 3] = [
    FromIter(&[(0, 0), (0, 1), (0x8000_0000, 1)]),
    Keys(&[(0, 0), (0, 1), (0x8000_0000, 1)]),
    Text("{(0, 0), (0, 1), (2147483648, 1)}"),
];

/// Row 35: addresses of two keys are counted once.
pub const SHARED_ADDRESSES: [SetLine; 3] = [
    FromIter(&[(0, 8), (1, 8), (0, 7), (255, 8)]),
    Len(4),
    AddressCount(Some(3)),
];

/// Row 35: addresses of 128 bits.
pub const ADDRESSES_OF_128_BITS: [SetLine; 6] = [
    Insert((0, 128), Ok(true)),
    AddressCount(Some(1)),
    Insert((1 << 127, 1), Ok(true)),
    AddressCount(Some((1 << 127) + 1)),
    Insert((0, 0), Ok(true)),
    AddressCount(None),
];

/// Row 36: the text of an empty set, and of networks, without host bits.
pub const NETWORKS_AS_TEXT: [SetLine; 3] = [
    Text("{}"),
    FromIter(&[v4!(10, 1, 2, 3; 8), v4!(10, 1, 0, 0; 16)]),
    Text("{10.0.0.0/8, 10.1.0.0/16}"),
];

/// Row 39: a set with a limit of one slot stores only keys of the root.
pub const ONE_SLOT: [SetLine; 7] = [
    WithSlotLimit(1),
    Insert((0, 0), Ok(true)),
    Insert((0, 1), Err(IndexRange)),
    Insert((9, 0), Ok(false)),
    Remove((0, 0), true),
    Insert((0, 5), Err(IndexRange)),
    NodeCount(1),
];
