//! Rows of removals.
use crate::networks::v4;
use crate::table::Line::{self, *};

/// Row 9: a network is removed together with all networks within it.
pub const BELOW_A_NETWORK: [Line; 9] = [
    Insert(v4!(192, 168, 0, 0; 21), 1, Ok(None)),
    Insert(v4!(192, 168, 0, 0; 22), 2, Ok(None)),
    Insert(v4!(192, 168, 0, 0; 23), 3, Ok(None)),
    Insert(v4!(192, 168, 0, 0; 24), 4, Ok(None)),
    Insert(v4!(192, 168, 4, 0; 22), 5, Ok(None)),
    Insert(v4!(192, 168, 4, 0; 23), 6, Ok(None)),
    DropChildren(v4!(192, 168, 0, 0; 22)),
    Len(3),
    Values(&[1, 5, 6]),
];

/// Row 10: the nodes that are left after each call that removes the only entry.
pub const NODES_LEFT: [Line; 11] = [
    NodeCount(1),
    Insert((0, 32), 1, Ok(None)),
    NodeCount(7),
    Remove((0, 32), Some(1)),
    NodeCount(1),
    Insert((0, 32), 1, Ok(None)),
    NodeCount(7),
    RemoveKeepTree((0, 32), Some(1)),
    NodeCount(7),
    Retain(&[]),
    NodeCount(1),
];

/// Row 18: the even values are kept. The test is called once for each entry, in listing order.
pub const EVEN_VALUES_KEPT: [Line; 9] = [
    Insert(v4!(192, 168, 0, 0; 24), 1, Ok(None)),
    Insert(v4!(192, 168, 1, 0; 24), 2, Ok(None)),
    Insert(v4!(192, 168, 2, 0; 24), 3, Ok(None)),
    Insert(v4!(192, 168, 2, 0; 25), 4, Ok(None)),
    Retain(&[(1, false), (2, true), (3, false), (4, true)]),
    Get(v4!(192, 168, 0, 0; 24), None),
    Get(v4!(192, 168, 1, 0; 24), Some(2)),
    Get(v4!(192, 168, 2, 0; 24), None),
    Get(v4!(192, 168, 2, 0; 25), Some(4)),
];

/// Row 22: a removal prunes nodes on the path to its prefix, stored or not, and no others.
pub const PRUNED_ON_THE_PATH: [Line; 8] = [
    Insert((0, 32), 1, Ok(None)),
    RemoveKeepTree((0, 32), Some(1)),
    Remove((0, 32), None),
    NodeCount(1),
    Insert((0, 32), 1, Ok(None)),
    RemoveKeepTree((0, 32), Some(1)),
    Remove((0x8000_0000, 32), None),
    NodeCount(7),
];

/// Row 31: `drop_children` removes all nodes below the prefix's own, and prunes upward from it.
///
/// It keeps the entries beside the prefix in the same node.
pub const BELOW_HALF_NODES: [Line; 22] = [
    // A node is emptied from its middle, and its slots are used again.
    Insert((0, 11), 1, Ok(None)),
    NodeCount(3),
    DropChildren((0, 5)),
    Len(0),
    NodeCount(1),
    Insert((0x8000_0000, 11), 2, Ok(None)),
    Insert((0, 11), 3, Ok(None)),
    NodeCount(5),
    Get((0x8000_0000, 11), Some(2)),
    Get((0, 11), Some(3)),

    // The only entry is below the prefix's node.
    New,
    Insert((0, 16), 1, Ok(None)),
    NodeCount(4),
    DropChildren((0, 12)),
    NodeCount(1),

    // Another entry is in the prefix's node.
    New,
    Insert((0, 6), 1, Ok(None)),
    Insert((0x0400_0000, 6), 2, Ok(None)),
    DropChildren((0, 6)),
    Len(1),
    NodeCount(2),
    Get((0x0400_0000, 6), Some(2)),
];

/// Row 32: empty nodes stay if they have a child, or if the prefix's own node is missing.
///
/// Below the prefix they are removed.
pub const EMPTY_NODES_ELSEWHERE: [Line; 9] = [
    Insert((0, 16), 1, Ok(None)),
    RemoveKeepTree((0, 16), Some(1)),
    NodeCount(4),
    Remove((0, 11), None),
    NodeCount(4),
    DropChildren((0x8000_0000, 5)),
    NodeCount(4),
    DropChildren((0, 7)),
    NodeCount(1),
];
