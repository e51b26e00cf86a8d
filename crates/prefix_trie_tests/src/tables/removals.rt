//! Removals from a map, with each allocation failing.
use crate::cases::Case::{
    DropsChildren, Inserts, Len, Lists, NodeCount, Removes, RemovesKeepTree, RetainsLong,
};
use crate::networks::v4;
use crate::trials::Table;

/// Keys are kept by their lengths.
///
/// The node filled later uses the smaller blocks that the first node outgrew, so `retain` must make others.
pub const BY_LENGTH: [Table<'static, u32>; 1] = [(
    &[
        Inserts(v4!(0, 0, 0, 0; 0), 0, None),
        Inserts(v4!(0, 0, 0, 0; 1), 1, None),
        Inserts(v4!(0, 0, 0, 0; 2), 2, None),
        Inserts(v4!(0, 0, 0, 0; 5), 3, None),
        Inserts(v4!(0, 0, 0, 0; 6), 4, None),
        Inserts(v4!(8, 0, 0, 0; 7), 5, None),
    ],
    &[
        RetainsLong(1),
        Len(5),
        RetainsLong(2),
        Len(4),
        NodeCount(3),
        RetainsLong(6),
        Lists(&[(v4!(0, 0, 0, 0; 6), 4), (v4!(8, 0, 0, 0; 7), 5)]),
        RetainsLong(7),
        Lists(&[(v4!(8, 0, 0, 0; 7), 5)]),
        NodeCount(2),
    ],
)];

/// A removal prunes its own empty node, and no empty node off its search path. Then a network's entries are dropped.
pub const OFF_THE_PATH: [Table<'static, u32>; 1] = [(
    &[],
    &[
        Inserts(v4!(0, 0, 0, 0; 32), 1, None),
        RemovesKeepTree(v4!(0, 0, 0, 0; 32), Some(1)),
        NodeCount(7),
        Inserts(v4!(128, 0, 0, 0; 5), 2, None),
        NodeCount(8),
        Removes(v4!(128, 0, 0, 0; 5), Some(2)),
        NodeCount(7),
        Inserts(v4!(0, 0, 0, 0; 30), 3, None),
        DropsChildren(v4!(0, 0, 0, 0; 8)),
        Len(0),
    ],
)];
