//! Clones of a map.
use crate::cases::Case::{AreSame, Clears, Copies, Inserts, Lists, NodeCount, Removes, Swaps};
use crate::cases::Entry;
use crate::networks::v4;
use crate::trials::Table;

const TWO_NETWORKS: [Entry<u32>; 2] = [(v4!(10, 0, 0, 0; 8), 8), (v4!(10, 1, 0, 0; 16), 16)];

/// Two networks, with free blocks in both arrays.
///
/// A change of the clone does not change the original, and the other way round.
pub const INDEPENDENT: [Table<'static, u32>; 1] = [(
    &[],
    &[
        Inserts(v4!(10, 0, 0, 0; 8), 8, None),
        Inserts(v4!(10, 1, 0, 0; 16), 16, None),
        Inserts(v4!(192, 168, 1, 0; 24), 24, None),
        Removes(v4!(192, 168, 1, 0; 24), Some(24)),
        Copies,
        Swaps,
        NodeCount(4),
        Lists(&TWO_NETWORKS),
        Inserts(v4!(10, 1, 0, 0; 16), 1, Some(16)),
        Removes(v4!(10, 0, 0, 0; 8), Some(8)),
        Swaps,
        NodeCount(4),
        Lists(&TWO_NETWORKS),
        Clears,
        Swaps,
        Lists(&[(v4!(10, 1, 0, 0; 16), 1)]),
    ],
)];

/// A network is inserted into the blocks that a removed one left, and is removed again.
pub const INTO_FREE_BLOCKS: [Table<'static, u32>; 1] = [(
    &[
        Inserts(v4!(10, 0, 0, 0; 8), 8, None),
        Inserts(v4!(10, 1, 0, 0; 16), 16, None),
        Inserts(v4!(192, 168, 1, 0; 24), 24, None),
        Removes(v4!(192, 168, 1, 0; 24), Some(24)),
        Copies,
        Swaps,
    ],
    &[
        Inserts(v4!(192, 168, 1, 0; 24), 1, None),
        Removes(v4!(192, 168, 1, 0; 24), Some(1)),
        Lists(&TWO_NETWORKS),
        AreSame,
        Swaps,
        Lists(&TWO_NETWORKS),
    ],
)];
