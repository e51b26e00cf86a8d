//! Compacting and shrinking, with free slots beside two networks.
use crate::cases::Case::{self, Inserts, Len, Lists, Removes, RemovesKeepTree, Shrinks, Slots};
use crate::cases::Entry;
use crate::cases::under_test::Shrinking::{Compact, ShrinkToFit};
use crate::networks::v4;
use crate::trials::Table;

const TWO_NETWORKS: [Entry<u32>; 2] = [(v4!(192, 168, 0, 0; 21), 1), (v4!(192, 168, 0, 0; 22), 2)];

/// Six networks of one node, of which two stay. Their block is larger than needed, or free blocks are beside it.
const FREE_SLOTS: [Case<'static, u32>; 11] = [
    Inserts(v4!(192, 168, 0, 0; 21), 1, None),
    Inserts(v4!(192, 168, 0, 0; 22), 2, None),
    Inserts(v4!(192, 168, 0, 0; 23), 3, None),
    Inserts(v4!(192, 168, 0, 0; 24), 4, None),
    Inserts(v4!(192, 168, 4, 0; 22), 5, None),
    Inserts(v4!(192, 168, 4, 0; 23), 6, None),
    RemovesKeepTree(v4!(192, 168, 0, 0; 23), Some(3)),
    RemovesKeepTree(v4!(192, 168, 0, 0; 24), Some(4)),
    RemovesKeepTree(v4!(192, 168, 4, 0; 22), Some(5)),
    RemovesKeepTree(v4!(192, 168, 4, 0; 23), Some(6)),
    Slots(5, 15),
];

/// Compacting leaves the smallest blocks. Shrinking leaves all slots.
pub const FEWER_SLOTS: [Table<'static, u32>; 2] = [
    (
        &FREE_SLOTS,
        &[Shrinks(Compact), Slots(5, 2), Lists(&TWO_NETWORKS)],
    ),
    (
        &FREE_SLOTS,
        &[Shrinks(ShrinkToFit), Slots(5, 15), Lists(&TWO_NETWORKS)],
    ),
];

/// Removals after shrinking: the free lists keep their capacity.
pub const SHRUNK: [Table<'static, u32>; 1] = [(
    &[
        Inserts(v4!(192, 168, 0, 0; 21), 1, None),
        Inserts(v4!(192, 168, 0, 0; 22), 2, None),
        Inserts(v4!(192, 168, 0, 0; 23), 3, None),
        RemovesKeepTree(v4!(192, 168, 0, 0; 23), Some(3)),
        Shrinks(ShrinkToFit),
    ],
    &[
        Removes(v4!(192, 168, 0, 0; 21), Some(1)),
        Removes(v4!(192, 168, 0, 0; 22), Some(2)),
        Len(0),
    ],
)];
