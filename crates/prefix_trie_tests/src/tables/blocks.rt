//! Free blocks: insertions that use them without allocating, and a removal that makes one.
use crate::cases::Case::{
    self, CellBlocks, Clears, DropsChildren, Inserts, Len, Lists, NodeBlocks, NodeCount, Removes,
    RemovesKeepTree, Slots, StartsAnew,
};
use crate::cases::Entry;
use crate::networks::v4;
use crate::refusing::Refusing;
use crate::trials::{FaultPlan, Table, on_both};
use std::test::Fail;

/// The first 24 of all pairs with at most four bits.
///
/// They are stored in a block of 24 after the other seven are removed.
const FIRST_24: [Entry<u8>; 24] = [
    ((0, 0), 0),
    ((0, 1), 1),
    ((0, 2), 2),
    ((0, 3), 3),
    ((0, 4), 4),
    ((16, 4), 5),
    ((32, 3), 6),
    ((32, 4), 7),
    ((48, 4), 8),
    ((64, 2), 9),
    ((64, 3), 10),
    ((64, 4), 11),
    ((80, 4), 12),
    ((96, 3), 13),
    ((96, 4), 14),
    ((112, 4), 15),
    ((128, 1), 16),
    ((128, 2), 17),
    ((128, 3), 18),
    ((128, 4), 19),
    ((144, 4), 20),
    ((160, 3), 21),
    ((160, 4), 22),
    ((176, 4), 23),
];

/// The free block of 31 takes a 25th pair, without an allocation.
///
/// The pair is removed again, a value is replaced, and all pairs are removed, without an allocation too.
const INTO_FREE_BLOCK: Table<'static, u8> = (
    &[
        Inserts((0, 0), 0, None),
        Inserts((0, 1), 1, None),
        Inserts((0, 2), 2, None),
        Inserts((0, 3), 3, None),
        Inserts((0, 4), 4, None),
        Inserts((16, 4), 5, None),
        Inserts((32, 3), 6, None),
        Inserts((32, 4), 7, None),
        Inserts((48, 4), 8, None),
        Inserts((64, 2), 9, None),
        Inserts((64, 3), 10, None),
        Inserts((64, 4), 11, None),
        Inserts((80, 4), 12, None),
        Inserts((96, 3), 13, None),
        Inserts((96, 4), 14, None),
        Inserts((112, 4), 15, None),
        Inserts((128, 1), 16, None),
        Inserts((128, 2), 17, None),
        Inserts((128, 3), 18, None),
        Inserts((128, 4), 19, None),
        Inserts((144, 4), 20, None),
        Inserts((160, 3), 21, None),
        Inserts((160, 4), 22, None),
        Inserts((176, 4), 23, None),
        Inserts((192, 2), 24, None),
        Inserts((192, 3), 25, None),
        Inserts((192, 4), 26, None),
        Inserts((208, 4), 27, None),
        Inserts((224, 3), 28, None),
        Inserts((224, 4), 29, None),
        Inserts((240, 4), 30, None),
        Removes((192, 2), Some(24)),
        Removes((192, 3), Some(25)),
        Removes((192, 4), Some(26)),
        Removes((208, 4), Some(27)),
        Removes((224, 3), Some(28)),
        Removes((224, 4), Some(29)),
        Removes((240, 4), Some(30)),
    ],
    &[
        Slots(1, 86),
        CellBlocks(24, 1, 0),
        CellBlocks(31, 0, 1),
        NodeCount(1),
        Lists(&FIRST_24),
        Inserts((240, 4), 24, None),
        CellBlocks(24, 0, 1),
        CellBlocks(31, 1, 0),
        Slots(1, 86),
        Removes((240, 4), Some(24)),
        Slots(1, 86),
        CellBlocks(24, 1, 0),
        CellBlocks(31, 0, 1),
        NodeCount(1),
        Lists(&FIRST_24),
        Inserts((128, 1), 77, Some(16)),
        Clears,
        Slots(1, 0),
    ],
);

#[test]
fn an_insertion_uses_a_free_block(rt: HostRuntime) -> Result<(), Fail> {
    let heap = Refusing::new(rt.alloc());
    Ok(on_both::<(u8, u8)>(&heap, &INTO_FREE_BLOCK, FaultPlan::NoRequests)?)
}

/// The root keeps one value, no block of one is free, and the limit leaves capacity for one: the removal makes it.
///
/// A removal that used only free blocks would make none.
const SMALLER_BLOCK_MADE: Table<'static, u8> = (
    &[],
    &[
        StartsAnew(Some(4)),
        Inserts((0, 1), 1, None),
        Inserts((128, 1), 2, None),
        Inserts((0, 5), 3, None),
        Slots(2, 3),
        Removes((0, 1), Some(1)),
        Slots(2, 4),
        Lists(&[((0, 5), 3), ((128, 1), 2)]),
    ],
);

#[test]
fn a_removal_makes_a_smaller_block(rt: HostRuntime) -> Result<(), Fail> {
    let heap = Refusing::new(rt.alloc());
    Ok(on_both::<(u8, u8)>(&heap, &SMALLER_BLOCK_MADE, FaultPlan::EachRequest)?)
}

/// Five networks, each within the one before it.
const FIVE_NETWORKS: [Entry<u32>; 5] = [
    (v4!(0, 0, 0, 0; 0), 0),
    (v4!(0, 0, 0, 0; 1), 1),
    (v4!(10, 0, 0, 0; 8), 8),
    (v4!(10, 1, 1, 0; 24), 24),
    (v4!(10, 1, 1, 1; 32), 32),
];

/// The two values of the root are inserted last, so a block of one is free.
const INSERT_FIVE: [Case<'static, u32>; 5] = [
    Inserts(v4!(10, 0, 0, 0; 8), 8, None),
    Inserts(v4!(10, 1, 1, 0; 24), 24, None),
    Inserts(v4!(10, 1, 1, 1; 32), 32, None),
    Inserts(v4!(0, 0, 0, 0; 0), 0, None),
    Inserts(v4!(0, 0, 0, 0; 1), 1, None),
];

/// A host and the lower half of all addresses are removed and inserted again, and then all are removed.
///
/// The second value of the root moves the first to the free block of one and back.
pub const AMONG_FREE: [Table<'static, u32>; 1] = [(
    &INSERT_FIVE,
    &[
        Inserts(v4!(10, 1, 1, 1; 32), 99, Some(32)),
        Removes(v4!(10, 1, 1, 1; 32), Some(99)),
        Inserts(v4!(10, 1, 1, 1; 32), 32, None),
        RemovesKeepTree(v4!(10, 1, 1, 1; 32), Some(32)),
        Removes(v4!(10, 1, 1, 1; 32), None),
        Inserts(v4!(10, 1, 1, 1; 32), 32, None),
        Inserts(v4!(0, 0, 0, 0; 1), 99, Some(1)),
        Removes(v4!(0, 0, 0, 0; 1), Some(99)),
        Inserts(v4!(0, 0, 0, 0; 1), 1, None),
        RemovesKeepTree(v4!(0, 0, 0, 0; 1), Some(1)),
        Removes(v4!(0, 0, 0, 0; 1), None),
        Inserts(v4!(0, 0, 0, 0; 1), 1, None),
        NodeCount(7),
        Slots(7, 6),
        NodeBlocks(1, 6, 0),
        CellBlocks(1, 3, 1),
        CellBlocks(2, 1, 0),
        Lists(&FIVE_NETWORKS),
        DropsChildren(v4!(10, 0, 0, 0; 8)),
        Len(2),
        Clears,
        Slots(1, 0),
    ],
)];
