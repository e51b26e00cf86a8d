//! Rows of slot limits.
use crate::table::Line::{self, *};
use prefix_trie::Refusal::IndexRange;

/// Row 13: an insertion whose nodes exceed the limit fails and changes nothing.
///
/// An insertion that needs no node succeeds. A limit of 0 allows no map.
pub const FOUR_SLOTS: [Line; 6] = [
    WithSlotLimit(4, Ok(())),
    Insert((0, 32), 1, Err(IndexRange)),
    Len(0),
    NodeCount(1),
    Insert((0, 4), 2, Ok(None)),
    WithSlotLimit(0, Err(IndexRange)),
];

/// Row 38: if the limit leaves no capacity for a smaller block, a removal keeps the block, and a clone of the map has it too.
pub const KEPT_BLOCKS: [Line; 25] = [
    // Three slots leave no capacity for the smaller block. The root keeps its block of two for the one value that is
    // left.
    WithSlotLimit(3, Ok(())),
    Insert((0, 1), 1, Ok(None)),
    Insert((128, 1), 2, Ok(None)),
    Insert((0, 5), 3, Ok(None)),
    CellSlots(3),
    NodeSlots(2),
    Remove((0, 1), Some(1)),
    CellSlots(3),
    NodeSlots(2),
    CellBlocks([1, 1, 0, 0, 0, 0, 0], [0; 7]),
    NodeBlocks([1, 0, 0, 0, 0, 0, 0], [0; 7]),
    Clone,

    // The value is inserted into this block again. The next one finds no block.
    Insert((0, 1), 4, Ok(None)),
    CellSlots(3),
    Insert((64, 2), 5, Err(IndexRange)),
    Len(3),

    // Four slots leave capacity. The value that is left moves to a block of one, and the block of two is free.
    WithSlotLimit(4, Ok(())),
    Insert((0, 1), 1, Ok(None)),
    Insert((128, 1), 2, Ok(None)),
    Insert((0, 5), 3, Ok(None)),
    CellSlots(3),
    NodeSlots(2),
    Remove((0, 1), Some(1)),
    CellSlots(4),
    CellBlocks([2, 0, 0, 0, 0, 0, 0], [0, 1, 0, 0, 0, 0, 0]),
];
