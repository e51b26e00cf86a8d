//! Rows of maps and sets that are split.
use crate::networks::v4;
use crate::table::Line::{self, *};
use crate::table::sets::SetLine;

/// Row 47: a network and all networks within it become a second map.
///
/// Each of its blocks is the smallest that holds its items.
pub const A_NETWORK: [Line; 11] = [
    Insert(v4!(192, 168, 0, 0; 21), 1, Ok(None)),
    Insert(v4!(192, 168, 0, 0; 22), 2, Ok(None)),
    Insert(v4!(192, 168, 0, 0; 23), 3, Ok(None)),
    Insert(v4!(192, 168, 0, 0; 24), 4, Ok(None)),
    Insert(v4!(192, 168, 4, 0; 22), 5, Ok(None)),
    Insert(v4!(192, 168, 4, 0; 23), 6, Ok(None)),
    CellSlots(15),
    RemoveChildren(
        v4!(192, 168, 0, 0; 22),
        &[
            Entries(&[
                (v4!(192, 168, 0, 0; 22), 2),
                (v4!(192, 168, 0, 0; 23), 3),
                (v4!(192, 168, 0, 0; 24), 4),
            ]),
            NodeCount(5),
            NodeSlots(5),
            CellSlots(4),
            CellBlocks([0, 0, 1, 0, 0, 0, 0], [0; 7]),
        ],
    ),
    Values(&[1, 5, 6]),
    NodeCount(5),
    CellSlots(15),
];

/// Row 48: length 0 splits off all entries. A prefix without a node splits off none.
pub const ALL_AND_NONE: [Line; 9] = [
    Insert(v4!(1, 2, 3, 0; 32), 1, Ok(None)),
    Insert(v4!(1, 2, 3, 1; 32), 2, Ok(None)),
    Insert(v4!(1, 2, 3, 2; 32), 3, Ok(None)),
    Insert(v4!(1, 2, 3, 3; 32), 4, Ok(None)),
    RemoveChildren(v4!(0, 0, 0, 7; 0), &[Len(4), NodeCount(7)]),
    Len(0),
    NodeSlots(1),
    CellSlots(0),
    RemoveChildren(v4!(0, 0, 0, 0; 9), &[Len(0), NodeCount(1)]),
];

/// Row 48: all keys of a set.
pub const ALL_KEYS: [SetLine; 3] = [
    SetLine::FromIter(&[
        v4!(1, 2, 3, 0; 32),
        v4!(1, 2, 3, 1; 32),
        v4!(1, 2, 3, 2; 32),
        v4!(1, 2, 3, 3; 32),
    ]),
    SetLine::RemoveChildren(v4!(0, 0, 0, 7; 0), 4),
    SetLine::Len(0),
];

/// Row 49: both maps keep the same slot limit.
pub const UNDER_THREE_SLOTS: [Line; 8] = [
    WithSlotLimit(3, Ok(())),
    Insert((0, 1), 1, Ok(None)),
    Insert((128, 1), 2, Ok(None)),
    Insert((0, 5), 3, Ok(None)),
    RemoveChildren(
        (0, 1),
        &[
            Entries(&[((0, 1), 1), ((0, 5), 3)]),
            NodeSlots(2),
            CellSlots(2),
        ],
    ),
    Entries(&[((128, 1), 2)]),
    NodeCount(1),
    CellSlots(3),
];
