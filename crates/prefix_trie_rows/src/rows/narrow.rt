//! Rows of narrow keys.
use crate::table::Line::{self, *};
use crate::table::Pair;
use crate::table::narrow::KeyCase;

/// Row 44: the least and the greatest number of a width. A width of 0 is read as 1, and a width above 63 as 63.
pub const ENDS_OF_WIDTHS: [KeyCase; 6] = [
    (5, 31, true),
    (5, 32, false),
    (0, 1, true),
    (0, 2, false),
    (64, 0x7fff_ffff_ffff_ffff, true),
    (64, 0x8000_0000_0000_0000, false),
];

/// Row 45: ten bits, so the last node has only the full length.
pub const TWICE_FIVE_BITS: [Line; 14] = [
    Insert((0, 0), 1, Ok(None)),
    Insert((1023, 10), 2, Ok(None)),
    Insert((992, 5), 3, Ok(None)),
    NodeCount(3),
    GetLpm((1023, 10), Some(((1023, 10), 2))),
    GetLpm((1022, 10), Some(((992, 5), 3))),
    AddressCount(None),
    Remove((0, 0), Some(1)),
    AddressCount(Some(32)),
    Remove((992, 5), Some(3)),
    AddressCount(Some(1)),
    NodeCount(3),
    Remove((1023, 10), Some(2)),
    NodeCount(1),
];

/// All prefixes of three bits, in listing order.
#[rattlefmt::skip]
const UP_TO_THREE_BITS: [Pair; 15] = [
    (0, 0), (0, 1), (0, 2), (0, 3), (1, 3), (2, 2), (2, 3), (3, 3),
    (4, 1), (4, 2), (4, 3), (5, 3), (6, 2), (6, 3), (7, 3),
];

/// Row 46: fewer than five bits, so the root is the only node.
pub const THREE_BITS: [Line; 7] = [
    InsertAll(&UP_TO_THREE_BITS),
    Iter(&UP_TO_THREE_BITS),
    Len(15),
    NodeCount(1),
    NodeSlots(1),
    CellSlots(31),
    AddressCount(None),
];

/// All numbers of five bits, each as a prefix of full length.
#[rattlefmt::skip]
const OF_FIVE_BITS: [Pair; 32] = [
    (0, 5), (1, 5), (2, 5), (3, 5), (4, 5), (5, 5), (6, 5), (7, 5),
    (8, 5), (9, 5), (10, 5), (11, 5), (12, 5), (13, 5), (14, 5), (15, 5),
    (16, 5), (17, 5), (18, 5), (19, 5), (20, 5), (21, 5), (22, 5), (23, 5),
    (24, 5), (25, 5), (26, 5), (27, 5), (28, 5), (29, 5), (30, 5), (31, 5),
];

/// Row 46: five bits, so each number has a node of its own.
pub const FIVE_BITS: [Line; 8] = [
    InsertAll(&OF_FIVE_BITS),
    Len(32),
    NodeCount(33),
    NodeSlots(88),
    CellSlots(32),
    AddressCount(None),
    Remove((31, 5), Some(31)),
    AddressCount(Some(31)),
];
