//! Rows of numbers of each width, at the ends of their keys.
use crate::networks::v4;
use crate::table::Line::{self, *};

/// Row 5: four adjacent hosts share all nodes.
pub const HOSTS_OF_32_BITS: [Line; 10] = [
    Insert(v4!(1, 2, 3, 0; 32), 1, Ok(None)),
    Insert(v4!(1, 2, 3, 1; 32), 2, Ok(None)),
    Insert(v4!(1, 2, 3, 2; 32), 3, Ok(None)),
    Insert(v4!(1, 2, 3, 3; 32), 4, Ok(None)),
    Len(4),
    Get(v4!(1, 2, 3, 0; 32), Some(1)),
    Get(v4!(1, 2, 3, 1; 32), Some(2)),
    Get(v4!(1, 2, 3, 2; 32), Some(3)),
    Get(v4!(1, 2, 3, 3; 32), Some(4)),
    NodeCount(7),
];

/// Row 6: the last node of a key of 128 bits, which spans three bits.
pub const ENDS_OF_128_BITS: [Line; 5] = [
    Insert((0, 125), 1, Ok(None)),
    Insert((1, 128), 2, Ok(None)),
    GetLpm((1, 128), Some(((1, 128), 2))),
    GetLpm((2, 128), Some(((0, 125), 1))),
    NodeCount(26),
];

/// Row 19: the last node of a key of eight bits, which spans three bits.
pub const ENDS_OF_8_BITS: [Line; 8] = [
    Insert((0, 5), 1, Ok(None)),
    Insert((6, 8), 2, Ok(None)),
    Insert((7, 8), 3, Ok(None)),
    GetLpm((7, 8), Some(((7, 8), 3))),
    GetLpm((5, 8), Some(((0, 5), 1))),
    GetLpm((6, 7), Some(((0, 5), 1))),
    GetSpm((7, 8), Some(((0, 5), 1))),
    NodeCount(2),
];

/// Row 29: the last node of a key of 64 bits, which spans four bits. The value at 63 bits is set by a longer prefix.
pub const ENDS_OF_U64: [Line; 10] = [
    Insert((0, 60), 1, Ok(None)),
    Insert((5, 64), 2, Ok(None)),
    Insert((6, 63), 3, Ok(None)),
    GetLpm((5, 64), Some(((5, 64), 2))),
    GetLpm((4, 64), Some(((0, 60), 1))),
    GetLpm((7, 64), Some(((6, 63), 3))),
    GetSpm((5, 64), Some(((0, 60), 1))),
    GetLpmMut((7, 64), 9, (6, 63)),
    Get((6, 63), Some(9)),
    Get((5, 64), Some(2)),
];

/// Row 29: the same calls with the other type of 64 bits.
pub const ENDS_OF_USIZE: [Line; 10] = [
    Insert((0, 60), 1, Ok(None)),
    Insert((5, 64), 2, Ok(None)),
    Insert((6, 63), 3, Ok(None)),
    GetLpm((5, 64), Some(((5, 64), 2))),
    GetLpm((4, 64), Some(((0, 60), 1))),
    GetLpm((7, 64), Some(((6, 63), 3))),
    GetSpm((5, 64), Some(((0, 60), 1))),
    GetLpmMut((7, 64), 9, (6, 63)),
    Get((6, 63), Some(9)),
    Get((5, 64), Some(2)),
];

/// Row 30: the last node of a key of 16 bits, which spans one bit.
pub const ENDS_OF_16_BITS: [Line; 6] = [
    Insert((0x8000, 15), 1, Ok(None)),
    Insert((0x8001, 16), 2, Ok(None)),
    GetLpm((0x8001, 16), Some(((0x8001, 16), 2))),
    GetLpm((0x8000, 16), Some(((0x8000, 15), 1))),
    CoverValues((0x8001, 16), &[1, 2]),
    IsCovered((0x8002, 16), false),
];
