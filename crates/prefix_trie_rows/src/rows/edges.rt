//! Rows at the ends of widths, and of a test that counts its calls.
use crate::networks::v4;
use crate::table::Line::{self, *};

/// Row 41: the shortest and the longest key of eight bits, with host bits and after all others.
pub const ENDS_OF_ALL_ONES: [Line; 6] = [
    Insert((255, 0), 1, Ok(None)),
    Insert((255, 8), 2, Ok(None)),
    Get((7, 0), Some(1)),
    GetLpm((255, 8), Some(((255, 8), 2))),
    GetLpm((254, 8), Some(((0, 0), 1))),
    IterFrom((255, 8), false, 1, &[]),
];

/// Row 41: the greatest key of 128 bits.
pub const LAST_OF_128_BITS: [Line; 5] = [
    Insert((u128::MAX, 128), 3, Ok(None)),
    NodeCount(26),
    GetLpm((u128::MAX, 127), None),
    Remove((u128::MAX, 128), Some(3)),
    NodeCount(1),
];

/// Row 42: a test that returns `true` at its first, third and fifth call, on the map of row 7.
pub const EACH_SECOND_KEPT: [Line; 7] = [
    Insert(v4!(192, 168, 0, 0; 22), 1, Ok(None)),
    Insert(v4!(192, 168, 0, 0; 23), 2, Ok(None)),
    Insert(v4!(192, 168, 2, 0; 23), 3, Ok(None)),
    Insert(v4!(192, 168, 0, 0; 24), 4, Ok(None)),
    Insert(v4!(192, 168, 2, 0; 24), 5, Ok(None)),
    Retain(&[(1, true), (2, false), (4, true), (3, false), (5, true)]),
    Values(&[1, 4, 5]),
];
