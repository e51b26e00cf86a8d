//! Rows of equality.
use crate::table::Line::{self, *};

/// Row 23: maps are equal in any order of insertions, unless a value differs.
pub const IN_EITHER_ORDER: [Line; 10] = [
    Insert((0, 1), 1, Ok(None)),
    Insert((128, 1), 2, Ok(None)),
    Clone,
    CellSlots(3),
    New,
    Insert((128, 1), 2, Ok(None)),
    Insert((0, 1), 1, Ok(None)),
    Equals(&[((0, 1), 1), ((128, 1), 2)], true),
    Insert((128, 1), 3, Ok(Some(2))),
    Equals(&[((0, 1), 1), ((128, 1), 2)], false),
];
