//! Rows of address counts.
use crate::networks::v4;
use crate::table::Line::{self, *};

/// Row 11: a network within another one adds no addresses.
pub const WITHIN_ANOTHER: [Line; 4] = [
    Insert(v4!(192, 0, 2, 0; 24), 1, Ok(None)),
    Insert(v4!(192, 0, 2, 128; 25), 2, Ok(None)),
    Insert(v4!(198, 51, 100, 0; 24), 3, Ok(None)),
    AddressCount(Some(512)),
];
