//! Rows of lookups.
use crate::networks::v4;
use crate::table::Line::{self, *};

/// Row 1: a map returns values for the networks that it stores, and for no other.
pub const EXACT: [Line; 6] = [
    Insert(v4!(192, 168, 0, 0; 23), 1, Ok(None)),
    Insert(v4!(192, 168, 1, 0; 24), 2, Ok(None)),
    Insert(v4!(192, 168, 1, 0; 24), 3, Ok(Some(2))),
    Get(v4!(192, 168, 1, 0; 24), Some(3)),
    Get(v4!(192, 168, 2, 0; 24), None),
    Get(v4!(192, 168, 1, 128; 25), None),
];

/// Row 3: the longest and the shortest network that contain a network.
pub const MATCHES: [Line; 6] = [
    Insert(v4!(192, 168, 1, 0; 24), 1, Ok(None)),
    Insert(v4!(192, 168, 0, 0; 23), 2, Ok(None)),
    GetLpm(v4!(192, 168, 1, 1; 32), Some((v4!(192, 168, 1, 0; 24), 1))),
    GetLpm(v4!(192, 168, 0, 0; 24), Some((v4!(192, 168, 0, 0; 23), 2))),
    GetLpm(v4!(192, 168, 2, 0; 24), None),
    GetSpm(v4!(192, 168, 1, 1; 32), Some((v4!(192, 168, 0, 0; 23), 2))),
];
