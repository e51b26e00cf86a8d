//! Rows of single prefixes.
use crate::networks::v4;
use crate::table::Line::{self, *};

/// Row 26: the lengths of networks, their masks, and which network contains which.
pub const NETWORKS: [Line; 5] = [
    IsPrefix(v4!(0, 0, 0, 0; 33), false),
    IsPrefix(v4!(0, 0, 0, 0; 32), true),
    Mask(v4!(10, 1, 0, 0; 8), v4!(10, 0, 0, 0)),
    Contains(v4!(10, 25, 2, 8; 8), v4!(10, 130, 2, 5; 9), true),
    Contains(v4!(10, 130, 2, 5; 9), v4!(10, 25, 2, 8; 8), false),
];

/// Row 26: a pair with a length greater than its width does not fit.
pub const PAIRS: [Line; 1] = [Fits((0, 9), false)];

/// Row 30: the greatest length of an IPv6 network.
pub const LENGTHS_OF_IPV6: [Line; 2] = [IsPrefix((0, 129), false), IsPrefix((0, 128), true)];
