//! Rows of walks.
use crate::networks::v4;
use crate::table::Line::{self, *};

/// Row 4: the network of all addresses, and an empty map.
pub const ALL_ADDRESSES: [Line; 8] = [
    Insert(v4!(0, 0, 0, 0; 0), 0, Ok(None)),
    Cover(v4!(10, 0, 0, 0; 8), &[(v4!(0, 0, 0, 0; 0), 0)]),
    New,
    Cover(v4!(0, 0, 0, 0; 0), &[]),
    Iter(&[]),
    Children(v4!(0, 0, 0, 0; 0), &[]),
    GetLpm(v4!(0, 0, 0, 0; 0), None),
    NodeCount(1),
];

/// Row 7: values come in the listing order of their networks, in any order of insertions.
pub const IN_LISTING_ORDER: [Line; 6] = [
    Insert(v4!(192, 168, 0, 0; 22), 1, Ok(None)),
    Insert(v4!(192, 168, 0, 0; 23), 2, Ok(None)),
    Insert(v4!(192, 168, 2, 0; 23), 3, Ok(None)),
    Insert(v4!(192, 168, 0, 0; 24), 4, Ok(None)),
    Insert(v4!(192, 168, 2, 0; 24), 5, Ok(None)),
    Values(&[1, 2, 4, 3, 5]),
];

/// Row 8: the entries after a network, stored or not.
pub const AFTER_A_NETWORK: [Line; 15] = [
    Insert(v4!(10, 0, 0, 0; 8), 1, Ok(None)),
    Insert(v4!(10, 1, 0, 0; 16), 2, Ok(None)),
    Insert(v4!(10, 2, 0, 0; 16), 3, Ok(None)),
    Insert(v4!(10, 2, 0, 0; 24), 4, Ok(None)),
    Insert(v4!(10, 3, 0, 0; 16), 5, Ok(None)),
    Insert(v4!(10, 4, 0, 0; 16), 6, Ok(None)),
    IterFrom(v4!(10, 2, 0, 0; 16), true, 3, &[3, 4, 5]),
    IterFrom(v4!(10, 2, 0, 0; 16), false, 3, &[4, 5, 6]),
    IterFrom(v4!(10, 2, 128, 0; 17), false, 3, &[5, 6]),
    // A walk that resumes after an entry yields the rest.
    IterFrom(v4!(10, 0, 0, 0; 8), false, 6, &[2, 3, 4, 5, 6]),
    IterFrom(v4!(10, 1, 0, 0; 16), false, 6, &[3, 4, 5, 6]),
    IterFrom(v4!(10, 2, 0, 0; 16), false, 6, &[4, 5, 6]),
    IterFrom(v4!(10, 2, 0, 0; 24), false, 6, &[5, 6]),
    IterFrom(v4!(10, 3, 0, 0; 16), false, 6, &[6]),
    IterFrom(v4!(10, 4, 0, 0; 16), false, 6, &[]),
];

/// Row 21: the values that a network contains are written, and then moved out of the map.
pub const WRITTEN_AND_TAKEN: [Line; 8] = [
    Insert(v4!(192, 168, 0, 0; 22), 1, Ok(None)),
    Insert(v4!(192, 168, 0, 0; 23), 2, Ok(None)),
    Insert(v4!(192, 168, 0, 0; 24), 3, Ok(None)),
    Insert(v4!(192, 168, 2, 0; 23), 4, Ok(None)),
    Insert(v4!(192, 168, 2, 0; 24), 5, Ok(None)),
    ChildrenMut(v4!(192, 168, 0, 0; 23), 10),
    Values(&[1, 20, 30, 4, 5]),
    IntoChildren(
        v4!(192, 168, 0, 0; 23),
        &[(v4!(192, 168, 0, 0; 23), 20), (v4!(192, 168, 0, 0; 24), 30)],
    ),
];

/// Row 25: the networks that contain one, the shortest first.
pub const AROUND_A_NETWORK: [Line; 7] = [
    Insert(v4!(10, 0, 0, 0; 8), 0, Ok(None)),
    Insert(v4!(10, 1, 0, 0; 16), 1, Ok(None)),
    Insert(v4!(10, 1, 1, 0; 24), 2, Ok(None)),
    Insert(v4!(10, 1, 2, 0; 24), 3, Ok(None)),
    Insert(v4!(10, 1, 1, 0; 25), 4, Ok(None)),
    Insert(v4!(11, 0, 0, 0; 8), 5, Ok(None)),
    Cover(
        v4!(10, 1, 1, 0; 24),
        &[
            (v4!(10, 0, 0, 0; 8), 0),
            (v4!(10, 1, 0, 0; 16), 1),
            (v4!(10, 1, 1, 0; 24), 2),
        ],
    ),
];

/// Row 34: walks from prefixes and over their children, stored or not, that read, write and consume the map.
pub const FROM_AND_BELOW: [Line; 19] = [
    Insert((0, 5), 1, Ok(None)),
    Insert((4, 6), 2, Ok(None)),
    Insert((6, 8), 3, Ok(None)),
    Insert((8, 5), 4, Ok(None)),
    Insert((128, 1), 5, Ok(None)),
    IterFrom((5, 8), false, 6, &[3, 4, 5]),
    IterFrom((5, 8), true, 6, &[3, 4, 5]),
    IterFrom((0, 0), false, 6, &[1, 2, 3, 4, 5]),
    IterFrom((64, 2), true, 6, &[5]),
    IterFrom((128, 1), false, 6, &[]),
    IterFrom((255, 8), true, 6, &[]),
    Children((0, 4), &[1, 2, 3, 4]),
    Children((4, 6), &[2, 3]),
    Children((16, 5), &[]),
    IterFromMut((5, 8), false, 10),
    Values(&[1, 2, 13, 14, 15]),
    ValuesMut(0),
    Values(&[0, 2, 13, 14, 15]),
    IntoKeys(&[(0, 5), (4, 6), (6, 8), (8, 5), (128, 1)]),
];
