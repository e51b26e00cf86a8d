//! New maps, insertions and limits.
use crate::cases::Case::{ExceedsLimit, Inserts, Len, Lists, NodeCount, StartsAnew};
use crate::networks::v4;
use crate::trials::Table;

/// A new map without a limit, and one with a limit of one slot.
pub const NEW_MAPS: [Table<'static, u32>; 2] = [
    (&[], &[StartsAnew(None), Len(0), NodeCount(1)]),
    (&[], &[StartsAnew(Some(1)), Len(0), NodeCount(1)]),
];

/// A host's seven nodes, twice.
///
/// A third value in the root, whose block of two is full. A third child of the root, with nodes below it.
pub const GROWTHS: [Table<'static, u32>; 4] = [
    (
        &[NodeCount(1)],
        &[
            Inserts(v4!(0, 0, 0, 0; 32), 32, None),
            NodeCount(7),
            Lists(&[(v4!(0, 0, 0, 0; 32), 32)]),
        ],
    ),
    (
        &[],
        &[Inserts(v4!(0, 0, 0, 0; 32), 9, None), Len(1), NodeCount(7)],
    ),
    (
        &[
            Inserts(v4!(0, 0, 0, 0; 0), 0, None),
            Inserts(v4!(0, 0, 0, 0; 1), 1, None),
            NodeCount(1),
        ],
        &[
            Inserts(v4!(0, 0, 0, 0; 2), 2, None),
            NodeCount(1),
            Lists(&[
                (v4!(0, 0, 0, 0; 0), 0),
                (v4!(0, 0, 0, 0; 1), 1),
                (v4!(0, 0, 0, 0; 2), 2),
            ]),
        ],
    ),
    (
        &[
            Inserts(v4!(0, 0, 0, 0; 5), 5, None),
            Inserts(v4!(8, 0, 0, 0; 5), 6, None),
            NodeCount(3),
        ],
        &[
            Inserts(v4!(248, 0, 0, 0; 15), 15, None),
            NodeCount(6),
            Lists(&[
                (v4!(0, 0, 0, 0; 5), 5),
                (v4!(8, 0, 0, 0; 5), 6),
                (v4!(248, 0, 0, 0; 15), 15),
            ]),
        ],
    ),
];

/// The search path of a host has seven nodes.
///
/// The two values of the root are stored in a block of two, and the first was stored in a block of one.
pub const LIMITS: [Table<'static, u32>; 2] = [
    (
        &[],
        &[
            StartsAnew(Some(6)),
            ExceedsLimit(v4!(0, 0, 0, 0; 32), 1),
            StartsAnew(Some(7)),
            Inserts(v4!(0, 0, 0, 0; 32), 1, None),
        ],
    ),
    (
        &[],
        &[
            StartsAnew(Some(2)),
            Inserts(v4!(0, 0, 0, 0; 0), 1, None),
            ExceedsLimit(v4!(0, 0, 0, 0; 1), 2),
            StartsAnew(Some(3)),
            Inserts(v4!(0, 0, 0, 0; 0), 1, None),
            Inserts(v4!(0, 0, 0, 0; 1), 2, None),
        ],
    ),
];
