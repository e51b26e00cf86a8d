//! Entries that are filled, and values that are removed through them.
use crate::cases::Case::{Inserts, InsertsVia, Len, Lists, NodeCount, RemovesEntry};
use crate::cases::entries::InsertVia::{
    Default, Insert, InsertWith, OrDefault, OrInsert, OrInsertWith, Put,
};
use crate::networks::v4;
use crate::trials::Table;

/// Each call that fills an entry inserts a host's seven nodes. Another inserts a value into a full block.
pub const VACANT: [Table<'static, u32>; 3] = [
    (
        &[],
        &[
            InsertsVia(Put, v4!(0, 0, 0, 0; 32), 9, None),
            NodeCount(7),
            InsertsVia(OrInsert, v4!(8, 0, 0, 0; 32), 9, None),
            NodeCount(13),
            InsertsVia(OrInsertWith, v4!(16, 0, 0, 0; 32), 9, None),
            NodeCount(19),
            InsertsVia(OrDefault, v4!(24, 0, 0, 0; 32), 0, None),
            NodeCount(25),
            InsertsVia(Insert, v4!(32, 0, 0, 0; 32), 9, None),
            NodeCount(31),
            InsertsVia(InsertWith, v4!(40, 0, 0, 0; 32), 9, None),
            NodeCount(37),
            InsertsVia(Default, v4!(48, 0, 0, 0; 32), 0, None),
            NodeCount(43),
            Len(7),
        ],
    ),
    (
        &[
            Inserts(v4!(0, 0, 0, 0; 0), 0, None),
            Inserts(v4!(0, 0, 0, 0; 1), 1, None),
        ],
        &[
            InsertsVia(InsertWith, v4!(0, 0, 0, 0; 2), 2, None),
            Lists(&[
                (v4!(0, 0, 0, 0; 0), 0),
                (v4!(0, 0, 0, 0; 1), 1),
                (v4!(0, 0, 0, 0; 2), 2),
            ]),
        ],
    ),
    // Values are removed from a node whose smaller blocks are not free.
    (
        &[
            Inserts(v4!(0, 0, 0, 0; 0), 0, None),
            Inserts(v4!(0, 0, 0, 0; 1), 1, None),
            Inserts(v4!(0, 0, 0, 0; 2), 2, None),
            Inserts(v4!(0, 0, 0, 0; 5), 5, None),
            Inserts(v4!(0, 0, 0, 0; 6), 6, None),
        ],
        &[
            RemovesEntry(v4!(0, 0, 0, 0; 1), 1),
            RemovesEntry(v4!(0, 0, 0, 0; 0), 0),
            Lists(&[
                (v4!(0, 0, 0, 0; 2), 2),
                (v4!(0, 0, 0, 0; 5), 5),
                (v4!(0, 0, 0, 0; 6), 6),
            ]),
            NodeCount(2),
        ],
    ),
];

/// A stored value is set and lent without allocating.
pub const OCCUPIED: [Table<'static, u32>; 1] = [(
    &[Inserts(v4!(0, 0, 0, 0; 32), 1, None)],
    &[
        InsertsVia(Put, v4!(0, 0, 0, 0; 32), 7, Some(1)),
        InsertsVia(OrInsert, v4!(0, 0, 0, 0; 32), 1, Some(7)),
        InsertsVia(OrInsertWith, v4!(0, 0, 0, 0; 32), 1, Some(7)),
        InsertsVia(OrDefault, v4!(0, 0, 0, 0; 32), 0, Some(7)),
        Inserts(v4!(0, 0, 0, 0; 32), 1, Some(7)),
        Len(1),
        NodeCount(7),
    ],
)];
