//! Rows of entries.
use crate::networks::v4;
use crate::table::Line::{self, *};

/// Row 2: a stored prefix has no host bits. A prefix that is not stored has those it was passed with.
pub const HOST_BITS: [Line; 4] = [
    Insert(v4!(192, 168, 0, 1; 24), 1, Ok(None)),
    GetKeyValue(v4!(192, 168, 0, 0; 24), Some((v4!(192, 168, 0, 0; 24), 1))),
    EntryKey(v4!(192, 168, 0, 7; 24), v4!(192, 168, 0, 0; 24)),
    EntryKey(v4!(192, 168, 9, 7; 24), v4!(192, 168, 9, 7; 24)),
];

/// Row 20: a stored value is changed and a missing one is inserted. Both are removed, and their nodes stay.
pub const COUNTED: [Line; 10] = [
    Insert(v4!(192, 168, 1, 0; 24), 1, Ok(None)),
    AddOrInsert(v4!(192, 168, 1, 0; 24), 9, 2),
    AddOrInsert(v4!(192, 168, 2, 0; 24), 9, 9),
    NodeCount(5),
    RemoveEntry(v4!(192, 168, 1, 0; 24), Some(2)),
    RemoveEntry(v4!(192, 168, 2, 0; 24), Some(9)),
    Len(0),
    NodeCount(5),
    Clear,
    NodeCount(1),
];

/// Row 33: a closure that makes a value is called only if the entry is vacant.
pub const FILLED: [Line; 8] = [
    EntryKey((131, 1), (131, 1)),
    OrDefault((131, 1), 0, 5),
    EntryKey((200, 1), (128, 1)),
    EntryGet((200, 1), Some(5)),
    EntryInsert((200, 1), 7, Ok(Some(5))),
    OrInsertWith((200, 1), 8, 7, 0),
    OrInsertWith((200, 2), 8, 8, 1),
    Entries(&[((128, 1), 7), ((192, 2), 8)]),
];
