//! Rows of debug text.
use crate::networks::v4;
use crate::table::Line::{self, *};

/// Row 24: the entries that a prefix contains are nested in its own.
pub const NESTED: [Line; 4] = [
    Insert((0, 0), 1, Ok(None)),
    Insert((0, 1), 2, Ok(None)),
    Insert((0x8000_0000, 1), 3, Ok(None)),
    Text("{(0, 0): { value: 1, children: {(0, 1): { value: 2 }, (2147483648, 1): { value: 3 }} }}"),
];

/// Row 36: an empty map, a network with its host bits, and entries that are closed at several depths.
pub const NETWORKS: [Line; 8] = [
    Text("{}"),
    PrefixText(v4!(10, 1, 2, 3; 8), "10.1.2.3/8"),
    Insert(v4!(10, 0, 0, 0; 8), 1, Ok(None)),
    Insert(v4!(10, 1, 0, 0; 16), 2, Ok(None)),
    Insert(v4!(10, 1, 1, 0; 24), 3, Ok(None)),
    Insert(v4!(10, 2, 0, 0; 16), 4, Ok(None)),
    Insert(v4!(11, 0, 0, 0; 8), 5, Ok(None)),
    Text(
        "{10.0.0.0/8: { value: 1, children: {10.1.0.0/16: { value: 2, children: {10.1.1.0/24: { value: 3 }} }, 10.2.0.0/16: { value: 4 }} }, 11.0.0.0/8: { value: 5 }}",
    ),
];

/// Row 36: an IPv6 network.
pub const IPV6: [Line; 1] = [PrefixText((1, 128), "0000:0000:0000:0000:0000:0000:0000:0001/128")];
