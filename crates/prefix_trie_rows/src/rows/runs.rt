//! Rows of runs.
use crate::run::ExpectedReply::*;
use crate::run::RunCall;
use prefix_trie::Refusal::IndexRange;
use prefix_trie::replay::Call::*;

/// Row 27: a reply to each call, and what `Clear` leaves.
pub const REPLIES_IN_ORDER: [RunCall; 6] = [
    RunCall(Insert((0, 1), 7), Value(None)),
    RunCall(Lpm((64, 2)), Match(Some(((0, 1), 7)))),
    RunCall(NodeCount, Count(1)),
    RunCall(List, Entries(&[((0, 1), 7)])),
    RunCall(Clear, Done),
    RunCall(Len, Count(0)),
];

/// Row 28: the bits after a prefix's length are ignored, and replies show prefixes without them.
pub const HOST_BITS: [RunCall; 8] = [
    RunCall(Insert((255, 0), 1), Value(None)),
    RunCall(Insert((129, 1), 2), Value(None)),
    RunCall(Insert((1, 8), 3), Value(None)),
    RunCall(Lpm((128, 1)), Match(Some(((128, 1), 2)))),
    RunCall(Lpm((1, 7)), Match(Some(((0, 0), 1)))),
    RunCall(Get((0, 8)), Value(None)),
    RunCall(Len, Count(3)),
    RunCall(List, Entries(&[((0, 0), 1), ((1, 8), 3), ((128, 1), 2)])),
];

/// Row 40: under a limit of two slots, a second child of the root is refused and the run continues.
///
/// The first key is stored, and is set again.
pub const UNDER_TWO_SLOTS: [RunCall; 5] = [
    RunCall(Insert((0, 8), 1), Value(None)),
    RunCall(Insert((128, 8), 2), Refused(IndexRange)),
    RunCall(Insert((0, 8), 3), Value(Some(1))),
    RunCall(NodeCount, Count(2)),
    RunCall(List, Entries(&[((0, 8), 3)])),
];
