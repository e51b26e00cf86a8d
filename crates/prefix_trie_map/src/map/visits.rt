//! The counter of the nodes that a lookup reads.
ghost use Rattle.std.specs.Prelude.{◌≡◌, ℕ};

use prefix_trie_table::allocator::nodes::VisitCounter;
use std::marker::Model;
use std::mem::replace;
use std::snapshot::Snapshot;

// The tally before it with one more mark, or no mark. It is never stored: only a snapshot of it is.
#[derive(Drop)]
struct Tally {
    before: Option<Snapshot<Tally>>,
}

impl Model for Tally {
    ghost use Rattle.std.specs.Prelude.{ℕ};
    ghost use Rattle.prefix_trie_map.specs.Marks.{marks};

    ghost Value = { ℕ };

    ghost view = { λ t. marks t.before };

    ghost size = { λ n. n };

    ghost use Rattle.prefix_trie_map.specs.MarksFall.{marks-fall};

    ghost size_decreases = { λ t h. marks-fall t.before };
}

/// The number of nodes that a lookup read. It has no bytes: the number exists in contracts alone.
///
/// Only the map's own calls make a counter, and only a read of a node adds one to it. The counted lookups return
/// theirs.
///
/// # Examples
///
/// ```rust
/// // map = {10.1.0.0/16: 1}
/// let (value, _visits) = map.get_counted(&"10.1.0.0/16".parse()?);
/// value;      // Some(1): `_visits` is 4 in contracts, the nodes of lengths 0, 5, 10 and 15
/// ```
#[derive(Drop)]
pub struct Visits {
    last: Snapshot<Tally>,
}

// A contract sees the number.
impl Model for Visits {
    ghost use Rattle.std.specs.Prelude.{ℕ};

    ghost Value = { ℕ };

    ghost view = { λ v. v.last.value };
}

impl Visits {
    /// Returns a counter without a read.
    #[inline]
    pub(super) fn new() -> Visits
        ensures { result ≡ 0 }
    {
        Visits {
            last: Snapshot::of(&Tally { before: None }),
        }
    }
}

impl VisitCounter for Visits {
    ghost count = { λ v. v };

    #[inline]
    fn tick(&mut self) {
        let before = replace(&mut self.last, Snapshot::of(&Tally { before: None }));
        self.last = Snapshot::of(&Tally {
            before: Some(before),
        });
    }
}
