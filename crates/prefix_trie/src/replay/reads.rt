//! The numbers of nodes that the lookups of a run read, for contracts alone.
ghost use Rattle.std.specs.Prelude.{◌≡◌, ◌++◌, ◌∷◌, []};

use prefix_trie_map::map::Visits;
use std::marker::Model;
use std::mem::replace;
use std::snapshot::Snapshot;

// One number more than the note before it, or no number. Only snapshots of it are kept.
#[derive(Drop)]
struct Note {
    before: Option<Snapshot<Note>>,
    read: Option<Visits>,
}

impl Model for Note {
    ghost use Rattle.std.specs.Prelude.{ℕ, List, Option, length};
    ghost use Rattle.prefix_trie.specs.Reads.{noted};

    ghost Value = { List (Option ℕ) };

    ghost view = { λ n. noted n.before n.read };

    ghost size = { length };

    ghost use Rattle.prefix_trie.specs.NotesFall.{notes-fall};

    ghost size_decreases = { λ n h. notes-fall n.before n.read };
}

/// The number of nodes that each call of a run read, `None` if the call is not a lookup.
///
/// It has no bytes: the numbers exist only in contracts, and are those of the `Visits` that the
/// map's counted lookups return.
///
/// # Examples
///
/// ```text
/// Call::Insert(10.1.0.0/16, 1)     None
/// Call::Get(10.1.0.0/16)           Some(4): the nodes of the lengths 0, 5, 10 and 15
/// Call::Spm(11.0.0.0/8)            Some(2): the nodes of its search path
/// ```
#[derive(Drop)]
pub struct Reads {
    last: Snapshot<Note>,
}

// A contract sees the numbers in the order of the calls.
impl Model for Reads {
    ghost use Rattle.std.specs.Prelude.{ℕ, List, Option};

    ghost Value = { List (Option ℕ) };

    ghost view = { λ r. r.last.value };
}

impl Reads {
    /// Returns the numbers of no calls.
    pub(super) fn new() -> Reads
        ensures { result ≡ [] }
    {
        Reads {
            last: Snapshot::of(&Note {
                before: None,
                read: None,
            }),
        }
    }

    /// Appends the number of one more call.
    pub(super) fn push(&mut self, read: Option<Visits>)
        ensures { self.new ≡ self.old ++ read ∷ [] }
    {
        let blank = Snapshot::of(&Note {
            before: None,
            read: None,
        });
        let before = replace(&mut self.last, blank);
        self.last = Snapshot::of(&Note {
            before: Some(before),
            read,
        });
    }
}
