//! Walks over the items of another walk whose prefixes pass a test.
ghost use Rattle.std.specs.Prelude.{◌≡◌, ◌<◌, All, List, Bool, filter, length, map};
ghost use Rattle.std.specs.Iterator.{at_most};
ghost use Rattle.std.specs.Map.Iter.{TakesFirst};
ghost use Rattle.prefix_trie.specs.Terms.{lent_item};

use prefix_trie::Prefix;
use prefix_trie::map::{Iter, Keyed};
use std::alloc::Allocator;
use std::marker::Model;

/// A test of prefixes by their paths.
pub trait PathTest<P: Prefix>: Drop {
    // what it returns at a path
    ghost outcome: { Self → List Bool → Bool };

    /// Returns whether a prefix passes. A call does not change what the test returns.
    fn passes(&mut self, prefix: &P) -> bool
        requires { P.IsFitting prefix.now }
        ensures decides { result ≡ outcome self.old (P.path prefix.now) }
        ensures same { outcome self.new ≡ outcome self.old };
}

/// The entries of a map whose prefixes pass a test, in listing order.
///
/// The walk does not allocate. After its last item it returns `None` each time.
#[derive(Drop)]
pub struct Selected<'a, P: Prefix, T: Drop, A: Allocator, F: PathTest<P>> {
    entries: Iter<'a, P, T, A>,
    test: F,
}

impl<'a, P: Prefix, T: Drop, A: Allocator, F: PathTest<P>> Model for Selected<'a, P, T, A, F> {
    ghost use Rattle.std.specs.Prelude.{All, List, filter};

    ghost Value = { List (P × T) };

    ghost view = { λ w. filter (λ e. F.outcome w.test (P.path e.0)) w.entries };

    ghost invariant = { λ w. All (λ e. P.IsFitting e.0) w.entries };
}

impl<'a, P: Prefix, T: Drop, A: Allocator, F: PathTest<P>> Selected<'a, P, T, A, F> {
    /// Returns a walk over the entries that pass a test, from those that another walk has still to give.
    ///
    /// Requires that each prefix to come fits, as it does in every walk of a map (`listed_laws`). For a test of your own,
    /// implement `PathTest`.
    pub fn new(entries: Iter<'a, P, T, A>, test: F) -> Self
        requires { All (λ e. P.IsFitting e.0) entries }
        ensures { result ≡ filter (λ e. F.outcome test (P.path e.0)) entries.entry }
    {
        Selected { entries, test }
    }
}

impl<'a, P: Prefix, T: Drop, A: Allocator, F: PathTest<P>> Iterator for Selected<'a, P, T, A, F> {
    type Item = (P, &'a T);

    ghost next_gives = { TakesFirst lent_item };

    ghost remaining = { λ items. at_most (length items) };

    fn next(&mut self) -> Option<(P, &'a T)> {
        next_entry(&mut self.entries, &mut self.test)
    }
}

/// Returns the next entry that passes, and skips those before it.
fn next_entry<'a, P: Prefix, T: Drop, A: Allocator, F: PathTest<P>>(
    entries: &mut Iter<'a, P, T, A>,
    test: &mut F,
) -> Option<(P, &'a T)>
    requires { All (λ e. P.IsFitting e.0) entries.old }
    ensures takes { TakesFirst lent_item
        (filter (λ e. F.outcome test.old (P.path e.0)) entries.old) result
        (filter (λ e. F.outcome test.new (P.path e.0)) entries.new) }
    ensures fit { All (λ e. P.IsFitting e.0) entries.new }
{
    while let Some((prefix, value)) = entries.next() {
        if test.passes(&prefix) {
            return Some((prefix, value));
        }
    }
    None
}

impl<'a, P: Prefix, T: Drop, A: Allocator, F: PathTest<P>> Keyed for Selected<'a, P, T, A, F> {
    ghost use Rattle.std.specs.Prelude.{map};

    type Key = P;

    ghost keys = { map (λ item. item.0) };

    #[inline]
    fn next_key(&mut self) -> Option<P> {
        let Some((prefix, _)) = self.next() else {
            return None;
        };
        Some(prefix)
    }
}
