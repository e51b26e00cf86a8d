//! Walks over the entries whose prefixes contain a prefix, shortest first.
//!
//! Contracts see each walk as the list of the items still to come.
ghost use Rattle.std.specs.Prelude.{◌≡◌, ◌≤◌, map, length};
ghost use Rattle.std.specs.Iterator.{at_most};
ghost use Rattle.std.specs.Map.Iter.{TakesFirst, deref};
ghost use Rattle.prefix_trie_bits.specs.Model.Matches.{covers};
ghost use Rattle.prefix_trie_bits.specs.Model.Selections.{prefix_pairs};
ghost use Rattle.prefix_trie_map.specs.Walks.{lent_item};
ghost use Rattle.prefix_trie_map.specs.Whole.{IsWhole};

use crate::map::lookup::rebuilt;
use crate::map::projection::{Keyed, KeysOf};
use crate::map::{PrefixMap, Visits};
use prefix_trie_bits::prefix::Prefix;
use prefix_trie_table::table::Cover as TableCover;
use std::alloc::Allocator;
use std::marker::{Model, PhantomData};

impl<P: Prefix, T: Drop, A: Allocator> PrefixMap<P, T, A> {
    /// Returns a walk over the entries whose prefixes contain this one, shortest first.
    ///
    /// A stored prefix contains itself. Prefixes are without host bits. There are at most 129 items, since no two have
    /// the same length.
    ///
    /// # Examples
    ///
    /// ```rust
    /// // map = {10.0.0.0/8: 1, 10.1.1.0/24: 2, 10.1.1.0/25: 3, 11.0.0.0/8: 4}
    /// map.cover(&"10.1.1.0/24".parse()?);     // [(10.0.0.0/8, 1), (10.1.1.0/24, 2)]
    /// ```
    #[inline]
    pub fn cover(&self, prefix: &P) -> Cover<'_, P, T, A>
        requires { P.IsFitting prefix.now }
        ensures items { result ≡ prefix_pairs P.back (covers self.now.entries (P.path prefix.now)) }
        ensures counted { length result ≡ length (covers self.now.entries (P.path prefix.now)) }
        ensures fits { length (covers self.now.entries (P.path prefix.now)) ≤ 129 }
        ensures whole { IsWhole P.R.bit_width self.now }
    {
        self.known_valid();
        let walk = self.table.cover(prefix.path(), &mut Visits::new());
        Cover::over(walk)
    }

    /// Returns a walk over the stored prefixes that contain this one: the prefixes of `cover`.
    ///
    /// # Examples
    ///
    /// ```rust
    /// // map = {10.0.0.0/8: 1, 10.1.0.0/16: 2, 11.0.0.0/8: 3}
    /// map.cover_keys(&"10.1.1.0/24".parse()?);    // [10.0.0.0/8, 10.1.0.0/16]
    /// ```
    #[inline]
    pub fn cover_keys(&self, prefix: &P) -> CoverKeys<'_, P, T, A>
        requires { P.IsFitting prefix.now }
        ensures items { result
            ≡ map (λ e. P.back e.0) (covers self.now.entries (P.path prefix.now)) }
        ensures counted { length result ≡ length (covers self.now.entries (P.path prefix.now)) }
        ensures fits { length (covers self.now.entries (P.path prefix.now)) ≤ 129 }
        ensures whole { IsWhole P.R.bit_width self.now }
    {
        KeysOf::new(self.cover(prefix))
    }

    /// Returns a walk over the values whose prefixes contain this one: the values of `cover`.
    ///
    /// # Examples
    ///
    /// ```rust
    /// // map = {10.0.0.0/8: 1, 10.1.0.0/16: 2, 11.0.0.0/8: 3}
    /// map.cover_values(&"10.1.1.0/24".parse()?);      // [1, 2]
    /// ```
    #[inline]
    pub fn cover_values(&self, prefix: &P) -> CoverValues<'_, P, T, A>
        requires { P.IsFitting prefix.now }
        ensures items { result ≡ map (λ e. e.1) (covers self.now.entries (P.path prefix.now)) }
        ensures counted { length result ≡ length (covers self.now.entries (P.path prefix.now)) }
        ensures fits { length (covers self.now.entries (P.path prefix.now)) ≤ 129 }
        ensures whole { IsWhole P.R.bit_width self.now }
    {
        CoverValues::new(self.cover(prefix))
    }
}

/// The entries whose prefixes contain a prefix, shortest first.
///
/// Each item is a prefix without host bits and a reference to its value. The walk does not allocate. After its last
/// item it returns `None` each time.
#[derive(Drop)]
pub struct Cover<'a, P: Prefix, T: Drop, A: Allocator> {
    walk: TableCover<'a, P::R, T, A, Visits>,
    marker: PhantomData<P>,
}

impl<'a, P: Prefix, T: Drop, A: Allocator> Model for Cover<'a, P, T, A> {
    ghost use Rattle.std.specs.Prelude.{List};
    ghost use Rattle.prefix_trie_bits.specs.Model.Selections.{prefix_pairs};

    ghost Value = { List (P × T) };

    ghost view = { λ c. prefix_pairs P.back c.walk };
}

impl<'a, P: Prefix, T: Drop, A: Allocator> Cover<'a, P, T, A> {
    /// Returns the walk of a table with prefixes in place of lengths.
    #[inline]
    fn over(walk: TableCover<'a, P::R, T, A, Visits>) -> Self
        ensures { result ≡ prefix_pairs P.back walk.entry }
    {
        Cover {
            walk,
            marker: PhantomData,
        }
    }
}

impl<'a, P: Prefix, T: Drop, A: Allocator> Iterator for Cover<'a, P, T, A> {
    type Item = (P, &'a T);

    ghost next_gives = { TakesFirst lent_item };

    ghost remaining = { λ items. at_most (length items) };

    #[inline]
    fn next(&mut self) -> Option<(P, &'a T)> {
        let Some((path, value)) = self.walk.next(&mut Visits::new()) else {
            return None;
        };
        Some((rebuilt(path), value))
    }
}

impl<'a, P: Prefix, T: Drop, A: Allocator> Keyed for Cover<'a, P, T, A> {
    ghost use Rattle.std.specs.Prelude.{map};

    type Key = P;

    ghost keys = { map (λ e. e.0) };

    #[inline]
    fn next_key(&mut self) -> Option<P> {
        let Some((prefix, _)) = self.next() else {
            return None;
        };
        Some(prefix)
    }
}

/// The stored prefixes that contain a prefix, shortest first and without host bits.
pub type CoverKeys<'a, P, T, A> = KeysOf<Cover<'a, P, T, A>>;

/// The values whose prefixes contain a prefix, in the order of those prefixes, shortest first.
#[derive(Drop)]
pub struct CoverValues<'a, P: Prefix, T: Drop, A: Allocator> {
    inner: Cover<'a, P, T, A>,
}

impl<'a, P: Prefix, T: Drop, A: Allocator> Model for CoverValues<'a, P, T, A> {
    ghost use Rattle.std.specs.Prelude.{List, map};

    ghost Value = { List T };

    ghost view = { λ c. map (λ e. e.1) c.inner };
}

impl<'a, P: Prefix, T: Drop, A: Allocator> CoverValues<'a, P, T, A> {
    /// Returns the values of a walk.
    #[inline]
    fn new(inner: Cover<'a, P, T, A>) -> Self
        ensures { result ≡ map (λ e. e.1) inner.entry }
    {
        CoverValues { inner }
    }
}

impl<'a, P: Prefix, T: Drop, A: Allocator> Iterator for CoverValues<'a, P, T, A> {
    type Item = &'a T;

    ghost next_gives = { TakesFirst deref };

    ghost remaining = { λ items. at_most (length items) };

    #[inline]
    fn next(&mut self) -> Option<&'a T> {
        let Some((_, value)) = self.inner.next() else {
            return None;
        };
        Some(value)
    }

    // The default does not know that the borrowed items live as long as the map.
    #[inline]
    fn size_hint(&self) -> (usize, Option<usize>) {
        (0, None)
    }
}
