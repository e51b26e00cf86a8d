//! The calls that make walks for writing.
ghost use Rattle.std.specs.Prelude.{cond};
ghost use Rattle.prefix_trie_bits.specs.Model.Selections.{listing, listing_from, listing_after, listing_below};
ghost use Rattle.prefix_trie_table.specs.Walking.Starts.{selected};
ghost use Rattle.prefix_trie_map.specs.Whole.{IsWhole};

use crate::map::writing::{IterMut, MapCursor, ValuesMut, ValuesOf, WalkOf};
use crate::map::{PrefixMap, Visits};
use prefix_trie_bits::prefix::{BitString, Key, Prefix};
use prefix_trie_table::table::walk_start::Start;
use std::alloc::Allocator;

impl<P: Prefix, T: Drop, A: Allocator> PrefixMap<P, T, A> {
    ghost use Rattle.prefix_trie_map.specs.Writing.{StartsIn};

    /// Returns a walk over the entries of `iter` that lends their values for writing.
    ///
    /// Each value is lent until the next call. Writing changes only that value, and the walk goes on as if nothing were
    /// written.
    ///
    /// # Examples
    ///
    /// ```rust
    /// // map = {10.0.0.0/8: 1, 10.1.0.0/16: 2}
    /// let mut walk = map.iter_mut();
    /// while let Some((_network, value)) = walk.next() { *value += 1; }
    /// map.values();       // [2, 3]
    /// ```
    #[inline]
    pub fn iter_mut(&mut self) -> IterMut<'_, P, T, A>
        ensures starts { StartsIn self.entry (listing self.old.entries) result.source }
        ensures whole { IsWhole P.R.bit_width self.old }
    {
        self.write_from(BitString::new(P::R::zero(), 0), Start::Below)
    }

    /// Returns a walk over the entries of `iter_from` that lends their values for writing.
    ///
    /// # Examples
    ///
    /// ```rust
    /// // map = {10.0.0.0/8: 1, 10.1.0.0/16: 2, 10.2.0.0/16: 3}
    /// let mut walk = map.iter_from_mut(&"10.1.0.0/16".parse()?, false);
    /// while let Some((_network, value)) = walk.next() { *value += 10; }
    /// map.values();       // [1, 2, 13]: with `true` it would be [1, 12, 13]
    /// ```
    #[inline]
    pub fn iter_from_mut(&mut self, prefix: &P, inclusive: bool) -> IterMut<'_, P, T, A>
        requires { P.IsFitting prefix.now }
        ensures starts { StartsIn self.entry (cond inclusive
            (listing_from self.old.entries (P.path prefix.now))
            (listing_after self.old.entries (P.path prefix.now))) result.source }
        ensures whole { IsWhole P.R.bit_width self.old }
    {
        let from = if inclusive { Start::At } else { Start::After };
        self.write_from(prefix.path(), from)
    }

    /// Returns a walk over the entries of `children` that lends their values for writing.
    ///
    /// # Examples
    ///
    /// ```rust
    /// // map = {10.0.0.0/8: 1, 10.1.0.0/16: 2, 10.1.1.0/24: 3, 10.2.0.0/16: 4}
    /// let mut walk = map.children_mut(&"10.1.0.0/16".parse()?);
    /// while let Some((_network, value)) = walk.next() { *value += 10; }
    /// map.values();       // [1, 12, 13, 4]
    /// ```
    #[inline]
    pub fn children_mut(&mut self, prefix: &P) -> IterMut<'_, P, T, A>
        requires { P.IsFitting prefix.now }
        ensures starts { StartsIn self.entry
            (listing_below self.old.entries (P.path prefix.now)) result.source }
        ensures whole { IsWhole P.R.bit_width self.old }
    {
        self.write_from(prefix.path(), Start::Below)
    }

    /// Returns a walk over the values of `values` that lends them for writing, each until the next call.
    ///
    /// # Examples
    ///
    /// ```rust
    /// // map = {10.0.0.0/8: 1, 10.1.0.0/16: 2}
    /// let mut walk = map.values_mut();
    /// while let Some(value) = walk.next() { *value *= 10; }
    /// map.values();       // [10, 20]
    /// ```
    #[inline]
    pub fn values_mut(&mut self) -> ValuesMut<'_, P, T, A>
        ensures starts { StartsIn self.entry (listing self.old.entries) result.walk.source }
        ensures whole { IsWhole P.R.bit_width self.old }
    {
        let walk = self.iter_mut();
        ValuesOf { walk }
    }

    // Returns the walk of a selection.
    #[inline]
    fn write_from(&mut self, path: BitString<P::R>, from: Start) -> IterMut<'_, P, T, A>
        ensures starts { StartsIn self.entry (selected from self.old.entries path) result.source }
        ensures whole { IsWhole P.R.bit_width self.old }
    {
        self.known_valid();
        let cursor = self.table.cursor(path, from, &mut Visits::new());
        let source = MapCursor { map: self, cursor };
        WalkOf {
            source: Some(source),
        }
    }
}
