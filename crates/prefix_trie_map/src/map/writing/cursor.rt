//! The state of a writing walk over a map.
ghost use Rattle.std.specs.Prelude.{◌≡◌};
ghost use Rattle.prefix_trie_table.specs.Walking.Cursors.{IsCursorIn, IsCursorIn-prop};

use crate::map::PrefixMap;
use crate::map::writing::{Source, ValuesOf, WalkOf};
use prefix_trie_bits::prefix::{BitString, Key, Prefix};
use prefix_trie_table::table::cursor::Cursor;
use prefix_trie_table::table::seat::Seat;
use std::alloc::Allocator;

/// A map that is borrowed for writing, and the position of a walk over it.
#[derive(Drop)]
pub struct MapCursor<'a, P: Prefix, T: Drop, A: Allocator> {
    pub(super) map: &'a mut PrefixMap<P, T, A>,
    pub(super) cursor: Cursor<P::R>,
    ghost is_there: { IsCursorIn P.R.bits P.R.bit_width map.now.build cursor } by { IsCursorIn-prop P.R.bits P.R.bit_width map.now.build cursor },
}

/// Where the value of an entry is stored: its bit string, and the value's seat.
#[derive(Drop)]
pub struct CursorItem<K: Key> {
    path: BitString<K>,
    seat: Seat,
}

impl<'a, P: Prefix, T: Drop, A: Allocator> MapCursor<'a, P, T, A> {
    // Returns its map.
    #[inline]
    fn into_map(self) -> &'a mut PrefixMap<P, T, A>
        ensures name { result.ghost_name ≡ self.entry.map.ghost_name }
        ensures map { result.now ≡ self.entry.map.now }
    {
        let MapCursor { map, cursor: _ } = self;
        map
    }
}

impl<'a, P: Prefix, T: Drop, A: Allocator> WalkOf<MapCursor<'a, P, T, A>> {
    ghost use Rattle.prefix_trie_map.specs.Writing.{ReturnsMap};

    /// Ends the walk and returns its map, with what was written, if it has one.
    ///
    /// A caller's proof that ends a walk with this call knows the map.
    ///
    /// # Examples
    ///
    /// ```rust
    /// // map = {10.0.0.0/8: 1, 10.1.0.0/16: 2}
    /// let mut walk = map.iter_mut();
    /// if let Some((_network, value)) = walk.next() { *value = 3; }
    /// if let Some(map) = walk.into_map() {
    ///     map.values();       // [3, 2]
    /// }
    /// ```
    #[inline]
    pub fn into_map(self) -> Option<&'a mut PrefixMap<P, T, A>>
        ensures { ReturnsMap self.entry.source result }
    {
        let source = self.source;
        match source {
            Some(source) => Some(source.into_map()),
            None => None,
        }
    }
}

impl<'a, P: Prefix, T: Drop, A: Allocator> ValuesOf<MapCursor<'a, P, T, A>> {
    ghost use Rattle.prefix_trie_map.specs.Writing.{ReturnsMap};

    /// Ends the walk and returns its map, with what was written, if it has one.
    ///
    /// A caller's proof that ends a walk with this call knows the map.
    ///
    /// # Examples
    ///
    /// ```rust
    /// // map = {10.0.0.0/8: 1, 10.1.0.0/16: 2}
    /// let mut walk = map.values_mut();
    /// if let Some(value) = walk.next() { *value = 3; }
    /// if let Some(map) = walk.into_map() {
    ///     map.values();       // [3, 2]
    /// }
    /// ```
    #[inline]
    pub fn into_map(self) -> Option<&'a mut PrefixMap<P, T, A>>
        ensures { ReturnsMap self.entry.walk.source result }
    {
        let walk = self.walk;
        walk.into_map()
    }
}

impl<'a, P: Prefix, T: Drop, A: Allocator> Source for MapCursor<'a, P, T, A> {
    ghost use Rattle.prefix_trie_map.specs.Writing.{IsItemAt, with_written, HasValueAt, IsFirst, GoesOver, ComesToEnd};

    type Prefix = P;

    type Value = T;

    type CursorItem = CursorItem<P::R>;

    ghost IsAt = { IsItemAt };

    ghost with = { with_written };

    ghost Holds = { HasValueAt };

    ghost First = { IsFirst };

    ghost Passes = { GoesOver };

    ghost Ends = { ComesToEnd };

    #[inline]
    fn step(&mut self) -> Option<(P, CursorItem<P::R>)> {
        let Some((key, len, seat)) = self.map.step(&mut self.cursor) else {
            return None;
        };
        let path = BitString::new(key, len);
        Some((P::from_repr_len(key, len as u8), CursorItem { path, seat }))
    }

    #[inline]
    fn lend(&mut self, item: CursorItem<P::R>) -> &mut T {
        self.map.lend_at(item.path, item.seat)
    }
}
