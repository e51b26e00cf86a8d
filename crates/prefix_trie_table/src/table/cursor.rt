//! Walks that do not borrow their table, so that its values can be written between their steps.
ghost use Rattle.std.specs.Prelude.{◌≡◌, [], map, take, true, IfSome, MatchOption};
ghost use Rattle.std.specs.FinMap.{contains_key};
ghost use Rattle.prefix_trie_bits.specs.Calls.Entries.{AreWithin};
ghost use Rattle.prefix_trie_bits.specs.Calls.Nodes.{AreNodes};
ghost use Rattle.prefix_trie_table.specs.Walking.Starts.{selected};

use crate::allocator::nodes::VisitCounter;
use crate::table::Table;
use crate::table::seat::Seat;
use crate::table::spot::Spot;
use crate::table::walk::advance;
use crate::table::walk_start::{Start, start_at};
use arrayvec::ArrayVec;
use prefix_trie_bits::prefix::{BitString, Key};
use std::alloc::Allocator;

/// The state of a walk of a table. It is right until a node of the table changes: writing a value changes none.
#[derive(Drop)]
pub struct Cursor<K: Key> {
    // The path of each spot begins this key.
    key: K,
    stack: ArrayVec<Spot, 26>,
}

impl<T: Drop, A: Allocator, V: VisitCounter> Table<T, A, V> {
    ghost use Rattle.prefix_trie_table.specs.Walking.Cursors.{IsCursorIn, keys_to_come, GivesKey};

    /// Starts a walk of the entries that are selected from a bit string.
    ///
    /// It reads each node on the search path once.
    ///
    /// # Examples
    ///
    /// ```text
    /// let mut cursor = table.cursor(path, Start::Below, &mut counter);
    /// while let Some((key, len, seat)) = table.step(&mut cursor, &mut counter) {
    ///     *table.at_mut(BitString::new(key, len), seat) = 0;      // no node changes, so the cursor is still right
    /// }
    /// ```
    #[inline]
    pub fn cursor<K: Key>(&self, path: BitString<K>, from: Start, counter: &mut V) -> Cursor<K>
        requires within { AreWithin K.bit_width self.now.entries }
        requires nodes { AreNodes K.bit_width self.now.entries self.now.nodes }
        ensures is_there { IsCursorIn K.bits K.bit_width self.now.build result }
        ensures keys { keys_to_come K.bits self.now.entries result
            ≡ map (λ e. e.0) (selected from self.now.entries path) }
    {
        let key = path.key();
        let stack = start_at::<K, T, A, V>(&self.nodes, key, path, from, counter);
        Cursor { key, stack }
    }

    /// Advances to the next entry, and returns its key, the key's length in bits, and the seat of its value.
    ///
    /// It reads each further node once, when the walk comes to it.
    #[inline]
    pub fn step<K: Key>(&self, cursor: &mut Cursor<K>, counter: &mut V) -> Option<(K, u32, Seat)>
        requires is_there { IsCursorIn K.bits K.bit_width self.now.build cursor.old }
        requires within { AreWithin K.bit_width self.now.entries }
        requires nodes { AreNodes K.bit_width self.now.entries self.now.nodes }
        ensures is_there { IsCursorIn K.bits K.bit_width self.now.build cursor.new }
        ensures key { MatchOption result
            ((keys_to_come K.bits self.now.entries cursor.old ≡ [])
            × (keys_to_come K.bits self.now.entries cursor.new ≡ []))
            (λ r. GivesKey K.IsKey K.bits K.bit_width self.now.build r.0 r.1 r.2
            (keys_to_come K.bits self.now.entries cursor.old)
            (keys_to_come K.bits self.now.entries cursor.new)) }
        ensures stored { IfSome result
            (λ r. contains_key self.now.entries (take r.1 (K.bits r.0)) ≡ true) }
    {
        advance::<K, A, V, T>(&self.nodes, &mut cursor.stack, &mut cursor.key, counter)
    }
}
