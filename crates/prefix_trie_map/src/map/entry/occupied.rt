//! Reading, writing and removing an occupied entry.
ghost use Rattle.std.specs.Prelude.{◌≡◌, Some};
ghost use Rattle.std.specs.Borrow.{sem};
ghost use Rattle.prefix_trie_bits.specs.Model.Entries.{without_entry};
ghost use Rattle.prefix_trie_bits.specs.Model.Step.{RemoveKeepTree, Value};
ghost use Rattle.prefix_trie_bits.specs.Calls.Storage.{StepByPath};
ghost use Rattle.prefix_trie_table.specs.Shape.{with_value_at};
ghost use Rattle.prefix_trie_map.specs.Steps.{stored_state};
ghost use Rattle.prefix_trie_map.specs.Whole.{IsWhole};

use crate::map::PrefixMap;
use crate::map::entry::{Entry, OccupiedEntry};
use prefix_trie_bits::prefix::Prefix;
use std::alloc::Allocator;
use std::mem;

impl<'a, P: Prefix, T: Drop, A: Allocator> OccupiedEntry<'a, P, T, A> {
    ghost use Rattle.prefix_trie_map.specs.Entry.{Occupied, entry_map, entry_key, entry_path, entry_value, lends_written, lends_occupied};

    /// Returns the prefix, without host bits.
    ///
    /// # Examples
    ///
    /// ```rust
    /// // map = {10.1.0.0/16: 1}
    /// if let Entry::Occupied(entry) = map.entry("10.1.2.3/16".parse()?) {
    ///     entry.key();    // 10.1.0.0/16
    /// }
    /// ```
    #[inline]
    pub fn key(&self) -> &P
        ensures { result.now ≡ entry_key (Occupied self.now) }
    {
        self.key.prefix()
    }

    /// Returns the value.
    ///
    /// # Examples
    ///
    /// ```rust
    /// // map = {10.1.0.0/16: 1}
    /// if let Entry::Occupied(entry) = map.entry("10.1.0.0/16".parse()?) {
    ///     entry.get();    // 1
    /// }
    /// ```
    #[inline]
    pub fn get(&self) -> &T
        ensures { entry_value (Occupied self.now) ≡ Some result.now }
    {
        self.map.value_at(self.key.prefix(), self.seat)
    }

    /// Returns the value for writing. What is written becomes the entry's value, and nothing else changes.
    ///
    /// # Examples
    ///
    /// ```rust
    /// // map = {10.1.0.0/16: 1}
    /// if let Entry::Occupied(mut entry) = map.entry("10.1.0.0/16".parse()?) {
    ///     *entry.get_mut() += 1;
    ///     entry.get();    // 2
    /// }
    /// ```
    #[inline]
    pub fn get_mut(&mut self) -> &mut T
        ensures* writes_back { sem 𝓛
            (lends_occupied P.row T.row A.row P.R.row P.Debug P.R.PartialEq P.R.Debug A.Allocator
            self.entry result) }
        ensures value { entry_value (Occupied self.old) ≡ Some result.now }
    {
        let path = self.key.path();
        let seat = self.seat;
        self.map.lend_at(path, seat)
    }

    /// Returns the value for writing, for as long as the map is borrowed.
    ///
    /// # Examples
    ///
    /// ```rust
    /// // map = {10.1.0.0/16: 1}
    /// if let Entry::Occupied(entry) = map.entry("10.1.0.0/16".parse()?) { *entry.into_mut() += 1; }
    /// map.get(&"10.1.0.0/16".parse()?);       // Some(2)
    /// ```
    #[inline]
    pub fn into_mut(self) -> &'a mut T
        ensures* writes_back { sem 𝓛
            (lends_written P.row T.row A.row P.R.row P.Debug P.R.PartialEq P.R.Debug A.Allocator
            (Occupied self.entry) result) }
        ensures value { entry_value (Occupied self.entry) ≡ Some result.now }
        ensures whole { IsWhole P.R.bit_width (entry_map (Occupied self.entry)) }
    {
        let OccupiedEntry { map, key, seat } = self;
        map.lend_at(key.path(), seat)
    }

    /// Ends the entry, so that a caller's proof knows the map again.
    ///
    /// The map then has what was written through `get_mut` or by `and_modify`. The proof learns nothing about the map
    /// if the entry is only dropped.
    ///
    /// # Examples
    ///
    /// ```rust
    /// // map = {10.1.0.0/16: 1}
    /// if let Entry::Occupied(entry) = map.entry("10.1.0.0/16".parse()?).and_modify(|n| *n += 1) {
    ///     entry.release();
    /// }
    /// map.get(&"10.1.0.0/16".parse()?);       // Some(2)
    /// ```
    #[inline]
    pub fn release(self)
        ensures { self.exit.0.now ≡ entry_map (Occupied self.entry) }
    {
        let OccupiedEntry {
            map: _,
            key: _,
            seat: _,
        } = self;
    }

    /// Sets the value and returns the previous one. It never fails and does not allocate.
    ///
    /// # Examples
    ///
    /// ```rust
    /// // map = {10.1.0.0/16: 1}
    /// if let Entry::Occupied(entry) = map.entry("10.1.0.0/16".parse()?) {
    ///     entry.insert(2);                    // 1
    /// }
    /// map.get(&"10.1.0.0/16".parse()?);       // Some(2)
    /// ```
    #[inline]
    pub fn insert(self, value: T) -> T
        ensures before { entry_value (Occupied self.entry) ≡ Some result }
        ensures after { self.exit.0.now
            ≡ with_value_at (entry_map (Occupied self.entry))
            (entry_path (Occupied self.entry)) value }
    {
        let key = self.key;
        let seat = self.seat;
        mem::replace(self.map.lend_at(key.path(), seat), value)
    }

    /// Removes the entry from the map and returns its value.
    ///
    /// All nodes stay, as after `PrefixMap::remove_keep_tree`. It never fails.
    ///
    /// # Examples
    ///
    /// ```rust
    /// // map = {10.1.0.0/16: 1}
    /// if let Entry::Occupied(entry) = map.entry("10.1.0.0/16".parse()?) {
    ///     entry.remove();     // 1
    /// }
    /// map.len();              // 0
    /// ```
    #[inline]
    pub fn remove(self) -> T
        ensures value { entry_value (Occupied self.entry) ≡ Some result }
        ensures entries { self.exit.0.now.entries
            ≡ without_entry (entry_map (Occupied self.entry)).entries
            (entry_path (Occupied self.entry)) }
        ensures nodes { self.exit.0.now.nodes ≡ (entry_map (Occupied self.entry)).nodes }
        ensures step { StepByPath P.R.bit_width (stored_state (entry_map (Occupied self.entry)))
            (RemoveKeepTree (entry_path (Occupied self.entry))) (Value (Some result))
            (stored_state self.exit.0.now) }
    {
        let key = self.key;
        self.map.take(key.prefix())
    }
}
