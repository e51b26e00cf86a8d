//! Setting the value of an entry, whether it is vacant or occupied.
//!
//! There are two calls, since an `insert` that takes the entry and returns a plain value names no lifetime in its
//! result, and the borrow checker does not cover such a function of the enum. The result of `put` still borrows the
//! map; `answer` ends the borrow.
ghost use Rattle.std.specs.Prelude.{◌≡◌, IfOk, IfErr, Ok, None};
ghost use Rattle.prefix_trie_table.specs.Shape.{with_value_at};
ghost use Rattle.prefix_trie_map.specs.Whole.{IsWhole};

use crate::map::PrefixMap;
use crate::map::entry::{Entry, OccupiedEntry, VacantEntry};
use prefix_trie_bits::prefix::{Prefix, Refused};
use std::alloc::Allocator;
use std::mem;

/// The map after `put`, and the result of the insertion.
#[derive(Drop)]
pub struct Put<'a, P: Prefix, T: Drop, A: Allocator> {
    map: &'a mut PrefixMap<P, T, A>,
    answer: Result<Option<T>, Refused<T>>,
}

impl<'a, P: Prefix, T: Drop, A: Allocator> Put<'a, P, T, A> {
    /// Returns the previous value.
    ///
    /// # Errors
    ///
    /// Returns the value back, with the cause, as `PrefixMap::insert` does.
    ///
    /// # Examples
    ///
    /// ```rust
    /// // map = {10.1.0.0/16: 1}
    /// let put = map.entry("10.1.0.0/16".parse()?).put(2);
    /// put.answer();       // Ok(Some(1))
    /// ```
    pub fn answer(self) -> Result<Option<T>, Refused<T>>
        ensures answer { result ≡ self.entry.answer }
        ensures unchanged { self.exit.0.now ≡ self.entry.map.now }
    {
        self.answer
    }
}

impl<'a, P: Prefix, T: Drop, A: Allocator> Entry<'a, P, T, A> {
    ghost use Rattle.prefix_trie_map.specs.Entry.{entry_map_ref, entry_value, Fills, RefusesToFill};

    /// Sets the value, as `PrefixMap::insert` does, whose result is then in `put(value).answer()`.
    ///
    /// # Errors
    ///
    /// `answer` returns the value back, with the cause, as `PrefixMap::insert` does. This never happens if the prefix
    /// is stored.
    ///
    /// # Examples
    ///
    /// ```rust
    /// // map = {10.1.0.0/16: 1}
    /// map.entry("10.1.0.0/16".parse()?).put(2).answer();      // Ok(Some(1))
    /// map.entry("10.2.0.0/16".parse()?).put(3).answer();      // Ok(None)
    /// ```
    pub fn put(self, value: T) -> Put<'a, P, T, A>
        ensures same_map { result.map.ghost_name ≡ (entry_map_ref self.entry).ghost_name }
        ensures set { IfOk result.answer
            (λ before. (before ≡ entry_value self.entry) × Fills self.entry result.map.now value) }
        ensures refused { IfErr result.answer
            (λ refused. (refused.value ≡ value) × (entry_value self.entry ≡ None)
            × RefusesToFill self.entry refused.cause result.map.now) }
    {
        match self {
            Entry::Vacant(entry) => entry.put(value),
            Entry::Occupied(entry) => entry.put(value),
        }
    }
}

impl<'a, P: Prefix, T: Drop, A: Allocator> VacantEntry<'a, P, T, A> {
    ghost use Rattle.prefix_trie_map.specs.Entry.{Vacant, Fills, RefusesToFill};

    // `Entry::put` for a vacant entry.
    fn put(self, value: T) -> Put<'a, P, T, A>
        ensures same_map { result.map.ghost_name ≡ self.entry.map.ghost_name }
        ensures set { IfOk result.answer
            (λ before. (before ≡ None) × Fills (Vacant self.entry) result.map.now value) }
        ensures refused { IfErr result.answer
            (λ refused. (refused.value ≡ value)
            × RefusesToFill (Vacant self.entry) refused.cause result.map.now) }
    {
        let VacantEntry { map, key, end } = self;
        match map.insert_located(key.prefix(), end, value) {
            Ok(_) => Put {
                map,
                answer: Ok(None),
            },
            Err(refused) => Put {
                map,
                answer: Err(refused),
            },
        }
    }
}

impl<'a, P: Prefix, T: Drop, A: Allocator> OccupiedEntry<'a, P, T, A> {
    ghost use Rattle.prefix_trie_map.specs.Entry.{Occupied, entry_map, entry_path, entry_value};

    // `Entry::put` for an occupied entry.
    fn put(self, value: T) -> Put<'a, P, T, A>
        ensures same_map { result.map.ghost_name ≡ self.entry.map.ghost_name }
        ensures before { result.answer ≡ Ok (entry_value (Occupied self.entry)) }
        ensures after { result.map.now
            ≡ with_value_at (entry_map (Occupied self.entry))
            (entry_path (Occupied self.entry)) value }
        ensures whole { IsWhole P.R.bit_width (entry_map (Occupied self.entry)) }
    {
        let OccupiedEntry { map, key, seat } = self;
        let before = mem::replace(map.lend_at(key.path(), seat), value);
        Put {
            map,
            answer: Ok(Some(before)),
        }
    }
}
