//! Entries: a key of a map, looked up once and then read, written, filled or removed.
ghost use Rattle.std.specs.Prelude.{◌≡◌, ◌≤◌, length, ⊤, IfOk, IfErr, OnErr, None, Some, true, false};
ghost use Rattle.std.specs.Borrow.{sem, MutBor};
ghost use Rattle.std.specs.FinMap.{get, contains_key};
ghost use Rattle.std.specs.Option.{option_copied, option_copied_mut, unwrap_or, UnwrapsOrElse};
ghost use Rattle.prefix_trie_table.specs.Locations.{seat_of, is_seat-prop, IsSearchEnd, IsSearchEnd-prop};

mod insertion;
mod occupied;
mod vacant;

use crate::map::PrefixMap;
use crate::map::lookup::rebuilt;
pub use insertion::Put;
use prefix_trie_bits::prefix::{BitString, Prefix, Refusal, Refused};
use prefix_trie_table::table::seat::{Location, SearchEnd, Seat};
use std::alloc::Allocator;
use std::marker::Model;

/// A prefix that fits.
#[derive(Drop)]
struct Fitting<P: Prefix> {
    prefix: P,
}

// Contracts see the prefix.
impl<P: Prefix> Model for Fitting<P> {
    ghost Value = { P };

    ghost view = { λ f. f.prefix };

    ghost invariant = { λ f. P.IsFitting f.prefix };
}

impl<P: Prefix> Fitting<P> {
    #[inline]
    fn new(prefix: P) -> Self
        requires { P.IsFitting prefix }
        ensures { result ≡ prefix }
    {
        Fitting { prefix }
    }

    #[inline]
    fn prefix(&self) -> &P
        ensures value { result.now ≡ self.now }
        ensures fits { P.IsFitting result.now }
    {
        &self.prefix
    }

    // Returns the prefix's path.
    #[inline]
    fn path(&self) -> BitString<P::R>
        ensures path { result ≡ P.path self.now }
        ensures short { length (P.path self.now) ≤ P.R.bit_width }
    {
        self.prefix.path()
    }

    // Returns the prefix of the same path whose other bits are 0.
    #[inline]
    fn without_host_bits(&self) -> Self
        ensures key { result ≡ P.back (P.path self.now) }
        ensures path { P.path result ≡ P.path self.now }
    {
        Fitting::new(rebuilt(self.path()))
    }
}

/// A prefix that a map does not store.
pub struct VacantEntry<'a, P: Prefix, T: Drop, A: Allocator> {
    map: &'a mut PrefixMap<P, T, A>,
    key: Fitting<P>,
    end: SearchEnd<P::R>,
    ghost absent: { contains_key map.now.entries (P.path key) ≡ false },
    ghost ends: { IsSearchEnd map.now.build (P.path key) end } by { IsSearchEnd-prop map.now.build (P.path key) end },
}

/// A vacant entry that is dropped leaves the map unchanged.
impl<P: Prefix, T: Drop, A: Allocator> Drop for VacantEntry<'_, P, T, A> {
    fn drop(self)
        ensures { self.exit.0.now ≡ self.entry.map.now }
    {
        let VacantEntry {
            map: _,
            key: _,
            end: _,
        } = self;
    }
}

/// A prefix that a map stores.
#[derive(Drop)]
pub struct OccupiedEntry<'a, P: Prefix, T: Drop, A: Allocator> {
    map: &'a mut PrefixMap<P, T, A>,
    key: Fitting<P>,
    seat: Seat,
    ghost stored: { contains_key map.now.entries (P.path key) ≡ true },
    ghost seated: { seat_of map.now.build (P.path key) ≡ Some seat } by { is_seat-prop map.now.build (P.path key) seat },
}

/// A prefix of a map, stored or not.
#[derive(Drop)]
pub enum Entry<'a, P: Prefix, T: Drop, A: Allocator> {
    /// The prefix is not stored.
    Vacant(VacantEntry<'a, P, T, A>),
    /// The prefix is stored.
    Occupied(OccupiedEntry<'a, P, T, A>),
}

impl<P: Prefix, T: Drop, A: Allocator> PrefixMap<P, T, A> {
    ghost use Rattle.prefix_trie_map.specs.Entry.{entry_map_ref, entry_map, entry_key, entry_path, MatchEntry};

    /// Looks a prefix up and returns its entry, occupied if the prefix is stored.
    ///
    /// The key of an occupied entry has no host bits. The call does not allocate. The map is unchanged until the entry
    /// is filled, written or removed.
    ///
    /// # Examples
    ///
    /// ```rust
    /// // map = {10.1.0.0/16: 1}
    /// *map.entry("10.1.0.0/16".parse()?).or_insert(9)? += 1;
    /// *map.entry("10.2.0.0/16".parse()?).or_insert(9)? += 1;
    /// map.iter();     // [(10.1.0.0/16, 2), (10.2.0.0/16, 10)]
    /// ```
    #[inline]
    pub fn entry(&mut self, prefix: P) -> Entry<'_, P, T, A>
        requires { P.IsFitting prefix }
        ensures same_map { (entry_map_ref result).ghost_name ≡ self.entry.ghost_name }
        ensures unchanged { entry_map result ≡ self.old }
        ensures path { entry_path result ≡ P.path prefix }
        ensures occupied { MatchEntry result (contains_key self.old.entries (P.path prefix) ≡ true)
            (contains_key self.old.entries (P.path prefix) ≡ false) }
        ensures key { MatchEntry result (entry_key result ≡ P.back (P.path prefix))
            (entry_key result ≡ prefix) }
    {
        let key = Fitting::new(prefix);
        match self.locate(key.prefix()) {
            Location::Stored(seat) => Entry::Occupied(OccupiedEntry {
                map: self,
                key: key.without_host_bits(),
                seat,
            }),
            Location::Missing(end) => Entry::Vacant(VacantEntry {
                map: self,
                key,
                end,
            }),
        }
    }
}

impl<'a, P: Prefix, T: Drop, A: Allocator> Entry<'a, P, T, A> {
    ghost use Rattle.prefix_trie_map.specs.Entry.{entry_map_ref, entry_map, entry_key, entry_value, MatchEntry, ModifiesEntry, lends_if_occupied, lends_filled};

    /// Returns the prefix: without host bits if it is stored, otherwise as it was passed.
    ///
    /// # Examples
    ///
    /// ```rust
    /// // map = {10.1.0.0/16: 1}
    /// map.entry("10.1.2.3/16".parse()?).key();    // 10.1.0.0/16: the stored prefix
    /// map.entry("10.2.2.3/16".parse()?).key();    // 10.2.2.3/16: as it was passed
    /// ```
    #[inline]
    pub fn key(&self) -> &P
        ensures { result.now ≡ entry_key self.now }
    {
        match self {
            Entry::Vacant(entry) => entry.key(),
            Entry::Occupied(entry) => entry.key(),
        }
    }

    /// Returns the value if the prefix is stored.
    ///
    /// # Examples
    ///
    /// ```rust
    /// // map = {10.1.0.0/16: 1}
    /// map.entry("10.1.0.0/16".parse()?).get();    // Some(1)
    /// map.entry("10.2.0.0/16".parse()?).get();    // None
    /// ```
    #[inline]
    pub fn get(&self) -> Option<&T>
        ensures { option_copied result ≡ entry_value self.now }
    {
        match self {
            Entry::Vacant(_) => None,
            Entry::Occupied(entry) => Some(entry.get()),
        }
    }

    /// Returns the value for writing if the prefix is stored. What is written becomes the entry's value, and nothing else
    /// changes.
    ///
    /// A caller's proof learns this only through the bound of a trait whose method calls `get_mut`. The contracts of
    /// `OccupiedEntry::get_mut` and `OccupiedEntry::into_mut` tell it directly.
    ///
    /// # Examples
    ///
    /// ```rust
    /// // map = {10.1.0.0/16: 1}
    /// let mut entry = map.entry("10.1.0.0/16".parse()?);
    /// if let Some(value) = entry.get_mut() { *value = 2; }
    /// entry.get();    // Some(2)
    /// ```
    #[inline]
    pub fn get_mut(&mut self) -> Option<&mut T>
        ensures* writes_back { sem 𝓛
            (lends_if_occupied P.row T.row A.row P.R.row P.Debug P.R.PartialEq P.R.Debug A.Allocator
            self.entry result) }
        ensures value { option_copied_mut result ≡ entry_value self.old }
    {
        match self {
            Entry::Vacant(_) => None,
            Entry::Occupied(entry) => Some(entry.get_mut()),
        }
    }

    /// Calls a closure with the value if the prefix is stored.
    ///
    /// Requires that the closure may be called with the stored value, if there is one.
    ///
    /// # Examples
    ///
    /// ```rust
    /// // map = {10.1.0.0/16: 1}
    /// map.entry("10.1.0.0/16".parse()?).and_modify(|n| *n += 1).or_insert(1)?;    // 2
    /// map.entry("10.2.0.0/16".parse()?).and_modify(|n| *n += 1).or_insert(1)?;    // 1
    /// ```
    #[inline]
    pub fn and_modify<F: FnOnce(&mut T) + Drop>(self, f: F) -> Self
        requires { (x : MutBor T) → entry_value self ≡ Some x.now → F.pre f x }
        ensures same_map { (entry_map_ref result).ghost_name
            ≡ (entry_map_ref self.entry).ghost_name }
        ensures key { entry_key result ≡ entry_key self.entry }
        ensures same_variant { MatchEntry self.entry (MatchEntry result ⊤ ⊥)
            (MatchEntry result ⊥ ⊤) }
        ensures update { ModifiesEntry F.FnOnce f self.entry (entry_map result) }
    {
        match self {
            Entry::Vacant(entry) => Entry::Vacant(entry),
            Entry::Occupied(mut entry) => {
                f(entry.get_mut());
                Entry::Occupied(entry)
            }
        }
    }

    /// Returns the value for writing, after inserting this one if the prefix is not stored.
    ///
    /// # Errors
    ///
    /// Returns the value back, with the cause, if it cannot be inserted, as `PrefixMap::insert` does. This never
    /// happens if the prefix is stored.
    ///
    /// # Examples
    ///
    /// ```rust
    /// // map = {10.1.0.0/16: 1}
    /// map.entry("10.1.0.0/16".parse()?).or_insert(9)?;    // 1
    /// map.entry("10.2.0.0/16".parse()?).or_insert(9)?;    // 9
    /// ```
    #[inline]
    pub fn or_insert(self, value: T) -> Result<&'a mut T, Refused<T>>
        ensures* writes_back { sem 𝓛
            (lends_filled P.row T.row A.row P.R.row P.Debug P.R.PartialEq P.R.Debug A.Allocator
            (λ refused. refused.cause) self.entry result) }
        ensures value { IfOk result (λ x. x.now ≡ unwrap_or (entry_value self.entry) value) }
        ensures absent { OnErr result (entry_value self.entry ≡ None) }
        ensures returned { IfErr result (λ refused. refused.value ≡ value) }
    {
        match self {
            Entry::Vacant(entry) => entry.insert(value),
            Entry::Occupied(entry) => Ok(entry.into_mut()),
        }
    }

    /// Returns the value for writing, after inserting what a closure returns if the prefix is not stored.
    ///
    /// The closure is called at most once, after all blocks have been made. Requires that the closure may be called if
    /// the prefix is not stored.
    ///
    /// # Errors
    ///
    /// Returns the cause if the missing blocks cannot be made, as `PrefixMap::insert` does. The closure is not called
    /// then. This never happens if the prefix is stored.
    ///
    /// # Examples
    ///
    /// ```rust
    /// // map = {10.1.0.0/16: 1}
    /// map.entry("10.1.0.0/16".parse()?).or_insert_with(|| 9)?;    // 1
    /// map.entry("10.2.0.0/16".parse()?).or_insert_with(|| 9)?;    // 9
    /// ```
    #[inline]
    pub fn or_insert_with<F: FnOnce() -> T + Drop>(self, f: F) -> Result<&'a mut T, Refusal>
        requires { entry_value self ≡ None → F.pre f }
        ensures* writes_back { sem 𝓛
            (lends_filled P.row T.row A.row P.R.row P.Debug P.R.PartialEq P.R.Debug A.Allocator
            (λ cause. cause) self.entry result) }
        ensures value { IfOk result (λ x. UnwrapsOrElse (entry_value self.entry) (F.post f) x.now) }
        ensures absent { OnErr result (entry_value self.entry ≡ None) }
    {
        match self {
            Entry::Vacant(vacant) => vacant.insert_with(f),
            Entry::Occupied(occupied) => Ok(occupied.into_mut()),
        }
    }

    /// Returns the value for writing, after inserting the default value if the prefix is not stored.
    ///
    /// The default value is made only if it is needed, after all blocks have been made.
    ///
    /// # Errors
    ///
    /// Returns the same errors as `or_insert_with`.
    ///
    /// # Examples
    ///
    /// ```rust
    /// // map = {10.1.0.0/16: 1}
    /// map.entry("10.1.0.0/16".parse()?).or_default()?;    // 1
    /// map.entry("10.2.0.0/16".parse()?).or_default()?;    // 0
    /// ```
    #[inline]
    pub fn or_default(self) -> Result<&'a mut T, Refusal>
    where
        T: Default,
        ensures* writes_back { sem 𝓛
            (lends_filled P.row T.row A.row P.R.row P.Debug P.R.PartialEq P.R.Debug A.Allocator
            (λ cause. cause) self.entry result) }
        ensures value { IfOk result
            (λ x. UnwrapsOrElse (entry_value self.entry) T.is_default x.now) }
        ensures absent { OnErr result (entry_value self.entry ≡ None) }
    {
        match self {
            Entry::Vacant(entry) => entry.default(),
            Entry::Occupied(stored) => Ok(stored.into_mut()),
        }
    }
}
