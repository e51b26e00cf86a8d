//! Filling a vacant entry.
ghost use Rattle.std.specs.Prelude.{◌≡◌, IfOk, IfErr};
ghost use Rattle.std.specs.Borrow.{sem};

use crate::map::PrefixMap;
use crate::map::entry::{Entry, VacantEntry};
use prefix_trie_bits::prefix::{Prefix, Refusal, Refused};
use std::alloc::Allocator;

impl<'a, P: Prefix, T: Drop, A: Allocator> VacantEntry<'a, P, T, A> {
    ghost use Rattle.prefix_trie_map.specs.Entry.{Vacant, entry_key, lends_filled};

    /// Returns the prefix as it was passed.
    ///
    /// # Examples
    ///
    /// ```rust
    /// // map = {10.1.0.0/16: 1}
    /// if let Entry::Vacant(entry) = map.entry("10.2.2.3/16".parse()?) {
    ///     entry.key();    // 10.2.2.3/16
    /// }
    /// ```
    #[inline]
    pub fn key(&self) -> &P
        ensures { result.now ≡ entry_key (Vacant self.now) }
    {
        self.key.prefix()
    }

    /// Inserts a value and returns it for writing.
    ///
    /// # Errors
    ///
    /// Returns the value back, with the cause, as `PrefixMap::insert` does.
    ///
    /// # Examples
    ///
    /// ```rust
    /// // map = {}
    /// if let Entry::Vacant(entry) = map.entry("10.2.0.0/16".parse()?) { *entry.insert(3)? += 1; }
    /// map.get(&"10.2.0.0/16".parse()?);       // Some(4)
    /// ```
    #[inline]
    pub fn insert(self, value: T) -> Result<&'a mut T, Refused<T>>
        ensures* writes_back { sem 𝓛
            (lends_filled P.row T.row A.row P.R.row P.Debug P.R.PartialEq P.R.Debug A.Allocator
            (λ refused. refused.cause) (Vacant self.entry) result) }
        ensures value { IfOk result (λ x. x.now ≡ value) }
        ensures returned { IfErr result (λ refused. refused.value ≡ value) }
    {
        let VacantEntry { map, key, end } = self;
        let path = key.path();
        let seat = map.insert_located(key.prefix(), end, value)?;
        Ok(map.lend_at(path, seat))
    }

    /// Inserts what a closure returns, and returns it for writing.
    ///
    /// The closure is called once, after all blocks have been made.
    ///
    /// # Errors
    ///
    /// Returns the cause, as `PrefixMap::insert` does. The closure is not called then.
    ///
    /// # Examples
    ///
    /// ```rust
    /// // map = {}
    /// if let Entry::Vacant(entry) = map.entry("10.2.0.0/16".parse()?) { *entry.insert_with(|| 3)? += 1; }
    /// map.get(&"10.2.0.0/16".parse()?);       // Some(4)
    /// ```
    #[inline]
    pub fn insert_with<F: FnOnce() -> T + Drop>(self, f: F) -> Result<&'a mut T, Refusal>
        requires { F.pre f }
        ensures* writes_back { sem 𝓛
            (lends_filled P.row T.row A.row P.R.row P.Debug P.R.PartialEq P.R.Debug A.Allocator
            (λ cause. cause) (Vacant self.entry) result) }
        ensures value { IfOk result (λ x. F.post f x.now) }
    {
        let VacantEntry { map, key, end } = self;
        let path = key.path();
        if let Err(cause) = map.reserve(key.prefix(), &end) {
            return Err(cause);
        }
        let seat = map.insert_ready(key.prefix(), end, f());
        Ok(map.lend_at(path, seat))
    }

    /// Inserts the default value and returns it for writing.
    ///
    /// The default value is made after all blocks have been made.
    ///
    /// # Errors
    ///
    /// Returns the same errors as `insert_with`.
    ///
    /// # Examples
    ///
    /// ```rust
    /// // map = {}
    /// if let Entry::Vacant(entry) = map.entry("10.2.0.0/16".parse()?) { *entry.default()? += 1; }
    /// map.get(&"10.2.0.0/16".parse()?);       // Some(1)
    /// ```
    #[inline]
    pub fn default(self) -> Result<&'a mut T, Refusal>
    where
        T: Default,
        ensures* writes_back { sem 𝓛
            (lends_filled P.row T.row A.row P.R.row P.Debug P.R.PartialEq P.R.Debug A.Allocator
            (λ cause. cause) (Vacant self.entry) result) }
        ensures value { IfOk result (λ x. T.is_default x.now) }
    {
        self.insert_with(|| T::default())
    }
}
