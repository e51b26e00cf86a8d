//! Entries: a network of a joint map, which is read, written, filled or removed.
ghost use Rattle.std.specs.Prelude.{◌≡◌, IfErr, IfOk, None, OnErr, OnOk};
ghost use Rattle.std.specs.Borrow.{sem, MutBor};
ghost use Rattle.std.specs.Option.{option_copied, option_copied_mut, unwrap_or, UnwrapsOrElse};
ghost use Rattle.prefix_trie_bits.specs.Model.Step.{Insert, RemoveKeepTree, Value};
ghost use Rattle.prefix_trie_table.specs.Steps.{insert_reply};
ghost use Rattle.prefix_trie.specs.Terms.{with_entry, without_entry};
ghost use Rattle.prefix_trie_joint.specs.Changes.{maps_of, StepOnFamily};
ghost use Rattle.prefix_trie_joint.specs.Joined.{entries_of};
ghost use Rattle.prefix_trie_joint.specs.Networks.{ip_path};

mod filling;

use crate::map::JointPrefixMap;
use crate::map::entry::filling::{fill, fill_with, lend_stored, modify};
use crate::prefix::IpPrefix;
use prefix_trie::{Refusal, Refused};
use std::alloc::Allocator;

/// A network of a joint map, stored or not.
///
/// It borrows the map of both families, so each call looks the network up, and a call that may insert
/// and then returns the value does so twice. The entry of one family,
/// `map.ipv6.entry(network)`, looks it up once for several calls.
#[derive(Drop)]
pub struct Entry<'a, T: Drop, A: Allocator> {
    map: &'a mut JointPrefixMap<T, A>,
    key: IpPrefix,
}

impl<T: Drop, A: Allocator> JointPrefixMap<T, A> {
    /// Returns the entry of a network.
    ///
    /// The call does not allocate. The map is unchanged until the entry is filled, written or removed.
    ///
    /// # Examples
    ///
    /// ```rust
    /// // map = {2001:db8::/32: 1}
    /// *map.entry("2001:db8::/32".parse()?).or_insert(9)? += 1;
    /// *map.entry("10.2.0.0/16".parse()?).or_insert(9)? += 1;
    /// map.values();       // [10, 2]
    /// ```
    #[inline]
    pub fn entry(&mut self, prefix: IpPrefix) -> Entry<'_, T, A>
        ensures same_map { result.map.ghost_name ≡ self.entry.ghost_name }
        ensures unchanged { result.map.now ≡ self.old }
        ensures key { result.key ≡ prefix }
    {
        Entry {
            map: self,
            key: prefix,
        }
    }
}

impl<'a, T: Drop, A: Allocator> Entry<'a, T, A> {
    ghost use Rattle.prefix_trie_joint.specs.Entry.{entry_value, lends_filled, lends_if_stored, lends_stored, ModifiesEntry};

    /// Returns the network as it was passed.
    ///
    /// # Examples
    ///
    /// ```rust
    /// // map = {10.1.0.0/16: 1}
    /// map.entry("10.1.2.3/16".parse()?).key();    // V4(10.1.2.3/16)
    /// ```
    #[inline]
    pub fn key(&self) -> &IpPrefix
        ensures { result.now ≡ self.now.key }
    {
        &self.key
    }

    /// Returns the value if the network is stored.
    ///
    /// # Examples
    ///
    /// ```rust
    /// // map = {10.1.0.0/16: 1}
    /// map.entry("10.1.0.0/16".parse()?).get();    // Some(1)
    /// map.entry("::/0".parse()?).get();           // None
    /// ```
    #[inline]
    pub fn get(&self) -> Option<&T>
        ensures { option_copied result ≡ entry_value self.now }
    {
        self.map.get(&self.key)
    }

    /// Returns the value for writing if the network is stored.
    ///
    /// What is written becomes the entry's value, and nothing else changes.
    ///
    /// # Examples
    ///
    /// ```rust
    /// // map = {10.1.0.0/16: 1}
    /// let mut entry = map.entry("10.1.0.0/16".parse()?);
    /// if let Some(value) = entry.get_mut() { *value = 2; }
    /// entry.get();    // Some(2)
    /// ```
    #[inline]
    pub fn get_mut(&mut self) -> Option<&mut T>
        ensures* writes_back { sem 𝓛
            (lends_if_stored T.row A.row A.Allocator self.entry result) }
        ensures value { option_copied_mut result ≡ entry_value self.old }
    {
        let key = self.key.copy();
        self.map.get_mut(&key)
    }

    /// Returns the value for writing if the network is stored, for as long as the map is borrowed.
    ///
    /// # Examples
    ///
    /// ```rust
    /// // map = {10.1.0.0/16: 1}
    /// if let Some(value) = map.entry("10.1.0.0/16".parse()?).into_mut() { *value += 1; }
    /// map.get(&"10.1.0.0/16".parse()?);       // Some(2)
    /// ```
    #[inline]
    pub fn into_mut(self) -> Option<&'a mut T>
        ensures* writes_back { sem 𝓛 (lends_stored T.row A.row A.Allocator self.entry result) }
        ensures value { option_copied_mut result ≡ entry_value self.entry }
    {
        let Entry { map, key } = self;
        map.get_mut(&key)
    }

    /// Calls a closure with the value if the network is stored.
    ///
    /// Requires that the closure may be called with the stored value, if there is one.
    ///
    /// # Examples
    ///
    /// ```rust
    /// // map = {10.1.0.0/16: 1}
    /// map.entry("10.1.0.0/16".parse()?).and_modify(|n| *n += 1).or_insert(1)?;    // 2
    /// map.entry("::/0".parse()?).and_modify(|n| *n += 1).or_insert(1)?;           // 1
    /// ```
    #[inline]
    pub fn and_modify<F: FnOnce(&mut T) + Drop>(self, f: F) -> Self
        requires { (x : MutBor T) → entry_value self ≡ Some x.now → F.pre f x }
        ensures same_map { result.map.ghost_name ≡ self.entry.map.ghost_name }
        ensures key { result.key ≡ self.entry.key }
        ensures update { ModifiesEntry F.FnOnce f self.entry result.map.now }
    {
        let Entry { map, key } = self;
        modify(map, &key, f);
        Entry { map, key }
    }

    /// Returns the value for writing, after inserting this one if the network is not stored.
    ///
    /// # Errors
    ///
    /// Returns the value back, with the cause, if it cannot be inserted, as `JointPrefixMap::insert`
    /// does. This never happens if the network is stored.
    ///
    /// # Examples
    ///
    /// ```rust
    /// // map = {10.1.0.0/16: 1}
    /// map.entry("10.1.0.0/16".parse()?).or_insert(9)?;    // 1
    /// map.entry("::/0".parse()?).or_insert(9)?;           // 9
    /// ```
    #[inline]
    pub fn or_insert(self, value: T) -> Result<&'a mut T, Refused<T>>
        ensures* writes_back { sem 𝓛
            (lends_filled T.row A.row A.Allocator (λ refused. refused.cause) self.entry result) }
        ensures value { IfOk result (λ x. x.now ≡ unwrap_or (entry_value self.entry) value) }
        ensures absent { OnErr result (entry_value self.entry ≡ None) }
        ensures returned { IfErr result (λ refused. refused.value ≡ value) }
    {
        let Entry { map, key } = self;
        fill(map, &key, value)?;
        Ok(lend_stored(map, &key))
    }

    /// Returns the value for writing, after inserting what a closure returns if the network is not stored.
    ///
    /// The closure is called at most once, after all blocks have been made. Requires that the closure
    /// may be called if the network is not stored.
    ///
    /// # Errors
    ///
    /// Returns the cause if the missing blocks cannot be made, as `JointPrefixMap::insert` does. The
    /// closure is not called then. This never happens if the network is stored.
    ///
    /// # Examples
    ///
    /// ```rust
    /// // map = {10.1.0.0/16: 1}
    /// map.entry("10.1.0.0/16".parse()?).or_insert_with(|| 9)?;    // 1
    /// map.entry("::/0".parse()?).or_insert_with(|| 9)?;           // 9
    /// ```
    #[inline]
    pub fn or_insert_with<F: FnOnce() -> T + Drop>(self, f: F) -> Result<&'a mut T, Refusal>
        requires { entry_value self ≡ None → F.pre f }
        ensures* writes_back { sem 𝓛
            (lends_filled T.row A.row A.Allocator (λ cause. cause) self.entry result) }
        ensures value { IfOk result (λ x. UnwrapsOrElse (entry_value self.entry) (F.post f) x.now) }
        ensures absent { OnErr result (entry_value self.entry ≡ None) }
    {
        let Entry { map, key } = self;
        fill_with(map, &key, f)?;
        Ok(lend_stored(map, &key))
    }

    /// Returns the value for writing, after inserting the default value if the network is not stored.
    ///
    /// The default value is made only if it is needed, after all blocks have been made.
    ///
    /// # Errors
    ///
    /// Returns the same errors as `or_insert_with`.
    ///
    /// # Examples
    ///
    /// ```rust
    /// // map = {10.1.0.0/16: 1}
    /// map.entry("10.1.0.0/16".parse()?).or_default()?;    // 1
    /// map.entry("::/0".parse()?).or_default()?;           // 0
    /// ```
    #[inline]
    pub fn or_default(self) -> Result<&'a mut T, Refusal>
    where
        T: Default,
        ensures* writes_back { sem 𝓛
            (lends_filled T.row A.row A.Allocator (λ cause. cause) self.entry result) }
        ensures value { IfOk result
            (λ x. UnwrapsOrElse (entry_value self.entry) T.is_default x.now) }
        ensures absent { OnErr result (entry_value self.entry ≡ None) }
    {
        self.or_insert_with(|| T::default())
    }

    /// Sets the value and returns the previous one, as `JointPrefixMap::insert` does.
    ///
    /// # Errors
    ///
    /// Returns the value back, with the cause, as `JointPrefixMap::insert` does. This never happens
    /// if the network is stored.
    ///
    /// # Examples
    ///
    /// ```rust
    /// // map = {10.1.0.0/16: 1}
    /// map.entry("10.1.0.0/16".parse()?).insert(2)?;       // Some(1)
    /// map.entry("::/0".parse()?).insert(3)?;              // None
    /// ```
    #[inline]
    pub fn insert(self, value: T) -> Result<Option<T>, Refused<T>>
        ensures before { IfOk result (λ before. before ≡ entry_value self.entry) }
        ensures entries { OnOk result
            (entries_of self.exit.0.now
            ≡ with_entry (entries_of self.entry.map.now) (ip_path self.entry.key) value) }
        ensures unchanged { OnErr result
            (entries_of self.exit.0.now ≡ entries_of self.entry.map.now) }
        ensures returned { IfErr result (λ refused. refused.value ≡ value) }
        ensures step { StepOnFamily self.entry.key (λ q. Insert q value) (insert_reply result)
            (maps_of self.entry.map.now) (maps_of self.exit.0.now) }
    {
        let Entry { map, key } = self;
        map.insert(key, value)
    }

    /// Removes the value of the network and returns it.
    ///
    /// All nodes stay, as after `JointPrefixMap::remove_keep_tree`. It never fails.
    ///
    /// # Examples
    ///
    /// ```rust
    /// // map = {10.1.0.0/16: 1}
    /// map.entry("10.1.0.0/16".parse()?).remove();     // Some(1)
    /// map.len();                                      // 0
    /// ```
    #[inline]
    pub fn remove(self) -> Option<T>
        ensures value { result ≡ entry_value self.entry }
        ensures entries { entries_of self.exit.0.now
            ≡ without_entry (entries_of self.entry.map.now) (ip_path self.entry.key) }
        ensures step { StepOnFamily self.entry.key RemoveKeepTree (Value result)
            (maps_of self.entry.map.now) (maps_of self.exit.0.now) }
    {
        let Entry { map, key } = self;
        map.remove_keep_tree(&key)
    }

    /// Ends the entry, so that a caller's proof knows the map again.
    ///
    /// The map then has what was written through `get_mut` or by `and_modify`. The proof learns nothing
    /// about the map if the entry is only dropped.
    ///
    /// # Examples
    ///
    /// ```rust
    /// // map = {10.1.0.0/16: 1}
    /// map.entry("10.1.0.0/16".parse()?).and_modify(|n| *n += 1).release();
    /// map.get(&"10.1.0.0/16".parse()?);       // Some(2)
    /// ```
    #[inline]
    pub fn release(self)
        ensures { self.exit.0.now ≡ self.entry.map.now }
    {
        let Entry { map: _, key: _ } = self;
    }
}
