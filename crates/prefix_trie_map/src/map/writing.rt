//! Walks that lend a map's values for writing, each until the next call.
//!
//! Which value comes next depends on the nodes alone, and no write changes them. So a walk gives the entries that were
//! selected when it was made, in listing order, each once. It does not allocate.
ghost use Rattle.std.specs.Prelude.{◌≡◌, IfSome, IfNone, Some, None, MatchOption};
ghost use Rattle.std.specs.Borrow.{sem, Lends};
ghost use Rattle.prefix_trie_map.specs.Lending.{lent_beside};

mod calls;
mod cursor;

pub use cursor::MapCursor;

/// A source of entries, which a walk goes over and lends for writing.
pub trait Source: Sized {
    type Prefix: Drop;

    type Value;

    type CursorItem: Drop;

    // the source is at this item
    ghost IsAt: { Self → Self.CursorItem → Type 0 };

    // the source with a value written at an item
    ghost with: { Self → Self.CursorItem → Self.Value → Self };

    // the value at an item
    ghost Holds: { Self → Self.CursorItem → Self.Value → Type 0 };

    // the first entry still to come
    ghost First: { Self → Self.Prefix → Self.Value → Type 0 };

    // the second source is the first one, advanced over one entry, at which this value was left
    ghost Passes: { Self → Self.Value → Self → Type 0 };

    // nothing was to come, nothing is, and nothing was written
    ghost Ends: { Self → Self → Type 0 };

    fn step(&mut self) -> Option<(Self::Prefix, Self::CursorItem)>
        ensures { MatchOption result (Ends self.old self.new) (λ r. IsAt self.new r.1
            × ((value : Self.Value) → Holds self.new r.1 value → First self.old r.0 value)
            × ((value : Self.Value) → Passes self.old value (with self.new r.1 value))) };

    fn lend(&mut self, item: Self::CursorItem) -> &mut Self::Value
        requires { IsAt self.old item }
        ensures* writes_back { sem 𝓛
            (Lends Self.row Self.Value.row self.entry result (with self.old item)) }
        ensures value { Holds self.old item result.now };
}

/// A walk that lends values for writing. Its default is the empty one, which has no map.
#[derive(Drop)]
pub struct WalkOf<C> {
    source: Option<C>,
}

impl<C> Default for WalkOf<C> {
    ghost is_default = { λ w. w.source ≡ None };

    #[inline]
    fn default() -> Self {
        WalkOf { source: None }
    }
}

impl<C: Source> WalkOf<C> {
    ghost use Rattle.prefix_trie_map.specs.WritingWalks.{AtIn, HoldsIn, FirstIn, EndsIn, IsOverIn, StepsIn, lends_item, lends_next};

    /// Advances to the next entry. Returns its prefix and the item for which `value` lends its value.
    ///
    /// # Examples
    ///
    /// ```rust
    /// // map = {10.0.0.0/8: 1, 10.1.0.0/16: 2}
    /// let mut walk = map.iter_mut();
    /// if let Some((_network, stop)) = walk.step() { *walk.value(stop) = 3; }
    /// map.values();       // [3, 2]
    /// ```
    #[inline]
    pub fn step(&mut self) -> Option<(C::Prefix, C::CursorItem)>
        ensures { MatchOption result (EndsIn C.Ends self.old.source self.new.source)
            (λ r. StepsIn C.IsAt C.Holds C.with C.First C.Passes self.old.source r.0 r.1
            self.new.source) }
    {
        match &mut self.source {
            Some(source) => source.step(),
            None => None,
        }
    }

    /// Returns the value at an item of this walk, for writing.
    ///
    /// # Examples
    ///
    /// ```rust
    /// // map = {10.0.0.0/8: 1, 10.1.0.0/16: 2}
    /// let mut walk = map.iter_mut();
    /// while let Some((_network, stop)) = walk.step() { *walk.value(stop) *= 10; }
    /// map.values();       // [10, 20]
    /// ```
    #[inline]
    pub fn value(&mut self, item: C::CursorItem) -> &mut C::Value
        requires { AtIn C.IsAt self.old.source item }
        ensures* writes_back { sem 𝓛 (lends_item C.row C.Value.row self.entry C.with item result) }
        ensures value { HoldsIn C.Holds self.old.source item result.now }
    {
        match &mut self.source {
            Some(source) => source.lend(item),
            None => unreachable!(),
        }
    }

    /// Returns the next value, lent until the next call.
    ///
    /// # Examples
    ///
    /// ```rust
    /// // map = {10.0.0.0/8: 1, 10.1.0.0/16: 2}
    /// let mut walk = map.iter_mut();
    /// walk.next_value();      // Some(1)
    /// walk.next();            // Some((10.1.0.0/16, 2))
    /// walk.next_value();      // None
    /// ```
    #[inline]
    pub fn next_value(&mut self) -> Option<&mut C::Value>
        ensures* writes_back { sem 𝓛
            (lends_next C.row C.Value.row self.entry C.Passes C.Ends result) }
        ensures value { IfSome result
            (λ x. (q : C.Prefix) × FirstIn C.First self.old.source q x.now) }
    {
        let (_, item) = self.step()?;
        Some(self.value(item))
    }

    /// Returns the next prefix, without host bits, and its value, lent until the next call.
    ///
    /// Only the contracts of `step` with `value`, or of `next_value`, tell a caller's proof what was written.
    ///
    /// # Examples
    ///
    /// ```rust
    /// // map = {10.0.0.0/8: 1, 10.1.0.0/16: 2}
    /// let mut walk = map.iter_mut();
    /// walk.next();    // Some((10.0.0.0/8, 1))
    /// walk.next();    // Some((10.1.0.0/16, 2))
    /// walk.next();    // None
    /// ```
    #[inline]
    pub fn next(&mut self) -> Option<(C::Prefix, &mut C::Value)>
        ensures* writes_back { sem 𝓛
            (lends_next C.row C.Value.row self.entry C.Passes C.Ends (lent_beside result)) }
        ensures first { IfSome result (λ r. FirstIn C.First self.old.source r.0 r.1.now) }
        ensures none { IfNone result (IsOverIn C.Ends self.old.source) }
    {
        let mut prefix = None;
        let value = self.lend_next(&mut prefix);
        beside(prefix, value)
    }

    // Returns the result of `next_value`, and writes the prefix of its entry to `prefix`.
    #[inline]
    fn lend_next(&mut self, prefix: &mut Option<C::Prefix>) -> Option<&mut C::Value>
        ensures* writes_back { sem 𝓛
            (lends_next C.row C.Value.row self.entry C.Passes C.Ends result) }
        ensures first { MatchOption result (IsOverIn C.Ends self.old.source)
            (λ x. (q : C.Prefix) × (prefix.new ≡ Some q)
            × FirstIn C.First self.old.source q x.now) }
    {
        let (found, item) = self.step()?;
        *prefix = Some(found);
        Some(self.value(item))
    }
}

// Returns a borrowed value with its prefix.
#[inline]
fn beside<'a, P: Drop, T>(prefix: Option<P>, value: Option<&'a mut T>) -> Option<(P, &'a mut T)>
    requires { IfSome value (λ v. (q : P) × (prefix ≡ Some q)) }
    ensures lent { lent_beside result ≡ value.entry }
    ensures prefix { IfSome result (λ r. prefix ≡ Some r.0) }
{
    match value {
        Some(value) => match prefix {
            Some(prefix) => Some((prefix, value)),
            None => unreachable!(),
        },
        None => None,
    }
}

/// A walk that lends the values alone. Its default is the empty one.
#[derive(Drop)]
pub struct ValuesOf<C> {
    walk: WalkOf<C>,
}

impl<C> Default for ValuesOf<C> {
    ghost is_default = { λ w. w.walk.source ≡ None };

    #[inline]
    fn default() -> Self {
        ValuesOf {
            walk: WalkOf::default(),
        }
    }
}

impl<C: Source> ValuesOf<C> {
    ghost use Rattle.prefix_trie_map.specs.WritingWalks.{FirstIn, lends_next_value};

    /// Returns the next value, lent until the next call.
    ///
    /// # Examples
    ///
    /// ```rust
    /// // map = {10.0.0.0/8: 1, 10.1.0.0/16: 2}
    /// let mut walk = map.values_mut();
    /// walk.next();    // Some(1)
    /// walk.next();    // Some(2)
    /// walk.next();    // None
    /// ```
    #[inline]
    pub fn next(&mut self) -> Option<&mut C::Value>
        ensures* writes_back { sem 𝓛
            (lends_next_value C.row C.Value.row self.entry C.Passes C.Ends result) }
        ensures value { IfSome result
            (λ x. (q : C.Prefix) × FirstIn C.First self.old.walk.source q x.now) }
    {
        self.walk.next_value()
    }
}

/// The entries of a map in listing order, without host bits, with their values lent until the next call.
pub type IterMut<'a, P, T, A> = WalkOf<MapCursor<'a, P, T, A>>;

/// The values of a map, in the listing order of their prefixes, each lent until the next call.
pub type ValuesMut<'a, P, T, A> = ValuesOf<MapCursor<'a, P, T, A>>;
