//! Walks in listing order that consume a map and move its values out.
//!
//! Contracts see each walk as the list of the items still to come.
ghost use Rattle.std.specs.Prelude.{◌≡◌, ◌<◌, ◌^◌, IfOk, map, length};
ghost use Rattle.std.specs.FinMap.{len};
ghost use Rattle.std.specs.Iterator.{at_most};
ghost use Rattle.std.specs.List.{AllZip};
ghost use Rattle.std.specs.Map.Iter.{TakesFirst};
ghost use Rattle.prefix_trie_bits.specs.Model.Selections.{listing, listing_below, prefix_pairs};
ghost use Rattle.prefix_trie_table.specs.Copies.{IsPairCloned};
ghost use Rattle.prefix_trie_map.specs.Whole.{IsWhole};

use crate::map::projection::{Keyed, KeysOf};
use crate::map::{PrefixMap, Visits};
use prefix_trie_bits::prefix::Prefix;
use prefix_trie_table::table::IntoWalk;
use std::alloc::{AllocError, Allocator};
use std::iter::IntoIterator;
use std::marker::{Model, PhantomData};

impl<P: Prefix, T: Drop, A: Allocator> PrefixMap<P, T, A> {
    /// Consumes the map and returns a walk over the entries that this prefix contains, its own included.
    ///
    /// They come in the order of `iter`, as `children` gives them, with their values moved out. The other values are
    /// dropped with the walk.
    ///
    /// # Examples
    ///
    /// ```rust
    /// // map = {10.0.0.0/8: 1, 10.1.0.0/16: 2, 10.1.1.0/24: 3, 10.2.0.0/16: 4}
    /// map.into_children(&"10.1.0.0/16".parse()?);     // [(10.1.0.0/16, 2), (10.1.1.0/24, 3)]
    /// ```
    #[inline]
    pub fn into_children(self, prefix: &P) -> IntoIter<P, T, A>
        requires { P.IsFitting prefix.now }
        ensures items { result
            ≡ prefix_pairs P.back (listing_below self.entries (P.path prefix.now)) }
        ensures fits { length result < 2 ^ 64 }
        ensures whole { IsWhole P.R.bit_width self }
    {
        self.known_valid();
        let walk = self
            .table
            .into_walk_below(prefix.path(), &mut Visits::new());
        IntoIter::over(walk)
    }

    /// Consumes the map and returns a walk over its prefixes, in the order of `iter` and without host bits.
    ///
    /// Each value is dropped when its prefix is returned, and the rest with the walk.
    ///
    /// # Examples
    ///
    /// ```rust
    /// // map = {10.0.0.0/8: 1, 10.1.0.0/16: 2, 9.0.0.0/8: 3}
    /// map.into_keys();        // [9.0.0.0/8, 10.0.0.0/8, 10.1.0.0/16]
    /// ```
    #[inline]
    pub fn into_keys(self) -> IntoKeys<P, T, A>
        ensures items { result ≡ map (λ e. P.back e.0) (listing self.entries) }
        ensures counted { length result ≡ len self.entries }
        ensures fits { len self.entries < 2 ^ 64 }
        ensures whole { IsWhole P.R.bit_width self }
    {
        KeysOf::new(self.into_iter())
    }

    /// Consumes the map and returns a walk over its values, in the listing order of their prefixes.
    ///
    /// # Examples
    ///
    /// ```rust
    /// // map = {10.0.0.0/8: 1, 10.1.0.0/16: 2, 9.0.0.0/8: 3}
    /// map.into_values();      // [3, 1, 2]
    /// ```
    #[inline]
    pub fn into_values(self) -> IntoValues<P, T, A>
        ensures items { result ≡ map (λ e. e.1) (listing self.entries) }
        ensures counted { length result ≡ len self.entries }
        ensures fits { len self.entries < 2 ^ 64 }
        ensures whole { IsWhole P.R.bit_width self }
    {
        IntoValues::new(self.into_iter())
    }
}

impl<P: Prefix, T: Drop, A: Allocator> IntoIterator for PrefixMap<P, T, A> {
    type Item = (P, T);

    type IntoIter = IntoIter<P, T, A>;

    ghost into_iter_gives = { λ s it. (it ≡ prefix_pairs P.back (listing s.entries))
        × (length it ≡ len s.entries) × (len s.entries < 2 ^ 64)
        × IsWhole P.R.bit_width s };

    #[inline]
    fn into_iter(self) -> IntoIter<P, T, A> {
        self.known_valid();
        let walk = self.table.into_walk(&mut Visits::new());
        IntoIter::over(walk)
    }
}

/// The entries of a map in listing order: each prefix, without host bits, with its value, which is moved out.
///
/// A prefix comes before those that it contains. Of two prefixes that differ in a bit, the one with 0 comes first. The
/// walk does not allocate. After its last item it returns `None` each time. Entries that it has not returned are
/// dropped with it.
///
/// # Examples
///
/// ```rust
/// // map = {10.0.0.0/8: 1, 10.1.0.0/16: 2, 9.0.0.0/8: 3}
/// map.into_iter();        // [(9.0.0.0/8, 3), (10.0.0.0/8, 1), (10.1.0.0/16, 2)]
/// ```
#[derive(Drop)]
pub struct IntoIter<P: Prefix, T: Drop, A: Allocator> {
    walk: IntoWalk<P::R, T, A, Visits>,
    marker: PhantomData<P>,
}

impl<P: Prefix, T: Drop, A: Allocator> Model for IntoIter<P, T, A> {
    ghost use Rattle.std.specs.Prelude.{List};
    ghost use Rattle.prefix_trie_bits.specs.Model.Selections.{prefix_pairs};

    ghost Value = { List (P × T) };

    ghost view = { λ it. prefix_pairs P.back it.walk };
}

impl<P: Prefix, T: Drop, A: Allocator> IntoIter<P, T, A> {
    /// Returns the walk of a table with prefixes in place of keys.
    #[inline]
    fn over(walk: IntoWalk<P::R, T, A, Visits>) -> Self
        ensures { result ≡ prefix_pairs P.back walk }
    {
        IntoIter {
            walk,
            marker: PhantomData,
        }
    }
}

impl<P: Prefix, T: Clone, A: Allocator + Clone> IntoIter<P, T, A> {
    /// Creates a walk with the same prefixes to come, whose values are clones, in memory of its own.
    ///
    /// # Errors
    ///
    /// Returns an error if an allocation fails, for the arrays or in the clone of a value. No copy exists then.
    ///
    /// # Examples
    ///
    /// ```rust
    /// // map = {10.0.0.0/8: 1, 10.1.0.0/16: 2}
    /// let mut walk = map.into_iter();
    /// let copy = walk.clone()?;
    /// walk.next();        // Some((10.0.0.0/8, 1))
    /// copy;               // [(10.0.0.0/8, 1), (10.1.0.0/16, 2)]
    /// ```
    pub fn clone(&self) -> Result<Self, AllocError>
        ensures items { IfOk result (λ copy. AllZip (IsPairCloned T.is_clone) self.now copy) }

        // If a clone of a value equals it, the same items are to come.
        ensures same { IfOk result
            (λ copy. ((x y : T) → T.is_clone x y → y ≡ x) → copy ≡ self.now) }
    {
        let walk = self.walk.clone()?;
        Ok(IntoIter {
            walk,
            marker: PhantomData,
        })
    }
}

impl<P: Prefix, T: Drop, A: Allocator> Iterator for IntoIter<P, T, A> {
    type Item = (P, T);

    ghost next_gives = { TakesFirst (λ item. item) };

    ghost remaining = { λ items. at_most (length items) };

    #[inline]
    fn next(&mut self) -> Option<(P, T)> {
        let Some((key, len, value)) = self.walk.next(&mut Visits::new()) else {
            return None;
        };
        Some((P::from_repr_len(key, len as u8), value))
    }
}

impl<P: Prefix, T: Drop, A: Allocator> Keyed for IntoIter<P, T, A> {
    ghost use Rattle.std.specs.Prelude.{map};

    type Key = P;

    ghost keys = { map (λ e. e.0) };

    #[inline]
    fn next_key(&mut self) -> Option<P> {
        let Some((prefix, _)) = self.next() else {
            return None;
        };
        Some(prefix)
    }
}

/// The prefixes of a map in listing order, without host bits. The values are dropped.
pub type IntoKeys<P, T, A> = KeysOf<IntoIter<P, T, A>>;

impl<P: Prefix, T: Clone, A: Allocator + Clone> KeysOf<IntoIter<P, T, A>> {
    /// Creates a walk with the same prefixes to come. It clones the values that are still there.
    ///
    /// # Errors
    ///
    /// Returns the same errors as `IntoIter::clone`.
    pub fn clone(&self) -> Result<Self, AllocError>
        ensures { IfOk result (λ copy. copy ≡ self.now) }
    {
        let inner = self.inner.clone()?;
        Ok(KeysOf::new(inner))
    }
}

/// The values of a map, moved out in the listing order of their prefixes.
#[derive(Drop)]
pub struct IntoValues<P: Prefix, T: Drop, A: Allocator> {
    inner: IntoIter<P, T, A>,
}

impl<P: Prefix, T: Drop, A: Allocator> Model for IntoValues<P, T, A> {
    ghost use Rattle.std.specs.Prelude.{List, map};

    ghost Value = { List T };

    ghost view = { λ it. map (λ e. e.1) it.inner };
}

impl<P: Prefix, T: Drop, A: Allocator> IntoValues<P, T, A> {
    /// Returns the values of a walk.
    #[inline]
    fn new(inner: IntoIter<P, T, A>) -> Self
        ensures { result ≡ map (λ e. e.1) inner }
    {
        IntoValues { inner }
    }
}

impl<P: Prefix, T: Clone, A: Allocator + Clone> IntoValues<P, T, A> {
    /// Creates a walk with clones of the same values to come, in memory of its own.
    ///
    /// # Errors
    ///
    /// Returns the same errors as `IntoIter::clone`.
    pub fn clone(&self) -> Result<Self, AllocError>
        ensures items { IfOk result (λ copy. AllZip T.is_clone self.now copy) }

        // If a clone of a value equals it, the same values are to come.
        ensures same { IfOk result
            (λ copy. ((x y : T) → T.is_clone x y → y ≡ x) → copy ≡ self.now) }
    {
        let inner = self.inner.clone()?;
        Ok(IntoValues { inner })
    }
}

impl<P: Prefix, T: Drop, A: Allocator> Iterator for IntoValues<P, T, A> {
    type Item = T;

    ghost next_gives = { TakesFirst (λ v. v) };

    ghost remaining = { λ items. at_most (length items) };

    #[inline]
    fn next(&mut self) -> Option<T> {
        let Some((_, value)) = self.inner.next() else {
            return None;
        };
        Some(value)
    }
}
