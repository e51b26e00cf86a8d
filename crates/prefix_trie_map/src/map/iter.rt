//! Walks in listing order that borrow a map's entries.
//!
//! Contracts see each walk as the list of the items still to come.
ghost use Rattle.std.specs.Prelude.{◌≡◌, ◌<◌, ◌^◌, [], map, length};
ghost use Rattle.std.specs.FinMap.{len};
ghost use Rattle.std.specs.Iterator.{at_most};
ghost use Rattle.std.specs.Map.Iter.{TakesFirst, deref};
ghost use Rattle.prefix_trie_bits.specs.Model.Selections.{listing, prefix_pairs};
ghost use Rattle.prefix_trie_map.specs.Walks.{lent_item};
ghost use Rattle.prefix_trie_map.specs.Whole.{IsWhole};

use crate::map::projection::{Keyed, KeysOf};
use crate::map::{PrefixMap, Visits};
use prefix_trie_bits::prefix::Prefix;
use prefix_trie_table::table::Walk;
use std::alloc::Allocator;
use std::iter::IntoIterator;
use std::marker::{Model, PhantomData};

impl<P: Prefix, T: Drop, A: Allocator> PrefixMap<P, T, A> {
    /// Returns a walk over the entries in listing order.
    ///
    /// A prefix comes before those that it contains. Of two prefixes that differ in a bit, the one with 0 comes first.
    /// Prefixes are without host bits.
    ///
    /// # Examples
    ///
    /// ```rust
    /// // map = {10.0.0.0/8: 1, 10.1.0.0/16: 2, 9.0.0.0/8: 3}
    /// map.iter();         // [(9.0.0.0/8, 3), (10.0.0.0/8, 1), (10.1.0.0/16, 2)]
    /// map.keys();         // [9.0.0.0/8, 10.0.0.0/8, 10.1.0.0/16]
    /// map.values();       // [3, 1, 2]
    /// ```
    #[inline]
    pub fn iter(&self) -> Iter<'_, P, T, A>
        ensures items { result ≡ prefix_pairs P.back (listing self.now.entries) }
        ensures counted { length result ≡ len self.now.entries }
        ensures fits { len self.now.entries < 2 ^ 64 }
        ensures whole { IsWhole P.R.bit_width self.now }
    {
        self.known_valid();
        let walk = self.table.walk(&mut Visits::new());
        Iter::over(walk)
    }

    /// Returns a walk over the prefixes in listing order, without host bits.
    ///
    /// # Examples
    ///
    /// ```rust
    /// // map = {10.0.0.0/8: 1, 10.1.0.0/16: 2, 9.0.0.0/8: 3}
    /// map.keys();     // [9.0.0.0/8, 10.0.0.0/8, 10.1.0.0/16]
    /// ```
    #[inline]
    pub fn keys(&self) -> Keys<'_, P, T, A>
        ensures items { result ≡ map (λ e. P.back e.0) (listing self.now.entries) }
        ensures counted { length result ≡ len self.now.entries }
        ensures fits { len self.now.entries < 2 ^ 64 }
        ensures whole { IsWhole P.R.bit_width self.now }
    {
        KeysOf::new(self.iter())
    }

    /// Returns a walk over the values, in the listing order of their prefixes.
    ///
    /// # Examples
    ///
    /// ```rust
    /// // map = {10.0.0.0/8: 1, 10.1.0.0/16: 2, 9.0.0.0/8: 3}
    /// map.values();       // [3, 1, 2]
    /// ```
    #[inline]
    pub fn values(&self) -> Values<'_, P, T, A>
        ensures items { result ≡ map (λ e. e.1) (listing self.now.entries) }
        ensures counted { length result ≡ len self.now.entries }
        ensures fits { len self.now.entries < 2 ^ 64 }
        ensures whole { IsWhole P.R.bit_width self.now }
    {
        Values::new(self.iter())
    }
}

impl<'a, P: Prefix, T: Drop, A: Allocator> IntoIterator for &'a PrefixMap<P, T, A> {
    type Item = (P, &'a T);

    type IntoIter = Iter<'a, P, T, A>;

    ghost into_iter_gives = { λ s it. (it ≡ prefix_pairs P.back (listing s.now.entries))
        × (length it ≡ len s.now.entries) × (len s.now.entries < 2 ^ 64)
        × IsWhole P.R.bit_width s.now };

    #[inline]
    fn into_iter(self) -> Iter<'a, P, T, A> {
        self.iter()
    }
}

/// The entries of a map in listing order: each prefix, without host bits, with a reference to its value.
///
/// A prefix comes before those that it contains. Of two prefixes that differ in a bit, the one with 0 comes first. The
/// walk does not allocate. After its last item it returns `None` each time.
#[derive(Drop)]
pub struct Iter<'a, P: Prefix, T: Drop, A: Allocator> {
    walk: Walk<'a, P::R, T, A, Visits>,
    marker: PhantomData<P>,
}

impl<'a, P: Prefix, T: Drop, A: Allocator> Model for Iter<'a, P, T, A> {
    ghost use Rattle.std.specs.Prelude.{List};
    ghost use Rattle.prefix_trie_bits.specs.Model.Selections.{prefix_pairs};

    ghost Value = { List (P × T) };

    ghost view = { λ it. prefix_pairs P.back it.walk };
}

impl<'a, P: Prefix, T: Drop, A: Allocator> Iter<'a, P, T, A> {
    /// Returns the walk of a table with prefixes in place of keys.
    #[inline]
    pub(super) fn over(walk: Walk<'a, P::R, T, A, Visits>) -> Self
        ensures { result ≡ prefix_pairs P.back walk.entry }
    {
        Iter {
            walk,
            marker: PhantomData,
        }
    }

    /// Returns a walk with the same items to come.
    #[inline]
    pub fn clone(&self) -> Self
        ensures { result ≡ self.now }
    {
        Iter {
            walk: self.walk.clone(),
            marker: PhantomData,
        }
    }
}

impl<'a, P: Prefix, T: Drop, A: Allocator> Default for Iter<'a, P, T, A> {
    ghost is_default = { λ it. it ≡ [] };

    #[inline]
    fn default() -> Self {
        Iter {
            walk: Walk::default(),
            marker: PhantomData,
        }
    }
}

impl<'a, P: Prefix, T: Drop, A: Allocator> Iterator for Iter<'a, P, T, A> {
    type Item = (P, &'a T);

    ghost next_gives = { TakesFirst lent_item };

    ghost remaining = { λ items. at_most (length items) };

    #[inline]
    fn next(&mut self) -> Option<(P, &'a T)> {
        let Some((key, len, value)) = self.walk.next(&mut Visits::new()) else {
            return None;
        };
        Some((P::from_repr_len(key, len as u8), value))
    }
}

impl<'a, P: Prefix, T: Drop, A: Allocator> Keyed for Iter<'a, P, T, A> {
    ghost use Rattle.std.specs.Prelude.{map};

    type Key = P;

    ghost keys = { map (λ e. e.0) };

    #[inline]
    fn next_key(&mut self) -> Option<P> {
        let Some((prefix, _)) = self.next() else {
            return None;
        };
        Some(prefix)
    }
}

/// The prefixes of a map in listing order, without host bits.
pub type Keys<'a, P, T, A> = KeysOf<Iter<'a, P, T, A>>;

impl<'a, P: Prefix, T: Drop, A: Allocator> KeysOf<Iter<'a, P, T, A>> {
    /// Returns a walk with the same items to come.
    #[inline]
    pub fn clone(&self) -> Self
        ensures { result ≡ self.now }
    {
        KeysOf::new(self.inner.clone())
    }
}

impl<'a, P: Prefix, T: Drop, A: Allocator> Default for KeysOf<Iter<'a, P, T, A>> {
    ghost is_default = { λ it. it ≡ [] };

    #[inline]
    fn default() -> Self {
        KeysOf::new(Iter::default())
    }
}

/// The values of a map, borrowed in the listing order of their prefixes.
#[derive(Drop)]
pub struct Values<'a, P: Prefix, T: Drop, A: Allocator> {
    inner: Iter<'a, P, T, A>,
}

impl<'a, P: Prefix, T: Drop, A: Allocator> Model for Values<'a, P, T, A> {
    ghost use Rattle.std.specs.Prelude.{List, map};

    ghost Value = { List T };

    ghost view = { λ it. map (λ e. e.1) it.inner };
}

impl<'a, P: Prefix, T: Drop, A: Allocator> Values<'a, P, T, A> {
    /// Returns the values of a walk.
    #[inline]
    pub(super) fn new(inner: Iter<'a, P, T, A>) -> Self
        ensures { result ≡ map (λ e. e.1) inner.entry }
    {
        Values { inner }
    }

    /// Returns a walk with the same items to come.
    #[inline]
    pub fn clone(&self) -> Self
        ensures { result ≡ self.now }
    {
        Values {
            inner: self.inner.clone(),
        }
    }
}

impl<'a, P: Prefix, T: Drop, A: Allocator> Default for Values<'a, P, T, A> {
    ghost is_default = { λ it. it ≡ [] };

    #[inline]
    fn default() -> Self {
        Values {
            inner: Iter::default(),
        }
    }
}

impl<'a, P: Prefix, T: Drop, A: Allocator> Iterator for Values<'a, P, T, A> {
    type Item = &'a T;

    ghost next_gives = { TakesFirst deref };

    ghost remaining = { λ items. at_most (length items) };

    #[inline]
    fn next(&mut self) -> Option<&'a T> {
        let Some((_, value)) = self.inner.next() else {
            return None;
        };
        Some(value)
    }

    // The default does not know that the borrowed values live as long as the map.
    #[inline]
    fn size_hint(&self) -> (usize, Option<usize>) {
        (0, None)
    }
}
