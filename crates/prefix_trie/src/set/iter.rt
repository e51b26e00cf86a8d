//! The walks of a set, in listing order.
//!
//! Contracts see each walk as the list of the prefixes still to come.
ghost use Rattle.std.specs.Prelude.{◌≡◌, ◌<◌, ◌≤◌, ◌^◌, map, length, cond};
ghost use Rattle.std.specs.FinMap.{len};
ghost use Rattle.prefix_trie_bits.specs.Model.Matches.{covers};
ghost use Rattle.prefix_trie_bits.specs.Model.Selections.{listing, listing_from, listing_after, listing_below};
ghost use Rattle.prefix_trie_map.specs.Whole.{IsWhole};

use crate::set::PrefixSet;
use prefix_trie_bits::prefix::Prefix;
use prefix_trie_map::map::{CoverKeys, IntoKeys, Keys, KeysOf};
use std::alloc::Allocator;
use std::iter::IntoIterator;

/// A walk of the keys in listing order, as prefixes without host bits.
///
/// A prefix comes before those that it contains, and of two that differ in a bit the one with 0
/// comes first. The walk does not allocate. It can be cloned, its default is empty, and after the
/// last item it returns `None` each time.
pub type Iter<'a, P, A> = Keys<'a, P, (), A>;

/// A walk that owns the set's memory: the keys in listing order, as prefixes without host bits.
///
/// Its `clone` has the same keys to come, in memory of its own, and returns an error if an
/// allocation failed.
pub type IntoIter<P, A> = IntoKeys<P, (), A>;

impl<P: Prefix, A: Allocator> PrefixSet<P, A> {
    /// Walks the keys in listing order, as prefixes without host bits.
    ///
    /// A prefix comes before those that it contains, and of two that differ in a bit the one with 0
    /// comes first.
    ///
    /// # Examples
    ///
    /// ```rust
    /// // set = {10.0.0.0/8, 10.1.0.0/16, 9.0.0.0/8}
    /// set.iter();     // [9.0.0.0/8, 10.0.0.0/8, 10.1.0.0/16]
    /// ```
    #[inline]
    pub fn iter(&self) -> Iter<'_, P, A>
        ensures items { result ≡ map (λ e. P.back e.0) (listing self.now.entries) }
        ensures counted { length result ≡ len self.now.entries }
        ensures fits { len self.now.entries < 2 ^ 64 }
        ensures whole { IsWhole P.R.bit_width self.now }
    {
        self.map.keys()
    }

    /// Walks the keys after a prefix in the order of `iter`.
    ///
    /// The prefix itself comes first if `inclusive` is true and it is stored. It need not be stored. The prefixes that
    /// it contains come after it, so an exclusive walk leaves out only its own key.
    ///
    /// # Examples
    ///
    /// ```rust
    /// // set = {10.0.0.0/8, 10.1.0.0/16, 10.1.1.0/24, 10.2.0.0/16}
    /// set.iter_from(&"10.1.0.0/16".parse()?, true);       // [10.1.0.0/16, 10.1.1.0/24, 10.2.0.0/16]
    /// set.iter_from(&"10.1.0.0/16".parse()?, false);      // [10.1.1.0/24, 10.2.0.0/16]
    /// ```
    #[inline]
    pub fn iter_from(&self, prefix: &P, inclusive: bool) -> Iter<'_, P, A>
        requires { P.IsFitting prefix.now }
        ensures items { result ≡ map (λ e. P.back e.0) (cond inclusive
            (listing_from self.now.entries (P.path prefix.now))
            (listing_after self.now.entries (P.path prefix.now))) }
        ensures fits { length result < 2 ^ 64 }
        ensures whole { IsWhole P.R.bit_width self.now }
    {
        KeysOf::new(self.map.iter_from(prefix, inclusive))
    }

    /// Walks the keys that a prefix contains, its own included, in the order of `iter`.
    ///
    /// These are the keys that `drop_children` and `remove_children` remove.
    ///
    /// # Examples
    ///
    /// ```rust
    /// // set = {10.0.0.0/8, 10.1.0.0/16, 10.1.1.0/24, 10.2.0.0/16}
    /// set.children(&"10.1.0.0/16".parse()?);      // [10.1.0.0/16, 10.1.1.0/24]
    /// ```
    #[inline]
    pub fn children(&self, prefix: &P) -> Iter<'_, P, A>
        requires { P.IsFitting prefix.now }
        ensures items { result
            ≡ map (λ e. P.back e.0) (listing_below self.now.entries (P.path prefix.now)) }
        ensures fits { length result < 2 ^ 64 }
        ensures whole { IsWhole P.R.bit_width self.now }
    {
        KeysOf::new(self.map.children(prefix))
    }

    /// Walks the keys that contain a prefix, shortest first. A stored prefix contains itself.
    ///
    /// # Examples
    ///
    /// ```rust
    /// // set = {10.0.0.0/8, 10.1.0.0/16, 11.0.0.0/8}
    /// set.cover(&"10.1.1.0/24".parse()?);     // [10.0.0.0/8, 10.1.0.0/16]
    /// ```
    #[inline]
    pub fn cover(&self, prefix: &P) -> CoverKeys<'_, P, (), A>
        requires { P.IsFitting prefix.now }
        ensures items { result
            ≡ map (λ e. P.back e.0) (covers self.now.entries (P.path prefix.now)) }
        ensures counted { length result ≡ length (covers self.now.entries (P.path prefix.now)) }
        ensures fits { length (covers self.now.entries (P.path prefix.now)) ≤ 129 }
        ensures whole { IsWhole P.R.bit_width self.now }
    {
        self.map.cover_keys(prefix)
    }
}

impl<P: Prefix, A: Allocator> IntoIterator for PrefixSet<P, A> {
    type Item = P;

    type IntoIter = IntoIter<P, A>;

    ghost into_iter_gives = { λ s it. (it ≡ map (λ e. P.back e.0) (listing s.entries))
        × (length it ≡ len s.entries) × (len s.entries < 2 ^ 64)
        × IsWhole P.R.bit_width s };

    #[inline]
    fn into_iter(self) -> IntoIter<P, A> {
        self.map.into_keys()
    }
}

impl<'a, P: Prefix, A: Allocator> IntoIterator for &'a PrefixSet<P, A> {
    type Item = P;

    type IntoIter = Iter<'a, P, A>;

    ghost into_iter_gives = { λ s it. (it ≡ map (λ e. P.back e.0) (listing s.now.entries))
        × (length it ≡ len s.now.entries) × (len s.now.entries < 2 ^ 64)
        × IsWhole P.R.bit_width s.now };

    #[inline]
    fn into_iter(self) -> Iter<'a, P, A> {
        self.iter()
    }
}
