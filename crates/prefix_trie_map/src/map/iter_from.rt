//! Walks that start at a prefix, and walks over what a prefix contains.
ghost use Rattle.std.specs.Prelude.{◌≡◌, ◌<◌, ◌^◌, cond, length};
ghost use Rattle.prefix_trie_bits.specs.Model.Selections.{listing_from, listing_after, listing_below, prefix_pairs};
ghost use Rattle.prefix_trie_map.specs.Whole.{IsWhole};

use crate::map::iter::Iter;
use crate::map::{PrefixMap, Visits};
use prefix_trie_bits::prefix::Prefix;
use std::alloc::Allocator;

impl<P: Prefix, T: Drop, A: Allocator> PrefixMap<P, T, A> {
    /// Returns a walk over the entries after a prefix, in the order of `iter`.
    ///
    /// The prefix's own entry comes first if `inclusive` is true and it is stored. The prefix itself need not be
    /// stored. The prefixes that it contains come after it, so an exclusive walk leaves out only its own entry.
    ///
    /// After some items of `iter` or `iter_from`, `iter_from(&last, false)` gives the rest: see `resume_laws`.
    ///
    /// # Examples
    ///
    /// ```rust
    /// // map = {10.0.0.0/8: 1, 10.1.0.0/16: 2, 10.1.1.0/24: 3, 10.2.0.0/16: 4}
    /// map.iter_from(&"10.1.0.0/16".parse()?, true);       // [(10.1.0.0/16, 2), (10.1.1.0/24, 3), (10.2.0.0/16, 4)]
    /// map.iter_from(&"10.1.0.0/16".parse()?, false);      // [(10.1.1.0/24, 3), (10.2.0.0/16, 4)]
    /// map.iter_from(&"10.1.128.0/17".parse()?, true);     // [(10.2.0.0/16, 4)]
    /// ```
    #[inline]
    pub fn iter_from(&self, prefix: &P, inclusive: bool) -> Iter<'_, P, T, A>
        requires { P.IsFitting prefix.now }
        ensures items { result ≡ prefix_pairs P.back (cond inclusive
            (listing_from self.now.entries (P.path prefix.now))
            (listing_after self.now.entries (P.path prefix.now))) }
        ensures fits { length result < 2 ^ 64 }
        ensures whole { IsWhole P.R.bit_width self.now }
    {
        self.known_valid();
        let walk = self
            .table
            .walk_from(prefix.path(), inclusive, &mut Visits::new());
        Iter::over(walk)
    }

    /// Returns a walk over the entries that this prefix contains, its own included, in the order of `iter`.
    ///
    /// These are the entries that `drop_children` and `remove_children` remove: see the law `removed` of
    /// `listing_laws`.
    ///
    /// # Examples
    ///
    /// ```rust
    /// // map = {10.0.0.0/8: 1, 10.1.0.0/16: 2, 10.1.1.0/24: 3, 10.2.0.0/16: 4}
    /// map.children(&"10.1.0.0/16".parse()?);      // [(10.1.0.0/16, 2), (10.1.1.0/24, 3)]
    /// map.children(&"10.1.0.0/17".parse()?);      // [(10.1.1.0/24, 3)]
    /// ```
    #[inline]
    pub fn children(&self, prefix: &P) -> Iter<'_, P, T, A>
        requires { P.IsFitting prefix.now }
        ensures items { result
            ≡ prefix_pairs P.back (listing_below self.now.entries (P.path prefix.now)) }
        ensures fits { length result < 2 ^ 64 }
        ensures whole { IsWhole P.R.bit_width self.now }
    {
        self.known_valid();
        let walk = self.table.walk_below(prefix.path(), &mut Visits::new());
        Iter::over(walk)
    }
}
