//! Equality of maps.
ghost use Rattle.std.specs.Prelude.{◌&&◌};
ghost use Rattle.std.specs.Cmp.Lexicographic.{pointwise, lists_per, lists_equiv};
ghost use Rattle.std.specs.Cmp.{on_per, and_per, on_equiv, and_equiv};
ghost use Rattle.prefix_trie_bits.specs.Model.Selections.{listing, prefix_pairs};

use crate::map::PrefixMap;
use prefix_trie_bits::prefix::Prefix;
use std::alloc::Allocator;

/// Compares the listings of two maps.
///
/// Maps are equal if their listings have the same length, and equal prefixes and values item by item. Prefixes are
/// compared as `iter` gives them, without host bits. Nodes and slots do not count. No memory is allocated.
///
/// # Examples
///
/// ```rust
/// // left = {10.0.0.0/8: 1, 11.0.0.0/8: 2}
/// // right = {11.0.0.0/8: 2, 10.0.0.0/8: 1}
/// left == right;                              // true: the order of insertion does not matter
/// right.insert("11.0.0.0/8".parse()?, 3)?;
/// left == right;                              // false
/// ```
impl<P: Prefix + PartialEq, T: PartialEq + Drop, A: Allocator> PartialEq for PrefixMap<P, T, A> {
    ghost eq = { λ a b. pointwise
        (λ x y. P.PartialEq.eq x.0 y.0 && T.PartialEq.eq x.1 y.1)
        (prefix_pairs P.back (listing a.entries)) (prefix_pairs P.back (listing b.entries)) };

    ghost laws = { on_per
        (λ m. prefix_pairs P.back (listing m.entries))
        (lists_per (and_per (on_per (λ e. e.0) P.PartialEq.laws)
        (on_per (λ e. e.1) T.PartialEq.laws))) };

    fn eq(&self, other: &Self) -> bool {
        self.iter().eq(other.iter())
    }
}

impl<P: Prefix + Eq, T: Eq + Drop, A: Allocator> Eq for PrefixMap<P, T, A> {
    ghost laws = { on_equiv
        (λ m. prefix_pairs P.back (listing m.entries))
        (lists_equiv (and_equiv (on_equiv (λ e. e.0) P.Eq.laws) (on_equiv (λ e. e.1) T.Eq.laws))) };
}
