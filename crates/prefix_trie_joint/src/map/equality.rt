//! Equality and debug output of maps.
ghost use Rattle.std.specs.Prelude.{◌&&◌};
ghost use Rattle.std.specs.Cmp.Lexicographic.{pointwise, lists_per, lists_equiv};
ghost use Rattle.std.specs.Cmp.{and_equiv, and_per, on_equiv, on_per, partial_equiv_from_equiv};
ghost use Rattle.prefix_trie.specs.Terms.{listing, prefix_pairs};
ghost use Rattle.prefix_trie_joint.specs.contracts.prefix.IpPrefixEq.TheImpl.Laws.{laws-law as ip_equiv};
ghost use Rattle.prefix_trie_joint.specs.Joined.{entries_of};
ghost use Rattle.prefix_trie_joint.specs.Networks.{ip_back};

use crate::map::JointPrefixMap;
use crate::prefix::IpPrefix;
use std::alloc::Allocator;
use std::fmt::{self, Debug, Formatter, Write};

/// Compares the listings of two maps, as `PrefixMap` does.
///
/// # Examples
///
/// ```rust
/// // left = {10.0.0.0/8: 1, ::/0: 2}
/// // right = {::/0: 2, 10.0.0.0/8: 1}
/// left == right;                              // true: the order of insertion does not matter
/// right.insert("::/0".parse()?, 3)?;
/// left == right;                              // false
/// ```
impl<T: PartialEq + Drop, A: Allocator> PartialEq for JointPrefixMap<T, A> {
    ghost eq = { λ a b. pointwise
        (λ x y. ⟦<IpPrefix as PartialEq>⟧.eq x.0 y.0 && T.PartialEq.eq x.1 y.1)
        (prefix_pairs ip_back (listing (entries_of a)))
        (prefix_pairs ip_back (listing (entries_of b))) };

    ghost laws = { on_per
        (λ m. prefix_pairs ip_back (listing (entries_of m)))
        (lists_per (and_per (on_per (λ e. e.0) (partial_equiv_from_equiv ip_equiv))
        (on_per (λ e. e.1) T.PartialEq.laws))) };

    fn eq(&self, other: &Self) -> bool {
        self.iter().eq(other.iter())
    }
}

impl<T: Eq + Drop, A: Allocator> Eq for JointPrefixMap<T, A> {
    ghost laws = { on_equiv
        (λ m. prefix_pairs ip_back (listing (entries_of m)))
        (lists_equiv (and_equiv (on_equiv (λ e. e.0) ip_equiv)
        (on_equiv (λ e. e.1) T.Eq.laws))) };
}

/// Writes the map of each family, as `PrefixMap` is written.
///
/// # Examples
///
/// ```rust
/// // map = {10.0.0.0/8: 1}
/// map;    // JointPrefixMap { ipv4: {10.0.0.0/8: { value: 1 }}, ipv6: {} }
/// ```
impl<T: Debug + Drop, A: Allocator> Debug for JointPrefixMap<T, A> {
    fn fmt<F: Write>(&self, f: &mut Formatter<F>) -> fmt::Result {
        let ipv4 = &self.ipv4;
        let ipv6 = &self.ipv6;
        write!(f, "JointPrefixMap {{ ipv4: {ipv4:?}, ipv6: {ipv6:?} }}")
    }
}
