//! Equality and debug output of sets.
ghost use Rattle.std.specs.Prelude.{◌≡◌, ◌↔◌, ◌&&◌, IsTrue};
ghost use Rattle.std.specs.Cmp.{and_equiv, and_per, on_equiv, on_per, partial_equiv_from_equiv};
ghost use Rattle.prefix_trie.specs.Sets.{same_keys_equiv};
ghost use Rattle.prefix_trie.specs.Terms.{same_keys};
ghost use Rattle.prefix_trie_joint.specs.Joined.{keys_of};

use crate::set::JointPrefixSet;
use std::alloc::Allocator;
use std::fmt::{self, Debug, Formatter, Write};

/// Compares the keys of two sets. Nodes and slots do not count.
///
/// # Examples
///
/// ```rust
/// // left = {10.0.0.0/8, ::/0}
/// // right = {::/0, 10.0.0.0/8}
/// left == right;                      // true: the order of insertion does not matter
/// right.remove(&"::/0".parse()?);
/// left == right;                      // false
/// ```
impl<A: Allocator> PartialEq for JointPrefixSet<A> {
    ghost eq = { λ s t. same_keys s.ipv4.entries t.ipv4.entries
        && same_keys s.ipv6.entries t.ipv6.entries };

    ghost laws = { and_per
        (on_per (λ s. s.ipv4.entries) (partial_equiv_from_equiv same_keys_equiv))
        (on_per (λ s. s.ipv6.entries) (partial_equiv_from_equiv same_keys_equiv)) };

    #[tactic(auto, using(crate::proofs::Changes::ipv4_of, crate::proofs::Changes::ipv6_of, crate::proofs::Changes::same_joined))]
    fn eq(&self, other: &Self) -> bool
        ensures eq { result ≡ (same_keys self.now.ipv4.entries other.now.ipv4.entries
            && same_keys self.now.ipv6.entries other.now.ipv6.entries) }
        ensures same { IsTrue result ↔ (keys_of self.now ≡ keys_of other.now) }
    {
        self.ipv4 == other.ipv4 && self.ipv6 == other.ipv6
    }
}

impl<A: Allocator> Eq for JointPrefixSet<A> {
    ghost laws = { and_equiv (on_equiv (λ s. s.ipv4.entries) same_keys_equiv)
        (on_equiv (λ s. s.ipv6.entries) same_keys_equiv) };
}

/// Writes the networks in the order of `iter`.
///
/// # Examples
///
/// ```rust
/// // set = {10.1.0.0/16, 10.0.0.0/8}
/// set;    // {V4(10.0.0.0/8), V4(10.1.0.0/16)}
/// ```
impl<A: Allocator> Debug for JointPrefixSet<A> {
    fn fmt<W: Write>(&self, f: &mut Formatter<W>) -> fmt::Result {
        f.debug_set().entries(self).finish()
    }
}
