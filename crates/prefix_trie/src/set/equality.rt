//! Equality and debug output of sets.
ghost use Rattle.std.specs.Prelude.{◌≡◌, ◌↔◌, IsTrue};
ghost use Rattle.std.specs.Cmp.Lexicographic.{pointwise};
ghost use Rattle.std.specs.Cmp.{on_equiv, on_per, partial_equiv_from_equiv};
ghost use Rattle.prefix_trie.specs.Sets.{same_keys, same_parts, same_keys_equiv};

use crate::set::{Iter, PrefixSet};
use prefix_trie_bits::prefix::Prefix;
use std::alloc::Allocator;
use std::fmt::{self, Debug, Formatter, Write};

/// Two sets are equal if they have the same keys, whatever their blocks and limits.
impl<P: Prefix, A: Allocator> PartialEq for PrefixSet<P, A> {
    ghost eq = { λ s t. same_keys s.entries t.entries };

    ghost laws = { on_per (λ s. s.entries) (partial_equiv_from_equiv same_keys_equiv) };

    fn eq(&self, other: &Self) -> bool
        ensures eq { result ≡ same_keys self.now.entries other.now.entries }
        ensures same { IsTrue result ↔ (self.now.entries ≡ other.now.entries) }
    {
        yield_same(self.iter(), other.iter())
    }
}

impl<P: Prefix, A: Allocator> Eq for PrefixSet<P, A> {
    ghost laws = { on_equiv (λ s. s.entries) same_keys_equiv };
}

/// Returns whether two walks give the same prefixes in the same order.
fn yield_same<P: Prefix, A: Allocator>(left: Iter<'_, P, A>, mut right: Iter<'_, P, A>) -> bool
    ensures { result ≡ pointwise (same_parts P.R.eq P.repr_of P.len_of) left.entry right.entry }
{
    for prefix in left {
        match right.next() {
            Some(other) if is_same(&prefix, &other) => {}
            _ => return false,
        }
    }
    right.next().is_none()
}

/// Returns whether number and length are the same.
fn is_same<P: Prefix>(prefix: &P, other: &P) -> bool
    ensures { result ≡ same_parts P.R.eq P.repr_of P.len_of prefix.now other.now }
{
    prefix.repr() == other.repr() && prefix.prefix_len() == other.prefix_len()
}

impl<P: Prefix, A: Allocator> Debug for PrefixSet<P, A> {
    /// Writes the keys in listing order, joined by `, ` within braces.
    fn fmt<W: Write>(&self, f: &mut Formatter<W>) -> fmt::Result {
        f.debug_set().entries(self).finish()
    }
}
