//! Callers that write to values that a map lends, and what they learn about the map.
ghost use Rattle.std.specs.Prelude.{◌≡◌, List, Bool, false, IsTrue, IsFalse, None, Some};
ghost use Rattle.std.specs.FinMap.{get};
ghost use Rattle.prefix_trie.specs.Terms.{longest_match, prefix_pair, with_longest_at, with_value_at};
ghost use Rattle.prefix_trie_bits.specs.Model.Order.{same_string};

use prefix_trie::{Prefix, PrefixMap};
use std::alloc::Allocator;

// Replaces a stored value. Returns whether there was one.
fn write<P: Prefix, T: Drop, A: Allocator>(
    map: &mut PrefixMap<P, T, A>,
    prefix: &P,
    value: T,
) -> bool
    requires { P.IsFitting prefix.now }
    ensures written { IsTrue result → map.new ≡ with_value_at map.old (P.path prefix.now) value }
    ensures unchanged { IsFalse result → map.new ≡ map.old }
    ensures there { IsTrue result → get map.new.entries (P.path prefix.now) ≡ Some value }
    ensures others { (q : List Bool) → same_string q (P.path prefix.now) ≡ false
        → get map.new.entries q ≡ get map.old.entries q }
{
    if let Some(stored) = map.get_mut(prefix) {
        *stored = value;
        return true;
    }
    false
}

// Replaces the value of the longest match. Returns whether there was one.
fn write_longest<P: Prefix, T: Drop, A: Allocator>(
    map: &mut PrefixMap<P, T, A>,
    prefix: &P,
    value: T,
) -> bool
    requires { P.IsFitting prefix.now }
    ensures written { IsTrue result → map.new ≡ with_longest_at map.old (P.path prefix.now) value }
    ensures unchanged { IsFalse result → map.new ≡ map.old }
    ensures none { IsFalse result → longest_match map.old.entries (P.path prefix.now) ≡ None }
{
    if let Some(stored) = map.get_lpm_value_mut(prefix) {
        *stored = value;
        return true;
    }
    false
}

// Replaces the value of the longest match. Returns its prefix and the previous value.
fn rewrite<P: Prefix, A: Allocator>(
    map: &mut PrefixMap<P, u8, A>,
    prefix: &P,
    value: u8,
) -> Option<(P, u8)>
    requires { P.IsFitting prefix.now }
    ensures { prefix_pair P.back (longest_match map.old.entries (P.path prefix.now)) ≡ result }
{
    let Some((found, stored)) = map.get_lpm_mut(prefix) else {
        return None;
    };
    let before = *stored;
    *stored = value;
    Some((found, before))
}
