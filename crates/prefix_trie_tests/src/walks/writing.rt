//! Callers of mutable walks, and what they learn about the map.
ghost use Rattle.std.specs.Prelude.{◌≡◌, List, Bool, [], ◌∷◌, IsTrue, MatchOption, slice_get};
ghost use Rattle.prefix_trie.specs.Terms.{listing, prefix_pairs, with_value_at};
ghost use Rattle.prefix_trie_map.specs.Writing.{ComesToEnd, GoesOver, IsFirst};
ghost use Rattle.prefix_trie_map.specs.WritingWalks.{EndsIn, FirstIn, PassesIn};

use prefix_trie::map::IterMut;
use prefix_trie::{Prefix, PrefixMap};
use std::alloc::Allocator;
use std::mem;

// Swaps the next value for another. Returns its prefix and the previous value.
fn swap_next<'b, 'a, P: Prefix, T: Drop, A: Allocator>(
    walk: &'b mut IterMut<'a, P, T, A>,
    value: T,
) -> Option<(P, T)>
    ensures { MatchOption result (EndsIn ComesToEnd walk.old.source walk.new.source)
        (λ r. FirstIn IsFirst walk.old.source r.0 r.1
        × PassesIn GoesOver walk.old.source value walk.new.source) }
{
    let (prefix, stop) = walk.step()?;
    let before = mem::replace(walk.value(stop), value);
    Some((prefix, before))
}

// Swaps the first value of a map for another. Returns its prefix and the previous value.
fn swap_first<P: Prefix, T: Drop, A: Allocator>(
    map: &mut PrefixMap<P, T, A>,
    value: T,
) -> Option<(P, T)>
    ensures before { result ≡ slice_get (prefix_pairs P.back (listing map.old.entries)) 0 }
    ensures unchanged { listing map.old.entries ≡ [] → map.new ≡ map.old }
    ensures swapped { (q : List Bool) → (v : T) → (rest : List (List Bool × T))
        → listing map.old.entries ≡ (q, v) ∷ rest
        → map.new ≡ with_value_at map.old q value }
{
    let mut walk = map.iter_mut();
    let before = swap_next(&mut walk, value);
    if let Some(_map) = walk.into_map() {}
    before
}

// Returns whether a map has no value.
fn has_none<P: Prefix, T: Drop, A: Allocator>(map: &mut PrefixMap<P, T, A>) -> bool
    ensures { IsTrue result → listing map.old.entries ≡ [] }
{
    let mut walk = map.iter_mut();
    walk.next().is_none()
}
