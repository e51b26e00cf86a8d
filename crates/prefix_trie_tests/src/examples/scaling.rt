//! Values that are all changed where they are stored.
ghost use Rattle.std.specs.Prelude.{◌≡◌, ◌*◌, ◌%◌, ◌^◌, List, Bool};
ghost use Rattle.std.specs.FinMap.{get};
ghost use Rattle.std.specs.Option.{option_map};
ghost use Rattle.prefix_trie.specs.Terms.{OrderedIn, RewritesIn};

use prefix_trie::map::{IterMut, ValuesMut};
use prefix_trie::{Prefix, PrefixMap};
use std::alloc::Allocator;

// Doubles the values that are still to come.
fn double_rest<'b, 'a, P: Prefix, A: Allocator>(walk: &'b mut ValuesMut<'a, P, u64, A>)
    requires { OrderedIn walk.old.walk.source }
    ensures { RewritesIn (λ v. (v * 2) % 2 ^ 64) walk.old.walk.source walk.new.walk.source }
{
    while let Some(stored) = walk.next() {
        *stored = stored.wrapping_mul(2);
    }
}

/// Doubles all values of a map, modulo 2^64.
pub fn double_all<P: Prefix, A: Allocator>(map: &mut PrefixMap<P, u64, A>)
    ensures entries { (s : List Bool)
        → get map.new.entries s ≡ option_map (λ v. (v * 2) % 2 ^ 64) (get map.old.entries s) }
    ensures others { map.new ≡ record map.old { entries = map.new.entries } }
{
    let mut walk = map.values_mut();
    double_rest(&mut walk);
    if let Some(_map) = walk.into_map() {}
}

// Doubles the values of the entries that are still to come.
fn double_entries<'b, 'a, P: Prefix, A: Allocator>(walk: &'b mut IterMut<'a, P, u64, A>)
    requires { OrderedIn walk.old.source }
    ensures { RewritesIn (λ v. (v * 2) % 2 ^ 64) walk.old.source walk.new.source }
{
    while let Some((_prefix, stop)) = walk.step() {
        let stored = walk.value(stop);
        *stored = stored.wrapping_mul(2);
    }
}

/// Doubles all values of a map by a walk that also yields the prefixes.
pub fn double_each<P: Prefix, A: Allocator>(map: &mut PrefixMap<P, u64, A>)
    ensures entries { (s : List Bool)
        → get map.new.entries s ≡ option_map (λ v. (v * 2) % 2 ^ 64) (get map.old.entries s) }
{
    let mut walk = map.iter_mut();
    double_entries(&mut walk);
    if let Some(_map) = walk.into_map() {}
}
