//! What callers learn about the walks over all entries.
ghost use Rattle.std.specs.Prelude.{◌≡◌, ◌++◌, ◌∷◌, [], List, map, nat_le, IfOk, MatchOption};
ghost use Rattle.std.specs.FinMap.{len};
ghost use Rattle.std.specs.List.{list_all};
ghost use Rattle.prefix_trie.specs.Terms.{listing, prefix_pairs};

use prefix_trie::map::Iter;
use prefix_trie::{Prefix, PrefixMap};
use prefix_trie_map::laws::{resume_laws, walk_laws};
use std::alloc::{AllocError, Allocator};

// Returns the number of entries that a walk and its clone yield.
fn count_twice<P: Prefix, T: Drop, A: Allocator>(m: &PrefixMap<P, T, A>) -> (usize, usize)
    ensures first { result.0 ≡ len m.now.entries }
    ensures second { result.1 ≡ len m.now.entries }
{
    walk_laws::<P, T>();
    let walk = m.iter();
    let again = walk.clone();
    (walk.count(), again.count())
}

// Collects all prefixes in listing order.
fn all_keys<P: Prefix, T: Drop, A: Allocator>(
    alloc: A,
    m: &PrefixMap<P, T, A>,
) -> Result<Vec<P, A>, AllocError>
    ensures { IfOk result (λ v. v.items ≡ map (λ e. P.back e.0) (listing m.now.entries)) }
{
    walk_laws::<P, T>();
    m.keys().collect(alloc)
}

// Returns whether no value is less than this one.
fn none_below<P: Prefix, A: Allocator>(m: &PrefixMap<P, u32, A>, least: u32) -> bool
    ensures { result
        ≡ list_all (λ e. nat_le least e.1) (prefix_pairs P.back (listing m.now.entries)) }
{
    for (_, value) in m {
        if *value < least {
            return false;
        }
    }
    true
}

// Reads the next entry of a walk, and returns a new walk that starts after it.
fn resume<'m, P: Prefix, T: Drop, A: Allocator>(
    m: &'m PrefixMap<P, T, A>,
    mut walk: Iter<'m, P, T, A>,
) -> Option<Iter<'m, P, T, A>>
    requires { (read : List (P × T))
        × (prefix_pairs P.back (listing m.now.entries) ≡ read ++ walk) }
    ensures { MatchOption result (walk.entry ≡ [])
        (λ rest. (last : P × T) × (walk.entry ≡ last ∷ rest)) }
{
    resume_laws::<P, T>();
    // Tells the proof that the prefix that was read fits.
    let _ = m.len();
    let Some((last, _)) = walk.next() else {
        return None;
    };
    Some(m.iter_from(&last, false))
}
