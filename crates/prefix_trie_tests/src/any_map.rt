//! What callers learn about a map with an unknown history.
ghost use Rattle.std.specs.Prelude.{◌≡◌, false, filter, IfOk};
ghost use Rattle.std.specs.FinMap.{contains_key, len};
ghost use Rattle.prefix_trie.specs.Terms.{listing, needed, IsTidy};
ghost use Rattle.prefix_trie_bits.specs.Laws.Slots.{MakesSlots};
ghost use Rattle.prefix_trie_map.specs.Steps.{storage};

use crate::examples::expiry::keep_from;
use prefix_trie::{Prefix, PrefixMap};
use prefix_trie_bits::laws::slot_laws;
use prefix_trie_map::laws::copy_laws;
use std::alloc::{AllocError, Allocator};

// Keeps the entries whose prefixes another map also stores.
fn keep_common<P: Prefix, A: Allocator>(
    map: &mut PrefixMap<P, u64, A>,
    other: &PrefixMap<P, u64, A>,
)
    ensures { listing map.new.entries
        ≡ filter (λ e. contains_key other.now.entries e.0) (listing map.old.entries) }
{
    // Tells the proof that each prefix passed to the test fits.
    let _ = map.len();
    map.retain(move |prefix, _| other.contains_key(prefix));
}

// Inserts into a tidy map, removes a key, and counts the nodes.
fn insert_and_remove<P: Prefix, T: Drop, A: Allocator>(
    map: &mut PrefixMap<P, T, A>,
    prefix: P,
    value: T,
    out: &P,
) -> usize
    requires fits { P.IsFitting prefix }
    requires out_fits { P.IsFitting out.now }
    requires tidy { IsTidy map.old.entries map.old.nodes }
    ensures tidy { IsTidy map.new.entries map.new.nodes }
    ensures counted { result ≡ len (needed map.new.entries) }
{
    // Tells the proof that the nodes are those of a map.
    let _ = map.len();
    let _ = map.insert(prefix, value);
    map.remove(out);
    map.node_count()
}

// Clears any map, and then does the same.
fn use_emptied<P: Prefix, T: Drop, A: Allocator>(
    map: &mut PrefixMap<P, T, A>,
    prefix: P,
    value: T,
    out: &P,
) -> usize
    requires fits { P.IsFitting prefix }
    requires out_fits { P.IsFitting out.now }
    ensures tidy { IsTidy map.new.entries map.new.nodes }
    ensures counted { result ≡ len (needed map.new.entries) }
{
    map.clear();
    insert_and_remove(map, prefix, value, out)
}

// Keeps some values of any map, and then does the same.
fn use_retained<P: Prefix, A: Allocator>(
    map: &mut PrefixMap<P, u64, A>,
    least: u64,
    prefix: P,
    out: &P,
) -> usize
    requires fits { P.IsFitting prefix }
    requires out_fits { P.IsFitting out.now }
    ensures tidy { IsTidy map.new.entries map.new.nodes }
    ensures counted { result ≡ len (needed map.new.entries) }
{
    keep_from(map, least);
    insert_and_remove(map, prefix, least, out)
}

// Inserts a new key into a tidy map and removes it again.
fn insert_and_remove_again<P: Prefix, T: Drop, A: Allocator>(
    map: &mut PrefixMap<P, T, A>,
    prefix: P,
    value: T,
    same: &P,
)
    requires fits { P.IsFitting prefix }
    requires same_fits { P.IsFitting same.now }
    requires same_path { P.path same.now ≡ P.path prefix }
    requires new_key { contains_key map.old.entries (P.path prefix) ≡ false }
    requires tidy { IsTidy map.old.entries map.old.nodes }
    ensures entries { map.new.entries ≡ map.old.entries }
    ensures nodes { map.new.nodes ≡ map.old.nodes }
{
    // Tells the proof that no key is longer than the width.
    let _ = map.len();
    match map.insert(prefix, value) {
        Ok(_) => {
            map.remove(same);
        }
        Err(_) => {}
    }
}

// Inserts a key into any map. The contract bounds the slots that this adds.
fn insert_within_bound<P: Prefix, T: Drop, A: Allocator>(
    map: &mut PrefixMap<P, T, A>,
    prefix: P,
    value: T,
) -> bool
    requires { P.IsFitting prefix }
    ensures { MakesSlots 56 31 (storage map.old) (storage map.new) }
{
    slot_laws::<P, T>();
    // Tells the proof that the map is whole.
    let _ = map.len();
    map.insert(prefix, value).is_ok()
}

// Clones a tidy map. The clone is tidy too.
fn tidy_copy<P: Prefix, T: Clone, A: Allocator + Clone>(
    map: &PrefixMap<P, T, A>,
) -> Result<PrefixMap<P, T, A>, AllocError>
    requires { IsTidy map.now.entries map.now.nodes }
    ensures { IfOk result (λ copy. IsTidy copy.entries copy.nodes) }
{
    copy_laws::<T>();
    map.clone()
}
