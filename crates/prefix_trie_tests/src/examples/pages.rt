//! Entries that are read in pages. Each page starts after the last entry of the page before.
ghost use Rattle.std.specs.Prelude.{◌≡◌, ℕ, ◌+◌, ◌<◌, ◌++◌, List, IfOk, OnOk, length, take};
ghost use Rattle.prefix_trie.specs.Terms.{listing, prefix_pairs};

use prefix_trie::laws::page_laws;
use prefix_trie::map::Iter;
use prefix_trie::{Prefix, PrefixMap};
use std::alloc::{AllocError, Allocator};

/// Returns the walk after the entries that were read, which are the first of the map.
fn walk_after<'m, P: Prefix, A: Allocator>(
    map: &'m PrefixMap<P, u64, A>,
    read: &[(P, u64)],
) -> Iter<'m, P, u64, A>
    requires { (rest : List (P × ℕ))
        × (prefix_pairs P.back (listing map.now.entries) ≡ read.now ++ rest) }
    ensures { prefix_pairs P.back (listing map.now.entries) ≡ read.now ++ result }
{
    page_laws::<P, u64>();
    // Tells the proof that no key is longer than the width.
    let _ = map.len();
    match read.last() {
        Some((last, _)) => map.iter_from(last, false),
        None => map.iter(),
    }
}

/// Reads a page: at most `size` entries after those that were read, which are the first of the map.
pub fn read_page<P: Prefix, A: Allocator, B: Allocator>(
    map: &PrefixMap<P, u64, A>,
    size: usize,
    read: &mut Vec<(P, u64), B>,
) -> Result<(), AllocError>
    requires { (rest : List (P × ℕ))
        × (prefix_pairs P.back (listing map.now.entries) ≡ read.old.items ++ rest) }
    ensures { OnOk result
        (read.new.items
        ≡ take (length read.old.items + size) (prefix_pairs P.back (listing map.now.entries))) }
{
    let mut walk = walk_after(map, read);
    for _i in 0..size {
        let Some((prefix, value)) = walk.next() else {
            return Ok(());
        };
        read.push((prefix, *value))?;
    }
    Ok(())
}

/// Reads all entries, in pages of `size`.
pub fn read_all<P: Prefix, A: Allocator, B: Allocator>(
    map: &PrefixMap<P, u64, A>,
    size: usize,
    alloc: B,
) -> Result<Vec<(P, u64), B>, AllocError>
    requires { 0 < size }
    ensures { IfOk result (λ read. read.items ≡ prefix_pairs P.back (listing map.now.entries)) }
{
    let mut read = Vec::new(alloc);
    while read.len() < map.len() {
        read_page(map, size, &mut read)?;
    }
    Ok(read)
}
