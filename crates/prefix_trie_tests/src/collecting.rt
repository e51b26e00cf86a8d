//! Maps that are collected from an iterator: what callers learn, and what is dropped if an allocation fails.
ghost use Rattle.std.specs.Prelude.{◌≡◌, All, IfOk, IsTrue};
ghost use Rattle.prefix_trie.specs.Terms.{listing, no_entries, put_all, prefix_pairs, IsTidy};

use crate::drops::Counted;
use crate::networks::v4;
use crate::refusing::Refusing;
use prefix_trie::{Prefix, PrefixMap, Refusal};
use std::alloc::{AllocError, Allocator, Global};
use std::cell::Cell;

// Collects the pairs of a vector into a map.
fn map_of_pairs<P: Prefix, T: Drop, A: Allocator + Clone>(
    alloc: A,
    pairs: Vec<(P, T)>,
) -> Result<PrefixMap<P, T, A>, Refusal>
    requires { All (λ e. P.IsFitting e.0) pairs.items }
    ensures { IfOk result (λ map. map.entries ≡ put_all P.path pairs.items no_entries) }
{
    PrefixMap::from_iter(alloc, pairs)
}

// Moves the entries of a map into a new map, which is tidy.
fn rebuild<P: Prefix, T: Drop, A: Allocator, B: Allocator + Clone>(
    map: PrefixMap<P, T, A>,
    alloc: B,
) -> Result<PrefixMap<P, T, B>, Refusal>
    ensures entries { IfOk result
        (λ built. built.entries
        ≡ put_all P.path (prefix_pairs P.back (listing map.entries)) no_entries) }
    ensures tidy { IfOk result (λ built. IsTidy built.entries built.nodes) }
{
    PrefixMap::from_iter(alloc, map)
}

// Compares a map with its clone. They are equal.
fn equals_its_copy<P: Prefix + Eq, A: Allocator + Clone>(
    map: &PrefixMap<P, u64, A>,
) -> Result<bool, AllocError>
    ensures { IfOk result (λ equal. IsTrue equal) }
{
    let copy = map.clone()?;
    Ok(*map == copy)
}

/// More allocations than one map of three entries makes.
const MANY: u64 = 100;

/// Returns three values that count their drops, two of them at one key.
fn three<'a>(
    alloc: Global,
    drops: &'a Cell<u64>,
) -> Result<Vec<((u32, u8), Counted<'a>)>, AllocError>
    ensures { IfOk result (λ pairs. All (λ e. ⟦<(u32, u8) as Prefix>⟧.IsFitting e.0) pairs.items) }
{
    let mut pairs = Vec::new(alloc);
    pairs.push((v4!(0, 0, 0, 0; 1), Counted { drops }))?;
    pairs.push((v4!(128, 0, 0, 0; 32), Counted { drops }))?;
    pairs.push((v4!(127, 255, 255, 255; 1), Counted { drops }))?;
    Ok(pairs)
}

/// Collects the pairs into a map. Returns its number of entries, and the number of drops so far.
fn len_and_drops(
    heap: &Refusing<Global>,
    pairs: Vec<((u32, u8), Counted<'_>)>,
    drops: &Cell<u64>,
) -> Result<(usize, u64), Refusal>
    requires { All (λ e. ⟦<(u32, u8) as Prefix>⟧.IsFitting e.0) pairs.items }
{
    let map = rebuild(map_of_pairs(heap, pairs)?, heap)?;
    Ok((map.len(), drops.get()))
}

/// Collects the pairs with each allocation failing.
///
/// Returns the number of allocations, if collecting fails exactly if one does. The last map must have both keys and
/// have dropped the earlier value. All values are dropped in the end.
fn requests_if_each_fails(heap: &Refusing<Global>, refused: u64) -> Option<u64> {
    for passed in 0..MANY {
        heap.refuse(passed, refused);
        let drops = Cell::new(0);
        let Ok(pairs) = three(heap.inner(), &drops) else {
            return None;
        };
        let answer = len_and_drops(heap, pairs, &drops);
        if drops.get() != 3 {
            return None;
        }
        if heap.left() == refused {
            return (answer == Ok((2, 1))).then_some(passed);
        }
        if answer != Err(Refusal::Memory) {
            return None;
        }
    }
    None
}

#[test]
fn from_iter_fails_exactly_if_an_allocation_fails(rt: HostRuntime) {
    let heap = Refusing::new(rt.alloc());
    assert!(rt; requests_if_each_fails(&heap, 1).unwrap_or(0) > 0);
    assert!(rt; requests_if_each_fails(&heap, u64::MAX).unwrap_or(0) > 0);
}
