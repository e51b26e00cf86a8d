//! The listings of a run: the items of a walk, copied into a list.
ghost use Rattle.std.specs.Prelude.{◌≡◌, ℕ, List, IfOk, MatchResult, cond, map};
ghost use Rattle.std.specs.Borrow.{Bor};
ghost use Rattle.std.specs.Iterator.{Drains, IsFinite};
ghost use Rattle.prefix_trie_bits.specs.Model.Matches.{covers};
ghost use Rattle.prefix_trie_bits.specs.Model.Selections.{listing, listing_from, listing_after, listing_below, prefix_pairs};
ghost use Rattle.prefix_trie_bits.specs.Model.Step.{Items, Refused};
ghost use Rattle.prefix_trie_bits.specs.declared.prefix.Refusal.TheVariants.{Memory};
ghost use Rattle.prefix_trie_map.specs.Walks.{lent_item};
ghost use Rattle.prefix_trie.specs.Model.Replay.{reply_of};

use crate::replay::{Reply, owned};
use prefix_trie_bits::prefix::{Prefix, Refusal};
use prefix_trie_map::map::PrefixMap;
use std::alloc::{AllocError, Allocator};

/// Returns all entries in listing order. Their memory is allocated first.
pub(super) fn listed<P: Prefix, A: Allocator + Clone>(
    alloc: &A,
    map: &PrefixMap<P, u64, A>,
) -> Result<Vec<(P, u64), A>, AllocError>
    ensures { IfOk result
        (λ entries. entries.items ≡ prefix_pairs P.back (listing map.now.entries)) }
{
    copied(alloc, map.len(), map.iter())
}

/// Returns the entries after a prefix in listing order, and its own if `inclusive`.
///
/// A first walk counts them, so that their memory is allocated at once.
pub(super) fn listed_from<P: Prefix, A: Allocator + Clone>(
    alloc: &A,
    map: &PrefixMap<P, u64, A>,
    prefix: &P,
    inclusive: bool,
) -> Result<Vec<(P, u64), A>, AllocError>
    requires { P.IsFitting prefix.now }
    ensures { IfOk result (λ entries. entries.items ≡ prefix_pairs P.back (cond inclusive
        (listing_from map.now.entries (P.path prefix.now))
        (listing_after map.now.entries (P.path prefix.now)))) }
{
    let count = map.iter_from(prefix, inclusive).count();
    copied(alloc, count, map.iter_from(prefix, inclusive))
}

/// Returns the entries whose prefixes this one contains. A first walk counts them.
pub(super) fn children<P: Prefix, A: Allocator + Clone>(
    alloc: &A,
    map: &PrefixMap<P, u64, A>,
    prefix: &P,
) -> Result<Vec<(P, u64), A>, AllocError>
    requires { P.IsFitting prefix.now }
    ensures { IfOk result
        (λ entries. entries.items
        ≡ prefix_pairs P.back (listing_below map.now.entries (P.path prefix.now))) }
{
    let count = map.children(prefix).count();
    copied(alloc, count, map.children(prefix))
}

/// Returns the entries whose prefixes contain this one, shortest first. A first walk counts them.
pub(super) fn covered<P: Prefix, A: Allocator + Clone>(
    alloc: &A,
    map: &PrefixMap<P, u64, A>,
    prefix: &P,
) -> Result<Vec<(P, u64), A>, AllocError>
    requires { P.IsFitting prefix.now }
    ensures { IfOk result
        (λ entries. entries.items
        ≡ prefix_pairs P.back (covers map.now.entries (P.path prefix.now))) }
{
    let count = map.cover(prefix).count();
    copied(alloc, count, map.cover(prefix))
}

/// Copies the items of a walk. Their memory is allocated first.
fn copied<'a, P: Drop, A: Allocator + Clone, I: Iterator<Item = (P, &'a u64)> + Drop>(
    alloc: &A,
    count: usize,
    walk: I,
) -> Result<Vec<(P, u64), A>, AllocError>
    requires can { I.can_next walk }
    requires finite { IsFinite (I.remaining walk) }
    ensures { IfOk result
        (λ entries. (lent : List (P × Bor ℕ)) × Drains I.next_gives walk lent
        × (entries.items ≡ map lent_item lent)) }
{
    let mut entries = Vec::with_capacity(alloc.clone()?, count)?;
    entries.extend(walk.map(owned))?;
    Ok(entries)
}

/// Returns the entries, or a refusal if their memory could not be allocated.
pub(super) fn list_reply<P: Prefix, A: Allocator>(
    listed: Result<Vec<(P, u64), A>, AllocError>,
) -> Reply<P, A>
    ensures { MatchResult listed (λ entries. reply_of P.R.bits result ≡ Items entries.items)
        (λ _. reply_of P.R.bits result ≡ Refused Memory) }
{
    match listed {
        Ok(entries) => Reply::Entries(entries),
        Err(_) => Reply::Refused(Refusal::Memory),
    }
}
