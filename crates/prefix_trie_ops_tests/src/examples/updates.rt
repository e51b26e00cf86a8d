//! The difference of two tables as update messages.
ghost use Rattle.std.specs.Prelude.{◌≡◌, IfOk};
ghost use Rattle.prefix_trie_ops.specs.Merging.{lent_values};
ghost use Rattle.prefix_trie_ops_tests.specs.Updates.{change_of, with_messages};

use prefix_trie::laws::{listed_laws, listing_laws, stored_laws};
use prefix_trie::{Prefix, PrefixMap};
use prefix_trie_ops::laws::combining_laws;
use prefix_trie_ops::map::{Side, union};
use std::alloc::{AllocError, Allocator};

/// Returns the messages that change one table into another.
///
/// There is a message for each prefix that changes: with its new next hop, or with none if it is withdrawn.
pub fn updates<P: Prefix, A: Allocator, B: Allocator, C: Allocator>(
    old: &PrefixMap<P, u32, A>,
    new: &PrefixMap<P, u32, B>,
    alloc: C,
) -> Result<Vec<(P, Option<u32>), C>, AllocError>
    ensures { IfOk result
        (λ messages. with_messages P.path messages.items old.now.entries ≡ new.now.entries) }
{
    stored_laws::<u32>();
    listing_laws::<Side<u32, u32>>();
    listed_laws::<P, Side<u32, u32>>();
    combining_laws::<u32, u32>();

    // The proof learns from it that no key is longer than the width.
    let _ = (old.len(), new.len());
    let mut messages = Vec::new(alloc);
    for (prefix, side) in union(old, new) {
        if let Some(hop) = change(side) {
            messages.push((prefix, hop))?;
        }
    }
    Ok(messages)
}

/// Returns the new next hop of a prefix, or none if it is withdrawn. Returns `None` if nothing changes.
fn change(side: Side<&u32, &u32>) -> Option<Option<u32>>
    ensures { result ≡ change_of (lent_values side.entry) }
{
    match side {
        Side::Left(_) => Some(None),
        Side::Right(new) => Some(Some(*new)),
        Side::Both(old, new) => { if *old == *new { None } else { Some(Some(*new)) } }
    }
}
