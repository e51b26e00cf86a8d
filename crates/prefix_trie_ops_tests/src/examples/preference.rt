//! Two vendors' tables merged into one, with one of them preferred.
ghost use Rattle.std.specs.Prelude.{◌≡◌, List, Bool, IfOk};
ghost use Rattle.std.specs.Option.{option_or};
ghost use Rattle.std.specs.FinMap.{get};
ghost use Rattle.prefix_trie_ops.specs.Merging.{lent_values};
ghost use Rattle.prefix_trie_ops_tests.specs.Preferences.{preferred_of};

use prefix_trie::laws::{listed_laws, listing_laws, stored_laws};
use prefix_trie::{Prefix, PrefixMap, Refusal};
use prefix_trie_ops::laws::combining_laws;
use prefix_trie_ops::map::{Side, union};
use std::alloc::Allocator;

/// Returns the routes of both tables. For a prefix of both, it has the next hop of the first table.
pub fn preferring<P: Prefix, A: Allocator, B: Allocator, C: Allocator + Clone>(
    first: &PrefixMap<P, u32, A>,
    second: &PrefixMap<P, u32, B>,
    alloc: C,
) -> Result<PrefixMap<P, u32, C>, Refusal>
    ensures { IfOk result
        (λ table. (s : List Bool)
        → get table.entries s ≡ option_or (get first.now.entries s) (get second.now.entries s)) }
{
    stored_laws::<u32>();
    listing_laws::<Side<u32, u32>>();
    listed_laws::<P, Side<u32, u32>>();
    combining_laws::<u32, u32>();

    // The proof learns from it that no key is longer than the width.
    let _ = (first.len(), second.len());
    let mut table = PrefixMap::new(alloc)?;
    for (prefix, side) in union(first, second) {
        table.insert(prefix, preferred(side))?;
    }
    Ok(table)
}

/// Returns the left next hop if there is one, otherwise the right one.
fn preferred(side: Side<&u32, &u32>) -> u32
    ensures { result ≡ preferred_of (lent_values side.entry) }
{
    match side {
        Side::Left(hop) | Side::Both(hop, _) => *hop,
        Side::Right(hop) => *hop,
    }
}
