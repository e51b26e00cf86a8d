//! The addresses that maps and sets cover, as ranges.
ghost use Rattle.std.specs.Prelude.{◌≡◌, Bool, IfOk, List, length};
ghost use Rattle.std.specs.Option.{is_some};
ghost use Rattle.prefix_trie_bits.specs.Model.Bits.{number};
ghost use Rattle.prefix_trie.specs.Terms.{shortest_match};
ghost use Rattle.address_ranges.specs.Breaks.{has_address};

use address_ranges::{AddressSet, AddressSetBuilder};
use prefix_trie::laws::{listed_laws, listing_laws, match_laws, walk_laws};
use prefix_trie::{Prefix, PrefixMap};
use std::alloc::{AllocError, Allocator};

/// Returns the addresses that a map covers: those that one of its prefixes contains.
///
/// It is one walk over the map, and sorts nothing. A `PrefixSet` is read by its map.
///
/// # Errors
///
/// Returns an error if an allocation fails.
///
/// # Examples
///
/// ```rust
/// // map = {10.0.0.0/9: 1, 10.128.0.0/9: 2, 10.1.0.0/16: 3}
/// addresses_of(&map, alloc)?.networks();        // [10.0.0.0/8]
/// ```
pub fn addresses_of<P: Prefix, T: Drop, A: Allocator, B: Allocator + Clone>(
    map: &PrefixMap<P, T, A>,
    alloc: B,
) -> Result<AddressSet<P, B>, AllocError>
    ensures { IfOk result (λ set. (q : List Bool) → length q ≡ P.R.bit_width
        → has_address set (number q) ≡ is_some (shortest_match map.now.entries q)) }
{
    listed_laws::<P, T>();
    listing_laws::<T>();
    match_laws::<T>();
    walk_laws::<P, T>();
    let mut builder = AddressSetBuilder::new(alloc)?;
    for (network, _) in map {
        builder.add_network(&network)?;
    }
    builder.finish()
}
