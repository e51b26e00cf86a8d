//! The networks of a table all of whose addresses are in a set.
ghost use Rattle.std.specs.Prelude.{IfOk, map};
ghost use Rattle.prefix_trie.specs.Terms.{lent_item};
ghost use Rattle.address_ranges.specs.Breaks.{has_address};
ghost use Rattle.route_tables.specs.AddressSets.{AreCoveredEntries};

use crate::table::FamilyTable;
use crate::value::Value;
use address_ranges::AddressSet;
use prefix_trie::Prefix;
use prefix_trie::laws::{listed_laws, listing_laws, walk_laws};
use std::alloc::{AllocError, Global};

/// Returns the entries of a table all of whose addresses are in a set, in listing order.
///
/// # Errors
///
/// Returns the allocator's error if an allocation fails.
///
/// # Examples
///
/// ```rust
/// let table = load(b"10.0.0.0/24 a\n10.0.1.0/24 b\n", alloc)?.table;
/// let mut list = AddressList::new(alloc)?;
/// list.add(b"10.0.0.0/25\n10.0.0.128/25\n10.0.1.0/25\n", Reading::default(), alloc)?;
/// let set = list.finish()?;
/// covered(&table.ipv4, &set.ipv4, alloc)?.iter().map(|entry| entry.0);     // [10.0.0.0/24]
/// ```
pub fn covered<'a, P: Prefix>(
    table: &'a FamilyTable<P>,
    set: &AddressSet<P, Global>,
    alloc: Global,
) -> Result<Vec<(P, &'a Value)>, AllocError>
    ensures { IfOk result
        (λ entries. AreCoveredEntries P.R.bit_width P.back table.now.entries (has_address set.now)
        (map lent_item entries.items)) }
{
    listed_laws::<P, Value>();
    listing_laws::<Value>();
    walk_laws::<P, Value>();
    let mut entries = Vec::new(alloc);
    for (network, value) in table {
        if set.covers(&network) {
            entries.push((network, value))?;
        }
    }
    Ok(entries)
}
