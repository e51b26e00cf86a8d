//! What changes from one table to another.
ghost use Rattle.std.specs.Prelude.{◌≡◌, ◌≢◌, ◌↔◌, [], ℕ, Bool, Contains, IfOk, List, Some, map};
ghost use Rattle.std.specs.FinMap.{get};
ghost use Rattle.prefix_trie.specs.Terms.{prefix_pairs};
ghost use Rattle.prefix_trie_ops.specs.Merging.{lent_side, lent_values, sides};
ghost use Rattle.prefix_trie_ops.specs.declared.map.sides.Side.{Side};
ghost use Rattle.route_tables.specs.Changes.{changes_of, differ};

use crate::table::FamilyTable;
use crate::value::Value;
use prefix_trie::Prefix;
use prefix_trie::laws::listing_laws;
use prefix_trie_ops::laws::combining_laws;
use prefix_trie_ops::map::{Side, union};
use std::alloc::{AllocError, Global};

/// What an old and a new table have at a network: only the old one a value, only the new one, or both.
pub type Values<'a> = Side<&'a Value, &'a Value>;

/// Returns the networks at which two tables differ, each with what they have there, in listing order.
///
/// # Errors
///
/// Returns the allocator's error if an allocation fails.
///
/// # Examples
///
/// ```rust
/// let old = load(b"10.0.0.0/8 core\n10.1.0.0/16 edge\n", alloc)?.table;
/// let new = load(b"10.0.0.0/8 core\n10.1.0.0/16 core\n", alloc)?.table;
/// let changed = changes(&old.ipv4, &new.ipv4, alloc)?;
/// changed.iter().map(|change| change.0);      // [10.1.0.0/16]
/// ```
pub fn changes<'a, P: Prefix>(
    old: &'a FamilyTable<P>,
    new: &'a FamilyTable<P>,
    alloc: Global,
) -> Result<Vec<(P, Values<'a>)>, AllocError>
    ensures listed { IfOk result
        (λ changes. map lent_side changes.items
        ≡ prefix_pairs P.back (changes_of old.now.entries new.now.entries)) }
    ensures exact { IfOk result
        (λ _. (s : List Bool) (values : Side (List ℕ) (List ℕ))
        → Contains (changes_of old.now.entries new.now.entries) (s, values)
        ↔ ((get old.now.entries s ≢ get new.now.entries s)
        × (sides (get old.now.entries s) (get new.now.entries s) ≡ Some values))) }
    ensures none { IfOk result
        (λ changes. (changes.items ≡ []) ↔ (old.now.entries ≡ new.now.entries)) }
{
    combining_laws::<Value, Value>();
    listing_laws::<Side<Value, Value>>();
    let mut changes = Vec::new(alloc);
    for (network, values) in union(old, new) {
        if differ(&values) {
            changes.push((network, values))?;
        }
    }
    Ok(changes)
}

// Returns whether two tables that have these values at a network differ there.
fn differ(values: &Values<'_>) -> bool
    ensures { result ≡ differ (lent_values values.now) }
{
    match values {
        Side::Both(old, new) => old != new,
        Side::Left(_) | Side::Right(_) => true,
    }
}
