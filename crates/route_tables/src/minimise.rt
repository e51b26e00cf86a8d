//! Smaller tables in which every lookup gives the same value.
ghost use Rattle.std.specs.Prelude.{◌≡◌, ◌≢◌, ℕ, Bool, List, IfErr, OnOk, Some};
ghost use Rattle.std.specs.FinMap.{get};
ghost use Rattle.prefix_trie_bits.specs.declared.prefix.Refusal.TheVariants.{Memory};
ghost use Rattle.prefix_trie_ops.specs.Values.{value_above, value_of};

use crate::table::FamilyTable;
use crate::value::Value;
use prefix_trie::laws::listing_laws;
use prefix_trie::{Prefix, Refusal};
use prefix_trie_ops::map::aggregate_consistent;
use std::alloc::Global;

/// Removes each network whose longest shorter network in the table has the same value.
///
/// Every lookup, of an address or of a network, gives the same value as before.
///
/// # Errors
///
/// Returns `Memory` if an allocation fails. The table is unchanged then.
///
/// # Examples
///
/// ```rust
/// let mut table = load(b"10.0.0.0/8 core\n10.1.0.0/16 core\n10.2.0.0/16 edge\n", alloc)?.table;
/// remove_redundant(&mut table.ipv4, alloc)?;
/// table.ipv4.keys();     // [10.0.0.0/8, 10.2.0.0/16]
/// ```
pub fn remove_redundant<P: Prefix>(table: &mut FamilyTable<P>, alloc: Global) -> Result<(), Refusal>
    ensures same { OnOk result
        ((q : List Bool) → value_of table.new.entries q ≡ value_of table.old.entries q) }
    ensures least { OnOk result
        ((s : List Bool) (v : List ℕ) → get table.new.entries s ≡ Some v
        → value_above table.new.entries s ≢ Some v) }
    ensures part { OnOk result
        ((s : List Bool) (v : List ℕ) → get table.new.entries s ≡ Some v
        → get table.old.entries s ≡ Some v) }
    ensures only_memory { IfErr result (λ cause. cause ≡ Memory) }
    ensures unchanged { IfErr result (λ _. table.new ≡ table.old) }
{
    listing_laws::<Value>();
    aggregate_consistent(table, alloc)?;
    Ok(())
}
