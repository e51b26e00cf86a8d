//! A table that is split along a prefix, and merged again.
ghost use Rattle.std.specs.Prelude.{◌≡◌, IfOk, OnOk};
ghost use Rattle.std.specs.FinMap.{len};
ghost use Rattle.prefix_trie.specs.Terms.{part_below};

use prefix_trie::laws::{put_laws, split_laws};
use prefix_trie::{Prefix, PrefixMap, Refusal};
use std::alloc::Allocator;

/// Splits the entries that a prefix contains off into a table of their own, and merges them again.
///
/// Returns their number.
pub fn split_and_merge<P: Prefix, T: Drop, A: Allocator + Clone>(
    table: &mut PrefixMap<P, T, A>,
    prefix: &P,
) -> Result<usize, Refusal>
    requires { P.IsFitting prefix.now }
    ensures count { IfOk result
        (λ count. count ≡ len (part_below table.old.entries (P.path prefix.now))) }
    ensures same { OnOk result (table.new.entries ≡ table.old.entries) }
{
    split_laws::<T>();
    put_laws::<P, T>();
    let part = table.remove_children(prefix)?;
    let count = part.len();
    for (key, value) in part {
        table.insert(key, value)?;
    }
    Ok(count)
}
