//! Merging one map into another.
ghost use Rattle.std.specs.Prelude.{◌≡◌, List, Bool, OnOk};
ghost use Rattle.std.specs.Option.{option_or};
ghost use Rattle.std.specs.FinMap.{get};

use prefix_trie::laws::put_laws;
use prefix_trie::{Prefix, PrefixMap, Refusal};
use std::alloc::Allocator;

/// Inserts all entries of one map into another. A prefix of both maps gets the new value. All other entries are kept.
pub fn merge<P: Prefix, T: Copy + Drop, A: Allocator, B: Allocator>(
    to: &mut PrefixMap<P, T, A>,
    from: &PrefixMap<P, T, B>,
) -> Result<(), Refusal>
    ensures { OnOk result
        ((s : List Bool)
        → get to.new.entries s ≡ option_or (get from.now.entries s) (get to.old.entries s)) }
{
    put_laws::<P, T>();
    for (prefix, value) in from {
        to.insert(prefix, *value)?;
    }
    Ok(())
}
