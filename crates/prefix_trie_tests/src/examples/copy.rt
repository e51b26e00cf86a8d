//! A copy of a map that uses another allocator.
ghost use Rattle.std.specs.Prelude.{◌≡◌, IfOk};

use prefix_trie::laws::put_laws;
use prefix_trie::{Prefix, PrefixMap, Refusal};
use std::alloc::Allocator;

/// Copies the entries of a map into a new one.
pub fn copy_of<P: Prefix, T: Copy + Drop, A: Allocator, B: Allocator + Clone>(
    from: &PrefixMap<P, T, A>,
    alloc: B,
) -> Result<PrefixMap<P, T, B>, Refusal>
    ensures { IfOk result (λ to. to.entries ≡ from.now.entries) }
{
    put_laws::<P, T>();
    let mut to = PrefixMap::new(alloc)?;
    for (prefix, value) in from {
        to.insert(prefix, *value)?;
    }
    Ok(to)
}
