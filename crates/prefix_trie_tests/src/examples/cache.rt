//! A cache, which forgets all entries if a new one cannot be inserted.
ghost use Rattle.std.specs.Prelude.{◌≡◌, cond, IfOk, IfErr};
ghost use Rattle.prefix_trie.specs.Terms.{no_entries, with_entry};

use prefix_trie::{Prefix, PrefixMap, Refused};
use std::alloc::Allocator;

/// Stores a value.
///
/// Returns whether all other entries were kept. If the insertion fails, the cache forgets all entries and tries once
/// more.
///
/// # Errors
///
/// Returns the value back if the empty cache cannot store it either.
pub fn store<P: Prefix + Copy, T: Drop, A: Allocator>(
    cache: &mut PrefixMap<P, T, A>,
    prefix: P,
    value: T,
) -> Result<bool, Refused<T>>
    requires { P.IsFitting prefix }
    ensures stored { IfOk result
        (λ kept. cache.new.entries
        ≡ with_entry (cond kept cache.old.entries no_entries) (P.path prefix) value) }
    ensures refused { IfErr result
        (λ refused. (cache.new.entries ≡ no_entries) × (refused.value ≡ value)) }
{
    match cache.insert(prefix, value) {
        Ok(_) => Ok(true),
        Err(refused) => {
            cache.clear();
            cache.insert(prefix, refused.value)?;
            Ok(false)
        }
    }
}
