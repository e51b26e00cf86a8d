//! A map that is filled and pruned. It has exactly the nodes that its keys need.
ghost use Rattle.std.specs.Prelude.{◌≡◌, IfOk};
ghost use Rattle.prefix_trie.specs.Terms.{needed, IsTidy};

use prefix_trie::laws::{listed_laws, node_laws, pruning_laws};
use prefix_trie::{Prefix, PrefixMap, Refusal};
use std::alloc::Allocator;

/// Removes the prefixes of one map from another. A tidy map stays tidy.
pub fn prune<P: Prefix, T: Drop, U: Drop, A: Allocator, B: Allocator>(
    map: &mut PrefixMap<P, T, A>,
    out: &PrefixMap<P, U, B>,
)
    requires { IsTidy map.old.entries map.old.nodes }
    ensures { IsTidy map.new.entries map.new.nodes }
{
    listed_laws::<P, U>();
    pruning_laws::<T>();
    for (prefix, _unused) in out {
        // Tells the proof that the nodes are those of a map.
        let _ = map.len();
        map.remove(&prefix);
    }
}

/// Copies the entries of one map, except those whose prefix is in another.
pub fn without<P: Prefix, T: Copy + Drop, U: Drop, A: Allocator>(
    from: &PrefixMap<P, T, A>,
    out: &PrefixMap<P, U, A>,
    alloc: A,
) -> Result<PrefixMap<P, T, A>, Refusal>
where
    A: Clone,
    ensures { IfOk result (λ map. map.nodes ≡ needed map.entries) }
{
    listed_laws::<P, T>();
    node_laws::<T>();
    let mut map = PrefixMap::new(alloc)?;
    for (prefix, value) in from {
        map.insert(prefix, *value)?;
    }
    prune(&mut map, out);
    Ok(map)
}
