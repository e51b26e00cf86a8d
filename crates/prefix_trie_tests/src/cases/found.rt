//! What lookups, walks and counts return, as tables write it.
use crate::cases::{Entry, Pair};
use prefix_trie::map::Iter;
use prefix_trie::{BlockCount, Prefix, PrefixMap};
use std::alloc::Allocator;

/// Returns a prefix as a pair.
pub fn pair_of<P: Prefix + Copy>(prefix: P) -> Pair<P::R> {
    (prefix.repr(), prefix.prefix_len())
}

/// Returns a prefix that was found as a pair.
pub fn as_pair<P: Prefix + Copy>(found: Option<P>) -> Option<Pair<P::R>> {
    match found {
        Some(prefix) => Some(pair_of(prefix)),
        None => None,
    }
}

/// Returns an entry that was found as tables write it.
pub fn as_entry<P: Prefix + Copy>(found: Option<(P, &u64)>) -> Option<Entry<P::R>> {
    match found {
        Some((prefix, value)) => Some((pair_of(prefix), *value)),
        None => None,
    }
}

/// Returns whether a walk returns these entries.
pub fn gives<P: Prefix + Copy, A: Allocator>(
    mut walk: Iter<'_, P, u64, A>,
    entries: &[Entry<P::R>],
) -> bool {
    for entry in entries {
        if as_entry(walk.next()) != Some(*entry) {
            return false;
        }
    }
    walk.next().is_none()
}

/// Returns the number of slots in all blocks.
fn slots_in(counts: &[BlockCount]) -> usize {
    let mut slots = 0_usize;
    for count in counts {
        let blocks = count.used.wrapping_add(count.free);
        slots = slots.wrapping_add(count.size.wrapping_mul(blocks));
    }
    slots
}

/// Returns whether each array is as long as its blocks and, in the array of nodes, the slot of the root.
pub fn slots_add_up<P: Prefix, A: Allocator>(map: &PrefixMap<P, u64, A>) -> bool {
    (map.node_slots() == slots_in(&map.node_blocks()).wrapping_add(1))
        & (map.cell_slots() == slots_in(&map.cell_blocks()))
}

/// Returns whether this many blocks of a size are used and free.
pub fn has_blocks(counts: &[BlockCount], size: usize, used: usize, free: usize) -> bool {
    counts.contains(&BlockCount { size, used, free })
}
