//! Making the groups of the path of a network.
ghost use Rattle.std.specs.Prelude.{◌≡◌, ◌+◌, ◌-◌, ◌*◌, ◌^◌, ◌<◌, ◌≤◌, slice_index, vec_len};
ghost use Rattle.prefix_trie_forwarding.specs.Counts.{IsCounted};
ghost use Rattle.prefix_trie_forwarding.specs.Keys.{IsDivided, first_of};
ghost use Rattle.prefix_trie_forwarding.specs.Paths.{IsEnd};
ghost use Rattle.prefix_trie_forwarding.specs.Slots.{AreGroups};
ghost use Rattle.prefix_trie_forwarding.specs.Walks.{GainsPath, HasPath, IsSame};

use super::find::GROUP;
use super::free::Groups;
use super::groups::make_group;
use super::path::End;
use super::reading::{byte_at, next_slot};
use prefix_trie_bits::prefix::Key;
use std::alloc::Allocator;

/// Makes the groups of the path of a network from its end on. No answer changes.
pub(super) fn link<K: Key, A: Allocator>(
    slots: &mut [u32],
    groups: &mut Groups<A>,
    root_bits: u32,
    levels: u32,
    first: K,
    len: u32,
    end: End,
)
    requires divided { IsDivided K.bit_width root_bits levels }
    requires len { len ≤ K.bit_width }
    requires set { AreGroups root_bits groups.old.made slots.old groups.old.free.items }
    requires end { IsEnd root_bits levels (slice_index slots.old)
        (first_of (root_bits + 8 * levels) (K.bits first)) len end }
    requires counted { IsCounted root_bits levels groups.old.made (slice_index slots.old)
        groups.old.free.items }
    requires enough { len ≤ end.depth + 8 * vec_len groups.old.free }
    ensures set { AreGroups root_bits groups.new.made slots.new groups.new.free.items }
    ensures counted { IsCounted root_bits levels groups.new.made (slice_index slots.new)
        groups.new.free.items }
    ensures made { groups.new.made ≡ groups.old.made }
    ensures same { IsSame (2 ^ root_bits) levels (slice_index slots.old) (slice_index slots.new) }
    ensures gains { GainsPath (2 ^ root_bits) levels
        (first_of (root_bits + 8 * levels) (K.bits first)) (root_bits + 8 * levels - len)
        (slice_index slots.old) (slice_index slots.new) }
    ensures path { HasPath (2 ^ root_bits) levels (slice_index slots.new)
        (first_of (root_bits + 8 * levels) (K.bits first)) (root_bits + 8 * levels - len) }
    ensures taken { 8 * vec_len groups.new.free + len ≤ end.depth + 8 * vec_len groups.old.free }
{
    // The proof learns from it that the number is a key.
    let _ = first.is_key();
    let mut depth = end.depth;
    let mut at = end.at;
    while depth < len {
        let group = groups.take();
        make_group(slots, root_bits, groups.made, at, group);
        at = next_slot(root_bits, GROUP + group, byte_at(first, depth));
        depth += 8;
    }
}
