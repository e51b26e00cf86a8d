//! Giving back the groups that a removed network no longer needs.
ghost use Rattle.std.specs.Prelude.{◌≡◌, ◌+◌, ◌-◌, ◌*◌, ◌≤◌, slice_index};
ghost use Rattle.prefix_trie_forwarding.specs.Counts.{IsCounted};
ghost use Rattle.prefix_trie_forwarding.specs.Keys.{IsDivided, first_of};
ghost use Rattle.prefix_trie_forwarding.specs.Slots.{AreGroups, Trims};

use super::find::{GROUP, LENGTH};
use super::free::Groups;
use super::groups::is_spare;
use super::path::walk;
use super::reading::power;
use prefix_trie_bits::prefix::Key;
use std::alloc::Allocator;

/// Gives back the groups of the path of a network whose addresses have one answer, of a match no longer than their block.
///
/// It begins with the last one, and stops at the first that is used.
#[inline]
pub(super) fn trim<K: Key, A: Allocator>(
    slots: &mut [u32],
    groups: &mut Groups<A>,
    root_bits: u32,
    levels: u32,
    first: K,
    len: u32,
)
    requires divided { IsDivided K.bit_width root_bits levels }
    requires len { len ≤ K.bit_width }
    requires set { AreGroups root_bits groups.old.made slots.old groups.old.free.items }
    requires counted { IsCounted root_bits levels groups.old.made (slice_index slots.old)
        groups.old.free.items }
    ensures counted { IsCounted root_bits levels groups.new.made (slice_index slots.new)
        groups.new.free.items }
    ensures set { AreGroups root_bits groups.new.made slots.new groups.new.free.items }
    ensures made { groups.new.made ≡ groups.old.made }
    ensures trims { Trims root_bits levels (first_of (root_bits + 8 * levels) (K.bits first))
        (root_bits + 8 * levels - len) (slice_index slots.old) (slice_index slots.new) }
{
    // The proof learns from it that the number is a key.
    let _ = first.is_key();
    let mut end = walk(slots, root_bits, levels, groups.made, first, len);
    'trim: while let Some(at) = end.before {
        let group = slots[at] - GROUP;
        let low = power(root_bits) + 256 * group as usize;
        if !is_spare(slots, low, (end.depth - 6) * LENGTH) {
            return;
        }
        slots[at] = slots[low];
        groups.give(group);
        end = walk(slots, root_bits, levels, groups.made, first, len);
    }
}
