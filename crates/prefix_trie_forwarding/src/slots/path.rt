//! The path of a network: the slots that its addresses read one after another.
ghost use Rattle.std.specs.Prelude.{◌≡◌, ◌+◌, ◌*◌, ◌^◌, ◌≤◌, length, slice_index};
ghost use Rattle.prefix_trie_forwarding.specs.Keys.{IsDivided, first_of};
ghost use Rattle.prefix_trie_forwarding.specs.Paths.{IsEnd};
ghost use Rattle.prefix_trie_forwarding.specs.Walks.{AreSlots};

use super::find::GROUP;
use super::reading::{byte_at, next_slot, root_index};
use prefix_trie_bits::prefix::Key;

/// Where the path of a network ends, for now: at its slots, or at an answer before them.
#[derive(Clone, Copy)]
pub(crate) struct End {
    /// The slot.
    pub(super) at: usize,
    /// How many bits select it.
    pub(super) depth: u32,
    /// The slot before it, which refers to its group, if it is in a group.
    pub(super) before: Option<usize>,
}

/// Walks along the path of a network, as far as groups lead.
#[inline]
pub(super) fn walk<K: Key>(
    slots: &[u32],
    root_bits: u32,
    levels: u32,
    groups: usize,
    first: K,
    len: u32,
) -> End
    requires divided { IsDivided K.bit_width root_bits levels }
    requires len { len ≤ K.bit_width }
    requires sizes { length slots.now ≡ 2 ^ root_bits + 256 * groups }
    requires slots { AreSlots groups (slice_index slots.now) }
    ensures { IsEnd root_bits levels (slice_index slots.now)
        (first_of (root_bits + 8 * levels) (K.bits first)) len result }
{
    // The proof learns from it that the number is a key.
    let _ = first.is_key();
    let mut depth = root_bits;
    let mut at = root_index(first, root_bits);
    let mut before = None;
    while depth < len && slots[at] >= GROUP {
        before = Some(at);
        at = next_slot(root_bits, slots[at], byte_at(first, depth));
        depth += 8;
    }
    End { at, depth, before }
}
