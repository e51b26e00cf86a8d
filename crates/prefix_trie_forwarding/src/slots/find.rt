//! Lookups.
ghost use Rattle.std.specs.Prelude.{◌≡◌, ◌+◌, ◌*◌, ◌^◌, ◌<◌, ◌≤◌, length, slice_index};
ghost use Rattle.prefix_trie_forwarding.specs.Keys.{IsDivided, first_of};
ghost use Rattle.prefix_trie_forwarding.specs.Walks.{AreSlots, HasValues, answer};

use super::reading::{first_byte, next_slot, root_index};
use prefix_trie_bits::prefix::Key;

/// A slot that is at least this refers to a group.
pub(super) const GROUP: u32 = 0x8000_0000;

/// What an answer grows by with each bit of the length of its match: the number of hops.
pub(crate) const LENGTH: u32 = 0x0080_0000;

/// Returns the answer to an address, and the number of slots that it read: one, and one for each level that it went down.
#[inline(always)]
pub(super) fn find_counted<K: Key>(
    slots: &[u32],
    root_bits: u32,
    levels: u32,
    groups: usize,
    address: K,
) -> (u32, u32)
    requires divided { IsDivided K.bit_width root_bits levels }
    requires sizes { length slots.now ≡ 2 ^ root_bits + 256 * groups }
    requires slots { AreSlots groups (slice_index slots.now) }
    requires values { HasValues (2 ^ root_bits) levels (slice_index slots.now) }
    ensures answer { result.0 ≡ answer (2 ^ root_bits) levels (slice_index slots.now)
        (first_of (root_bits + 8 * levels) (K.bits address)) }
    ensures reads { result.1 ≤ 1 + levels }
{
    // The proof learns from it that the number is a key.
    let _ = address.is_key();
    let mut slot = slots[root_index(address, root_bits)];
    let mut rest = address.behind(root_bits);
    let mut reads = 1;
    while slot >= GROUP {
        slot = slots[next_slot(root_bits, slot, first_byte(rest))];
        reads += 1;
        rest = rest.behind(K::width().min(8));
    }
    (slot, reads)
}
