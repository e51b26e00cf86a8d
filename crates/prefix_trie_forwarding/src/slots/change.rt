//! Changing the answers to the addresses of a network.
ghost use Rattle.std.specs.Prelude.{◌≡◌, ◌+◌, ◌-◌, ◌*◌, ◌%◌, ◌^◌, ◌<◌, ◌≤◌, length, slice_index};
ghost use Rattle.prefix_trie_forwarding.specs.Keys.{IsDivided, first_of};
ghost use Rattle.prefix_trie_forwarding.specs.Walks.{AreChanged, AreSlots, HasPath, HasValues, IsChanged, IsChangedBy, changed as changed_by};

use super::find::GROUP;
use super::path::walk;
use super::reading::power;
use prefix_trie_bits::prefix::Key;

/// What answers become.
#[derive(Clone, Copy)]
pub(crate) struct Change {
    /// The least answer that changes.
    pub(crate) least: u32,
    /// The greatest answer that changes.
    pub(crate) most: u32,
    /// What such an answer becomes.
    pub(crate) to: u32,
}

/// Returns what an answer becomes.
#[inline(always)]
fn changed(answer: u32, change: Change) -> u32
    ensures { result ≡ changed_by change.least change.most change.to answer }
{
    if change.least <= answer && answer <= change.most {
        change.to
    } else {
        answer
    }
}

/// Changes the answers of slots that follow one another, and of the groups below them.
fn change_run(
    slots: &mut [u32],
    root: usize,
    groups: usize,
    low: usize,
    count: usize,
    left: u32,
    change: Change,
)
    requires fits { low + count ≤ length slots.old }
    requires sizes { length slots.old ≡ root + 256 * groups }
    requires small { change.to < 2147483648 }
    requires slots { AreSlots groups (slice_index slots.old) }
    ensures changed { AreChanged root (changed_by change.least change.most change.to) left low count
        (slice_index slots.old) (slice_index slots.new) (low + count) }
    ensures kept { AreSlots groups (slice_index slots.new) }
{
    for at in low..low + count {
        let slot = slots[at];
        if slot < GROUP {
            let answer = changed(slot, change);
            slots[at] = answer;
        } else if left > 0 {
            let below = root + 256 * (slot - GROUP) as usize;
            change_run(slots, root, groups, below, 256, left - 1, change);
        }
    }
}

/// Changes the answers of slots that follow one another, and of the groups below them. A single answer takes no loop.
#[inline(always)]
fn change_slots(
    slots: &mut [u32],
    root: usize,
    groups: usize,
    low: usize,
    count: usize,
    left: u32,
    change: Change,
)
    requires fits { low + count ≤ length slots.old }
    requires sizes { length slots.old ≡ root + 256 * groups }
    requires small { change.to < 2147483648 }
    requires slots { AreSlots groups (slice_index slots.old) }
    ensures changed { AreChanged root (changed_by change.least change.most change.to) left low count
        (slice_index slots.old) (slice_index slots.new) (low + count) }
    ensures kept { AreSlots groups (slice_index slots.new) }
{
    if count == 1 && slots[low] < GROUP {
        let answer = changed(slots[low], change);
        slots[low] = answer;
    } else {
        change_run(slots, root, groups, low, count, left, change);
    }
}

/// Changes the answers to the addresses that begin with the first `len` bits of `first`, for which groups are there.
#[inline(always)]
pub(super) fn change_network<K: Key>(
    slots: &mut [u32],
    root_bits: u32,
    levels: u32,
    groups: usize,
    first: K,
    len: u32,
    change: Change,
)
    requires divided { IsDivided K.bit_width root_bits levels }
    requires len { len ≤ K.bit_width }
    requires sizes { length slots.old ≡ 2 ^ root_bits + 256 * groups }
    requires small { change.to < 2147483648 }
    requires aligned { first_of (root_bits + 8 * levels) (K.bits first)
        % 2 ^ (root_bits + 8 * levels - len) ≡ 0 }
    requires slots { AreSlots groups (slice_index slots.old) }
    requires values { HasValues (2 ^ root_bits) levels (slice_index slots.old) }
    requires path { HasPath (2 ^ root_bits) levels (slice_index slots.old)
        (first_of (root_bits + 8 * levels) (K.bits first)) (root_bits + 8 * levels - len) }
    ensures changed { IsChanged (2 ^ root_bits) levels
        (first_of (root_bits + 8 * levels) (K.bits first)) (root_bits + 8 * levels - len)
        (changed_by change.least change.most change.to)
        (slice_index slots.old) (slice_index slots.new) }
    ensures by { IsChangedBy (changed_by change.least change.most change.to)
        (slice_index slots.old) (slice_index slots.new) }
    ensures slots { AreSlots groups (slice_index slots.new) }
{
    // The proof learns from it that the number is a key.
    let _ = first.is_key();
    let end = walk(slots, root_bits, levels, groups, first, len);
    let left = (root_bits + 8 * levels - end.depth) / 8;
    let root = power(root_bits);
    let count = power(end.depth - len);
    change_slots(slots, root, groups, end.at, count, left, change);
}
