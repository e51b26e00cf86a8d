//! Taking free groups into use, and giving them back.
ghost use Rattle.std.specs.Prelude.{◌≡◌, ◌≢◌, ◌⊎◌, ℕ, ◌+◌, ◌*◌, ◌%◌, ◌^◌, ◌<◌, ◌≤◌, ◌++◌, ◌∷◌, [], IfErr, IsOk, List, OnErr, OnOk, false, true, length, slice_index, vec_len};
ghost use Rattle.std.proofs.Common.{suc};
ghost use Rattle.prefix_trie_bits.specs.declared.prefix.Refusal.TheVariants.{IndexRange, Memory};
ghost use Rattle.prefix_trie_forwarding.specs.Refusals.{LacksGroups};
ghost use Rattle.prefix_trie_forwarding.specs.Slots.{AreGroups};
ghost use Rattle.prefix_trie_forwarding.specs.Walks.{AgreesOutside, AreFree, AreSlots, GainsGroup, IsAddress, IsSame, Reaches};

use super::find::GROUP;
use super::free::Groups;
use super::reading::power;
use prefix_trie_bits::prefix::Refusal;
use std::alloc::Allocator;

/// Writes an answer into each slot of a group.
fn fill_group(slots: &mut [u32], low: usize, answer: u32)
    requires fits { low + 256 ≤ length slots.old }
    ensures outside { AgreesOutside low (low + 256)
        (slice_index slots.old) (slice_index slots.new) }
    ensures inside { (y : ℕ) → low ≤ y → y < low + 256 → slice_index slots.new y ≡ answer }
{
    for i in low..low + 256 {
        slots[i] = answer;
    }
}

/// Makes a group of a free one in the place of an answer, and returns it. No answer changes.
pub(super) fn make_group(slots: &mut [u32], root_bits: u32, groups: usize, at: usize, group: u32)
    requires bits { root_bits ≤ 24 }
    requires sizes { length slots.old ≡ 2 ^ root_bits + 256 * groups }
    requires known { group < groups }
    requires few { groups ≤ 2147483648 }
    requires at { at < length slots.old }
    requires answer { slice_index slots.old at < 2147483648 }
    requires slots { AreSlots groups (slice_index slots.old) }
    requires unused { (x : ℕ) → slice_index slots.old x ≢ 2147483648 + group }
    ensures slots { AreSlots groups (slice_index slots.new) }
    ensures same { (levels b n k : ℕ) → IsAddress (2 ^ root_bits) levels b
        → Reaches (2 ^ root_bits) levels (slice_index slots.old) b n (suc k) at
        → IsSame (2 ^ root_bits) levels (slice_index slots.old) (slice_index slots.new) }
    ensures gains { (levels b n k : ℕ) → IsAddress (2 ^ root_bits) levels b
        → Reaches (2 ^ root_bits) levels (slice_index slots.old) b n (suc k) at
        → GainsGroup (2 ^ root_bits) levels b k (slice_index slots.old) (slice_index slots.new) }
    ensures link { slice_index slots.new at ≡ 2147483648 + group }
    ensures reached { (levels b n k : ℕ) → IsAddress (2 ^ root_bits) levels b
        → Reaches (2 ^ root_bits) levels (slice_index slots.old) b n (suc k) at
        → Reaches (2 ^ root_bits) levels (slice_index slots.new) b n (suc k) at }
    ensures inside { (levels b n k : ℕ) → IsAddress (2 ^ root_bits) levels b
        → Reaches (2 ^ root_bits) levels (slice_index slots.old) b n (suc k) at
        → (q : ℕ) → slice_index slots.new (2 ^ root_bits + 256 * group + q % 256) < 2147483648 }
    ensures free { (free : List ℕ) → AreFree groups (slice_index slots.old) (free ++ group ∷ [])
        → AreFree groups (slice_index slots.new) free }
{
    let answer = slots[at];
    let root = power(root_bits);
    fill_group(slots, root + 256 * group as usize, answer);
    slots[at] = GROUP + group;
}

/// Returns whether a group may be given back: all its slots have one answer, which is below a limit.
pub(super) fn is_spare(slots: &[u32], low: usize, limit: u32) -> bool
    requires fits { low + 256 ≤ length slots.now }
    requires limit { limit ≤ 2147483648 }
    ensures spare { result ≡ true → (slice_index slots.now low < limit)
        × ((y : ℕ) → low ≤ y → y < low + 256
        → slice_index slots.now y ≡ slice_index slots.now low) }
    ensures used { result ≡ false → (limit ≤ slice_index slots.now low)
        ⊎ ((y : ℕ) × (low ≤ y) × (y < low + 256)
        × (slice_index slots.now y ≢ slice_index slots.now low)) }
{
    let answer = slots[low];
    if answer >= limit {
        return false;
    }
    for i in low..low + 256 {
        if slots[i] != answer {
            return false;
        }
    }
    true
}

/// Makes sure that so many groups are free, and makes no more than are missing. No slot changes.
///
/// # Errors
///
/// Returns `Memory` if an allocation fails, `IndexRange` if there would be more than 2^31 groups.
#[inline]
pub(super) fn reserve<A: Allocator>(
    slots: &mut Vec<u32, A>,
    groups: &mut Groups<A>,
    root_bits: u32,
    missing: usize,
) -> Result<(), Refusal>
    requires few { root_bits ≤ 24 }
    requires set { AreGroups root_bits groups.old.made slots.old.items groups.old.free.items }
    ensures points { (x : ℕ) → slice_index slots.new.items x ≡ slice_index slots.old.items x }
    ensures set { AreGroups root_bits groups.new.made slots.new.items groups.new.free.items }
    ensures as_many { groups.new.made + vec_len groups.old.free
        ≡ groups.old.made + vec_len groups.new.free }
    ensures enough { OnOk result (missing ≤ vec_len groups.new.free) }
    ensures made { OnOk result ((groups.new.made ≡ groups.old.made)
        ⊎ ((0 < missing) × (vec_len groups.new.free ≤ missing))) }
    ensures spare { missing ≤ vec_len groups.old.free → IsOk result }
    ensures refused { IfErr result
        (λ cause. LacksGroups groups.new.made (vec_len groups.new.free) missing cause) }
{
    while groups.free.len() < missing {
        add_group(slots, groups, root_bits)?;
    }
    Ok(())
}

/// Adds a free group.
///
/// # Errors
///
/// Returns `Memory` if an allocation fails, `IndexRange` if there would be more than 2^31 groups.
fn add_group<A: Allocator>(
    slots: &mut Vec<u32, A>,
    groups: &mut Groups<A>,
    root_bits: u32,
) -> Result<(), Refusal>
    requires few { root_bits ≤ 24 }
    requires set { AreGroups root_bits groups.old.made slots.old.items groups.old.free.items }
    ensures points { (x : ℕ) → slice_index slots.new.items x ≡ slice_index slots.old.items x }
    ensures set { AreGroups root_bits groups.new.made slots.new.items groups.new.free.items }
    ensures more { OnOk result (vec_len groups.new.free ≡ vec_len groups.old.free + 1) }
    ensures as_many { groups.new.made + vec_len groups.old.free
        ≡ groups.old.made + vec_len groups.new.free }
    ensures unchanged { OnErr result (groups.new.made ≡ groups.old.made) }
    ensures range { IfErr result
        (λ cause. cause ≡ IndexRange → groups.old.made ≡ 2147483648) }
    ensures memory { IfErr result (λ cause. cause ≡ Memory → groups.old.made < 2147483648) }
{
    if groups.made >= GROUP as usize {
        return Err(Refusal::IndexRange);
    }
    groups.reserve()?;
    slots.resize(slots.len() + 256, 0)?;
    groups.add();
    Ok(())
}
