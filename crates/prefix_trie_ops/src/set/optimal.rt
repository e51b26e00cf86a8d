//! The set with the fewest keys for the same addresses.
ghost use Rattle.std.specs.Prelude.{◌≡◌, true, false, List, Bool, IfErr, IfOk, OnOk};
ghost use Rattle.std.specs.FinMap.{contains_key};
ghost use Rattle.prefix_trie_bits.specs.declared.prefix.Refusal.TheVariants.{IndexRange};
ghost use Rattle.prefix_trie.specs.Terms.{needed};
ghost use Rattle.prefix_trie_ops.specs.Covered.{is_below_another};
ghost use Rattle.prefix_trie_ops.specs.SmallestSets.{CoverMayExceedLimit, CoverSameAddresses, HasNoSiblings, IsSmallestCover};

use crate::map;
use prefix_trie::laws::lookup_laws;
use prefix_trie::{Prefix, PrefixSet, Refusal};
use std::alloc::Allocator;

/// Replaces the keys by as few as cover the same addresses.
///
/// The same addresses are covered as before: those that a key contains. No set that covers them has fewer keys. No key
/// covers another, and no two keys differ in their last bit alone. A shorter question may be covered that was not
/// covered before. The set keeps its slot limit.
///
/// The time grows with the number of bits of the keys; bits that keys share count once. The new set is built beside the
/// old one and replaces it. The call also needs memory for a copy of the keys, and for a few numbers for each of these
/// bits. `shrink_to_fit` returns the capacity that the new set does not use.
///
/// # Errors
///
/// Returns `Memory` if an allocation fails, and `IndexRange` if the new set exceeds the slot limit. This needs many
/// keys: each makes at most 56 slots of an array. The set is unchanged then.
///
/// # Examples
///
/// ```rust
/// // set = {10.0.0.0/9, 10.128.0.0/9, 10.1.0.0/16, 11.0.0.0/9}
/// aggregate(&mut set, alloc)?;
/// set.iter();     // [10.0.0.0/8, 11.0.0.0/9]
/// ```
pub fn aggregate<P: Prefix, A: Allocator + Clone, B: Allocator>(
    set: &mut PrefixSet<P, A>,
    alloc: B,
) -> Result<(), Refusal>
    ensures addresses { IfOk result
        (λ _. CoverSameAddresses P.R.bit_width set.new.entries set.old.entries) }
    ensures smallest { IfOk result (λ _. IsSmallestCover P.R.bit_width set.new.entries) }
    ensures uncovered { IfOk result
        (λ _. (s : List Bool) → contains_key set.new.entries s ≡ true
        → is_below_another set.new.entries s ≡ false) }
    ensures no_siblings { IfOk result (λ _. HasNoSiblings set.new.entries) }
    ensures nodes { OnOk result (set.new.nodes ≡ needed set.new.entries) }
    ensures limit { OnOk result (set.new.space.limit ≡ set.old.space.limit) }

    // `IndexRange` comes only if 56 slots for each key of any set that covers these addresses would exceed the limit.
    ensures range { IfErr result (λ cause. cause ≡ IndexRange
        → CoverMayExceedLimit P.R.bit_width set.old.space.limit set.old.entries) }
    ensures unchanged { IfErr result (λ _. set.new ≡ set.old) }
{
    let made = aggregated(set, alloc)?;
    *set = made;
    Ok(())
}

/// Returns the set that `aggregate` would leave, in memory of its own.
///
/// The new set has clones of this set's allocators and its slot limit.
///
/// # Errors
///
/// Returns `Memory` if an allocation fails, and `IndexRange` if the new set exceeds the slot limit. No set exists then.
///
/// # Examples
///
/// ```rust
/// // set = {10.0.0.0/9, 10.128.0.0/9, 11.0.0.0/9}
/// aggregated(&set, alloc)?.iter();    // [10.0.0.0/8, 11.0.0.0/9]
/// set.len();                          // 3
/// ```
pub fn aggregated<P: Prefix, A: Allocator + Clone, B: Allocator>(
    set: &PrefixSet<P, A>,
    alloc: B,
) -> Result<PrefixSet<P, A>, Refusal>
    ensures addresses { IfOk result
        (λ made. CoverSameAddresses P.R.bit_width made.entries set.now.entries) }
    ensures smallest { IfOk result (λ made. IsSmallestCover P.R.bit_width made.entries) }
    ensures uncovered { IfOk result
        (λ made. (s : List Bool) → contains_key made.entries s ≡ true
        → is_below_another made.entries s ≡ false) }
    ensures no_siblings { IfOk result (λ made. HasNoSiblings made.entries) }
    ensures nodes { IfOk result (λ made. made.nodes ≡ needed made.entries) }
    ensures limit { IfOk result (λ made. made.space.limit ≡ set.now.space.limit) }
    ensures range { IfErr result (λ cause. cause ≡ IndexRange
        → CoverMayExceedLimit P.R.bit_width set.now.space.limit set.now.entries) }
{
    lookup_laws::<P, ()>();
    let made = map::aggregated(set.as_map(), alloc)?;
    // The proof learns from it that no key is longer than the width.
    let _ = made.len();
    Ok(PrefixSet::from_map(made))
}
