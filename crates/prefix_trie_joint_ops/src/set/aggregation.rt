//! Joint sets with fewer networks that cover the same addresses.
ghost use Rattle.std.specs.Prelude.{◌≡◌, ◌⊎◌, Bool, true, false, List, IfErr, IfOk, OnOk};
ghost use Rattle.std.specs.Option.{is_some};
ghost use Rattle.std.specs.FinMap.{contains_key};
ghost use Rattle.prefix_trie_bits.specs.declared.prefix.Refusal.TheVariants.{IndexRange, Memory};
ghost use Rattle.prefix_trie.specs.Terms.{needed, shortest_match};
ghost use Rattle.prefix_trie_ops.specs.Covered.{is_below_another, without_covered};
ghost use Rattle.prefix_trie_ops.specs.SmallestSets.{CoverMayExceedLimit};
ghost use Rattle.prefix_trie_joint.specs.Changes.{limits_of, sets_of};
ghost use Rattle.prefix_trie_joint.specs.Joined.{keys_of};
ghost use Rattle.prefix_trie_joint_ops.specs.Smallest.{CoverSameAddresses, HasNoSiblings, IsSmallestCover};

use prefix_trie::Refusal;
use prefix_trie::laws::lookup_laws;
use prefix_trie_joint::{IpPrefix, JointPrefixSet};
use prefix_trie_ops::set::{self, keep_marked, marks_of};
use std::alloc::Allocator;

/// Removes each network that a shorter one of its family covers.
///
/// `is_covered` returns the same as before for every question, of any length. No such network is left. Nodes that no
/// remaining network needs are removed, and the slot limits stay. See `prefix_trie_ops::set::aggregate_consistent` for the
/// memory that it takes.
///
/// # Errors
///
/// Returns `Memory` if an allocation fails. The set is unchanged then, in both families.
///
/// # Examples
///
/// ```rust
/// // set = {10.0.0.0/8, 10.1.0.0/16, ::/0, 2001:db8::/32}
/// aggregate_consistent(&mut set, alloc)?;
/// set.len();                  // 2
/// set.iter().next();          // Some(V4(10.0.0.0/8))
/// ```
pub fn aggregate_consistent<A: Allocator, B: Allocator>(
    set: &mut JointPrefixSet<A>,
    alloc: B,
) -> Result<(), Refusal>
    ensures entries { OnOk result (keys_of set.new ≡ without_covered (keys_of set.old)) }
    ensures nodes { OnOk result ((set.new.ipv4.nodes ≡ needed set.new.ipv4.entries)
        × (set.new.ipv6.nodes ≡ needed set.new.ipv6.entries)) }
    ensures limit { OnOk result (limits_of (sets_of set.new) ≡ limits_of (sets_of set.old)) }
    ensures covered { OnOk result ((q : List Bool) → is_some (shortest_match (keys_of set.new) q)
        ≡ is_some (shortest_match (keys_of set.old) q)) }
    ensures uncovered { OnOk result ((s : List Bool) → contains_key (keys_of set.new) s ≡ true
        → is_below_another (keys_of set.new) s ≡ false) }
    ensures only_memory { IfErr result (λ cause. cause ≡ Memory) }
    ensures unchanged { IfErr result (λ _. set.new ≡ set.old) }
{
    lookup_laws::<IpPrefix, ()>();
    let ipv4 = marks_of(&set.ipv4, &alloc)?;
    let ipv6 = marks_of(&set.ipv6, &alloc)?;
    keep_marked(&mut set.ipv4, ipv4.as_slice());
    keep_marked(&mut set.ipv6, ipv6.as_slice());
    Ok(())
}

/// Replaces the networks of each family by as few as cover the same addresses.
///
/// The same addresses are covered as before, and no joint set that covers them has fewer networks. No network covers
/// another, and no two networks of a family differ in their last bit alone. Each family is aggregated by itself:
/// 0.0.0.0/0 and ::/0 stay two networks. The slot limits stay. See `prefix_trie_ops::set::aggregate` for the time and
/// memory it takes.
///
/// # Errors
///
/// Returns `Memory` if an allocation fails, and `IndexRange` if a new set exceeds the slot limit. The set is unchanged
/// then, in both families.
///
/// # Examples
///
/// ```rust
/// // set = {0.0.0.0/1, 128.0.0.0/1, ::/0, 2001:db8::/32}
/// aggregate(&mut set, alloc)?;
/// set.len();                  // 2: 0.0.0.0/0 and ::/0
/// set.iter().next();          // Some(V4(0.0.0.0/0))
/// ```
pub fn aggregate<A: Allocator + Clone, B: Allocator>(
    set: &mut JointPrefixSet<A>,
    alloc: B,
) -> Result<(), Refusal>
    ensures addresses { IfOk result (λ _. CoverSameAddresses (keys_of set.new) (keys_of set.old)) }
    ensures smallest { IfOk result (λ _. IsSmallestCover (keys_of set.new)) }
    ensures uncovered { IfOk result
        (λ _. (s : List Bool) → contains_key (keys_of set.new) s ≡ true
        → is_below_another (keys_of set.new) s ≡ false) }
    ensures no_siblings { IfOk result (λ _. HasNoSiblings (keys_of set.new)) }
    ensures nodes { IfOk result (λ _. (set.new.ipv4.nodes ≡ needed set.new.ipv4.entries)
        × (set.new.ipv6.nodes ≡ needed set.new.ipv6.entries)) }
    ensures limit { IfOk result (λ _. limits_of (sets_of set.new) ≡ limits_of (sets_of set.old)) }

    // `IndexRange` comes only if 56 slots for each key of any set that covers the addresses of one family would exceed its limit.
    ensures range { IfErr result (λ cause. cause ≡ IndexRange
        → CoverMayExceedLimit 32 set.old.ipv4.space.limit set.old.ipv4.entries
        ⊎ CoverMayExceedLimit 128 set.old.ipv6.space.limit set.old.ipv6.entries) }
    ensures unchanged { IfErr result (λ _. set.new ≡ set.old) }
{
    let made = aggregated(set, alloc)?;
    *set = made;
    Ok(())
}

/// Returns the set that `aggregate` would leave, in memory of its own.
///
/// The new set has clones of this set's allocators and its slot limits.
///
/// # Errors
///
/// Returns `Memory` if an allocation fails, and `IndexRange` if a new set exceeds the slot limit. No set exists then.
///
/// # Examples
///
/// ```rust
/// // set = {10.0.0.0/9, 10.128.0.0/9, ::/0}
/// aggregated(&set, alloc)?.len();     // 2
/// set.len();                          // 3
/// ```
pub fn aggregated<A: Allocator + Clone, B: Allocator>(
    set: &JointPrefixSet<A>,
    alloc: B,
) -> Result<JointPrefixSet<A>, Refusal>
    ensures addresses { IfOk result
        (λ made. CoverSameAddresses (keys_of made) (keys_of set.now)) }
    ensures smallest { IfOk result (λ made. IsSmallestCover (keys_of made)) }
    ensures uncovered { IfOk result
        (λ made. (s : List Bool) → contains_key (keys_of made) s ≡ true
        → is_below_another (keys_of made) s ≡ false) }
    ensures no_siblings { IfOk result (λ made. HasNoSiblings (keys_of made)) }
    ensures nodes { IfOk result (λ made. (made.ipv4.nodes ≡ needed made.ipv4.entries)
        × (made.ipv6.nodes ≡ needed made.ipv6.entries)) }
    ensures limit { IfOk result (λ made. limits_of (sets_of made) ≡ limits_of (sets_of set.now)) }
    ensures range { IfErr result (λ cause. cause ≡ IndexRange
        → CoverMayExceedLimit 32 set.now.ipv4.space.limit set.now.ipv4.entries
        ⊎ CoverMayExceedLimit 128 set.now.ipv6.space.limit set.now.ipv6.entries) }
{
    let ipv4 = set::aggregated(&set.ipv4, &alloc)?;
    let ipv6 = set::aggregated(&set.ipv6, &alloc)?;
    Ok(JointPrefixSet { ipv4, ipv6 })
}
