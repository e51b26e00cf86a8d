//! Joint maps with fewer entries for the same lookups, or for the same lookups of addresses.
ghost use Rattle.std.specs.Prelude.{◌≡◌, ◌⊎◌, Bool, true, false, List, IfErr, IfOk, OnOk};
ghost use Rattle.prefix_trie_bits.specs.declared.prefix.Refusal.TheVariants.{IndexRange, Memory};
ghost use Rattle.prefix_trie.specs.Terms.{needed};
ghost use Rattle.prefix_trie_ops.specs.Values.{is_redundant, value_of, without_redundant};
ghost use Rattle.prefix_trie_ops.specs.Smallest.{MayExceedLimit};
ghost use Rattle.prefix_trie_joint.specs.Changes.{limits_of, maps_of};
ghost use Rattle.prefix_trie_joint.specs.Joined.{entries_of};
ghost use Rattle.prefix_trie_joint_ops.specs.Smallest.{HaveSameAnswers, IsSmallest};

use prefix_trie::Refusal;
use prefix_trie::laws::lookup_laws;
use prefix_trie_joint::{IpPrefix, JointPrefixMap};
use prefix_trie_ops::map::{self, keep_marked, marks_of};
use std::alloc::Allocator;

/// Removes each entry whose longest shorter entry of its family has an equal value.
///
/// Every question, of any length, has the same longest-match value as before. No such entry is left. Nodes that no
/// remaining entry needs are removed, and the slot limits stay. See `prefix_trie_ops::map::aggregate_consistent` for the
/// memory that it takes.
///
/// # Errors
///
/// Returns `Memory` if an allocation fails. The map is unchanged then, in both families.
///
/// # Examples
///
/// ```rust
/// // map = {0.0.0.0/0: 1, 10.0.0.0/8: 1, ::/0: 1, 2001:db8::/32: 2}
/// aggregate_consistent(&mut map, alloc)?;
/// map.values();       // [1, 1, 2]: 0.0.0.0/0 and ::/0 stay, since the families are apart
/// ```
pub fn aggregate_consistent<T: PartialEq + Drop, A: Allocator, B: Allocator>(
    table: &mut JointPrefixMap<T, A>,
    alloc: B,
) -> Result<(), Refusal>
    ensures entries { OnOk result
        (entries_of table.new ≡ without_redundant T.PartialEq.eq (entries_of table.old)) }
    ensures nodes { OnOk result ((table.new.ipv4.nodes ≡ needed table.new.ipv4.entries)
        × (table.new.ipv6.nodes ≡ needed table.new.ipv6.entries)) }
    ensures limit { OnOk result (limits_of (maps_of table.new) ≡ limits_of (maps_of table.old)) }

    // In the next two clauses, values that `==` calls equal are the same.
    ensures values { OnOk result (((x y : T) → T.PartialEq.eq x y ≡ true → x ≡ y)
        → (q : List Bool) → value_of (entries_of table.new) q ≡ value_of (entries_of table.old) q) }
    ensures none_redundant { OnOk result (((x y : T) → T.PartialEq.eq x y ≡ true → x ≡ y)
        → (s : List Bool) → is_redundant T.PartialEq.eq (entries_of table.new) s ≡ false) }
    ensures only_memory { IfErr result (λ cause. cause ≡ Memory) }
    ensures unchanged { IfErr result (λ _. table.new ≡ table.old) }
{
    lookup_laws::<IpPrefix, T>();
    let ipv4 = marks_of(&table.ipv4, &alloc)?;
    let ipv6 = marks_of(&table.ipv6, &alloc)?;
    keep_marked(&mut table.ipv4, ipv4.as_slice());
    keep_marked(&mut table.ipv6, ipv6.as_slice());
    Ok(())
}

/// Replaces the entries of each family by as few as the same lookups of addresses need.
///
/// Every address has the same longest-match value as before, or still none. No joint map with the same answers to
/// addresses has fewer entries. Each family is aggregated by itself: 0.0.0.0/0 and ::/0 with one value stay two entries.
/// The slot limits stay. See `prefix_trie_ops::map::aggregate` for the time and memory it takes.
///
/// # Errors
///
/// Returns `Memory` if an allocation fails, and `IndexRange` if a new map exceeds the slot limit. The map is unchanged
/// then, in both families.
///
/// # Examples
///
/// ```rust
/// // map = {10.0.0.0/9: 1, 10.128.0.0/9: 1, 2001:db8::/33: 2, 2001:db8:8000::/33: 2}
/// aggregate(&mut map, alloc)?;
/// map.values();           // [1, 2]
/// map.iter().next();      // Some((V4(10.0.0.0/8), 1))
/// ```
pub fn aggregate<T: Copy + Ord, A: Allocator + Clone, B: Allocator>(
    table: &mut JointPrefixMap<T, A>,
    alloc: B,
) -> Result<(), Refusal>
    // In the next three clauses, values that `==` calls equal are the same.
    ensures values { IfOk result (λ _. ((x y : T) → T.PartialEq.eq x y ≡ true → x ≡ y)
        → HaveSameAnswers (entries_of table.new) (entries_of table.old)) }
    ensures smallest { IfOk result (λ _. ((x y : T) → T.PartialEq.eq x y ≡ true → x ≡ y)
        → IsSmallest (entries_of table.new)) }
    ensures none_redundant { IfOk result (λ _. ((x y : T) → T.PartialEq.eq x y ≡ true → x ≡ y)
        → (s : List Bool) → is_redundant T.PartialEq.eq (entries_of table.new) s ≡ false) }
    ensures nodes { IfOk result (λ _. (table.new.ipv4.nodes ≡ needed table.new.ipv4.entries)
        × (table.new.ipv6.nodes ≡ needed table.new.ipv6.entries)) }
    ensures limit { IfOk result
        (λ _. limits_of (maps_of table.new) ≡ limits_of (maps_of table.old)) }

    // `IndexRange` comes only if 56 slots for each entry of any map with the lookups of one family would exceed its limit.
    ensures range { IfErr result
        (λ cause. cause ≡ IndexRange → ((x y : T) → T.PartialEq.eq x y ≡ true → x ≡ y)
        → MayExceedLimit 32 table.old.ipv4.space.limit table.old.ipv4.entries
        ⊎ MayExceedLimit 128 table.old.ipv6.space.limit table.old.ipv6.entries) }
    ensures unchanged { IfErr result (λ _. table.new ≡ table.old) }
{
    let made = aggregated(table, alloc)?;
    *table = made;
    Ok(())
}

/// Returns the map that `aggregate` would leave, in memory of its own.
///
/// The new map has clones of this map's allocators and its slot limits.
///
/// # Errors
///
/// Returns `Memory` if an allocation fails, and `IndexRange` if a new map exceeds the slot limit. No map exists then.
///
/// # Examples
///
/// ```rust
/// // map = {10.0.0.0/9: 1, 10.128.0.0/9: 1, ::/0: 1}
/// aggregated(&map, alloc)?.len();     // 2
/// map.len();                          // 3
/// ```
pub fn aggregated<T: Copy + Ord, A: Allocator + Clone, B: Allocator>(
    table: &JointPrefixMap<T, A>,
    alloc: B,
) -> Result<JointPrefixMap<T, A>, Refusal>
    ensures values { IfOk result (λ made. ((x y : T) → T.PartialEq.eq x y ≡ true → x ≡ y)
        → HaveSameAnswers (entries_of made) (entries_of table.now)) }
    ensures smallest { IfOk result (λ made. ((x y : T) → T.PartialEq.eq x y ≡ true → x ≡ y)
        → IsSmallest (entries_of made)) }
    ensures none_redundant { IfOk result (λ made. ((x y : T) → T.PartialEq.eq x y ≡ true → x ≡ y)
        → (s : List Bool) → is_redundant T.PartialEq.eq (entries_of made) s ≡ false) }
    ensures nodes { IfOk result (λ made. (made.ipv4.nodes ≡ needed made.ipv4.entries)
        × (made.ipv6.nodes ≡ needed made.ipv6.entries)) }
    ensures limit { IfOk result (λ made. limits_of (maps_of made) ≡ limits_of (maps_of table.now)) }
    ensures range { IfErr result
        (λ cause. cause ≡ IndexRange → ((x y : T) → T.PartialEq.eq x y ≡ true → x ≡ y)
        → MayExceedLimit 32 table.now.ipv4.space.limit table.now.ipv4.entries
        ⊎ MayExceedLimit 128 table.now.ipv6.space.limit table.now.ipv6.entries) }
{
    let ipv4 = map::aggregated(&table.ipv4, &alloc)?;
    let ipv6 = map::aggregated(&table.ipv6, &alloc)?;
    Ok(JointPrefixMap { ipv4, ipv6 })
}
