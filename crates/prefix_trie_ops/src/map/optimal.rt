//! The table with the fewest entries for the same full-width lookups.
ghost use Rattle.std.specs.Prelude.{◌≡◌, All, Bool, true, false, List, [], None, IfErr, IfOk, OnOk};
ghost use Rattle.std.specs.FinMap.{get};
ghost use Rattle.prefix_trie_bits.specs.declared.prefix.Refusal.TheVariants.{IndexRange};
ghost use Rattle.prefix_trie_map.specs.Collected.{ManyMayPassLimit};
ghost use Rattle.prefix_trie.specs.Terms.{AreWithin, Entries, listing, needed, prefix_pairs};
ghost use Rattle.prefix_trie_ops.specs.Filling.{Fills};
ghost use Rattle.prefix_trie_ops.specs.Optimal.{value_along, Rebuilds};
ghost use Rattle.prefix_trie_ops.specs.Parts.{least};
ghost use Rattle.prefix_trie_ops.specs.Smallest.{HaveSameAnswers, IsSmallest, MayExceedLimit};
ghost use Rattle.prefix_trie_ops.specs.Values.{is_redundant};

mod choosing;
mod entries;
mod placing;
mod position;
mod sets;

use choosing::choices_of;
use entries::{Upcoming, copied};
use placing::place;
use prefix_trie::laws::{lookup_laws, stored_laws};
use prefix_trie::{Key, Prefix, PrefixMap, Refusal};
use std::alloc::Allocator;

/// Replaces the entries by as few as the same full-width lookups need.
///
/// Every full-width question has the same longest-match value as before, or still none. No map with the same answers to
/// these questions has fewer entries. No entry has the value of its longest shorter entry. Shorter questions may have
/// other values afterwards. The map keeps its slot limit.
///
/// This is the optimal routing table of Draves, King, Venkatachary and Zill ("Constructing Optimal IP Routing Tables",
/// 1999), except that a question without a value keeps none.
///
/// The time grows with the number of bits of the stored prefixes; bits that prefixes share count once. The new map is
/// built beside the old one and replaces it. The call also needs memory for a copy of the entries, and for each of
/// these bits for a few numbers and a list of values. In most maps these lists are short, but each can have all values
/// of the map. `shrink_to_fit` returns the capacity that the new map does not use.
///
/// # Errors
///
/// Returns `Memory` if an allocation fails, and `IndexRange` if the new map exceeds the slot limit. This needs many
/// entries: each makes at most 56 slots of an array. The map is unchanged then.
///
/// # Examples
///
/// ```rust
/// // map = {10.0.0.0/9: 1, 10.128.0.0/9: 1, 10.64.0.0/10: 2}
/// aggregate(&mut map, alloc)?;
/// map.iter();     // [(10.0.0.0/8, 1), (10.64.0.0/10, 2)]
/// ```
pub fn aggregate<P: Prefix, T: Copy + Ord, A: Allocator + Clone, B: Allocator>(
    table: &mut PrefixMap<P, T, A>,
    alloc: B,
) -> Result<(), Refusal>
    // In the next three clauses, values that `==` calls equal are the same.
    ensures values { IfOk result (λ _. ((x y : T) → T.PartialEq.eq x y ≡ true → x ≡ y)
        → HaveSameAnswers P.R.bit_width table.new.entries table.old.entries) }
    ensures smallest { IfOk result
        (λ _. ((x y : T) → T.PartialEq.eq x y ≡ true → x ≡ y)
        → IsSmallest P.R.bit_width table.new.entries) }
    ensures none_redundant { IfOk result (λ _. ((x y : T) → T.PartialEq.eq x y ≡ true → x ≡ y)
        → (s : List Bool) → is_redundant T.PartialEq.eq table.new.entries s ≡ false) }
    ensures nodes { OnOk result (table.new.nodes ≡ needed table.new.entries) }
    ensures limit { OnOk result (table.new.space.limit ≡ table.old.space.limit) }

    // `IndexRange` comes only if 56 slots for each entry of any map with these lookups would exceed the limit.
    ensures range { IfErr result
        (λ cause. cause ≡ IndexRange → ((x y : T) → T.PartialEq.eq x y ≡ true → x ≡ y)
        → MayExceedLimit P.R.bit_width table.old.space.limit table.old.entries) }
    ensures unchanged { IfErr result (λ _. table.new ≡ table.old) }
{
    let made = aggregated(table, alloc)?;
    *table = made;
    Ok(())
}

/// Returns the map that `aggregate` would leave, in memory of its own.
///
/// The new map has clones of this map's allocators and its slot limit.
///
/// # Errors
///
/// Returns `Memory` if an allocation fails, and `IndexRange` if the new map exceeds the slot limit. No map exists then.
///
/// # Examples
///
/// ```rust
/// // map = {10.0.0.0/9: 1, 10.128.0.0/9: 1, 10.64.0.0/10: 2}
/// aggregated(&map, alloc)?.iter();    // [(10.0.0.0/8, 1), (10.64.0.0/10, 2)]
/// map.len();                          // 3
/// ```
pub fn aggregated<P: Prefix, T: Copy + Ord, A: Allocator + Clone, B: Allocator>(
    table: &PrefixMap<P, T, A>,
    alloc: B,
) -> Result<PrefixMap<P, T, A>, Refusal>
    ensures values { IfOk result (λ made. ((x y : T) → T.PartialEq.eq x y ≡ true → x ≡ y)
        → HaveSameAnswers P.R.bit_width made.entries table.now.entries) }
    ensures smallest { IfOk result
        (λ made. ((x y : T) → T.PartialEq.eq x y ≡ true → x ≡ y)
        → IsSmallest P.R.bit_width made.entries) }
    ensures none_redundant { IfOk result (λ made. ((x y : T) → T.PartialEq.eq x y ≡ true → x ≡ y)
        → (s : List Bool) → is_redundant T.PartialEq.eq made.entries s ≡ false) }
    ensures nodes { IfOk result (λ made. made.nodes ≡ needed made.entries) }
    ensures limit { IfOk result (λ made. made.space.limit ≡ table.now.space.limit) }
    ensures range { IfErr result
        (λ cause. cause ≡ IndexRange → ((x y : T) → T.PartialEq.eq x y ≡ true → x ≡ y)
        → MayExceedLimit P.R.bit_width table.now.space.limit table.now.entries) }
{
    lookup_laws::<P, T>();
    stored_laws::<T>();
    // The proof learns from it that no key is longer than the width.
    let _ = table.len();
    let entries = copied(table, &alloc)?;
    let mut made = table.new_like()?;
    place_all(entries.as_slice(), &mut made, &alloc)?;
    Ok(made)
}

/// Fills an empty map, so that its full-width lookups are those of the entries, with as few entries as possible.
fn place_all<P: Prefix, T: Copy + Ord, A: Allocator, B: Allocator>(
    entries: &[(P, T)],
    made: &mut PrefixMap<P, T, A>,
    alloc: &B,
) -> Result<(), Refusal>
    requires { All (λ e. P.IsFitting e.0) entries.now }
    ensures rebuilds { OnOk result
        ((source : Entries T) → AreWithin P.R.bit_width source
        → entries.now ≡ prefix_pairs P.back (listing source)
        → ((t : List Bool) → get made.old.entries t ≡ None)
        → ((x y : T) → T.PartialEq.eq x y ≡ true → x ≡ y)
        → Rebuilds T.PartialEq.eq T.Ord.cmp P.R.bit_width source [] None None made.old.entries
        made.new.entries) }
    ensures fills { OnOk result (Fills made.old made.new) }
    ensures range { IfErr result (λ cause. cause ≡ IndexRange
        → (source : Entries T) → AreWithin P.R.bit_width source
        → entries.now ≡ prefix_pairs P.back (listing source)
        → ((t : List Bool) → get made.old.entries t ≡ None)
        → ((x y : T) → T.PartialEq.eq x y ≡ true → x ≡ y)
        → ManyMayPassLimit made.old.space (least T.PartialEq.eq T.Ord.cmp P.R.bit_width
        (value_along (get source) None []) None)) }
{
    let root = P::from_repr_len(P::R::zero(), 0);
    let mut choices = choices_of(Upcoming::of(entries), &root, alloc)?;
    let mut walk = Upcoming::of(entries);
    place(&mut walk, &mut choices, made, &root, None, None)?;
    Ok(())
}
