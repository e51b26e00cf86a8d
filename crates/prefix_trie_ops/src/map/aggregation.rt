//! Removal of entries that change no lookup.
ghost use Rattle.std.specs.Prelude.{◌≡◌, Bool, true, false, List, IfOk, OnOk, IfErr, Some, All, filter, map};
ghost use Rattle.std.specs.Option.{option_map};
ghost use Rattle.prefix_trie_bits.specs.declared.prefix.Refusal.TheVariants.{Memory};
ghost use Rattle.prefix_trie.specs.Terms.{begins, last_item, lent_item, listing, needed};
ghost use Rattle.prefix_trie_ops.specs.Values.{are_equal, is_redundant, stays, value_of, without_redundant, IsChain};

use prefix_trie::laws::{listed_laws, listing_laws, lookup_laws};
use prefix_trie::{Prefix, PrefixMap, Refusal};
use std::alloc::{AllocError, Allocator};

/// Removes each entry whose longest shorter entry has an equal value.
///
/// Every question, of any length, has the same longest-match value as before. No such entry is left. Nodes that no
/// remaining entry needs are removed, and the slot limit stays. The map keeps its memory: `shrink_to_fit` returns it.
///
/// A first pass marks the entries that stay. It allocates a list of marks, which takes up to three bytes for each entry
/// while it grows, and a stack of one item for each length of prefix that is stored on one path. The second pass
/// removes the others and cannot fail.
///
/// # Errors
///
/// Returns `Memory` if an allocation of the first pass fails. The map is unchanged then.
///
/// # Examples
///
/// ```rust
/// // map = {10.0.0.0/8: 1, 10.1.0.0/16: 1, 10.1.2.0/24: 2, 10.1.2.4/32: 1}
/// aggregate_consistent(&mut map, alloc)?;
/// map.iter();     // [(10.0.0.0/8, 1), (10.1.2.0/24, 2), (10.1.2.4/32, 1)]
/// ```
pub fn aggregate_consistent<P: Prefix, T: PartialEq + Drop, A: Allocator, B: Allocator + Clone>(
    table: &mut PrefixMap<P, T, A>,
    alloc: B,
) -> Result<(), Refusal>
    ensures entries { OnOk result
        (table.new.entries ≡ without_redundant T.PartialEq.eq table.old.entries) }
    ensures nodes { OnOk result (table.new.nodes ≡ needed table.new.entries) }
    ensures limit { OnOk result (table.new.space.limit ≡ table.old.space.limit) }

    // In the next two clauses, values that `==` calls equal are the same.
    ensures values { OnOk result (((x y : T) → T.PartialEq.eq x y ≡ true → x ≡ y)
        → (q : List Bool) → value_of table.new.entries q ≡ value_of table.old.entries q) }
    ensures none_redundant { OnOk result (((x y : T) → T.PartialEq.eq x y ≡ true → x ≡ y)
        → (s : List Bool) → is_redundant T.PartialEq.eq table.new.entries s ≡ false) }
    ensures only_memory { IfErr result (λ cause. cause ≡ Memory) }
    ensures unchanged { IfErr result (λ _. table.new ≡ table.old) }
{
    lookup_laws::<P, T>();
    let marks = marks_of(table, alloc)?;
    keep_marked(table, marks.as_slice());
    Ok(())
}

/// Returns a mark for each entry, in listing order: whether `aggregate_consistent` keeps it.
///
/// # Errors
///
/// Returns the allocator's error if an allocation fails.
///
/// # Examples
///
/// ```rust
/// // map = {10.0.0.0/8: 1, 10.1.0.0/16: 1, 10.1.2.0/24: 2}
/// marks_of(&map, alloc)?.as_slice();      // [true, false, true]
/// ```
pub fn marks_of<P: Prefix, T: PartialEq + Drop, A: Allocator, B: Allocator + Clone>(
    table: &PrefixMap<P, T, A>,
    alloc: B,
) -> Result<Vec<bool, B>, AllocError>
    ensures { IfOk result
        (λ marks. marks.items
        ≡ map (stays T.PartialEq.eq table.now.entries) (listing table.now.entries)) }
{
    listing_laws::<T>();
    listed_laws::<P, T>();
    let mut above = Vec::new(alloc.clone()?);
    let mut marks = Vec::new(alloc);
    for (prefix, value) in table.iter() {
        pop_apart(&mut above, &prefix);
        marks.push(!is_top_equal(&above, value))?;
        above.push((prefix, value))?;
    }
    Ok(marks)
}

/// Returns whether the last value of a chain is equal to this one.
fn is_top_equal<P: Prefix, T: PartialEq, B: Allocator>(above: &Vec<(P, &T), B>, value: &T) -> bool
    ensures { result
        ≡ are_equal T.PartialEq.eq
        (option_map (λ e. e.1) (last_item (map lent_item above.now.items))) (Some value.now) }
{
    match above.last() {
        Some((_, held)) => **held == *value,
        None => false,
    }
}

/// Removes the prefixes that do not contain this one from the end of a chain.
fn pop_apart<P: Prefix, T, B: Allocator>(above: &mut Vec<(P, &T), B>, prefix: &P)
    requires fits { P.IsFitting prefix.now }
    requires above_fit { All (λ e. P.IsFitting e.0) above.old.items }
    requires chain { IsChain P.path above.old.items }
    ensures { above.new.items
        ≡ filter (λ e. begins (P.path e.0) (P.path prefix.now)) above.old.items }
{
    while let Some((covering, _)) = above.last() {
        if covering.contains(prefix) {
            return;
        }
        above.pop();
    }
}

/// Keeps the entries that are marked. There is a mark for each entry, in listing order.
///
/// Nodes that no remaining entry needs are removed, and the slot limit stays.
///
/// # Examples
///
/// ```rust
/// // map = {10.0.0.0/8: 1, 10.1.0.0/16: 1, 10.1.2.0/24: 2}
/// keep_marked(&mut map, &[true, false, true]);
/// map.iter();     // [(10.0.0.0/8, 1), (10.1.2.0/24, 2)]
/// ```
#[tactic(auto, using(prefix_trie::proofs::Callers::may_ask_always))]
pub fn keep_marked<P: Prefix, T: Drop, A: Allocator>(table: &mut PrefixMap<P, T, A>, marks: &[bool])
    ensures kept { (keep : List Bool × T → Bool) → marks.now ≡ map keep (listing table.old.entries)
        → listing table.new.entries ≡ filter keep (listing table.old.entries) }
    ensures nodes { table.new.nodes ≡ needed table.new.entries }
    ensures limit { table.new.space.limit ≡ table.old.space.limit }
{
    // The iterator serves as the counter: it cannot overflow, and its view is the marks still to come.
    let mut left = marks.iter();
    table.retain(move |_, _| left.next().copied().unwrap_or(true));
}
