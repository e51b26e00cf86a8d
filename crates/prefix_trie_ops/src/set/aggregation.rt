//! Removal of keys that a shorter key covers.
ghost use Rattle.std.specs.Prelude.{◌≡◌, Bool, true, false, List, IfOk, OnOk, IfErr, IfSome, filter, map};
ghost use Rattle.std.specs.Option.{is_some};
ghost use Rattle.std.specs.FinMap.{contains_key};
ghost use Rattle.prefix_trie_bits.specs.declared.prefix.Refusal.TheVariants.{Memory};
ghost use Rattle.prefix_trie.specs.Terms.{listing, needed, shortest_match};
ghost use Rattle.prefix_trie_ops.specs.Covered.{contains_path, is_below_another, is_uppermost, without_covered};

use prefix_trie::laws::{listed_laws, listing_laws, lookup_laws, match_laws};
use prefix_trie::{Prefix, PrefixSet, Refusal};
use std::alloc::{AllocError, Allocator};

/// Removes each key that a shorter key covers.
///
/// `is_covered` returns the same as before for every question, of any length. No such key is left. Nodes that no
/// remaining key needs are removed, and the slot limit stays. The set keeps its memory: `shrink_to_fit` returns it.
///
/// A first pass marks the keys that stay. It allocates a list of marks, which takes up to three bytes for each key while
/// it grows. The second pass removes the others and cannot fail.
///
/// # Errors
///
/// Returns `Memory` if an allocation of the first pass fails. The set is unchanged then.
///
/// # Examples
///
/// ```rust
/// // set = {10.0.0.0/8, 10.1.0.0/16, 10.1.2.0/24, 11.0.0.0/8}
/// aggregate_consistent(&mut set, alloc)?;
/// set.iter();     // [10.0.0.0/8, 11.0.0.0/8]
/// ```
pub fn aggregate_consistent<P: Prefix, A: Allocator, B: Allocator>(
    set: &mut PrefixSet<P, A>,
    alloc: B,
) -> Result<(), Refusal>
    ensures entries { OnOk result (set.new.entries ≡ without_covered set.old.entries) }
    ensures nodes { OnOk result (set.new.nodes ≡ needed set.new.entries) }
    ensures limit { OnOk result (set.new.space.limit ≡ set.old.space.limit) }
    ensures covered { OnOk result ((q : List Bool)
        → is_some (shortest_match set.new.entries q) ≡ is_some (shortest_match set.old.entries q)) }
    ensures uncovered { OnOk result ((s : List Bool) → contains_key set.new.entries s ≡ true
        → is_below_another set.new.entries s ≡ false) }
    ensures only_memory { IfErr result (λ cause. cause ≡ Memory) }
    ensures unchanged { IfErr result (λ _. set.new ≡ set.old) }
{
    lookup_laws::<P, ()>();
    let marks = marks_of(set, alloc)?;
    keep_marked(set, marks.as_slice());
    Ok(())
}

/// Returns a mark for each key, in listing order: whether `aggregate_consistent` keeps it.
///
/// # Errors
///
/// Returns the allocator's error if an allocation fails.
///
/// # Examples
///
/// ```rust
/// // set = {10.0.0.0/8, 10.1.0.0/16, 11.0.0.0/8}
/// marks_of(&set, alloc)?.as_slice();      // [true, false, true]
/// ```
pub fn marks_of<P: Prefix, A: Allocator, B: Allocator>(
    set: &PrefixSet<P, A>,
    alloc: B,
) -> Result<Vec<bool, B>, AllocError>
    ensures { IfOk result
        (λ marks. marks.items ≡ map (is_uppermost set.now.entries) (listing set.now.entries)) }
{
    listing_laws::<()>();
    listed_laws::<P, ()>();
    match_laws::<()>();
    let mut uppermost = None;
    let mut marks = Vec::new(alloc);
    for prefix in set.iter() {
        let is_covered = does_contain(&uppermost, &prefix);
        marks.push(!is_covered)?;
        if !is_covered {
            uppermost = Some(prefix);
        }
    }
    Ok(marks)
}

/// Returns whether there is a covering prefix, and it contains this one.
fn does_contain<P: Prefix>(covering: &Option<P>, prefix: &P) -> bool
    requires fits { P.IsFitting prefix.now }
    requires covering_fits { IfSome covering.now (λ p. P.IsFitting p) }
    ensures { result ≡ contains_path P.path covering.now (P.path prefix.now) }
{
    match covering {
        Some(covering) => covering.contains(prefix),
        None => false,
    }
}

/// Keeps the keys that are marked. There is a mark for each key, in listing order.
///
/// Nodes that no remaining key needs are removed, and the slot limit stays.
///
/// # Examples
///
/// ```rust
/// // set = {10.0.0.0/8, 10.1.0.0/16, 11.0.0.0/8}
/// keep_marked(&mut set, &[true, false, true]);
/// set.iter();     // [10.0.0.0/8, 11.0.0.0/8]
/// ```
#[tactic(auto, using(prefix_trie::proofs::Callers::may_ask_always))]
pub fn keep_marked<P: Prefix, A: Allocator>(set: &mut PrefixSet<P, A>, marks: &[bool])
    ensures kept { (keep : List Bool × Unit {0} → Bool)
        → marks.now ≡ map keep (listing set.old.entries)
        → listing set.new.entries ≡ filter keep (listing set.old.entries) }
    ensures nodes { set.new.nodes ≡ needed set.new.entries }
    ensures limit { set.new.space.limit ≡ set.old.space.limit }
{
    let mut left = marks.iter();
    set.retain(move |_| left.next().copied().unwrap_or(true));
}
