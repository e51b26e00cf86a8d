//! Laws of the operations, as lemmas for callers.
//!
//! Each function does nothing. Its contract is a law, and calling it brings the law into the caller's proof.
ghost use Rattle.std.specs.Map.Iter.{ShowsInOrder};
ghost use Rattle.prefix_trie_ops.specs.Laws.{AggregationLaws, CombiningLaws};
ghost use Rattle.prefix_trie_ops.specs.Lending.{lent_pair};
ghost use Rattle.prefix_trie_ops.specs.Merging.{lent_side};

use prefix_trie::laws::lookup_laws;

/// States what union, intersection and difference have at a key.
pub fn combining_laws<T, U>()
    ensures { CombiningLaws T U }
{}

/// States what the terms of aggregation mean.
///
/// An entry is redundant if the longest shorter key that begins its key has an equal value. A key is below another one
/// if a shorter key begins it.
pub fn aggregation_laws<T>()
    ensures { AggregationLaws T }
{
    lookup_laws::<T, T>();
}

/// States that the items of a union or an intersection, read one after another, are those that were still to come, in order.
///
/// A caller that counts, collects or compares such a walk needs it. `walk_laws` of `prefix_trie` does this for
/// differences and for the walks of sets.
pub fn combined_walk_laws<P, T, U>()
    ensures union { ShowsInOrder (lent_side {P = P} {T = T} {U = U}) }
    ensures intersection { ShowsInOrder (lent_pair {P = P} {T = T} {U = U}) }
{}
