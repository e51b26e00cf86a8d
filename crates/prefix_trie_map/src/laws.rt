//! Lemmas for callers: how the lookups are related, and what holds of listings and copies.
//!
//! Each function does nothing. Its contract is a law, and calling the function brings the law into the proof.

ghost use Rattle.std.specs.Map.Iter.{ShowsInOrder, GivesInOrder, deref};
ghost use Rattle.prefix_trie_map.specs.Copied.{CopyLaws};
ghost use Rattle.prefix_trie_map.specs.Covers.{CoverLaws};
ghost use Rattle.prefix_trie_map.specs.Filled.{FillLaws};
ghost use Rattle.prefix_trie_map.specs.Listed.{ListedLaws};
ghost use Rattle.prefix_trie_map.specs.Resumed.{ResumeLaws};
ghost use Rattle.prefix_trie_map.specs.Growth.{GrowthLaws};
ghost use Rattle.prefix_trie_map.specs.Walks.{lent_item};
ghost use Rattle.prefix_trie_map.specs.Whole.{WholeLaws};

use prefix_trie_bits::prefix::Prefix;
use std::alloc::Allocator;

/// Relates `get_lpm`, `get_spm` and `is_covered` to the list of stored prefixes that contain a prefix, shortest first.
///
/// `get_lpm` returns its last item and `get_spm` its first. `is_covered` returns whether the list has an item.
pub fn cover_laws<P, T>()
    ensures { CoverLaws P T }
{}

/// States that each prefix that a map returns fits, so it may be passed to any call.
///
/// Requires what `len`, `is_empty`, `node_count` and the calls that make walks ensure for every map.
pub fn listed_laws<P: Prefix, T>()
    ensures { ListedLaws T P.R.bit_width P.path P.IsFitting P.back }
{}

/// States that the items of a walk, read one after another, are those that were still to come, in order.
///
/// A caller that counts, collects or compares a walk needs it. It follows from what each call of `next` gives.
pub fn walk_laws<P, T>()
    ensures entries { ShowsInOrder (lent_item {P = P} {T = T}) }
    ensures keys { GivesInOrder P }
    ensures values { ShowsInOrder (deref {X = T}) }
    ensures moved_entries { GivesInOrder (P × T) }
    ensures moved_values { GivesInOrder T }
{}

/// States that `iter_from` after the last item read gives the rest of a walk.
///
/// The walk is `iter` or `iter_from`, and at least one item was read. Requires what calls that make walks ensure for
/// every map.
pub fn resume_laws<P: Prefix, T>()
    ensures { ResumeLaws T P.R.bit_width P.path P.back }
{}

/// States that a copy needs the nodes that its source needs, so it is tidy exactly if its source is.
///
/// The copy has a clone of each value. It has the same entries if clones are equal to their sources.
pub fn copy_laws<T: Clone>()
    ensures { CopyLaws T.is_clone }
{}

/// States that each array of a map has fewer than 2^32 slots, and that a map has fewer than 2^32 entries.
///
/// Requires what `len` and the calls that make walks ensure for every map.
pub fn whole_laws<P: Prefix, T>()
    ensures { WholeLaws T P.R.bit_width }
{}

/// States that filling an entry changes slots and blocks as `insert` does at the entry's key.
///
/// They are unchanged if the key is stored.
pub fn fill_laws<P: Prefix, T: Drop, A: Allocator>()
    ensures { FillLaws P T A P.R P.Prefix.own P.Debug P.R.Key.own P.R.PartialEq P.R.Debug }
{}

/// Bounds how much any number of calls with the clause `bounds_growth` lengthens an array.
///
/// `retain`, `drop_children` and `remove_children` have this clause. The bound is the headroom that the array's blocks
/// had before the first call. The headroom of a block is the slots of one block of each smaller size.
pub fn growth_laws()
    ensures { GrowthLaws }
{}
