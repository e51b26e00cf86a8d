//! Lemmas for a caller's own contracts about maps.
//!
//! Each function does nothing at run time. Calling it brings a record of laws into the caller's proof.

ghost use Rattle.prefix_trie.specs.Laws.Stored.{StoredLaws};
ghost use Rattle.prefix_trie.specs.Laws.Lookups.{LookupLaws};
ghost use Rattle.prefix_trie.specs.Laws.Putting.{PutLaws};
ghost use Rattle.prefix_trie.specs.Laws.Comparing.{EqualLaws};
ghost use Rattle.prefix_trie.specs.Laws.Joining.{JoinLaws};
ghost use Rattle.prefix_trie.specs.Laws.Networks.{NetworkLaws};
ghost use Rattle.prefix_trie.specs.Laws.Numbers.{NumberLaws};
ghost use Rattle.prefix_trie.specs.Laws.Paging.{PageLaws};
ghost use Rattle.prefix_trie.specs.Laws.Paths.{PathLaws};
ghost use Rattle.prefix_trie.specs.Laws.Rewriting.{RewriteLaws};
ghost use Rattle.prefix_trie_bits.specs.Keys.{narrow_width};

pub use prefix_trie_bits::laws::{
    address_laws, counted_laws, determined_laws, listing_laws, match_laws, network_order_laws,
    node_laws, pruning_laws, slot_laws, split_laws, step_laws, storage_laws, text_laws, total_laws,
    visit_laws,
};
use prefix_trie_bits::prefix::Prefix;
pub use prefix_trie_map::laws::{
    copy_laws, cover_laws, fill_laws, growth_laws, listed_laws, resume_laws, walk_laws, whole_laws,
};
use std::alloc::Allocator;

/// Brings the laws of stored entries into the proof.
///
/// They say what is stored after a key is set or removed, and that two maps with the same value at
/// each key are equal.
pub fn stored_laws<T>()
    ensures { StoredLaws T }
{}

/// Brings the laws of lookups into the proof.
///
/// They say what the longest match is, whether there is one, and how it changes when a key is set
/// or removed.
pub fn lookup_laws<P, T>()
    ensures { LookupLaws P T }
{}

/// Brings the laws of a loop that inserts the entries of one map into another.
///
/// They give its invariant, what one more item does to it, and what the loop leaves.
pub fn put_laws<P: Prefix, T>()
    ensures { PutLaws T P.R.bit_width P.path P.IsFitting P.back }
{}

/// Brings the laws of a loop that joins the values of one map to those of another, as a sum does.
///
/// They give its invariant, what one more item does to it, and what the loop leaves.
pub fn join_laws<P: Prefix, T>()
    ensures { JoinLaws T P.R.bit_width P.path P.IsFitting P.back }
{}

/// Brings the laws of reading a map in pages into the proof.
///
/// They say what comes after the last item read.
pub fn page_laws<P: Prefix, T>()
    ensures { PageLaws T P.R.bit_width P.path P.IsFitting P.back }
{}

/// Brings the laws of `==` on maps into the proof.
///
/// Two maps are equal by `==` exactly if their entries are the same, provided that `==` of prefixes
/// and of values decides whether those are the same. The laws require that the map is valid, which
/// `len` and the calls that make walks promise.
pub fn equal_laws<P: Prefix, T>()
    ensures { EqualLaws T P.R.bit_width P.back }
{}

/// Brings the laws of paths into the proof.
///
/// A path is as long as its prefix says. The path of a prefix of full length is the whole number.
/// The prefix made from a path has that path.
pub fn path_laws<P: Prefix>()
    ensures { PathLaws P.R.bit_width P.R.bits P.repr_of P.len_of P.path P.IsFitting P.back }
{}

/// Brings the laws of IPv4 and IPv6 networks into the proof.
///
/// The path of the network of one address is that address. They also say by numbers which addresses
/// a network contains, and what `address_count` returns.
pub fn network_laws()
    ensures { NetworkLaws }
{}

/// Brings the laws of `Narrow<W>` into the proof.
///
/// The path of the pair of a number and the width is the number, and they say by numbers which
/// numbers a pair contains.
pub fn narrow_laws<const W: u32>()
    ensures { NumberLaws (narrow_width W) }
{}

/// Brings the laws of loops over one writing walk into the proof.
///
/// The first loop goes to the end, so a second one changes nothing.
pub fn rewrite_laws<P: Prefix, T: Drop, A: Allocator>()
    ensures { RewriteLaws P T A P.R P.Prefix.own P.Debug P.R.Key.own P.R.PartialEq P.R.Debug }
{}
