//! Lemmas for proofs: the laws of the model.
//!
//! Each function does nothing at run time. Calling it brings its contract into the proof.

ghost use Rattle.std.specs.Prelude.{◌≡◌, ℕ};
ghost use Rattle.prefix_trie_bits.specs.Networks.{network_cmp};
ghost use Rattle.prefix_trie_bits.specs.Laws.Addresses.{AddressLaws};
ghost use Rattle.prefix_trie_bits.specs.Laws.Counted.{CountedLaws};
ghost use Rattle.prefix_trie_bits.specs.Laws.Determined.{DeterminedLaws};
ghost use Rattle.prefix_trie_bits.specs.Laws.SplitsOff.{SplitLaws};
ghost use Rattle.prefix_trie_bits.specs.Laws.Listings.{ListingLaws};
ghost use Rattle.prefix_trie_bits.specs.Laws.Matches.{MatchLaws};
ghost use Rattle.prefix_trie_bits.specs.Laws.NetworkOrder.{NetworkOrderLaws};
ghost use Rattle.prefix_trie_bits.specs.Laws.Nodes.{NodeLaws};
ghost use Rattle.prefix_trie_bits.specs.Laws.Pruning.{PruningLaws};
ghost use Rattle.prefix_trie_bits.specs.Laws.Slots.{SlotLaws};
ghost use Rattle.prefix_trie_bits.specs.Laws.Steps.{StepLaws};
ghost use Rattle.prefix_trie_bits.specs.Laws.Texts.{TextLaws};
ghost use Rattle.prefix_trie_bits.specs.Laws.Storage.{StorageLaws};
ghost use Rattle.prefix_trie_bits.specs.Laws.Total.{TotalLaws};
ghost use Rattle.prefix_trie_bits.specs.Laws.Visits.{VisitLaws};

use crate::prefix::{Ipv4Prefix, Ipv6Prefix};

/// Brings the laws of listings into the proof.
///
/// The listing has each entry once, in listing order: a string before its extensions, and 0 before
/// 1. So strings of one length are in the order of their numbers, and the listing of the keys that
/// pass a test is a filter of the whole listing. A walk that starts after the last item read gives
/// the rest. `remove_children` removes exactly what `children` lists, and returns it. The entries
/// under a string are those at the places of its node, one after another.
#[tactic(auto, using(crate::proofs::Model::Listings::listing_laws))]
pub fn listing_laws<T>()
    ensures { ListingLaws T }
{}

/// Brings the laws of matches into the proof.
///
/// The covers of a bit string are the entries whose keys it begins with, each key longer than the
/// one before. The first is the shortest match and the last the longest. There is a match exactly
/// if the string begins with some key.
#[tactic(auto, using(crate::proofs::Model::Matches::match_laws))]
pub fn match_laws<T>()
    ensures { MatchLaws T }
{}

/// Brings the laws of the needed nodes into the proof.
///
/// Keys need the root and each beginning of a key whose length is a multiple of five. These are the
/// nodes of a map. Setting a key adds its beginnings of such lengths; setting a stored key and
/// removing a key leave the nodes of a map as they are.
pub fn node_laws<T>()
    ensures { NodeLaws T }
{}

/// Brings the laws of pruning into the proof.
///
/// A removal removes exactly the nodes on the search path of its key, below the root, that are left
/// without an entry and without a node off that path. What it leaves contains the needed nodes, is
/// a set of nodes, and is tidy if it was tidy before.
#[tactic(auto, using(crate::proofs::Model::Pruning::pruning_laws))]
pub fn pruning_laws<T>()
    ensures { PruningLaws T }
{}

/// Brings the laws of node visits into the proof.
///
/// A lookup reads at least the root, and at most one node for each five bits of its argument plus
/// one. If the node k levels down is the last one on the search path, it reads k + 1. A lookup that
/// stops at the shortest match reads that match's own node last.
#[tactic(auto, using(crate::proofs::Model::Visits::visit_laws))]
pub fn visit_laws<T>()
    ensures { VisitLaws T }
{}

/// Brings the laws of the address count into the proof.
///
/// A map without entries covers no address, and one with a prefix of length 0 covers all. A stored
/// prefix that no other one contains covers 2^(width - length), and the prefixes outside of it
/// cover others.
#[tactic(auto, using(crate::proofs::Model::Outermost::address_laws))]
pub fn address_laws<T>()
    ensures { AddressLaws T }
{}

/// Brings the laws of splitting into the proof.
///
/// The second map has the entries whose keys begin with the prefix's path, and the first has the
/// others. Setting the entries of the second in the first again makes the map that there was. Both
/// are maps, and the second is tidy.
#[tactic(auto, using(crate::proofs::Model::SplitsOff::split_laws))]
pub fn split_laws<T>()
    ensures { SplitLaws T }
{}

/// Brings the laws of steps and runs into the proof.
///
/// Every step leaves a map a map, and a tidy map tidy, except `remove_keep_tree`; `retain` and
/// `clear` make any map tidy. A tidy map has as many nodes as its keys need. A step changes no
/// entry that it neither sets nor removes, and a refused step changes nothing. Runs keep maps and
/// tidy maps too, and join. A new key set in a tidy map and removed again leaves entries and nodes
/// as they were.
#[tactic(auto, using(crate::proofs::Model::Steps::step_laws))]
pub fn step_laws<P, T>()
    ensures { StepLaws P T }
{}

/// Brings into the proof that a step is determined up to refusal.
///
/// Two steps of one call from one state that are not refused have the same reply and lead to the
/// same state. A step is a refusal exactly if the call may be refused for that cause: the insertion
/// of a new key for either, a listing with `Memory`. From each state each call has a step that is
/// not a refusal.
#[tactic(auto, using(crate::proofs::Model::Determined::determined_laws))]
pub fn determined_laws<P, T>()
    ensures { DeterminedLaws P T }
{}

/// Brings the laws of the storage into the proof.
///
/// A step that changes neither entries nor nodes leaves the storage unchanged, and so does the
/// insertion of a stored key. `clear` and the removal of everything leave only the root's slot. A
/// refusal leaves the used blocks unchanged. The insertion of a new key, if it is not refused,
/// fixes the slots and the used blocks. If its missing blocks were made before, it is not refused,
/// and leaves what it would have left at once. Calling a test of lengths on each entry is the call
/// `RetainAtLeast`.
#[tactic(auto, using(crate::proofs::Model::Storage::StorageChanges::storage_laws))]
pub fn storage_laws<P, T>()
    ensures { StorageLaws P T }
{}

/// Brings the bounds on new slots into the proof.
///
/// An insertion makes at most 56 slots for nodes and 31 for values. A removal of one entry makes at
/// most 24 of each, and none for nodes if it keeps all nodes. Each law requires that every node has
/// its blocks, as in every map.
#[tactic(auto, using(crate::proofs::Model::Storage::Slots::slot_laws))]
pub fn slot_laws<P, T>()
    ensures { SlotLaws P T }
{}

/// Brings into the proof that calls have steps.
///
/// From every map of keys of up to 128 bits, however it is stored, each call whose prefix fits has
/// a step that is not a refusal, and leads to such a map. The exception is the insertion of a new
/// key whose missing blocks would exceed the limit: it has only refusals. If one of the missing
/// blocks would fit, `Memory` is possible too, as it always is for a listing; a refusal may leave
/// everything unchanged. So each list of such calls has a run.
#[tactic(auto, using(crate::proofs::Model::Total::total_laws))]
pub fn total_laws<P, T>()
    ensures { TotalLaws P T }
{}

/// Brings the laws of runs with counts into the proof.
///
/// A run with its counts is a run. At its end the map is tidy if the calls leave it so. It can be
/// cut at each point into two runs: of the calls before and of those to come. The number of nodes
/// that a call reads is unique. After a call that leaves only needed nodes, the map is known to be
/// tidy.
#[tactic(auto, using(crate::proofs::Model::Counted::counted_laws))]
pub fn counted_laws<P, T>()
    ensures { CountedLaws P T }
{}

/// Brings the laws of texts into the proof.
///
/// `parse` reads back what `Display` writes of a network or a number, and a text denotes at most
/// one network.
#[tactic(auto, using(crate::proofs::Texts::Laws::text_laws))]
pub fn text_laws()
    ensures { TextLaws }
{}

/// Brings the laws of the order of networks into the proof.
///
/// `Ord` puts networks without host bits in the order in which a map lists them.
#[tactic(auto, using(crate::proofs::Networks::Order::network_order_laws))]
pub fn network_order_laws()
    ensures listing { NetworkOrderLaws }
    ensures ipv4 { (p q : ℕ × ℕ) → ⟦<Ipv4Prefix as Ord>⟧.cmp p q ≡ network_cmp p q }
    ensures ipv6 { (p q : ℕ × ℕ) → ⟦<Ipv6Prefix as Ord>⟧.cmp p q ≡ network_cmp p q }
{}
