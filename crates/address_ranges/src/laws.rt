//! Lemmas for proofs: the laws of sets of addresses.
//!
//! Each function does nothing at run time. Calling it brings its contract into the proof.
ghost use Rattle.address_ranges.specs.Laws.{BreakLaws, NetworkLaws};
ghost use Rattle.address_ranges.specs.Walks.{IsBare};

use prefix_trie_bits::prefix::{Key, Prefix};

/// Brings the laws of breakpoints into the proof.
///
/// Sets with the same addresses have the same breakpoints. The ranges of a set have its addresses, and no others.
#[tactic(auto, using(crate::proofs::SetLaws::break_laws))]
pub fn break_laws()
    ensures { BreakLaws }
{}

/// Brings the laws of walks over networks into the proof.
///
/// All networks that `Networks` returns are the fewest that cover the set. All networks that `NetworksOfLength` returns
/// are those of its length that have only addresses of the set.
#[tactic(auto, using(crate::proofs::OfLengthLaw::network_laws))]
pub fn network_laws<P: Prefix>()
    ensures { NetworkLaws P.R.bit_width (IsBare P.IsFitting P.back P.path) P.path }
{}
