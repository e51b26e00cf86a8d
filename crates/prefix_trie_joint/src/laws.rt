//! Lemmas for a caller's own contracts about joint maps.
//!
//! Each function does nothing at run time. Calling it brings a record of laws into the caller's
//! proof. The laws of `prefix_trie::laws` that are about entries, such as `lookup_laws` and
//! `stored_laws`, hold for the joint entries too.
ghost use Rattle.std.specs.Prelude.{◌≡◌};
ghost use Rattle.prefix_trie.specs.Terms.{listing_cmp};
ghost use Rattle.prefix_trie_joint.specs.Laws.{FamilyLaws, LimitLaws, WritingLaws};
ghost use Rattle.prefix_trie_joint.specs.Networks.{HasNoIpHostBits, ip_path};
ghost use Rattle.prefix_trie_joint.specs.Texts.{IpTextLaws, IsIp};

use crate::prefix::IpPrefix;

/// Brings the laws of texts into the proof.
///
/// A text denotes at most one network, of one family. `parse` reads back what `Display` wrote.
#[tactic(auto, using(crate::proofs::Texts::ip_text_laws))]
pub fn ip_text_laws()
    ensures { IpTextLaws }
{}

/// Brings the laws of the families into the proof.
///
/// They say what the joint entries are, in terms of the entries of `map.ipv4` and of `map.ipv6`, and
/// what they are after a value is written through `get_mut` or `get_lpm_value_mut`.
#[tactic(auto, using(crate::proofs::FamilyLaws::family_laws))]
pub fn family_laws<T, A>()
    ensures { FamilyLaws T A }
{}

/// Brings the laws of slot limits into the proof.
///
/// Each change keeps the limits of both families. `len` ensures that no array is longer than its limit.
#[tactic(auto, using(crate::proofs::FamilyLaws::limit_laws))]
pub fn limit_laws<T>()
    ensures { LimitLaws T }
{}

/// Brings the law of order into the proof: networks without host bits are ordered as a map lists them.
pub fn ip_order_laws()
    ensures { (p q : IpPrefix) → IsIp p → IsIp q → HasNoIpHostBits p → HasNoIpHostBits q
        → ⟦<IpPrefix as Ord>⟧.cmp p q ≡ listing_cmp (ip_path p) (ip_path q) }
{}

/// Brings the laws of writing walks into the proof.
///
/// They say what a walk has still to come after its next entry, whatever value was left there, and
/// what the joint entries are then. They require that each key is the path of its network, which the
/// calls that make writing walks ensure.
#[tactic(auto, using(crate::proofs::Resuming::writing_laws))]
pub fn writing_laws<T, A>()
    ensures { WritingLaws T A }
{}
