//! Lemmas for a caller's own contracts about forwarding tables.
ghost use Rattle.prefix_trie_forwarding.specs.Laws.{ForwardingLaws};

use crate::hop::Hop;
use prefix_trie::laws::{lookup_laws, stored_laws};
use prefix_trie_bits::prefix::Ipv4Prefix;

/// Brings the laws of forwarding tables into the proof. It does nothing at run time.
///
/// They say which hop an address has after a network is inserted or removed, and which blocks of addresses have groups.
pub fn forwarding_laws()
    ensures { ForwardingLaws }
{
    lookup_laws::<Ipv4Prefix, Hop>();
    stored_laws::<Hop>();
}
