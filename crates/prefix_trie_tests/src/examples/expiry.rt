//! Entries that are kept by their values, such as the time they were last seen.
ghost use Rattle.std.specs.Prelude.{◌≡◌, nat_le, filter};
ghost use Rattle.prefix_trie.specs.Terms.{listing, needed};

use prefix_trie::{Prefix, PrefixMap};
use std::alloc::Allocator;

/// Keeps the entries whose values are at least this one.
#[tactic(auto, using(prefix_trie::proofs::Callers::may_ask_always))]
pub fn keep_from<P: Prefix, A: Allocator>(map: &mut PrefixMap<P, u64, A>, least: u64)
    ensures kept { listing map.new.entries
        ≡ filter (λ e. nat_le least e.1) (listing map.old.entries) }
    ensures nodes { map.new.nodes ≡ needed map.new.entries }
{
    map.retain(move |_, value| least <= *value);
}
