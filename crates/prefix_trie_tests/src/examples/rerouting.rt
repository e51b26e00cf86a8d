//! Routes that are changed where they are stored, and tables that are compared.
ghost use Rattle.std.specs.Prelude.{◌≡◌, ◌↔◌, IsTrue, MatchOption, is_some};
ghost use Rattle.prefix_trie.specs.Terms.{ipv4_address, longest_match, with_entry};

use prefix_trie::laws::equal_laws;
use prefix_trie::{Ipv4Prefix, PrefixMap};
use std::alloc::Allocator;

/// Routes, each with the number of its next hop.
type Routes<A> = PrefixMap<Ipv4Prefix, u32, A>;

/// Changes the next hop of the longest route that contains an address. Returns whether there is one.
pub fn reroute<A: Allocator>(routes: &mut Routes<A>, addr: u32, hop: u32) -> bool
    ensures found { result ≡ is_some (longest_match routes.old.entries (ipv4_address addr)) }
    ensures changed { MatchOption (longest_match routes.old.entries (ipv4_address addr))
        (routes.new.entries ≡ routes.old.entries)
        (λ route. routes.new.entries ≡ with_entry routes.old.entries route.0 hop) }
{
    match routes.get_lpm_value_mut(&Ipv4Prefix::host(addr)) {
        Some(stored) => {
            *stored = hop;
            true
        }
        None => false,
    }
}

/// Returns whether two tables have the same routes with the same next hops.
pub fn are_same<A: Allocator>(routes: &Routes<A>, others: &Routes<A>) -> bool
    ensures { IsTrue result ↔ (routes.now.entries ≡ others.now.entries) }
{
    equal_laws::<Ipv4Prefix, u32>();
    // Tells the proof that both are maps.
    let _ = routes.len();
    let _ = others.len();
    routes == others
}
