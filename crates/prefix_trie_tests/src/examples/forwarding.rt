//! A forwarding table, which sends an address to the next hop of the longest route that contains it.
ghost use Rattle.std.specs.Prelude.{◌≡◌, List, Bool, IfOk, OnOk, OnErr, MatchOption};
ghost use Rattle.std.specs.Option.{option_map};
ghost use Rattle.prefix_trie.specs.Terms.{ipv4_address, ipv4_path, longest_match, no_entries, put_all, with_entry, IsLongestMatch, IsUncovered};

use prefix_trie::laws::lookup_laws;
use prefix_trie::{Ipv4Prefix, PrefixMap, Refusal};
use std::alloc::Allocator;

/// Routes, each with the number of its next hop.
pub type Routes<A> = PrefixMap<Ipv4Prefix, u32, A>;

/// Returns the next hop of the longest route that contains an address.
pub fn next_hop<A: Allocator>(table: &Routes<A>, addr: u32) -> Option<u32>
    ensures value { result
        ≡ option_map (λ route. route.1) (longest_match table.now.entries (ipv4_address addr)) }
    ensures longest { MatchOption result (IsUncovered table.now.entries (ipv4_address addr))
        (λ hop. (route : List Bool)
        × IsLongestMatch table.now.entries (ipv4_address addr) (route, hop)) }
{
    lookup_laws::<Ipv4Prefix, u32>();
    table.get_lpm_value(&Ipv4Prefix::host(addr)).copied()
}

/// Adds a route, or replaces its next hop.
pub fn add<A: Allocator>(table: &mut Routes<A>, route: Ipv4Prefix, hop: u32) -> Result<(), Refusal>
    ensures added { OnOk result
        (table.new.entries ≡ with_entry table.old.entries (ipv4_path route) hop) }
    ensures unchanged { OnErr result (table.new.entries ≡ table.old.entries) }
{
    table.insert(route, hop)?;
    Ok(())
}

/// Builds a table. If a network occurs twice, the later route stays.
pub fn table_of<A: Allocator + Clone>(
    routes: &[(Ipv4Prefix, u32)],
    alloc: A,
) -> Result<Routes<A>, Refusal>
    ensures { IfOk result (λ table. table.entries ≡ put_all ipv4_path routes.now no_entries) }
{
    let mut table = PrefixMap::new(alloc)?;
    for (route, hop) in routes {
        add(&mut table, *route, *hop)?;
    }
    Ok(table)
}
