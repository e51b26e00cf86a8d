//! A router: routes come and go, and each packet gets the next hop of the longest route that contains its address.
ghost use Rattle.std.specs.Prelude.{◌≡◌, ◌++◌, IfOk, OnOk};
ghost use Rattle.prefix_trie.specs.Terms.{no_entries};
ghost use Rattle.prefix_trie_forwarding_tests.specs.Routing.{hops_at, hops_of_packets, routes_after};

use prefix_trie::{Ipv4Prefix, Refusal};
use prefix_trie_forwarding::{ForwardingTable, Hop};
use std::alloc::Allocator;

/// What a router hears.
#[derive(Clone, Copy)]
pub enum Event {
    /// A route was announced, with its next hop.
    Announced(Ipv4Prefix, Hop),
    /// A route was withdrawn.
    Withdrawn(Ipv4Prefix),
    /// A packet to this address came.
    Packet(u32),
}

/// The routes of a router.
type Routes<A> = ForwardingTable<Ipv4Prefix, A>;

/// Handles an event: changes the routes, or adds the next hop of a packet to a list.
fn handle<A: Allocator, B: Allocator>(
    table: &mut Routes<A>,
    event: Event,
    hops: &mut Vec<Option<Hop>, B>,
) -> Result<(), Refusal>
    ensures routes { OnOk result
        (table.new.map.entries ≡ routes_after table.old.map.entries event) }
    ensures hops { OnOk result
        (hops.new.items ≡ hops.old.items ++ hops_at table.old.map.entries event) }
{
    match event {
        Event::Announced(route, hop) => {
            table.insert(route, hop)?;
        }
        Event::Withdrawn(route) => {
            table.remove(&route);
        }
        Event::Packet(address) => hops
            .push(table.lookup(address))
            .map_err(|_| Refusal::Memory)?,
    }
    Ok(())
}

/// Returns the next hops of the packets, in order. A router starts without routes.
///
/// A packet's next hop is that of the longest match of its address among the routes after the events before it.
pub fn route<A: Allocator + Clone>(
    events: &[Event],
    alloc: A,
) -> Result<Vec<Option<Hop>, A>, Refusal>
    ensures { IfOk result (λ hops. hops.items ≡ hops_of_packets no_entries events.now) }
{
    let mut hops = Vec::new(alloc.clone()?);
    let mut table = ForwardingTable::with_root_bits(alloc, 16)?;
    for event in events {
        handle(&mut table, *event, &mut hops)?;
    }
    Ok(hops)
}
