//! An inventory: networks, each with the number of its owner.
ghost use Rattle.std.specs.Prelude.{◌≡◌, length};
ghost use Rattle.prefix_trie.specs.Terms.{address_total, first_item, ipv4_back, ipv4_path, listing_after, listing_below, prefix_pairs};

use prefix_trie::laws::{network_laws, walk_laws};
use prefix_trie::{Ipv4Prefix, PrefixMap};
use std::alloc::Allocator;

/// Networks, each with the number of its owner.
type Inventory<A> = PrefixMap<Ipv4Prefix, u32, A>;

/// Returns the first network after the one that was read last, and its owner.
pub fn next<A: Allocator>(networks: &Inventory<A>, last: Ipv4Prefix) -> Option<(Ipv4Prefix, u32)>
    ensures { result
        ≡ first_item
        (prefix_pairs ipv4_back (listing_after networks.now.entries (ipv4_path last))) }
{
    match networks.iter_from(&last, false).next() {
        Some((network, owner)) => Some((network, *owner)),
        None => None,
    }
}

/// Returns the number of networks within a block.
pub fn count<A: Allocator>(networks: &Inventory<A>, block: Ipv4Prefix) -> usize
    ensures { result ≡ length (listing_below networks.now.entries (ipv4_path block)) }
{
    walk_laws::<Ipv4Prefix, u32>();
    networks.children(&block).count()
}

/// Returns the number of addresses in all networks, each counted once, or `None` if they are all addresses.
pub fn addresses<A: Allocator>(networks: &Inventory<A>) -> Option<u32>
    ensures { result ≡ address_total 32 networks.now.entries }
{
    network_laws();
    networks.address_count()
}
