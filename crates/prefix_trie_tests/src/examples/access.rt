//! An access list: networks that are allowed, and networks that are denied.
ghost use Rattle.std.specs.Prelude.{◌≡◌, ◌&&◌, not, map, IfOk, IsTrue};
ghost use Rattle.std.specs.Option.{is_some};
ghost use Rattle.prefix_trie.specs.Terms.{covers, ipv4_address, ipv4_back, shortest_match, IsUncovered};

use prefix_trie::laws::{lookup_laws, walk_laws};
use prefix_trie::{Ipv4Prefix, PrefixSet};
use std::alloc::{AllocError, Allocator};

/// Networks that are allowed, or networks that are denied.
type Networks<A> = PrefixSet<Ipv4Prefix, A>;

/// Returns whether an address may enter: an allowed network contains it, and no denied one does.
pub fn may_enter<A: Allocator>(allowed: &Networks<A>, denied: &Networks<A>, addr: u32) -> bool
    ensures decides { result ≡ (is_some (shortest_match allowed.now.entries (ipv4_address addr))
        && not (is_some (shortest_match denied.now.entries (ipv4_address addr)))) }
    ensures kept_out { IsTrue result → IsUncovered denied.now.entries (ipv4_address addr) }
{
    lookup_laws::<Ipv4Prefix, ()>();
    let source = Ipv4Prefix::host(addr);
    allowed.is_covered(&source) && !denied.is_covered(&source)
}

/// Returns the denied networks that contain an address, the widest first.
pub fn reasons<A: Allocator>(
    denied: &Networks<A>,
    addr: u32,
    alloc: A,
) -> Result<Vec<Ipv4Prefix, A>, AllocError>
    ensures { IfOk result
        (λ networks. networks.items
        ≡ map (λ e. ipv4_back e.0) (covers denied.now.entries (ipv4_address addr))) }
{
    walk_laws::<Ipv4Prefix, ()>();
    denied.cover(&Ipv4Prefix::host(addr)).collect(alloc)
}
