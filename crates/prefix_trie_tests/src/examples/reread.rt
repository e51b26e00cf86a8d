//! Networks that are printed and read again, and networks that are compared.
ghost use Rattle.std.specs.Prelude.{◌≡◌, IfOk, Some};
ghost use Rattle.prefix_trie.specs.Terms.{ipv4_path, listing_cmp, HasNoHostBits};

use prefix_trie::laws::{network_order_laws, text_laws};
use prefix_trie::{Ipv4Prefix, Ipv6Prefix};
use std::alloc::{AllocError, Allocator};
use std::cmp::Ordering;

/// Prints a network and reads the text. The result is the network.
pub fn reread<A: Allocator>(network: Ipv4Prefix, alloc: A) -> Result<Option<Ipv4Prefix>, AllocError>
    ensures { IfOk result (λ read. read ≡ Some network) }
{
    text_laws();
    let _ = network.address();
    let text = network.to_string(alloc)?;
    Ok(text.parse::<Ipv4Prefix>().ok())
}

/// Prints an IPv6 network and reads the text. The result is the network.
pub fn reread_ipv6<A: Allocator>(
    network: Ipv6Prefix,
    alloc: A,
) -> Result<Option<Ipv6Prefix>, AllocError>
    ensures { IfOk result (λ read. read ≡ Some network) }
{
    text_laws();
    let _ = network.address();
    let text = network.to_string(alloc)?;
    Ok(text.parse::<Ipv6Prefix>().ok())
}

/// Compares networks without host bits in listing order, as a program does that merges two walks.
pub fn compare(a: &Ipv4Prefix, b: &Ipv4Prefix) -> Ordering
    ensures { HasNoHostBits 32 a.now → HasNoHostBits 32 b.now
        → result ≡ listing_cmp (ipv4_path a.now) (ipv4_path b.now) }
{
    network_order_laws();
    let _ = (a.address(), b.address());
    a.cmp(b)
}
