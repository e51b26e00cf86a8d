//! Delegations: IPv6 networks, each with the number of its holder.
ghost use Rattle.std.specs.Prelude.{◌≡◌, ◌≤◌, List, Bool, true, Some, IfSome, length, OnOk, OnErr};
ghost use Rattle.std.specs.Option.{option_map};
ghost use Rattle.prefix_trie.specs.Terms.{begins, ipv6_address, ipv6_path, longest_match};

use prefix_trie::laws::lookup_laws;
use prefix_trie::{Ipv6Prefix, PrefixMap};
use std::alloc::Allocator;
use std::io;

/// Networks, each with the number of its holder.
type Delegations<A> = PrefixMap<Ipv6Prefix, u32, A>;

/// Records the holder of a network. Its addresses then have this holder, unless a longer network contains them.
///
/// # Errors
///
/// Returns an error if an allocation fails. The table is unchanged then.
pub fn record<A: Allocator>(
    table: &mut Delegations<A>,
    network: Ipv6Prefix,
    holder: u32,
) -> io::Result<()>
    ensures found { OnOk result ((addr : List Bool) → begins (ipv6_path network) addr ≡ true
        → IfSome (longest_match table.old.entries addr)
        (λ known. length known.0 ≤ length (ipv6_path network))
        → longest_match table.new.entries addr ≡ Some (ipv6_path network, holder)) }
    ensures unchanged { OnErr result (table.new.entries ≡ table.old.entries) }
{
    lookup_laws::<Ipv6Prefix, u32>();
    table.insert(network, holder)?;
    Ok(())
}

/// Returns the holder of an address.
pub fn holder<A: Allocator>(table: &Delegations<A>, addr: u128) -> Option<u32>
    ensures { result
        ≡ option_map (λ found. found.1) (longest_match table.now.entries (ipv6_address addr)) }
{
    table.get_lpm_value(&Ipv6Prefix::host(addr)).copied()
}
