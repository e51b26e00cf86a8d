//! A burst of packets: one call finds the next hops of all addresses.
ghost use Rattle.std.specs.Prelude.{◌≡◌, ◌^◌, ◌<◌, ◌≤◌, All, length, map, take};
ghost use Rattle.std.specs.Option.{option_copied, option_map};
ghost use Rattle.prefix_trie.specs.Terms.{ipv4_address, longest_match};

use prefix_trie::{Ipv4Prefix, PrefixMap};
use std::alloc::Allocator;

/// Routes, each with the number of its next hop.
type Routes<A> = PrefixMap<Ipv4Prefix, u32, A>;

/// The largest number of packets in a burst.
pub const BURST: usize = 64;

/// Writes the next hop of each address, in the order of the addresses.
///
/// It is the hop of the longest route that contains the address, if there is one.
pub fn next_hops<A: Allocator>(table: &Routes<A>, addresses: &[u32], hops: &mut [Option<u32>])
    requires burst { length addresses.now ≤ 64 }
    requires same_length { length hops.old ≡ length addresses.now }
    ensures { hops.new
        ≡ map (λ addr. option_map
        (λ route. route.1) (longest_match table.now.entries (ipv4_address addr))) addresses.now }
{
    let count = addresses.len();
    let mut asked = [Ipv4Prefix::host(0); BURST];
    let mut found = [None; BURST];
    as_prefixes(addresses, &mut asked);
    table.get_lpm_value_bulk(&asked[..count], &mut found[..count]);
    copy_values(&found[..count], hops);
}

/// Writes the addresses as prefixes to the start of a slice.
fn as_prefixes(addresses: &[u32], prefixes: &mut [Ipv4Prefix])
    requires space { length addresses.now ≤ length prefixes.old }
    requires fit { All (λ p. (p.0 < 2 ^ 32) × (p.1 ≤ 32)) prefixes.old }
    ensures hosts { take (length addresses.now) prefixes.new
        ≡ map (λ addr. (addr, 32)) addresses.now }
    ensures fit { All (λ p. (p.0 < 2 ^ 32) × (p.1 ≤ 32)) prefixes.new }
    ensures length { length prefixes.new ≡ length prefixes.old }
{
    for i in 0..addresses.len() {
        prefixes[i] = Ipv4Prefix::host(addresses[i]);
    }
}

/// Copies values that are lent.
fn copy_values(found: &[Option<&u32>], values: &mut [Option<u32>])
    requires same_length { length values.old ≡ length found.now }
    ensures { values.new ≡ map option_copied found.now }
{
    for i in 0..found.len() {
        values[i] = found[i].copied();
    }
}
