//! A table of countries by networks of both families.
ghost use Rattle.std.specs.Prelude.{◌≡◌, List, Bool, IfOk, MatchOption};
ghost use Rattle.std.specs.Option.{option_map};
ghost use Rattle.prefix_trie.specs.Terms.{longest_match, no_entries, put_all, IsLongestMatch, IsUncovered};
ghost use Rattle.prefix_trie_joint.specs.Joined.{entries_of};
ghost use Rattle.prefix_trie_joint.specs.Networks.{ip_host, ip_path};

use prefix_trie::Refusal;
use prefix_trie::laws::lookup_laws;
use prefix_trie_joint::{IpPrefix, JointPrefixMap};
use std::alloc::{Allocator, Global};
use std::net::IpAddr;

/// Builds a table. If a network occurs twice, the later country stays.
fn table_of<A: Allocator + Clone>(
    networks: &[(IpPrefix, u16)],
    alloc: A,
) -> Result<JointPrefixMap<u16, A>, Refusal>
    ensures { IfOk result
        (λ table. entries_of table ≡ put_all ip_path networks.now no_entries) }
{
    let mut table = JointPrefixMap::new(alloc)?;
    for (network, country) in networks {
        table.insert(*network, *country)?;
    }
    Ok(table)
}

/// Returns the country of the longest network that contains an address.
fn country_of<A: Allocator>(table: &JointPrefixMap<u16, A>, address: IpAddr) -> Option<u16>
    ensures value { result
        ≡ option_map (λ found. found.1)
        (longest_match (entries_of table.now) (ip_path (ip_host address))) }
    ensures longest { MatchOption result
        (IsUncovered (entries_of table.now) (ip_path (ip_host address)))
        (λ country. (network : List Bool)
        × IsLongestMatch (entries_of table.now) (ip_path (ip_host address)) (network, country)) }
{
    lookup_laws::<IpPrefix, u16>();
    table.get_lpm_value(&IpPrefix::host(address)).copied()
}

/// Returns whether the table finds the country of addresses of both families.
fn finds_countries(alloc: Global) -> Option<bool> {
    let networks = [
        ("192.0.2.0/24".parse().ok()?, 41),
        ("2001:db8::/32".parse().ok()?, 49),
        ("2001:db8:8000::/33".parse().ok()?, 33),
    ];
    let table = table_of(&networks, alloc).ok()?;
    Some(
        finds(&table, "192.0.2.7", Some(41))
            & finds(&table, "2001:db8::1", Some(49))
            & finds(&table, "2001:db8:8000::1", Some(33))
            & finds(&table, "::1", None),
    )
}

/// Returns whether the country for the address of a text is the wanted one.
fn finds(table: &JointPrefixMap<u16, Global>, text: &str, wanted: Option<u16>) -> bool {
    match text.parse() {
        Ok(address) => country_of(table, address) == wanted,
        Err(_) => false,
    }
}

#[test]
fn a_country_table_finds_addresses_of_both_families(rt: HostRuntime) {
    assert!(rt; finds_countries(rt.alloc()) == Some(true));
}
