//! An access list of both families.
ghost use Rattle.std.specs.Prelude.{◌≡◌};
ghost use Rattle.std.specs.Option.{is_some};
ghost use Rattle.prefix_trie.specs.Terms.{shortest_match};
ghost use Rattle.prefix_trie_joint.specs.Joined.{keys_of};
ghost use Rattle.prefix_trie_joint.specs.Networks.{ip_host, ip_path};

use prefix_trie_joint::{IpPrefix, JointPrefixSet};
use std::alloc::{Allocator, Global};
use std::net::IpAddr;

/// Returns whether a network of the list contains an address.
fn allows<A: Allocator>(list: &JointPrefixSet<A>, address: IpAddr) -> bool
    ensures { result ≡ is_some (shortest_match (keys_of list.now) (ip_path (ip_host address))) }
{
    list.is_covered(&IpPrefix::host(address))
}

/// Returns whether a list of both families allows the addresses in its networks, and no others.
fn allows_its_networks(alloc: Global) -> Option<bool> {
    let mut list = JointPrefixSet::new(alloc).ok()?;
    list.insert("10.0.0.0/8".parse().ok()?).ok()?;
    list.insert("2001:db8::/32".parse().ok()?).ok()?;
    Some(
        allows_text(&list, "10.1.2.3", true)
            & allows_text(&list, "2001:db8::1", true)
            & allows_text(&list, "11.0.0.1", false)
            & allows_text(&list, "::1", false),
    )
}

/// Returns whether `allows` returns the expected result for the address of a text.
fn allows_text(list: &JointPrefixSet<Global>, text: &str, expected: bool) -> bool {
    match text.parse() {
        Ok(address) => allows(list, address) == expected,
        Err(_) => false,
    }
}

#[test]
fn an_access_list_allows_addresses_of_both_families(rt: HostRuntime) {
    assert!(rt; allows_its_networks(rt.alloc()) == Some(true));
}
