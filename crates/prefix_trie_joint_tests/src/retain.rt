//! `retain` calls one test with the entries of both families, the IPv4 ones first.
use crate::tables::{filled, networks};
use prefix_trie::Refusal;
use prefix_trie_joint::{IpPrefix, JointPrefixMap, JointPrefixSet};
use std::alloc::{Allocator, Global};

/// Keeps the entries of a map for which a test returns `true`.
#[tactic(auto, using(prefix_trie::proofs::Always::may_ask_of_map))]
fn keep_where<A: Allocator, F: FnMut(&IpPrefix, &u32) -> bool + Drop>(
    map: &mut JointPrefixMap<u32, A>,
    test: F,
)
    requires { F.IsAlwaysCallable test }
{
    map.retain(test);
}

/// Keeps the networks of a set for which a test returns `true`.
#[tactic(auto, using(prefix_trie::proofs::Always::may_ask_of_set))]
fn keep_keys_where<A: Allocator, F: FnMut(&IpPrefix) -> bool + Drop>(
    set: &mut JointPrefixSet<A>,
    test: F,
)
    requires { F.IsAlwaysCallable test }
{
    set.retain(test);
}

/// Networks of both families, with values from 1 on.
static ENTRIES: [(&str, u32); 5] = [
    ("10.0.0.0/8", 1),
    ("10.1.0.0/16", 2),
    ("11.0.0.0/8", 3),
    ("::/0", 4),
    ("2001:db8::/32", 5),
];

/// Returns whether a map keeps each second entry: the test goes on from one family to the other.
fn keeps_each_second(alloc: Global) -> Result<bool, Refusal> {
    let mut map = filled(alloc, &ENTRIES)?;
    let mut keeps = false;
    keep_where(&mut map, move |_, _| {
        keeps = !keeps;
        keeps
    });
    Ok(map.values().copied().eq([1, 3, 5]))
}

/// Returns whether a set keeps its long networks of both families.
fn keeps_long_networks(alloc: Global) -> Result<bool, Refusal> {
    let mut set = networks(alloc, &ENTRIES)?;
    keep_keys_where(&mut set, |network| network.prefix_len() > 8);
    Ok(set.len() == 2 && set.ipv4.len() == 1 && set.ipv6.len() == 1)
}

#[test]
fn a_test_goes_on_from_one_family_to_the_other(rt: HostRuntime) {
    assert!(rt; keeps_each_second(rt.alloc()) == Ok(true));
}

#[test]
fn a_set_keeps_networks_of_both_families(rt: HostRuntime) {
    assert!(rt; keeps_long_networks(rt.alloc()) == Ok(true));
}
