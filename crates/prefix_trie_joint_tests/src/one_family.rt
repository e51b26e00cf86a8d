//! The tables of `prefix_trie_tests` on joint maps and sets, with IPv4 networks and with IPv6 networks.
mod maps;
mod sets;

use crate::one_family::maps::MapOf;
use crate::one_family::sets::SetOf;
use prefix_trie::{Ipv4Prefix, Ipv6Prefix, Prefix};
use prefix_trie_joint::IpPrefix;
use prefix_trie_tests::cases::{Pair, prefix_of};
use prefix_trie_tests::refusing::Refusing;
use prefix_trie_tests::tables::{EACH_REQUEST, NO_REQUESTS};
use prefix_trie_tests::trials::{Failure, FaultPlan, Table, run_plan};
use std::alloc::Global;
use std::test::Fail;

/// Returns the network of a pair. For version 6, the bits of the pair are the first bits of the address.
fn network<const VERSION: u32>(pair: Pair<u32>) -> IpPrefix {
    if VERSION == 4 {
        return IpPrefix::V4(prefix_of::<Ipv4Prefix>(pair));
    }
    let (bits, len) = pair;
    IpPrefix::V6(prefix_of::<Ipv6Prefix>((u128::from(bits) << 96, len.min(32))))
}

/// Returns the pair of a network.
fn pair_of(network: IpPrefix) -> Pair<u32> {
    match network {
        IpPrefix::V4(network) => (network.repr(), network.prefix_len()),
        IpPrefix::V6(network) => ((network.repr() >> 96) as u32, network.prefix_len()),
    }
}

/// Runs a table on maps and on sets, with the networks of each family.
fn run_on_each(
    heap: &Refusing<Global>,
    table: &Table<'_, u32>,
    plan: FaultPlan,
) -> Result<(), Failure> {
    run_plan::<u32, &Refusing<Global>, MapOf<4, &Refusing<Global>>>(heap, heap, table, plan)?;
    run_plan::<u32, &Refusing<Global>, MapOf<6, &Refusing<Global>>>(heap, heap, table, plan)?;
    run_plan::<u32, &Refusing<Global>, SetOf<4, &Refusing<Global>>>(heap, heap, table, plan)?;
    run_plan::<u32, &Refusing<Global>, SetOf<6, &Refusing<Global>>>(heap, heap, table, plan)
}

/// Runs several lists of tables. Returns which list fails, and where.
fn run_all(
    alloc: Global,
    lists: &[&[Table<'_, u32>]],
    plan: FaultPlan,
) -> Result<(), (usize, Failure)> {
    let heap = Refusing::new(alloc);
    for (number, tables) in lists.iter().enumerate() {
        for table in *tables {
            if let Err(failure) = run_on_each(&heap, table, plan) {
                return Err((number, failure));
            }
        }
    }
    Ok(())
}

#[test]
fn tables_hold_with_each_allocation_failing(rt: HostRuntime) -> Result<(), Fail> {
    Ok(run_all(rt.alloc(), &EACH_REQUEST, FaultPlan::EachRequest)?)
}

#[test]
fn tables_hold_without_allocating(rt: HostRuntime) -> Result<(), Fail> {
    Ok(run_all(rt.alloc(), &NO_REQUESTS, FaultPlan::NoRequests)?)
}
