//! Proved example programs, written as a user would write them.
pub mod access;
pub mod batch;
pub mod cache;
pub mod copy;
pub mod counter;
pub mod delegations;
pub mod expiry;
pub mod forwarding;
pub mod inventory;
pub mod merge;
pub mod pages;
pub mod pruning;
pub mod ranges;
pub mod reread;
pub mod rerouting;
pub mod routes_from_text;
pub mod scaling;
pub mod splitting;

use crate::contents::stores;
use crate::networks::v4;
use crate::on_new::{on_new, on_two_new};
use access::{may_enter, reasons};
use cache::store;
use copy::copy_of;
use counter::{add_all, total};
use delegations::{holder, record};
use forwarding::{add, next_hop};
use inventory::{addresses, count, next};
use pages::read_all;
use prefix_trie::{Ipv4Prefix, Ipv6Prefix, Narrow, PrefixMap, PrefixSet};
use pruning::without;
use ranges::{assign, owner};
use rerouting::{are_same, reroute};
use scaling::double_each;
use std::alloc::{AllocError, Global};

type Numbers = PrefixMap<Ipv4Prefix, u32, Global>;

type Delegated = PrefixMap<Ipv6Prefix, u32, Global>;

type Vlans = PrefixMap<(Narrow<12>, u8), u32, Global>;

type Networks = PrefixSet<Ipv4Prefix, Global>;

type Counts = PrefixMap<(u8, u8), u64, Global>;

/// A network, an address in it, and a network within it with one of its addresses.
const WIDE: u32 = v4!(10, 0, 0, 0);

const IN_WIDE: u32 = v4!(10, 2, 2, 3);

const NEAR: u32 = v4!(10, 1, 0, 0);

const IN_NEAR: u32 = v4!(10, 1, 2, 3);

/// An address outside of both.
const OUTSIDE: u32 = v4!(11, 0, 0, 0);

/// The address of an IPv6 network.
const SITE: u128 = 0x2001_0db8_0000_0000_0000_0000_0000_0000;

/// Returns whether two tables are equal until a route of one is changed, and then have different next hops.
fn differs_once_rerouted(map: &Numbers, copy: &mut Numbers) -> bool {
    are_same(map, copy)
        & !reroute(copy, OUTSIDE, 5)
        & are_same(map, copy)
        & reroute(copy, IN_NEAR, 4)
        & !are_same(map, copy)
        & (next_hop(copy, IN_NEAR) == Some(4))
        & (next_hop(copy, IN_WIDE) == Some(1))
}

/// Returns whether a table and its copy pass the same check.
fn is_copied(map: &Numbers, alloc: Global) -> bool {
    match copy_of(map, alloc) {
        Ok(mut copy) => differs_once_rerouted(map, &mut copy),
        Err(_) => false,
    }
}

/// Returns whether two nested networks work as a forwarding table, an inventory and a cache.
fn serves_two_networks(map: &mut Numbers) -> bool {
    let wide = Ipv4Prefix::new(WIDE, 8).unwrap();
    let near = Ipv4Prefix::new(NEAR, 16).unwrap();
    add(map, wide, 1).is_ok()
        & add(map, near, 2).is_ok()
        & (next_hop(map, IN_NEAR) == Some(2))
        & (next_hop(map, IN_WIDE) == Some(1))
        & next_hop(map, OUTSIDE).is_none()
        & (next(map, wide) == Some((near, 2)))
        & (count(map, wide) == 2)
        & (addresses(map) == Some(0x0100_0000))
        & (store(map, near, 3) == Ok(true))
        & (next_hop(map, IN_NEAR) == Some(3))
}

/// Returns whether the table and its copy work.
fn serves_two_networks_and_copy(map: &mut Numbers, alloc: Global) -> bool {
    serves_two_networks(map) & is_copied(map, alloc)
}

/// Returns whether exactly the addresses in a network have its holder.
fn is_held(table: &mut Delegated, _: ()) -> bool {
    let network = Ipv6Prefix::new(SITE, 32).unwrap();
    record(table, network, 7).is_ok()
        & (holder(table, SITE + 1) == Some(7))
        & holder(table, 1).is_none()
}

/// Returns whether this is the only network that denies an address.
fn is_reason(denied: &Networks, addr: u32, network: Ipv4Prefix, alloc: Global) -> bool {
    match reasons(denied, addr, alloc) {
        Ok(networks) => networks.as_slice() == [network].as_slice(),
        Err(AllocError) => false,
    }
}

/// Returns whether a network within an allowed one is denied, and no other address of it.
fn keeps_out(allowed: &mut Networks, denied: &mut Networks, alloc: Global) -> bool {
    let wide = Ipv4Prefix::new(WIDE, 8).unwrap();
    let near = Ipv4Prefix::new(NEAR, 16).unwrap();
    (allowed.insert(wide) == Ok(true))
        & (denied.insert(near) == Ok(true))
        & may_enter(allowed, denied, IN_WIDE)
        & !may_enter(allowed, denied, IN_NEAR)
        & !may_enter(allowed, denied, OUTSIDE)
        & is_reason(denied, IN_NEAR, near, alloc)
}

/// Returns whether numbers of 12 bits have the owner of the narrowest range around them.
fn is_owned(plan: &mut Vlans, _: ()) -> bool {
    let office = Narrow::<12>::new(0x640).unwrap();
    let printers = Narrow::<12>::new(0x642).unwrap();
    let guests = Narrow::<12>::new(0x7ff).unwrap();
    assign(plan, office, 8, 1).is_ok()
        & assign(plan, printers, 11, 2).is_ok()
        & (owner(plan, office) == Some(1))
        & (owner(plan, printers) == Some(2))
        & owner(plan, guests).is_none()
}

/// Returns whether the counts of two maps are added and doubled.
fn adds_up(counts: &mut Counts, more: &mut Counts) -> bool {
    let is_filled = stores(counts, &[((0xa0, 3), 1), ((0xa5, 8), 2)])
        & stores(more, &[((0xa5, 8), 5), ((0x80, 1), 7)])
        & add_all(counts, more).is_ok()
        & (total(counts) == 15);
    double_each(counts);
    is_filled & (total(counts) == 30)
}

/// Returns whether reading pages of two returns all three counts.
fn is_read(counts: &Counts, alloc: Global) -> bool {
    match read_all(counts, 2, alloc) {
        Ok(read) => read.as_slice()
            == [((0x80, 1), 14), ((0xa0, 3), 2), ((0xa5, 8), 14)].as_slice(),
        Err(AllocError) => false,
    }
}

/// Returns whether only the count that the other map does not have is left, in the root.
fn is_pruned(counts: &Counts, out: &Counts, alloc: Global) -> bool {
    match without(counts, out, alloc) {
        Ok(map) => (map.get(&(0xa0, 3)) == Some(&2)) & (map.len() == 1) & (map.node_count() == 1),
        Err(_) => false,
    }
}

/// Returns whether all three checks hold.
fn are_counts(counts: &mut Counts, more: &mut Counts, alloc: Global) -> bool {
    adds_up(counts, more) & is_read(counts, alloc) & is_pruned(counts, more, alloc)
}

#[test]
fn examples_run(rt: HostRuntime) {
    let alloc = rt.alloc();
    assert!(rt; on_new(PrefixMap::new(alloc), alloc, serves_two_networks_and_copy) == Ok(true));
    assert!(rt; on_new(PrefixMap::new(alloc), (), is_held) == Ok(true));
    let (allowed, denied) = (PrefixSet::new(alloc), PrefixSet::new(alloc));
    assert!(rt; on_two_new(allowed, denied, alloc, keeps_out) == Ok(true));
    assert!(rt; on_new(PrefixMap::new(alloc), (), is_owned) == Ok(true));
    let (counts, more) = (PrefixMap::new(alloc), PrefixMap::new(alloc));
    assert!(rt; on_two_new(counts, more, alloc, are_counts) == Ok(true));
}
