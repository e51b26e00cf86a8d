//! Maps and sets that are split: what stays if an allocation fails, and when values are dropped.
use crate::cases::found::{has_blocks, pair_of};
use crate::cases::prefix_of;
use crate::cases::sets::adds_key;
use crate::contents::adds;
use crate::drops::drop_now;
use crate::examples::splitting::split_and_merge;
use crate::networks::v4;
use crate::on_new::on_new;
use crate::refusing::Refusing;
use prefix_trie::{Ipv4Prefix, PrefixMap, PrefixSet, Refusal};
use std::alloc::{Allocator, Global};
use std::cell::Cell;

/// More allocations than one split makes.
const MANY: u64 = 1_000;

type Heap = Refusing<Global>;

/// A number that counts its own drop.
struct Numbered<'a> {
    number: u64,
    drops: &'a Cell<u64>,
}

impl Drop for Numbered<'_> {
    fn drop(self) {
        let Numbered { number: _, drops } = self;
        drops.set(drops.get().wrapping_add(1));
    }
}

type Map<'a, A> = PrefixMap<Ipv4Prefix, Numbered<'a>, A>;

/// Networks in one node, numbered from 1 on. The second contains the third and the fourth.
const NETWORKS: [(u32, u8); 6] = [
    v4!(192, 168, 0, 0; 21),
    v4!(192, 168, 0, 0; 22),
    v4!(192, 168, 0, 0; 23),
    v4!(192, 168, 0, 0; 24),
    v4!(192, 168, 4, 0; 22),
    v4!(192, 168, 4, 0; 23),
];

/// The numbers of all six networks.
const ALL: [u64; 6] = [1, 2, 3, 4, 5, 6];

/// Inserts the networks. Returns whether each is new.
fn insert_six<'a, A: Allocator>(map: &mut Map<'a, A>, drops: &'a Cell<u64>) -> bool {
    let mut number = 0_u64;
    for pair in &NETWORKS {
        number = number.wrapping_add(1);
        if !adds(map, prefix_of(*pair), Numbered { number, drops }) {
            return false;
        }
    }
    true
}

/// Returns a map of the six networks.
fn map_of_six<'a, A: Allocator + Clone>(
    heap: &Heap,
    alloc: A,
    drops: &'a Cell<u64>,
) -> Option<Map<'a, A>> {
    heap.refuse(0, 0);
    let mut map = PrefixMap::new(alloc).ok()?;
    let is_filled = insert_six(&mut map, drops);
    if is_filled { Some(map) } else { None }
}

/// Returns whether a map has exactly the networks with these numbers.
fn has_networks<A: Allocator>(map: &Map<'_, A>, numbers: &[u64]) -> bool {
    let mut entries = map.iter();
    for number in numbers {
        let network = NETWORKS.get((*number as usize).wrapping_sub(1)).copied();
        match entries.next() {
            Some((prefix, value)) if value.number == *number => {
                if network != Some(pair_of(prefix)) {
                    return false;
                }
            }
            _ => return false,
        }
    }
    entries.next().is_none()
}

/// Returns whether a map has exactly these networks, in the nodes and slots that all six needed.
fn has_in_five_nodes<A: Allocator>(map: &Map<'_, A>, numbers: &[u64]) -> bool {
    has_networks(map, numbers) & (map.node_count() == 5) & (map.cell_slots() == 15)
}

/// Returns whether a map has exactly the networks that the second contains, and no free slots.
fn is_part<A: Allocator>(map: &Map<'_, A>) -> bool {
    has_networks(map, &[2, 3, 4])
        & (map.node_count() == 5)
        & (map.node_slots() == 5)
        & (map.cell_slots() == 4)
        & has_blocks(&map.cell_blocks(), 4, 1, 0)
}

/// Splits a map of the six networks along the second.
///
/// Returns whether that succeeded, if no value is dropped and both maps are as expected, or if it failed and the map is
/// unchanged.
fn is_split<A: Allocator + Clone>(map: &mut Map<'_, A>, drops: &Cell<u64>) -> Option<bool> {
    match map.remove_children(&prefix_of(NETWORKS[1])) {
        Ok(part) => {
            let are_right = has_in_five_nodes(map, &[1, 5, 6])
                & is_part(&part)
                & (drops.get() == 0);
            drop_now(part);
            (are_right & (drops.get() == 3)).then_some(true)
        }
        Err(cause) => {
            let is_as_before = has_in_five_nodes(map, &ALL) & (drops.get() == 0);
            (is_as_before & (cause == Refusal::Memory)).then_some(false)
        }
    }
}

/// Splits a map with some allocations failing. Returns whether one failed, if the split succeeds when none does.
fn is_split_or_refused<A: Allocator + Clone>(
    heap: &Heap,
    map: &mut Map<'_, A>,
    drops: &Cell<u64>,
    passed: u64,
    refused: u64,
) -> Option<bool> {
    heap.refuse(passed, refused);
    let is_granted = is_split::<A>(map, drops)?;
    let is_refused = heap.left() != refused;
    (is_refused | is_granted).then_some(is_refused)
}

/// Splits a new map. Returns whether an allocation failed, if all six values are dropped with the maps.
fn is_split_anew<A: Allocator + Clone>(
    heap: &Heap,
    alloc: A,
    passed: u64,
    refused: u64,
) -> Option<bool> {
    let drops = Cell::new(0);
    let mut map = map_of_six(heap, alloc, &drops)?;
    let is_refused = is_split_or_refused::<A>(heap, &mut map, &drops, passed, refused);
    drop_now(map);
    if drops.get() == 6 { is_refused } else { None }
}

/// Splits new maps, with each allocation failing. Returns the number of allocations of a split.
fn requests_if_each_fails<A: Allocator + Copy>(heap: &Heap, alloc: A, refused: u64) -> Option<u64> {
    for passed in 0..MANY {
        if !is_split_anew(heap, alloc, passed, refused)? {
            return Some(passed);
        }
    }
    None
}

#[test]
fn a_split_is_complete_or_changes_nothing(rt: HostRuntime) {
    let heap = Refusing::new(rt.alloc());
    assert!(rt; requests_if_each_fails(&heap, &heap, 1) > Some(0));
    assert!(rt; requests_if_each_fails(&heap, &heap, u64::MAX) > Some(0));
}

/// Hosts in one network.
const HOSTS: [(u32, u8); 4] = [
    v4!(1, 2, 3, 0; 32),
    v4!(1, 2, 3, 1; 32),
    v4!(1, 2, 3, 2; 32),
    v4!(1, 2, 3, 3; 32),
];

/// Inserts the hosts into a set. Returns whether each is new.
fn insert_hosts<A: Allocator>(set: &mut PrefixSet<(u32, u8), A>) -> bool {
    for host in &HOSTS {
        if !adds_key(set, *host) {
            return false;
        }
    }
    true
}

/// Returns the number of keys of a set that was split off.
fn len_of<A: Allocator>(
    answer: Result<PrefixSet<(u32, u8), A>, Refusal>,
) -> Result<usize, Refusal> {
    match answer {
        Ok(part) => Ok(part.len()),
        Err(cause) => Err(cause),
    }
}

/// Returns whether a set of the hosts splits all of them off after an allocation failed once, and then none.
fn splits_off_hosts<A: Allocator + Clone>(set: &mut PrefixSet<(u32, u8), A>, heap: &Heap) -> bool {
    let are_put = insert_hosts(set);
    heap.refuse(0, u64::MAX);
    let refused = len_of(set.remove_children(&v4!(0, 0, 0, 7; 0)));
    let len = set.len();
    heap.refuse(0, 0);
    let all = len_of(set.remove_children(&v4!(0, 0, 0, 7; 0)));
    let none = len_of(set.remove_children(&v4!(0, 0, 0, 0; 9)));
    are_put
        & (refused == Err(Refusal::Memory))
        & (len == 4)
        & (all == Ok(4))
        & set.is_empty()
        & (none == Ok(0))
}

/// Returns whether a map of the six networks is split and merged again.
fn is_merged_again<A: Allocator + Clone>(map: &mut Map<'_, A>) -> bool {
    let count = split_and_merge(map, &prefix_of(NETWORKS[1]));
    (count == Ok(3)) & has_in_five_nodes(map, &ALL)
}

/// Returns whether a new map is split and merged again.
fn is_merged_again_anew<A: Allocator + Clone>(heap: &Heap, alloc: A) -> Option<bool> {
    let drops = Cell::new(0);
    let mut map = map_of_six(heap, alloc, &drops)?;
    Some(is_merged_again::<A>(&mut map))
}

// A split that always reports out of memory fails this test.
#[test]
fn a_split_succeeds_if_no_allocation_fails(rt: HostRuntime) {
    let heap = Refusing::new(rt.alloc());
    assert!(rt; on_new(PrefixSet::new(&heap), &heap, splits_off_hosts) == Ok(true));
    assert!(rt; is_merged_again_anew(&heap, &heap) == Some(true));
}
