//! Aggregation, and collecting an intersection, with each allocation failing.
use prefix_trie::{Prefix, PrefixMap, Refusal};
use prefix_trie_ops::map::{aggregate, aggregate_consistent, intersection};
use prefix_trie_tests::refusing::Refusing;
use std::alloc::{Allocator, Global};

type Map<A> = PrefixMap<(u32, u8), u64, A>;

/// More allocations than an operation on the map makes.
const MANY: u64 = 100;

/// The entries of the map: 10.0.0.0/9, 10.128.0.0/9, 10.64.0.0/10 and 10.64.0.0/16.
static ENTRIES: [((u32, u8), u64); 4] = [
    ((0x0a00_0000, 9), 1),
    ((0x0a80_0000, 9), 1),
    ((0x0a40_0000, 10), 2),
    ((0x0a40_0000, 16), 2),
];

/// An operation that allocates, and the number of entries of its result on the map.
static OPERATIONS: [(Operation, usize); 3] = [
    (Operation::Aggregate, 2),
    (Operation::AggregateConsistent, 3),
    (Operation::CollectIntersection, 4),
];

#[derive(Clone, Copy)]
enum Operation {
    Aggregate,
    AggregateConsistent,
    /// The map's intersection with itself.
    CollectIntersection,
}

/// Creates the map.
fn filled<A: Allocator + Copy>(alloc: A) -> Result<Map<A>, Refusal> {
    let mut map = PrefixMap::new(alloc)?;
    for (prefix, value) in ENTRIES.iter() {
        if prefix.fits() {
            map.insert(*prefix, *value)?;
        }
    }
    Ok(map)
}

/// Collects the intersection of two maps, with the values of the left one.
fn collected<A: Allocator + Copy>(
    left: &Map<A>,
    right: &Map<A>,
    alloc: A,
) -> Result<Map<A>, Refusal> {
    let mut map = PrefixMap::new(alloc)?;
    for (prefix, value, _) in intersection(left, right) {
        if prefix.fits() {
            map.insert(prefix, *value)?;
        }
    }
    Ok(map)
}

/// Carries out an operation on a map. Returns the number of entries of its result.
fn result_len<A: Allocator + Copy>(
    operation: Operation,
    map: &mut Map<A>,
    alloc: A,
) -> Result<usize, Refusal> {
    match operation {
        Operation::Aggregate => {
            aggregate(map, alloc)?;
            Ok(map.len())
        }
        Operation::AggregateConsistent => {
            aggregate_consistent(map, alloc)?;
            Ok(map.len())
        }
        Operation::CollectIntersection => Ok(collected(map, map, alloc)?.len()),
    }
}

/// Carries out an operation on the map and lets allocations fail from then on, after `passed` of them.
///
/// Returns its result, and whether the map is as it was.
fn outcome<A: Allocator + Copy>(
    heap: &Refusing<Global>,
    alloc: A,
    operation: Operation,
    passed: u64,
    refused: u64,
) -> Result<(Result<usize, Refusal>, bool), Refusal> {
    heap.refuse(0, 0);
    let mut map = filled(alloc)?;
    let before = filled(alloc)?;
    heap.refuse(passed, refused);
    let result = result_len(operation, &mut map, alloc);
    Ok((result, map == before))
}

/// Carries out an operation once for each of its allocations, which fails, and at last with none failing.
///
/// Returns the number of allocations, if the operation fails exactly if one does, and leaves the map as it was then.
fn requests_if_each_fails(
    heap: &Refusing<Global>,
    operation: Operation,
    len: usize,
    refused: u64,
) -> Option<u64> {
    for passed in 0..MANY {
        let Ok((result, is_unchanged)) = outcome(heap, heap, operation, passed, refused) else {
            return None;
        };
        if heap.left() == refused {
            return (result == Ok(len)).then_some(passed);
        }
        if result != Err(Refusal::Memory) || !is_unchanged {
            return None;
        }
    }
    None
}

#[test]
fn operations_fail_exactly_if_an_allocation_fails(rt: HostRuntime) {
    let heap = Refusing::new(rt.alloc());
    for (operation, len) in OPERATIONS.iter() {
        assert!(rt; requests_if_each_fails(&heap, *operation, *len, 1).unwrap_or(0) > 0);
        assert!(rt; requests_if_each_fails(&heap, *operation, *len, u64::MAX).unwrap_or(0) > 0);
    }
}
