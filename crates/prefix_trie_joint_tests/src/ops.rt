//! Set operations and aggregation of both families, with each allocation failing once.
use crate::tables::{filled, networks};
use prefix_trie::Refusal;
use prefix_trie_joint::{JointPrefixMap, JointPrefixSet};
use prefix_trie_joint_ops::{map, set};
use prefix_trie_tests::refusing::Refusing;
use std::alloc::{Allocator, Global};

/// More allocations than an operation makes.
const MANY: u64 = 100;

/// The left map of each operation, and the map that is reduced.
static LEFT: [(&str, u32); 7] = [
    ("0.0.0.0/1", 1),
    ("128.0.0.0/1", 1),
    ("10.0.0.0/8", 1),
    ("::/1", 1),
    ("8000::/1", 1),
    ("2001:db8::/32", 2),
    ("2001:db8:1::/48", 2),
];

/// The right map of each operation.
static RIGHT: [(&str, u32); 3] = [("10.0.0.0/8", 3), ("128.0.0.0/2", 4), ("2001:db8::/32", 5)];

/// A walk over two maps, or over the sets of their networks, and the number of its items.
static WALKS: [(Walk, usize); 4] = [
    (Walk::Union, 8),
    (Walk::Intersection, 2),
    (Walk::Difference, 5),
    (Walk::CoveringDifference, 4),
];

/// An operation on the left map, or on the set of its networks, and the number of entries that it leaves.
static REDUCTIONS: [(Reduction, usize); 4] = [
    (Reduction::Aggregate, 3),
    (Reduction::AggregateConsistent, 5),
    (Reduction::AggregateSet, 2),
    (Reduction::AggregateConsistentSet, 4),
];

#[derive(Clone, Copy)]
enum Walk {
    Union,
    Intersection,
    Difference,
    CoveringDifference,
}

#[derive(Clone, Copy)]
enum Reduction {
    Aggregate,
    AggregateConsistent,
    AggregateSet,
    AggregateConsistentSet,
}

/// Returns the number of items of a walk over two maps.
fn count_in_maps(
    walk: Walk,
    left: &JointPrefixMap<u32, Global>,
    right: &JointPrefixMap<u32, Global>,
) -> usize {
    // The proof learns from it that a union has fewer items than `usize` can count.
    let _ = (left.len(), right.len());
    match walk {
        Walk::Union => map::union(left, right).count(),
        Walk::Intersection => map::intersection(left, right).count(),
        Walk::Difference => map::difference(left, right).count(),
        Walk::CoveringDifference => map::covering_difference(left, right).count(),
    }
}

/// Returns the number of networks of a walk over two sets.
fn count_in_sets(
    walk: Walk,
    left: &JointPrefixSet<Global>,
    right: &JointPrefixSet<Global>,
) -> usize {
    let _ = (left.len(), right.len());
    match walk {
        Walk::Union => set::union(left, right).count(),
        Walk::Intersection => set::intersection(left, right).count(),
        Walk::Difference => set::difference(left, right).count(),
        Walk::CoveringDifference => set::covering_difference(left, right).count(),
    }
}

/// Returns whether each walk has its number of items.
fn walks_count(alloc: Global) -> Result<bool, Refusal> {
    let left = filled(alloc, &LEFT)?;
    let right = filled(alloc, &RIGHT)?;
    let left_set = networks(alloc, &LEFT)?;
    let right_set = networks(alloc, &RIGHT)?;
    let mut is_right = true;
    for (walk, count) in WALKS.iter() {
        is_right &= count_in_maps(*walk, &left, &right) == *count;
        is_right &= count_in_sets(*walk, &left_set, &right_set) == *count;
    }
    Ok(is_right)
}

/// Returns whether the comparisons of sets look at networks of both families.
fn comparisons_hold(alloc: Global) -> Result<bool, Refusal> {
    let left = networks(alloc, &LEFT)?;
    let mut right = networks(alloc, &RIGHT)?;
    let is_common = set::intersects(&left, &right) && !set::is_disjoint(&left, &right);
    let is_apart = !set::is_subset(&right, &left);
    set::aggregate(&mut right, alloc)?;
    Ok(is_common && is_apart && right.len() == 3)
}

/// Carries out an operation on a map or on a set, and returns the number of entries that it leaves.
fn reduce<A: Allocator + Copy>(
    reduction: Reduction,
    map: &mut JointPrefixMap<u32, A>,
    set: &mut JointPrefixSet<A>,
    alloc: A,
) -> Result<usize, Refusal> {
    match reduction {
        Reduction::Aggregate => map::aggregate(map, alloc)?,
        Reduction::AggregateConsistent => map::aggregate_consistent(map, alloc)?,
        Reduction::AggregateSet => set::aggregate(set, alloc)?,
        Reduction::AggregateConsistentSet => set::aggregate_consistent(set, alloc)?,
    }
    match reduction {
        Reduction::Aggregate | Reduction::AggregateConsistent => Ok(map.len()),
        _ => Ok(set.len()),
    }
}

/// Carries out an operation on the left map, or on its networks, with an allocation failing after `passed` others.
///
/// Returns its result, and whether the map and the set are as they were.
fn outcome(
    heap: &Refusing<Global>,
    reduction: Reduction,
    passed: u64,
) -> Result<(Result<usize, Refusal>, bool), Refusal> {
    heap.refuse(0, 0);
    let (mut map, mut set) = (filled(heap, &LEFT)?, networks(heap, &LEFT)?);
    let before = (filled(heap, &LEFT)?, networks(heap, &LEFT)?);
    heap.refuse(passed, 1);
    let result = reduce(reduction, &mut map, &mut set, heap);
    Ok((result, map == before.0 && set == before.1))
}

/// Carries out an operation once for each of its allocations, which fails, and at last with none failing.
///
/// Returns whether it fails exactly if an allocation does, leaves its map or set as it was then, and `len` entries at last.
fn fails_cleanly(heap: &Refusing<Global>, reduction: Reduction, len: usize) -> bool {
    for passed in 0..MANY {
        let Ok((result, is_unchanged)) = outcome(heap, reduction, passed) else {
            return false;
        };
        if heap.left() == 1 {
            return passed > 0 && result == Ok(len);
        }
        if result != Err(Refusal::Memory) || !is_unchanged {
            return false;
        }
    }
    false
}

#[test]
fn walks_are_of_both_families(rt: HostRuntime) {
    assert!(rt; walks_count(rt.alloc()) == Ok(true));
}

#[test]
fn sets_are_compared_in_both_families(rt: HostRuntime) {
    assert!(rt; comparisons_hold(rt.alloc()) == Ok(true));
}

#[test]
fn reductions_fail_exactly_if_an_allocation_fails(rt: HostRuntime) {
    let heap = Refusing::new(rt.alloc());
    for (reduction, len) in REDUCTIONS.iter() {
        assert!(rt; fails_cleanly(&heap, *reduction, *len));
    }
}
