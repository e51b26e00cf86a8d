//! Runs each table, and each of its calls with each of the call's allocations failing.
use crate::tables::{APART, Case, KEPT, REMOVED, holds};
use prefix_trie::Refusal;
use prefix_trie_joint::JointPrefixMap;
use prefix_trie_tests::refusing::Refusing;
use std::alloc::Global;

/// More allocations than one call makes.
const MANY: u64 = 100;

/// Runs calls with no allocation failing, and returns whether each has its result.
fn run_all(
    map: &mut JointPrefixMap<u32, &Refusing<Global>>,
    cases: &[Case<'_>],
) -> Result<bool, Refusal> {
    for case in cases {
        if !holds(map, case)? {
            return Ok(false);
        }
    }
    Ok(true)
}

/// Runs a call with one allocation failing after `passed` others, on a map that has run the calls before it.
///
/// If the call is refused, the map must be as it was, and the call must have its result when it is made again.
fn run_refused(
    heap: &Refusing<Global>,
    before: &[Case<'_>],
    case: &Case<'_>,
    passed: u64,
) -> Result<bool, Refusal> {
    heap.refuse(0, 0);
    let mut map = JointPrefixMap::new(heap)?;
    if !run_all(&mut map, before)? {
        return Ok(false);
    }
    let Ok(copy) = map.clone() else {
        return Ok(false);
    };
    heap.refuse(passed, 1);
    match holds(&mut map, case) {
        Ok(is_right) => Ok(is_right),
        Err(_) => {
            heap.refuse(0, 0);
            Ok(map == copy && holds(&mut map, case)?)
        }
    }
}

/// Runs a call with each of its allocations failing, until none fails.
fn refuse_each(heap: &Refusing<Global>, before: &[Case<'_>], case: &Case<'_>) -> bool {
    for passed in 0..MANY {
        if run_refused(heap, before, case, passed) != Ok(true) {
            return false;
        }
        if heap.left() == 1 {
            return true;
        }
    }
    false
}

/// Runs each call of a table with each of its allocations failing.
fn refuse_in_turn(heap: &Refusing<Global>, cases: &[Case<'_>]) -> bool {
    for n in 0..cases.len() {
        if !refuse_each(heap, &cases[..n], &cases[n]) {
            return false;
        }
    }
    true
}

#[test]
fn families_are_apart(rt: HostRuntime) {
    assert!(rt; refuse_in_turn(&Refusing::new(rt.alloc()), &APART));
}

#[test]
fn removals_leave_the_other_family(rt: HostRuntime) {
    assert!(rt; refuse_in_turn(&Refusing::new(rt.alloc()), &REMOVED));
}

#[test]
fn entries_stay_when_memory_is_given_back(rt: HostRuntime) {
    assert!(rt; refuse_in_turn(&Refusing::new(rt.alloc()), &KEPT));
}
