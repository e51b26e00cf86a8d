//! Runs: with each allocation failing, and beside a sorted list.

mod callers;
mod mixed;

use crate::cases::found::slots_add_up;
use crate::contents::stores;
use crate::networks::v4;
use crate::refusing::Refusing;
use prefix_trie::replay::{Call, Reply, run};
use prefix_trie::{PrefixMap, Refusal};
use std::alloc::{AllocError, Allocator, Global};

/// More allocations than one run makes.
const MANY: u64 = 100;

type Key = (u32, u8);

type Map<A> = PrefixMap<Key, u64, A>;

/// Two networks that are stored before the run.
const TWO: [(Key, u64); 2] = [(v4!(0, 0, 0, 0; 0), 7), (v4!(10, 0, 0, 0; 8), 8)];

/// The results of the six calls as numbers, and then the number of nodes: if nothing fails, and if the insertion fails.
const GRANTED: [usize; 7] = [2, 1, 1, 1, 0, 3, 8];

const WITHOUT_INSERTION: [usize; 7] = [2, 1, 1, 1, 0, 2, 2];

/// The index of the insertion among the calls. The calls before it list entries, and the call after it counts them.
const INSERTION: usize = 4;

/// Runs six calls on a map.
fn run_six<A: Allocator + Clone>(
    alloc: A,
    map: &mut Map<A>,
) -> Result<Vec<Reply<Key, A>, A>, AllocError> {
    let calls = [
        Call::List,
        Call::ListFrom(v4!(0, 0, 0, 0; 0), false),
        Call::Children(v4!(10, 0, 0, 0; 8)),
        Call::Cover(v4!(0, 0, 0, 3; 32)),
        Call::Insert(v4!(0, 0, 0, 3; 32), 1),
        Call::Len,
    ];
    run(alloc, map, &calls)
}

/// Returns a reply as a number: a count of entries, or a value, or 0 if there is no value.
///
/// Returns `None` if an allocation failed.
fn number_of<A: Allocator>(reply: &Reply<Key, A>) -> Option<usize> {
    match reply {
        Reply::Entries(entries) => Some(entries.len()),
        Reply::Count(count) => Some(*count),
        Reply::Value(None) => Some(0),
        Reply::Refused(Refusal::Memory) => None,
        _ => Some(usize::MAX),
    }
}

/// Returns the index of the first call that failed, or the number of calls if none did.
fn first_refused<A: Allocator>(replies: &[Reply<Key, A>]) -> usize {
    for (index, reply) in replies.iter().enumerate() {
        if number_of(reply).is_none() {
            return index;
        }
    }
    replies.len()
}

/// Returns whether the call at an index fails if the first failure is at `first`.
///
/// It fails alone, or with all later calls that allocate.
fn is_refused(index: usize, first: usize, is_rest_refused: bool) -> bool {
    index == first || is_rest_refused && first < index && index <= INSERTION
}

/// Returns whether the replies and the map are as expected if the first failure is at `first`.
fn are_as_expected<A: Allocator>(
    replies: &[Reply<Key, A>],
    map: &Map<A>,
    first: usize,
    is_rest_refused: bool,
) -> bool {
    let wanted = if is_refused(INSERTION, first, is_rest_refused) {
        WITHOUT_INSERTION
    } else {
        GRANTED
    };
    for (index, reply) in replies.iter().enumerate() {
        let number = if is_refused(index, first, is_rest_refused) {
            None
        } else {
            wanted.get(index).copied()
        };
        if number_of(reply) != number {
            return false;
        }
    }
    (replies.len() == 6) & (map.len() == wanted[5]) & (map.node_count() == wanted[6])
}

/// Returns what failed first: 0 is the run itself, which then made no call, and the calls follow from 1 on.
///
/// Returns `None` if the replies or the map are not as expected.
fn first_refused_part<A: Allocator>(
    outcome: &Result<Vec<Reply<Key, A>, A>, AllocError>,
    map: &Map<A>,
    is_rest_refused: bool,
) -> Option<usize> {
    let (part, is_right) = match outcome {
        Ok(replies) => {
            let first = first_refused(replies);
            (
                first.wrapping_add(1),
                are_as_expected(replies, map, first, is_rest_refused),
            )
        }
        Err(AllocError) => (0, (map.len() == 2) & (map.node_count() == 2)),
    };
    (is_right & slots_add_up(map)).then_some(part)
}

/// Runs the calls with some allocations failing.
fn run_refused<A: Allocator + Clone>(
    heap: &Refusing<Global>,
    alloc: A,
    map: &mut Map<A>,
    requests: (u64, u64),
) -> Option<usize> {
    let is_stored = stores(map, &TWO);
    heap.refuse(requests.0, requests.1);
    let outcome = run_six(alloc, map);
    let part = first_refused_part(&outcome, map, requests.1 > 1);
    if is_stored { part } else { None }
}

/// Runs the calls on a new map.
fn run_once<A: Allocator + Copy>(
    heap: &Refusing<Global>,
    alloc: A,
    requests: (u64, u64),
) -> Result<Option<usize>, Refusal> {
    heap.refuse(0, 0);
    let mut map = PrefixMap::new(alloc)?;
    Ok(run_refused::<A>(heap, alloc, &mut map, requests))
}

/// Returns whether the failures come in the expected order.
///
/// First comes the list of replies, then each list and the insertion once or more often, and then no failure.
fn each_part_is_refused_once<A: Allocator + Copy>(
    heap: &Refusing<Global>,
    alloc: A,
    refused: u64,
) -> Result<bool, Refusal> {
    let mut last = 0;
    for passed in 0..MANY {
        let Some(part) = run_once(heap, alloc, (passed, refused))? else {
            return Ok(false);
        };
        if heap.left() == refused {
            return Ok(last == 5 && part == 7);
        }
        if part < last || last.wrapping_add(1) < part || (part == 0) != (passed == 0) {
            return Ok(false);
        }
        last = part;
    }
    Ok(false)
}

#[test]
fn a_run_loses_only_calls_whose_allocation_fails(rt: HostRuntime) {
    let heap = Refusing::new(rt.alloc());
    assert!(rt; each_part_is_refused_once(&heap, &heap, 1) == Ok(true));
    assert!(rt; each_part_is_refused_once(&heap, &heap, u64::MAX) == Ok(true));
}
