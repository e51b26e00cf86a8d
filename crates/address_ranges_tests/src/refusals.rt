//! Each call that allocates, with each of its allocations failing.
use address_ranges::{AddressSet, AddressSetBuilder, networks_of};
use prefix_trie_tests::refusing::Refusing;
use std::alloc::{AllocError, Allocator, Global};

type Set<A> = AddressSet<(u8, u8), A>;

/// More allocations than a call makes.
const MANY: u64 = 100;

#[derive(Clone, Copy)]
enum Call {
    BuildInOrder,
    BuildFromTheLast,
    InsertBefore,
    Union,
    Intersection,
    Difference,
    SymmetricDifference,
    Complement,
    Copy,
    CollectNetworks,
    NetworksOfARange,
}

/// The calls, the number of ranges or networks that each returns, and how many of its allocations may fail alone: a list of
/// networks that cannot grow as usual grows less.
static CALLS: [(Call, usize, u64); 11] = [
    (Call::BuildInOrder, 20, 0),
    (Call::BuildFromTheLast, 20, 0),
    (Call::InsertBefore, 21, 0),
    (Call::Union, 33, 0),
    (Call::Intersection, 7, 0),
    (Call::Difference, 13, 0),
    (Call::SymmetricDifference, 26, 0),
    (Call::Complement, 21, 0),
    (Call::Copy, 20, 0),
    (Call::CollectNetworks, 20, 4),
    (Call::NetworksOfARange, 14, 3),
];

/// Returns the set of 20 addresses that are each `step` more than the one before, the first one 2, added in this order or from
/// the last one.
fn set_of<A: Allocator + Clone>(
    step: u8,
    is_falling: bool,
    alloc: A,
) -> Result<Set<A>, AllocError> {
    let mut builder = AddressSetBuilder::new(alloc)?;
    for i in 0..20_u8 {
        let k = if is_falling { 19 - i } else { i };
        let address = k.wrapping_mul(step).wrapping_add(2);
        builder.add_range(address, address)?;
    }
    builder.finish()
}

/// Makes a call. Returns the number of ranges or networks of its result.
fn result_len<A: Allocator + Copy>(
    call: Call,
    left: &mut Set<A>,
    right: &Set<A>,
    alloc: A,
) -> Result<usize, AllocError> {
    Ok(match call {
        Call::BuildInOrder => set_of(4, false, alloc)?.len(),
        Call::BuildFromTheLast => set_of(4, true, alloc)?.len(),
        Call::InsertBefore => {
            left.insert_range(0, 0)?;
            left.len()
        }
        Call::Union => left.union(right, alloc)?.len(),
        Call::Intersection => left.intersection(right, alloc)?.len(),
        Call::Difference => left.difference(right, alloc)?.len(),
        Call::SymmetricDifference => left.symmetric_difference(right, alloc)?.len(),
        Call::Complement => left.complement(alloc)?.len(),
        Call::Copy => left.clone()?.len(),
        Call::CollectNetworks => left.collect_networks(alloc)?.len(),
        Call::NetworksOfARange => networks_of::<(u8, u8), A>(1, 254, alloc)?.len(),
    })
}

/// Makes a call on two sets, and lets allocations fail from then on, after `passed` of them.
///
/// Returns its result, and whether the left set is as it was.
fn outcome<A: Allocator + Copy>(
    heap: &Refusing<Global>,
    alloc: A,
    call: Call,
    passed: u64,
    refused: u64,
) -> Result<(Result<usize, AllocError>, bool), AllocError> {
    heap.refuse(0, 0);
    let mut left = set_of(4, false, alloc)?;
    let right = set_of(6, false, alloc)?;
    let before = left.clone()?;
    heap.refuse(passed, refused);
    let result = result_len(call, &mut left, &right, alloc);
    Ok((result, left == before))
}

/// Makes a call once for each of its allocations, which fails alone or with all after it, and at last with none failing.
///
/// Returns how many of the failures left the result as it is, or `None` if one of the others did not make the call fail, or
/// changed the set.
fn harmless_failures(heap: &Refusing<Global>, call: Call, len: usize, refused: u64) -> Option<u64> {
    let mut harmless = 0;
    for passed in 0..MANY {
        let (result, is_unchanged) = outcome(heap, heap, call, passed, refused).ok()?;
        if heap.left() == refused {
            return (passed > 0 && result == Ok(len)).then_some(harmless);
        }
        if result == Ok(len) {
            harmless = harmless.saturating_add(1);
        } else if result != Err(AllocError) || !is_unchanged {
            return None;
        }
    }
    None
}

#[test]
fn calls_fail_exactly_if_memory_is_missing(rt: HostRuntime) {
    let heap = Refusing::new(rt.alloc());
    for (call, len, harmless) in CALLS.iter() {
        assert_eq!(rt; harmless_failures(&heap, *call, *len, 1), Some(*harmless));
        assert_eq!(rt; harmless_failures(&heap, *call, *len, u64::MAX), Some(0));
    }
}
