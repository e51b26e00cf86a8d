//! Sets that are collected from an iterator, with each allocation failing.
ghost use Rattle.std.specs.Prelude.{All};

use crate::refusing::Refusing;
use prefix_trie::{Prefix, PrefixSet, Refusal};
use std::alloc::{Allocator, Global};

/// More allocations than one call makes.
const MANY: u64 = 100;

type Heap = Refusing<Global>;

// Collects the prefixes of a vector into a set.
fn set_of_prefixes<P: Prefix, A: Allocator + Clone>(
    alloc: A,
    prefixes: Vec<P>,
) -> Result<PrefixSet<P, A>, Refusal>
    requires { All P.IsFitting prefixes.items }
{
    PrefixSet::from_iter(alloc, prefixes)
}

/// Collects two hosts and a network into a set. Returns its number of prefixes.
fn len_of_three(heap: &Heap) -> Result<usize, Refusal> {
    match vec![in heap.inner(); (0_u32, 32_u8), (0, 8), (0x8000_0000, 32)] {
        Ok(keys) => Ok(set_of_prefixes(heap, keys)?.len()),
        Err(_) => Err(Refusal::Memory),
    }
}

/// Collects the prefixes with each allocation failing.
///
/// Returns whether collecting fails exactly if an allocation does, and at last has three prefixes.
fn fails_exactly_if_refused(heap: &Heap, refused: u64) -> bool {
    for passed in 0..MANY {
        heap.refuse(passed, refused);
        let answer = len_of_three(heap);
        if heap.left() == refused {
            return 0 < passed && answer == Ok(3);
        }
        if answer != Err(Refusal::Memory) {
            return false;
        }
    }
    false
}

#[test]
fn collecting_a_set_fails_exactly_if_an_allocation_fails(rt: HostRuntime) {
    let heap = Refusing::new(rt.alloc());
    assert!(rt; fails_exactly_if_refused(&heap, 1) & fails_exactly_if_refused(&heap, u64::MAX));
}
