//! The maps and sets that cases call.
//!
//! A call may return `Memory` only if an allocation failed. It is then made again, with no failures from then on.
use crate::cases::Case;
use crate::refusing::Refusing;
use prefix_trie::{Key, Refusal};
use std::alloc::{Allocator, Global};

/// The calls that return memory.
#[derive(Clone, Copy)]
pub enum Shrinking {
    Compact,
    ShrinkToFit,
}

/// A map or a set of prefixes, which are passed as pairs. For a set, only the keys of entries count.
pub trait UnderTest<K: Key, A: Allocator + Copy>: Drop {
    /// Creates an empty one, with a slot limit or without.
    fn create(alloc: A, limit: Option<u32>) -> Result<Self, Refusal>;

    /// Makes the call of a case. `other` is the second map.
    ///
    /// Returns whether the result is the expected one, or `Memory` if the call does.
    fn makes(&mut self, other: &mut Self, alloc: A, case: &Case<'_, K>) -> Result<bool, Refusal>;

    /// Returns whether the arrays are as long as their blocks require.
    fn slots_add_up(&self) -> bool;
}

/// Replaces a value, if a new one was made.
pub fn replaces<V: Drop, E: Drop>(target: &mut V, made: Result<V, E>) -> Result<bool, Refusal> {
    match made {
        Ok(new) => {
            *target = new;
            Ok(true)
        }
        Err(_) => Err(Refusal::Memory),
    }
}

/// Returns whether a call has the expected result, or `Memory` if it returned that.
pub fn is_result<T: PartialEq + Drop>(
    answer: Result<T, Refusal>,
    wanted: Result<T, Refusal>,
) -> Result<bool, Refusal> {
    match answer {
        Err(Refusal::Memory) => Err(Refusal::Memory),
        _ => Ok(answer == wanted),
    }
}

/// Returns whether a planned failure has happened, or none was planned.
fn was_refused(heap: &Refusing<Global>) -> bool {
    (heap.left() != 1) & (heap.left() != u64::MAX)
}

/// Makes the call of a case, and makes it again if an allocation failed and it returned `Memory`.
fn holds_at_last<K: Key, A: Allocator + Copy, M: UnderTest<K, A>>(
    heap: &Refusing<Global>,
    alloc: A,
    subject: &mut M,
    other: &mut M,
    case: &Case<'_, K>,
) -> bool {
    let left = heap.left();
    let answer = subject.makes(other, alloc, case);
    if answer.is_ok() || heap.left() == left {
        return answer == Ok(true);
    }
    heap.refuse(0, 0);
    subject.makes(other, alloc, case) == Ok(true)
}

/// Makes the call of a case.
///
/// Returns whether the result is the expected one and the arrays are as long as they should be. Blocks are not compared
/// after a failed allocation, because a removal may keep its larger block.
fn holds<K: Key, A: Allocator + Copy, M: UnderTest<K, A>>(
    heap: &Refusing<Global>,
    alloc: A,
    subject: &mut M,
    other: &mut M,
    case: &Case<'_, K>,
) -> bool {
    let is_held = match case {
        Case::Slots(..) | Case::NodeBlocks(..) | Case::CellBlocks(..) if was_refused(heap) => true,
        _ => holds_at_last::<K, A, M>(heap, alloc, subject, other, case),
    };
    is_held & subject.slots_add_up()
}

/// Returns the index of the first case that does not hold, if there is one.
pub fn first_failure<K: Key, A: Allocator + Copy, M: UnderTest<K, A>>(
    heap: &Refusing<Global>,
    alloc: A,
    subject: &mut M,
    other: &mut M,
    cases: &[Case<'_, K>],
) -> Option<usize> {
    for (index, case) in cases.iter().enumerate() {
        if !holds::<K, A, M>(heap, alloc, subject, other, case) {
            return Some(index);
        }
    }
    None
}
