//! Runs tables of cases on maps and on sets, with each allocation failing, or with all failing where none may be made.
use crate::cases::Case;
use crate::cases::under_test::{UnderTest, first_failure};
use crate::refusing::Refusing;
use prefix_trie::{Ipv4Prefix, Key, Prefix, PrefixMap, PrefixSet, Refusal};
use std::alloc::{Allocator, Global};

/// More allocations than one table makes.
const MANY: u64 = 1_000;

/// Cases in two parts. No allocation fails in the first part.
pub type Table<'a, K> = (&'a [Case<'a, K>], &'a [Case<'a, K>]);

/// The allocations that fail in a table's second part.
#[derive(Clone, Copy)]
pub enum FaultPlan {
    /// Each one, alone and with all later ones.
    EachRequest,
    /// All of them, and the second part must not allocate. Before that, each allocation of the first part fails.
    NoRequests,
}

/// Where a table fails.
#[derive(Debug, Drop)]
pub enum Failure {
    /// At this case of the first part.
    FirstPart(usize),
    /// At this case of the second part, after this many allocations passed, with this many to fail.
    SecondPart(usize, u64, u64),
    /// An empty map or set cannot be made, although no allocation is to fail.
    Refused(Refusal),
    /// The table makes no allocation that could fail, or too many.
    RequestCount,
}

impl From<Refusal> for Failure {
    fn from(cause: Refusal) -> Failure {
        Failure::Refused(cause)
    }
}

/// Runs both parts of a table. No allocation fails in the first part.
fn run_parts<K: Key, A: Allocator + Copy, M: UnderTest<K, A>>(
    heap: &Refusing<Global>,
    alloc: A,
    subject: &mut M,
    other: &mut M,
    table: &Table<'_, K>,
    requests: (u64, u64),
) -> Result<(), Failure> {
    heap.refuse(0, 0);
    if let Some(case) = first_failure::<K, A, M>(heap, alloc, subject, other, table.0) {
        return Err(Failure::FirstPart(case));
    }
    heap.refuse(requests.0, requests.1);
    match first_failure::<K, A, M>(heap, alloc, subject, other, table.1) {
        Some(case) => Err(Failure::SecondPart(case, requests.0, requests.1)),
        None => Ok(()),
    }
}

/// Runs a table on one subject, with a new one beside it.
fn run_parts_beside<K: Key, A: Allocator + Copy, M: UnderTest<K, A>>(
    heap: &Refusing<Global>,
    alloc: A,
    subject: &mut M,
    table: &Table<'_, K>,
    requests: (u64, u64),
) -> Result<(), Failure> {
    let mut other = M::create(alloc, None)?;
    run_parts::<K, A, M>(heap, alloc, subject, &mut other, table, requests)
}

/// Runs a table on two new subjects.
fn run_anew<K: Key, A: Allocator + Copy, M: UnderTest<K, A>>(
    heap: &Refusing<Global>,
    alloc: A,
    table: &Table<'_, K>,
    requests: (u64, u64),
) -> Result<(), Failure> {
    heap.refuse(0, 0);
    let mut subject = M::create(alloc, None)?;
    run_parts_beside::<K, A, M>(heap, alloc, &mut subject, table, requests)
}

/// Runs a table once for each allocation of its second part, which fails, and at last with none failing.
///
/// The next `refused - 1` allocations fail with it.
fn fail_from_each<K: Key, A: Allocator + Copy, M: UnderTest<K, A>>(
    heap: &Refusing<Global>,
    alloc: A,
    table: &Table<'_, K>,
    refused: u64,
) -> Result<(), Failure> {
    for passed in 0..MANY {
        run_anew::<K, A, M>(heap, alloc, table, (passed, refused))?;
        if heap.left() == refused {
            return if passed == 0 {
                Err(Failure::RequestCount)
            } else {
                Ok(())
            };
        }
    }
    Err(Failure::RequestCount)
}

/// Runs a table with each allocation of its second part failing, alone and with all later ones.
fn fail_each<K: Key, A: Allocator + Copy, M: UnderTest<K, A>>(
    heap: &Refusing<Global>,
    alloc: A,
    table: &Table<'_, K>,
) -> Result<(), Failure> {
    fail_from_each::<K, A, M>(heap, alloc, table, 1)?;
    fail_from_each::<K, A, M>(heap, alloc, table, u64::MAX)
}

/// Runs a table whose second part must not allocate. Before that, each allocation of the first part fails.
fn fail_if_requested<K: Key, A: Allocator + Copy, M: UnderTest<K, A>>(
    heap: &Refusing<Global>,
    alloc: A,
    table: &Table<'_, K>,
) -> Result<(), Failure> {
    fail_each::<K, A, M>(heap, alloc, &(&[], table.0))?;
    run_anew::<K, A, M>(heap, alloc, table, (0, u64::MAX))?;
    if heap.left() == u64::MAX {
        Ok(())
    } else {
        Err(Failure::RequestCount)
    }
}

/// Runs a table under a plan.
pub fn run_plan<K: Key, A: Allocator + Copy, M: UnderTest<K, A>>(
    heap: &Refusing<Global>,
    alloc: A,
    table: &Table<'_, K>,
    plan: FaultPlan,
) -> Result<(), Failure> {
    match plan {
        FaultPlan::EachRequest => fail_each::<K, A, M>(heap, alloc, table),
        FaultPlan::NoRequests => fail_if_requested::<K, A, M>(heap, alloc, table),
    }
}

/// Runs a table on maps and on sets that use this allocator.
fn run_on_both<P: Prefix + Copy + PartialEq, A: Allocator + Copy>(
    heap: &Refusing<Global>,
    alloc: A,
    table: &Table<'_, P::R>,
    plan: FaultPlan,
) -> Result<(), Failure> {
    run_plan::<P::R, A, PrefixMap<P, u64, A>>(heap, alloc, table, plan)?;
    run_plan::<P::R, A, PrefixSet<P, A>>(heap, alloc, table, plan)
}

/// Runs a table on maps and on sets.
pub fn on_both<P: Prefix + Copy + PartialEq>(
    heap: &Refusing<Global>,
    table: &Table<'_, P::R>,
    plan: FaultPlan,
) -> Result<(), Failure> {
    run_on_both::<P, &Refusing<Global>>(heap, heap, table, plan)
}

/// Runs tables on maps and on sets, with networks and with pairs as prefixes.
fn run_all_on_both(
    heap: &Refusing<Global>,
    tables: &[Table<'_, u32>],
    plan: FaultPlan,
) -> Result<(), Failure> {
    for table in tables {
        on_both::<Ipv4Prefix>(heap, table, plan)?;
        on_both::<(u32, u8)>(heap, table, plan)?;
    }
    Ok(())
}

/// Runs several lists of tables. Returns which list fails, and where.
pub fn run_all(
    alloc: Global,
    lists: &[&[Table<'_, u32>]],
    plan: FaultPlan,
) -> Result<(), (usize, Failure)> {
    let heap = Refusing::new(alloc);
    for (number, tables) in lists.iter().enumerate() {
        if let Err(failure) = run_all_on_both(&heap, tables, plan) {
            return Err((number, failure));
        }
    }
    Ok(())
}
