//! The tables of cases, which run with each allocation failing, or without allocating.

mod blocks;
mod copies;
mod entries;
mod growth;
mod lookups;
mod removals;
mod shrinking;

use crate::trials::{FaultPlan, Table, run_all};
use std::test::Fail;

/// The tables that run with each allocation failing. Checking a static list costs a third of checking a constant one.
pub static EACH_REQUEST: [&[Table<'static, u32>]; 9] = [
    &growth::NEW_MAPS,
    &growth::GROWTHS,
    &growth::LIMITS,
    &lookups::ONE_NETWORK,
    &entries::VACANT,
    &copies::INDEPENDENT,
    &removals::OFF_THE_PATH,
    &removals::BY_LENGTH,
    &shrinking::FEWER_SLOTS,
];

/// The tables whose second part does not allocate.
pub static NO_REQUESTS: [&[Table<'static, u32>]; 4] = [
    &entries::OCCUPIED,
    &copies::INTO_FREE_BLOCKS,
    &blocks::AMONG_FREE,
    &shrinking::SHRUNK,
];

#[test]
fn tables_hold_with_each_allocation_failing(rt: HostRuntime) -> Result<(), Fail> {
    Ok(run_all(rt.alloc(), &EACH_REQUEST, FaultPlan::EachRequest)?)
}

#[test]
fn tables_hold_without_allocating(rt: HostRuntime) -> Result<(), Fail> {
    Ok(run_all(rt.alloc(), &NO_REQUESTS, FaultPlan::NoRequests)?)
}
