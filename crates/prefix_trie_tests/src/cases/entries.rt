//! The calls that insert a value.
use crate::cases::{Pair, prefix_of};
use crate::contents::put;
use prefix_trie::map::Entry;
use prefix_trie::{Prefix, PrefixMap, Refusal, Refused};
use std::alloc::Allocator;

/// The calls that insert a value: of a map, of `Entry` and of `VacantEntry`.
#[derive(Clone, Copy)]
pub enum InsertVia {
    Map,
    Put,
    OrInsert,
    OrInsertWith,
    OrDefault,
    Insert,
    InsertWith,
    Default,
}

/// The previous value, or why the insertion failed.
pub type InsertResult = Result<Option<u64>, Refusal>;

/// A result that no table has.
const WRONG_RESULT: InsertResult = Ok(Some(u64::MAX));

/// Returns the result of an insertion without the value that it returns on failure.
pub fn without_value(answer: Result<Option<u64>, Refused<u64>>) -> InsertResult {
    match answer {
        Ok(before) => Ok(before),
        Err(refused) => Err(refused.cause),
    }
}

/// Returns the value that was there before a call lent this one, or `None` if it is the new value.
fn previous_value(lent: u64, value: u64) -> Option<u64> {
    (lent != value).then_some(lent)
}

/// Turns a lent value, or an error that returns the new one, into the result of an insertion.
pub fn result_of_lent(answer: Result<&mut u64, Refused<u64>>, value: u64) -> InsertResult {
    match answer {
        Ok(lent) => Ok(previous_value(*lent, value)),
        Err(refused) => Err(refused.cause),
    }
}

/// Turns a lent value that the call itself made, or an error, into the result of an insertion.
pub fn result_of_new(answer: Result<&mut u64, Refusal>, value: u64) -> InsertResult {
    match answer {
        Ok(lent) => Ok(previous_value(*lent, value)),
        Err(cause) => Err(cause),
    }
}

/// Returns the result if the closure was called exactly once for a vacant entry and never for an occupied one.
fn if_called_once(answer: InsertResult, calls: u64) -> InsertResult {
    if calls == u64::from(answer == Ok(None)) {
        answer
    } else {
        WRONG_RESULT
    }
}

/// Returns the entry of a prefix. It has no `ensures`, because each caller would check the clauses of `entry` again.
fn entry_at<P: Prefix, A: Allocator>(
    map: &mut PrefixMap<P, u64, A>,
    at: Pair<P::R>,
) -> Entry<'_, P, u64, A> {
    map.entry(prefix_of(at))
}

fn or_insert_with<P: Prefix, A: Allocator>(
    map: &mut PrefixMap<P, u64, A>,
    at: Pair<P::R>,
    value: u64,
) -> InsertResult {
    let mut calls = 0_u64;
    let answer = entry_at(map, at).or_insert_with(|| {
        calls = calls.saturating_add(1);
        value
    });
    if_called_once(result_of_new(answer, value), calls)
}

fn insert_with<P: Prefix, A: Allocator>(
    map: &mut PrefixMap<P, u64, A>,
    at: Pair<P::R>,
    value: u64,
) -> InsertResult {
    match entry_at(map, at) {
        Entry::Vacant(entry) => {
            let mut calls = 0_u64;
            let answer = entry.insert_with(|| {
                calls = calls.saturating_add(1);
                value
            });
            if_called_once(result_of_new(answer, value), calls)
        }
        Entry::Occupied(_) => WRONG_RESULT,
    }
}

/// Inserts by a call of a vacant entry that takes no closure.
fn insert_if_vacant<P: Prefix, A: Allocator>(
    map: &mut PrefixMap<P, u64, A>,
    call: InsertVia,
    at: Pair<P::R>,
    value: u64,
) -> InsertResult {
    match (entry_at(map, at), call) {
        (Entry::Vacant(entry), InsertVia::Insert) => { result_of_lent(entry.insert(value), value) }
        (Entry::Vacant(entry), _) => result_of_new(entry.default(), value),
        (Entry::Occupied(_), _) => WRONG_RESULT,
    }
}

/// Inserts a value by a call.
pub fn insert_via<P: Prefix, A: Allocator>(
    map: &mut PrefixMap<P, u64, A>,
    call: InsertVia,
    at: Pair<P::R>,
    value: u64,
) -> InsertResult {
    match call {
        InsertVia::Map => without_value(put(map, prefix_of(at), value)),
        InsertVia::Put => without_value(entry_at(map, at).put(value).answer()),
        InsertVia::OrInsert => { result_of_lent(entry_at(map, at).or_insert(value), value) }
        InsertVia::OrInsertWith => or_insert_with(map, at, value),
        InsertVia::OrDefault => result_of_new(entry_at(map, at).or_default(), value),
        InsertVia::InsertWith => insert_with(map, at, value),
        InsertVia::Insert | InsertVia::Default => insert_if_vacant(map, call, at, value),
    }
}

/// Removes a stored value through its entry. Returns whether it was this one.
pub fn removes_entry<P: Prefix, A: Allocator>(
    map: &mut PrefixMap<P, u64, A>,
    at: Pair<P::R>,
    before: u64,
) -> bool {
    match entry_at(map, at) {
        Entry::Occupied(entry) => entry.remove() == before,
        Entry::Vacant(_) => false,
    }
}
