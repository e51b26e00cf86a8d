//! Runs: lists of calls, each with its expected reply.
ghost use Rattle.std.specs.Prelude.{All, IfSome, IfOk};
ghost use Rattle.prefix_trie.specs.Terms.{IsFittingCall};

use crate::table::{Entry, Map, Number, Pair, TablePrefix, fitting_prefix, is_number, is_prefix};
use prefix_trie::replay::{Call, Reply, run};
use prefix_trie::{Prefix, PrefixMap, Refusal};
use std::alloc::{AllocError, Global};

/// A call of a run with its expected reply.
#[derive(Drop)]
pub struct RunCall(pub Call<Pair>, pub ExpectedReply);

/// A reply as tables write it.
#[derive(Drop)]
pub enum ExpectedReply {
    Value(Option<u64>),
    Match(Option<Entry>),
    Done,
    Count(usize),
    Addresses(Option<Number>),
    Entries(&'static [Entry]),
    Refused(Refusal),
}

/// Returns whether a run on a new map with this slot limit gives the expected replies.
///
/// # Errors
///
/// Returns an error if the map cannot be made.
pub fn all_reply<P: TablePrefix>(
    alloc: Global,
    limit: u32,
    lines: &[RunCall],
) -> Result<bool, Refusal> {
    let mut map: Map<P> = PrefixMap::with_slot_limit(alloc, limit)?;
    Ok(reply_in_order(alloc, &mut map, lines) == Ok(true))
}

/// Returns whether a run on a map gives the expected replies.
///
/// # Errors
///
/// Returns an error if there is no memory for the calls or the replies.
fn reply_in_order<P: TablePrefix>(
    alloc: Global,
    map: &mut Map<P>,
    lines: &[RunCall],
) -> Result<bool, AllocError> {
    match calls_of::<P>(alloc, lines)? {
        Some(calls) => Ok(are_expected(&run(alloc, map, &calls)?, lines)),
        None => Ok(false),
    }
}

/// Returns the calls of a run, if all their prefixes fit.
fn calls_of<P: TablePrefix>(
    alloc: Global,
    lines: &[RunCall],
) -> Result<Option<Vec<Call<P>>>, AllocError>
    ensures { IfOk result (λ calls. IfSome calls (λ c. All (IsFittingCall P.IsFitting) c.items)) }
{
    let mut calls = Vec::new(alloc);
    for line in lines {
        match call_of::<P>(&line.0) {
            Some(call) => calls.push(call)?,
            None => return Ok(None),
        }
    }
    Ok(Some(calls))
}

/// Returns a call with the map's type of prefix, if the prefix fits.
fn call_of<P: TablePrefix>(call: &Call<Pair>) -> Option<Call<P>>
    ensures { IfSome result (IsFittingCall P.IsFitting) }
{
    match call {
        Call::Insert(pair, value) => Some(Call::Insert(fitting_prefix(*pair)?, *value)),
        Call::Get(pair) => Some(Call::Get(fitting_prefix(*pair)?)),
        Call::Lpm(pair) => Some(Call::Lpm(fitting_prefix(*pair)?)),
        Call::Clear => Some(Call::Clear),
        Call::Len => Some(Call::Len),
        Call::NodeCount => Some(Call::NodeCount),
        Call::AddressCount => Some(Call::AddressCount),
        Call::List => Some(Call::List),
        _ => None,
    }
}

/// Returns whether there is one reply for each call, and each is the expected one.
fn are_expected<P: Prefix>(replies: &[Reply<P, Global>], lines: &[RunCall]) -> bool {
    let mut rest = replies.iter();
    for line in lines {
        match rest.next() {
            Some(reply) if is_expected(reply, &line.1) => {}
            _ => return false,
        }
    }
    rest.next().is_none()
}

fn is_expected<P: Prefix>(reply: &Reply<P, Global>, wanted: &ExpectedReply) -> bool {
    match (reply, wanted) {
        (Reply::Value(value), ExpectedReply::Value(expected)) => value == expected,
        (Reply::Match(found), ExpectedReply::Match(expected)) => is_match(found, expected),
        (Reply::Done, ExpectedReply::Done) => true,
        (Reply::Count(count), ExpectedReply::Count(expected)) => count == expected,
        (Reply::Addresses(count), ExpectedReply::Addresses(expected)) => is_number(
            *count, *expected,
        ),
        (Reply::Entries(entries), ExpectedReply::Entries(expected)) => are_entries(
            entries, expected,
        ),
        (Reply::Refused(cause), ExpectedReply::Refused(expected)) => cause == expected,
        _ => false,
    }
}

fn is_match<P: Prefix>(found: &Option<(P, u64)>, expected: &Option<Entry>) -> bool {
    match (found, expected) {
        (Some(entry), Some(expected)) => is_expected_entry(entry, expected),
        (None, None) => true,
        _ => false,
    }
}

fn are_entries<P: Prefix>(entries: &[(P, u64)], expected: &[Entry]) -> bool {
    for (entry, expected) in entries.iter().zip(expected) {
        if !is_expected_entry(entry, expected) {
            return false;
        }
    }
    entries.len() == expected.len()
}

fn is_expected_entry<P: Prefix>((prefix, value): &(P, u64), (pair, expected): &Entry) -> bool {
    is_prefix(prefix, *pair) && value == expected
}
