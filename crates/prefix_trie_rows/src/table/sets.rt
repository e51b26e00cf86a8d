//! Tables of sets: calls of a set with the expected results, and what makes these calls.
ghost use Rattle.std.specs.Prelude.{All, IfSome, IfOk};

use crate::table::{Number, Pair, TablePrefix, fitting_prefix, is_number, is_prefix};
use prefix_trie::{Prefix, PrefixSet, Refusal};
use std::alloc::{AllocError, Global};

/// The set of a table.
type Set<P> = PrefixSet<P, Global>;

/// A call of a set. The last field is the expected result, if the call has one. Each table starts with an empty set.
#[derive(Drop)]
pub enum SetLine {
    /// Continues with a new set with this slot limit.
    WithSlotLimit(u32),
    /// Continues with the set of these prefixes.
    FromIter(&'static [Pair]),
    /// Whether the prefix is new, or the reason why the insertion failed.
    Insert(Pair, Result<bool, Refusal>),
    Remove(Pair, bool),
    /// The number of keys that are split off.
    RemoveChildren(Pair, usize),
    /// Whether the set is equal to the set of these prefixes.
    Equals(&'static [Pair], bool),
    /// The number of addresses in all keys, unless they are all addresses.
    AddressCount(Option<Number>),
    Len(usize),
    NodeCount(usize),
    /// The debug text.
    Text(&'static str),
    /// All keys in order, in a `for` over the set and in one that consumes a clone.
    Keys(&'static [Pair]),
}

/// Returns whether all calls of a table have the expected results.
///
/// # Errors
///
/// Returns an error if the first set cannot be made.
pub fn all_hold<P: TablePrefix>(alloc: Global, lines: &[SetLine]) -> Result<bool, Refusal> {
    let mut set: Set<P> = PrefixSet::new(alloc)?;
    Ok(hold_in_order(alloc, &mut set, lines))
}

/// Returns whether all calls have the expected results, when they are made on a set in order.
fn hold_in_order<P: TablePrefix>(alloc: Global, set: &mut Set<P>, lines: &[SetLine]) -> bool {
    for line in lines {
        if !holds(alloc, set, line) {
            return false;
        }
    }
    true
}

/// Returns whether a call has the expected result.
fn holds<P: TablePrefix>(alloc: Global, set: &mut Set<P>, line: &SetLine) -> bool {
    match line {
        SetLine::WithSlotLimit(limit) => replaces(set, PrefixSet::with_slot_limit(alloc, *limit)),
        SetLine::FromIter(pairs) => replaces(set, set_of(alloc, pairs)),
        SetLine::Insert(pair, expected) => inserts(set, *pair, *expected),
        SetLine::Remove(pair, expected) => removes(set, *pair, *expected),
        SetLine::RemoveChildren(pair, count) => splits_off(set, *pair, *count),
        SetLine::Equals(pairs, expected) => equals(set, set_of(alloc, pairs), *expected),
        SetLine::AddressCount(expected) => is_number(set.address_count(), *expected),
        SetLine::Len(count) => set.len() == *count && set.is_empty() == (*count == 0),
        SetLine::NodeCount(count) => set.node_count() == *count,
        SetLine::Text(text) => has_text(alloc, set, text),
        SetLine::Keys(pairs) => lists(set, pairs) && consumes(set, pairs),
    }
}

/// Continues with another set, if it could be made.
fn replaces<P: Prefix>(set: &mut Set<P>, made: Result<Set<P>, Refusal>) -> bool {
    match made {
        Ok(fresh) => {
            *set = fresh;
            true
        }
        Err(_) => false,
    }
}

/// Returns the set of these prefixes.
///
/// # Errors
///
/// Returns an error if the set cannot be made, or if a prefix does not fit.
fn set_of<P: TablePrefix>(alloc: Global, pairs: &[Pair]) -> Result<Set<P>, Refusal> {
    match prefixes_of::<P>(alloc, pairs) {
        Ok(Some(prefixes)) => collected(alloc, prefixes),
        _ => Err(Refusal::Memory),
    }
}

fn collected<P: TablePrefix>(alloc: Global, prefixes: Vec<P>) -> Result<Set<P>, Refusal>
    requires { All P.IsFitting prefixes.items }
{
    PrefixSet::from_iter(alloc, prefixes)
}

/// Returns the prefixes, if they all fit.
fn prefixes_of<P: TablePrefix>(alloc: Global, pairs: &[Pair]) -> Result<Option<Vec<P>>, AllocError>
    ensures { IfOk result (λ found. IfSome found (λ xs. All P.IsFitting xs.items)) }
{
    let mut prefixes = Vec::new(alloc);
    for pair in pairs {
        match fitting_prefix::<P>(*pair) {
            Some(prefix) => prefixes.push(prefix)?,
            None => return Ok(None),
        }
    }
    Ok(Some(prefixes))
}

fn inserts<P: TablePrefix>(set: &mut Set<P>, pair: Pair, expected: Result<bool, Refusal>) -> bool {
    match fitting_prefix::<P>(pair) {
        Some(prefix) => set.insert(prefix) == expected,
        None => false,
    }
}

fn removes<P: TablePrefix>(set: &mut Set<P>, pair: Pair, expected: bool) -> bool {
    match fitting_prefix::<P>(pair) {
        Some(prefix) => set.remove(&prefix) == expected,
        None => false,
    }
}

/// Returns whether splitting at a prefix returns a set with this many keys.
fn splits_off<P: TablePrefix>(set: &mut Set<P>, pair: Pair, count: usize) -> bool {
    match fitting_prefix::<P>(pair) {
        Some(prefix) => set.remove_children(&prefix).map(|second| second.len()) == Ok(count),
        None => false,
    }
}

fn equals<P: Prefix>(set: &Set<P>, other: Result<Set<P>, Refusal>, expected: bool) -> bool {
    match other {
        Ok(other) => (*set == other) == expected,
        Err(_) => false,
    }
}

fn has_text<P: Prefix>(alloc: Global, set: &Set<P>, text: &str) -> bool {
    match format!(in alloc; "{set:?}") {
        Ok(written) => written.as_str() == text,
        Err(_) => false,
    }
}

/// Returns whether a loop over a set yields these keys. This crate lists only `prefix_trie`, as a user's crate may.
fn lists<P: Prefix>(set: &Set<P>, pairs: &[Pair]) -> bool {
    let mut rest = pairs.iter();
    for prefix in set {
        match rest.next() {
            Some(pair) if is_prefix(&prefix, *pair) => {}
            _ => return false,
        }
    }
    rest.next().is_none()
}

/// Returns whether a loop that consumes a clone of a set yields these keys.
fn consumes<P: Prefix>(set: &Set<P>, pairs: &[Pair]) -> bool {
    match set.clone() {
        Ok(copy) => are_keys(copy, pairs),
        Err(_) => false,
    }
}

fn are_keys<P: Prefix>(set: Set<P>, pairs: &[Pair]) -> bool {
    let mut rest = pairs.iter();
    for prefix in set {
        match rest.next() {
            Some(pair) if is_prefix(&prefix, *pair) => {}
            _ => return false,
        }
    }
    rest.next().is_none()
}
