//! Sets of values. Those of several values are sorted parts of one vector.
ghost use Rattle.std.specs.Prelude.{◌≡◌, ◌<◌, ◌≤◌, ◌++◌, true, List, [], ◌∷◌, length, slice_range, slice_set, IfOk};
ghost use Rattle.std.specs.List.Sorted.{IsStrictlySortedBy};
ghost use Rattle.std.specs.Set.{is_member, sorted_merge};
ghost use Rattle.prefix_trie_ops.specs.Parts.{as_list, best_value, combined_values, shared_values};
ghost use Rattle.prefix_trie_ops.specs.ValueSets.{Appends, Holds, IsSpanOf};

use std::alloc::{AllocError, Allocator};
use std::cmp::Ordering;

/// A set of values, or none.
#[derive(Clone, Copy)]
pub(super) enum Set<T> {
    /// There is no set.
    Missing,
    /// The set of one value.
    One(T),
    /// A set that is stored in a vector.
    Many(Span),
}

/// The values from one index up to another, in order and without repetitions.
#[derive(Clone, Copy)]
pub(super) struct Span {
    start: usize,
    end: usize,
}

impl<T: Copy + Ord> Set<T> {
    /// Returns the set of a value, if there is one.
    #[inline]
    pub(super) fn of(value: Option<T>) -> Self
        ensures { (stored : List T) → Holds stored result (as_list value) }
    {
        match value {
            Some(value) => Set::One(value),
            None => Set::Missing,
        }
    }

    /// Returns the held value if the set has it, otherwise the set's first value.
    #[inline]
    pub(super) fn best(self, values: &[T], held: Option<T>) -> Option<T>
        ensures { (xs : List T) → Holds values.now self xs
            → ((x y : T) → T.PartialEq.eq x y ≡ true → x ≡ y)
            → result ≡ best_value T.PartialEq.eq xs held }
    {
        match self {
            Set::Missing => None,
            Set::One(value) => Some(value),
            Set::Many(span) => best_in(values, span, held),
        }
    }
}

/// Returns the held value if a stored set has it, otherwise the set's first value.
#[inline]
fn best_in<T: Copy + Ord>(values: &[T], set: Span, held: Option<T>) -> Option<T>
    ensures { set.start < set.end → set.end ≤ length values.now
        → result ≡ best_value T.PartialEq.eq (slice_range values.now set.start set.end) held }
{
    if let Some(value) = held {
        if has(values, set, value) {
            return Some(value);
        }
    }
    values.get(set.start).copied()
}

/// Returns whether a stored set has a value.
fn has<T: Copy + Ord>(values: &[T], set: Span, value: T) -> bool
    ensures { result ≡ is_member T.PartialEq.eq (slice_range values.now set.start set.end) value }
{
    for i in set.start..set.end {
        if let Some(found) = values.get(i) {
            if *found == value {
                return true;
            }
        }
    }
    false
}

/// Returns the set of the values that two sets share, or of all values of both if they share none.
///
/// There is no set if one of the two is missing.
#[inline]
pub(super) fn best_of<T: Copy + Ord, B: Allocator>(
    values: &mut Vec<T, B>,
    left: Set<T>,
    right: Set<T>,
) -> Result<Set<T>, AllocError>
    ensures { IfOk result
        (λ set. (xs ys : List T) → Holds values.old.items left xs → Holds values.old.items right ys
        → IsStrictlySortedBy T.Ord.cmp xs → IsStrictlySortedBy T.Ord.cmp ys
        → ((x y : T) → T.PartialEq.eq x y ≡ true → x ≡ y)
        → Appends values.old.items values.new.items set
        (combined_values T.PartialEq.eq T.Ord.cmp xs ys)) }
{
    match (left, right) {
        (Set::One(x), Set::One(y)) => best_of_two(values, x, y),
        (Set::One(x), Set::Many(set)) => best_with(values, x, set),
        (Set::Many(set), Set::One(x)) => best_with(values, x, set),
        (Set::Many(left), Set::Many(right)) => push_best(values, left, right),
        _ => Ok(Set::Missing),
    }
}

/// Returns the set of one value if two values are equal, or of both.
#[inline]
fn best_of_two<T: Copy + Ord, B: Allocator>(
    values: &mut Vec<T, B>,
    x: T,
    y: T,
) -> Result<Set<T>, AllocError>
    ensures { IfOk result
        (λ set. Appends values.old.items values.new.items set
        (combined_values T.PartialEq.eq T.Ord.cmp (x ∷ []) (y ∷ []))) }
{
    match x.cmp(&y) {
        Ordering::Equal => Ok(Set::One(x)),
        Ordering::Less => push_pair(values, x, y),
        Ordering::Greater => push_pair(values, y, x),
    }
}

/// Returns the set of one value if a stored set has it, or of the value and those of the set.
#[inline]
fn best_with<T: Copy + Ord, B: Allocator>(
    values: &mut Vec<T, B>,
    x: T,
    set: Span,
) -> Result<Set<T>, AllocError>
    ensures { IfOk result
        (λ made. (xs : List T) → IsSpanOf values.old.items set xs → IsStrictlySortedBy T.Ord.cmp xs
        → Appends values.old.items values.new.items made
        (combined_values T.PartialEq.eq T.Ord.cmp (x ∷ []) xs)) }
{
    if has(values.as_slice(), set, x) {
        return Ok(Set::One(x));
    }
    let start = values.len();
    values.push(x)?;
    let end = values.len();
    push_best(values, Span { start, end }, set)
}

/// Appends the set of two values in order.
fn push_pair<T: Copy + Ord, B: Allocator>(
    values: &mut Vec<T, B>,
    first: T,
    second: T,
) -> Result<Set<T>, AllocError>
    ensures { IfOk result
        (λ set. Appends values.old.items values.new.items set (first ∷ second ∷ [])) }
{
    let start = values.len();
    values.push(first)?;
    values.push(second)?;
    let end = values.len();
    Ok(Set::Many(Span { start, end }))
}

/// Appends the values that two sets share, or all values of both if they share none.
fn push_best<T: Copy + Ord, B: Allocator>(
    values: &mut Vec<T, B>,
    left: Span,
    right: Span,
) -> Result<Set<T>, AllocError>
    ensures { IfOk result
        (λ set. (xs ys : List T) → IsSpanOf values.old.items left xs
        → IsSpanOf values.old.items right ys
        → IsStrictlySortedBy T.Ord.cmp xs → IsStrictlySortedBy T.Ord.cmp ys
        → Appends values.old.items values.new.items set
        (combined_values T.PartialEq.eq T.Ord.cmp xs ys)) }
{
    let start = values.len();
    push_shared(values, left, right)?;
    if values.len() == start {
        push_all(values, left, right)?;
    }
    let end = values.len();
    Ok(Set::Many(Span { start, end }))
}

/// Appends the values that two sets share, in order.
fn push_shared<T: Copy + Ord, B: Allocator>(
    values: &mut Vec<T, B>,
    left: Span,
    right: Span,
) -> Result<(), AllocError>
    ensures { IfOk result
        (λ _. (xs ys : List T) → IsSpanOf values.old.items left xs
        → IsSpanOf values.old.items right ys
        → IsStrictlySortedBy T.Ord.cmp xs → IsStrictlySortedBy T.Ord.cmp ys
        → values.new.items ≡ values.old.items ++ shared_values T.PartialEq.eq xs ys) }
{
    let (mut i, mut j) = (left.start, right.start);
    while i < left.end && j < right.end {
        let (Some(x), Some(y)) = (values.get(i).copied(), values.get(j).copied()) else {
            return Ok(());
        };
        match x.cmp(&y) {
            Ordering::Less => i += 1,
            Ordering::Greater => j += 1,
            Ordering::Equal => {
                values.push(x)?;
                i += 1;
                j += 1;
            }
        }
    }
    Ok(())
}

/// Appends the values of two sets that share none, in order.
fn push_all<T: Copy + Ord, B: Allocator>(
    values: &mut Vec<T, B>,
    left: Span,
    right: Span,
) -> Result<(), AllocError>
    ensures { IfOk result
        (λ _. (xs ys : List T) → IsSpanOf values.old.items left xs
        → IsSpanOf values.old.items right ys
        → shared_values T.PartialEq.eq xs ys ≡ []
        → values.new.items ≡ values.old.items ++ sorted_merge T.Ord.cmp true xs ys) }
{
    let (mut i, mut j) = (left.start, right.start);
    while i < left.end && j < right.end {
        let (Some(x), Some(y)) = (values.get(i).copied(), values.get(j).copied()) else {
            return Ok(());
        };
        if x < y {
            values.push(x)?;
            i += 1;
        } else {
            values.push(y)?;
            j += 1;
        }
    }
    push_range(values, i, left.end)?;
    push_range(values, j, right.end)
}

/// Appends a copy of the values from one index up to another.
fn push_range<T: Copy + Ord, B: Allocator>(
    values: &mut Vec<T, B>,
    start: usize,
    end: usize,
) -> Result<(), AllocError>
    ensures { IfOk result
        (λ _. end ≤ length values.old.items
        → values.new.items ≡ values.old.items ++ slice_range values.old.items start end) }
{
    for i in start..end {
        if let Some(value) = values.get(i).copied() {
            values.push(value)?;
        }
    }
    Ok(())
}

/// Replaces the set at an index.
#[inline]
pub(super) fn put<T: Copy + Ord, B: Allocator>(sets: &mut Vec<Set<T>, B>, place: usize, set: Set<T>)
    ensures { place < length sets.old.items → sets.new.items ≡ slice_set sets.old.items place set }
{
    if let Some(kept) = sets.get_mut(place) {
        *kept = set;
    }
}
