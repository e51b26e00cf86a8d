//! One pass over the breakpoints of two sets.
ghost use Rattle.std.specs.Prelude.{◌≡◌, ℕ, ◌+◌, ◌<◌, ◌^◌, ◌⊎◌, IfOk, OnOk, MatchBool, length, true, false};
ghost use Rattle.prefix_trie_bits.specs.Model.Bits.{number};
ghost use Rattle.address_ranges.specs.Breaks.{AreBreaks, has_address, numbers};
ghost use Rattle.address_ranges.specs.Sweeps.{IsNext, changed_to};

use crate::operation::Operation;
use crate::order::order;
use prefix_trie_bits::prefix::Key;
use std::alloc::{AllocError, Allocator};
use std::cmp::Ordering;

/// Returns the breakpoints of the addresses that an operation on two sets keeps.
pub(crate) fn combined<O: Operation, K: Key, A: Allocator>(
    left: &[K],
    right: &[K],
    alloc: A,
) -> Result<Vec<K, A>, AllocError>
    requires left_is { AreBreaks K.bit_width (numbers K.bits left.now) }
    requires right_is { AreBreaks K.bit_width (numbers K.bits right.now) }
    ensures breaks { IfOk result (λ out. AreBreaks K.bit_width (numbers K.bits out.items)) }
    ensures kept { IfOk result (λ out. (n : ℕ) → has_address (numbers K.bits out.items) n
        ≡ O.keeps (has_address (numbers K.bits left.now) n)
        (has_address (numbers K.bits right.now) n)) }
{
    let mut out = Vec::new(alloc);
    let mut i = 0;
    let mut j = 0;
    while i < left.len() || j < right.len() {
        let (at, in_left, in_right) = next_break(left, right, i, j);
        // The proof learns from it that the number is a key.
        let _ = at.is_key();
        i += usize::from(in_left);
        j += usize::from(in_right);
        push_if_changed(&mut out, at, O::keeps(i % 2 == 1, j % 2 == 1))?;
    }
    Ok(out)
}

/// Returns whether an operation on two sets keeps any address.
pub(crate) fn keeps_any<O: Operation, K: Key>(left: &[K], right: &[K]) -> bool
    requires left_is { AreBreaks K.bit_width (numbers K.bits left.now) }
    requires right_is { AreBreaks K.bit_width (numbers K.bits right.now) }
    ensures { MatchBool result
        ((n : ℕ) × (n < 2 ^ K.bit_width)
        × (O.keeps (has_address (numbers K.bits left.now) n)
        (has_address (numbers K.bits right.now) n) ≡ true))
        ((n : ℕ) → O.keeps (has_address (numbers K.bits left.now) n)
        (has_address (numbers K.bits right.now) n) ≡ false) }
{
    let mut i = 0;
    let mut j = 0;
    while i < left.len() || j < right.len() {
        let (at, in_left, in_right) = next_break(left, right, i, j);
        // The proof learns from it that the number is a key.
        let _ = at.is_key();
        i += usize::from(in_left);
        j += usize::from(in_right);
        if O::keeps(i % 2 == 1, j % 2 == 1) {
            return true;
        }
    }
    false
}

/// Appends a breakpoint if membership changes there: the result has the address, or it does not.
#[inline(always)]
fn push_if_changed<K: Key, A: Allocator>(
    out: &mut Vec<K, A>,
    at: K,
    is_in: bool,
) -> Result<(), AllocError>
    ensures { OnOk result (numbers K.bits out.new.items
        ≡ changed_to is_in (numbers K.bits out.old.items) (number (K.bits at))) }
{
    if is_in != (out.len() % 2 == 1) {
        out.push(at)?;
    }
    Ok(())
}

/// Returns the lower of the next breakpoints of two sets, and whether it is one of the left set, and of the right one.
#[inline(always)]
fn next_break<K: Key>(left: &[K], right: &[K], i: usize, j: usize) -> (K, bool, bool)
    requires some { (i < length left.now) ⊎ (j < length right.now) }
    ensures { IsNext (numbers K.bits left.now) (numbers K.bits right.now) i j
        (number (K.bits result.0)) result.1 result.2 }
{
    if j >= right.len() {
        return (left[i], true, false);
    }
    if i >= left.len() {
        return (right[j], false, true);
    }
    match order(left[i], right[j]) {
        Ordering::Less => (left[i], true, false),
        Ordering::Equal => (left[i], true, true),
        Ordering::Greater => (right[j], false, true),
    }
}
