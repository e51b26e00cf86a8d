//! What a slot can hold, how an array grows, and changes of runs of slots.
ghost use Rattle.std.specs.Prelude.{◌≡◌, ℕ, ◌+◌, ◌^◌, ◌<◌, ◌≤◌, ◌⊎◌, ◌++◌, All, length, min, max, replicate, insert, remove, vec_len, vec_capacity, slice_index_or, OnOk, OnErr, IsOk};
ghost use Rattle.prefix_trie_table.specs.Blocks.Growth.{Reserves, EachHolds};
ghost use Rattle.prefix_trie_table.specs.Blocks.Runs.{run, put_run, swap_runs};

use crate::allocator::array::SlotArray;
use std::alloc::{AllocError, Allocator};
use std::mem;

/// A type that a slot can hold, with a value for slots that are not in use.
pub trait Slot: Drop {
    // the value of a slot that is not in use
    ghost vacant: { Self };

    /// Returns the value of a slot that is not in use.
    fn vacant() -> Self
        ensures { result ≡ vacant };
}

impl<T: Drop> Slot for Option<T> {
    ghost use Rattle.std.specs.Prelude.{None};

    ghost vacant = { None };

    fn vacant() -> Self {
        None
    }
}

/// Reserves memory for `count` more items, by at most one allocation.
#[inline]
pub(super) fn reserve<S, A: Allocator>(
    items: &mut Vec<S, A>,
    count: usize,
) -> Result<(), AllocError>
    ensures items { items.new.items ≡ items.old.items }
    ensures len { vec_len items.new ≡ vec_len items.old }
    ensures ok { OnOk result (vec_len items.new + count ≤ vec_capacity items.new) }
    ensures grown { Reserves (vec_capacity items.old) (vec_len items.old + count)
        (vec_capacity items.new) }
    ensures succeeds { vec_len items.old + count ≤ vec_capacity items.old → IsOk result }
    ensures err { OnErr result (vec_capacity items.new ≡ vec_capacity items.old) }
{
    if count <= items.capacity() - items.len() {
        return Ok(());
    }
    grow(items, count)
}

// The part of `reserve` that allocates. It is a function of its own so that the test is inlined.
#[cold]
#[inline(never)]
fn grow<S, A: Allocator>(items: &mut Vec<S, A>, count: usize) -> Result<(), AllocError>
    requires { vec_capacity items.old < vec_len items.old + count }
    ensures items { items.new.items ≡ items.old.items }
    ensures len { vec_len items.new ≡ vec_len items.old }
    ensures ok { OnOk result (vec_len items.new + count ≤ vec_capacity items.new) }
    ensures grown { Reserves (vec_capacity items.old) (vec_len items.old + count)
        (vec_capacity items.new) }
    ensures err { OnErr result (vec_capacity items.new ≡ vec_capacity items.old) }
{
    let more = growth(items.capacity(), items.len(), count);
    items.reserve_exact(more)
}

// An array of this capacity or more grows by half, a smaller one to twice its capacity. So a long array has little spare capacity, and a
// short one seldom moves.
const LONG: usize = 262_144;

// An array grows by at least this number of slots.
const LEAST: usize = 4;

/// Returns how many slots after `len` an array of this capacity reserves if the next `count` do not fit.
pub(super) fn growth(capacity: usize, len: usize, count: usize) -> usize
    requires long { len ≤ capacity }
    requires short { capacity < 2 ^ 63 }
    requires some_missing { capacity < len + count }
    ensures enough { count ≤ result }
    ensures grown { Reserves capacity (len + count) (len + result) }
{
    let step = if capacity < LONG {
        capacity.max(LEAST)
    } else {
        capacity / 2
    };
    count.max(capacity + step - len)
}

/// Frees the spare capacity, except a capacity of `least`.
///
/// # Errors
///
/// Returns an error if the allocator does not shrink the memory.
pub(super) fn shrink<S, A: Allocator>(items: &mut Vec<S, A>, least: usize) -> Result<(), AllocError>
    ensures items { items.new.items ≡ items.old.items }
    ensures len { vec_len items.new ≡ vec_len items.old }
    ensures ok { OnOk result (vec_capacity items.new ≤ max least (vec_len items.new)) }
    ensures kept { min least (vec_capacity items.old) ≤ vec_capacity items.new }
    ensures capacity { vec_capacity items.new ≤ vec_capacity items.old }
{
    items.shrink_to(least);
    if items.capacity() > least.max(items.len()) {
        return Err(AllocError);
    }
    Ok(())
}

/// Appends vacant slots to an array that has the capacity for them.
pub(super) fn push_vacant<S: Slot, R: SlotArray<S>>(slots: &mut R, count: u32)
    requires { EachHolds (length (R.list slots.old) + count) (R.capacities slots.old) }
    ensures list { R.list slots.new ≡ R.list slots.old ++ replicate count S.vacant }
    ensures capacities { R.capacities slots.new ≡ R.capacities slots.old }
{
    for _i in 0..count {
        slots.append(S::vacant());
    }
}

/// Inserts a value at `from`, moves the items of `from..to` to the next place, and drops the item at `to`.
#[inline]
pub(super) fn shift_in<S: Drop, A: Allocator>(
    items: &mut Vec<S, A>,
    from: usize,
    to: usize,
    value: S,
)
    requires in_order { from ≤ to }
    requires within { to < length items.old.items }
    ensures items { items.new.items ≡ insert (remove items.old.items to) from value }
    ensures len { vec_len items.new ≡ vec_len items.old }
    ensures capacity { vec_capacity items.new ≡ vec_capacity items.old }
{
    let mut carried = mem::replace(&mut items[from], value);
    for i in from..to {
        carried = mem::replace(&mut items[i + 1], carried);
    }
}

/// Removes and returns the item at `from`, moves the items after it, up to `to`, to the previous place, and writes `vacant` at `to`.
#[inline]
pub(super) fn shift_out<S: Drop, A: Allocator>(
    items: &mut Vec<S, A>,
    from: usize,
    to: usize,
    vacant: S,
) -> S
    requires in_order { from ≤ to }
    requires within { to < length items.old.items }
    ensures value { result ≡ slice_index_or items.old.items from result }
    ensures items { items.new.items ≡ insert (remove items.old.items from) to vacant }
    ensures len { vec_len items.new ≡ vec_len items.old }
    ensures capacity { vec_capacity items.new ≡ vec_capacity items.old }
{
    let mut carried = mem::replace(&mut items[to], vacant);
    for i in (from..to).rev() {
        carried = mem::replace(&mut items[i], carried);
    }
    carried
}

/// Moves `count` values to vacant slots, and makes their old slots vacant. So the two runs of slots are exchanged.
pub(super) fn move_run<S: Slot, R: SlotArray<S>>(
    slots: &mut R,
    from: usize,
    to: usize,
    count: usize,
)
    requires from_within { from + count ≤ length (R.list slots.old) }
    requires to_within { to + count ≤ length (R.list slots.old) }
    requires apart { (from + count ≤ to) ⊎ (to + count ≤ from) }
    requires vacant { (k : ℕ) → k < count
        → slice_index_or (R.list slots.old) (to + k) S.vacant ≡ S.vacant }
    ensures items { R.list slots.new ≡ swap_runs (R.list slots.old) from to count }
    ensures len { length (R.list slots.new) ≡ length (R.list slots.old) }
    ensures capacities { R.capacities slots.new ≡ R.capacities slots.old }
{
    // Read for the proof alone: the length fits into a `usize`.
    let _count = slots.count();
    for i in 0..count {
        slots.move_to(from + i, to + i);
    }
}

/// Moves `count` values to vacant slots, inserts one more among them at `offset`, and makes their old slots vacant.
pub(super) fn move_in<S: Slot, R: SlotArray<S>>(
    slots: &mut R,
    from: usize,
    to: usize,
    count: usize,
    offset: usize,
    value: S,
)
    requires from_within { from + count ≤ length (R.list slots.old) }
    requires to_within { to + count < length (R.list slots.old) }
    requires apart { (from + count ≤ to) ⊎ (to + count < from) }
    requires unused { run (R.list slots.old) to (count + 1) ≡ replicate (count + 1) S.vacant }
    requires offset { offset ≤ count }
    requires value { R.can_hold value }
    ensures items { R.list slots.new
        ≡ put_run (put_run (R.list slots.old) from (replicate count S.vacant)) to
        (insert (run (R.list slots.old) from count) offset value) }
    ensures len { length (R.list slots.new) ≡ length (R.list slots.old) }
    ensures capacities { R.capacities slots.new ≡ R.capacities slots.old }
{
    // Read for the proof alone.
    let _count = slots.count();
    move_run(slots, from, to, offset);
    slots.put(to + offset, value);
    move_run(slots, from + offset, to + offset + 1, count - offset);
}

/// Writes items over the slots from `from` on.
pub(super) fn write_run<S: Slot + Copy, R: SlotArray<S>>(slots: &mut R, from: usize, items: &[S])
    requires within { from + length items.now ≤ length (R.list slots.old) }
    requires values { All R.can_hold items.now }
    ensures written { R.list slots.new ≡ put_run (R.list slots.old) from items.now }
    ensures len { length (R.list slots.new) ≡ length (R.list slots.old) }
    ensures capacities { R.capacities slots.new ≡ R.capacities slots.old }
{
    // Read for the proof alone.
    let _count = slots.count();
    for i in 0..items.len() {
        slots.put(from + i, items[i]);
    }
}
