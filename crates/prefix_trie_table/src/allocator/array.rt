//! The array of slots that `Blocks` cuts into blocks. Contracts see a list, and the capacity of each vector that it is kept in.
ghost use Rattle.std.specs.Prelude.{◌≡◌, ◌≢◌, ℕ, ◌+◌, ◌<◌, ◌≤◌, ◌++◌, [], ◌∷◌, List, length, take, insert, remove, slice_index_or, slice_set, OnOk, IsOk};
ghost use Rattle.prefix_trie_table.specs.Blocks.Growth.{EachReserves, EachHolds, NoneExceeds, NoneGrows};

use crate::allocator::slots::{Slot, reserve, shift_in, shift_out, shrink};
use std::alloc::{AllocError, Allocator};
use std::mem;

/// An array of slots.
pub trait SlotArray<S: Slot>: Drop {
    // the values of the slots
    ghost list: { Self → List S };

    // the capacity in slots of each vector that the array is kept in
    ghost capacities: { Self → List ℕ };

    // what a slot can hold
    ghost can_hold: { S → Type 0 };

    /// Returns the number of slots.
    fn count(&self) -> usize
        ensures { result ≡ length (list self.now) };

    /// Reserves memory for `count` more slots.
    fn reserve(&mut self, count: usize) -> Result<(), AllocError>
        ensures list { list self.new ≡ list self.old }
        ensures ok { OnOk result
            (EachHolds (length (list self.new) + count) (capacities self.new)) }
        ensures grown { EachReserves (capacities self.old) (length (list self.old) + count)
            (capacities self.new) }
        ensures succeeds { EachHolds (length (list self.old) + count) (capacities self.old)
            → IsOk result };

    /// Appends a slot to an array that has spare capacity.
    fn append(&mut self, value: S)
        requires memory { EachHolds (length (list self.old) + 1) (capacities self.old) }
        requires value { can_hold value }
        ensures list { list self.new ≡ list self.old ++ value ∷ [] }
        ensures capacities { capacities self.new ≡ capacities self.old };

    /// Writes a slot and returns its previous value.
    fn put(&mut self, at: usize, value: S) -> S
        requires at { at < length (list self.old) }
        requires value { can_hold value }
        ensures list { list self.new ≡ slice_set (list self.old) at value }
        ensures value { result ≡ slice_index_or (list self.old) at result }
        ensures capacities { capacities self.new ≡ capacities self.old };

    /// Moves the value of a slot to another slot, and makes the first one vacant.
    fn move_to(&mut self, from: usize, to: usize)
        requires from { from < length (list self.old) }
        requires to { to < length (list self.old) }
        requires other { from ≢ to }
        ensures list { list self.new
            ≡ slice_set
            (slice_set (list self.old) to (slice_index_or (list self.old) from S.vacant)) from
            S.vacant }
        ensures capacities { capacities self.new ≡ capacities self.old };

    /// Inserts a value at `from`, moves the values of `from..to` to the next slot, and drops the value of `to`.
    fn insert_shifting(&mut self, from: usize, to: usize, value: S)
        requires in_order { from ≤ to }
        requires within { to < length (list self.old) }
        requires value { can_hold value }
        ensures list { list self.new ≡ insert (remove (list self.old) to) from value }
        ensures capacities { capacities self.new ≡ capacities self.old };

    /// Removes and returns the value at `from`, moves the values after it, up to `to`, to the previous slot, and makes `to` vacant.
    fn remove_shifting(&mut self, from: usize, to: usize) -> S
        requires in_order { from ≤ to }
        requires within { to < length (list self.old) }
        ensures value { result ≡ slice_index_or (list self.old) from result }
        ensures list { list self.new ≡ insert (remove (list self.old) from) to S.vacant }
        ensures capacities { capacities self.new ≡ capacities self.old };

    /// Drops all slots from `count` on, and keeps the capacity.
    fn cut(&mut self, count: usize)
        ensures list { list self.new ≡ take count (list self.old) }
        ensures capacities { capacities self.new ≡ capacities self.old };

    /// Frees the spare capacity.
    fn shrink(&mut self) -> Result<(), AllocError>
        ensures list { list self.new ≡ list self.old }
        ensures ok { OnOk result (NoneExceeds (capacities self.new) (length (list self.new))) }
        ensures capacities { NoneGrows (capacities self.old) (capacities self.new) };

    // a slot can be vacant
    ghost holds_vacant: { can_hold S.vacant };
}

impl<S: Slot, A: Allocator> SlotArray<S> for Vec<S, A> {
    ghost use Rattle.std.specs.Prelude.{⊤, vec_capacity};

    ghost list = { λ v. v.items };

    ghost capacities = { λ v. vec_capacity v ∷ [] };

    ghost can_hold = { λ _. ⊤ };

    ghost holds_vacant = { tt };

    #[inline]
    fn count(&self) -> usize {
        self.len()
    }

    #[inline]
    fn reserve(&mut self, count: usize) -> Result<(), AllocError> {
        reserve(self, count)
    }

    #[inline]
    fn append(&mut self, value: S) {
        self.push_reserved(value);
    }

    #[inline]
    fn put(&mut self, at: usize, value: S) -> S {
        mem::replace(&mut self[at], value)
    }

    #[inline]
    fn move_to(&mut self, from: usize, to: usize) {
        let value = mem::replace(&mut self[from], S::vacant());
        self[to] = value;
    }

    #[inline]
    fn insert_shifting(&mut self, from: usize, to: usize, value: S) {
        shift_in(self, from, to, value);
    }

    #[inline]
    fn remove_shifting(&mut self, from: usize, to: usize) -> S {
        shift_out(self, from, to, S::vacant())
    }

    #[inline]
    fn cut(&mut self, count: usize) {
        self.truncate(count);
    }

    fn shrink(&mut self) -> Result<(), AllocError> {
        shrink(self, 0)
    }
}
