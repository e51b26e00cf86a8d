//! Walks of two tables at once, which give the keys of either or of both in listing order.
ghost use Rattle.std.specs.Prelude.{◌≡◌, ◌<◌, [], ◌∷◌, ◌++◌, Bool, List, IfSome, MatchOption, length, take};
ghost use Rattle.std.specs.FinMap.{get};
ghost use Rattle.std.specs.Option.{option_copied};
ghost use Rattle.prefix_trie_bits.specs.Calls.Entries.{AreWithin};
ghost use Rattle.prefix_trie_bits.specs.Calls.Nodes.{AreNodes};
ghost use Rattle.prefix_trie_bits.specs.Model.Entries.{Entries};
ghost use Rattle.prefix_trie_bits.specs.Model.Selections.{listing};
ghost use Rattle.prefix_trie_table.specs.Locations.{seat_of};
ghost use Rattle.prefix_trie_table.specs.Walking.Combined.{GivesCombined, IsCombination, IsCombined, IsFilled, IsCombinedStack, CombinedSteps, CombinedTrees, combined_pending};
ghost use Rattle.prefix_trie_table.specs.Walking.Walks.{Tree};

use crate::allocator::node::ROOT;
use crate::allocator::nodes::{NodeAllocator, VisitCounter};
use crate::table::Table;
use crate::table::combined_spot::{
    Combination, CombinedSpot, CombinedStep, combined_spot, next_at_both,
};
use crate::table::seat::Seat;
use crate::table::spot::value_at;
use arrayvec::ArrayVec;
use prefix_trie_bits::prefix::Key;
use std::alloc::Allocator;

/// The state of a walk of two tables. It is right until a node of either changes: writing a value changes none.
///
/// All steps of a walk take the combination that it started with.
#[derive(Drop)]
pub struct CombinedCursor<K: Key> {
    // The path of each spot begins this key.
    key: K,
    stack: ArrayVec<CombinedSpot, 26>,
}

impl<T: Drop, A: Allocator, V: VisitCounter> Table<T, A, V> {
    ghost use Rattle.prefix_trie_table.specs.Walking.Combined.{IsCombinedCursorIn, combined_to_come};

    /// Starts a walk of this table and another one. It reads both roots.
    ///
    /// # Examples
    ///
    /// ```text
    /// let either = Combination::Union;
    /// let mut cursor = left.combined_cursor(&right, either, &mut counter);
    /// while let Some((key, len, on_left, on_right)) = left.combined_step(&right, either, &mut cursor, &mut counter) {}
    /// ```
    #[inline]
    pub fn combined_cursor<K: Key, U: Drop, B: Allocator, X>(
        &self,
        other: &Table<U, B, V>,
        combination: Combination,
        counter: &mut V,
    ) -> CombinedCursor<K>
        requires within { AreWithin K.bit_width self.now.entries }
        requires nodes { AreNodes K.bit_width self.now.entries self.now.nodes }
        requires other_within { AreWithin K.bit_width other.now.entries }
        requires other_nodes { AreNodes K.bit_width other.now.entries other.now.nodes }
        ensures is_there { IsCombinedCursorIn K.bits K.bit_width self.now.build other.now.build
            combination result }
        ensures keys { (both : Entries X)
            → IsCombination combination self.now.entries other.now.entries both
            → combined_to_come K.bits both result ≡ listing both }
    {
        let left = self.nodes.visit(ROOT, counter).without_sizes();
        let right = other.nodes.visit(ROOT, counter).without_sizes();
        let mut stack = ArrayVec::new();
        stack.push(combined_spot(combination, left, right, 0));
        CombinedCursor {
            key: K::zero(),
            stack,
        }
    }

    /// Advances to the next key. Returns it with its length in bits and the value that each table has there.
    ///
    /// It reads each further node once, when the walk comes to it.
    #[inline]
    pub fn combined_step<'a, K: Key, U: Drop, B: Allocator, X>(
        &'a self,
        other: &'a Table<U, B, V>,
        combination: Combination,
        cursor: &mut CombinedCursor<K>,
        counter: &mut V,
    ) -> Option<(K, u32, Option<&'a T>, Option<&'a U>)>
        requires within { AreWithin K.bit_width self.now.entries }
        requires nodes { AreNodes K.bit_width self.now.entries self.now.nodes }
        requires other_within { AreWithin K.bit_width other.now.entries }
        requires other_nodes { AreNodes K.bit_width other.now.entries other.now.nodes }
        requires is_there { IsCombinedCursorIn K.bits K.bit_width self.now.build other.now.build
            combination cursor.old }
        ensures is_there { IsCombinedCursorIn K.bits K.bit_width self.now.build other.now.build
            combination cursor.new }
        ensures entry { (both : Entries X)
            → IsCombination combination self.now.entries other.now.entries both → MatchOption result
            ((combined_to_come K.bits both cursor.old ≡ [])
            × (combined_to_come K.bits both cursor.new ≡ []))
            (λ r. GivesCombined both (take r.1 (K.bits r.0))
            (combined_to_come K.bits both cursor.old) (combined_to_come K.bits both cursor.new)) }
        ensures filled { IfSome result (λ r. IsFilled K.IsKey K.bits K.bit_width r.0 r.1) }
        ensures values { IfSome result
            (λ r. (option_copied r.2 ≡ get self.now.entries (take r.1 (K.bits r.0)))
            × (option_copied r.3 ≡ get other.now.entries (take r.1 (K.bits r.0)))) }
    {
        let Some((key, len, on_left, on_right)) = advance_both::<K, A, B, V, T, U, X>(
            &self.nodes,
            &other.nodes,
            combination,
            &mut cursor.stack,
            &mut cursor.key,
            counter,
        ) else {
            return None;
        };
        Some((
            key,
            len,
            self.value_at_seat(on_left),
            other.value_at_seat(on_right),
        ))
    }

    /// Returns the value at the seat of a bit string, if it has one.
    #[inline]
    fn value_at_seat(&self, seat: Option<Seat>) -> Option<&T>
        requires { (q : List Bool) × (seat_of self.now.build q ≡ seat) }
        ensures { (q : List Bool) → seat_of self.now.build q ≡ seat
            → option_copied result ≡ get self.now.entries q }
    {
        match seat {
            Some(seat) => Some(value_at(&self.cells, seat)),
            None => None,
        }
    }
}

/// Returns the next key of a walk with these spots, whose paths begin the key. The last spot is the deepest.
#[inline]
fn advance_both<K: Key, A: Allocator, B: Allocator, V: VisitCounter, T: Drop, U: Drop, X>(
    left: &NodeAllocator<A, V>,
    right: &NodeAllocator<B, V>,
    combination: Combination,
    stack: &mut ArrayVec<CombinedSpot, 26>,
    key: &mut K,
    counter: &mut V,
) -> Option<(K, u32, Option<Seat>, Option<Seat>)>
    requires trees { (l : Tree T) × (r : Tree U)
        × CombinedTrees K.bit_width left.now right.now l r }
    requires stack { IsCombinedStack K.bit_width left.now.slots right.now.slots combination
        (K.bits key.old) stack.old.items }
    ensures stack { IsCombinedStack K.bit_width left.now.slots right.now.slots combination
        (K.bits key.new) stack.new.items }
    ensures entry { (both : Entries X) → IsCombined combination left.now.slots right.now.slots both
        → MatchOption result
        ((combined_pending both (K.bits key.old) stack.old.items ≡ [])
        × (combined_pending both (K.bits key.new) stack.new.items ≡ []))
        (λ r. GivesCombined both (take r.1 (K.bits r.0))
        (combined_pending both (K.bits key.old) stack.old.items)
        (combined_pending both (K.bits key.new) stack.new.items)) }
    ensures filled { IfSome result (λ r. IsFilled K.IsKey K.bits K.bit_width r.0 r.1) }
    ensures seats { IfSome result
        (λ r. (seat_of left.now.slots (take r.1 (K.bits r.0)) ≡ r.2)
        × (seat_of right.now.slots (take r.1 (K.bits r.0)) ≡ r.3)) }
{
    while !stack.is_empty() {
        match next_at_last_both::<K, A, B, V, T, U, X>(
            left,
            right,
            combination,
            stack,
            *key,
            counter,
        ) {
            CombinedStep::Entry(found, len, on_left, on_right) => {
                return Some((found, len, on_left, on_right));
            }
            CombinedStep::Child(child, below) => {
                stack.push(child);
                *key = below;
            }
            CombinedStep::Done => {
                let _ = stack.pop();
            }
        }
    }
    None
}

/// Takes the next place of the last spot. It changes the spot in the stack, because a copy takes longer.
#[inline]
fn next_at_last_both<K: Key, A: Allocator, B: Allocator, V: VisitCounter, T: Drop, U: Drop, X>(
    left: &NodeAllocator<A, V>,
    right: &NodeAllocator<B, V>,
    combination: Combination,
    stack: &mut ArrayVec<CombinedSpot, 26>,
    key: K,
    counter: &mut V,
) -> CombinedStep<K>
    requires some { 0 < length stack.old.items }
    requires trees { (l : Tree T) × (r : Tree U)
        × CombinedTrees K.bit_width left.now right.now l r }
    requires stack { IsCombinedStack K.bit_width left.now.slots right.now.slots combination
        (K.bits key) stack.old.items }
    ensures { (below : List CombinedSpot) × (spot : CombinedSpot) × (next : CombinedSpot)
        × (stack.old.items ≡ below ++ spot ∷ []) × (stack.new.items ≡ below ++ next ∷ [])
        × CombinedSteps X K.IsKey K.bits K.bit_width left.now.slots right.now.slots combination
        (K.bits key) spot result next }
{
    let last = stack.len() - 1;
    next_at_both::<K, A, B, V, T, U, X>(left, right, combination, &mut stack[last], key, counter)
}
