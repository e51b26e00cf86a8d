//! The walk that borrows the values of a table, in listing order.
ghost use Rattle.std.specs.Prelude.{◌≡◌, ◌<◌, ◌≤◌, [], ◌∷◌, ◌++◌, Bool, List, Some, IfSome, MatchOption, length, take};
ghost use Rattle.std.specs.FinMap.{len};
ghost use Rattle.prefix_trie_bits.specs.Model.Selections.{listing};
ghost use Rattle.prefix_trie_bits.specs.Model.Step.{State};
ghost use Rattle.prefix_trie_table.specs.Locations.{seat_of};
ghost use Rattle.prefix_trie_table.specs.Shape.{IsShapeOf};
ghost use Rattle.prefix_trie_table.specs.Tables.{IsTrie};
ghost use Rattle.prefix_trie_table.specs.Walking.Items.{GivesFilled, GivesOutermost};
ghost use Rattle.prefix_trie_table.specs.Walking.Walks.{Tree, ArePassed, EndsLast, IsSeated, IsStack, SkipsLast, StaysOnPath, Steps, pending, GivesSeat, ShapeOf, ShapeOf-prop};

use crate::allocator::blocks::Cells;
use crate::allocator::node::ROOT;
use crate::allocator::nodes::{NodeAllocator, VisitCounter};
use crate::table::seat::Seat;
use crate::table::spot::{Spot, Step, enter, next_at, skip_below, value_at};
use arrayvec::ArrayVec;
use prefix_trie_bits::prefix::{BitString, Key};
use std::alloc::Allocator;
use std::marker::Model;

/// The entries of a table that are still to come, in listing order.
#[derive(Drop)]
pub struct Walk<'a, K: Key, T: Drop, A: Allocator, V: VisitCounter> {
    pub(super) arrays: Option<(&'a NodeAllocator<A, V>, &'a Cells<T, A>)>,
    // The path of each spot begins this key.
    pub(super) key: K,
    pub(super) stack: ArrayVec<Spot, 26>,
    ghost shape: { ShapeOf arrays } by { ShapeOf-prop T.code arrays },
}

// Clauses see the pairs still to come.
impl<'a, K: Key, T: Drop, A: Allocator, V: VisitCounter> Model for Walk<'a, K, T, A, V> {
    ghost use Rattle.std.specs.Prelude.{List, Bool};
    ghost use Rattle.prefix_trie_table.specs.Walking.Walks.{rest_of_walk, IsWalk};

    ghost Value = { List (List Bool × T) };

    ghost view = { λ w. rest_of_walk w.arrays w.shape (K.bits w.key) w.stack.items };

    ghost invariant = { λ w. IsWalk K.bit_width w.arrays w.shape (K.bits w.key) w.stack.items };
}

impl<'a, K: Key, T: Drop, A: Allocator, V: VisitCounter> Walk<'a, K, T, A, V> {
    /// Returns the next entry: its key, the key's length in bits, and its value.
    ///
    /// It reads each further node once, when the walk comes to it.
    #[inline]
    pub fn next(&mut self, counter: &mut V) -> Option<(K, u32, &'a T)>
        ensures { MatchOption result ((self.old ≡ []) × (self.new ≡ []))
            (λ r. GivesFilled K.IsKey K.bits K.bit_width r.0 r.1 r.2.now self.old self.new) }
    {
        let Some((nodes, cells)) = self.arrays else {
            return None;
        };
        let Some((key, len, seat)) = advance::<K, A, V, T>(
            nodes,
            &mut self.stack,
            &mut self.key,
            counter,
        ) else {
            return None;
        };
        Some((key, len, value_at(cells, seat)))
    }

    /// Returns the next key and its length in bits, and skips all other entries whose keys begin with it.
    ///
    /// No node below the entry's place is read.
    #[inline]
    pub fn next_outermost(&mut self, counter: &mut V) -> Option<(K, u32)>
        ensures { MatchOption result ((self.old ≡ []) × (self.new ≡ []))
            (λ r. GivesOutermost K.IsKey K.bits K.bit_width r.0 r.1 self.old self.new) }
    {
        let Some((nodes, _)) = self.arrays else {
            return None;
        };
        let Some((key, len, _)) = advance::<K, A, V, T>(
            nodes,
            &mut self.stack,
            &mut self.key,
            counter,
        ) else {
            return None;
        };
        skip_at_last(&mut self.stack, &BitString::new(key, len));
        Some((key, len))
    }

    /// Returns a walk with the same entries to come. It does not allocate.
    #[inline]
    pub fn clone(&self) -> Self
        ensures { result ≡ self.now }
    {
        let Ok(stack) = self.stack.clone() else {
            unreachable!();
        };
        Walk {
            arrays: self.arrays,
            key: self.key,
            stack,
        }
    }
}

impl<'a, K: Key, T: Drop, A: Allocator, V: VisitCounter> Default for Walk<'a, K, T, A, V> {
    ghost is_default = { λ w. w ≡ [] };

    /// Returns a walk with nothing to come.
    fn default() -> Self {
        Walk {
            arrays: None,
            key: K::zero(),
            stack: ArrayVec::new(),
        }
    }
}

/// Walks all entries that the arrays hold. It reads the root.
pub fn walk_of<'a, K: Key, T: Drop, A: Allocator, V: VisitCounter>(
    nodes: &'a NodeAllocator<A, V>,
    cells: &'a Cells<T, A>,
    counter: &mut V,
) -> Walk<'a, K, T, A, V>
    requires { (s : State T) × IsTrie K.bit_width (len s.entries) nodes.now cells.now s }
    ensures { (s : State T) → IsShapeOf nodes.now.slots cells.now.slots s
        → result ≡ listing s.entries }
{
    let mut stack = ArrayVec::new();
    stack.push(enter(nodes, ROOT, 0, counter));
    Walk {
        arrays: Some((nodes, cells)),
        key: K::zero(),
        stack,
    }
}

/// Returns the next entry of a walk with these spots, whose paths begin the key. The last spot is the deepest.
#[inline]
pub fn advance<K: Key, A: Allocator, V: VisitCounter, T: Drop>(
    nodes: &NodeAllocator<A, V>,
    stack: &mut ArrayVec<Spot, 26>,
    key: &mut K,
    counter: &mut V,
) -> Option<(K, u32, Seat)>
    requires tree { (t : Tree T) × IsTrie K.bit_width t.count nodes.now t.cells t.shape }
    requires stack { IsStack K.bit_width nodes.now.slots (K.bits key.old) stack.old.items }
    ensures stack { IsStack K.bit_width nodes.now.slots (K.bits key.new) stack.new.items }
    ensures entry { (t : Tree T) → IsTrie K.bit_width t.count nodes.now t.cells t.shape
        → MatchOption result
        ((pending t.shape.entries (K.bits key.old) stack.old.items ≡ [])
        × (pending t.shape.entries (K.bits key.new) stack.new.items ≡ []))
        (λ r. GivesSeat K.IsKey K.bits K.bit_width t r.0 r.1 r.2
        (pending t.shape.entries (K.bits key.old) stack.old.items)
        (pending t.shape.entries (K.bits key.new) stack.new.items)) }
    ensures seat { IfSome result (λ r. seat_of nodes.now.slots (take r.1 (K.bits r.0)) ≡ Some r.2) }
    ensures passed { ArePassed (K.bits key.old) stack.old.items
        → ArePassed (K.bits key.new) stack.new.items }
    ensures last { IfSome result
        (λ r. EndsLast (K.bits key.new) stack.new.items (take r.1 (K.bits r.0))) }
{
    while !stack.is_empty() {
        match next_at_last::<K, A, V, T>(nodes, stack, *key, counter) {
            Step::Entry(found, len, seat) => return Some((found, len, seat)),
            Step::Child(child, below) => {
                stack.push(child);
                *key = below;
            }
            Step::Done => {
                let _ = stack.pop();
            }
        }
    }
    None
}

/// Takes the next place of the last spot. It changes the spot in the stack, because a copy takes longer.
#[inline]
fn next_at_last<K: Key, A: Allocator, V: VisitCounter, T: Drop>(
    nodes: &NodeAllocator<A, V>,
    stack: &mut ArrayVec<Spot, 26>,
    key: K,
    counter: &mut V,
) -> Step<K>
    requires some { 0 < length stack.old.items }
    requires tree { (t : Tree T) × IsTrie K.bit_width t.count nodes.now t.cells t.shape }
    requires stack { IsStack K.bit_width nodes.now.slots (K.bits key) stack.old.items }
    ensures last { (below : List Spot) × (spot : Spot) × (next : Spot)
        × (stack.old.items ≡ below ++ spot ∷ []) × (stack.new.items ≡ below ++ next ∷ [])
        × StaysOnPath K.bits (K.bits key) spot result next
        × ((t : Tree T) → IsTrie K.bit_width t.count nodes.now t.cells t.shape
        → Steps K.IsKey K.bits K.bit_width nodes.now.slots t (K.bits key) spot result next) }
    ensures seat { IsSeated K.bits nodes.now.slots result }
{
    let last = stack.len() - 1;
    next_at::<K, A, V, T>(nodes, &mut stack[last], key, counter)
}

/// Drops what a bit string begins from what is to come at the last spot, at whose node the bit string ends.
#[inline]
fn skip_at_last<K: Key>(stack: &mut ArrayVec<Spot, 26>, path: &BitString<K>)
    requires last { (search_path : List Bool) × EndsLast search_path stack.old.items path.now }
    requires space { length stack.old.items ≤ 26 }
    ensures { SkipsLast path.now stack.old.items stack.new.items }
{
    if let Some(mut spot) = stack.pop() {
        skip_below(&mut spot, path);
        stack.push(spot);
    }
}
