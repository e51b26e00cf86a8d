//! Walks that start at a bit string. One descent builds the stack of each of them.
ghost use Rattle.std.specs.Prelude.{◌≡◌, ◌<◌, List, Bool, length, take};
ghost use Rattle.std.specs.FinMap.{len as size};
ghost use Rattle.prefix_trie_bits.specs.Model.Bits.{number};
ghost use Rattle.prefix_trie_bits.specs.Places.{HoldsPlaces};
ghost use Rattle.prefix_trie_bits.specs.Model.Step.{State};
ghost use Rattle.prefix_trie_table.specs.Shape.{IsShapeOf};
ghost use Rattle.prefix_trie_table.specs.Tables.{IsTrie};
ghost use Rattle.prefix_trie_table.specs.Walking.Walks.{Tree, ArePassed, IsStack, pending};
ghost use Rattle.prefix_trie_table.specs.Walking.Starts.{selected, behind, kept};

use crate::allocator::blocks::Cells;
use crate::allocator::node::ROOT;
use crate::allocator::nodes::{NodeAllocator, VisitCounter};
use crate::table::spot::{Spot, spot_in};
use crate::table::walk::Walk;
use arrayvec::ArrayVec;
use prefix_trie_bits::node::{after_child, from_value, has_bit, without_bit};
use prefix_trie_bits::prefix::{BitString, Key};
use std::alloc::Allocator;

/// The entries that a walk from a bit string selects.
#[derive(Clone, Copy)]
pub enum Start {
    /// The bit string's own entry, and all entries after it.
    At,
    /// All entries after it, its extensions among them.
    After,
    /// The entries whose keys it begins.
    Below,
}

/// Walks a selection of the entries that the arrays hold. It reads each node on the search path once.
pub fn walk_at<'a, K: Key, T: Drop, A: Allocator, V: VisitCounter>(
    nodes: &'a NodeAllocator<A, V>,
    cells: &'a Cells<T, A>,
    path: BitString<K>,
    from: Start,
    counter: &mut V,
) -> Walk<'a, K, T, A, V>
    requires tree { (s : State T) × IsTrie K.bit_width (size s.entries) nodes.now cells.now s }
    ensures { (s : State T) → IsShapeOf nodes.now.slots cells.now.slots s
        → result ≡ selected from s.entries path }
{
    let key = path.key();
    let stack = start_at::<K, T, A, V>(nodes, key, path, from, counter);
    Walk {
        arrays: Some((nodes, cells)),
        key,
        stack,
    }
}

/// Goes down the search path of a bit string that begins a key, and returns the stack of a walk of the selected entries.
///
/// The spot of each node has what is selected there, except what is below the next node of the path.
pub(super) fn start_at<K: Key, T: Drop, A: Allocator, V: VisitCounter>(
    nodes: &NodeAllocator<A, V>,
    key: K,
    path: BitString<K>,
    from: Start,
    counter: &mut V,
) -> ArrayVec<Spot, 26>
    requires begun { take (length path) (K.bits key) ≡ path }
    requires tree { (t : Tree T) × IsTrie K.bit_width t.count nodes.now t.cells t.shape }
    ensures stack { IsStack K.bit_width nodes.now.slots (K.bits key) result.items }
    ensures passed { ArePassed (K.bits key) result.items }
    ensures rest { (t : Tree T) → IsTrie K.bit_width t.count nodes.now t.cells t.shape
        → pending t.shape.entries (K.bits key) result.items ≡ selected from t.shape.entries path }
{
    // Needed only for the proof: the number is a key.
    let _ = key.is_key();
    let len = path.len();
    let mut stack = ArrayVec::new();
    let mut node = nodes.visit(ROOT, counter);
    let mut depth = 0;
    let mut rest = path;
    while depth + 5 <= len {
        let child = rest.child_bit();
        stack.push(spot_in(node, depth, places_after(from, child)));
        if !has_bit(node.child_bitmap, child) {
            return stack;
        }
        node = nodes.visit(node.child_slot(child), counter);
        depth += 5;
        rest = rest.after_five();
    }
    // All bits that are left. Their number comes from the depth, so that the loop counts one of the two.
    let rest = rest.first(len - depth);
    stack.push(spot_in(node, depth, places_kept(from, &rest)));
    stack
}

/// Returns masks of what is selected at a node above the last, except what is below this child.
#[inline]
fn places_after(from: Start, child: u32) -> (u32, u32)
    requires { child < 32 }
    ensures { (t : List Bool) → length t ≡ 5 → number t ≡ child
        → HoldsPlaces result.0 result.1 (behind from t) }
{
    match from {
        Start::Below => (0, 0),
        _ => after_child(child),
    }
}

/// Returns masks of what is selected at the node where a bit string ends. `rest` has its bits after the path of the node.
#[inline]
fn places_kept<K: Key>(from: Start, rest: &BitString<K>) -> (u32, u32)
    requires { length rest.now < 5 }
    ensures { HoldsPlaces result.0 result.1 (kept from rest.now) }
{
    match from {
        Start::At => from_value(rest.value_bit()),
        Start::After => {
            let bit = rest.value_bit();
            let (values, children) = from_value(bit);
            (without_bit(values, bit), children)
        }
        Start::Below => (rest.value_cover_mask(), rest.child_cover_mask()),
    }
}
