//! Search paths, from the root down to a bit string's own node.
ghost use Rattle.std.specs.Prelude.{◌≡◌, ◌+◌, ◌*◌, ◌/◌, ◌<◌, ◌≤◌, Bool, List, drop, length, MatchOption};
ghost use Rattle.prefix_trie_table.specs.declared.allocator.node.Node.{Node};
ghost use Rattle.prefix_trie_table.specs.Blocks.Cells.{node_at};
ghost use Rattle.prefix_trie_table.specs.Forest.{SomeNodes};
ghost use Rattle.prefix_trie_table.specs.Locations.{Locates};
ghost use Rattle.prefix_trie_table.specs.SearchPaths.{IsAlong, IsLast, ReadsAlong};
ghost use Rattle.prefix_trie_table.specs.Blocks.Store.{Store};

use crate::allocator::node::{Node, NodeSlot, ROOT};
use crate::allocator::nodes::{NodeAllocator, VisitCounter};
use crate::table::seat::{Location, SearchEnd};
use prefix_trie_bits::node::has_bit;
use prefix_trie_bits::prefix::{BitString, Key};
use std::alloc::Allocator;

/// A node on a search path: its slot, its contents and its level. The root has level 0.
#[derive(Clone, Copy)]
pub struct Reached {
    pub at: NodeSlot,
    pub node: Node,
    pub level: u32,
}

/// Reads the root, where every search path begins.
#[inline]
pub fn root<A: Allocator, V: VisitCounter>(nodes: &NodeAllocator<A, V>, counter: &mut V) -> Reached
    requires sound { SomeNodes nodes.now }
    ensures level { result.level ≡ 0 }
    ensures along { (q : List Bool) → IsAlong q result nodes.now }
    ensures visits { V.count counter.new ≡ V.count counter.old + 1 }
{
    let at = ROOT;
    let node = nodes.visit(at, counter);
    Reached { at, node, level: 0 }
}

/// Returns the slot of the child of a node on a search path, if there is one. It reads no node.
///
/// `rest` has the bits after those that lead to `from`, at least five.
#[inline(always)]
fn child_on_path<K: Key>(from: Reached, rest: &BitString<K>) -> Option<NodeSlot>
    requires { 5 ≤ length rest.now }
    ensures { (q : List Bool) (v : Store Node) → IsAlong q from v
        → rest.now ≡ drop (5 * from.level) q
        → MatchOption result (IsLast q from v)
        (λ at. IsAlong q
        (record { at = at; node = node_at v.slots at; level = from.level + 1 }) v) }
{
    let child = rest.child_bit();
    if !has_bit(from.node.child_bitmap, child) {
        return None;
    }
    Some(from.node.child_slot(child))
}

/// Returns the slot of the next node on a search path, if there is one. It reads no node.
///
/// `rest` has the bits after those that lead to `from`, and `last` is the level of the bit string's own node.
// The level is compared, and not the number of bits left, so that a loop counts one of them.
#[inline(always)]
pub fn next_slot<K: Key>(from: Reached, rest: &BitString<K>, last: u32) -> Option<NodeSlot>
    requires { from.level < last → 5 ≤ length rest.now }
    ensures { (q : List Bool) (v : Store Node) → IsAlong q from v
        → rest.now ≡ drop (5 * from.level) q → last ≡ length q / 5
        → MatchOption result (IsLast q from v)
        (λ at. IsAlong q
        (record { at = at; node = node_at v.slots at; level = from.level + 1 }) v) }
{
    if from.level >= last {
        return None;
    }
    child_on_path(from, rest)
}

/// Reads the child of a node on a search path, if there is one.
///
/// `rest` has the bits after those that lead to `from`, at least five.
#[inline(always)]
pub fn step_to_child<K: Key, A: Allocator, V: VisitCounter>(
    nodes: &NodeAllocator<A, V>,
    from: Reached,
    rest: &BitString<K>,
    counter: &mut V,
) -> Option<Reached>
    requires sound { SomeNodes nodes.now }
    requires along { (q : List Bool) × IsAlong q from nodes.now
        × (rest.now ≡ drop (5 * from.level) q) × (length q ≤ 128) × (5 ≤ length rest.now) }
    ensures step { (q : List Bool) → IsAlong q from nodes.now → rest.now ≡ drop (5 * from.level) q
        → MatchOption result (IsLast q from nodes.now)
        (λ next. (next.level ≡ from.level + 1) × IsAlong q next nodes.now) }
    ensures visits { MatchOption result
        (V.count counter.new ≡ V.count counter.old)
        (λ _. V.count counter.new ≡ V.count counter.old + 1) }
{
    let Some(at) = child_on_path(from, rest) else {
        return None;
    };
    let node = nodes.visit(at, counter);
    Some(Reached {
        at,
        node,
        level: from.level + 1,
    })
}

/// Reads the next node on a search path, if there is one.
///
/// `rest` has the bits after those that lead to `from`, and `last` is the level of the bit string's own node.
#[inline(always)]
pub fn step_down<K: Key, A: Allocator, V: VisitCounter>(
    nodes: &NodeAllocator<A, V>,
    from: Reached,
    rest: &BitString<K>,
    last: u32,
    counter: &mut V,
) -> Option<Reached>
    requires sound { SomeNodes nodes.now }
    requires along { (q : List Bool) × IsAlong q from nodes.now
        × (rest.now ≡ drop (5 * from.level) q) × (length q ≤ 128) × (last ≡ length q / 5) }
    ensures step { (q : List Bool) → IsAlong q from nodes.now → rest.now ≡ drop (5 * from.level) q
        → last ≡ length q / 5
        → MatchOption result (IsLast q from nodes.now)
        (λ next. (next.level ≡ from.level + 1) × IsAlong q next nodes.now) }
    ensures visits { MatchOption result
        (V.count counter.new ≡ V.count counter.old)
        (λ _. V.count counter.new ≡ V.count counter.old + 1) }
{
    if from.level >= last {
        return None;
    }
    step_to_child(nodes, from, rest, counter)
}

/// Reads each node on a search path once. Returns the last one, and the bits after those that lead to it.
#[inline(always)]
pub fn descend<K: Key, A: Allocator, V: VisitCounter>(
    nodes: &NodeAllocator<A, V>,
    path: BitString<K>,
    counter: &mut V,
) -> (Reached, BitString<K>)
    requires sound { SomeNodes nodes.now }
    ensures last { IsLast path result.0 nodes.now }
    ensures rest { result.1 ≡ drop (5 * result.0.level) path }
    ensures visits { V.count counter.new ≡ V.count counter.old + (result.0.level + 1) }
{
    let len = path.len();
    let last = len / 5;
    let mut here = root(nodes, counter);
    let mut rest = path;
    'down: loop {
        let Some(next) = step_down(nodes, here, &rest, last, counter) else {
            // All bits that are left. Their number comes from the level, so that the loop counts one of the two.
            return (here, rest.first(len - 5 * here.level));
        };
        here = next;
        rest = rest.after_five();
    }
}

/// Returns the end of a search path, which this node is. `rest` has the bits that are left there.
// It reads the sizes of the node's blocks, so that a search that finds a value reads no sizes.
#[inline(always)]
fn search_end<K: Key, A: Allocator, V: VisitCounter>(
    nodes: &NodeAllocator<A, V>,
    reached: Reached,
    rest: BitString<K>,
) -> SearchEnd<K>
    requires sound { SomeNodes nodes.now }
    requires along { (q : List Bool) × IsAlong q reached nodes.now }
    ensures { (result.reached ≡ reached) × (result.rest ≡ rest) }
{
    let sizes = nodes.size_classes(reached.at);
    let node = Node {
        value_tier: sizes.value_tier,
        child_tier: sizes.child_tier,
        ..reached.node
    };
    SearchEnd {
        reached: Reached { node, ..reached },
        rest,
    }
}

/// Finds where the value at a bit string is stored, or the last node of its search path and the bits that are left there.
#[inline(always)]
pub fn locate_in<K: Key, A: Allocator, V: VisitCounter>(
    nodes: &NodeAllocator<A, V>,
    path: BitString<K>,
    counter: &mut V,
) -> Location<K>
    requires sound { SomeNodes nodes.now }
    ensures located { Locates nodes.now path result }
    ensures visits { ReadsAlong path nodes.now (V.count counter.old) (V.count counter.new) }
{
    let last = path.len() / 5;
    let (reached, rest) = descend(nodes, path, counter);
    if reached.level < last {
        return Location::Missing(search_end(nodes, reached, rest));
    }
    let bit = rest.value_bit();
    if !has_bit(reached.node.value_bitmap, bit) {
        return Location::Missing(search_end(nodes, reached, rest));
    }
    Location::Stored(reached.node.value_seat(bit))
}
