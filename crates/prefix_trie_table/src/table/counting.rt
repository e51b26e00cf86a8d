//! Counting the nodes and the slots.
ghost use Rattle.std.specs.Prelude.{◌≡◌, ℕ, ◌+◌, List, Option, length};
ghost use Rattle.std.specs.FinMap.{len};
ghost use Rattle.prefix_trie_table.specs.declared.allocator.node.Node.{Node};
ghost use Rattle.prefix_trie_table.specs.Blocks.Cells.{node_sizes};
ghost use Rattle.prefix_trie_table.specs.Forest.{NodesHold, SomeNodes};

use crate::allocator::nodes::{NodeAllocator, VisitCounter};
use crate::table::Table;
use prefix_trie_bits::node::count;
use std::alloc::Allocator;

impl<T: Drop, A: Allocator, V: VisitCounter> Table<T, A, V> {
    /// Returns the number of nodes, including the root.
    ///
    /// The number is not stored. Each call reads every slot of the array of nodes once, free slots too.
    #[inline]
    pub fn node_count(&self, counter: &mut V) -> usize
        ensures nodes { result ≡ len self.now.nodes }
        ensures visits { V.count counter.new ≡ V.count counter.old + self.now.space.node_slots }
    {
        nodes_in(&self.nodes, counter)
    }

    /// Returns the number of slots of the array of nodes. It is never above the limit.
    #[inline]
    pub fn node_slots(&self) -> usize
        ensures slots { result ≡ self.now.space.node_slots }
    {
        self.nodes.len()
    }

    /// Returns the number of slots of the array of values. It is never above the limit.
    #[inline]
    pub fn cell_slots(&self) -> usize
        ensures slots { result ≡ self.now.space.cell_slots }
    {
        self.cells.len()
    }
}

/// Counts the nodes in an array: 1, and the number of children of every slot.
///
/// Each node but the root is the child of exactly one other, and a slot without a node is blank.
fn nodes_in<A: Allocator, V: VisitCounter>(nodes: &NodeAllocator<A, V>, counter: &mut V) -> usize
    requires { SomeNodes nodes.now }
    ensures nodes { (reading : List ℕ → Option Node) (paths : List (List ℕ))
        → NodesHold node_sizes reading paths nodes.now → result ≡ length paths }
    ensures visits { V.count counter.new ≡ V.count counter.old + length nodes.now.slots }
{
    let mut number = 1;
    for slot in 0..nodes.len() {
        number += count(nodes.visit(slot, counter).child_bitmap) as usize;
    }
    number
}
