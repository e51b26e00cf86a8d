//! How many blocks of each size the two arrays have, used and free.
ghost use Rattle.std.specs.Prelude.{◌≡◌, ◌+◌, length};
ghost use Rattle.prefix_trie_bits.specs.Model.Blocks.{child_block_sizes, value_block_sizes, child_count, own_entries};
ghost use Rattle.prefix_trie_bits.specs.Calls.Blocks.{NodesHaveBlocks};
ghost use Rattle.prefix_trie_bits.specs.Calls.Nodes.{parents, holders};
ghost use Rattle.prefix_trie_table.specs.Blocks.BlockCounts.{block_counts, slots_counted, used_blocks};

use crate::allocator::block_count::BlockCount;
use crate::allocator::nodes::VisitCounter;
use crate::table::Table;
use std::alloc::Allocator;

impl<T: Drop, A: Allocator, V: VisitCounter> Table<T, A, V> {
    /// Counts the blocks of each size in the array of nodes, used and free, in ascending order of size.
    ///
    /// A used block has the children of one node, and each node with children has one.
    #[inline]
    pub fn node_blocks(&self) -> [BlockCount; 7]
        ensures counts { result ≡ block_counts child_block_sizes
            self.now.layout.child_blocks self.now.layout.free_child_blocks }
        ensures slots { self.now.space.node_slots ≡ 1 + slots_counted result }
        ensures used { used_blocks result ≡ length (parents self.now.nodes) }
        ensures blocks { NodesHaveBlocks child_block_sizes self.now.nodes
            (child_count self.now.nodes)
            self.now.layout.child_blocks }
    {
        self.nodes.counts()
    }

    /// Counts the blocks of each size in the array of values, used and free, in ascending order of size.
    ///
    /// A used block has the values of one node, and each node with values has one.
    #[inline]
    pub fn cell_blocks(&self) -> [BlockCount; 7]
        ensures counts { result ≡ block_counts value_block_sizes
            self.now.layout.value_blocks self.now.layout.free_value_blocks }
        ensures slots { self.now.space.cell_slots ≡ slots_counted result }
        ensures used { used_blocks result ≡ length (holders self.now.entries self.now.nodes) }
        ensures blocks { NodesHaveBlocks value_block_sizes self.now.nodes
            (own_entries self.now.entries)
            self.now.layout.value_blocks }
    {
        self.cells.counts()
    }
}
