//! A node, and the slot that it is stored in.
ghost use Rattle.std.specs.Prelude.{◌≡◌, ◌+◌, ◌<◌};
ghost use Rattle.prefix_trie_table.specs.Forest.{child_slot as slot_of_child};

use crate::allocator::slots::Slot;
use prefix_trie_bits::node::rank;

/// A node of five levels: the bitmaps of its 31 values and 32 children, and the blocks that hold both.
///
/// A block is given by its first slot and the index of its size. The fields of a block mean nothing if its bitmap is 0.
#[derive(Clone, Copy, Default)]
pub struct Node {
    pub value_bitmap: u32,
    pub child_bitmap: u32,
    pub value_block: u32,
    pub child_block: u32,
    pub value_tier: u8,
    pub child_tier: u8,
}

/// The size classes of a node's two blocks. They mean nothing if the bitmap of the block is 0.
#[derive(Clone, Copy)]
pub struct SizeClasses {
    pub value_tier: u8,
    pub child_tier: u8,
}

impl Node {
    ghost use Rattle.prefix_trie_table.specs.Blocks.Cells.{blank_node, without_sizes as node_without_sizes};

    /// Returns a node that has no values and no children.
    #[inline]
    pub fn blank() -> Node
        ensures { result ≡ blank_node }
    {
        Node {
            value_bitmap: 0,
            child_bitmap: 0,
            value_block: 0,
            child_block: 0,
            value_tier: 0,
            child_tier: 0,
        }
    }

    /// Returns the node with 0 for the sizes of its blocks.
    // A caller that takes this of a node lets the compiler drop the read of the sizes from `visit`.
    #[inline]
    pub fn without_sizes(self) -> Node
        ensures { result ≡ node_without_sizes self }
    {
        Node {
            value_tier: 0,
            child_tier: 0,
            ..self
        }
    }

    /// Returns the slot of the child at a bit.
    #[inline]
    pub fn child_slot(self, child: u32) -> NodeSlot
        requires { child < 32 }
        ensures { result ≡ slot_of_child self child }
    {
        self.child_block as usize + rank(self.child_bitmap, child) as usize
    }
}

impl Slot for Node {
    ghost use Rattle.prefix_trie_table.specs.Blocks.Cells.{blank_node};

    ghost vacant = { blank_node };

    fn vacant() -> Self {
        Node::blank()
    }
}

/// The slot that a node is stored in.
pub type NodeSlot = usize;

/// The slot of the root, which is outside every block.
pub const ROOT: NodeSlot = 0;
