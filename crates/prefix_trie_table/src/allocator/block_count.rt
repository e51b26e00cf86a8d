//! The number of blocks of one size.

/// Counts the blocks of one size in an array.
///
/// ```text
/// // three nodes have one value each, and one block is free
/// map.cell_blocks()[0] == BlockCount { size: 1, used: 3, free: 1 }
/// ```
#[derive(Clone, Copy, PartialEq, Eq, Debug)]
pub struct BlockCount {
    /// The number of slots of each block.
    pub size: usize,
    /// The number of blocks in use. Each holds the children or the values of one node.
    pub used: usize,
    /// The number of free blocks. An insertion uses these first.
    pub free: usize,
}
