//! How a map is stored.
use prefix_trie::BlockCount;

/// The sizes of blocks of nodes, and of blocks of values.
pub const NODE_SIZES: [usize; 7] = [1, 2, 4, 8, 16, 24, 32];

pub const CELL_SIZES: [usize; 7] = [1, 2, 4, 8, 16, 24, 31];

/// Returns whether the blocks have these sizes, and this many of each size are used and free.
pub fn has_blocks(
    blocks: [BlockCount; 7],
    sizes: [usize; 7],
    used: [usize; 7],
    free: [usize; 7],
) -> bool {
    blocks.iter().map(|block| block.size).eq(sizes)
        && blocks.iter().map(|block| block.used).eq(used)
        && blocks.iter().map(|block| block.free).eq(free)
}
