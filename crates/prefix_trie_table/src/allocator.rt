//! The allocator: two arrays, of nodes and of values, that are cut into blocks.
//!
//! The blocks have seven sizes: 1, 2, 4, 8, 16, 24, and 31 slots for the values of a node or 32 for its children. Slot 0 of the
//! node array is the root, outside every block.
//!
//! A block in use holds one list, which starts at its first slot. Its other slots are vacant, and so are all slots of a free block.
//! Used and free blocks together tile the array, so each slot is in one block, and no block has two owners.
//!
//! Each size has a free list. A list that outgrows its block moves to a free block of the smallest size that fits. A list that
//! shrinks moves to a smaller block. The block that it leaves becomes free. A block is made at the end of the array, only if none
//! of its size is free. Its capacity in the free list is reserved at the same time, so freeing a block never allocates.
//!
//! Only `prepare`, and making, copying or building an array, can fail. `prepare` makes free blocks and writes no list, so a change
//! that follows it always succeeds.
pub mod array;
pub mod block_count;
pub mod blocks;
mod free_list;
pub mod node;
pub mod node_array;
pub mod nodes;
pub mod slots;
