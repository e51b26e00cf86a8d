//! The slots and blocks of the two arrays, and the limit of both.
ghost use Rattle.std.specs.Prelude.{◌≡◌, ◌+◌, ◌↔◌, length, IfOk, IfErr, IsErr};
ghost use Rattle.prefix_trie_bits.specs.declared.prefix.Refusal.TheVariants.{IndexRange};
ghost use Rattle.prefix_trie_bits.specs.Calls.Blocks.{NodesHaveBlocks};
ghost use Rattle.prefix_trie_bits.specs.Model.Blocks.{no_layout, child_block_sizes, value_block_sizes, child_count, own_entries};
ghost use Rattle.prefix_trie_bits.specs.Model.Entries.{no_entries};
ghost use Rattle.prefix_trie_bits.specs.Model.Nodes.{root_alone};
ghost use Rattle.prefix_trie_bits.specs.Calls.Nodes.{parents, holders};
ghost use Rattle.prefix_trie_table.specs.Blocks.BlockCounts.{block_counts, slots_counted, used_blocks};
ghost use Rattle.prefix_trie_map.specs.Whole.{IsWhole};

use crate::map::{BlockCount, PrefixMap};
use prefix_trie_bits::prefix::{Prefix, Refusal};
use prefix_trie_table::table::Table;
use std::alloc::Allocator;
use std::marker::PhantomData;

impl<P: Prefix, T: Drop, A: Allocator + Clone> PrefixMap<P, T, A> {
    /// Creates an empty map whose two arrays, of nodes and of values, are never longer than `limit` slots.
    ///
    /// # Errors
    ///
    /// Returns `IndexRange` if `limit` is 0, since the root needs a slot. Otherwise returns `Memory` if an allocation
    /// fails. No map exists then.
    ///
    /// # Examples
    ///
    ///
    /// ```rust
    /// let mut map: PrefixMap<Ipv4Prefix, u32, Global> = PrefixMap::with_slot_limit(alloc, 4)?;
    /// map.insert("0.0.0.0/32".parse()?, 1);       // Err(Refused { cause: IndexRange, value: 1 }): it needs six more nodes
    /// map.insert("0.0.0.0/4".parse()?, 2);        // Ok(None)
    /// ```
    #[inline]
    pub fn with_slot_limit(alloc: A, limit: u32) -> Result<Self, Refusal>
        ensures entries { IfOk result (λ map. map.entries ≡ no_entries) }
        ensures nodes { IfOk result (λ map. map.nodes ≡ root_alone) }
        ensures space { IfOk result
            (λ map. map.space ≡ record { limit = limit; node_slots = 1; cell_slots = 0 }) }
        ensures layout { IfOk result (λ map. map.layout ≡ no_layout) }
        ensures range { IfErr result (λ cause. (cause ≡ IndexRange) ↔ (limit ≡ 0)) }
        ensures none { limit ≡ 0 → IsErr result }
    {
        Ok(PrefixMap {
            table: Table::new(alloc, limit)?,
            marker: PhantomData,
        })
    }
}

impl<P: Prefix, T: Drop, A: Allocator> PrefixMap<P, T, A> {
    /// Returns the number of slots of the array of nodes, used or free: a new map has 1.
    ///
    /// It is never above the limit. A change may add slots. Only `compact` and `clear`, and `drop_children` and
    /// `remove_children` of a prefix of length 0, remove slots.
    ///
    /// # Examples
    ///
    /// ```rust
    /// // map = {10.1.0.0/16: 1}
    /// map.node_slots();       // 4: the root, and three blocks of one slot
    /// ```
    #[inline]
    pub fn node_slots(&self) -> usize
        ensures slots { result ≡ self.now.space.node_slots }
        ensures whole { IsWhole P.R.bit_width self.now }
    {
        self.known_valid();
        self.table.node_slots()
    }

    /// Returns the number of slots of the array of values, used or free: a new map has none.
    ///
    /// It is never above the limit.
    ///
    /// # Examples
    ///
    /// ```rust
    /// // map = {10.1.0.0/16: 1}
    /// map.cell_slots();       // 1
    /// ```
    #[inline]
    pub fn cell_slots(&self) -> usize
        ensures slots { result ≡ self.now.space.cell_slots }
        ensures whole { IsWhole P.R.bit_width self.now }
    {
        self.known_valid();
        self.table.cell_slots()
    }

    /// Returns how many blocks of each size the array of nodes has, used and free.
    ///
    /// The sizes are 1, 2, 4, 8, 16, 24 and 32 slots. Each node with children has one used block, which holds them. The
    /// root is outside every block.
    ///
    /// # Examples
    ///
    /// ```rust
    /// // map = {10.1.0.0/16: 1}
    /// let blocks = map.node_blocks()[0];              // those of the nodes of lengths 5, 10 and 15
    /// (blocks.size, blocks.used, blocks.free);        // (1, 3, 0)
    /// ```
    #[inline]
    pub fn node_blocks(&self) -> [BlockCount; 7]
        ensures counts { result
            ≡ block_counts child_block_sizes self.now.layout.child_blocks
            self.now.layout.free_child_blocks }
        ensures slots { self.now.space.node_slots ≡ 1 + slots_counted result }
        ensures blocks { NodesHaveBlocks child_block_sizes self.now.nodes
            (child_count self.now.nodes) self.now.layout.child_blocks }
        ensures used { used_blocks result ≡ length (parents self.now.nodes) }
    {
        self.table.node_blocks()
    }

    /// Returns how many blocks of each size the array of values has, used and free.
    ///
    /// The sizes are 1, 2, 4, 8, 16, 24 and 31 slots. Each node with values of its own has one used block, which holds
    /// them.
    ///
    /// # Examples
    ///
    /// ```rust
    /// // map = {10.1.0.0/16: 1}
    /// let blocks = map.cell_blocks()[0];
    /// (blocks.size, blocks.used, blocks.free);        // (1, 1, 0)
    /// ```
    #[inline]
    pub fn cell_blocks(&self) -> [BlockCount; 7]
        ensures counts { result
            ≡ block_counts value_block_sizes self.now.layout.value_blocks
            self.now.layout.free_value_blocks }
        ensures slots { self.now.space.cell_slots ≡ slots_counted result }
        ensures blocks { NodesHaveBlocks value_block_sizes self.now.nodes
            (own_entries self.now.entries) self.now.layout.value_blocks }
        ensures used { used_blocks result ≡ length (holders self.now.entries self.now.nodes) }
    {
        self.table.cell_blocks()
    }
}
