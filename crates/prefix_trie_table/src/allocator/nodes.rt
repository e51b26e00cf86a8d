//! The array of nodes. Each read of a node is counted.
ghost use Rattle.std.specs.Prelude.{◌≡◌, ℕ, ◌+◌, ◌-◌, ◌^◌, ◌<◌, ◌≤◌, ◌↔◌, [], ◌∷◌, ◌++◌, All, List, None, OnOk, IfOk, IfErr, IsErr, IsSome, length, map, insert, remove, slice_set};
ghost use Rattle.std.specs.Option.{option_or};
ghost use Rattle.prefix_trie_bits.specs.Model.Blocks.{smallest_size};
ghost use Rattle.prefix_trie_bits.specs.Calls.SplitsOff.{packed_slots};
ghost use Rattle.prefix_trie_table.specs.Blocks.BlockCounts.{tier_count};
ghost use Rattle.prefix_trie_table.specs.Blocks.Growth.{NoneExceeds, NoneGrows};
ghost use Rattle.prefix_trie_table.specs.Blocks.Cells.{HasSizes, blank_node, node_at, node_sizes, size_classes};
ghost use Rattle.prefix_trie_table.specs.Splitting.Building.{BuildsList};
ghost use Rattle.prefix_trie_table.specs.Blocks.Losing.{LosesOne};
ghost use Rattle.prefix_trie_table.specs.Blocks.NodeArrays.{FitsByte, FitsOver};
ghost use Rattle.prefix_trie_table.specs.Blocks.Store.{Store, UsedBlock, Sound, Turnover, Obtains, HasList, AreFree, IsReady, SameSlots, tier_at, tier_sizes, slots_made, none_of, no_blocks, block, held, list_size, list_need, needs};
ghost use Rattle.prefix_trie_bits.specs.declared.prefix.Refusal.TheVariants.{Memory, IndexRange};

use crate::allocator::block_count::BlockCount;
use crate::allocator::blocks::{BlockRef, Blocks, node_blocks};
use crate::allocator::node::{Node, NodeSlot, ROOT, SizeClasses};
use crate::allocator::node_array::NodeArray;
use prefix_trie_bits::prefix::Refusal;
use std::alloc::{AllocError, Allocator};
use std::marker::{Model, PhantomData};

/// A counter of node reads. Its count is seen only by contracts, and no function here creates a counter.
pub trait VisitCounter: Sized + Drop {
    // the number of reads that were counted
    ghost count: { Self → ℕ };

    /// Counts one more read.
    fn tick(&mut self)
        ensures { count self.new ≡ count self.old + 1 };
}

/// The array of nodes: the root at slot 0, outside every block, and after it the blocks, each with the children of one node.
///
/// Only `visit` reads a node, and it counts the read. `size_classes` returns neither a bitmap nor a block, so no search can go on by it. Only `put`
/// and the changes of a block write a node.
#[derive(Drop)]
pub struct NodeAllocator<A: Allocator, V: Drop> {
    blocks: Blocks<Node, NodeArray<A>, A>,
    counter: PhantomData<V>,
}

// Clauses see the same as for the blocks.
impl<A: Allocator, V: Drop> Model for NodeAllocator<A, V> {
    ghost use Rattle.prefix_trie_table.specs.Blocks.Store.{Store};
    ghost use Rattle.prefix_trie_table.specs.declared.allocator.node.Node.{Node};

    ghost Value = { Store Node };

    ghost view = { λ a. a.blocks };
}

impl<A: Allocator + Clone, V: Drop> NodeAllocator<A, V> {
    /// Creates an array that has a blank root and no blocks, and never has more than `limit` slots.
    ///
    /// # Errors
    ///
    /// Returns `IndexRange` if and only if `limit` is 0, and `Memory` if an allocation fails.
    pub fn new(alloc: &A, limit: u32) -> Result<Self, Refusal>
        ensures empty { IfOk result
            (λ a. a ≡ record {
              slots = blank_node ∷ [];
              first = 1;
              tiers = map no_blocks node_sizes;
              limit = limit;
              capacities = a.capacities;
            }) }
        ensures sound { IfOk result (λ a. Sound blank_node [] a) }
        ensures range { IfErr result (λ e. (e ≡ IndexRange) ↔ (limit ≡ 0)) }
        ensures space { limit ≡ 0 → IsErr result }
    {
        let blocks = node_blocks(alloc, limit)?;
        Ok(NodeAllocator {
            blocks,
            counter: PhantomData,
        })
    }

    /// Creates an array as `new` does, with the allocator and the limit of this one.
    pub fn new_like(&self) -> Result<Self, Refusal>
        ensures empty { IfOk result
            (λ a. a ≡ record {
              slots = blank_node ∷ [];
              first = 1;
              tiers = map no_blocks node_sizes;
              limit = self.now.limit;
              capacities = a.capacities;
            }) }
        ensures sound { IfOk result (λ a. Sound blank_node [] a) }
        ensures range { IfErr result (λ e. (e ≡ IndexRange) ↔ (self.now.limit ≡ 0)) }
    {
        NodeAllocator::new(self.blocks.allocator(), self.blocks.limit())
    }

    /// Copies the array with its root and blocks.
    ///
    /// # Errors
    ///
    /// Returns an error if an allocation fails.
    pub fn clone(&self) -> Result<Self, AllocError>
        ensures same { IfOk result
            (λ copy. copy ≡ record self.now { capacities = copy.capacities }) }
    {
        Ok(NodeAllocator {
            blocks: self.blocks.clone_nodes()?,
            counter: PhantomData,
        })
    }
}

impl<A: Allocator, V: VisitCounter> NodeAllocator<A, V> {
    ghost use Rattle.prefix_trie_table.specs.declared.allocator.node.Node.{Node};

    /// Returns the node in a slot, and counts the read.
    #[inline]
    pub fn visit(&self, at: NodeSlot, counter: &mut V) -> Node
        requires { at < length self.now.slots }
        ensures node { result ≡ node_at self.now.slots at }
        ensures fits { FitsByte result }
        ensures one_more { V.count counter.new ≡ V.count counter.old + 1 }
    {
        counter.tick();
        self.blocks.node(at)
    }

    /// Returns the size classes of the node in a slot. It reads nothing else of the node, so it is not counted.
    // A caller that takes the size classes from here lets the compiler drop their read from `visit`.
    #[inline]
    pub fn size_classes(&self, at: NodeSlot) -> SizeClasses
        requires { at < length self.now.slots }
        ensures { result ≡ size_classes (node_at self.now.slots at) }
    {
        self.blocks.size_classes(at)
    }
}

impl<A: Allocator, V: Drop> NodeAllocator<A, V> {
    ghost use Rattle.prefix_trie_table.specs.declared.allocator.node.Node.{Node};

    /// Writes a node to a slot. The index of each size must be one of the seven, or that of the node in the slot.
    #[inline]
    pub fn put(&mut self, at: NodeSlot, node: Node)
        requires within { at < length self.old.slots }
        requires tiers { FitsOver (node_at self.old.slots at) node }
        ensures slots { self.new ≡ record self.old { slots = slice_set self.old.slots at node } }
        ensures sound { (b : UsedBlock Node) (live : List (UsedBlock Node)) (offset : ℕ)
            → Sound blank_node (b ∷ live) self.old
            → at ≡ b.start + offset → offset < length b.items
            → Sound blank_node
            (record b { items = slice_set b.items offset node } ∷ live) self.new }
        ensures before { (live : List (UsedBlock Node)) → at < self.old.first
            → Sound blank_node live self.old → Sound blank_node live self.new }
    {
        // Read for the proof alone: the sizes of the node in the slot fit.
        let _old = self.blocks.node(at);
        self.blocks.put(at, node);
    }

    /// Returns the number of slots: 1 for the root, and those of all blocks, used and free.
    ///
    /// It never exceeds the limit, which is below 2^32.
    #[inline]
    pub fn len(&self) -> usize
        ensures len { result ≡ length self.now.slots }
        ensures made { result ≡ self.now.first + slots_made self.now.tiers }
        ensures limit { result ≤ self.now.limit }
        ensures narrow { self.now.limit < 2 ^ 32 }
    {
        self.blocks.len()
    }

    /// Counts the blocks of each size, used and free, in ascending order of size.
    pub fn counts(&self) -> [BlockCount; 7]
        requires { length self.now.tiers ≡ 7 }
        ensures counts { result ≡ map tier_count self.now.tiers }
        ensures made { length self.now.slots ≡ self.now.first + slots_made self.now.tiers }
    {
        self.blocks.counts()
    }

    /// Makes the missing blocks for one more node in a list, and then for the first nodes of `lists` other lists.
    ///
    /// The list has `count` nodes.
    ///
    /// # Errors
    ///
    /// Returns an error only if a block is missing, as `Blocks::prepare` does.
    pub fn prepare(&mut self, k: usize, count: u32, lists: usize) -> Result<(), Refusal>
        requires tier { 0 < count → k < length self.old.tiers }
        requires sizes { HasSizes self.old.tiers }
        requires fits { IsSome (smallest_size (tier_sizes self.old.tiers) (count + 1)) }
        requires few { lists + 1 < 2 ^ 64 }
        ensures obtains { Obtains (λ e. e ≡ IndexRange) (λ e. e ≡ Memory) result self.old self.new
            (needs (list_need self.old.tiers k count) lists) }
        ensures kept { SameSlots self.old self.new }
        ensures unchanged { AreFree self.old.tiers (needs (list_need self.old.tiers k count) lists)
            → self.new ≡ self.old }
        ensures sound { (live : List (UsedBlock Node)) → Sound blank_node live self.old
            → Sound blank_node live self.new }
    {
        self.blocks.prepare(k, count, lists)
    }

    /// Inserts a blank node into a list of `count` nodes, as `Blocks::insert_at` does, and returns the block of the list.
    // The blank node is made here, since a node that is passed as an argument goes through memory.
    #[inline(always)]
    pub fn insert_blank(&mut self, k: usize, start: u32, count: u32, offset: u32) -> BlockRef
        requires holds { HasList blank_node self.old k start count }
        requires sizes { HasSizes self.old.tiers }
        requires ready { IsReady self.old.tiers k count }
        requires offset { offset ≤ count }
        ensures is_there { list_size self.old.tiers result.tier (count + 1)
            ≡ option_or (list_need self.old.tiers k count) (list_size self.old.tiers k count) }
        ensures stays { list_need self.old.tiers k count ≡ None
            → result ≡ record { tier = k; start = start } }
        ensures turnover { Turnover self.old self.new none_of (list_size self.old.tiers k count)
            (list_size self.old.tiers result.tier (count + 1)) }
        ensures tiers { (slot : ℕ) → slot < length self.old.slots
            → FitsByte (node_at self.old.slots slot) }
        ensures sound { (n : ℕ) (xs : List Node) (live : List (UsedBlock Node))
            → Sound blank_node (held k start n xs ++ live) self.old → length xs ≡ count
            → Sound blank_node
            (block result.tier result.start (tier_at self.old.tiers result.tier).size
            (insert xs offset blank_node) ∷ live) self.new }
    {
        // Read for the proof alone.
        self.blocks.sizes_fit();
        self.blocks
            .insert_at(k, start, count, offset, Node::blank())
    }

    /// Removes a node from a list of `count` nodes, as `Blocks::remove_at` does, and returns the block of the rest.
    ///
    /// The removed node is dropped unread.
    pub fn remove_at(&mut self, k: usize, start: u32, count: u32, offset: u32) -> BlockRef
        requires holds { HasList blank_node self.old k start count }
        requires sizes { HasSizes self.old.tiers }
        requires offset { offset < count }
        ensures loses { LosesOne self.old self.new count (list_size self.old.tiers k count)
            (list_size self.old.tiers result.tier (count - 1)) }
        ensures tier { result.tier < length self.old.tiers }
        ensures gone { count ≡ 1 → result ≡ record { tier = 0; start = 0 } }
        ensures stays { 1 < count → result.tier ≡ k → result.start ≡ start }
        ensures sound { (n : ℕ) (xs : List Node) (live : List (UsedBlock Node))
            → Sound blank_node (held k start n xs ++ live) self.old → length xs ≡ count
            → Sound blank_node
            (held result.tier result.start (tier_at self.old.tiers result.tier).size
            (remove xs offset) ++ live) self.new }
    {
        let (_, rest) = self.blocks.remove_at(k, start, count, offset);
        rest
    }

    /// Builds a list of these nodes in a block of the smallest size that fits, as `Blocks::build` does, and returns the block.
    pub fn build(&mut self, items: &[Node]) -> Result<BlockRef, Refusal>
        requires tiers { All FitsByte items.now }
        requires sound { (live : List (UsedBlock Node)) × Sound blank_node live self.old }
        requires fits { IsSome (smallest_size (tier_sizes self.old.tiers) (length items.now)) }
        requires few { length items.now < 2 ^ 32 }
        ensures built { IfOk result (BuildsList blank_node self.old self.new items.now) }
        ensures longer { IfOk result (λ _. length self.new.slots
            ≤ length self.old.slots + packed_slots (tier_sizes self.old.tiers) (length items.now)) }
        ensures range { IfErr result (λ cause. cause ≡ IndexRange
            → self.old.limit
            < length self.old.slots + packed_slots (tier_sizes self.old.tiers) (length items.now)) }
    {
        self.blocks.build(items)
    }

    /// Frees the spare capacity, as `Blocks::shrink_to_fit` does.
    pub fn shrink_to_fit(&mut self) -> Result<(), AllocError>
        ensures kept { self.new ≡ record self.old { capacities = self.new.capacities } }
        ensures fits { OnOk result (NoneExceeds self.new.capacities (length self.new.slots)) }
        ensures less { NoneGrows self.old.capacities self.new.capacities }
    {
        self.blocks.shrink_to_fit()
    }

    /// Removes all nodes except the root, which becomes blank. This does not allocate.
    pub fn clear(&mut self)
        requires first { self.old.first ≡ 1 }
        requires root { 0 < length self.old.slots }
        ensures value { self.new ≡ record self.old {
          slots = blank_node ∷ [];
          tiers = map (λ t. no_blocks t.size) self.old.tiers;
        } }
        ensures sound { Sound blank_node [] self.new }
    {
        self.blocks.clear();
        self.blocks.put(ROOT, Node::blank());
    }
}
