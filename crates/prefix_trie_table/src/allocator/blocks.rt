//! An array that is cut into blocks of a few sizes. A block in use holds one list, which starts at its first slot.
mod building;
mod copying;
mod insertion;
mod making;
mod moving;
mod removal;
mod tiers;

ghost use Rattle.std.specs.Prelude.{◌≡◌, ℕ, ◌+◌, ◌*◌, ◌^◌, ◌<◌, ◌≤◌, ◌↔◌, [], ◌∷◌, List, length, take, All, map, None, OnOk, IfOk, IsErr, IfErr, slice_index_or, slice_set};
ghost use Rattle.prefix_trie_table.specs.Blocks.Store.{Store, UsedBlock, Sound, tier_at, tier_sizes, size_in, free_in, slots_made, no_blocks};
ghost use Rattle.prefix_trie_table.specs.Blocks.BlockCounts.{tier_count};
ghost use Rattle.prefix_trie_table.specs.Blocks.Growth.{NoneExceeds, NoneGrows};
ghost use Rattle.prefix_trie_table.specs.Blocks.Cells.{blank_node, cell_sizes, node_sizes, HasSizes};
ghost use Rattle.std.specs.Borrow.{sem};
ghost use Rattle.prefix_trie_table.specs.Blocks.Slots.{with_slot};
ghost use Rattle.prefix_trie_table.specs.Lending.Blocks.{lends_slot};
ghost use Rattle.prefix_trie_bits.specs.declared.prefix.Refusal.TheVariants.{IndexRange};

use crate::allocator::array::SlotArray;
use crate::allocator::block_count::BlockCount;
use crate::allocator::free_list::{FreeList, clear_all, shrink_all};
use crate::allocator::node::{Node, SizeClasses};
use crate::allocator::node_array::NodeArray;
use crate::allocator::slots::Slot;
use prefix_trie_bits::prefix::Refusal;
use std::alloc::{AllocError, Allocator};
use std::marker::{Model, PhantomData};

/// A block: the index of its size among the array's ascending sizes, and its first slot.
#[derive(Clone, Copy)]
pub struct BlockRef {
    pub tier: usize,
    pub start: u32,
}

/// The array, and the free list of each size.
///
/// The array does not store who uses a block. A caller keeps the `BlockRef` and the length of each list, and passes both to each
/// call on the list.
///
/// ```text
/// let mut cells = cells(&alloc, limit)?;
/// cells.prepare(0, 0, 0)?;                       // a block for the first value of a list
/// let at = cells.insert_at(0, 0, 0, 0, Some(7)); // the list is in a block of one slot now
/// let (value, rest) = cells.remove_at(at.tier, at.start, 1, 0);
/// ```
#[derive(Drop)]
pub struct Blocks<S: Slot, R: SlotArray<S>, A: Allocator> {
    slots: R,
    first: u32,
    lists: Vec<FreeList<A>, A>,
    limit: u32,
    of: PhantomData<S>,
}

// Clauses see the slots, the start of the first block, the tiers, the limit and the capacity of each vector.
impl<S: Slot, R: SlotArray<S>, A: Allocator> Model for Blocks<S, R, A> {
    ghost use Rattle.std.specs.Prelude.{◌≡◌, ◌+◌, ◌≤◌, ◌<◌, length, All};
    ghost use Rattle.prefix_trie_table.specs.Blocks.Store.{Store, slots_made};
    ghost use Rattle.prefix_trie_table.specs.Blocks.Cells.{HasSizes};

    ghost Value = { Store S };

    ghost view = { λ a. record {
      slots = R.list a.slots;
      first = a.first;
      tiers = a.lists.items;
      limit = a.limit;
      capacities = R.capacities a.slots;
    } };

    ghost invariant = { λ a. (length (R.list a.slots) ≤ a.limit)
        × (a.first + slots_made a.lists.items ≡ length (R.list a.slots)) × HasSizes a.lists.items };
}

impl<S: Slot, R: SlotArray<S>, A: Allocator> Blocks<S, R, A> {
    /// Returns the number of slots: those before the first block, and those of all blocks, used and free.
    ///
    /// It never exceeds the limit, which is below 2^32.
    #[inline]
    pub fn len(&self) -> usize
        ensures len { result ≡ length self.now.slots }
        ensures made { result ≡ self.now.first + slots_made self.now.tiers }
        ensures limit { result ≤ self.now.limit }
        ensures narrow { self.now.limit < 2 ^ 32 }
    {
        // Read for the proof alone: it is below 2^32.
        let _limit = self.limit;
        self.slots.count()
    }

    /// Returns the number of slots of a block of tier `k`.
    fn size_of(&self, k: usize) -> u32
        requires { k < length self.now.tiers }
        ensures { result ≡ size_in (tier_sizes self.now.tiers) k }
    {
        self.lists[k].size()
    }

    /// Returns the number of free blocks of tier `k`. Each other block of that tier holds a list.
    pub fn free_of(&self, k: usize) -> usize
        requires { k < length self.now.tiers }
        ensures { result ≡ free_in self.now.tiers (size_in (tier_sizes self.now.tiers) k) }
    {
        self.lists[k].free()
    }

    /// Counts the blocks of each size, used and free, in ascending order of size.
    pub fn counts(&self) -> [BlockCount; 7]
        requires { length self.now.tiers ≡ 7 }
        ensures counts { result ≡ map tier_count self.now.tiers }
        ensures made { length self.now.slots ≡ self.now.first + slots_made self.now.tiers }
    {
        // Read for the proof alone: the blocks fill all slots from the first block on.
        let _slots = &self.slots;
        [
            self.count_of(0),
            self.count_of(1),
            self.count_of(2),
            self.count_of(3),
            self.count_of(4),
            self.count_of(5),
            self.count_of(6),
        ]
    }

    // Counts the blocks of tier `k`, used and free.
    fn count_of(&self, k: usize) -> BlockCount
        requires { k < length self.now.tiers }
        ensures { result ≡ tier_count (tier_at self.now.tiers k) }
    {
        self.lists[k].count()
    }

    /// Writes a slot of a block in use, or one before the first block, and returns its previous value.
    #[inline]
    pub fn put(&mut self, slot: usize, value: S) -> S
        requires within { slot < length self.old.slots }
        requires value { R.can_hold value }
        ensures slots { self.new ≡ record self.old { slots = slice_set self.old.slots slot value } }
        ensures value { result ≡ slice_index_or self.old.slots slot result }
        ensures sound { (b : UsedBlock S) (live : List (UsedBlock S)) (offset : ℕ)
            → Sound S.vacant (b ∷ live) self.old
            → slot ≡ b.start + offset → offset < length b.items
            → Sound S.vacant (record b { items = slice_set b.items offset value } ∷ live) self.new }
        ensures before { (live : List (UsedBlock S)) → slot < self.old.first
            → Sound S.vacant live self.old → Sound S.vacant live self.new }
    {
        self.slots.put(slot, value)
    }

    /// Removes all blocks and drops their values. The slots before the first block stay.
    ///
    /// This does not allocate, and keeps the capacity.
    pub fn clear(&mut self)
        ensures value { self.new ≡ record self.old {
          slots = take self.old.first self.old.slots;
          tiers = map (λ t. no_blocks t.size) self.old.tiers;
        } }
        ensures sound { Sound S.vacant [] self.new }
    {
        self.slots.cut(self.first as usize);
        clear_all(&mut self.lists);
    }

    /// Frees the spare capacity of the array and of its free lists. Each free list keeps capacity for all blocks of its size.
    ///
    /// # Errors
    ///
    /// Returns an error if the allocator does not shrink one of them. Slots and blocks are unchanged then.
    pub fn shrink_to_fit(&mut self) -> Result<(), AllocError>
        ensures kept { self.new ≡ record self.old { capacities = self.new.capacities } }
        ensures fits { OnOk result (NoneExceeds self.new.capacities (length self.new.slots)) }
        ensures less { NoneGrows self.old.capacities self.new.capacities }
    {
        self.slots.shrink()?;
        shrink_all(&mut self.lists)
    }

    /// Creates an array that has no blocks. All its slots are before the first block.
    fn new(slots: R, lists: Vec<FreeList<A>, A>, limit: u32) -> Self
        requires within { length (R.list slots) ≤ limit }
        requires sizes { HasSizes lists.items }
        requires none_made { All (λ t. (t.made ≡ 0) × (t.starts ≡ [])) lists.items }
        ensures value { result
            ≡ record {
              slots = R.list slots;
              first = length (R.list slots);
              tiers = lists.items;
              limit = limit;
              capacities = R.capacities slots;
            } }
        ensures sound { Sound S.vacant [] result }
    {
        let first = slots.count() as u32;
        Blocks {
            slots,
            first,
            lists,
            limit,
            of: PhantomData,
        }
    }
}

/// The array of values.
pub type Cells<T, A> = Blocks<Option<T>, Vec<Option<T>, A>, A>;

impl<S: Slot, A: Allocator> Blocks<S, Vec<S, A>, A> {
    /// Borrows the value in a slot.
    #[inline]
    pub fn at(&self, slot: usize) -> &S
        requires { slot < length self.now.slots }
        ensures slot { result.now ≡ slice_index_or self.now.slots slot result.now }
        ensures item { (b : UsedBlock S) (live : List (UsedBlock S)) (offset : ℕ)
            → Sound S.vacant (b ∷ live) self.now
            → slot ≡ b.start + offset → offset < length b.items
            → result.now ≡ slice_index_or b.items offset result.now }
    {
        &self.slots[slot]
    }

    /// Borrows the value in a slot mutably.
    #[inline]
    pub fn at_mut(&mut self, slot: usize) -> &mut S
        requires { slot < length self.old.slots }
        ensures* writes_back { sem 𝓛
            (lends_slot S.row A.row S.Slot A.Allocator self.entry slot result) }
        ensures slot { result.now ≡ slice_index_or self.old.slots slot result.now }
        ensures sound { (value : S) (b : UsedBlock S) (live : List (UsedBlock S)) (offset : ℕ)
            → Sound S.vacant (b ∷ live) self.old
            → slot ≡ b.start + offset → offset < length b.items
            → Sound S.vacant (record b { items = slice_set b.items offset value } ∷ live)
            (with_slot self.old slot value) }
    {
        &mut self.slots[slot]
    }
}

impl<A: Allocator> Blocks<Node, NodeArray<A>, A> {
    ghost use Rattle.std.specs.Prelude.{ℕ};
    ghost use Rattle.prefix_trie_table.specs.Blocks.Cells.{node_at, size_classes};
    ghost use Rattle.prefix_trie_table.specs.Blocks.NodeArrays.{FitsByte};

    /// Calls `NodeArray::sizes_fit`.
    #[inline]
    pub(super) fn sizes_fit(&self)
        ensures { (slot : ℕ) → slot < length self.now.slots
            → FitsByte (node_at self.now.slots slot) }
    {
        self.slots.sizes_fit();
    }

    /// Returns the node in a slot.
    #[inline]
    pub(super) fn node(&self, slot: usize) -> Node
        requires { slot < length self.now.slots }
        ensures node { result ≡ node_at self.now.slots slot }
        ensures fits { FitsByte result }
    {
        self.slots.get(slot)
    }

    /// Returns the size classes of the node in a slot.
    #[inline]
    pub(super) fn size_classes(&self, slot: usize) -> SizeClasses
        requires { slot < length self.now.slots }
        ensures { result ≡ size_classes (node_at self.now.slots slot) }
    {
        self.slots.size_classes(slot)
    }
}

impl<A: Allocator + Clone> Blocks<Node, NodeArray<A>, A> {
    /// Copies the array with its nodes and blocks.
    ///
    /// # Errors
    ///
    /// Returns an error if an allocation fails.
    pub(super) fn clone_nodes(&self) -> Result<Self, AllocError>
        ensures { IfOk result (λ copy. copy ≡ record self.now { capacities = copy.capacities }) }
    {
        let lists = Vec::from_clones(self.lists.allocator().clone()?, &self.lists)?;
        let slots = self.slots.clone()?;
        Ok(Blocks {
            slots,
            first: self.first,
            lists,
            limit: self.limit,
            of: PhantomData,
        })
    }
}

/// Creates a free list for each size, with no blocks.
fn empty_lists<A: Allocator + Clone>(
    alloc: &A,
    sizes: &[u32],
) -> Result<Vec<FreeList<A>, A>, AllocError>
    ensures { IfOk result (λ v. v.items ≡ map no_blocks sizes.now) }
{
    let mut lists = Vec::new(alloc.clone()?);
    for size in sizes {
        lists.push(FreeList::new(alloc.clone()?, *size))?;
    }
    Ok(lists)
}

// The sizes of blocks of values. A node has at most 31 values.
const CELL_SIZES: [u32; 7] = [1, 2, 4, 8, 16, 24, 31];

/// Creates an empty array of cells, which never has more than `limit` slots.
///
/// # Errors
///
/// Returns an error if an allocation fails.
pub fn cells<T: Drop, A: Allocator + Clone>(
    alloc: &A,
    limit: u32,
) -> Result<Cells<T, A>, AllocError>
    ensures empty { IfOk result
        (λ b. b ≡ record {
          slots = [];
          first = 0;
          tiers = map no_blocks cell_sizes;
          limit = limit;
          capacities = b.capacities;
        }) }
    ensures sound { IfOk result (λ b. Sound None [] b) }
{
    let lists = empty_lists(alloc, &CELL_SIZES)?;
    let slots = Vec::new(alloc.clone()?);
    Ok(Blocks::new(slots, lists, limit))
}

// The sizes of blocks of nodes. A node has at most 32 children.
const NODE_SIZES: [u32; 7] = [1, 2, 4, 8, 16, 24, 32];

/// Creates an array that has a blank root and no blocks.
///
/// # Errors
///
/// Returns `IndexRange` if `limit` is 0, and `Memory` if an allocation fails.
pub(super) fn node_blocks<A: Allocator + Clone>(
    alloc: &A,
    limit: u32,
) -> Result<Blocks<Node, NodeArray<A>, A>, Refusal>
    ensures empty { IfOk result
        (λ b. b ≡ record {
          slots = blank_node ∷ [];
          first = 1;
          tiers = map no_blocks node_sizes;
          limit = limit;
          capacities = b.capacities;
        }) }
    ensures sound { IfOk result (λ b. Sound blank_node [] b) }
    ensures range { IfErr result (λ e. (e ≡ IndexRange) ↔ (limit ≡ 0)) }
    ensures space { limit ≡ 0 → IsErr result }
{
    if limit == 0 {
        return Err(Refusal::IndexRange);
    }
    node_array(alloc, limit).map_err(|_| Refusal::Memory)
}

/// Creates the same array under a limit that is not 0.
fn node_array<A: Allocator + Clone>(
    alloc: &A,
    limit: u32,
) -> Result<Blocks<Node, NodeArray<A>, A>, AllocError>
    requires { 0 < limit }
    ensures empty { IfOk result
        (λ b. b ≡ record {
          slots = blank_node ∷ [];
          first = 1;
          tiers = map no_blocks node_sizes;
          limit = limit;
          capacities = b.capacities;
        }) }
    ensures sound { IfOk result (λ b. Sound blank_node [] b) }
{
    let lists = empty_lists(alloc, &NODE_SIZES)?;
    let mut slots = NodeArray::new(alloc)?;
    slots.reserve(1)?;
    slots.append(Node::blank());
    Ok(Blocks::new(slots, lists, limit))
}
