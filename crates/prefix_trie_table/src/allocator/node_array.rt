//! The nodes in two arrays: 16 bytes of each, which are all that a lookup reads, and one byte for the sizes of its blocks.
ghost use Rattle.std.specs.Prelude.{◌≡◌, ℕ, ◌+◌, ◌*◌, ◌<◌, [], ◌∷◌, length, slice_index, IfOk};
ghost use Rattle.prefix_trie_table.specs.Blocks.Cells.{node_at, size_classes};
ghost use Rattle.prefix_trie_table.specs.Blocks.NodeArrays.{FitsByte, blank_fits, node_of};

use crate::allocator::array::SlotArray;
use crate::allocator::node::{Node, SizeClasses};
use crate::allocator::slots::{reserve, shift_in, shift_out, shrink};
use std::alloc::{AllocError, Allocator};
use std::marker::Model;
use std::mem;

// The part of a node that a lookup reads.
#[derive(Clone, Copy)]
pub struct Head {
    value_bitmap: u32,
    child_bitmap: u32,
    value_block: u32,
    child_block: u32,
}

/// An array of nodes.
#[derive(Drop)]
pub struct NodeArray<A: Allocator> {
    heads: Vec<Head, A>,
    // For each node the index of the size of its value block, plus 8 times the index of the size of its child block.
    tiers: Vec<u8, A>,
}

// Clauses see the nodes, and the capacity of `heads` and of `tiers`. Both have the same length.
impl<A: Allocator> Model for NodeArray<A> {
    ghost use Rattle.std.specs.Prelude.{◌≡◌, [], ◌∷◌, length, vec_capacity};
    ghost use Rattle.prefix_trie_table.specs.Blocks.NodeArrays.{NodeList, nodes_of};

    ghost Value = { NodeList };

    ghost view = { λ a. record {
      list = nodes_of a.heads.items a.tiers.items;
      capacities = vec_capacity a.heads ∷ vec_capacity a.tiers ∷ [];
    } };

    ghost invariant = { λ a. length a.heads.items ≡ length a.tiers.items };
}

// Does nothing. Calling it brings the fact that bytes are below 256 into the proof.
#[inline]
fn are_bytes(bytes: &[u8])
    ensures { (k : ℕ) → slice_index bytes.now k < 256 }
{
    let _count = bytes.len();
}

/// Joins the two parts of a node.
#[inline]
fn joined(head: Head, tiers: u8) -> Node
    ensures node { result ≡ node_of head tiers }
    ensures fits { FitsByte result }
{
    Node {
        value_bitmap: head.value_bitmap,
        child_bitmap: head.child_bitmap,
        value_block: head.value_block,
        child_block: head.child_block,
        value_tier: tiers % 8,
        child_tier: tiers / 8,
    }
}

impl<A: Allocator> NodeArray<A> {
    /// Returns the node in a slot.
    #[inline]
    pub fn get(&self, at: usize) -> Node
        requires { at < length self.now.list }
        ensures node { result ≡ node_at self.now.list at }
        ensures fits { FitsByte result }
    {
        let head = self.heads[at];
        let tiers = self.tiers[at];
        joined(head, tiers)
    }

    /// Returns the size classes of the node in a slot. It does not read the rest of the node.
    #[inline]
    pub fn size_classes(&self, at: usize) -> SizeClasses
        requires { at < length self.now.list }
        ensures { result ≡ size_classes (node_at self.now.list at) }
    {
        let packed = self.tiers[at];
        SizeClasses {
            value_tier: packed % 8,
            child_tier: packed / 8,
        }
    }

    /// Does nothing. Calling it brings the fact that both indices of each node fit into a byte into the proof.
    #[inline]
    pub fn sizes_fit(&self)
        ensures { (at : ℕ) → at < length self.now.list → FitsByte (node_at self.now.list at) }
    {
        are_bytes(&self.tiers);
    }
}

impl<A: Allocator + Clone> NodeArray<A> {
    /// Creates an empty array.
    ///
    /// # Errors
    ///
    /// Returns an error if the allocator cannot be cloned.
    pub fn new(alloc: &A) -> Result<Self, AllocError>
        ensures { IfOk result (λ a. a.list ≡ []) }
    {
        let heads = Vec::new(alloc.clone()?);
        let tiers = Vec::new(alloc.clone()?);
        Ok(NodeArray { heads, tiers })
    }

    /// Copies the array.
    ///
    /// # Errors
    ///
    /// Returns an error if an allocation fails.
    pub fn clone(&self) -> Result<Self, AllocError>
        ensures { IfOk result (λ a. a.list ≡ self.now.list) }
    {
        let heads = Vec::from_clones(self.heads.allocator().clone()?, &self.heads)?;
        let tiers = Vec::from_clones(self.tiers.allocator().clone()?, &self.tiers)?;
        Ok(NodeArray { heads, tiers })
    }
}

#[inline]
fn head_of(node: Node) -> Head
    ensures { result
        ≡ record {
          value_bitmap = node.value_bitmap;
          child_bitmap = node.child_bitmap;
          value_block = node.value_block;
          child_block = node.child_block;
        } }
{
    Head {
        value_bitmap: node.value_bitmap,
        child_bitmap: node.child_bitmap,
        value_block: node.value_block,
        child_block: node.child_block,
    }
}

#[inline]
fn tiers_of(node: Node) -> u8
    requires { FitsByte node }
    ensures { result ≡ node.value_tier + 8 * node.child_tier }
{
    node.value_tier + 8 * node.child_tier
}

impl<A: Allocator> SlotArray<Node> for NodeArray<A> {
    ghost list = { λ a. a.list };

    ghost capacities = { λ a. a.capacities };

    ghost can_hold = { FitsByte };

    ghost holds_vacant = { blank_fits };

    #[inline]
    fn count(&self) -> usize {
        self.heads.len()
    }

    #[inline]
    fn reserve(&mut self, count: usize) -> Result<(), AllocError> {
        reserve(&mut self.heads, count)?;
        reserve(&mut self.tiers, count)
    }

    #[inline]
    fn append(&mut self, value: Node) {
        self.heads.push_reserved(head_of(value));
        self.tiers.push_reserved(tiers_of(value));
    }

    #[inline]
    fn put(&mut self, at: usize, value: Node) -> Node {
        let head = mem::replace(&mut self.heads[at], head_of(value));
        let tiers = mem::replace(&mut self.tiers[at], tiers_of(value));
        joined(head, tiers)
    }

    #[inline]
    fn move_to(&mut self, from: usize, to: usize) {
        self.heads[to] = self.heads[from];
        self.heads[from] = head_of(Node::blank());
        self.tiers[to] = self.tiers[from];
        self.tiers[from] = 0;
    }

    #[inline]
    fn insert_shifting(&mut self, from: usize, to: usize, value: Node) {
        shift_in(&mut self.heads, from, to, head_of(value));
        shift_in(&mut self.tiers, from, to, tiers_of(value));
    }

    #[inline]
    fn remove_shifting(&mut self, from: usize, to: usize) -> Node {
        let head = shift_out(&mut self.heads, from, to, head_of(Node::blank()));
        let tiers = shift_out(&mut self.tiers, from, to, 0);
        joined(head, tiers)
    }

    #[inline]
    fn cut(&mut self, count: usize) {
        self.heads.truncate(count);
        self.tiers.truncate(count);
    }

    fn shrink(&mut self) -> Result<(), AllocError> {
        shrink(&mut self.heads, 0)?;
        shrink(&mut self.tiers, 0)
    }
}
