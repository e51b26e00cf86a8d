//! Removing values.
ghost use Rattle.std.specs.Prelude.{◌≡◌, ℕ, ◌+◌, ◌*◌, ◌<◌, [], ◌∷◌, ◌++◌, List, Option, Some, drop, map, None, true, false, is_some, IfSome, IfNone};
ghost use Rattle.prefix_trie_table.specs.declared.allocator.node.Node.{Node};
ghost use Rattle.prefix_trie_bits.specs.Bitmaps.{has_bit as is_set, rank as rank_of};
ghost use Rattle.prefix_trie_table.specs.Blocks.Cells.{blank_node, node_at, node_sizes, cell_sizes};
ghost use Rattle.prefix_trie_table.specs.Digits.{chunks_of, bit_of};
ghost use Rattle.prefix_trie_table.specs.Blocks.Store.{Sound, no_blocks};
ghost use Rattle.prefix_trie_table.specs.Forest.{IsSlot, NodesHold, CellsHold, SomeTable, SomeNodes, IsNodeAt, entry_count, one_if};
ghost use Rattle.prefix_trie_table.specs.Removals.{ValueTaken, EntryTaken, SameBlocks, IsBare, IsStocked, GivesBack, ChildDropped, AreAbove, IsAtEnd, Pruned, EntryRemoved};
ghost use Rattle.prefix_trie_table.specs.SearchPaths.{IsOwn, slot_at};
ghost use Rattle.prefix_trie_table.specs.GrowthBounds.{BoundsGrowth, BoundsNodeGrowth};
ghost use Rattle.prefix_trie_table.specs.Tables.{Grows, ForHeld};

use crate::allocator::blocks::Cells;
use crate::allocator::node::{Node, NodeSlot};
use crate::allocator::nodes::{NodeAllocator, VisitCounter};
use crate::table::lookup::{Reached, descend, root, step_down};
use arrayvec::ArrayVec;
use prefix_trie_bits::node::{count, has_bit, rank, without_bit};
use prefix_trie_bits::prefix::{BitString, Key};
use std::alloc::Allocator;

/// Removes all values, and all nodes but the root.
pub fn clear_entries<T: Drop, A: Allocator, V: VisitCounter>(
    nodes: &mut NodeAllocator<A, V>,
    cells: &mut Cells<T, A>,
    entries: &mut usize,
)
    requires table { SomeTable nodes.old cells.old }
    requires first { cells.old.first ≡ 0 }
    ensures nodes { nodes.new ≡ record {
      slots = blank_node ∷ [];
      first = 1;
      tiers = map no_blocks node_sizes;
      limit = nodes.old.limit;
      capacities = nodes.new.capacities;
    } }
    ensures nodes_sound { Sound blank_node [] nodes.new }
    ensures cells { cells.new ≡ record {
      slots = [];
      first = 0;
      tiers = map no_blocks cell_sizes;
      limit = cells.old.limit;
      capacities = cells.new.capacities;
    } }
    ensures cells_sound { Sound None [] cells.new }
    ensures none { entries.new ≡ 0 }
{
    nodes.clear();
    cells.clear();
    *entries = 0;
}

/// Removes a stored value of the node in a slot, and returns it with the node as it is then.
#[inline(always)]
pub fn take_value<T: Drop, A: Allocator, V: VisitCounter>(
    nodes: &mut NodeAllocator<A, V>,
    cells: &mut Cells<T, A>,
    at: NodeSlot,
    node: Node,
    bit: u32,
) -> (Option<T>, Node)
    requires bit { bit < 31 }
    requires is_there { (t : SomeTable nodes.old cells.old) × IsNodeAt t.reading at }
    requires node { node ≡ node_at nodes.old.slots at }
    requires there { is_set node.value_bitmap bit ≡ true }
    ensures node_blocks { SameBlocks nodes.old nodes.new }
    ensures cell_space { Grows cells.old cells.new 24 }
    ensures bounds_growth { BoundsGrowth nodes.old nodes.new cells.old cells.new }
    ensures value { (reading : List ℕ → Option Node) (paths : List (List ℕ))
        (values : List ℕ → ℕ → Option T) (p : List ℕ) (n : Node)
        → NodesHold node_sizes reading paths nodes.old
        → CellsHold cell_sizes reading values paths cells.old
        → IsSlot reading p at → reading p ≡ Some n
        → result.0 ≡ values p bit }
    ensures taken { (reading : List ℕ → Option Node) (paths : List (List ℕ))
        (values : List ℕ → ℕ → Option T) (p : List ℕ) (n : Node)
        → NodesHold node_sizes reading paths nodes.old
        → CellsHold cell_sizes reading values paths cells.old
        → IsSlot reading p at → reading p ≡ Some n
        → ValueTaken reading paths values p bit n result.1 nodes.new cells.old cells.new }
{
    let (value, rest) = cells.remove_at(
        node.value_tier as usize,
        node.value_block,
        count(node.value_bitmap),
        rank(node.value_bitmap, bit),
    );
    let left = Node {
        value_bitmap: without_bit(node.value_bitmap, bit),
        value_block: rest.start,
        value_tier: rest.tier as u8,
        ..node
    };
    nodes.put(at, left);
    (value, left)
}

/// Removes the value at a bit of a node, if there is one. Returns it, and the node as it is then.
#[inline(always)]
fn take_bit<T: Drop, A: Allocator, V: VisitCounter>(
    nodes: &mut NodeAllocator<A, V>,
    cells: &mut Cells<T, A>,
    entries: &mut usize,
    here: Reached,
    bit: u32,
) -> (Option<T>, Node)
    requires bit { bit < 31 }
    requires table { (t : SomeTable nodes.old cells.old)
        × (entries.old ≡ entry_count t.reading t.paths) × IsNodeAt t.reading (slot_at here) }
    requires node { here.node ≡ node_at nodes.old.slots (slot_at here) }
    ensures taken { ForHeld nodes.old cells.old (λ reading paths values.
        (p : List ℕ) → IsSlot reading p (slot_at here) → reading p ≡ Some here.node
        → (result.0 ≡ values p bit)
        × ((t : EntryTaken reading paths values p bit nodes.new cells.old cells.new)
        × (t.later p ≡ Some result.1))) }
    ensures counted { entries.new + one_if (is_some result.0) ≡ entries.old }
    ensures node_blocks { SameBlocks nodes.old nodes.new }
    ensures cell_space { Grows cells.old cells.new 24 }
{
    if !has_bit(here.node.value_bitmap, bit) {
        return (None, here.node);
    }
    let taken = take_value(nodes, cells, here.at, here.node, bit);
    *entries -= 1;
    taken
}

/// Removes the value at a bit string, if there is one. All nodes stay.
pub fn remove_value<K: Key, T: Drop, A: Allocator, V: VisitCounter>(
    nodes: &mut NodeAllocator<A, V>,
    cells: &mut Cells<T, A>,
    entries: &mut usize,
    path: BitString<K>,
    counter: &mut V,
) -> Option<T>
    requires table { (t : SomeTable nodes.old cells.old)
        × (entries.old ≡ entry_count t.reading t.paths) }
    ensures value { ForHeld nodes.old cells.old (λ reading paths values.
        result ≡ values (chunks_of path) (bit_of path)) }
    ensures taken { ForHeld nodes.old cells.old (λ reading paths values.
        EntryTaken reading paths values (chunks_of path)
        (bit_of path) nodes.new cells.old cells.new) }
    ensures counted { entries.new + one_if (is_some result) ≡ entries.old }
    ensures node_blocks { SameBlocks nodes.old nodes.new }
    ensures cell_space { Grows cells.old cells.new 24 }
{
    let (here, rest) = descend(nodes, path, counter);
    if rest.len() >= 5 {
        return None;
    }
    take_bit(nodes, cells, entries, here, rest.value_bit()).0
}

/// Goes down the search path to a bit string's own node, and pushes the slots of the nodes above it to `above`.
///
/// Returns that node with the bits after those that lead to it, or `None` if a node of the path is missing. `above` must be empty.
pub fn descend_keeping_ancestors<K: Key, A: Allocator, V: VisitCounter>(
    nodes: &NodeAllocator<A, V>,
    path: &BitString<K>,
    above: &mut ArrayVec<NodeSlot, 25>,
    counter: &mut V,
) -> Option<(Reached, BitString<K>)>
    requires sound { SomeNodes nodes.now }
    requires empty { above.old.items ≡ [] }
    ensures found { IfSome result
        (λ own. IsOwn path.now own.0 nodes.now
        × AreAbove path.now own.0.level above.new.items nodes.now) }
    ensures rest { IfSome result (λ own. own.1 ≡ drop (5 * own.0.level) path.now) }
    ensures missing { IfNone result ((reading : List ℕ → Option Node) (paths : List (List ℕ))
        → NodesHold node_sizes reading paths nodes.now → reading (chunks_of path.now) ≡ None) }
{
    let last = path.len() / 5;
    let mut here = root(nodes, counter);
    let mut rest = path.copy();
    while here.level < last {
        // Pushed before the next node is read, so that a node's values and sizes are loaded at the last one alone.
        above.push(here.at);
        let Some(next) = step_down(nodes, here, &rest, last, counter) else {
            return None;
        };
        here = next;
        rest = rest.after_five();
    }
    Some((here, rest))
}

/// Returns whether a node has neither values nor children.
#[inline]
pub fn is_bare(node: Node) -> bool
    ensures bare { result ≡ true → IsBare node }
    ensures stocked { result ≡ false → IsStocked node }
{
    count(node.value_bitmap) + count(node.child_bitmap) == 0
}

/// Removes a child that has no children from the node in a slot, and returns the node as it is then.
#[inline(always)]
pub fn drop_child<A: Allocator, V: VisitCounter>(
    nodes: &mut NodeAllocator<A, V>,
    at: NodeSlot,
    child: u32,
    counter: &mut V,
) -> Node
    requires child { child < 32 }
    requires is_there { (n : SomeNodes nodes.old) × IsNodeAt n.reading at }
    requires there { is_set (node_at nodes.old.slots at).child_bitmap child
        ≡ true }
    ensures space { Grows nodes.old nodes.new 24 }
    ensures last { rank_of result.child_bitmap 32 ≡ 0 → GivesBack nodes.old nodes.new }
    ensures dropped { (reading : List ℕ → Option Node) (paths : List (List ℕ)) (p : List ℕ)
        (n leaf : Node)
        → NodesHold node_sizes reading paths nodes.old
        → IsSlot reading p at → reading p ≡ Some n
        → reading (p ++ child ∷ []) ≡ Some leaf → rank_of leaf.child_bitmap 32 ≡ 0
        → ChildDropped reading paths p child n result nodes.old nodes.new }
{
    let node = nodes.visit(at, counter);
    let rest = nodes.remove_at(
        node.child_tier as usize,
        node.child_block,
        count(node.child_bitmap),
        rank(node.child_bitmap, child),
    );
    let left = Node {
        child_bitmap: without_bit(node.child_bitmap, child),
        child_block: rest.start,
        child_tier: rest.tier as u8,
        ..node
    };
    nodes.put(at, left);
    left
}

/// Removes the nodes of a search path that have no value and no child, from its end upward.
///
/// `ancestors` has the slots of the nodes above the end. The root stays.
pub fn prune_up<K: Key, A: Allocator, V: VisitCounter>(
    nodes: &mut NodeAllocator<A, V>,
    ancestors: &[NodeSlot],
    path: BitString<K>,
    node: Node,
    counter: &mut V,
)
    requires is_there { IsAtEnd (chunks_of path) ancestors.now node nodes.old }
    ensures space { Grows nodes.old nodes.new 24 }
    ensures bounds_growth { BoundsNodeGrowth nodes.old nodes.new }
    ensures pruned { (s : IsAtEnd (chunks_of path) ancestors.now node nodes.old)
        → Pruned s.reading s.paths (chunks_of path) nodes.old nodes.new }
{
    let mut level = path.len() / 5;
    let mut node = node;
    while level > 0 && is_bare(node) {
        level -= 1;
        let at = ancestors[level as usize];
        node = drop_child(nodes, at, path.after(5 * level).child_bit(), counter);
    }
}

/// Removes the value at a bit string, if it is stored, and then the empty nodes of its search path.
///
/// Nodes are removed from the string's own node upward. If that node is missing, nothing changes.
pub fn remove_entry<K: Key, T: Drop, A: Allocator, V: VisitCounter>(
    nodes: &mut NodeAllocator<A, V>,
    cells: &mut Cells<T, A>,
    entries: &mut usize,
    path: BitString<K>,
    counter: &mut V,
) -> Option<T>
    requires table { (t : SomeTable nodes.old cells.old)
        × (entries.old ≡ entry_count t.reading t.paths) }
    ensures value { ForHeld nodes.old cells.old (λ reading paths values.
        result ≡ values (chunks_of path) (bit_of path)) }
    ensures removed { ForHeld nodes.old cells.old (λ reading paths values.
        EntryRemoved reading paths values (chunks_of path)
        (bit_of path) nodes.old cells.old nodes.new cells.new) }
    ensures counted { entries.new + one_if (is_some result) ≡ entries.old }
    ensures node_space { Grows nodes.old nodes.new 24 }
    ensures cell_space { Grows cells.old cells.new 24 }
{
    let mut above = ArrayVec::new();
    let Some((here, rest)) = descend_keeping_ancestors(nodes, &path, &mut above, counter) else {
        return None;
    };
    let (value, left) = take_bit(nodes, cells, entries, here, rest.value_bit());
    prune_up(nodes, &above, path, left, counter);
    value
}
