//! Inserting a value in two phases.
//!
//! `prepare` makes every block that the insertion needs and that is not free. Only this phase can fail. `add_entry`
//! then adds the missing nodes and the value, and takes the blocks from the free lists.
ghost use Rattle.std.specs.Prelude.{◌≡◌, ℕ, ◌+◌, ◌<◌, ◌≤◌, List, Option, Some, false, MatchResult, OnOk};
ghost use Rattle.prefix_trie_table.specs.declared.allocator.node.Node.{Node};
ghost use Rattle.prefix_trie_bits.specs.Bitmaps.{has_bit as is_set};
ghost use Rattle.prefix_trie_table.specs.Blocks.Cells.{node_at, node_sizes, cell_sizes};
ghost use Rattle.prefix_trie_table.specs.Digits.{chunks_of, bit_of};
ghost use Rattle.prefix_trie_bits.specs.Model.Blocks.{one_of};
ghost use Rattle.prefix_trie_table.specs.OwnBlocks.{child_need, value_need};
ghost use Rattle.prefix_trie_table.specs.Blocks.Store.{AreFree, MakesNone, free_in, needs};
ghost use Rattle.prefix_trie_table.specs.Forest.{IsSlot, NodesHold, CellsHold, Holds, SomeTable, SomeNodes, IsNodeAt, ChildAdded, EntryAdded, ValueSet, entry_count};
ghost use Rattle.prefix_trie_table.specs.Locations.{EndsAt, LeavesRest, seat_in, seat_of};
ghost use Rattle.prefix_trie_table.specs.Tables.{GrowsBoth, ForHeld};
ghost use Rattle.prefix_trie_table.specs.Needs.{nodes_needed, cells_needed, HasFreeBlocks, ObtainsBoth};
ghost use Rattle.prefix_trie_bits.specs.declared.prefix.Refusal.TheVariants.{Memory, IndexRange};

use crate::allocator::blocks::Cells;
use crate::allocator::node::{Node, NodeSlot};
use crate::allocator::nodes::{NodeAllocator, VisitCounter};
use crate::table::lookup::Reached;
use crate::table::seat::{SearchEnd, Seat};
use prefix_trie_bits::node::{count, rank, with_bit};
use prefix_trie_bits::prefix::{BitString, Key, Refusal, Refused};
use std::alloc::Allocator;

/// Adds a missing child to the node in a slot, and returns the child's slot.
///
/// The new child has no values and no children. The block that the child needs, if any, is free.
#[inline(always)]
fn add_child<A: Allocator, V: VisitCounter>(
    nodes: &mut NodeAllocator<A, V>,
    at: NodeSlot,
    node: &Node,
    child: u32,
) -> NodeSlot
    requires child { child < 32 }
    requires is_there { (n : SomeNodes nodes.old) × IsNodeAt n.reading at }
    requires node { node.now ≡ node_at nodes.old.slots at }
    requires missing { is_set node.now.child_bitmap child ≡ false }
    requires ready { AreFree nodes.old.tiers (needs (child_need (Some node.now)) 0) }
    ensures stays { MakesNone nodes.old nodes.new }
    ensures free { (size : ℕ)
        → free_in nodes.old.tiers size
        ≤ free_in nodes.new.tiers size + one_of (child_need (Some node.now)) size }
    ensures added { (reading : List ℕ → Option Node) (paths : List (List ℕ)) (p : List ℕ) (n : Node)
        → NodesHold node_sizes reading paths nodes.old
        → IsSlot reading p at → reading p ≡ Some n
        → ChildAdded reading paths p n child nodes.new result }
{
    let offset = rank(node.child_bitmap, child);
    let block = nodes.insert_blank(
        node.child_tier as usize,
        node.child_block,
        count(node.child_bitmap),
        offset,
    );
    let child_bitmap = with_bit(node.child_bitmap, child);
    nodes.put(
        at,
        Node {
            child_bitmap,
            child_block: block.start,
            child_tier: block.tier as u8,
            ..*node
        },
    );
    block.start as usize + offset as usize
}

/// Adds a missing value to the node in a slot, and returns the value's seat.
///
/// The block that the value needs, if any, is free.
#[inline(always)]
fn add_value<T: Drop, A: Allocator, V: VisitCounter>(
    nodes: &mut NodeAllocator<A, V>,
    cells: &mut Cells<T, A>,
    at: NodeSlot,
    node: &Node,
    bit: u32,
    value: T,
) -> Seat
    requires bit { bit < 31 }
    requires is_there { (t : SomeTable nodes.old cells.old) × IsNodeAt t.reading at }
    requires node { node.now ≡ node_at nodes.old.slots at }
    requires missing { is_set node.now.value_bitmap bit ≡ false }
    requires ready { AreFree cells.old.tiers (needs (value_need (Some node.now)) 0) }
    ensures nodes { MakesNone nodes.old nodes.new }
    ensures cells { MakesNone cells.old cells.new }
    ensures added { (reading : List ℕ → Option Node) (paths : List (List ℕ))
        (values : List ℕ → ℕ → Option T) (p : List ℕ) (n : Node)
        → NodesHold node_sizes reading paths nodes.old
        → CellsHold cell_sizes reading values paths cells.old
        → IsSlot reading p at → reading p ≡ Some n
        → ValueSet reading paths values p bit (Some value) nodes.new cells.new }
    ensures seat { seat_in (Some (node_at nodes.new.slots at)) bit ≡ Some result }
{
    let offset = rank(node.value_bitmap, bit);
    let block = cells.insert_at(
        node.value_tier as usize,
        node.value_block,
        count(node.value_bitmap),
        offset,
        Some(value),
    );
    let value_bitmap = with_bit(node.value_bitmap, bit);
    nodes.put(
        at,
        Node {
            value_bitmap,
            value_block: block.start,
            value_tier: block.tier as u8,
            ..*node
        },
    );
    Seat {
        slot: block.start as usize + offset as usize,
    }
}

/// Makes all blocks that the insertion of a missing value needs and that are not free.
///
/// `reached` is the last node on the search path of the value's bit string.
///
/// # Errors
///
/// Returns `IndexRange` if the missing blocks would exceed the slot limit, and `Memory` if an allocation fails. Blocks
/// made until then stay, free. Nothing else changes.
#[inline(always)]
pub fn prepare<K: Key, T: Drop, A: Allocator, V: VisitCounter>(
    nodes: &mut NodeAllocator<A, V>,
    cells: &mut Cells<T, A>,
    reached: &Reached,
    path: &BitString<K>,
) -> Result<(), Refusal>
    requires table { SomeTable nodes.old cells.old }
    requires ends { EndsAt nodes.old path.now reached.now }
    ensures space { OnOk result (HasFreeBlocks nodes.new cells.new reached.now path.now) }
    ensures grows { GrowsBoth
        (λ cause. cause ≡ IndexRange) result nodes.old nodes.new cells.old cells.new }
    ensures obtains { ObtainsBoth (λ cause. cause ≡ IndexRange) (λ cause. cause ≡ Memory)
        result nodes.old nodes.new cells.old cells.new
        (nodes_needed reached.now path.now) (cells_needed reached.now path.now) }
    ensures kept { ForHeld nodes.old cells.old
        (λ reading paths values. Holds reading values paths nodes.new cells.new) }
{
    let node = &reached.node;
    let last = path.len() / 5;
    if reached.level == last {
        return cells.prepare(node.value_tier as usize, count(node.value_bitmap), 0);
    }
    cells.prepare(0, 0, 0)?;
    let below = last - (reached.level + 1);
    nodes.prepare(
        node.child_tier as usize,
        count(node.child_bitmap),
        below as usize,
    )
}

/// Adds the missing nodes of a search path that ends here, and a value at its last node. Returns the value's seat.
#[inline(always)]
fn add_entry<K: Key, T: Drop, A: Allocator, V: VisitCounter>(
    nodes: &mut NodeAllocator<A, V>,
    cells: &mut Cells<T, A>,
    end: SearchEnd<K>,
    path: BitString<K>,
    value: T,
) -> Seat
    requires table { SomeTable nodes.old cells.old }
    requires ends { EndsAt nodes.old path end.reached }
    requires rest { LeavesRest path end }
    requires space { HasFreeBlocks nodes.old cells.old end.reached path }
    ensures nodes { MakesNone nodes.old nodes.new }
    ensures cells { MakesNone cells.old cells.new }
    ensures added { ForHeld nodes.old cells.old (λ reading paths values.
        EntryAdded reading values paths (chunks_of path) (bit_of path)
        (Some value) nodes.new cells.new) }
    ensures seat { seat_of nodes.new.slots path ≡ Some result }
{
    let last = path.len() / 5;
    let SearchEnd { reached, mut rest } = end;
    if reached.level == last {
        let bit = rest.value_bit();
        return add_value(nodes, cells, reached.at, &reached.node, bit, value);
    }
    // Only the first new node has a parent that was there before. The parents of the others are blank, which costs
    // less.
    let child = rest.child_bit();
    let mut at = add_child(nodes, reached.at, &reached.node, child);
    rest = rest.after_five();
    for _level in reached.level + 1..last {
        let child = rest.child_bit();
        at = add_child(nodes, at, &Node::blank(), child);
        rest = rest.after_five();
    }
    let bit = rest.value_bit();
    add_value(nodes, cells, at, &Node::blank(), bit, value)
}

/// Inserts a missing value where the search path of its bit string ends, counts it, and returns its seat.
///
/// # Errors
///
/// Returns the value back, with the cause, if `prepare` fails. Nothing is added then.
#[inline(always)]
pub fn insert_entry<K: Key, T: Drop, A: Allocator, V: VisitCounter>(
    nodes: &mut NodeAllocator<A, V>,
    cells: &mut Cells<T, A>,
    entries: &mut usize,
    end: SearchEnd<K>,
    path: BitString<K>,
    value: T,
) -> Result<Seat, Refused<T>>
    requires table { (t : SomeTable nodes.old cells.old)
        × (entries.old ≡ entry_count t.reading t.paths) }
    requires ends { EndsAt nodes.old path end.reached }
    requires rest { LeavesRest path end }
    ensures placed { ForHeld nodes.old cells.old (λ reading paths values. MatchResult result
        (λ _. EntryAdded reading values paths (chunks_of path) (bit_of path)
        (Some value) nodes.new cells.new)
        (λ _. Holds reading values paths nodes.new cells.new)) }
    ensures counted { MatchResult result (λ _. entries.new ≡ entries.old + 1)
        (λ _. entries.new ≡ entries.old) }
    ensures answer { MatchResult result
        (λ seat. seat_of nodes.new.slots path ≡ Some seat)
        (λ refused. refused.value ≡ value) }
    ensures grows { GrowsBoth
        (λ refused. refused.cause ≡ IndexRange) result nodes.old nodes.new cells.old cells.new }
    ensures obtains { ObtainsBoth (λ refused. refused.cause ≡ IndexRange)
        (λ refused. refused.cause ≡ Memory)
        result nodes.old nodes.new cells.old cells.new
        (nodes_needed end.reached path) (cells_needed end.reached path) }
{
    if let Err(cause) = prepare(nodes, cells, &end.reached, &path) {
        return Err(Refused { cause, value });
    }
    let seat = add_entry(nodes, cells, end, path, value);
    // Each entry has a cell, so the count is within the array's length.
    let slots = cells.len();
    prove!(*entries < slots);
    *entries += 1;
    Ok(seat)
}
