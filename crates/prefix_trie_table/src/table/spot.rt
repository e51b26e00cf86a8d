//! A spot: a node and which of its places are still to come in a walk.
ghost use Rattle.std.specs.Prelude.{◌≡◌, ◌+◌, ◌<◌, ◌≤◌, false, Some, None, All, length, slice_index_or};
ghost use Rattle.prefix_trie_bits.specs.Places.{places};
ghost use Rattle.prefix_trie_bits.specs.Walks.{to_come};
ghost use Rattle.prefix_trie_bits.specs.Bitmaps.{has_bit as is_set};
ghost use Rattle.prefix_trie_table.specs.Blocks.Cells.{node_at, without_sizes};
ghost use Rattle.prefix_trie_table.specs.Tables.{IsTrie};
ghost use Rattle.prefix_trie_table.specs.Walking.Starts.{places_in};
ghost use Rattle.prefix_trie_table.specs.Walking.Walks.{Tree, IsSpot, IsPlaceOf, IsSeated, StaysOnPath, Skips, Steps, slot_of};

use crate::allocator::blocks::Cells;
use crate::allocator::node::{Node, NodeSlot};
use crate::allocator::nodes::{NodeAllocator, VisitCounter};
use crate::table::seat::Seat;
use prefix_trie_bits::node::{Place, Places, string_of};
use prefix_trie_bits::prefix::{BitString, Key};
use std::alloc::Allocator;

/// A node, whose path is the first `depth` bits of a walk's key, and the places of the node that are still to come.
///
/// The node is without the sizes of its blocks.
#[derive(Clone, Copy)]
pub struct Spot {
    pub(super) node: Node,
    pub(super) depth: u32,
    pub(super) places: Places,
}

impl Default for Spot {
    /// Returns a spot with nothing to come.
    fn default() -> Self {
        Spot {
            node: Node::blank(),
            depth: 0,
            places: Places::default(),
        }
    }
}

/// What the next place of a spot is.
pub enum Step<K: Key> {
    /// A value: its key, the key's length in bits, and its seat.
    Entry(K, u32, Seat),
    /// A child, with all its places to come, and a key that its path begins.
    Child(Spot, K),
    /// No place is left.
    Done,
}

/// Reads the node in a slot, whose path has `depth` bits, and returns its spot with all its places to come.
#[inline]
pub fn enter<A: Allocator, V: VisitCounter>(
    nodes: &NodeAllocator<A, V>,
    at: NodeSlot,
    depth: u32,
    counter: &mut V,
) -> Spot
    requires is_there { at < length nodes.now.slots }
    requires few { is_set (node_at nodes.now.slots at).value_bitmap 31 ≡ false }
    ensures node { result.node ≡ without_sizes (node_at nodes.now.slots at) }
    ensures depth { result.depth ≡ depth }
    ensures places { to_come result.places
        ≡ places result.node.value_bitmap result.node.child_bitmap }
    ensures each { All (IsPlaceOf result.node) (to_come result.places) }
{
    let node = nodes.visit(at, counter).without_sizes();
    let places = Places::new(node.value_bitmap, node.child_bitmap);
    Spot {
        node,
        depth,
        places,
    }
}

/// Returns the spot of a node whose path has `depth` bits, with the places to come that are in these masks.
#[inline]
pub fn spot_in(node: Node, depth: u32, chosen: (u32, u32)) -> Spot
    requires few { is_set node.value_bitmap 31 ≡ false }
    ensures node { result.node ≡ without_sizes node }
    ensures depth { result.depth ≡ depth }
    ensures places { to_come result.places ≡ places_in node chosen.0 chosen.1 }
    ensures each { All (IsPlaceOf node) (to_come result.places) }
{
    let places = Places::new(node.value_bitmap & chosen.0, node.child_bitmap & chosen.1);
    Spot {
        node: node.without_sizes(),
        depth,
        places,
    }
}

/// Takes the next place of a spot on the path of a key, in listing order. Only a child is read.
#[inline]
pub fn next_at<K: Key, A: Allocator, V: VisitCounter, T: Drop>(
    nodes: &NodeAllocator<A, V>,
    spot: &mut Spot,
    key: K,
    counter: &mut V,
) -> Step<K>
    requires tree { (t : Tree T) × IsTrie K.bit_width t.count nodes.now t.cells t.shape }
    requires spot { IsSpot K.bit_width nodes.now.slots (K.bits key) spot.old }
    ensures step { (t : Tree T) → IsTrie K.bit_width t.count nodes.now t.cells t.shape
        → Steps K.IsKey K.bits K.bit_width nodes.now.slots t (K.bits key) spot.old result spot.new }
    ensures seat { IsSeated K.bits nodes.now.slots result }
    ensures search_path { StaysOnPath K.bits (K.bits key) spot.old result spot.new }
{
    // Needed only for the proof: the number is a key.
    let _ = key.is_key();
    let Some(place) = spot.places.next_place() else {
        return Step::Done;
    };
    let node = spot.node;
    match place {
        Place::Value(bit) => {
            let (n, tail) = string_of(bit);
            Step::Entry(
                key.extend(spot.depth, n, tail),
                spot.depth + n,
                node.value_seat(bit),
            )
        }
        Place::Child(child) => {
            let at = node.child_slot(child);
            let below = key.extend(spot.depth, 5, child);
            Step::Child(enter(nodes, at, spot.depth + 5, counter), below)
        }
    }
}

/// Drops the places that a bit string begins. The bit string ends at the node of the spot.
#[inline]
pub fn skip_below<K: Key>(spot: &mut Spot, path: &BitString<K>)
    requires whole { spot.old.depth ≤ length path.now }
    requires last { length path.now < spot.old.depth + 5 }
    ensures { Skips path.now spot.old spot.new }
{
    spot.places.skip_below(path.after(spot.depth).value_bit());
}

/// Returns the value at a seat.
#[inline]
pub fn value_at<T: Drop, A: Allocator>(cells: &Cells<T, A>, seat: Seat) -> &T
    requires is_there { slot_of seat < length cells.now.slots }
    requires set { (v : T) × (slice_index_or cells.now.slots (slot_of seat) None ≡ Some v) }
    ensures { slice_index_or cells.now.slots (slot_of seat) None ≡ Some result.now }
{
    let Some(value) = cells.at(seat.slot).as_ref() else {
        unreachable!();
    };
    value
}
