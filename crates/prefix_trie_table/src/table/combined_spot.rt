//! A spot of a walk of two tables at once: a node of each, and which places of the two are still to come.
ghost use Rattle.std.specs.Prelude.{◌≡◌, ◌<◌, true, false, All, length, filter};
ghost use Rattle.prefix_trie_bits.specs.Places.{strings};
ghost use Rattle.prefix_trie_bits.specs.Walks.{to_come};
ghost use Rattle.prefix_trie_bits.specs.Bitmaps.{has_bit as is_set};
ghost use Rattle.prefix_trie_table.specs.Forest.{child as child_of, child_slot as slot_of_child};
ghost use Rattle.prefix_trie_table.specs.Locations.{seat_in};
ghost use Rattle.prefix_trie_table.specs.Walking.Combined.{IsCombinedPlace, IsCombinedSpot, CombinedSteps, CombinedTrees, is_combined, is_chosen, kept_node};
ghost use Rattle.prefix_trie_table.specs.Walking.Walks.{Tree};

use crate::allocator::node::Node;
use crate::allocator::nodes::{NodeAllocator, VisitCounter};
use crate::table::seat::Seat;
use crate::table::spot::Spot;
use prefix_trie_bits::node::{Place, Places, has_bit, string_of};
use prefix_trie_bits::prefix::Key;
use std::alloc::Allocator;

/// Which keys of two tables a walk gives.
#[derive(Clone, Copy)]
pub enum Combination {
    /// The keys of either table.
    Union,
    /// The keys of both tables.
    Intersection,
}

impl Combination {
    ghost use Rattle.std.specs.Prelude.{ℕ, ◌^◌};
    ghost use Rattle.prefix_trie_bits.specs.Places.{has};

    /// Returns the chosen bits of two bitmaps.
    #[inline]
    fn bits(self, left: u32, right: u32) -> u32
        ensures bits { (k : ℕ) → has result k ≡ is_chosen self (has left k) (has right k) }
        ensures small { left < 2 ^ 31 → right < 2 ^ 31 → result < 2 ^ 31 }
    {
        match self {
            Combination::Union => left | right,
            Combination::Intersection => left & right,
        }
    }
}

/// The nodes of two tables at one path, and the places that are still to come.
///
/// A table without a node there has a blank one. The nodes are without the sizes of their blocks.
#[derive(Clone, Copy, Default)]
pub struct CombinedSpot {
    // The node of the left table, and the places of both.
    spot: Spot,
    right: Node,
}

/// What the next place of two nodes is.
pub enum CombinedStep<K: Key> {
    /// A value: its key, the key's length in bits, and its seat in each table that has it.
    Entry(K, u32, Option<Seat>, Option<Seat>),
    /// A child, with all its places to come, and a key that its path begins.
    Child(CombinedSpot, K),
    /// No place is left.
    Done,
}

/// Returns the spot of two nodes whose path has `depth` bits, with all their places to come.
#[inline]
pub fn combined_spot(combination: Combination, left: Node, right: Node, depth: u32) -> CombinedSpot
    requires few { is_set left.value_bitmap 31 ≡ false }
    requires few_right { is_set right.value_bitmap 31 ≡ false }
    ensures left { result.spot.node ≡ left }
    ensures right { result.right ≡ right }
    ensures depth { result.spot.depth ≡ depth }
    ensures places { to_come result.spot.places
        ≡ filter (is_combined combination result.spot.node result.right) (strings 5) }
    ensures each { All (IsCombinedPlace combination result.spot.node result.right)
        (to_come result.spot.places) }
{
    let values = combination.bits(left.value_bitmap, right.value_bitmap);
    let children = combination.bits(left.child_bitmap, right.child_bitmap);
    let places = Places::new(values, children);
    CombinedSpot {
        spot: Spot {
            node: left,
            depth,
            places,
        },
        right,
    }
}

/// Takes the next place of a spot on the path of a key, in listing order. Only children are read.
#[inline]
pub fn next_at_both<K: Key, A: Allocator, B: Allocator, V: VisitCounter, T: Drop, U: Drop, X>(
    left: &NodeAllocator<A, V>,
    right: &NodeAllocator<B, V>,
    combination: Combination,
    at: &mut CombinedSpot,
    key: K,
    counter: &mut V,
) -> CombinedStep<K>
    requires trees { (l : Tree T) × (r : Tree U)
        × CombinedTrees K.bit_width left.now right.now l r }
    requires spot { IsCombinedSpot K.bit_width left.now.slots right.now.slots combination
        (K.bits key) at.old }
    ensures { CombinedSteps X K.IsKey K.bits K.bit_width left.now.slots right.now.slots combination
        (K.bits key) at.old result at.new }
{
    // Needed only for the proof: the number is a key.
    let _ = key.is_key();
    let depth = at.spot.depth;
    let node = at.spot.node;
    let other = at.right;
    let Some(place) = at.spot.places.next_place() else {
        return CombinedStep::Done;
    };
    match place {
        Place::Value(bit) => {
            let (n, tail) = string_of(bit);
            CombinedStep::Entry(
                key.extend(depth, n, tail),
                depth + n,
                seat_at(node, bit),
                seat_at(other, bit),
            )
        }
        Place::Child(child) => {
            let first = child_or_blank(left, node, child, counter);
            let second = child_or_blank(right, other, child, counter);
            let below = key.extend(depth, 5, child);
            CombinedStep::Child(combined_spot(combination, first, second, depth + 5), below)
        }
    }
}

/// Returns the seat of the value at a bit, if the node has one.
#[inline]
fn seat_at(node: Node, bit: u32) -> Option<Seat>
    requires { bit < 32 }
    ensures { result ≡ seat_in (Some node) bit }
{
    if has_bit(node.value_bitmap, bit) {
        Some(node.value_seat(bit))
    } else {
        None
    }
}

/// Reads the child of a node at a bit, without the sizes of its blocks. Returns a blank node if there is none.
#[inline]
fn child_or_blank<A: Allocator, V: VisitCounter>(
    nodes: &NodeAllocator<A, V>,
    node: Node,
    child: u32,
    counter: &mut V,
) -> Node
    requires small { child < 32 }
    requires is_there { is_set node.child_bitmap child ≡ true
        → slot_of_child node child < length nodes.now.slots }
    ensures { result ≡ kept_node (child_of nodes.now.slots node child) }
{
    if has_bit(node.child_bitmap, child) {
        nodes.visit(node.child_slot(child), counter).without_sizes()
    } else {
        Node::blank()
    }
}
