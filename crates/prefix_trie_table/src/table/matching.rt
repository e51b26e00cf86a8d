//! Longest and shortest match on a search path.
ghost use Rattle.std.specs.Prelude.{◌≡◌, ℕ, ◌+◌, ◌*◌, ◌/◌, ◌<◌, ◌≤◌, Bool, List, Option, None, Some, false, take, drop, length, IfSome, MatchOption, slice_index_or};
ghost use Rattle.prefix_trie_table.specs.declared.allocator.node.Node.{Node};
ghost use Rattle.prefix_trie_bits.specs.Bitmaps.{has_bit as is_set};
ghost use Rattle.prefix_trie_table.specs.Blocks.Cells.{node_sizes};
ghost use Rattle.prefix_trie_table.specs.Digits.{chunks_of};
ghost use Rattle.prefix_trie_table.specs.Forest.{NodesHold, SomeNodes};
ghost use Rattle.prefix_trie_table.specs.Matching.{LackLastBit, LongestHeld, ShortestHeld, cell_slot, match_seat};
ghost use Rattle.prefix_trie_table.specs.SearchPaths.{ReadsAlong};

use crate::allocator::blocks::Cells;
use crate::allocator::node::Node;
use crate::allocator::nodes::{NodeAllocator, VisitCounter};
use crate::table::lookup::{Reached, root, step_to_child};
use crate::table::seat::Seat;
use prefix_trie_bits::node::string_of;
use prefix_trie_bits::prefix::{BitString, Key};
use std::alloc::Allocator;

/// A stored bit string that begins the one looked up: its length, the node that has its value, and the value bit there.
#[derive(Clone, Copy)]
pub struct Match {
    pub len: u32,
    pub node: Node,
    pub bit: u32,
}

impl Match {
    /// Returns where the value is stored.
    #[inline]
    pub fn seat(self) -> Seat
        requires { self.bit < 31 }
        ensures { result ≡ match_seat self }
    {
        self.node.value_seat(self.bit)
    }
}

/// Finds the longest match whose value this node on the search path has.
///
/// `rest` has the bits after those that lead to `here`, or only the first four.
#[inline(always)]
pub fn longest_in<K: Key>(here: Reached, rest: &BitString<K>) -> Option<Match>
    requires shallow { 5 * here.level ≤ 128 }
    requires few { is_set here.node.value_bitmap 31 ≡ false }
    ensures { (q : List Bool) (reading : List ℕ → Option Node)
        → 5 * here.level ≤ length q → take 4 rest.now ≡ take 4 (drop (5 * here.level) q)
        → reading (take here.level (chunks_of q)) ≡ Some here.node
        → LongestHeld reading q (5 * here.level) (5 * here.level + 5) result }
{
    let Some(bit) = rest.longest_match(here.node.value_bitmap) else {
        return None;
    };
    Some(Match {
        len: 5 * here.level + string_of(bit).0,
        node: here.node,
        bit,
    })
}

/// Finds the longest match of a bit string. It reads each node on the search path once.
#[inline(always)]
pub fn longest_on_path<K: Key, A: Allocator, V: VisitCounter>(
    nodes: &NodeAllocator<A, V>,
    path: BitString<K>,
    counter: &mut V,
) -> Option<Match>
    requires sound { (n : SomeNodes nodes.now) × LackLastBit n.reading }
    ensures found { (reading : List ℕ → Option Node) (paths : List (List ℕ))
        → NodesHold node_sizes reading paths nodes.now
        → LongestHeld reading path 0 (length path + 1) result }
    ensures visits { ReadsAlong path nodes.now (V.count counter.old) (V.count counter.new) }
{
    let last = path.len() / 5;
    let mut here = root(nodes, counter);
    let mut rest = path;
    let mut best = None;
    'down: loop {
        if here.level >= last {
            return longest_in(here, &rest).or(best);
        }
        // At least five bits are left. `first(4)` tells the compiler that all four bits of the node count.
        best = longest_in(here, &rest.first(4)).or(best);
        let Some(next) = step_to_child(nodes, here, &rest, counter) else {
            return best;
        };
        here = next;
        rest = rest.after_five();
    }
}

/// Finds the shortest match whose value this node on the search path has.
///
/// `rest` has the bits after those that lead to `here`, or only the first four.
#[inline(always)]
fn shortest_in<K: Key>(here: Reached, rest: &BitString<K>) -> Option<Match>
    requires shallow { 5 * here.level ≤ 128 }
    requires few { is_set here.node.value_bitmap 31 ≡ false }
    ensures found { (q : List Bool) (reading : List ℕ → Option Node)
        → 5 * here.level ≤ length q → take 4 rest.now ≡ take 4 (drop (5 * here.level) q)
        → reading (take here.level (chunks_of q)) ≡ Some here.node
        → ShortestHeld reading q (5 * here.level) (5 * here.level + 5) result }
    ensures own { IfSome result (λ m. (5 * here.level ≤ m.len) × (m.len < 5 * here.level + 5)) }
{
    let Some(bit) = rest.shortest_match(here.node.value_bitmap) else {
        return None;
    };
    Some(Match {
        len: 5 * here.level + string_of(bit).0,
        node: here.node,
        bit,
    })
}

/// Finds the shortest match of a bit string. It reads the nodes of the search path once each, down to the one that has the match.
#[inline(always)]
pub fn shortest_on_path<K: Key, A: Allocator, V: VisitCounter>(
    nodes: &NodeAllocator<A, V>,
    path: BitString<K>,
    counter: &mut V,
) -> Option<Match>
    requires sound { (n : SomeNodes nodes.now) × LackLastBit n.reading }
    ensures found { (reading : List ℕ → Option Node) (paths : List (List ℕ))
        → NodesHold node_sizes reading paths nodes.now
        → ShortestHeld reading path 0 (length path + 1) result }
    ensures visits { MatchOption result
        (ReadsAlong path nodes.now (V.count counter.old) (V.count counter.new))
        (λ m. V.count counter.new ≡ V.count counter.old + (m.len / 5 + 1)) }
{
    let last = path.len() / 5;
    let mut here = root(nodes, counter);
    let mut rest = path;
    'down: loop {
        if here.level >= last {
            return shortest_in(here, &rest);
        }
        // As in `longest_on_path`, all four bits of the node count.
        if let Some(found) = shortest_in(here, &rest.first(4)) {
            return Some(found);
        }
        let Some(next) = step_to_child(nodes, here, &rest, counter) else {
            return None;
        };
        here = next;
        rest = rest.after_five();
    }
}

/// Returns the length of a match and its value.
#[inline(always)]
pub fn value_of_match<'a, T: Drop, A: Allocator>(
    cells: &'a Cells<T, A>,
    found: Match,
) -> Option<(u32, &'a T)>
    requires bit { found.bit < 31 }
    requires is_there { cell_slot found < length cells.now.slots }
    ensures { MatchOption result
        (slice_index_or cells.now.slots (cell_slot found) None ≡ None)
        (λ r. (r.0 ≡ found.len)
        × (slice_index_or cells.now.slots (cell_slot found) None ≡ Some r.1.now)) }
{
    let seat = found.seat();
    let Some(value) = cells.at(seat.slot).as_ref() else {
        return None;
    };
    Some((found.len, value))
}
