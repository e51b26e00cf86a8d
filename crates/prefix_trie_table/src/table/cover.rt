//! The walk over all matches of a bit string, the shortest first.
ghost use Rattle.std.specs.Prelude.{◌≡◌, ℕ, ◌+◌, ◌*◌, ◌^◌, ◌<◌, ◌≤◌, Bool, List, Option, Some, [], ◌∷◌, drop, MatchOption};
ghost use Rattle.prefix_trie_bits.specs.Model.Matches.{covers};
ghost use Rattle.prefix_trie_table.specs.Forest.{SomeNodes};
ghost use Rattle.prefix_trie_table.specs.Matching.{LackLastBit};
ghost use Rattle.prefix_trie_table.specs.Shape.{Shaped, Shaped-prop};
ghost use Rattle.prefix_trie_table.specs.Walking.Covers.{AreLeft, IsCovering, GoesOn, TakesShortest};

use crate::allocator::blocks::Cells;
use crate::allocator::nodes::{NodeAllocator, VisitCounter};
use crate::table::Table;
use crate::table::lookup::{Reached, root, step_down};
use crate::table::matching::{Match, value_of_match};
use prefix_trie_bits::node::{string_of, without_bit};
use prefix_trie_bits::prefix::{BitString, Key};
use std::alloc::Allocator;
use std::marker::Model;

/// The matches of a bit string that are still to come, the shortest first.
///
/// It keeps a node of the search path, and one bit for each match of this node that is still to come.
#[derive(Drop)]
pub struct Cover<'a, K: Key, T: Drop, A: Allocator, V: VisitCounter> {
    nodes: &'a NodeAllocator<A, V>,
    cells: &'a Cells<T, A>,
    path: BitString<K>,
    here: Reached,
    matches: u32,
    ghost shape: { Shaped nodes.now.slots cells.now.slots } by { Shaped-prop T.code nodes.now.slots cells.now.slots },
}

// Contracts see the entries still to come.
impl<'a, K: Key, T: Drop, A: Allocator, V: VisitCounter> Model for Cover<'a, K, T, A, V> {
    ghost use Rattle.std.specs.Prelude.{List, Bool};
    ghost use Rattle.prefix_trie_table.specs.Walking.Covers.{still_covering, IsCover};

    ghost Value = { List (List Bool × T) };

    ghost view = { λ c. still_covering c.shape.0.entries c.path c.here.level c.matches };

    ghost invariant = { λ c. IsCover c.path c.here c.matches c.nodes.now c.cells.now };
}

impl<'a, K: Key, T: Drop, A: Allocator, V: VisitCounter> Cover<'a, K, T, A, V> {
    /// Returns the next match and its value. It reads each further node once, when the walk comes to it.
    #[inline]
    pub fn next(&mut self, counter: &mut V) -> Option<(BitString<K>, &'a T)>
        ensures { MatchOption result
            ((self.old ≡ []) × (self.new ≡ []))
            (λ r. self.old ≡ (r.0, r.1.now) ∷ self.new) }
    {
        let Some(found) = next_match(
            self.nodes,
            &mut self.here,
            &mut self.matches,
            &self.path,
            counter,
        ) else {
            return None;
        };
        // What matches has a value.
        let Some((len, value)) = value_of_match(self.cells, found) else {
            return None;
        };
        Some((self.path.first(len), value))
    }
}

impl<T: Drop, A: Allocator, V: VisitCounter> Table<T, A, V> {
    /// Returns all matches of a bit string with their values, the shortest first. It reads the root at once.
    ///
    /// ```text
    /// 10 and 1011 are stored with 1 and 2
    /// table.cover(path, &mut counter)     of 101100 gives 10 with 1, and 1011 with 2
    /// ```
    #[inline]
    pub fn cover<K: Key>(&self, path: BitString<K>, counter: &mut V) -> Cover<'_, K, T, A, V>
        ensures { result ≡ covers self.now.entries path }
    {
        let here = root(&self.nodes, counter);
        let matches = matches_in(here, &path);
        Cover {
            nodes: &self.nodes,
            cells: &self.cells,
            path,
            here,
            matches,
        }
    }
}

/// Returns the value bits of the matches in a node of the search path.
///
/// `rest` has the bits after those that lead to `here`.
#[inline]
fn matches_in<K: Key>(here: Reached, rest: &BitString<K>) -> u32
    ensures { (q : List Bool) → rest.now ≡ drop (5 * here.level) q
        → AreLeft result here.node.value_bitmap (5 * here.level) (5 * here.level) q }
{
    here.node.value_bitmap & rest.match_mask()
}

/// Removes the shortest of a node's matches, which has the lowest bit, and returns it.
#[inline]
fn take_match(here: Reached, matches: &mut u32) -> Option<Match>
    requires small { matches.old < 2 ^ 31 }
    requires deep { 5 * here.level ≤ 128 }
    ensures { TakesShortest here.level here.node matches.old matches.new result }
{
    if *matches == 0 {
        return None;
    }
    let bit = matches.trailing_zeros();
    *matches = without_bit(*matches, bit);
    Some(Match {
        len: 5 * here.level + string_of(bit).0,
        node: here.node,
        bit,
    })
}

/// Finds the next match of a bit string, and reads the nodes down to the one that has it.
fn next_match<K: Key, A: Allocator, V: VisitCounter>(
    nodes: &NodeAllocator<A, V>,
    here: &mut Reached,
    matches: &mut u32,
    path: &BitString<K>,
    counter: &mut V,
) -> Option<Match>
    requires sound { (n : SomeNodes nodes.now) × LackLastBit n.reading }
    requires is_there { (first : ℕ) × IsCovering path.now here.old matches.old first nodes.now }
    ensures { (first : ℕ) → IsCovering path.now here.old matches.old first nodes.now
        → GoesOn path.now here.new matches.new first result nodes.now }
{
    let last = path.len() / 5;
    let mut rest = path.after(5 * here.level);
    'down: loop {
        if let Some(found) = take_match(*here, matches) {
            return Some(found);
        }
        let Some(next) = step_down(nodes, *here, &rest, last, counter) else {
            return None;
        };
        rest = rest.after_five();
        *matches = matches_in(next, &rest);
        *here = next;
    }
}
