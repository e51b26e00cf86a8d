//! Many lookups at once, whose searches go down side by side so that the processor fetches their nodes together.
//!
//! Each round first reads the next node of every search, one after another and without a test of what it has. Only then
//! does it look at the nodes.
ghost use Rattle.std.specs.Prelude.{◌≡◌, ℕ, ◌+◌, ◌*◌, ◌<◌, ◌≤◌, [], List, All, IfSome, MatchOption, None, Some, length, map, take, sum, sum_by, slice_index_or};
ghost use Rattle.prefix_trie_bits.specs.Model.Matches.{longest_match};
ghost use Rattle.prefix_trie_bits.specs.Model.Visits.{visits};
ghost use Rattle.prefix_trie_table.specs.declared.allocator.node.Node.{Node};
ghost use Rattle.prefix_trie_table.specs.declared.table.bulk.Found.{Found};
ghost use Rattle.prefix_trie_table.specs.declared.table.bulk.Descent.{Descent};
ghost use Rattle.prefix_trie_table.specs.Bulk.{HaveMatches, AreMatchesFound, AreCosts, AreRead, EachOf, GoOn, HasFound, IsAhead, IsMatchFound, IsNew, IsSound, found_of, new_descent, reached_by, slot_of};
ghost use Rattle.prefix_trie_table.specs.Blocks.Cells.{node_at};
ghost use Rattle.prefix_trie_table.specs.SearchPaths.{IsAlong, IsLast};
ghost use Rattle.prefix_trie_table.specs.Blocks.Store.{Store};

use crate::allocator::blocks::Cells;
use crate::allocator::node::{Node, NodeSlot, ROOT};
use crate::allocator::nodes::{NodeAllocator, VisitCounter};
use crate::table::Table;
use crate::table::lookup::{Reached, next_slot};
use crate::table::matching::{Match, longest_in};
use crate::table::seat::Seat;
use prefix_trie_bits::prefix::{BitString, Key, Prefix};
use std::alloc::Allocator;

/// The number of searches that go down side by side.
pub const GROUP: usize = 32;

/// The number of node slots up to which separate lookups take less time than groups, since the nearer caches hold them.
pub const FEW_NODES: usize = 65_536;

/// A match: the length of its string, and the seat of its value. It is right until the table changes.
#[derive(Clone, Copy)]
pub struct Found {
    len: u32,
    seat: Seat,
}

/// A search: which question it is for, the slot of its next node, and the longest match above that node.
#[derive(Clone, Copy)]
struct Descent {
    question: usize,
    at: NodeSlot,
    best: Option<Found>,
}

impl Descent {
    /// Returns the search for a question, at the root.
    #[inline]
    fn new(question: usize) -> Descent
        ensures { result ≡ new_descent question }
    {
        Descent {
            question,
            at: ROOT,
            best: None,
        }
    }
}

/// Returns the match in a node if there is one, otherwise the match above it.
#[inline(always)]
fn longer(here: Option<Match>, above: Option<Found>) -> Option<Found>
    requires few { IfSome here (λ m. m.bit < 31) }
    ensures { MatchOption here (result ≡ above) (λ m. result ≡ Some (found_of m)) }
{
    let Some(found) = here else {
        return above;
    };
    Some(Found {
        len: found.len,
        seat: found.seat(),
    })
}

/// Looks at the node that a search has reached.
///
/// Returns the longest match so far, and the slot of the next node if there is one.
#[inline(always)]
fn look<K: Key>(
    path: &BitString<K>,
    descent: Descent,
    level: u32,
    node: Node,
) -> (Option<Found>, Option<NodeSlot>)
    requires along { (v : Store Node) × IsSound v
        × IsAlong path.now (reached_by descent node level) v }
    ensures next { (v : Store Node) → IsAlong path.now (reached_by descent node level) v
        → MatchOption result.1
        (IsLast path.now (reached_by descent node level) v)
        (λ at. IsAlong path.now
        (record { at = at; node = node_at v.slots at; level = level + 1 }) v) }
    ensures found { (v : Store Node) → IsAlong path.now (reached_by descent node level) v
        → HasFound v path.now (5 * level) descent.best
        → HasFound v path.now (5 * level + 5) result.0 }
{
    let last = path.len() / 5;
    let rest = path.after(5 * level);
    let here = Reached {
        at: descent.at,
        node,
        level,
    };
    let found = longer(longest_in(here, &rest), descent.best);
    (found, next_slot(here, &rest, last))
}

/// Reads the next nodes of the first `count` searches.
fn read_each<A: Allocator, V: VisitCounter>(
    nodes: &NodeAllocator<A, V>,
    descents: &[Descent],
    count: usize,
    read: &mut [Node],
    counter: &mut V,
)
    requires count { (count ≤ length descents.now) × (count ≤ length read.old) }
    requires inside { All (λ w. slot_of w < length nodes.now.slots) (take count descents.now) }
    ensures read { EachOf (IsAhead nodes.now.slots descents.now) count read.new }
    ensures visits { V.count counter.new ≡ V.count counter.old + count }
    ensures length { length read.new ≡ length read.old }
{
    for j in 0..count {
        read[j] = nodes.visit(descents[j].at, counter);
    }
}

/// Looks at the nodes that were read for the first `count` searches, and returns how many go on.
///
/// Searches that go on are moved to the front. The results of the others are stored.
fn look_at_each<P: Prefix>(
    prefixes: &[P],
    descents: &mut [Descent],
    count: usize,
    level: u32,
    read: &[Node],
    found: &mut [Option<Found>],
) -> usize
    requires fit { All P.IsFitting prefixes.now }
    requires same_length { length found.old ≡ length prefixes.now }
    requires count { (count ≤ length descents.old) × (count ≤ length read.now) }
    requires read { (v : Store Node) × IsSound v
        × AreRead v (map P.path prefixes.now) level (take count descents.old) read.now }
    ensures few { result ≤ count }
    ensures go_on { (v : Store Node)
        → AreRead v (map P.path prefixes.now) level (take count descents.old) read.now
        → GoOn v (map P.path prefixes.now) level (take count descents.old)
        (take result descents.new) found.old found.new }
    ensures lengths { (length descents.new ≡ length descents.old)
        × (length found.new ≡ length found.old) }
{
    let mut kept = 0;
    for j in 0..count {
        let descent = descents[j];
        let path = prefixes[descent.question].path();
        let (best, next) = look(&path, descent, level, read[j]);
        match next {
            Some(at) => {
                descents[kept] = Descent {
                    question: descent.question,
                    at,
                    best,
                };
                kept += 1;
            }
            None => {
                found[descent.question] = best;
            }
        }
    }
    kept
}

/// Starts the searches for the first `count` questions at the root.
fn begin(descents: &mut [Descent], count: usize)
    requires count { count ≤ length descents.old }
    ensures new { EachOf IsNew count descents.new }
    ensures length { length descents.new ≡ length descents.old }
{
    for j in 0..count {
        descents[j] = Descent::new(j);
    }
}

/// Searches for all prefixes side by side, and stores the match of each.
fn match_each<P: Prefix, A: Allocator, V: VisitCounter>(
    nodes: &NodeAllocator<A, V>,
    prefixes: &[P],
    found: &mut [Option<Found>],
    counter: &mut V,
)
    requires sound { IsSound nodes.now }
    requires fit { All P.IsFitting prefixes.now }
    requires same_length { length found.old ≡ length prefixes.now }
    requires few { length prefixes.now ≤ 32 }
    ensures matched { HaveMatches nodes.now (map P.path prefixes.now) [] found.new }
    ensures counted { (costs : List ℕ) → length costs ≡ length prefixes.now
        → AreCosts nodes.now (map P.path prefixes.now) costs
        → V.count counter.new ≡ V.count counter.old + sum costs }
    ensures length { length found.new ≡ length found.old }
{
    let mut descents = [Descent::new(0); GROUP];
    let mut read = [Node::blank(); GROUP];
    let mut left = prefixes.len();
    begin(&mut descents, left);
    let mut level = 0;
    'round: while left > 0 {
        read_each(nodes, &descents, left, &mut read, counter);
        left = look_at_each(prefixes, &mut descents, left, level, &read, found);
        level += 1;
    }
}

/// Returns the length of a match and its value.
#[inline(always)]
fn value_at<'a, T: Drop, A: Allocator>(cells: &'a Cells<T, A>, found: Found) -> Option<(u32, &'a T)>
    requires is_there { found.seat.slot < length cells.now.slots }
    ensures { MatchOption result
        (slice_index_or cells.now.slots found.seat.slot None ≡ None)
        (λ r. (r.0 ≡ found.len)
        × (slice_index_or cells.now.slots found.seat.slot None ≡ Some r.1.now)) }
{
    let Some(value) = cells.at(found.seat.slot).as_ref() else {
        return None;
    };
    Some((found.len, value))
}

impl<T: Drop, A: Allocator, V: VisitCounter> Table<T, A, V> {
    /// Stores in `found` what `find_longest` finds for each prefix, in order. `value_found` reads the values.
    ///
    /// For each prefix it reads each node on the search path once.
    #[inline]
    pub fn find_longest_each<P: Prefix>(
        &self,
        prefixes: &[P],
        found: &mut [Option<Found>],
        counter: &mut V,
    )
        requires fit { All P.IsFitting prefixes.now }
        requires same_length { length found.old ≡ length prefixes.now }
        requires few { length prefixes.now ≤ 32 }
        ensures results { AreMatchesFound self.now.build (map P.path prefixes.now) found.new }
        ensures visits { V.count counter.new
            ≡ V.count counter.old + sum_by (λ p. visits self.now.nodes (P.path p)) prefixes.now }
        ensures length { length found.new ≡ length found.old }
    {
        match_each(&self.nodes, prefixes, found, counter);
    }

    /// Returns the length and the value of a match of `find_longest_each`, as `find_longest` returns them.
    #[inline]
    pub fn value_found<K: Key>(&self, path: BitString<K>, found: Option<Found>) -> Option<(u32, &T)>
        requires { IsMatchFound self.now.build path found }
        ensures { MatchOption result
            (longest_match self.now.entries path ≡ None)
            (λ f. (f.0 ≤ length path)
            × (longest_match self.now.entries path ≡ Some (take f.0 path, f.1.now))) }
    {
        let cells = &self.cells;
        let Some(found) = found else {
            return None;
        };
        value_at(cells, found)
    }
}
