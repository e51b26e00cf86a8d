//! Removing all entries whose keys begin with a bit string.
ghost use Rattle.std.specs.Prelude.{◌≡◌, false, Some, ⊤};
ghost use Rattle.prefix_trie_bits.specs.Model.Entries.{without_below};
ghost use Rattle.prefix_trie_bits.specs.Model.Nodes.{nodes_not_below, nodes_without_below};
ghost use Rattle.prefix_trie_bits.specs.Model.Selections.{listing_below};
ghost use Rattle.prefix_trie_bits.specs.Model.Step.{State};
ghost use Rattle.prefix_trie_table.specs.Digits.{chunks_of};
ghost use Rattle.prefix_trie_table.specs.Forest.{read};
ghost use Rattle.prefix_trie_table.specs.SearchPaths.{IsOwn};
ghost use Rattle.prefix_trie_table.specs.Tables.{IsTrie};
ghost use Rattle.prefix_trie_table.specs.Retaining.{AsksUpTo, ReturnsFalse, MayAskBelow, TakesBelow, PreservesBelow};

use crate::allocator::blocks::Cells;
use crate::allocator::node::Node;
use crate::allocator::nodes::{NodeAllocator, VisitCounter};
use crate::table::lookup::Reached;
use crate::table::removal::{descend_keeping_ancestors, prune_up};
use crate::table::retain::{Keep, Site, retain_places};
use arrayvec::ArrayVec;
use prefix_trie_bits::node::Places;
use prefix_trie_bits::prefix::{BitString, Key};
use std::alloc::Allocator;

/// A test that no entry passes. The values are dropped.
#[derive(Drop)]
pub struct KeepNothing;

impl<K: Key, T: Drop, V: VisitCounter> Keep<K, T, V> for KeepNothing {
    ghost accepts = { λ _ _ _. ⊤ };

    ghost may_return = { λ _ _ _ answer _. answer ≡ false };

    ghost refuses = { λ _ _ _ _. ⊤ };

    fn keeps(&mut self, _path: &BitString<K>, _value: &T) -> bool {
        false
    }

    fn taken(&mut self, _path: &BitString<K>, _value: T, _counter: &mut V) {}
}

/// Removes what begins with a bit string, at its own node and below it, and returns the node as it is then.
///
/// The test returns `false` for each entry, and is given the values.
fn empty_part<K: Key, T: Drop, A: Allocator, V: VisitCounter, F: Keep<K, T, V>>(
    nodes: &mut NodeAllocator<A, V>,
    cells: &mut Cells<T, A>,
    entries: &mut usize,
    keep: &mut F,
    path: &BitString<K>,
    here: Reached,
    counter: &mut V,
) -> Node
    requires trie { (s : State T) × IsTrie K.bit_width entries.old nodes.old cells.old s }
    requires own { IsOwn path.now here nodes.old }
    requires none { ReturnsFalse F.may_return }
    requires may_ask { MayAskBelow F.may_return F.accepts K.bit_width path.now keep.old entries.old
        nodes.old cells.old }
    ensures emptied { (s : State T) → IsTrie K.bit_width entries.old nodes.old cells.old s
        → TakesBelow F.may_return F.accepts K.bit_width path.now keep.old s keep.new
        (nodes_not_below s.nodes path.now) entries.new nodes.new cells.new }
    ensures node { read nodes.new.slots (chunks_of path.now) ≡ Some result }
    ensures preserves { PreservesBelow here.level nodes.old nodes.new cells.old cells.new }
{
    let depth = 5 * here.level;
    let rest = path.after(depth);
    let places = Places::new(
        here.node.value_bitmap & rest.value_cover_mask(),
        here.node.child_bitmap & rest.child_cover_mask(),
    );
    let site = Site {
        slot: here.at,
        key: path.key(),
        depth,
    };
    retain_places(
        nodes, cells, entries, keep, site, here.node, places, counter,
    )
}

/// Removes all entries whose keys begin with a bit string, and all nodes below the string's own.
///
/// Then the nodes of its search path that have no value and no child are removed, from its own node upward. If that
/// node is missing, nothing changes. The test returns `false` for each entry, and is given the values.
pub fn remove_part<K: Key, T: Drop, A: Allocator, V: VisitCounter, F: Keep<K, T, V>>(
    nodes: &mut NodeAllocator<A, V>,
    cells: &mut Cells<T, A>,
    entries: &mut usize,
    keep: &mut F,
    path: BitString<K>,
    counter: &mut V,
)
    requires trie { (s : State T) × IsTrie K.bit_width entries.old nodes.old cells.old s }
    requires none { ReturnsFalse F.may_return }
    requires may_ask { MayAskBelow F.may_return F.accepts K.bit_width path keep.old entries.old
        nodes.old cells.old }
    ensures removed { (s : State T) → IsTrie K.bit_width entries.old nodes.old cells.old s
        → IsTrie K.bit_width entries.new nodes.new cells.new (record {
          entries = without_below s.entries path;
          nodes = nodes_without_below s.nodes s.entries path;
        }) }
    ensures up_to { (s : State T) → IsTrie K.bit_width entries.old nodes.old cells.old s
        → AsksUpTo F.may_return keep.old (listing_below s.entries path) keep.new }
    ensures preserves { PreservesBelow 0 nodes.old nodes.new cells.old cells.new }
{
    let mut above = ArrayVec::new();
    let Some((here, _)) = descend_keeping_ancestors(nodes, &path, &mut above, counter) else {
        return;
    };
    let left = empty_part(nodes, cells, entries, keep, &path, here, counter);
    prune_up(nodes, &above, path, left, counter);
}
