//! Moving the entries whose keys begin with a bit string to a table of their own.
ghost use Rattle.std.specs.Prelude.{◌≡◌, false};
ghost use Rattle.std.specs.FinMap.{len as size};
ghost use Rattle.prefix_trie_bits.specs.Calls.Entries.{part_below};
ghost use Rattle.prefix_trie_bits.specs.Model.Entries.{without_below};
ghost use Rattle.prefix_trie_bits.specs.Model.Nodes.{nodes_without_below};
ghost use Rattle.prefix_trie_bits.specs.Model.Step.{State};
ghost use Rattle.prefix_trie_table.specs.Splitting.Moving.{AwaitsNext, HasCome, split_off};
ghost use Rattle.prefix_trie_table.specs.Retaining.{PreservesBelow};
ghost use Rattle.prefix_trie_table.specs.Splitting.Skeleton.{IsSecond};
ghost use Rattle.prefix_trie_table.specs.Tables.{IsTrie};

use crate::allocator::blocks::Cells;
use crate::allocator::nodes::{NodeAllocator, VisitCounter};
use crate::table::part_removal::remove_part;
use crate::table::retain::Keep;
use crate::table::spot::Spot;
use crate::table::walk::advance;
use crate::table::walk_start::{Start, start_at};
use arrayvec::ArrayVec;
use prefix_trie_bits::prefix::{BitString, Key};
use std::alloc::Allocator;

/// A table whose nodes and blocks are built, and whose values are given to it one after another, in listing order.
///
/// The spots of its walk are before the seat of the next value. As a test it returns `false` for each entry, so it is
/// given every value.
#[derive(Drop)]
struct Seats<K: Key, T: Drop, A: Allocator, V: VisitCounter> {
    nodes: NodeAllocator<A, V>,
    cells: Cells<T, A>,
    // The path of each spot begins this key.
    key: K,
    stack: ArrayVec<Spot, 26>,
}

impl<K: Key, T: Drop, A: Allocator, V: VisitCounter> Keep<K, T, V> for Seats<K, T, A, V> {
    ghost accepts = { λ f q x. AwaitsNext K.IsKey K.bits K.bit_width f.nodes f.cells f.key
        f.stack.items q x };

    ghost may_return = { λ f q x answer g. (answer ≡ false)
        × HasCome K.IsKey K.bits K.bit_width f.nodes g.nodes f.cells g.cells
        f.key f.stack.items g.key g.stack.items q x };

    ghost refuses = { λ f q x g. (g ≡ f)
        × AwaitsNext K.IsKey K.bits K.bit_width f.nodes f.cells f.key f.stack.items q x };

    fn keeps(&mut self, _path: &BitString<K>, _value: &T) -> bool {
        false
    }

    fn taken(&mut self, _path: &BitString<K>, value: T, counter: &mut V) {
        let Some((_, _, seat)) = advance::<K, A, V, T>(
            &self.nodes,
            &mut self.stack,
            &mut self.key,
            counter,
        ) else {
            unreachable!();
        };
        self.cells.put(seat.slot, Some(value));
    }
}

/// Removes all entries whose keys begin with a bit string, and moves their values to a second table that is built for them.
///
/// Returns the arrays of the second table. Only the blocks of the first table may need memory.
pub(super) fn move_part<K: Key, T: Drop, A: Allocator, V: VisitCounter>(
    nodes: &mut NodeAllocator<A, V>,
    cells: &mut Cells<T, A>,
    entries: &mut usize,
    built: NodeAllocator<A, V>,
    vacant: Cells<T, A>,
    path: BitString<K>,
    counter: &mut V,
) -> (NodeAllocator<A, V>, Cells<T, A>)
    requires trie { (s : State T) × IsTrie K.bit_width entries.old nodes.old cells.old s }
    requires second { IsSecond path nodes.old built vacant }
    ensures removed { (s : State T) → IsTrie K.bit_width entries.old nodes.old cells.old s
        → IsTrie K.bit_width entries.new nodes.new cells.new (record {
          entries = without_below s.entries path;
          nodes = nodes_without_below s.nodes s.entries path;
        }) }
    ensures preserves { PreservesBelow 0 nodes.old nodes.new cells.old cells.new }
    ensures moved { (s : State T) → IsTrie K.bit_width entries.old nodes.old cells.old s
        → IsTrie K.bit_width (size (part_below s.entries path)) result.0 result.1
        (split_off s path) }
    ensures nodes { result.0 ≡ built }
    ensures cells { result.1 ≡ record vacant { slots = result.1.slots } }
{
    let key = path.key();
    let from = path.copy();
    let stack = start_at::<K, T, A, V>(&built, key, from, Start::Below, counter);
    let mut seats = Seats {
        nodes: built,
        cells: vacant,
        key,
        stack,
    };
    remove_part(nodes, cells, entries, &mut seats, path, counter);
    (seats.nodes, seats.cells)
}
