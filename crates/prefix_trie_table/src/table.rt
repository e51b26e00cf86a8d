//! The table: values by bit strings, in a trie of nodes of five levels.
//!
//! A bit string is passed as a `BitString`.
//!
//! Contracts see a table as its entries, its nodes, its space and its layout. The entries are a finite map from bit
//! strings to values, and the nodes a finite set of bit strings. The layout is the size of each node's two blocks, by
//! the node's bit string, and how many blocks of each size are free. Only clauses that take or return a seat are about
//! slots and bitmaps (`build`).
mod block_counts;
pub mod bulk;
pub mod combined;
pub mod combined_spot;
mod copying;
mod counting;
mod cover;
pub mod cursor;
mod insertion;
mod lending;
mod located;
mod lookup;
mod matching;
mod memory;
mod part_moving;
mod part_removal;
mod removal;
pub mod retain;
pub mod seat;
mod splitting;
pub mod spot;
mod taking;
pub mod walk;
pub mod walk_start;

ghost use Rattle.std.specs.Prelude.{◌≡◌, ◌+◌, ◌^◌, ◌<◌, ◌≤◌, ℕ, cond, take, length, IfOk, IfErr, IsErr, ◌↔◌, MatchOption, None, Some};
ghost use Rattle.std.specs.Option.{option_copied};
ghost use Rattle.std.specs.FinMap.{get, len};
ghost use Rattle.prefix_trie_bits.specs.Calls.Retaining.{CallableOnEachEntry, RetainsEntriesTo, RetainsInStorage};
ghost use Rattle.prefix_trie_bits.specs.Model.Entries.{no_entries};
ghost use Rattle.prefix_trie_bits.specs.Calls.Entries.{AreWithin};
ghost use Rattle.prefix_trie_bits.specs.Calls.SplitsOff.{SplitsOffInStorage};
ghost use Rattle.prefix_trie_bits.specs.Model.Matches.{longest_match, shortest_match};
ghost use Rattle.prefix_trie_bits.specs.Model.Nodes.{root_alone};
ghost use Rattle.prefix_trie_bits.specs.Calls.Nodes.{AreNodes};
ghost use Rattle.prefix_trie_bits.specs.Model.Selections.{listing, listing_from, listing_after, listing_below};
ghost use Rattle.prefix_trie_bits.specs.Model.Visits.{visits, visits_to_match};
ghost use Rattle.prefix_trie_bits.specs.Model.Blocks.{no_layout};
ghost use Rattle.prefix_trie_bits.specs.Model.Step.{Insert, Remove, RemoveKeepTree, RemoveChildren, Clear, Done, Value};
ghost use Rattle.prefix_trie_bits.specs.Calls.Storage.{HaveBlocks, StepByPath};
ghost use Rattle.prefix_trie_bits.specs.declared.prefix.Refusal.TheVariants.{IndexRange, Memory};
ghost use Rattle.prefix_trie_table.specs.Layouts.{Sized, Sized-prop};
ghost use Rattle.prefix_trie_table.specs.Shape.{Shaped, Shaped-prop};
ghost use Rattle.prefix_trie_table.specs.Model.Contents.{state, storage, stored_state};
ghost use Rattle.prefix_trie_table.specs.Steps.{insert_reply, BoundsStorageGrowth};

use crate::allocator::blocks::{Cells, cells};
use crate::allocator::nodes::{NodeAllocator, VisitCounter};
use crate::table::matching::{longest_on_path, shortest_on_path, value_of_match};
use crate::table::part_moving::move_part;
use crate::table::part_removal::{KeepNothing, remove_part};
use crate::table::removal::{clear_entries, remove_entry, remove_value};
use crate::table::retain::{Keep, retain_entries};
use crate::table::seat::Location;
use crate::table::splitting::build_part;
use crate::table::walk::walk_of;
use crate::table::walk_start::{Start, walk_at};
pub use cover::Cover;
use prefix_trie_bits::prefix::{BitString, Key, Refusal, Refused};
use std::alloc::Allocator;
use std::marker::Model;
use std::mem;
pub use taking::IntoWalk;
pub use walk::Walk;

/// A finite map from bit strings to values.
#[derive(Drop)]
pub struct Table<T: Drop, A: Allocator, V: VisitCounter> {
    nodes: NodeAllocator<A, V>,
    cells: Cells<T, A>,
    count: usize,
    ghost shape: { Shaped nodes.slots cells.slots } by { Shaped-prop T.code nodes.slots cells.slots },
    ghost sizes: { Sized nodes.slots } by { Sized-prop nodes.slots },
}

// Clauses see the entries, the nodes, the space, the layout, and for seats the nodes in their slots.
impl<T: Drop, A: Allocator, V: VisitCounter> Model for Table<T, A, V> {
    ghost use Rattle.prefix_trie_table.specs.Model.Contents.{Contents};
    ghost use Rattle.prefix_trie_table.specs.Shape.{contents_code};

    ghost Value = { Contents T };

    ghost coded = { contents_code T.code };

    ghost use Rattle.std.specs.Prelude.{length};
    ghost use Rattle.prefix_trie_table.specs.Blocks.Store.{free_counts};
    ghost use Rattle.prefix_trie_table.specs.Tables.{IsTable};

    ghost view = { λ t. record {
      entries = t.shape.0.entries;
      nodes = t.shape.0.nodes;
      space = record {
        limit = t.nodes.limit;
        node_slots = length t.nodes.slots;
        cell_slots = length t.cells.slots;
      };
      layout = record {
        child_blocks = t.sizes.0;
        value_blocks = t.sizes.1.0;
        free_child_blocks = free_counts t.nodes.tiers;
        free_value_blocks = free_counts t.cells.tiers;
      };
      build = t.nodes.slots;
    } };

    ghost invariant = { λ t. IsTable t.nodes t.cells t.count t.shape.0 };
}

impl<T: Drop, A: Allocator + Clone, V: VisitCounter> Table<T, A, V> {
    /// Creates an empty table whose arrays are never longer than `limit` slots.
    ///
    /// # Errors
    ///
    /// Returns `IndexRange` if `limit` is 0, since the root needs a slot. Otherwise returns `Memory` if an allocation
    /// fails.
    pub fn new(alloc: A, limit: u32) -> Result<Self, Refusal>
        ensures entries { IfOk result (λ t. t.entries ≡ no_entries) }
        ensures nodes { IfOk result (λ t. t.nodes ≡ root_alone) }
        ensures space { IfOk result
            (λ t. t.space ≡ record { limit = limit; node_slots = 1; cell_slots = 0 }) }
        ensures layout { IfOk result (λ t. t.layout ≡ no_layout) }
        ensures range { IfErr result (λ cause. (cause ≡ IndexRange) ↔ (limit ≡ 0)) }
        ensures none { limit ≡ 0 → IsErr result }
    {
        let nodes = NodeAllocator::new(&alloc, limit)?;
        let Ok(cells) = cells(&alloc, limit) else {
            return Err(Refusal::Memory);
        };
        Ok(Table {
            nodes,
            cells,
            count: 0,
        })
    }

    /// Removes all entries whose keys begin with a bit string, and returns them as a table of their own.
    ///
    /// The second table has just the nodes that its entries need, in the smallest blocks that hold them. It has a clone
    /// of this table's allocator, and the same limit. This table is left as `drop_children` leaves it.
    ///
    /// # Errors
    ///
    /// Returns `Memory` if an allocation fails. All memory is allocated before the first value moves, so this table is
    /// unchanged then. `IndexRange` never comes: the second table has no more slots than the first.
    ///
    /// # Examples
    ///
    /// ```text
    /// let part = table.remove_children(path, &mut counter)?;    // `table` has the other entries
    /// ```
    pub fn remove_children<K: Key>(
        &mut self,
        path: BitString<K>,
        counter: &mut V,
    ) -> Result<Self, Refusal>
        requires within { AreWithin K.bit_width self.old.entries }
        requires nodes { AreNodes K.bit_width self.old.entries self.old.nodes }
        ensures split_off { IfOk result (λ second. SplitsOffInStorage (stored_state self.old) path
            (stored_state second) (stored_state self.new)) }
        ensures bounds_growth { 0 < length path
            → IfOk result (λ _. BoundsStorageGrowth (storage self.old) (storage self.new)) }
        ensures kept { IfErr result (λ _. stored_state self.new ≡ stored_state self.old) }
        ensures memory { IfErr result (λ cause. cause ≡ Memory) }
    {
        let (built, vacant) = build_part(&self.nodes, &self.cells, &path, counter)?;
        let len = path.len();
        let before = self.count;
        let (nodes, cells) = move_part(
            &mut self.nodes,
            &mut self.cells,
            &mut self.count,
            built,
            vacant,
            path,
            counter,
        );
        let second = Table {
            nodes,
            cells,
            count: before - self.count,
        };
        if len == 0 {
            self.clear();
        }
        Ok(second)
    }
}

impl<T: Drop, A: Allocator, V: VisitCounter> Table<T, A, V> {
    /// Returns the number of entries.
    ///
    /// Its contract also brings three facts into a caller's proof: neither array exceeds the limit, which is below 2^32,
    /// there are no more entries than slots for values, and each node has its blocks.
    #[inline]
    pub fn len(&self) -> usize
        ensures count { result ≡ len self.now.entries }
        ensures few { len self.now.entries ≤ self.now.space.cell_slots }
        ensures limit { (self.now.space.limit < 2 ^ 32)
            × (self.now.space.node_slots ≤ self.now.space.limit)
            × (self.now.space.cell_slots ≤ self.now.space.limit) }
        ensures blocks { HaveBlocks (state self.now) self.now.layout }
    {
        // Read for the proof alone: the limit is below 2^32.
        let _slots = self.nodes.len();
        self.count
    }

    /// Returns the value at a bit string. It reads each node on the search path once.
    #[inline]
    pub fn find<K: Key>(&self, path: BitString<K>, counter: &mut V) -> Option<&T>
        ensures value { option_copied result ≡ get self.now.entries path }
        ensures visits { V.count counter.new ≡ V.count counter.old + visits self.now.nodes path }
    {
        match self.locate(path.copy(), counter) {
            Location::Stored(seat) => Some(self.at(path, seat)),
            Location::Missing(_) => None,
        }
    }

    /// Returns the length of the longest match of a bit string, and its value. It reads each node on the search path once.
    #[inline]
    pub fn find_longest<K: Key>(&self, path: BitString<K>, counter: &mut V) -> Option<(u32, &T)>
        ensures value { MatchOption result
            (longest_match self.now.entries path ≡ None)
            (λ found. (found.0 ≤ length path)
            × (longest_match self.now.entries path ≡ Some (take found.0 path, found.1.now))) }
        ensures visits { V.count counter.new ≡ V.count counter.old + visits self.now.nodes path }
    {
        let Some(found) = longest_on_path(&self.nodes, path, counter) else {
            return None;
        };
        value_of_match(&self.cells, found)
    }

    /// Returns the length of the shortest match of a bit string, and its value.
    ///
    /// It reads the nodes of the search path once each, down to the one that has the match.
    #[inline]
    pub fn find_shortest<K: Key>(&self, path: BitString<K>, counter: &mut V) -> Option<(u32, &T)>
        ensures value { MatchOption result
            (shortest_match self.now.entries path ≡ None)
            (λ found. (found.0 ≤ length path)
            × (shortest_match self.now.entries path ≡ Some (take found.0 path, found.1.now))) }
        ensures visits { V.count counter.new
            ≡ V.count counter.old + visits_to_match self.now.entries self.now.nodes path }
    {
        let Some(found) = shortest_on_path(&self.nodes, path, counter) else {
            return None;
        };
        value_of_match(&self.cells, found)
    }

    /// Walks all entries in listing order. It reads the root at once.
    #[inline]
    pub fn walk<K: Key>(&self, counter: &mut V) -> Walk<'_, K, T, A, V>
        requires within { AreWithin K.bit_width self.now.entries }
        requires nodes { AreNodes K.bit_width self.now.entries self.now.nodes }
        ensures { result ≡ listing self.now.entries }
    {
        walk_of(&self.nodes, &self.cells, counter)
    }

    /// Walks the entries after a bit string in listing order, starting with its own if `inclusive`.
    ///
    /// Its extensions come after it. The call reads the nodes of the search path at once.
    #[inline]
    pub fn walk_from<K: Key>(
        &self,
        path: BitString<K>,
        inclusive: bool,
        counter: &mut V,
    ) -> Walk<'_, K, T, A, V>
        requires within { AreWithin K.bit_width self.now.entries }
        requires nodes { AreNodes K.bit_width self.now.entries self.now.nodes }
        ensures { result ≡ cond inclusive
            (listing_from self.now.entries path)
            (listing_after self.now.entries path) }
    {
        let from = if inclusive { Start::At } else { Start::After };
        walk_at(&self.nodes, &self.cells, path, from, counter)
    }

    /// Walks the entries whose keys begin with a bit string, in listing order. It reads the nodes of the search path at once.
    #[inline]
    pub fn walk_below<K: Key>(&self, path: BitString<K>, counter: &mut V) -> Walk<'_, K, T, A, V>
        requires within { AreWithin K.bit_width self.now.entries }
        requires nodes { AreNodes K.bit_width self.now.entries self.now.nodes }
        ensures { result ≡ listing_below self.now.entries path }
    {
        walk_at(&self.nodes, &self.cells, path, Start::Below, counter)
    }

    /// Sets the value at a bit string, adds the missing nodes of its search path, and returns the previous value.
    ///
    /// # Errors
    ///
    /// Returns the value back, with the cause, if a missing block cannot be made. All blocks are made before the first
    /// change, so entries and nodes are unchanged then.
    #[inline]
    pub fn insert<K: Key>(
        &mut self,
        path: BitString<K>,
        value: T,
        counter: &mut V,
    ) -> Result<Option<T>, Refused<T>>
        ensures returned { IfErr result (λ refused. refused.value ≡ value) }
        ensures step { (width : ℕ)
            → StepByPath width (stored_state self.old) (Insert path value) (insert_reply result)
            (stored_state self.new) }
    {
        // Read for the proof alone: neither array exceeds the limit.
        let _entries = self.len();
        match self.locate(path.copy(), counter) {
            Location::Stored(seat) => Ok(Some(mem::replace(self.at_mut(path, seat), value))),
            Location::Missing(end) => match self.insert_located(path, end, value) {
                Ok(_) => Ok(None),
                Err(refused) => Err(refused),
            },
        }
    }

    /// Removes the value at a bit string, if there is one, and then the empty nodes of the search path, from the bottom up.
    ///
    /// It prunes even if no value was stored. It never fails: blocks shrink as in `remove_keep_tree`.
    #[inline]
    pub fn remove<K: Key>(&mut self, path: BitString<K>, counter: &mut V) -> Option<T>
        ensures step { (width : ℕ)
            → StepByPath width (stored_state self.old) (Remove path) (Value result)
            (stored_state self.new) }
    {
        remove_entry(
            &mut self.nodes,
            &mut self.cells,
            &mut self.count,
            path,
            counter,
        )
    }

    /// Removes the value at a bit string, if there is one, and keeps all nodes.
    ///
    /// It never fails: the values of the node move to a smaller block if they fit and such a block is free or can be made.
    #[inline]
    pub fn remove_keep_tree<K: Key>(&mut self, path: BitString<K>, counter: &mut V) -> Option<T>
        ensures step { (width : ℕ)
            → StepByPath width (stored_state self.old) (RemoveKeepTree path) (Value result)
            (stored_state self.new) }
    {
        remove_value(
            &mut self.nodes,
            &mut self.cells,
            &mut self.count,
            path,
            counter,
        )
    }

    /// Removes all entries whose keys begin with a bit string, and all nodes below the string's own.
    ///
    /// Then it prunes from the string's own node upward, as `remove` does. If that node is missing, nothing changes. At
    /// length 0 it is `clear`. It never fails. It reads the search path and the nodes that it removes.
    #[inline]
    pub fn drop_children<K: Key>(&mut self, path: BitString<K>, counter: &mut V)
        requires within { AreWithin K.bit_width self.old.entries }
        requires nodes { AreNodes K.bit_width self.old.entries self.old.nodes }
        ensures step { (width : ℕ)
            → StepByPath width (stored_state self.old) (RemoveChildren path) Done
            (stored_state self.new) }
        ensures bounds_growth { 0 < length path
            → BoundsStorageGrowth (storage self.old) (storage self.new) }
    {
        if path.len() == 0 {
            self.clear();
            return;
        }
        remove_part(
            &mut self.nodes,
            &mut self.cells,
            &mut self.count,
            &mut KeepNothing,
            path,
            counter,
        );
    }

    /// Calls a test with each entry, in listing order, and removes the entries for which it returns `false`.
    /// The test is left in the state after the last call.
    ///
    /// Then all nodes that no remaining entry needs are removed. It never fails: the values of a node move to a smaller
    /// block only if one is free or can be made. So each node that there was makes at most one block of each smaller
    /// size, of children and of values. These are 55 slots; the contract says 56.
    ///
    /// Requires that no key is longer than the width of `K`, that the nodes are such as the keys need, as in every map,
    /// and that the test may be called.
    #[inline]
    pub fn retain<K: Key, F: Keep<K, T, V>>(&mut self, keep: &mut F, counter: &mut V)
        requires within { AreWithin K.bit_width self.old.entries }
        requires nodes { AreNodes K.bit_width self.old.entries self.old.nodes }
        requires may_ask { CallableOnEachEntry F.may_return F.accepts keep.old
            (listing self.old.entries) }
        ensures kept { RetainsEntriesTo F.may_return keep.old (listing self.old.entries)
            (listing self.new.entries) keep.new }
        ensures step { RetainsInStorage F.may_return keep.old (stored_state self.old)
            (stored_state self.new) }
        ensures fits { AreWithin K.bit_width self.new.entries }
        ensures bounds_growth { BoundsStorageGrowth (storage self.old) (storage self.new) }
    {
        retain_entries::<K, T, A, V, F>(
            &mut self.nodes,
            &mut self.cells,
            &mut self.count,
            keep,
            counter,
        );
    }

    /// Removes all entries, and all nodes but the root. It does not allocate.
    #[inline]
    pub fn clear(&mut self)
        ensures step { (width : ℕ)
            → StepByPath width (stored_state self.old) Clear Done (stored_state self.new) }
    {
        clear_entries(&mut self.nodes, &mut self.cells, &mut self.count);
    }
}
