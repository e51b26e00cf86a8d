//! The walk that moves the values out of a table, in listing order.
ghost use Rattle.std.specs.Prelude.{◌≡◌, [], IfOk, MatchOption};
ghost use Rattle.std.specs.List.{AllZip};
ghost use Rattle.prefix_trie_bits.specs.Calls.Entries.{AreWithin};
ghost use Rattle.prefix_trie_bits.specs.Calls.Nodes.{AreNodes};
ghost use Rattle.prefix_trie_bits.specs.Model.Selections.{listing, listing_below};
ghost use Rattle.prefix_trie_table.specs.Copies.{IsPairCloned};
ghost use Rattle.prefix_trie_table.specs.Walking.Items.{GivesFilled};
ghost use Rattle.prefix_trie_table.specs.Walking.Taking.{Seated, Seated-prop};

use crate::allocator::blocks::Cells;
use crate::allocator::nodes::{NodeAllocator, VisitCounter};
use crate::table::Table;
use crate::table::spot::Spot;
use crate::table::walk::advance;
use crate::table::walk_start::{Start, start_at};
use arrayvec::ArrayVec;
use prefix_trie_bits::prefix::{BitString, Key};
use std::alloc::{AllocError, Allocator};
use std::marker::Model;

/// The entries of a table that are still to come, in listing order, with their values.
///
/// Values that are not taken are dropped with the walk.
///
/// # Examples
///
/// ```text
/// let mut walk = table.into_walk(&mut counter);
/// while let Some((key, len, value)) = walk.next(&mut counter) {}    // each value is moved out of the table
/// ```
#[derive(Drop)]
pub struct IntoWalk<K: Key, T: Drop, A: Allocator, V: VisitCounter> {
    nodes: NodeAllocator<A, V>,
    // The cells of values that were taken are vacant. The other cells and the nodes are those of the table.
    cells: Cells<T, A>,
    // The path of each spot begins this key.
    key: K,
    stack: ArrayVec<Spot, 26>,
    ghost seats: { Seated nodes.slots } by { Seated-prop nodes.slots },
}

// Clauses see the pairs still to come.
impl<K: Key, T: Drop, A: Allocator, V: VisitCounter> Model for IntoWalk<K, T, A, V> {
    ghost use Rattle.std.specs.Prelude.{List, Bool};
    ghost use Rattle.prefix_trie_table.specs.Walking.Walks.{pending};
    ghost use Rattle.prefix_trie_table.specs.Walking.Taking.{pairs_in, IsTaking};

    ghost Value = { List (List Bool × T) };

    ghost view = { λ w. pairs_in w.nodes.slots w.cells.slots
        (pending w.seats.0 (K.bits w.key) w.stack.items) };

    ghost invariant = { λ w. IsTaking K.bit_width w.nodes w.cells w.seats.0
        (K.bits w.key) w.stack.items };
}

impl<K: Key, T: Drop, A: Allocator, V: VisitCounter> IntoWalk<K, T, A, V> {
    /// Returns the next entry: its key, the key's length in bits, and its value.
    ///
    /// It reads each further node once, when the walk comes to it.
    #[inline]
    pub fn next(&mut self, counter: &mut V) -> Option<(K, u32, T)>
        ensures { MatchOption result ((self.old ≡ []) × (self.new ≡ []))
            (λ r. GivesFilled K.IsKey K.bits K.bit_width r.0 r.1 r.2 self.old self.new) }
    {
        let Some((key, len, seat)) = advance::<K, A, V, T>(
            &self.nodes,
            &mut self.stack,
            &mut self.key,
            counter,
        ) else {
            return None;
        };
        let Some(value) = self.cells.put(seat.slot, None) else {
            unreachable!();
        };
        Some((key, len, value))
    }
}

impl<K: Key, T: Clone, A: Allocator + Clone, V: VisitCounter> IntoWalk<K, T, A, V> {
    /// Creates a walk with the same strings to come, whose values are clones, in memory of its own.
    ///
    /// All memory for the arrays is allocated before the first value is cloned.
    ///
    /// # Errors
    ///
    /// Returns an error if an allocation fails, for the arrays or in the clone of a value.
    pub fn clone(&self) -> Result<Self, AllocError>
        ensures pairs { IfOk result (λ copy. AllZip (IsPairCloned T.is_clone) self.now copy) }
        ensures same { IfOk result
            (λ copy. ((x y : T) → T.is_clone x y → y ≡ x) → copy ≡ self.now) }
    {
        let nodes = self.nodes.clone()?;
        let cells = self.cells.clone()?;
        let Ok(stack) = self.stack.clone() else {
            unreachable!();
        };
        Ok(IntoWalk {
            nodes,
            cells,
            key: self.key,
            stack,
        })
    }
}

impl<T: Drop, A: Allocator, V: VisitCounter> Table<T, A, V> {
    /// Walks all entries in listing order, and takes the table apart. It reads the root at once and does not allocate.
    #[inline]
    pub fn into_walk<K: Key>(self, counter: &mut V) -> IntoWalk<K, T, A, V>
        requires within { AreWithin K.bit_width self.entries }
        requires nodes { AreNodes K.bit_width self.entries self.nodes }
        ensures { result ≡ listing self.entries }
    {
        self.into_walk_below(BitString::new(K::zero(), 0), counter)
    }

    /// Walks the entries whose keys begin with a bit string. The walk drops the others with it.
    ///
    /// The call reads the nodes of the search path at once.
    #[inline]
    pub fn into_walk_below<K: Key>(
        self,
        path: BitString<K>,
        counter: &mut V,
    ) -> IntoWalk<K, T, A, V>
        requires within { AreWithin K.bit_width self.entries }
        requires nodes { AreNodes K.bit_width self.entries self.nodes }
        ensures { result ≡ listing_below self.entries path }
    {
        let key = path.key();
        let stack = start_at::<K, T, A, V>(&self.nodes, key, path, Start::Below, counter);
        IntoWalk {
            nodes: self.nodes,
            cells: self.cells,
            key,
            stack,
        }
    }
}
