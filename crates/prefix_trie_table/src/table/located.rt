//! Calls that share one search: `locate` returns where a value is stored or would be inserted, and the others take that.
ghost use Rattle.std.specs.Prelude.{◌≡◌, ◌+◌, ℕ, false, IfOk, IfErr, MatchResult, Some};
ghost use Rattle.std.specs.Borrow.{sem};
ghost use Rattle.std.specs.FinMap.{get, contains_key, len as number_of};
ghost use Rattle.prefix_trie_bits.specs.Model.Space.{MayPassLimit, LeavesSpace};
ghost use Rattle.prefix_trie_bits.specs.Model.Step.{Insert};
ghost use Rattle.prefix_trie_bits.specs.Calls.Storage.{PreparesInStorage, StepByPath};
ghost use Rattle.prefix_trie_bits.specs.Model.Storage.{RefusesInStorage};
ghost use Rattle.prefix_trie_bits.specs.Model.Visits.{visits};
ghost use Rattle.prefix_trie_bits.specs.declared.prefix.Refusal.TheVariants.{IndexRange};
ghost use Rattle.prefix_trie_table.specs.Locations.{seat_of, IsSearchEnd, IsLocation};
ghost use Rattle.prefix_trie_table.specs.Model.Contents.{state, storage, stored_state};
ghost use Rattle.prefix_trie_table.specs.Steps.{insert_new_reply};

use crate::allocator::nodes::VisitCounter;
use crate::table::Table;
use crate::table::insertion::{insert_entry, prepare};
use crate::table::lending::lend;
use crate::table::lookup::locate_in;
use crate::table::seat::{Location, SearchEnd, Seat};
use prefix_trie_bits::prefix::{BitString, Key, Refusal, Refused};
use std::alloc::Allocator;

impl<T: Drop, A: Allocator, V: VisitCounter> Table<T, A, V> {
    ghost use Rattle.prefix_trie_table.specs.Lending.Tables.{lends_entry};

    /// Finds where the value at a bit string is stored, or where its search path ends.
    ///
    /// It reads each node on the path once.
    ///
    /// # Examples
    ///
    /// ```text
    /// match table.locate(path.copy(), &mut counter) {
    ///     Location::Stored(seat) => *table.at_mut(path, seat) = 7,
    ///     Location::Missing(end) => {
    ///         table.insert_located(path, end, 7)?;     // reads no node
    ///     }
    /// }
    /// ```
    #[inline]
    pub fn locate<K: Key>(&self, path: BitString<K>, counter: &mut V) -> Location<K>
        ensures located { IsLocation self.now path result }
        ensures visits { V.count counter.new ≡ V.count counter.old + visits self.now.nodes path }
    {
        locate_in(&self.nodes, path, counter)
    }

    /// Returns the value at a bit string, which is stored at this seat.
    #[inline]
    pub fn at<K: Key>(&self, path: BitString<K>, seat: Seat) -> &T
        requires { seat_of self.now.build path ≡ Some seat }
        ensures { get self.now.entries path ≡ Some result.now }
    {
        match self.cells.at(seat.slot) {
            Some(value) => value,
            None => unreachable!(),
        }
    }

    /// Returns the value at a bit string for writing. Nothing else changes, so the seat stays right.
    #[inline]
    pub fn at_mut<K: Key>(&mut self, path: BitString<K>, seat: Seat) -> &mut T
        requires { seat_of self.old.build path ≡ Some seat }
        ensures* writes_back { sem 𝓛
            (lends_entry T.row A.row V.row A.Allocator V.VisitCounter self.entry path result) }
        ensures value { get self.old.entries path ≡ Some result.now }
    {
        lend(&mut self.cells, seat)
    }

    /// Makes all missing blocks for the insertion of a bit string whose search path ends here.
    ///
    /// `insert_located` cannot fail then. Entries and nodes are unchanged in each case, and the end of the path stays
    /// right. No node is read.
    ///
    /// # Errors
    ///
    /// Returns an error only if a block is missing: `Memory` if an allocation fails, and `IndexRange` if the slots of
    /// the missing blocks would exceed the limit.
    #[inline]
    pub fn reserve<K: Key>(&mut self, path: BitString<K>, end: &SearchEnd<K>) -> Result<(), Refusal>
        requires absent { contains_key self.old.entries path ≡ false }
        requires end { IsSearchEnd self.old.build path end.now }
        ensures unchanged { (self.new.entries ≡ self.old.entries)
            × (self.new.nodes ≡ self.old.nodes) }
        ensures end { IsSearchEnd self.new.build path end.now }
        ensures prepares { MatchResult result
            (λ _. PreparesInStorage (state self.old) path (storage self.old) (storage self.new))
            (λ cause. RefusesInStorage (state self.old) path cause (storage self.old)
            (storage self.new)) }
        ensures range { IfErr result (λ cause. cause ≡ IndexRange → MayPassLimit self.old.space) }
        ensures space { LeavesSpace (number_of self.old.nodes) self.old.space self.new.space }
    {
        prepare(&mut self.nodes, &mut self.cells, &end.reached, &path)
    }

    /// Sets the value at a missing bit string whose search path ends here, and returns the value's seat.
    ///
    /// The missing nodes of the path are added. No node is read.
    ///
    /// # Errors
    ///
    /// Returns the value back, with the cause, as `insert` does. This never happens right after a successful `reserve`
    /// of the same string.
    #[inline(always)]
    pub fn insert_located<K: Key>(
        &mut self,
        path: BitString<K>,
        end: SearchEnd<K>,
        value: T,
    ) -> Result<Seat, Refused<T>>
        requires absent { contains_key self.old.entries path ≡ false }
        requires end { IsSearchEnd self.old.build path end }
        ensures seat { IfOk result (λ seat. seat_of self.new.build path ≡ Some seat) }
        ensures returned { IfErr result (λ refused. refused.value ≡ value) }
        ensures step { (width : ℕ)
            → StepByPath width (stored_state self.old) (Insert path value) (insert_new_reply result)
            (stored_state self.new) }
    {
        insert_entry(
            &mut self.nodes,
            &mut self.cells,
            &mut self.count,
            end,
            path,
            value,
        )
    }
}
