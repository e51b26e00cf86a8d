//! Values lent for writing. Only what is written through the reference changes.
ghost use Rattle.std.specs.Prelude.{◌≡◌, ◌+◌, ◌<◌, ◌≤◌, Option, None, Some, take, length, slice_index_or, IsSome, IfSome, MatchOption};
ghost use Rattle.std.specs.Option.{option_copied_mut};
ghost use Rattle.std.specs.Borrow.{sem};
ghost use Rattle.std.specs.FinMap.{get};
ghost use Rattle.prefix_trie_bits.specs.Model.Matches.{longest_match};
ghost use Rattle.prefix_trie_bits.specs.Model.Visits.{visits};
ghost use Rattle.prefix_trie_table.specs.Matching.{SeatAt};
ghost use Rattle.prefix_trie_table.specs.Blocks.Slots.{HasValue};
ghost use Rattle.prefix_trie_table.specs.Lending.Blocks.{lends_held, lends_cell, lends_cell_if};

use crate::allocator::blocks::Cells;
use crate::allocator::nodes::VisitCounter;
use crate::table::Table;
use crate::table::matching::{Match, longest_on_path};
use crate::table::seat::{Location, Seat};
use prefix_trie_bits::prefix::{BitString, Key};
use std::alloc::Allocator;

/// Returns the value in a cell that has one.
#[inline]
fn held<T>(cell: &mut Option<T>) -> &mut T
    requires { IsSome cell.old }
    ensures* writes_back { sem 𝓛 (lends_held T.row cell.entry result) }
    ensures value { cell.old ≡ Some result.now }
{
    match cell {
        Some(value) => value,
        None => unreachable!(),
    }
}

/// Returns the value at a seat. Each call that changes a stored value in its place uses this one.
// Inserting and removing do not: they shift a list of cells, and a value that moves to another table fills a vacant cell or leaves one.
#[inline]
pub fn lend<T: Drop, A: Allocator>(cells: &mut Cells<T, A>, seat: Seat) -> &mut T
    requires { HasValue cells.old seat }
    ensures* writes_back { sem 𝓛 (lends_cell T.row A.row A.Allocator cells.entry seat result) }
    ensures value { slice_index_or cells.old.slots seat.slot None ≡ Some result.now }
{
    held(cells.at_mut(seat.slot))
}

/// Returns the value at a seat, if there is one.
#[inline]
fn lend_if<T: Drop, A: Allocator>(cells: &mut Cells<T, A>, seat: Option<Seat>) -> Option<&mut T>
    requires { IfSome seat (λ s. HasValue cells.old s) }
    ensures* writes_back { sem 𝓛 (lends_cell_if T.row A.row A.Allocator cells.entry seat result) }
    ensures value { MatchOption seat (result ≡ None)
        (λ s. option_copied_mut result ≡ slice_index_or cells.old.slots s.slot None) }
{
    let seat = seat?;
    Some(lend(cells, seat))
}

/// Returns the seat of a match, and stores its length in `found`.
#[inline]
fn seat_of(longest: Option<Match>, found: &mut u32) -> Option<Seat>
    requires { IfSome longest (λ m. m.bit < 31) }
    ensures { SeatAt longest result found.new }
{
    let longest = longest?;
    *found = longest.len;
    Some(longest.seat())
}

impl<T: Drop, A: Allocator, V: VisitCounter> Table<T, A, V> {
    ghost use Rattle.prefix_trie_table.specs.Lending.Tables.{lends_entry_if, lends_longest_if};

    /// Returns the value at a bit string for writing. Nothing else changes. It reads each node on the search path once.
    ///
    /// ```text
    /// if let Some(value) = table.find_mut(path, &mut counter) {
    ///     *value = 7;
    /// }
    /// ```
    #[inline]
    pub fn find_mut<K: Key>(&mut self, path: BitString<K>, counter: &mut V) -> Option<&mut T>
        ensures* writes_back { sem 𝓛
            (lends_entry_if T.row A.row V.row A.Allocator V.VisitCounter self.entry path result) }
        ensures value { option_copied_mut result ≡ get self.old.entries path }
        ensures visits { V.count counter.new ≡ V.count counter.old + visits self.old.nodes path }
    {
        let place = self.locate(path.copy(), counter);
        match place {
            Location::Stored(seat) => Some(self.at_mut(path, seat)),
            Location::Missing(_) => None,
        }
    }

    /// Returns the value of the longest match of a bit string for writing, and stores its length in `found`.
    ///
    /// Nothing else changes. It reads each node on the search path once.
    #[inline]
    pub fn find_longest_mut<K: Key>(
        &mut self,
        path: BitString<K>,
        found: &mut u32,
        counter: &mut V,
    ) -> Option<&mut T>
        ensures* writes_back { sem 𝓛
            (lends_longest_if T.row A.row V.row A.Allocator V.VisitCounter self.entry path result) }
        ensures value { MatchOption result
            (longest_match self.old.entries path ≡ None)
            (λ value. (found.new ≤ length path)
            × (longest_match self.old.entries path ≡ Some (take found.new path, value.now))) }
        ensures visits { V.count counter.new ≡ V.count counter.old + visits self.old.nodes path }
    {
        let longest = longest_on_path(&self.nodes, path, counter);
        let seat = seat_of(longest, found);
        lend_if(&mut self.cells, seat)
    }
}
