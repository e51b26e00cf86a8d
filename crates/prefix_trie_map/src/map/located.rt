//! What entries do at a located key, or at the end of its search path, without a second search.
ghost use Rattle.std.specs.Prelude.{◌≡◌, take, [], false, true, None, Some, IfSome, MatchOption, OnOk, IfOk, IfErr};
ghost use Rattle.std.specs.Borrow.{sem};
ghost use Rattle.std.specs.FinMap.{get, contains_key, len};
ghost use Rattle.prefix_trie_bits.specs.Model.Entries.{with_entry, without_entry};
ghost use Rattle.prefix_trie_bits.specs.Model.Insertion.{missing_node_slots, missing_cell_slots};
ghost use Rattle.prefix_trie_bits.specs.Model.Nodes.{with_needed};
ghost use Rattle.prefix_trie_bits.specs.Model.Space.{LeavesSpace};
ghost use Rattle.prefix_trie_bits.specs.Model.Step.{Insert, RemoveKeepTree, Value, Refused as Refuses};
ghost use Rattle.prefix_trie_bits.specs.Calls.Storage.{PreparesInStorage, StepByPath};
ghost use Rattle.prefix_trie_table.specs.Locations.{seat_of, IsSearchEnd, IsLocation};
ghost use Rattle.prefix_trie_map.specs.Steps.{state, storage, stored_state};
ghost use Rattle.prefix_trie_map.specs.Whole.{IsWhole};

use crate::map::{PrefixMap, Visits};
use prefix_trie_bits::prefix::{BitString, Prefix, Refusal, Refused};
use prefix_trie_table::table::cursor::Cursor;
use prefix_trie_table::table::seat::{Location, SearchEnd, Seat};
use std::alloc::Allocator;

impl<P: Prefix, T: Drop, A: Allocator> PrefixMap<P, T, A> {
    ghost use Rattle.prefix_trie_table.specs.Walking.Cursors.{IsCursorIn, keys_to_come, GivesKey};
    ghost use Rattle.prefix_trie_map.specs.Lending.{lends_value};

    // Finds where the value of a prefix is stored, or where its search path ends.
    #[inline]
    pub(super) fn locate(&self, prefix: &P) -> Location<P::R>
        requires { P.IsFitting prefix.now }
        ensures { IsLocation self.now (P.path prefix.now) result }
    {
        self.table.locate(prefix.path(), &mut Visits::new())
    }

    // Returns the value of a prefix, which is stored at this seat.
    #[inline]
    pub(super) fn value_at(&self, prefix: &P, seat: Seat) -> &T
        requires fits { P.IsFitting prefix.now }
        requires seat { seat_of self.now.build (P.path prefix.now) ≡ Some seat }
        ensures { get self.now.entries (P.path prefix.now) ≡ Some result.now }
    {
        self.table.at(prefix.path(), seat)
    }

    // Returns the value at a bit string, which is stored at this seat, for writing.
    #[inline]
    pub(super) fn lend_at(&mut self, path: BitString<P::R>, seat: Seat) -> &mut T
        requires { seat_of self.old.build path ≡ Some seat }
        ensures* writes_back { sem 𝓛
            (lends_value P.row T.row A.row P.R.row P.Prefix.own P.Debug P.R.Key.own P.R.PartialEq
            P.R.Debug A.Allocator self.entry path result) }
        ensures value { get self.old.entries path ≡ Some result.now }
        ensures whole { IsWhole P.R.bit_width self.old }
    {
        self.known_valid();
        self.table.at_mut(path, seat)
    }

    // Advances a walk to its next entry. Returns the key, its length, and the seat of its value.
    #[inline]
    pub(super) fn step(&self, cursor: &mut Cursor<P::R>) -> Option<(P::R, u32, Seat)>
        requires { IsCursorIn P.R.bits P.R.bit_width self.now.build cursor.old }
        ensures is_there { IsCursorIn P.R.bits P.R.bit_width self.now.build cursor.new }
        ensures key { MatchOption result
            ((keys_to_come P.R.bits self.now.entries cursor.old ≡ [])
            × (keys_to_come P.R.bits self.now.entries cursor.new ≡ []))
            (λ r. GivesKey P.R.IsKey P.R.bits P.R.bit_width self.now.build r.0 r.1 r.2
            (keys_to_come P.R.bits self.now.entries cursor.old)
            (keys_to_come P.R.bits self.now.entries cursor.new)) }
        ensures stored { IfSome result
            (λ r. contains_key self.now.entries (take r.1 (P.R.bits r.0)) ≡ true) }
    {
        self.table.step(cursor, &mut Visits::new())
    }

    // Makes the missing blocks for a new prefix whose search path ends here.
    #[inline]
    pub(super) fn reserve(&mut self, prefix: &P, end: &SearchEnd<P::R>) -> Result<(), Refusal>
        requires fits { P.IsFitting prefix.now }
        requires absent { contains_key self.old.entries (P.path prefix.now) ≡ false }
        requires end { IsSearchEnd self.old.build (P.path prefix.now) end.now }
        ensures entries { self.new.entries ≡ self.old.entries }
        ensures nodes { self.new.nodes ≡ self.old.nodes }
        ensures end { IsSearchEnd self.new.build (P.path prefix.now) end.now }
        ensures space { LeavesSpace (len self.old.nodes) self.old.space self.new.space }
        ensures prepares { OnOk result
            (PreparesInStorage (state self.old) (P.path prefix.now) (storage self.old)
            (storage self.new)) }
        ensures refuses { IfErr result
            (λ cause. (value : T)
            → StepByPath P.R.bit_width (stored_state self.old) (Insert (P.path prefix.now) value)
            (Refuses cause) (stored_state self.new)) }
    {
        self.table.reserve(prefix.path(), end)
    }

    // Inserts a new prefix whose search path ends here, and returns the seat of its value.
    // It is not inlined, so that callers of entries stay small if the key is stored.
    #[inline(never)]
    pub(super) fn insert_located(
        &mut self,
        prefix: &P,
        end: SearchEnd<P::R>,
        value: T,
    ) -> Result<Seat, Refused<T>>
        requires fits { P.IsFitting prefix.now }
        requires absent { contains_key self.old.entries (P.path prefix.now) ≡ false }
        requires end { IsSearchEnd self.old.build (P.path prefix.now) end }
        ensures seat { IfOk result
            (λ seat. seat_of self.new.build (P.path prefix.now) ≡ Some seat) }
        ensures entries { OnOk result
            (self.new.entries ≡ with_entry self.old.entries (P.path prefix.now) value) }
        ensures nodes { OnOk result
            (self.new.nodes ≡ with_needed self.old.nodes (P.path prefix.now)) }
        ensures unchanged { IfErr result
            (λ refused. (refused.value ≡ value) × (self.new.entries ≡ self.old.entries)
            × (self.new.nodes ≡ self.old.nodes)) }
        ensures step { OnOk result
            (StepByPath P.R.bit_width (stored_state self.old) (Insert (P.path prefix.now) value)
            (Value None) (stored_state self.new)) }
        ensures refuses { IfErr result
            (λ refused. (other : T)
            → StepByPath P.R.bit_width (stored_state self.old) (Insert (P.path prefix.now) other)
            (Refuses refused.cause) (stored_state self.new)) }
    {
        self.table.insert_located(prefix.path(), end, value)
    }

    // Inserts as `insert_located` does. No block is missing, so it cannot fail.
    #[inline]
    pub(super) fn insert_ready(&mut self, prefix: &P, end: SearchEnd<P::R>, value: T) -> Seat
        requires fits { P.IsFitting prefix.now }
        requires absent { contains_key self.old.entries (P.path prefix.now) ≡ false }
        requires end { IsSearchEnd self.old.build (P.path prefix.now) end }
        requires nodes { missing_node_slots self.old.nodes self.old.layout (P.path prefix.now) ≡ 0 }
        requires cells { missing_cell_slots self.old.entries self.old.layout (P.path prefix.now)
            ≡ 0 }
        ensures seat { seat_of self.new.build (P.path prefix.now) ≡ Some result }
        ensures entries { self.new.entries ≡ with_entry self.old.entries (P.path prefix.now) value }
        ensures nodes { self.new.nodes ≡ with_needed self.old.nodes (P.path prefix.now) }
        ensures step { StepByPath P.R.bit_width (stored_state self.old)
            (Insert (P.path prefix.now) value) (Value None) (stored_state self.new) }
    {
        match self.insert_located(prefix, end, value) {
            Ok(seat) => seat,
            Err(_) => unreachable!(),
        }
    }

    // Removes the entry of a stored prefix, and keeps all nodes.
    #[inline]
    pub(super) fn take(&mut self, prefix: &P) -> T
        requires fits { P.IsFitting prefix.now }
        requires stored { contains_key self.old.entries (P.path prefix.now) ≡ true }
        ensures value { get self.old.entries (P.path prefix.now) ≡ Some result }
        ensures entries { self.new.entries ≡ without_entry self.old.entries (P.path prefix.now) }
        ensures nodes { self.new.nodes ≡ self.old.nodes }
        ensures step { StepByPath P.R.bit_width (stored_state self.old)
            (RemoveKeepTree (P.path prefix.now)) (Value (Some result)) (stored_state self.new) }
    {
        match self.remove_keep_tree(prefix) {
            Some(value) => value,
            None => unreachable!(),
        }
    }
}
