//! Cases as calls of a map.
use crate::cases::entries::{InsertVia, insert_via, removes_entry};
use crate::cases::found::{as_entry, gives, has_blocks, slots_add_up};
use crate::cases::under_test::{Shrinking, UnderTest, is_result, replaces};
use crate::cases::{Case, Entry, prefix_of};
use crate::retain::retain_long;
use prefix_trie::{Prefix, PrefixMap, Refusal};
use std::alloc::Allocator;
use std::mem;

impl<P: Prefix + Copy + PartialEq, A: Allocator + Copy> UnderTest<P::R, A>
    for PrefixMap<P, u64, A> {
    fn create(alloc: A, limit: Option<u32>) -> Result<Self, Refusal> {
        match limit {
            Some(slots) => PrefixMap::with_slot_limit(alloc, slots),
            None => PrefixMap::new(alloc),
        }
    }

    fn makes(
        &mut self,
        other: &mut Self,
        alloc: A,
        case: &Case<'_, P::R>,
    ) -> Result<bool, Refusal> {
        match case {
            Case::StartsAnew(limit) => replaces(self, Self::create(alloc, *limit)),
            Case::Copies => replaces(other, self.clone()),
            Case::AreSame => Ok(are_same(self, other)),
            Case::Swaps => {
                mem::swap(self, other);
                Ok(true)
            }
            _ => may_fail(self, case),
        }
    }

    fn slots_add_up(&self) -> bool {
        slots_add_up(self)
    }
}

/// Returns whether two maps have the same entries, nodes and blocks.
fn are_same<P: Prefix + PartialEq, A: Allocator>(
    map: &PrefixMap<P, u64, A>,
    other: &PrefixMap<P, u64, A>,
) -> bool {
    (*map == *other)
        & (map.node_count() == other.node_count())
        & (map.node_blocks() == other.node_blocks())
        & (map.cell_blocks() == other.cell_blocks())
}

/// Makes a call that needs no second map and may fail. Any other call is passed on.
fn may_fail<P: Prefix + Copy, A: Allocator + Copy>(
    map: &mut PrefixMap<P, u64, A>,
    case: &Case<'_, P::R>,
) -> Result<bool, Refusal> {
    match case {
        Case::Inserts(at, value, before) => {
            is_result(insert_via(map, InsertVia::Map, *at, *value), Ok(*before))
        }
        Case::InsertsVia(call, at, value, before) => {
            is_result(insert_via(map, *call, *at, *value), Ok(*before))
        }
        Case::ExceedsLimit(at, value) => is_result(
            insert_via(map, InsertVia::Map, *at, *value),
            Err(Refusal::IndexRange),
        ),
        Case::Shrinks(Shrinking::Compact) => is_result(map.compact(), Ok(())),
        Case::Shrinks(Shrinking::ShrinkToFit) => {
            is_result(map.shrink_to_fit().map_err(|_| Refusal::Memory), Ok(()))
        }
        _ => Ok(changes(map, case)),
    }
}

/// Makes a call that cannot fail. Returns whether the result is that of a case.
fn changes<P: Prefix + Copy, A: Allocator>(
    map: &mut PrefixMap<P, u64, A>,
    case: &Case<'_, P::R>,
) -> bool {
    match case {
        Case::Removes(at, before) => map.remove(&prefix_of(*at)) == *before,
        Case::RemovesKeepTree(at, before) => map.remove_keep_tree(&prefix_of(*at)) == *before,
        Case::RemovesEntry(at, before) => removes_entry(map, *at, *before),
        Case::DropsChildren(at) => {
            map.drop_children(&prefix_of(*at));
            true
        }
        Case::RetainsLong(len) => {
            retain_long(map, *len);
            true
        }
        Case::Clears => {
            map.clear();
            true
        }
        _ => is_as(map, case),
    }
}

/// Returns whether a call that changes nothing has the result of a case.
fn is_as<P: Prefix + Copy, A: Allocator>(
    map: &PrefixMap<P, u64, A>,
    case: &Case<'_, P::R>,
) -> bool {
    match case {
        Case::Finds(at, exact, longest, shortest) => {
            finds(map, &prefix_of(*at), *exact, *longest, *shortest)
        }
        Case::Lists(entries) => gives(map.iter(), entries),
        Case::Len(len) => (map.len(), map.is_empty()) == (*len, *len == 0),
        Case::NodeCount(nodes) => map.node_count() == *nodes,
        Case::Slots(nodes, cells) => (map.node_slots(), map.cell_slots()) == (*nodes, *cells),
        Case::NodeBlocks(size, used, free) => {
            has_blocks(&map.node_blocks(), *size, *used, *free)
        }
        Case::CellBlocks(size, used, free) => {
            has_blocks(&map.cell_blocks(), *size, *used, *free)
        }
        _ => false,
    }
}

/// Returns whether the lookups of a prefix find these entries.
fn finds<P: Prefix + Copy, A: Allocator>(
    map: &PrefixMap<P, u64, A>,
    prefix: &P,
    exact: Option<Entry<P::R>>,
    longest: Option<Entry<P::R>>,
    shortest: Option<Entry<P::R>>,
) -> bool
    requires { P.IsFitting prefix.now }
{
    (as_entry(map.get_key_value(prefix)) == exact)
        & (as_entry(map.get_lpm(prefix)) == longest)
        & (as_entry(map.get_spm(prefix)) == shortest)
}
