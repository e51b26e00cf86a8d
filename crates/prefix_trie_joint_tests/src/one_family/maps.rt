//! Cases as calls of a joint map.
use crate::one_family::{network, pair_of};
use prefix_trie::{Prefix, PrefixMap, Refusal};
use prefix_trie_joint::map::Iter;
use prefix_trie_joint::{IpPrefix, JointPrefixMap};
use prefix_trie_tests::cases::entries::{
    InsertResult, InsertVia, result_of_lent, result_of_new, without_value,
};
use prefix_trie_tests::cases::found::{has_blocks, slots_add_up};
use prefix_trie_tests::cases::under_test::{Shrinking, UnderTest, is_result, replaces};
use prefix_trie_tests::cases::{Case, Entry};
use prefix_trie_tests::retain::retain_long;
use std::alloc::Allocator;
use std::mem;

/// A joint map with networks of one family.
#[derive(Drop)]
pub struct MapOf<const VERSION: u32, A: Allocator> {
    map: JointPrefixMap<u64, A>,
}

impl<const VERSION: u32, A: Allocator + Copy> UnderTest<u32, A> for MapOf<VERSION, A> {
    fn create(alloc: A, limit: Option<u32>) -> Result<Self, Refusal> {
        let map = match limit {
            Some(slots) => JointPrefixMap::with_slot_limit(alloc, slots)?,
            None => JointPrefixMap::new(alloc)?,
        };
        Ok(MapOf { map })
    }

    fn makes(&mut self, other: &mut Self, alloc: A, case: &Case<'_, u32>) -> Result<bool, Refusal> {
        match case {
            Case::StartsAnew(limit) => replaces(self, Self::create(alloc, *limit)),
            Case::Copies => replaces(&mut other.map, self.map.clone()),
            Case::AreSame => Ok(are_same(&self.map, &other.map)),
            Case::Swaps => {
                mem::swap(&mut self.map, &mut other.map);
                Ok(true)
            }
            _ => may_fail::<VERSION, A>(&mut self.map, case),
        }
    }

    fn slots_add_up(&self) -> bool {
        slots_add_up(&self.map.ipv4) & slots_add_up(&self.map.ipv6)
    }
}

/// Returns whether two maps have the same entries and nodes.
fn are_same<A: Allocator>(map: &JointPrefixMap<u64, A>, other: &JointPrefixMap<u64, A>) -> bool {
    (*map == *other)
        & (map.ipv4.node_count() == other.ipv4.node_count())
        & (map.ipv6.node_count() == other.ipv6.node_count())
}

/// Inserts a value by a call.
fn insert_via<A: Allocator>(
    map: &mut JointPrefixMap<u64, A>,
    call: InsertVia,
    at: IpPrefix,
    value: u64,
) -> InsertResult {
    match call {
        InsertVia::Map => without_value(map.insert(at, value)),
        InsertVia::Put | InsertVia::Insert => without_value(map.entry(at).insert(value)),
        InsertVia::OrInsert => result_of_lent(map.entry(at).or_insert(value), value),
        InsertVia::OrInsertWith | InsertVia::InsertWith => {
            result_of_new(map.entry(at).or_insert_with(move || value), value)
        }
        InsertVia::OrDefault | InsertVia::Default => {
            result_of_new(map.entry(at).or_default(), value)
        }
    }
}

/// Makes a call that needs no second map and may fail. Any other call is passed on.
fn may_fail<const VERSION: u32, A: Allocator + Copy>(
    map: &mut JointPrefixMap<u64, A>,
    case: &Case<'_, u32>,
) -> Result<bool, Refusal> {
    match case {
        Case::Inserts(at, value, before) => is_result(
            insert_via(map, InsertVia::Map, network::<VERSION>(*at), *value),
            Ok(*before),
        ),
        Case::InsertsVia(call, at, value, before) => is_result(
            insert_via(map, *call, network::<VERSION>(*at), *value),
            Ok(*before),
        ),
        Case::ExceedsLimit(at, value) => is_result(
            insert_via(map, InsertVia::Map, network::<VERSION>(*at), *value),
            Err(Refusal::IndexRange),
        ),
        Case::Shrinks(Shrinking::Compact) => is_result(map.compact(), Ok(())),
        Case::Shrinks(Shrinking::ShrinkToFit) => {
            is_result(map.shrink_to_fit().map_err(|_| Refusal::Memory), Ok(()))
        }
        _ => Ok(changes::<VERSION, A>(map, case)),
    }
}

/// Makes a call that cannot fail. Returns whether the result is that of a case.
fn changes<const VERSION: u32, A: Allocator>(
    map: &mut JointPrefixMap<u64, A>,
    case: &Case<'_, u32>,
) -> bool {
    match case {
        Case::Removes(at, before) => map.remove(&network::<VERSION>(*at)) == *before,
        Case::RemovesKeepTree(at, before) => {
            map.remove_keep_tree(&network::<VERSION>(*at)) == *before
        }
        Case::RemovesEntry(at, before) => {
            map.entry(network::<VERSION>(*at)).remove() == Some(*before)
        }
        Case::DropsChildren(at) => {
            map.drop_children(&network::<VERSION>(*at));
            true
        }
        Case::RetainsLong(len) => {
            retain_long(&mut map.ipv4, *len);
            retain_long(&mut map.ipv6, *len);
            true
        }
        Case::Clears => {
            map.clear();
            true
        }
        _ => is_as::<VERSION, A>(map, case),
    }
}

/// Returns whether a call that changes nothing has the result of a case.
fn is_as<const VERSION: u32, A: Allocator>(
    map: &JointPrefixMap<u64, A>,
    case: &Case<'_, u32>,
) -> bool {
    match case {
        Case::Finds(at, exact, longest, shortest) => {
            let at = network::<VERSION>(*at);
            (entry_of(&map.get_key_value(&at)) == *exact)
                & (entry_of(&map.get_lpm(&at)) == *longest)
                & (entry_of(&map.get_spm(&at)) == *shortest)
        }
        Case::Lists(entries) => gives(map.iter(), entries),
        Case::Len(len) => (map.len(), map.is_empty()) == (*len, *len == 0),
        _ if VERSION == 4 => has_nodes(&map.ipv4, case),
        _ => has_nodes(&map.ipv6, case),
    }
}

/// Returns whether the nodes, slots and blocks of one family are those of a case.
fn has_nodes<P: Prefix, A: Allocator>(map: &PrefixMap<P, u64, A>, case: &Case<'_, u32>) -> bool {
    match case {
        Case::NodeCount(nodes) => map.node_count() == *nodes,
        Case::Slots(nodes, cells) => (map.node_slots(), map.cell_slots()) == (*nodes, *cells),
        Case::NodeBlocks(size, used, free) => {
            has_blocks(&map.node_blocks(), *size, *used, *free)
        }
        Case::CellBlocks(size, used, free) => {
            has_blocks(&map.cell_blocks(), *size, *used, *free)
        }
        _ => false,
    }
}

/// Returns what a lookup finds, as tables write it.
fn entry_of(found: &Option<(IpPrefix, &u64)>) -> Option<Entry<u32>> {
    let Some((network, value)) = found else {
        return None;
    };
    Some((pair_of(*network), **value))
}

/// Returns whether a walk returns these entries.
fn gives<A: Allocator>(mut walk: Iter<'_, u64, A>, entries: &[Entry<u32>]) -> bool {
    for entry in entries {
        if entry_of(&walk.next()) != Some(*entry) {
            return false;
        }
    }
    walk.next().is_none()
}
