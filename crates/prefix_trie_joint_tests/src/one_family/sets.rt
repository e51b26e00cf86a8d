//! Cases as calls of a joint set. Only the keys of the entries count.
use crate::one_family::{network, pair_of};
use prefix_trie::{Prefix, PrefixSet, Refusal};
use prefix_trie_joint::set::Iter;
use prefix_trie_joint::{IpPrefix, JointPrefixSet};
use prefix_trie_tests::cases::under_test::{Shrinking, UnderTest, is_result, replaces};
use prefix_trie_tests::cases::{Case, Entry};
use prefix_trie_tests::retain::retain_long_keys;
use std::alloc::Allocator;
use std::mem;

/// A joint set with networks of one family.
#[derive(Drop)]
pub struct SetOf<const VERSION: u32, A: Allocator> {
    set: JointPrefixSet<A>,
}

impl<const VERSION: u32, A: Allocator + Copy> UnderTest<u32, A> for SetOf<VERSION, A> {
    fn create(alloc: A, limit: Option<u32>) -> Result<Self, Refusal> {
        let set = match limit {
            Some(slots) => JointPrefixSet::with_slot_limit(alloc, slots)?,
            None => JointPrefixSet::new(alloc)?,
        };
        Ok(SetOf { set })
    }

    fn makes(&mut self, other: &mut Self, alloc: A, case: &Case<'_, u32>) -> Result<bool, Refusal> {
        match case {
            Case::StartsAnew(limit) => replaces(self, Self::create(alloc, *limit)),
            Case::Copies => replaces(&mut other.set, self.set.clone()),
            Case::AreSame => Ok(self.set == other.set),
            Case::Swaps => {
                mem::swap(&mut self.set, &mut other.set);
                Ok(true)
            }
            _ => may_fail::<VERSION, A>(&mut self.set, case),
        }
    }

    fn slots_add_up(&self) -> bool {
        (self.set.ipv4.node_count() <= self.set.ipv4.node_slots())
            & (self.set.ipv6.node_count() <= self.set.ipv6.node_slots())
    }
}

/// Makes a call that needs no second set and may fail. Any other call is passed on.
fn may_fail<const VERSION: u32, A: Allocator + Copy>(
    set: &mut JointPrefixSet<A>,
    case: &Case<'_, u32>,
) -> Result<bool, Refusal> {
    match case {
        Case::Inserts(at, _, before) | Case::InsertsVia(_, at, _, before) => {
            is_result(set.insert(network::<VERSION>(*at)), Ok(before.is_none()))
        }
        Case::ExceedsLimit(at, _) => is_result(
            set.insert(network::<VERSION>(*at)),
            Err(Refusal::IndexRange),
        ),
        Case::Shrinks(Shrinking::Compact) => is_result(set.compact(), Ok(())),
        Case::Shrinks(Shrinking::ShrinkToFit) => {
            is_result(set.shrink_to_fit().map_err(|_| Refusal::Memory), Ok(()))
        }
        _ => Ok(changes::<VERSION, A>(set, case)),
    }
}

/// Makes a call that cannot fail. Returns whether the result is that of a case.
fn changes<const VERSION: u32, A: Allocator>(
    set: &mut JointPrefixSet<A>,
    case: &Case<'_, u32>,
) -> bool {
    match case {
        Case::Removes(at, before) => set.remove(&network::<VERSION>(*at)) == before.is_some(),
        Case::RemovesKeepTree(at, before) => {
            set.remove_keep_tree(&network::<VERSION>(*at)) == before.is_some()
        }
        Case::RemovesEntry(at, _) => set.remove_keep_tree(&network::<VERSION>(*at)),
        Case::DropsChildren(at) => {
            set.drop_children(&network::<VERSION>(*at));
            true
        }
        Case::RetainsLong(len) => {
            retain_long_keys(&mut set.ipv4, *len);
            retain_long_keys(&mut set.ipv6, *len);
            true
        }
        Case::Clears => {
            set.clear();
            true
        }
        _ => is_as::<VERSION, A>(set, case),
    }
}

/// Returns whether a call that changes nothing has the result of a case.
fn is_as<const VERSION: u32, A: Allocator>(set: &JointPrefixSet<A>, case: &Case<'_, u32>) -> bool {
    match case {
        Case::Finds(at, exact, longest, shortest) => {
            let at = network::<VERSION>(*at);
            has_pair(set.get(&at), exact)
                & has_pair(set.get_lpm(&at), longest)
                & has_pair(set.get_spm(&at), shortest)
        }
        Case::Lists(entries) => gives(set.iter(), entries),
        Case::Len(len) => (set.len(), set.is_empty()) == (*len, *len == 0),
        _ if VERSION == 4 => has_nodes(&set.ipv4, case),
        _ => has_nodes(&set.ipv6, case),
    }
}

/// Returns whether the nodes and slots of one family are those of a case.
fn has_nodes<P: Prefix, A: Allocator>(set: &PrefixSet<P, A>, case: &Case<'_, u32>) -> bool {
    match case {
        Case::NodeCount(nodes) => set.node_count() == *nodes,
        Case::Slots(nodes, cells) => (set.node_slots(), set.cell_slots()) == (*nodes, *cells),
        // A set has no call for the sizes of its blocks.
        Case::NodeBlocks(..) | Case::CellBlocks(..) => true,
        _ => false,
    }
}

/// Returns whether the key of this entry was found.
fn has_pair(found: Option<IpPrefix>, entry: &Option<Entry<u32>>) -> bool {
    match (found, entry) {
        (Some(network), Some((pair, _))) => pair_of(network) == *pair,
        (None, None) => true,
        _ => false,
    }
}

/// Returns whether a walk returns the keys of these entries.
fn gives<A: Allocator>(mut walk: Iter<'_, A>, entries: &[Entry<u32>]) -> bool {
    for entry in entries {
        if !has_pair(walk.next(), &Some(*entry)) {
            return false;
        }
    }
    walk.next().is_none()
}
