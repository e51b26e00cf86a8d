//! Cases as calls of a set. Only the keys of the entries count.
use crate::cases::found::{as_pair, pair_of};
use crate::cases::under_test::{Shrinking, UnderTest, is_result, replaces};
use crate::cases::{Case, Entry, prefix_of};
use crate::retain::retain_long_keys;
use prefix_trie::set::Iter;
use prefix_trie::{Prefix, PrefixSet, Refusal};
use std::alloc::Allocator;
use std::mem;

/// Returns whether a walk returns these keys.
pub fn gives_keys<P: Prefix + Copy + PartialEq, A: Allocator>(
    walk: Iter<'_, P, A>,
    keys: &[P],
) -> bool {
    walk.eq(keys.iter().copied())
}

/// Inserts a prefix. It has no `ensures`, because each caller would check the clauses of `insert` again.
fn put<P: Prefix, A: Allocator>(set: &mut PrefixSet<P, A>, prefix: P) -> Result<bool, Refusal>
    requires { P.IsFitting prefix }
{
    set.insert(prefix)
}

/// Inserts a prefix. Returns whether it fits and is new.
pub fn adds_key<P: Prefix, A: Allocator>(set: &mut PrefixSet<P, A>, prefix: P) -> bool {
    prefix.fits() && put(set, prefix) == Ok(true)
}

/// Returns whether a walk returns the keys of these entries.
fn gives<P: Prefix + Copy, A: Allocator>(
    mut walk: Iter<'_, P, A>,
    entries: &[Entry<P::R>],
) -> bool {
    for entry in entries {
        if as_pair(walk.next()) != Some(entry.0) {
            return false;
        }
    }
    walk.next().is_none()
}

impl<P: Prefix + Copy + PartialEq, A: Allocator + Copy> UnderTest<P::R, A> for PrefixSet<P, A> {
    fn create(alloc: A, limit: Option<u32>) -> Result<Self, Refusal> {
        match limit {
            Some(slots) => PrefixSet::with_slot_limit(alloc, slots),
            None => PrefixSet::new(alloc),
        }
    }

    fn makes(
        &mut self,
        other: &mut Self,
        alloc: A,
        case: &Case<'_, P::R>,
    ) -> Result<bool, Refusal> {
        match case {
            Case::StartsAnew(limit) => replaces(self, Self::create(alloc, *limit)),
            Case::Copies => replaces(other, self.clone()),
            Case::AreSame => Ok(are_same(self, other)),
            Case::Swaps => {
                mem::swap(self, other);
                Ok(true)
            }
            _ => may_fail(self, case),
        }
    }

    fn slots_add_up(&self) -> bool {
        (self.node_count() <= self.node_slots()) & (self.len() <= self.cell_slots())
    }
}

/// Returns whether two sets have the same keys, nodes and slots.
fn are_same<P: Prefix + PartialEq, A: Allocator>(
    set: &PrefixSet<P, A>,
    other: &PrefixSet<P, A>,
) -> bool {
    (*set == *other)
        & (set.node_count() == other.node_count())
        & (set.node_slots() == other.node_slots())
        & (set.cell_slots() == other.cell_slots())
}

/// Makes a call that needs no second set and may fail. Any other call is passed on.
fn may_fail<P: Prefix + Copy, A: Allocator + Copy>(
    set: &mut PrefixSet<P, A>,
    case: &Case<'_, P::R>,
) -> Result<bool, Refusal> {
    match case {
        Case::Inserts(at, _, before) | Case::InsertsVia(_, at, _, before) => {
            is_result(put(set, prefix_of(*at)), Ok(before.is_none()))
        }
        Case::ExceedsLimit(at, _) => {
            is_result(put(set, prefix_of(*at)), Err(Refusal::IndexRange))
        }
        Case::Shrinks(Shrinking::Compact) => is_result(set.compact(), Ok(())),
        Case::Shrinks(Shrinking::ShrinkToFit) => {
            is_result(set.shrink_to_fit().map_err(|_| Refusal::Memory), Ok(()))
        }
        _ => Ok(changes(set, case)),
    }
}

/// Makes a call that cannot fail. Returns whether the result is that of a case.
fn changes<P: Prefix + Copy, A: Allocator>(
    set: &mut PrefixSet<P, A>,
    case: &Case<'_, P::R>,
) -> bool {
    match case {
        Case::Removes(at, before) => set.remove(&prefix_of(*at)) == before.is_some(),
        Case::RemovesKeepTree(at, before) => {
            set.remove_keep_tree(&prefix_of(*at)) == before.is_some()
        }
        Case::RemovesEntry(at, _) => set.remove_keep_tree(&prefix_of(*at)),
        Case::DropsChildren(at) => {
            set.drop_children(&prefix_of(*at));
            true
        }
        Case::RetainsLong(len) => {
            retain_long_keys(set, *len);
            true
        }
        Case::Clears => {
            set.clear();
            true
        }
        _ => is_as(set, case),
    }
}

/// Returns whether a call that changes nothing has the result of a case.
fn is_as<P: Prefix + Copy, A: Allocator>(set: &PrefixSet<P, A>, case: &Case<'_, P::R>) -> bool {
    match case {
        Case::Finds(at, exact, longest, shortest) => {
            finds(set, &prefix_of(*at), *exact, *longest, *shortest)
        }
        Case::Lists(entries) => gives(set.iter(), entries),
        Case::Len(len) => (set.len(), set.is_empty()) == (*len, *len == 0),
        Case::NodeCount(nodes) => set.node_count() == *nodes,
        Case::Slots(nodes, cells) => (set.node_slots(), set.cell_slots()) == (*nodes, *cells),
        // A set has no call for the sizes of its blocks.
        Case::NodeBlocks(..) | Case::CellBlocks(..) => true,
        _ => false,
    }
}

/// Returns whether the lookups of a prefix find the keys of these entries.
fn finds<P: Prefix + Copy, A: Allocator>(
    set: &PrefixSet<P, A>,
    prefix: &P,
    exact: Option<Entry<P::R>>,
    longest: Option<Entry<P::R>>,
    shortest: Option<Entry<P::R>>,
) -> bool
    requires { P.IsFitting prefix.now }
{
    has_pair(set.get(prefix), exact)
        & has_pair(set.get_lpm(prefix), longest)
        & has_pair(set.get_spm(prefix), shortest)
}

/// Returns whether the key of this entry was found.
fn has_pair<P: Prefix + Copy>(found: Option<P>, entry: Option<Entry<P::R>>) -> bool {
    match (found, entry) {
        (Some(prefix), Some((pair, _))) => pair_of(prefix) == pair,
        (None, None) => true,
        _ => false,
    }
}
