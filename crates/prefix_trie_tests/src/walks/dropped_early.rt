//! Walks that are dropped early, over values that count their drops, and tests with a state.
use crate::cases::sets::{adds_key, gives_keys};
use crate::contents::{has_keys, stores};
use crate::drops::{Counted, drop_now};
use crate::on_new::on_new;
use crate::retain::{keep_keys_where, keep_where};
use crate::walks::consuming::{CHAIN, ShortKey, map_of_three};
use prefix_trie::map::{IterMut, ValuesMut};
use prefix_trie::{PrefixMap, PrefixSet, Refusal};
use std::alloc::Global;
use std::cell::Cell;

/// Returns whether a walk yields this many items. The walk is then dropped.
fn gives<I: Iterator + Drop>(mut walk: I, count: usize) -> bool
where
    I::Item: Drop,
    requires { I.can_next walk }
{
    match count.checked_sub(1) {
        Some(last) => walk.nth(last).is_some(),
        None => true,
    }
}

/// Returns whether each walk over a map of three keys yields this many items.
fn are_read(map: &PrefixMap<ShortKey, Counted<'_>, Global>, count: usize) -> bool {
    gives(map.iter(), count)
        & gives(map.keys(), count)
        & gives(map.values(), count)
        & gives(map.iter_from(&(0, 0), true), count)
        & gives(map.children(&(0, 0)), count)
}

/// Returns whether each walk around the second key yields this many items.
fn are_covered(map: &PrefixMap<ShortKey, Counted<'_>, Global>, count: usize) -> bool {
    gives(map.cover(&(0, 1)), count)
        & gives(map.cover_keys(&(0, 1)), count)
        & gives(map.cover_values(&(0, 1)), count)
}

/// Returns whether each walk over a set of three keys, and each around the second key, yields this many items.
fn are_keys_read(set: &PrefixSet<ShortKey, Global>, count: usize) -> bool {
    gives(set.iter(), count)
        & gives(set.iter_from(&(0, 0), true), count)
        & gives(set.children(&(0, 0)), count)
        & gives(set.cover(&(0, 1)), count)
}

/// Replaces the next values of a walk.
fn replaces<'b, 'm, 'a>(
    walk: &'b mut IterMut<'m, ShortKey, Counted<'a>, Global>,
    drops: &'a Cell<u64>,
    count: u64,
) {
    for _ in 0..count {
        if let Some((_, value)) = walk.next() {
            *value = Counted { drops };
        }
    }
}

/// Replaces the next values of a walk over values.
fn replaces_values<'b, 'm, 'a>(
    walk: &'b mut ValuesMut<'m, ShortKey, Counted<'a>, Global>,
    drops: &'a Cell<u64>,
    count: u64,
) {
    for _ in 0..count {
        if let Some(value) = walk.next() {
            *value = Counted { drops };
        }
    }
}

/// Returns the number of drops by each mutable walk. Its first values are replaced, and then it is dropped.
fn drops_of_lending<'a>(
    map: &mut PrefixMap<ShortKey, Counted<'a>, Global>,
    drops: &'a Cell<u64>,
    count: u64,
) -> [u64; 4] {
    let mut walk = map.iter_mut();
    replaces(&mut walk, drops, count);
    let items = drops.replace(0);
    let mut walk = map.iter_from_mut(&(0, 0), true);
    replaces(&mut walk, drops, count);
    let from = drops.replace(0);
    let mut walk = map.children_mut(&(0, 0));
    replaces(&mut walk, drops, count);
    let below = drops.replace(0);
    let mut walk = map.values_mut();
    replaces_values(&mut walk, drops, count);
    [items, from, below, drops.replace(0)]
}

/// Returns the number of drops by walks over a new map that are dropped early, and then by dropping the map.
///
/// Returns `None` if a walk yields another number of items.
fn drops_of_early(alloc: Global, count: u8) -> Option<(u64, [u64; 4], u64)> {
    let drops = Cell::new(0);
    let mut map = map_of_three(alloc, &CHAIN, &drops)?;
    let is_given = are_read(&map, usize::from(count)) & are_covered(&map, usize::from(count));
    let reading = drops.get();
    let lending = drops_of_lending(&mut map, &drops, u64::from(count));
    drop_now(map);
    is_given.then_some((reading, lending, drops.get()))
}

#[test]
fn walks_dropped_early_drop_no_stored_value(rt: HostRuntime) {
    let alloc = rt.alloc();
    assert!(rt; drops_of_early(alloc, 0) == Some((0, [0, 0, 0, 0], 3)));
    assert!(rt; drops_of_early(alloc, 1) == Some((0, [1, 1, 1, 1], 3)));
    assert!(rt; drops_of_early(alloc, 2) == Some((0, [2, 2, 2, 2], 3)));
    for count in 0..3_usize {
        assert!(rt;
            is_consumed_early(alloc, count) == Ok(true),
            "a set after {count}"
        );
    }
}

/// Keeps every second key of a map, from the first on.
fn keep_each_second(map: &mut PrefixMap<ShortKey, u64, Global>) {
    let mut is_kept = false;
    keep_where(map, |_, _| {
        is_kept = !is_kept;
        is_kept
    });
}

/// Keeps every second key of a set, from the first on.
fn keep_each_second_key(set: &mut PrefixSet<ShortKey, Global>) {
    let mut is_kept = false;
    keep_keys_where(set, |_| {
        is_kept = !is_kept;
        is_kept
    });
}

/// Returns whether the first and the third of three keys are kept in a map.
fn is_kept(map: &mut PrefixMap<ShortKey, u64, Global>, _: ()) -> bool {
    let is_filled = stores(map, &[((0, 0), 1), ((0, 1), 2), ((0, 8), 3)]);
    keep_each_second(map);
    is_filled & has_keys(map, &[(0, 0), (0, 8)])
}

/// Inserts three keys into a set. Returns whether each is new.
fn adds_three(set: &mut PrefixSet<ShortKey, Global>) -> bool {
    adds_key(set, CHAIN[0]) & adds_key(set, CHAIN[1]) & adds_key(set, CHAIN[2])
}

/// Returns whether the first and the third of three keys are kept in a set, after its walks are dropped early.
fn is_kept_in_set(set: &mut PrefixSet<ShortKey, Global>, _: ()) -> bool {
    let is_filled = adds_three(set);
    let is_given = are_keys_read(set, 0) & are_keys_read(set, 1) & are_keys_read(set, 2);
    keep_each_second_key(set);
    is_filled & is_given & gives_keys(set.iter(), &[(0, 0), (0, 8)])
}

/// Returns whether the walk that consumes a new set of three yields this many items. The walk is then dropped.
fn is_consumed_early(alloc: Global, count: usize) -> Result<bool, Refusal> {
    let mut set = PrefixSet::new(alloc)?;
    let is_filled = adds_three(&mut set);
    Ok(is_filled & gives(set.into_iter(), count))
}

#[test]
fn retain_calls_its_test_once_in_order(rt: HostRuntime) {
    assert!(rt; on_new(PrefixMap::new(rt.alloc()), (), is_kept) == Ok(true));
    assert!(rt; on_new(PrefixSet::new(rt.alloc()), (), is_kept_in_set) == Ok(true));
}
