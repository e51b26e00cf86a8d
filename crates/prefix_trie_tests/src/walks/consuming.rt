//! Walks that consume a map: what callers learn, and when values are dropped.
ghost use Rattle.std.specs.Prelude.{◌≡◌, OnOk};
ghost use Rattle.prefix_trie.specs.Terms.{listing, put_all, prefix_pairs};

use crate::clones::TryClone;
use crate::contents::{self, adds};
use crate::drops::{Counted, drop_now};
use crate::refusing::Refusing;
use prefix_trie::map::{IntoIter, IntoKeys, IntoValues};
use prefix_trie::{Prefix, PrefixMap, Refused};
use std::alloc::{Allocator, Global};
use std::cell::Cell;

// Moves all entries of one map into another, and stops at the first error.
fn pour<P: Prefix, T: Drop, A: Allocator>(
    to: &mut PrefixMap<P, T, A>,
    from: PrefixMap<P, T, A>,
) -> Result<(), Refused<T>>
    ensures { OnOk result
        (to.new.entries
        ≡ put_all P.path (prefix_pairs P.back (listing from.entries)) to.old.entries) }
{
    for (prefix, value) in from {
        to.insert(prefix, value)?;
    }
    Ok(())
}

type Key = (u32, u8);

/// A key of eight bits.
pub type ShortKey = (u8, u8);

type CountedMap<'a, P> = PrefixMap<P, Counted<'a>, Global>;

/// More allocations than one clone makes.
const MANY: u64 = 100;

/// The keys of three values that count their drops. The first key contains the others.
const KEYS: [Key; 3] = [(0, 0), (0, 1), (0x8000_0000, 1)];

/// The keys of a chain. Each contains the next.
pub const CHAIN: [ShortKey; 3] = [(0, 0), (0, 1), (0, 8)];

/// Inserts three values. Returns whether each key is new.
fn insert_three<'a, P: Prefix + Copy>(
    map: &mut CountedMap<'a, P>,
    keys: &[P; 3],
    drops: &'a Cell<u64>,
) -> bool {
    for key in keys {
        if !adds(map, *key, Counted { drops }) {
            return false;
        }
    }
    true
}

/// Returns a map of three values.
pub fn map_of_three<'a, P: Prefix + Copy>(
    alloc: Global,
    keys: &[P; 3],
    drops: &'a Cell<u64>,
) -> Option<CountedMap<'a, P>> {
    let mut map = PrefixMap::new(alloc).ok()?;
    let is_filled = insert_three(&mut map, keys, drops);
    if is_filled { Some(map) } else { None }
}

/// A walk that consumes a map.
trait ConsumingWalk: TryClone {
    /// Drops the next item, if there is one.
    fn drop_next(&mut self);
}

impl<P: Prefix> ConsumingWalk for IntoIter<P, Counted<'_>, Global> {
    fn drop_next(&mut self) {
        drop_now(self.next());
    }
}

impl<P: Prefix> ConsumingWalk for IntoKeys<P, Counted<'_>, Global> {
    fn drop_next(&mut self) {
        drop_now(self.next());
    }
}

impl<P: Prefix> ConsumingWalk for IntoValues<P, Counted<'_>, Global> {
    fn drop_next(&mut self) {
        drop_now(self.next());
    }
}

/// Drops this many items of a walk.
fn take<W: ConsumingWalk>(walk: &mut W, count: u64) {
    for _ in 0..count {
        walk.drop_next();
    }
}

/// Returns the number of drops at three points of a walk and its clone.
///
/// These are after the walk yielded some items, after its clone yielded all others and was dropped, and after the walk
/// was dropped.
fn drops_of<W: ConsumingWalk>(
    mut walk: W,
    taken: u64,
    drops: &Cell<u64>,
) -> Option<(u64, u64, u64)> {
    take(&mut walk, taken);
    let first = drops.get();
    let mut copy = walk.try_clone().ok()?;
    take(&mut copy, 4);
    drop_now(copy);
    let second = drops.get();
    drop_now(walk);
    Some((first, second, drops.replace(0)))
}

/// Returns these numbers of drops for each walk.
fn drops_of_each_walk(alloc: Global, taken: u64) -> Option<[Option<(u64, u64, u64)>; 4]> {
    let drops = Cell::new(0);
    let items = drops_of(
        map_of_three(alloc, &KEYS, &drops)?.into_iter(),
        taken,
        &drops,
    );
    let part = map_of_three(alloc, &CHAIN, &drops)?.into_children(&(0, 1));
    let part = drops_of(part, taken, &drops);
    let keys = drops_of(
        map_of_three(alloc, &KEYS, &drops)?.into_keys(),
        taken,
        &drops,
    );
    let values = drops_of(
        map_of_three(alloc, &KEYS, &drops)?.into_values(),
        taken,
        &drops,
    );
    Some([items, part, keys, values])
}

/// Returns the number of drops after a walk yielded the first of three values, and after the walk was dropped.
fn drops_of_one_taken(alloc: Global) -> Option<(u64, u64)> {
    let drops = Cell::new(0);
    let mut walk = map_of_three(alloc, &KEYS, &drops)?.into_iter();
    take(&mut walk, 1);
    let first = drops.get();
    drop_now(walk);
    Some((first, drops.get()))
}

// The walk over the part has two items. The value above them is outside of the part.
#[test]
fn what_is_not_taken_is_dropped_with_the_walk(rt: HostRuntime) {
    let alloc = rt.alloc();
    assert!(rt; drops_of_one_taken(alloc) == Some((1, 3)));
    let none = Some((0, 3, 6));
    assert!(rt; drops_of_each_walk(alloc, 0) == Some([none, none, none, none]));
    let one = Some((1, 3, 5));
    assert!(rt; drops_of_each_walk(alloc, 1) == Some([one, one, one, one]));
    let two = Some((2, 3, 4));
    assert!(rt; drops_of_each_walk(alloc, 2) == Some([two, two, two, two]));
    let all = Some((3, 3, 3));
    assert!(rt; drops_of_each_walk(alloc, 4) == Some([all, two, all, all]));
}

/// Returns the number of drops after three values are inserted, one is replaced, one is removed, and all are cleared.
fn drops_of_calls<'a>(
    map: &mut CountedMap<'a, ShortKey>,
    drops: &'a Cell<u64>,
) -> Option<[u64; 4]> {
    let are_put = insert_three(map, &CHAIN, drops);
    let first = drops.get();
    let is_replaced = contents::put(map, (0, 1), Counted { drops }).is_ok();
    let second = drops.get();
    drop_now(map.remove_keep_tree(&(0, 0)));
    let third = drops.get();
    map.clear();
    (are_put & is_replaced).then_some([first, second, third, drops.get()])
}

/// Returns these numbers for a new map, and the number of drops after the map is dropped.
fn drops_of_map(alloc: Global) -> Option<([u64; 4], u64)> {
    let drops = Cell::new(0);
    let mut map = PrefixMap::new(alloc).ok()?;
    let during = drops_of_calls(&mut map, &drops)?;
    drop_now(map);
    Some((during, drops.get()))
}

/// Returns the number of drops after an insertion fails, after its value is dropped, and after the map is dropped.
fn drops_of_refused(alloc: Global) -> Option<[u64; 3]> {
    let drops = Cell::new(0);
    let mut map = PrefixMap::with_slot_limit(alloc, 1).ok()?;
    let answer = contents::put(&mut map, CHAIN[2], Counted { drops: &drops });
    let first = drops.get();
    let is_refused = answer.is_err();
    drop_now(answer);
    let second = drops.get();
    drop_now(map);
    is_refused.then_some([first, second, drops.get()])
}

/// A name with a counter of its drops. Cloning it allocates once.
#[derive(Clone, Drop)]
struct Named<'a, A: Allocator> {
    name: String<A>,
    counted: Counted<'a>,
}

type Names<'a, A> = PrefixMap<Key, Named<'a, A>, A>;

/// Inserts a name. Returns whether its key is new.
fn insert_name<'a, A: Allocator>(
    alloc: A,
    names: &mut Names<'a, A>,
    key: Key,
    drops: &'a Cell<u64>,
) -> bool {
    let Ok(name) = String::from_str(alloc, "name") else {
        return false;
    };
    let counted = Counted { drops };
    adds(names, key, Named { name, counted })
}

/// Inserts a name at each of the three keys. Returns whether each is new.
fn insert_names<'a, A: Allocator + Copy>(
    alloc: A,
    names: &mut Names<'a, A>,
    drops: &'a Cell<u64>,
) -> bool {
    for key in &KEYS {
        if !insert_name(alloc, names, *key, drops) {
            return false;
        }
    }
    true
}

/// Returns whether cloning fails. Drops the clone.
fn is_copy_refused<A: Allocator + Clone>(names: &Names<'_, A>) -> bool {
    let copy = names.clone();
    let is_refused = copy.is_err();
    drop_now(copy);
    is_refused
}

/// Returns the number of drops by clones that fail, each at another allocation, and by the first clone that succeeds.
fn drops_of_copies<A: Allocator + Clone>(
    heap: &Refusing<Global>,
    names: &Names<'_, A>,
    drops: &Cell<u64>,
) -> (u64, u64) {
    let mut by_refused = 0_u64;
    for passed in 0..MANY {
        heap.refuse(passed, 1);
        let is_refused = is_copy_refused(names);
        let dropped = drops.replace(0);
        if !is_refused {
            return (by_refused, dropped);
        }
        by_refused = by_refused.wrapping_add(dropped);
    }
    (by_refused, 0)
}

/// Returns these numbers for a map of three. A clone that fails at a name drops the names that were cloned by then:
/// none, one or two.
fn drops_of_copies_of_three<A: Allocator + Copy>(
    heap: &Refusing<Global>,
    alloc: A,
) -> Option<(u64, u64)> {
    let drops = Cell::new(0);
    let mut names = PrefixMap::new(alloc).ok()?;
    let are_put = insert_names(alloc, &mut names, &drops);
    let counts = drops_of_copies(heap, &names, &drops);
    are_put.then_some(counts)
}

#[test]
fn each_value_is_dropped_once(rt: HostRuntime) {
    let alloc = rt.alloc();
    assert!(rt; drops_of_map(alloc) == Some(([0, 1, 2, 4], 4)));
    assert!(rt; drops_of_refused(alloc) == Some([0, 1, 1]));
    let heap = Refusing::new(alloc);
    assert!(rt; drops_of_copies_of_three(&heap, &heap) == Some((3, 3)));
}
