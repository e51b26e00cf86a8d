//! Clones of maps, of sets and of the walks that consume them, with each allocation failing. Each value is cloned once.
use crate::cases::prefix_of;
use crate::cases::sets::adds_key;
use crate::contents::adds;
use crate::networks::v4;
use crate::refusing::Refusing;
use prefix_trie::map::{IntoIter, IntoKeys, IntoValues};
use prefix_trie::{Prefix, PrefixMap, PrefixSet};
use std::alloc::{AllocError, Allocator, Global};

/// More allocations than one clone makes.
const MANY: u64 = 100;

type Heap = Refusing<Global>;

type Key = (u32, u8);

/// A map of names. Cloning a name allocates once.
type Names<A> = PrefixMap<Key, String<A>, A>;

/// The walks that consume a map of names.
type Items<A> = IntoIter<Key, String<A>, A>;

type Keys<A> = IntoKeys<Key, String<A>, A>;

type Values<A> = IntoValues<Key, String<A>, A>;

/// A set of the keys, and the walk that consumes it.
type Set<A> = PrefixSet<Key, A>;

type SetKeys<A> = IntoKeys<Key, (), A>;

/// Three keys, and one that is not stored.
const KEYS: [Key; 4] = [
    v4!(10, 0, 0, 0; 8),
    v4!(10, 0, 0, 0; 9),
    v4!(10, 1, 0, 0; 24),
    v4!(0, 0, 0, 0; 0),
];

/// The names at the keys.
const NAMES: [&str; 3] = ["outer", "next", "inner"];

/// Returns the key at an index.
fn key_at(index: usize) -> Key
    ensures { ⟦<Key as Prefix>⟧.IsFitting result }
{
    prefix_of(KEYS[index % 4])
}

/// Inserts the three names. Returns whether each key is new.
fn put_names<A: Allocator + Copy>(alloc: A, names: &mut Names<A>) -> Result<bool, AllocError> {
    for (index, text) in NAMES.iter().enumerate() {
        let name = String::from_str(alloc, text)?;
        if !adds(names, key_at(index), name) {
            return Ok(false);
        }
    }
    Ok(true)
}

/// A value that can be cloned, unless an allocation fails.
pub trait TryClone: Drop {
    /// Clones the value.
    fn try_clone(&self) -> Result<Self, AllocError>;
}

impl<P: Prefix, T: Clone, A: Allocator + Clone> TryClone for PrefixMap<P, T, A> {
    fn try_clone(&self) -> Result<Self, AllocError> {
        self.clone()
    }
}

impl<P: Prefix, A: Allocator + Clone> TryClone for PrefixSet<P, A> {
    fn try_clone(&self) -> Result<Self, AllocError> {
        self.clone()
    }
}

impl<P: Prefix, T: Clone, A: Allocator + Clone> TryClone for IntoIter<P, T, A> {
    fn try_clone(&self) -> Result<Self, AllocError> {
        self.clone()
    }
}

impl<P: Prefix, T: Clone, A: Allocator + Clone> TryClone for IntoKeys<P, T, A> {
    fn try_clone(&self) -> Result<Self, AllocError> {
        self.clone()
    }
}

impl<P: Prefix, T: Clone, A: Allocator + Clone> TryClone for IntoValues<P, T, A> {
    fn try_clone(&self) -> Result<Self, AllocError> {
        self.clone()
    }
}

/// A map or set of the three names or keys, or a walk over them.
trait HasNames: TryClone {
    /// Returns whether it has or yields the item at an index, and at the fourth index none.
    fn yields(&mut self, index: usize) -> bool;
}

impl<A: Allocator + Clone> HasNames for Names<A> {
    fn yields(&mut self, index: usize) -> bool {
        is_name(self.get(&key_at(index)), index) & (self.len() == 3)
    }
}

impl<A: Allocator + Clone> HasNames for PrefixSet<Key, A> {
    fn yields(&mut self, index: usize) -> bool {
        (self.contains(&key_at(index)) == (index < 3)) & (self.len() == 3)
    }
}

impl<A: Allocator + Clone> HasNames for IntoIter<Key, String<A>, A> {
    fn yields(&mut self, index: usize) -> bool {
        match self.next() {
            Some((key, name)) => (key == key_at(index)) & is_name(Some(&name), index),
            None => index == 3,
        }
    }
}

impl<T: Clone, A: Allocator + Clone> HasNames for IntoKeys<Key, T, A> {
    fn yields(&mut self, index: usize) -> bool {
        match self.next() {
            Some(key) => (key == key_at(index)) & (index < 3),
            None => index == 3,
        }
    }
}

impl<A: Allocator + Clone> HasNames for IntoValues<Key, String<A>, A> {
    fn yields(&mut self, index: usize) -> bool {
        is_name(self.next().as_ref(), index)
    }
}

/// Returns whether this is the name at an index, or none after the last.
fn is_name<A: Allocator>(name: Option<&String<A>>, index: usize) -> bool {
    match name {
        Some(name) => NAMES.get(index) == Some(&name.as_str()),
        None => index == 3,
    }
}

/// A value that can be built. All later allocations fail.
trait BuildNames<A: Allocator + Copy>: HasNames {
    /// Builds one with all three items.
    fn build(heap: &Heap, alloc: A) -> Option<Self>;
}

impl<A: Allocator + Copy> BuildNames<A> for Names<A> {
    fn build(heap: &Heap, alloc: A) -> Option<Names<A>> {
        heap.refuse(0, 0);
        let mut names = PrefixMap::new(alloc).ok()?;
        let is_filled = put_names(alloc, &mut names) == Ok(true);
        heap.refuse(0, u64::MAX);
        if is_filled { Some(names) } else { None }
    }
}

impl<A: Allocator + Copy> BuildNames<A> for Items<A> {
    fn build(heap: &Heap, alloc: A) -> Option<Items<A>> {
        Some(Names::build(heap, alloc)?.into_iter())
    }
}

impl<A: Allocator + Copy> BuildNames<A> for Keys<A> {
    fn build(heap: &Heap, alloc: A) -> Option<Keys<A>> {
        Some(Names::build(heap, alloc)?.into_keys())
    }
}

impl<A: Allocator + Copy> BuildNames<A> for Values<A> {
    fn build(heap: &Heap, alloc: A) -> Option<Values<A>> {
        Some(Names::build(heap, alloc)?.into_values())
    }
}

impl<A: Allocator + Copy> BuildNames<A> for Set<A> {
    fn build(heap: &Heap, alloc: A) -> Option<Set<A>> {
        heap.refuse(0, 0);
        let mut set = PrefixSet::new(alloc).ok()?;
        let is_filled = put_keys(&mut set);
        heap.refuse(0, u64::MAX);
        if is_filled { Some(set) } else { None }
    }
}

impl<A: Allocator + Copy> BuildNames<A> for SetKeys<A> {
    fn build(heap: &Heap, alloc: A) -> Option<SetKeys<A>> {
        Some(Set::build(heap, alloc)?.into_iter())
    }
}

/// Returns whether it has or yields all items from an index on.
fn yields_from<W: HasNames>(named: &mut W, first: usize) -> bool {
    for index in first..4_usize {
        if !named.yields(index) {
            return false;
        }
    }
    true
}

/// Returns whether cloning fails exactly if an allocation does. All allocations after the first `passed` fail.
fn fails_from<W: HasNames>(heap: &Heap, named: &W, passed: u64) -> bool {
    heap.refuse(passed, u64::MAX);
    named.try_clone().is_err() == (heap.left() < u64::MAX)
}

/// Clones a value with each allocation failing, alone and with all later ones.
///
/// Returns the number of allocations, if each clone fails exactly if an allocation does. At last, the value and its
/// clone must have their items from an index on, without allocating.
fn copy_requests<W: HasNames>(heap: &Heap, mut named: W, first: usize) -> Option<u64> {
    let is_unasked = heap.left() == u64::MAX;
    for passed in 0..MANY {
        let is_refused = fails_from(heap, &named, passed);
        heap.refuse(passed, 1);
        let answer = named.try_clone();
        if !is_refused || answer.is_err() != (heap.left() == 0) {
            return None;
        }
        if let Ok(mut copy) = answer {
            heap.refuse(0, u64::MAX);
            let give_all = yields_from(&mut copy, first)
                & yields_from(&mut named, first)
                & (heap.left() == u64::MAX);
            return (is_unasked & give_all).then_some(passed);
        }
    }
    None
}

/// Returns the allocations of a clone of a new value, and of one that has yielded its first item.
fn requests<A: Allocator + Copy, W: BuildNames<A>>(
    heap: &Heap,
    alloc: A,
) -> (Option<u64>, Option<u64>) {
    (
        requests_of_new::<A, W>(heap, alloc),
        requests_after_first::<A, W>(heap, alloc),
    )
}

/// Returns the allocations of a clone of a new value.
fn requests_of_new<A: Allocator + Copy, W: BuildNames<A>>(heap: &Heap, alloc: A) -> Option<u64> {
    copy_requests(heap, W::build(heap, alloc)?, 0)
}

/// Returns the allocations of a clone of the walk over a map's part after its first name.
fn requests_of_part<A: Allocator + Copy>(heap: &Heap, alloc: A) -> Option<u64> {
    copy_requests(
        heap,
        Names::build(heap, alloc)?.into_children(&key_at(1)),
        1,
    )
}

/// Returns the allocations of a clone of a value that has yielded its first item.
fn requests_after_first<A: Allocator + Copy, W: BuildNames<A>>(
    heap: &Heap,
    alloc: A,
) -> Option<u64> {
    let mut named = W::build(heap, alloc)?;
    let is_given = named.yields(0);
    let requests = copy_requests(heap, named, 1)?;
    is_given.then_some(requests)
}

/// Inserts the three keys. Returns whether each is new.
fn put_keys<A: Allocator>(set: &mut PrefixSet<Key, A>) -> bool {
    for index in 0..3_usize {
        if !adds_key(set, key_at(index)) {
            return false;
        }
    }
    true
}

/// Returns whether cloning a map of names and cloning each walk that consumes it allocate equally often.
///
/// A walk that has yielded a name allocates once less.
fn maps_and_walks_agree<A: Allocator + Copy>(heap: &Heap, alloc: A) -> bool {
    let of_items = requests::<A, Items<A>>(heap, alloc);
    let of_two = of_items.1.unwrap_or(0);
    let of_three = Some(of_two.wrapping_add(1));
    (of_two > 2)
        & (of_items.0 == of_three)
        & (requests::<A, Names<A>>(heap, alloc) == (of_three, of_three))
        & (requests_of_part(heap, alloc) == of_three)
        & (requests::<A, Keys<A>>(heap, alloc) == of_items)
        & (requests::<A, Values<A>>(heap, alloc) == of_items)
}

/// Returns whether cloning a set and cloning the walk that consumes it allocate equally often, and at least once.
fn sets_and_walks_agree<A: Allocator + Copy>(heap: &Heap, alloc: A) -> bool {
    let of_set = requests::<A, Set<A>>(heap, alloc);
    (of_set.0.unwrap_or(0) > 0)
        & (of_set.1 == of_set.0)
        & (requests::<A, SetKeys<A>>(heap, alloc) == of_set)
}

#[test]
fn a_copy_fails_exactly_if_an_allocation_fails(rt: HostRuntime) {
    let heap = Refusing::new(rt.alloc());
    assert!(rt; maps_and_walks_agree(&heap, &heap));
    assert!(rt; sets_and_walks_agree(&heap, &heap));
}
