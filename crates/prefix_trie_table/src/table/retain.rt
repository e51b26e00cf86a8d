//! Calling a test with entries, and removing those for which it returns `false`.
ghost use Rattle.std.specs.Prelude.{◌≡◌, ◌+◌, ◌/◌, ◌<◌, ◌≤◌, [], ◌∷◌, List, Bool, true, false, Some, All, take, length, ⊤};
ghost use Rattle.prefix_trie_bits.specs.Places.{place_of, value_bit, has};
ghost use Rattle.prefix_trie_bits.specs.Walks.{to_come};
ghost use Rattle.prefix_trie_bits.specs.Calls.Retaining.{CallableOnEachEntry};
ghost use Rattle.prefix_trie_bits.specs.Model.Selections.{listing};
ghost use Rattle.prefix_trie_bits.specs.Model.Step.{State};
ghost use Rattle.prefix_trie_table.specs.Walking.Walks.{IsPlaceOf};
ghost use Rattle.prefix_trie_table.specs.Retaining.{HasPlace, IsSite, PreservesBelow, RetainsIn, RetainsAll, MayAskAt};
ghost use Rattle.prefix_trie_table.specs.Tables.{IsTrie};

use crate::allocator::blocks::Cells;
use crate::allocator::node::{Node, NodeSlot, ROOT};
use crate::allocator::nodes::{NodeAllocator, VisitCounter};
use crate::table::removal::{drop_child, is_bare, take_value};
use prefix_trie_bits::node::{Place, Places, string_of};
use prefix_trie_bits::prefix::{BitString, Key};
use std::alloc::{AllocError, Allocator};

/// A test that is called with entries, and is given the values of those that it removes.
pub trait Keep<K: Key, T, V: VisitCounter>: Sized + Drop {
    // the test may be called with this key and this value
    ghost accepts: { Self → List Bool → T → Type 0 };

    // called with this key and this value, the test may return this and be left as this; after `false`, once it was
    // given the value
    ghost may_return: { Self → List Bool → T → Bool → Self → Type 0 };

    // called with this key and this value, the test may return `false`, and be left as this until it is given the value
    ghost refuses: { Self → List Bool → T → Self → Type 0 };

    /// Returns whether the entry of a bit string and its value stays.
    fn keeps(&mut self, path: &BitString<K>, value: &T) -> bool
        requires { accepts self.old path.now value.now }
        ensures yes { result ≡ true → may_return self.old path.now value.now true self.new }
        ensures no { result ≡ false → refuses self.old path.now value.now self.new };

    /// Takes the value of an entry for which `keeps` returned `false`. `counter` counts the nodes that this reads.
    fn taken(&mut self, path: &BitString<K>, value: T, counter: &mut V)
        requires { (before : Self) × refuses before path.now value self.old }
        ensures { (before : Self) → refuses before path.now value self.old
            → may_return before path.now value false self.new };
}

/// The position of a node: its slot in the array, and its path, the first `depth` bits of a key.
pub(super) struct Site<K: Key> {
    pub(super) slot: NodeSlot,
    pub(super) key: K,
    pub(super) depth: u32,
}

impl<K: Key> Copy for Site<K> {}

// A copy is the same site, and does not allocate.
impl<K: Key> Clone for Site<K> {
    ghost is_clone = { λ p q. q ≡ p };

    ghost is_infallible = { λ _. ⊤ };

    #[inline]
    fn clone(&self) -> Result<Self, AllocError> {
        Ok(*self)
    }
}

/// Calls the test with a value of a node, and removes the value if the test returns `false`.
///
/// Returns the node as it is then.
fn retain_value<K: Key, T: Drop, A: Allocator, V: VisitCounter, F: Keep<K, T, V>>(
    nodes: &mut NodeAllocator<A, V>,
    cells: &mut Cells<T, A>,
    entries: &mut usize,
    keep: &mut F,
    site: Site<K>,
    node: Node,
    bit: u32,
    counter: &mut V,
) -> Node
    requires trie { (s : State T) × IsTrie K.bit_width entries.old nodes.old cells.old s }
    requires site { IsSite K.IsKey K.bits K.bit_width nodes.old site node }
    requires bit { bit < 31 }
    requires set { has node.value_bitmap bit ≡ true }
    requires may_ask { (t : List Bool) → length t ≤ 4 → value_bit t ≡ bit
        → MayAskAt F.may_return F.accepts
        K.bit_width (take site.depth (K.bits site.key))
        (t ∷ []) keep.old entries.old nodes.old cells.old }
    ensures retains { (t : List Bool) → length t ≤ 4 → value_bit t ≡ bit
        → RetainsIn F.may_return F.accepts
        K.bit_width (take site.depth (K.bits site.key)) (t ∷ [])
        keep.old entries.old nodes.old cells.old keep.new entries.new nodes.new cells.new }
    ensures node { IsSite K.IsKey K.bits K.bit_width nodes.new site result }
    ensures preserves { PreservesBelow (site.depth / 5) nodes.old nodes.new cells.old cells.new }
{
    let (n, tail) = string_of(bit);
    let Some(value) = cells.at(node.value_seat(bit).slot).as_ref() else {
        unreachable!();
    };
    let key = site.key.extend(site.depth, n, tail);
    let path = BitString::new(key, site.depth + n);
    if keep.keeps(&path, value) {
        return node;
    }
    let (found, left) = take_value(nodes, cells, site.slot, node, bit);
    *entries -= 1;
    let Some(value) = found else {
        unreachable!();
    };
    keep.taken(&path, value, counter);
    left
}

/// Calls the test with what is at one place of a node, and returns the node as it is then.
///
/// Entries for which the test returns `false` are removed. A child that is left without values and children is removed
/// too.
#[cycle(retain)]
fn retain_place<K: Key, T: Drop, A: Allocator, V: VisitCounter, F: Keep<K, T, V>>(
    nodes: &mut NodeAllocator<A, V>,
    cells: &mut Cells<T, A>,
    entries: &mut usize,
    keep: &mut F,
    site: Site<K>,
    node: Node,
    place: Place,
    counter: &mut V,
) -> Node
    requires trie { (s : State T) × IsTrie K.bit_width entries.old nodes.old cells.old s }
    requires site { IsSite K.IsKey K.bits K.bit_width nodes.old site node }
    requires place { HasPlace node place }
    requires may_ask { (t : List Bool) → length t ≤ 5 → place ≡ place_of t
        → MayAskAt F.may_return F.accepts
        K.bit_width (take site.depth (K.bits site.key))
        (t ∷ []) keep.old entries.old nodes.old cells.old }
    ensures retains { (t : List Bool) → length t ≤ 5 → place ≡ place_of t
        → RetainsIn F.may_return F.accepts
        K.bit_width (take site.depth (K.bits site.key)) (t ∷ [])
        keep.old entries.old nodes.old cells.old keep.new entries.new nodes.new cells.new }
    ensures node { IsSite K.IsKey K.bits K.bit_width nodes.new site result }
    ensures preserves { PreservesBelow (site.depth / 5) nodes.old nodes.new cells.old cells.new }
{
    match place {
        Place::Value(bit) => retain_value(nodes, cells, entries, keep, site, node, bit, counter),
        Place::Child(child) => {
            let slot = node.child_slot(child);
            let below = Site {
                slot,
                key: site.key.extend(site.depth, 5, child),
                depth: site.depth + 5,
            };
            let lower = nodes.visit(slot, counter);
            let places = Places::new(lower.value_bitmap, lower.child_bitmap);
            let left = retain_places(nodes, cells, entries, keep, below, lower, places, counter);
            if is_bare(left) {
                drop_child(nodes, site.slot, child, counter)
            } else {
                node
            }
        }
    }
}

/// Calls the test with what is at these places of a node, in listing order. Returns the node as it is then.
#[cycle(retain)]
pub(super) fn retain_places<K: Key, T: Drop, A: Allocator, V: VisitCounter, F: Keep<K, T, V>>(
    nodes: &mut NodeAllocator<A, V>,
    cells: &mut Cells<T, A>,
    entries: &mut usize,
    keep: &mut F,
    site: Site<K>,
    node: Node,
    places: Places,
    counter: &mut V,
) -> Node
    requires trie { (s : State T) × IsTrie K.bit_width entries.old nodes.old cells.old s }
    requires site { IsSite K.IsKey K.bits K.bit_width nodes.old site node }
    requires each { All (IsPlaceOf node) (to_come places) }
    requires may_ask { MayAskAt F.may_return F.accepts
        K.bit_width (take site.depth (K.bits site.key))
        (to_come places) keep.old entries.old nodes.old cells.old }
    ensures retains { RetainsIn F.may_return F.accepts
        K.bit_width (take site.depth (K.bits site.key)) (to_come places)
        keep.old entries.old nodes.old cells.old keep.new entries.new nodes.new cells.new }
    ensures node { IsSite K.IsKey K.bits K.bit_width nodes.new site result }
    ensures preserves { PreservesBelow (site.depth / 5) nodes.old nodes.new cells.old cells.new }
{
    let mut node = node;
    let mut places = places;
    while let Some(place) = places.next_place() {
        node = retain_place(nodes, cells, entries, keep, site, node, place, counter);
    }
    node
}

/// Calls the test with each entry in listing order, and removes those that fail it.
///
/// All nodes that are left without values and children are removed too.
pub fn retain_entries<K: Key, T: Drop, A: Allocator, V: VisitCounter, F: Keep<K, T, V>>(
    nodes: &mut NodeAllocator<A, V>,
    cells: &mut Cells<T, A>,
    entries: &mut usize,
    keep: &mut F,
    counter: &mut V,
)
    requires trie { (s : State T) × IsTrie K.bit_width entries.old nodes.old cells.old s }
    requires may_ask { (s : State T) → IsTrie K.bit_width entries.old nodes.old cells.old s
        → CallableOnEachEntry F.may_return F.accepts keep.old (listing s.entries) }
    ensures kept { (s : State T) → IsTrie K.bit_width entries.old nodes.old cells.old s
        → RetainsAll F.may_return F.accepts
        K.bit_width keep.old s keep.new entries.new nodes.new cells.new }
    ensures preserves { PreservesBelow 0 nodes.old nodes.new cells.old cells.new }
{
    let site = Site {
        slot: ROOT,
        key: K::zero(),
        depth: 0,
    };
    let root = nodes.visit(ROOT, counter);
    let places = Places::new(root.value_bitmap, root.child_bitmap);
    retain_places(nodes, cells, entries, keep, site, root, places, counter);
}
