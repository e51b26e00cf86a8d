//! Keeping the entries that pass a test.
ghost use Rattle.std.specs.Prelude.{◌≡◌, false};
ghost use Rattle.prefix_trie_bits.specs.Calls.Retaining.{RetainsEntries, RetainsEntriesTo, CallableOnEachEntry, RetainsInStorage};
ghost use Rattle.prefix_trie_bits.specs.Calls.Entries.{AreWithin};
ghost use Rattle.prefix_trie_bits.specs.Calls.Nodes.{AreNodes};
ghost use Rattle.prefix_trie_bits.specs.Model.Nodes.{needed};
ghost use Rattle.prefix_trie_bits.specs.Model.Selections.{listing};
ghost use Rattle.prefix_trie_map.specs.Calling.{CalledAtEntry, CalledByReference, TakesEntry};
ghost use Rattle.prefix_trie_table.specs.Steps.{BoundsStorageGrowth};
ghost use Rattle.prefix_trie_map.specs.Steps.{storage, stored_state};
ghost use Rattle.prefix_trie_map.specs.Whole.{IsWhole};

use crate::map::PrefixMap;
use crate::map::lookup::rebuilt;
use crate::map::visits::Visits;
use prefix_trie_bits::prefix::{BitString, Prefix};
use prefix_trie_table::allocator::nodes::VisitCounter;
use prefix_trie_table::table::Table;
use prefix_trie_table::table::retain::Keep;
use std::alloc::Allocator;
use std::marker::PhantomData;

/// A test of prefixes and values that is lent, as a test of keys and values.
#[derive(Drop)]
struct ByPrefix<'a, P, F> {
    test: &'a mut F,
    marker: PhantomData<P>,
}

// The value of a removed entry is dropped.
impl<P: Prefix, T: Drop, V: VisitCounter, F: FnMut(&P, &T) -> bool + Drop> Keep<P::R, T, V>
    for ByPrefix<'_, P, F> {
    ghost accepts = { λ a. TakesEntry F.FnMut P.back a.test.now };

    ghost may_return = { λ a k v b a'. CalledByReference F.FnMut P.back a.test k v b a'.test };

    ghost refuses = { λ a k v a'. CalledByReference F.FnMut P.back a.test k v false a'.test };

    #[inline]
    fn keeps(&mut self, path: &BitString<P::R>, value: &T) -> bool {
        let prefix = rebuilt::<P>(path.copy());
        (self.test)(&prefix, value)
    }

    fn taken(&mut self, _path: &BitString<P::R>, _value: T, _counter: &mut V) {}
}

/// Calls the test with each entry of a map's table, and removes those for which it returns `false`.
fn retain_in_table<P: Prefix, T: Drop, A: Allocator, F: FnMut(&P, &T) -> bool>(
    table: &mut Table<T, A, Visits>,
    keep: &mut ByPrefix<P, F>,
)
    requires within { AreWithin P.R.bit_width table.old.entries }
    requires nodes { AreNodes P.R.bit_width table.old.entries table.old.nodes }
    requires may_ask { CallableOnEachEntry (CalledAtEntry F.FnMut P.back)
        (TakesEntry F.FnMut P.back) keep.old.test.now (listing table.old.entries) }
    ensures same_reference { keep.new.test.ghost_name ≡ keep.old.test.ghost_name }
    ensures kept { RetainsEntriesTo (CalledAtEntry F.FnMut P.back) keep.old.test.now
        (listing table.old.entries) (listing table.new.entries) keep.new.test.now }
    ensures step { RetainsInStorage (CalledAtEntry F.FnMut P.back) keep.old.test.now
        (stored_state table.old) (stored_state table.new) }
    ensures fits { AreWithin P.R.bit_width table.new.entries }
    ensures bounds_growth { BoundsStorageGrowth (storage table.old) (storage table.new) }
{
    table.retain::<P::R, ByPrefix<P, F>>(keep, &mut Visits::new());
}

impl<P: Prefix, T: Drop, A: Allocator> PrefixMap<P, T, A> {
    /// Calls a test with each entry once, in listing order, and keeps those for which it returns `true`.
    ///
    /// The test gets each prefix without host bits. Nodes that no remaining entry needs are removed. The call never
    /// fails: the arrays grow by at most 56 slots each for each node that there was.
    ///
    /// Requires that the test may be called with each entry, from each state in which the calls before may have left
    /// it. This always holds for a closure without a `requires`.
    ///
    /// # Examples
    ///
    /// ```rust
    /// // map = {10.0.0.0/8: 1, 10.1.0.0/16: 2, 10.1.2.0/24: 3}
    /// map.retain(|prefix, value| prefix.prefix_len() < 20 && *value != 1);
    /// map.keys();     // [10.1.0.0/16]
    /// ```
    pub fn retain<F: FnMut(&P, &T) -> bool>(&mut self, test: F)
        requires { CallableOnEachEntry (CalledAtEntry F.FnMut P.back)
            (TakesEntry F.FnMut P.back) test (listing self.old.entries) }
        ensures whole { IsWhole P.R.bit_width self.old }
        ensures kept { RetainsEntries (CalledAtEntry F.FnMut P.back) test (listing self.old.entries)
            (listing self.new.entries) }
        ensures nodes { self.new.nodes ≡ needed self.new.entries }

        // This is a step of the model, of the storage too. Each block that lost items has a size between the smallest
        // that holds the rest and its old one. No slot and no block is lost.
        ensures step { RetainsInStorage (CalledAtEntry F.FnMut P.back) test (stored_state self.old)
            (stored_state self.new) }

        // Over any number of calls, the arrays grow by at most the headroom that their blocks had (`growth_laws`).
        ensures bounds_growth { BoundsStorageGrowth (storage self.old) (storage self.new) }
    {
        let mut test = test;
        self.retain_by_ref(&mut test);
    }

    /// Calls a test with each entry as `retain` does, and leaves the test in the state after the last call.
    ///
    /// So several maps can share one test and its state.
    ///
    /// Requires that the test may be called with each entry, from each state in which the calls before may have left
    /// it. This always holds for a closure without a `requires`.
    ///
    /// # Examples
    ///
    /// ```rust
    /// // map = {10.0.0.0/8: 1, 10.1.0.0/16: 2}
    /// // other = {10.2.0.0/16: 3}
    /// let mut called = false;
    /// let mut all_but_first = |_: &Ipv4Prefix, _: &u32| std::mem::replace(&mut called, true);
    /// map.retain_by_ref(&mut all_but_first);
    /// other.retain_by_ref(&mut all_but_first);
    /// map.keys();         // [10.1.0.0/16]
    /// other.keys();       // [10.2.0.0/16]: the test was called before
    /// ```
    pub fn retain_by_ref<F: FnMut(&P, &T) -> bool>(&mut self, test: &mut F)
        requires { CallableOnEachEntry (CalledAtEntry F.FnMut P.back)
            (TakesEntry F.FnMut P.back) test.old (listing self.old.entries) }
        ensures whole { IsWhole P.R.bit_width self.old }

        // `test.new` is the state after the last call.
        ensures kept { RetainsEntriesTo (CalledAtEntry F.FnMut P.back) test.old
            (listing self.old.entries) (listing self.new.entries) test.new }
        ensures nodes { self.new.nodes ≡ needed self.new.entries }

        // This is a step of the model, as for `retain`.
        ensures step { RetainsInStorage (CalledAtEntry F.FnMut P.back) test.old
            (stored_state self.old) (stored_state self.new) }

        // Over any number of calls, the arrays grow by at most the headroom that their blocks had (`growth_laws`).
        ensures bounds_growth { BoundsStorageGrowth (storage self.old) (storage self.new) }
    {
        self.known_valid();
        let mut keep = ByPrefix::<P, F> {
            test,
            marker: PhantomData,
        };
        retain_in_table(&mut self.table, &mut keep);
    }
}
