//! Keeping the entries of both families that pass a test.
ghost use Rattle.std.specs.Prelude.{◌≡◌};
ghost use Rattle.prefix_trie_bits.specs.Calls.Retaining.{CallableOnEachEntry, RetainsEntries, RetainsEntriesTo};
ghost use Rattle.prefix_trie_map.specs.Calling.{CalledAtEntry, TakesEntry};
ghost use Rattle.prefix_trie.specs.Terms.{listing};
ghost use Rattle.prefix_trie_joint.specs.Changes.{maps_of, OnEach, RetainsNeeded};
ghost use Rattle.prefix_trie_joint.specs.Joined.{entries_of, under};
ghost use Rattle.prefix_trie_joint.specs.Networks.{ip_back};

use crate::map::JointPrefixMap;
use crate::prefix::IpPrefix;
use crate::prefix::family::Family;
use prefix_trie::PrefixMap;
use std::alloc::Allocator;

impl<T: Drop, A: Allocator> JointPrefixMap<T, A> {
    /// Calls a test with each entry once, in listing order, and keeps those for which it returns `true`.
    ///
    /// The test gets each network without host bits, the IPv4 networks first. Nodes that no remaining entry needs are
    /// removed. The call never fails.
    ///
    /// Requires that the test may be called with each entry, from each state in which the calls before may have left
    /// it. This always holds for a closure without a `requires`.
    ///
    /// # Examples
    ///
    /// ```rust
    /// // map = {10.0.0.0/8: 1, 10.1.0.0/16: 2, 2001:db8::/32: 3}
    /// map.retain(|prefix, value| prefix.prefix_len() > 8 && *value != 2);
    /// map.values();       // [3]
    /// ```
    pub fn retain<F: FnMut(&IpPrefix, &T) -> bool>(&mut self, test: F)
        requires { CallableOnEachEntry (CalledAtEntry F.FnMut ip_back)
            (TakesEntry F.FnMut ip_back) test (listing (entries_of self.old)) }
        ensures kept { RetainsEntries (CalledAtEntry F.FnMut ip_back) test
            (listing (entries_of self.old)) (listing (entries_of self.new)) }
        ensures storage { OnEach (λ width. RetainsNeeded) (maps_of self.old) (maps_of self.new) }
    {
        let mut test = test;
        self.retain_by_ref(&mut test);
    }

    /// Calls a test with each entry as `retain` does, and leaves the test in the state after the last call.
    ///
    /// So several maps can share one test and its state.
    ///
    /// Requires that the test may be called with each entry, from each state in which the calls before may have left
    /// it. This always holds for a closure without a `requires`.
    ///
    /// # Examples
    ///
    /// ```rust
    /// // map = {10.0.0.0/8: 1, 2001:db8::/32: 2}
    /// let mut called = false;
    /// let mut all_but_first = |_: &IpPrefix, _: &u32| std::mem::replace(&mut called, true);
    /// map.retain_by_ref(&mut all_but_first);
    /// map.values();       // [2]
    /// map.retain_by_ref(&mut all_but_first);
    /// map.values();       // [2]: the test was called before
    /// ```
    pub fn retain_by_ref<F: FnMut(&IpPrefix, &T) -> bool>(&mut self, test: &mut F)
        requires { CallableOnEachEntry (CalledAtEntry F.FnMut ip_back)
            (TakesEntry F.FnMut ip_back) test.old (listing (entries_of self.old)) }

        // `test.new` is the state after the last call.
        ensures kept { RetainsEntriesTo (CalledAtEntry F.FnMut ip_back) test.old
            (listing (entries_of self.old)) (listing (entries_of self.new)) test.new }
        ensures storage { OnEach (λ width. RetainsNeeded) (maps_of self.old) (maps_of self.new) }
    {
        retain_family(&mut self.ipv4, test);
        retain_family(&mut self.ipv6, test);
    }
}

// Calls the test with each entry of the map of one family.
fn retain_family<P: Family, T: Drop, A: Allocator, F: FnMut(&IpPrefix, &T) -> bool>(
    map: &mut PrefixMap<P, T, A>,
    test: &mut F,
)
    requires { CallableOnEachEntry (CalledAtEntry F.FnMut ip_back) (TakesEntry F.FnMut ip_back)
        test.old (under P.bit (listing map.old.entries)) }
    ensures kept { RetainsEntriesTo (CalledAtEntry F.FnMut ip_back) test.old
        (under P.bit (listing map.old.entries)) (under P.bit (listing map.new.entries)) test.new }
    ensures storage { RetainsNeeded map.old map.new }
{
    let mut by_network = |network: &P, value: &T|
        requires { (p : _) → p.now ≡ P.as_ip network.now → F.pre test.now p value }
        ensures { (p : _) × (p.now ≡ P.as_ip network.now)
            × F.step test.entry.now p value.entry result test.exit.now }
    { test(&network.to_ip(), value) };
    map.retain_by_ref(&mut by_network);
}
