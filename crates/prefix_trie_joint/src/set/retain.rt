//! Keeping the networks of a set that pass a test.
ghost use Rattle.std.specs.Prelude.{◌≡◌};
ghost use Rattle.prefix_trie_bits.specs.Calls.Retaining.{CallableOnEachEntry, RetainsEntries, RetainsEntriesTo};
ghost use Rattle.prefix_trie.specs.Sets.{CalledAtKey, TakesKey};
ghost use Rattle.prefix_trie.specs.Terms.{listing};
ghost use Rattle.prefix_trie_joint.specs.Changes.{sets_of, OnEach};
ghost use Rattle.prefix_trie_joint.specs.Joined.{keys_of, under};
ghost use Rattle.prefix_trie_joint.specs.Networks.{ip_back};
ghost use Rattle.prefix_trie_joint.specs.Retained.{RetainsKeys};

use crate::prefix::IpPrefix;
use crate::prefix::family::Family;
use crate::set::JointPrefixSet;
use prefix_trie::PrefixSet;
use std::alloc::Allocator;

impl<A: Allocator> JointPrefixSet<A> {
    /// Calls a test with each network once, in listing order, and keeps those for which it returns `true`.
    ///
    /// The test gets each network without host bits, the IPv4 networks first. Nodes that no remaining network needs are
    /// removed. The call never fails.
    ///
    /// Requires that the test may be called with each network, from each state in which the calls before may have left
    /// it. This always holds for a closure without a `requires`.
    ///
    /// # Examples
    ///
    /// ```rust
    /// // set = {10.0.0.0/8, 10.1.0.0/16, 2001:db8::/32}
    /// set.retain(|prefix| prefix.prefix_len() > 8);
    /// set.iter();     // [V4(10.1.0.0/16), V6(2001:0db8:0000:0000:0000:0000:0000:0000/32)]
    /// ```
    pub fn retain<F: FnMut(&IpPrefix) -> bool>(&mut self, test: F)
        requires { CallableOnEachEntry (CalledAtKey F.FnMut ip_back)
            (TakesKey F.FnMut ip_back) test (listing (keys_of self.old)) }
        ensures kept { RetainsEntries (CalledAtKey F.FnMut ip_back) test
            (listing (keys_of self.old)) (listing (keys_of self.new)) }
        ensures storage { OnEach (λ width. RetainsKeys) (sets_of self.old) (sets_of self.new) }
    {
        let mut test = test;
        self.retain_by_ref(&mut test);
    }

    /// Calls a test with each network as `retain` does, and leaves the test in the state after the last call.
    ///
    /// So several sets can share one test and its state.
    ///
    /// Requires that the test may be called with each network, from each state in which the calls before may have left
    /// it. This always holds for a closure without a `requires`.
    ///
    /// # Examples
    ///
    /// ```rust
    /// // set = {10.0.0.0/8, 2001:db8::/32}
    /// let mut called = false;
    /// let mut all_but_first = |_: &IpPrefix| std::mem::replace(&mut called, true);
    /// set.retain_by_ref(&mut all_but_first);
    /// set.len();      // 1
    /// set.retain_by_ref(&mut all_but_first);
    /// set.len();      // 1: the test was called before
    /// ```
    pub fn retain_by_ref<F: FnMut(&IpPrefix) -> bool>(&mut self, test: &mut F)
        requires { CallableOnEachEntry (CalledAtKey F.FnMut ip_back)
            (TakesKey F.FnMut ip_back) test.old (listing (keys_of self.old)) }

        // `test.new` is the state after the last call.
        ensures kept { RetainsEntriesTo (CalledAtKey F.FnMut ip_back) test.old
            (listing (keys_of self.old)) (listing (keys_of self.new)) test.new }
        ensures storage { OnEach (λ width. RetainsKeys) (sets_of self.old) (sets_of self.new) }
    {
        retain_family(&mut self.ipv4, test);
        retain_family(&mut self.ipv6, test);
    }
}

// Calls the test with each network of the set of one family.
fn retain_family<P: Family, A: Allocator, F: FnMut(&IpPrefix) -> bool>(
    set: &mut PrefixSet<P, A>,
    test: &mut F,
)
    requires { CallableOnEachEntry (CalledAtKey F.FnMut ip_back) (TakesKey F.FnMut ip_back)
        test.old (under P.bit (listing set.old.entries)) }
    ensures kept { RetainsEntriesTo (CalledAtKey F.FnMut ip_back) test.old
        (under P.bit (listing set.old.entries)) (under P.bit (listing set.new.entries)) test.new }
    ensures storage { RetainsKeys set.old set.new }
{
    let mut by_network = |network: &P|
        requires { (p : _) → p.now ≡ P.as_ip network.now → F.pre test.now p }
        ensures { (p : _) × (p.now ≡ P.as_ip network.now)
            × F.step test.entry.now p result test.exit.now }
    { test(&network.to_ip()) };
    set.retain_by_ref(&mut by_network);
}
