//! Lookups that return a value for writing.
ghost use Rattle.std.specs.Prelude.{◌≡◌, ◌+◌, ◌/◌, ◌≤◌, length, take, MatchOption, IfSome, None, Some};
ghost use Rattle.std.specs.Option.{option_copied_mut, option_map};
ghost use Rattle.std.specs.Borrow.{sem};
ghost use Rattle.std.specs.FinMap.{get};
ghost use Rattle.prefix_trie_bits.specs.Model.Matches.{longest_match, prefix_pair};
ghost use Rattle.prefix_trie_bits.specs.Model.Visits.{visits, ReadsPath};
ghost use Rattle.prefix_trie_map.specs.Lending.{lends_entry_if, lends_longest_if, lent_beside};
ghost use Rattle.prefix_trie_map.specs.Walks.{lent_item_mut};

use crate::map::PrefixMap;
use crate::map::lookup::rebuilt;
use crate::map::visits::Visits;
use prefix_trie_bits::prefix::Prefix;
use std::alloc::Allocator;

impl<P: Prefix, T: Drop, A: Allocator> PrefixMap<P, T, A> {
    /// Returns the value stored for exactly this prefix, for writing.
    ///
    /// What is written through it becomes the stored value, and nothing else changes.
    ///
    /// # Examples
    ///
    /// ```rust
    /// // map = {10.1.0.0/16: 1}
    /// if let Some(value) = map.get_mut(&"10.1.0.0/16".parse()?) { *value = 2; }
    /// map.get(&"10.1.0.0/16".parse()?);       // Some(2)
    /// ```
    #[inline]
    pub fn get_mut(&mut self, prefix: &P) -> Option<&mut T>
        requires { P.IsFitting prefix.now }
        ensures* writes_back { sem 𝓛
            (lends_entry_if P.row T.row A.row P.R.row P.Prefix.own P.Debug P.R.Key.own P.R.PartialEq
            P.R.Debug A.Allocator self.entry (P.path prefix.now) result) }
        ensures value { option_copied_mut result ≡ get self.old.entries (P.path prefix.now) }
    {
        self.lend_entry(prefix, &mut Visits::new())
    }

    /// Returns the result of `get_mut` and the number of nodes read.
    ///
    /// It reads the same nodes as `get_counted`. Only the contract of `get_mut` tells a caller's proof what was
    /// written.
    #[inline]
    pub fn get_mut_counted(&mut self, prefix: &P) -> (Option<&mut T>, Visits)
        requires { P.IsFitting prefix.now }
        ensures* writes_back { sem 𝓛
            (lends_entry_if P.row T.row A.row P.R.row P.Prefix.own P.Debug P.R.Key.own P.R.PartialEq
            P.R.Debug A.Allocator self.entry (P.path prefix.now) result.0) }
        ensures value { option_copied_mut result.0 ≡ get self.old.entries (P.path prefix.now) }
        ensures reads { ReadsPath self.old.nodes (P.path prefix.now) result.1 }
    {
        let mut visits = Visits::new();
        let answer = self.lend_entry(prefix, &mut visits);
        (answer, visits)
    }

    // Returns the result of `get_mut`, and adds the number of nodes read to a counter.
    #[inline]
    fn lend_entry(&mut self, prefix: &P, counter: &mut Visits) -> Option<&mut T>
        requires { P.IsFitting prefix.now }
        ensures* writes_back { sem 𝓛
            (lends_entry_if P.row T.row A.row P.R.row P.Prefix.own P.Debug P.R.Key.own P.R.PartialEq
            P.R.Debug A.Allocator self.entry (P.path prefix.now) result) }
        ensures value { option_copied_mut result ≡ get self.old.entries (P.path prefix.now) }
        ensures exact { counter.new ≡ counter.old + visits self.old.nodes (P.path prefix.now) }
        ensures bound { counter.new ≤ counter.old + (length (P.path prefix.now) / 5 + 1) }
    {
        self.table.find_mut(prefix.path(), counter)
    }

    /// Returns the value of the longest stored prefix that contains this one, for writing.
    ///
    /// What is written through it becomes the stored value, and nothing else changes. Unlike `get_lpm_mut`, it does not
    /// rebuild the prefix.
    ///
    /// # Examples
    ///
    /// ```rust
    /// // map = {10.0.0.0/8: 1}
    /// if let Some(value) = map.get_lpm_value_mut(&"10.2.0.0/16".parse()?) { *value = 2; }
    /// map.get(&"10.0.0.0/8".parse()?);    // Some(2)
    /// ```
    #[inline]
    pub fn get_lpm_value_mut(&mut self, prefix: &P) -> Option<&mut T>
        requires { P.IsFitting prefix.now }
        ensures* writes_back { sem 𝓛
            (lends_longest_if P.row T.row A.row P.R.row P.Prefix.own P.Debug P.R.Key.own
            P.R.PartialEq P.R.Debug A.Allocator self.entry (P.path prefix.now) result) }
        ensures value { option_copied_mut result
            ≡ option_map (λ found. found.1) (longest_match self.old.entries (P.path prefix.now)) }
    {
        self.lend_longest(prefix, &mut 0, &mut Visits::new())
    }

    /// Returns the longest stored prefix that contains this one, and its value for writing.
    ///
    /// The prefix is returned without host bits. A stored prefix contains itself. What is written becomes the stored
    /// value, and nothing else changes. Only the contract of `get_lpm_value_mut` tells a caller's proof what was
    /// written.
    ///
    /// # Examples
    ///
    /// ```rust
    /// // map = {10.0.0.0/8: 1}
    /// if let Some((_network, value)) = map.get_lpm_mut(&"10.2.0.0/16".parse()?) { *value = 2; }
    /// map.iter();     // [(10.0.0.0/8, 2)]
    /// ```
    #[inline]
    pub fn get_lpm_mut(&mut self, prefix: &P) -> Option<(P, &mut T)>
        requires { P.IsFitting prefix.now }
        ensures* writes_back { sem 𝓛
            (lends_longest_if P.row T.row A.row P.R.row P.Prefix.own P.Debug P.R.Key.own
            P.R.PartialEq P.R.Debug A.Allocator self.entry (P.path prefix.now)
            (lent_beside result)) }
        ensures value { option_map lent_item_mut result
            ≡ prefix_pair P.back (longest_match self.old.entries (P.path prefix.now)) }
    {
        not_counted(self.get_lpm_mut_counted(prefix))
    }

    /// Returns the result of `get_lpm_mut` and the number of nodes read.
    ///
    /// It reads the same nodes as `get_counted`. Only the contract of `get_lpm_value_mut` tells a caller's proof what
    /// was written.
    #[inline]
    pub fn get_lpm_mut_counted(&mut self, prefix: &P) -> (Option<(P, &mut T)>, Visits)
        requires { P.IsFitting prefix.now }
        ensures* writes_back { sem 𝓛
            (lends_longest_if P.row T.row A.row P.R.row P.Prefix.own P.Debug P.R.Key.own
            P.R.PartialEq P.R.Debug A.Allocator self.entry (P.path prefix.now)
            (lent_beside result.0)) }
        ensures value { option_map lent_item_mut result.0
            ≡ prefix_pair P.back (longest_match self.old.entries (P.path prefix.now)) }
        ensures reads { ReadsPath self.old.nodes (P.path prefix.now) result.1 }
    {
        let mut visits = Visits::new();
        let mut found = 0;
        let value = self.lend_longest(prefix, &mut found, &mut visits);
        (beside(value, prefix, found), visits)
    }

    // Returns the result of `get_lpm_value_mut`. It writes the length of the match to `found`, and adds the number of
    // nodes read to a counter.
    #[inline]
    fn lend_longest(&mut self, prefix: &P, found: &mut u32, counter: &mut Visits) -> Option<&mut T>
        requires { P.IsFitting prefix.now }
        ensures* writes_back { sem 𝓛
            (lends_longest_if P.row T.row A.row P.R.row P.Prefix.own P.Debug P.R.Key.own
            P.R.PartialEq P.R.Debug A.Allocator self.entry (P.path prefix.now) result) }
        ensures value { MatchOption result
            (longest_match self.old.entries (P.path prefix.now) ≡ None)
            (λ value. longest_match self.old.entries (P.path prefix.now)
            ≡ Some (take found.new (P.path prefix.now), value.now)) }
        ensures within { IfSome result (λ value. found.new ≤ length (P.path prefix.now)) }
        ensures exact { counter.new ≡ counter.old + visits self.old.nodes (P.path prefix.now) }
        ensures bound { counter.new ≤ counter.old + (length (P.path prefix.now) / 5 + 1) }
    {
        self.table.find_longest_mut(prefix.path(), found, counter)
    }
}

// Returns a borrowed value with the prefix of the first `found` bits, without host bits.
#[inline]
fn beside<'a, P: Prefix, T>(
    value: Option<&'a mut T>,
    prefix: &P,
    found: u32,
) -> Option<(P, &'a mut T)>
    requires fits { P.IsFitting prefix.now }
    requires within { IfSome value (λ v. found ≤ length (P.path prefix.now)) }
    ensures lent { lent_beside result ≡ value.entry }
    ensures prefix { IfSome result (λ f. f.0 ≡ P.back (take found (P.path prefix.now))) }
{
    match value {
        Some(value) => Some((rebuilt(prefix.path().first(found)), value)),
        None => None,
    }
}

// Drops the counter.
// It is a function so that the body of `get_lpm_mut`, whose proof is written by hand, is two calls.
#[inline]
fn not_counted<'a, P, T>(counted: (Option<(P, &'a mut T)>, Visits)) -> Option<(P, &'a mut T)>
    ensures { result ≡ counted.entry.0 }
{
    counted.0
}
