//! Lookups by exact prefix, by longest match and by shortest match.
//!
//! Each lookup except `get_lpm_value` has a `*_counted` variant, which also returns how many nodes it read.
//! `get_counted`, `contains_key_counted`, `get_lpm_counted` and `get_spm_counted` make one counter and pass it to one
//! call of the table. The other variants call one of these four and return its counter. The plain lookups call their
//! variants and drop the counter, which costs nothing: `Visits` has no bytes.
ghost use Rattle.std.specs.Prelude.{◌≡◌, ◌≤◌, take, length, IfSome};
ghost use Rattle.std.specs.Option.{option_copied, option_map, is_some};
ghost use Rattle.std.specs.FinMap.{get, contains_key};
ghost use Rattle.prefix_trie_bits.specs.Model.Matches.{longest_match, shortest_match, prefix_pair};
ghost use Rattle.prefix_trie_bits.specs.Model.Visits.{ReadsPath, ReadsToMatch};
ghost use Rattle.prefix_trie_map.specs.Walks.{lent_item};

use crate::map::PrefixMap;
use crate::map::visits::Visits;
use prefix_trie_bits::prefix::{BitString, Key, Prefix};
use prefix_trie_table::table::seat::Location;
use std::alloc::Allocator;

impl<P: Prefix, T: Drop, A: Allocator> PrefixMap<P, T, A> {
    /// Returns the value stored for exactly this prefix.
    ///
    /// Host bits are ignored.
    ///
    /// # Examples
    ///
    /// ```rust
    /// // map = {10.1.0.0/16: 1}
    /// map.get(&"10.1.0.0/16".parse()?);       // Some(1)
    /// map.get(&"10.1.2.3/16".parse()?);       // Some(1): host bits do not count
    /// map.get(&"10.1.0.0/17".parse()?);       // None
    /// ```
    #[inline]
    pub fn get(&self, prefix: &P) -> Option<&T>
        requires { P.IsFitting prefix.now }
        ensures { option_copied result ≡ get self.now.entries (P.path prefix.now) }
    {
        self.get_counted(prefix).0
    }

    /// Returns the result of `get` and the number of nodes read.
    ///
    /// Each node on the prefix's search path is read once. These are at most `len / 5 + 1` nodes for a prefix of `len`
    /// bits.
    ///
    /// # Examples
    ///
    /// ```rust
    /// // map = {10.1.0.0/16: 1}
    /// map.get_counted(&"10.1.0.0/16".parse()?).0;     // Some(1): the call reads 4 nodes, of lengths 0, 5, 10 and 15
    /// ```
    #[inline]
    pub fn get_counted(&self, prefix: &P) -> (Option<&T>, Visits)
        requires { P.IsFitting prefix.now }
        ensures value { option_copied result.0 ≡ get self.now.entries (P.path prefix.now) }
        ensures reads { ReadsPath self.now.nodes (P.path prefix.now) result.1 }
    {
        let mut visits = Visits::new();
        let answer = self.table.find(prefix.path(), &mut visits);
        (answer, visits)
    }

    /// Returns whether a value is stored for exactly this prefix. Host bits are ignored.
    ///
    /// # Examples
    ///
    /// ```rust
    /// // map = {10.1.0.0/16: 1}
    /// map.contains_key(&"10.1.2.3/16".parse()?);      // true
    /// map.contains_key(&"10.1.0.0/17".parse()?);      // false
    /// ```
    #[inline]
    pub fn contains_key(&self, prefix: &P) -> bool
        requires { P.IsFitting prefix.now }
        ensures { result ≡ contains_key self.now.entries (P.path prefix.now) }
    {
        self.contains_key_counted(prefix).0
    }

    /// Returns the result of `contains_key` and the number of nodes read.
    ///
    /// It reads the same nodes as `get_counted`, and no value.
    #[inline]
    pub fn contains_key_counted(&self, prefix: &P) -> (bool, Visits)
        requires { P.IsFitting prefix.now }
        ensures value { result.0 ≡ contains_key self.now.entries (P.path prefix.now) }
        ensures reads { ReadsPath self.now.nodes (P.path prefix.now) result.1 }
    {
        let mut visits = Visits::new();
        match self.table.locate(prefix.path(), &mut visits) {
            Location::Stored(_) => (true, visits),
            Location::Missing(_) => (false, visits),
        }
    }

    /// Returns this prefix without its host bits, and the value stored for exactly this prefix.
    ///
    /// # Examples
    ///
    /// ```rust
    /// // map = {10.1.0.0/16: 1}
    /// map.get_key_value(&"10.1.2.3/16".parse()?);     // Some((10.1.0.0/16, 1))
    /// ```
    #[inline]
    pub fn get_key_value(&self, prefix: &P) -> Option<(P, &T)>
        requires { P.IsFitting prefix.now }
        ensures { option_map lent_item result
            ≡ option_map (λ value. (P.back (P.path prefix.now), value))
            (get self.now.entries (P.path prefix.now)) }
    {
        self.get_key_value_counted(prefix).0
    }

    /// Returns the result of `get_key_value` and the number of nodes read.
    ///
    /// It reads the same nodes as `get_counted`.
    #[inline]
    pub fn get_key_value_counted(&self, prefix: &P) -> (Option<(P, &T)>, Visits)
        requires { P.IsFitting prefix.now }
        ensures value { option_map lent_item result.0
            ≡ option_map (λ value. (P.back (P.path prefix.now), value))
            (get self.now.entries (P.path prefix.now)) }
        ensures reads { ReadsPath self.now.nodes (P.path prefix.now) result.1 }
    {
        let (value, visits) = self.get_counted(prefix);
        let pair = match value {
            Some(value) => Some((rebuilt(prefix.path()), value)),
            None => None,
        };
        (pair, visits)
    }

    /// Returns the longest stored prefix that contains this one, and its value.
    ///
    /// The prefix is returned without host bits. A stored prefix contains itself.
    ///
    /// # Examples
    ///
    /// ```rust
    /// // map = {10.0.0.0/8: 1, 10.1.0.0/16: 2}
    /// map.get_lpm(&"10.1.2.3/32".parse()?);       // Some((10.1.0.0/16, 2))
    /// map.get_lpm(&"10.2.0.0/16".parse()?);       // Some((10.0.0.0/8, 1))
    /// map.get_lpm(&"11.0.0.0/8".parse()?);        // None
    /// ```
    #[inline]
    pub fn get_lpm(&self, prefix: &P) -> Option<(P, &T)>
        requires { P.IsFitting prefix.now }
        ensures { option_map lent_item result
            ≡ prefix_pair P.back (longest_match self.now.entries (P.path prefix.now)) }
    {
        self.get_lpm_counted(prefix).0
    }

    /// Returns the result of `get_lpm` and the number of nodes read.
    ///
    /// Like `get_counted`, it reads each node on the prefix's search path once, even if a match was found further up.
    ///
    /// # Examples
    ///
    /// ```rust
    /// // map = {10.1.0.0/16: 1}
    /// map.get_lpm_counted(&"10.1.2.3/32".parse()?).0;     // Some((10.1.0.0/16, 1)): the call reads 4 nodes
    /// ```
    #[inline]
    pub fn get_lpm_counted(&self, prefix: &P) -> (Option<(P, &T)>, Visits)
        requires { P.IsFitting prefix.now }
        ensures value { option_map lent_item result.0
            ≡ prefix_pair P.back (longest_match self.now.entries (P.path prefix.now)) }
        ensures reads { ReadsPath self.now.nodes (P.path prefix.now) result.1 }
    {
        let mut visits = Visits::new();
        let path = prefix.path();
        let longest = self.table.find_longest(path.copy(), &mut visits);
        (rebuilt_match(&path, longest), visits)
    }

    /// Returns the value of the longest stored prefix that contains this one.
    ///
    /// Unlike `get_lpm`, it does not rebuild the prefix.
    ///
    /// # Examples
    ///
    /// ```rust
    /// // map = {10.0.0.0/8: 1, 10.1.0.0/16: 2}
    /// map.get_lpm_value(&"10.1.2.3/32".parse()?);     // Some(2)
    /// map.get_lpm_value(&"11.0.0.0/8".parse()?);      // None
    /// ```
    #[inline]
    pub fn get_lpm_value(&self, prefix: &P) -> Option<&T>
        requires { P.IsFitting prefix.now }
        ensures { option_copied result
            ≡ option_map (λ found. found.1) (longest_match self.now.entries (P.path prefix.now)) }
    {
        let longest = self.table.find_longest(prefix.path(), &mut Visits::new());
        value_of(longest)
    }

    /// Returns the longest stored prefix that contains this one, without its host bits.
    ///
    /// # Examples
    ///
    /// ```rust
    /// // map = {10.0.0.0/8: 1, 10.1.0.0/16: 2}
    /// map.get_lpm_prefix(&"10.1.2.3/32".parse()?);    // Some(10.1.0.0/16)
    /// map.get_lpm_prefix(&"11.0.0.0/8".parse()?);     // None
    /// ```
    #[inline]
    pub fn get_lpm_prefix(&self, prefix: &P) -> Option<P>
        requires { P.IsFitting prefix.now }
        ensures { result
            ≡ option_map (λ found. P.back found.0)
            (longest_match self.now.entries (P.path prefix.now)) }
    {
        self.get_lpm_prefix_counted(prefix).0
    }

    /// Returns the result of `get_lpm_prefix` and the number of nodes read.
    ///
    /// It reads the same nodes as `get_lpm_counted`.
    #[inline]
    pub fn get_lpm_prefix_counted(&self, prefix: &P) -> (Option<P>, Visits)
        requires { P.IsFitting prefix.now }
        ensures value { result.0
            ≡ option_map (λ found. P.back found.0)
            (longest_match self.now.entries (P.path prefix.now)) }
        ensures reads { ReadsPath self.now.nodes (P.path prefix.now) result.1 }
    {
        let (longest, visits) = self.get_lpm_counted(prefix);
        (prefix_of(longest), visits)
    }

    /// Returns the shortest stored prefix that contains this one, and its value.
    ///
    /// The prefix is returned without host bits. A stored prefix contains itself. `get_lpm` has an example of both.
    ///
    /// # Examples
    ///
    /// ```rust
    /// // map = {10.0.0.0/8: 1, 10.1.0.0/16: 2}
    /// map.get_spm(&"10.1.2.3/32".parse()?);       // Some((10.0.0.0/8, 1))
    /// map.get_spm(&"11.0.0.0/8".parse()?);        // None
    /// ```
    #[inline]
    pub fn get_spm(&self, prefix: &P) -> Option<(P, &T)>
        requires { P.IsFitting prefix.now }
        ensures { option_map lent_item result
            ≡ prefix_pair P.back (shortest_match self.now.entries (P.path prefix.now)) }
    {
        self.get_spm_counted(prefix).0
    }

    /// Returns the result of `get_spm` and the number of nodes read.
    ///
    /// It reads the nodes on the prefix's search path once each, down to the node that holds the match.
    ///
    /// # Examples
    ///
    /// ```rust
    /// // map = {10.0.0.0/8: 1, 10.1.0.0/16: 2}
    /// map.get_spm_counted(&"10.1.2.3/32".parse()?).0;     // Some((10.0.0.0/8, 1)): the call reads 2 nodes, of lengths 0 and 5
    /// ```
    #[inline]
    pub fn get_spm_counted(&self, prefix: &P) -> (Option<(P, &T)>, Visits)
        requires { P.IsFitting prefix.now }
        ensures value { option_map lent_item result.0
            ≡ prefix_pair P.back (shortest_match self.now.entries (P.path prefix.now)) }
        ensures reads { ReadsToMatch self.now.entries self.now.nodes (P.path prefix.now) result.1 }
    {
        let mut visits = Visits::new();
        let path = prefix.path();
        let shortest = self.table.find_shortest(path.copy(), &mut visits);
        (rebuilt_match(&path, shortest), visits)
    }

    /// Returns the shortest stored prefix that contains this one, without its host bits.
    ///
    /// # Examples
    ///
    /// ```rust
    /// // map = {10.0.0.0/8: 1, 10.1.0.0/16: 2}
    /// map.get_spm_prefix(&"10.1.2.3/32".parse()?);    // Some(10.0.0.0/8)
    /// map.get_spm_prefix(&"11.0.0.0/8".parse()?);     // None
    /// ```
    #[inline]
    pub fn get_spm_prefix(&self, prefix: &P) -> Option<P>
        requires { P.IsFitting prefix.now }
        ensures { result
            ≡ option_map (λ found. P.back found.0)
            (shortest_match self.now.entries (P.path prefix.now)) }
    {
        self.get_spm_prefix_counted(prefix).0
    }

    /// Returns the result of `get_spm_prefix` and the number of nodes read.
    ///
    /// It reads the same nodes as `get_spm_counted`.
    #[inline]
    pub fn get_spm_prefix_counted(&self, prefix: &P) -> (Option<P>, Visits)
        requires { P.IsFitting prefix.now }
        ensures value { result.0
            ≡ option_map (λ found. P.back found.0)
            (shortest_match self.now.entries (P.path prefix.now)) }
        ensures reads { ReadsToMatch self.now.entries self.now.nodes (P.path prefix.now) result.1 }
    {
        let (shortest, visits) = self.get_spm_counted(prefix);
        (prefix_of(shortest), visits)
    }

    /// Returns whether a stored prefix contains this one. A stored prefix contains itself.
    ///
    /// # Examples
    ///
    /// ```rust
    /// // map = {10.0.0.0/8: 1}
    /// map.is_covered(&"10.1.2.3/32".parse()?);    // true
    /// map.is_covered(&"11.0.0.0/8".parse()?);     // false
    /// ```
    #[inline]
    pub fn is_covered(&self, prefix: &P) -> bool
        requires { P.IsFitting prefix.now }
        ensures { result ≡ is_some (shortest_match self.now.entries (P.path prefix.now)) }
    {
        self.is_covered_counted(prefix).0
    }

    /// Returns the result of `is_covered` and the number of nodes read.
    ///
    /// It reads the same nodes as `get_spm_counted`.
    #[inline]
    pub fn is_covered_counted(&self, prefix: &P) -> (bool, Visits)
        requires { P.IsFitting prefix.now }
        ensures value { result.0 ≡ is_some (shortest_match self.now.entries (P.path prefix.now)) }
        ensures reads { ReadsToMatch self.now.entries self.now.nodes (P.path prefix.now) result.1 }
    {
        let (shortest, visits) = self.get_spm_counted(prefix);
        (shortest.is_some(), visits)
    }
}

/// Returns the prefix with a path, without host bits.
#[inline]
pub(super) fn rebuilt<P: Prefix>(path: BitString<P::R>) -> P
    ensures { result ≡ P.back path }
{
    let len = path.len();
    P::from_repr_len(path.key().keep(len), len as u8)
}

/// Returns a match of the table with the prefix in place of its length.
#[inline]
pub(super) fn rebuilt_match<'a, P: Prefix, T>(
    path: &BitString<P::R>,
    found: Option<(u32, &'a T)>,
) -> Option<(P, &'a T)>
    requires { IfSome found (λ f. f.0 ≤ length path.now) }
    ensures { option_map lent_item result
        ≡ option_map (λ f. (P.back (take f.0 path.now), f.1.now)) found.entry }
{
    match found {
        Some((len, value)) => Some((rebuilt(path.first(len)), value)),
        None => None,
    }
}

/// Returns the prefix of a match, without its value.
#[inline]
fn prefix_of<P: Prefix, T>(found: Option<(P, &T)>) -> Option<P>
    ensures { result ≡ option_map (λ f. f.0) found.entry }
{
    match found {
        Some((prefix, _)) => Some(prefix),
        None => None,
    }
}

/// Returns the value of a match, without its length.
#[inline]
pub(super) fn value_of<T>(found: Option<(u32, &T)>) -> Option<&T>
    ensures { option_copied result ≡ option_map (λ f. f.1.now) found.entry }
{
    match found {
        Some((_, value)) => Some(value),
        None => None,
    }
}
