//! Longest matches of many prefixes in one call.
//!
//! Nodes of a group of prefixes are fetched together. If a table is larger than the caches, this takes less time than
//! separate lookups. No call here allocates.
ghost use Rattle.std.specs.Prelude.{◌≡◌, ◌+◌, ◌<◌, ◌≤◌, All, Bool, IfSome, List, Option, length, map, take};
ghost use Rattle.std.specs.Option.{option_copied, option_map};
ghost use Rattle.prefix_trie_bits.specs.Model.Matches.{longest_match, prefix_pair};
ghost use Rattle.prefix_trie_map.specs.Bulk.{HaveMatches, AreFound, ReadsMore, right_for, visits_of_all};
ghost use Rattle.prefix_trie_map.specs.Walks.{lent_item};

use crate::map::PrefixMap;
use crate::map::lookup::{rebuilt, value_of};
use crate::map::visits::Visits;
use prefix_trie_bits::prefix::{BitString, Prefix};
use prefix_trie_table::table::Table;
use prefix_trie_table::table::bulk::{FEW_NODES, Found, GROUP};
use std::alloc::Allocator;

impl<P: Prefix, T: Drop, A: Allocator> PrefixMap<P, T, A> {
    /// Finds the longest match of each prefix, as `get_lpm` does, in the order of the prefixes.
    ///
    /// Requires that `out` is as long as `prefixes`.
    ///
    /// # Examples
    ///
    /// ```rust
    /// // map = {10.0.0.0/8: 1, 10.1.0.0/16: 2}
    /// let mut out = [None, None];
    /// map.get_lpm_bulk(&["10.1.2.3/32".parse()?, "11.0.0.0/8".parse()?], &mut out);
    /// out.iter();     // [Some((10.1.0.0/16, 2)), None]
    /// ```
    #[inline]
    pub fn get_lpm_bulk<'a>(&'a self, prefixes: &[P], out: &mut [Option<(P, &'a T)>])
        requires fit { All P.IsFitting prefixes.now }
        requires same_length { length out.old ≡ length prefixes.now }
        ensures { map (option_map lent_item) out.new
            ≡ map (λ p. prefix_pair P.back (longest_match self.now.entries (P.path p)))
            prefixes.now }
    {
        self.get_lpm_bulk_counted(prefixes, out);
    }

    /// Does what `get_lpm_bulk` does, and returns the number of nodes read.
    ///
    /// The nodes on the search path of each prefix are read once for that prefix, as `get_lpm_counted` reads them.
    pub fn get_lpm_bulk_counted<'a>(
        &'a self,
        prefixes: &[P],
        out: &mut [Option<(P, &'a T)>],
    ) -> Visits
        requires fit { All P.IsFitting prefixes.now }
        requires same_length { length out.old ≡ length prefixes.now }
        ensures values { map (option_map lent_item) out.new
            ≡ map (λ p. prefix_pair P.back (longest_match self.now.entries (P.path p)))
            prefixes.now }
        ensures reads { result ≡ visits_of_all P.path self.now.nodes prefixes.now }
    {
        let mut visits = Visits::new();
        match_all(&self.table, prefixes, out, &mut visits);
        visits
    }

    /// Finds the value of the longest match of each prefix, in the order of the prefixes.
    ///
    /// Unlike `get_lpm_bulk`, it does not rebuild the prefixes of the matches. Requires that `out` is as long as
    /// `prefixes`.
    ///
    /// # Examples
    ///
    ///
    /// ```rust
    /// // map = {10.0.0.0/8: 1, 10.1.0.0/16: 2}
    /// let mut out = [None, None];
    /// map.get_lpm_value_bulk(&["10.1.2.3/32".parse()?, "11.0.0.0/8".parse()?], &mut out);
    /// out.iter();     // [Some(2), None]
    /// ```
    #[inline]
    pub fn get_lpm_value_bulk<'a>(&'a self, prefixes: &[P], out: &mut [Option<&'a T>])
        requires fit { All P.IsFitting prefixes.now }
        requires same_length { length out.old ≡ length prefixes.now }
        ensures { map option_copied out.new
            ≡ map (λ p. option_map (λ found. found.1) (longest_match self.now.entries (P.path p)))
            prefixes.now }
    {
        self.get_lpm_value_bulk_counted(prefixes, out);
    }

    /// Does what `get_lpm_value_bulk` does, and returns the number of nodes read.
    ///
    /// It reads the same nodes as `get_lpm_bulk_counted`.
    pub fn get_lpm_value_bulk_counted<'a>(
        &'a self,
        prefixes: &[P],
        out: &mut [Option<&'a T>],
    ) -> Visits
        requires fit { All P.IsFitting prefixes.now }
        requires same_length { length out.old ≡ length prefixes.now }
        ensures values { map option_copied out.new
            ≡ map (λ p. option_map (λ found. found.1) (longest_match self.now.entries (P.path p)))
            prefixes.now }
        ensures reads { result ≡ visits_of_all P.path self.now.nodes prefixes.now }
    {
        let mut visits = Visits::new();
        match_all(&self.table, prefixes, out, &mut visits);
        visits
    }
}

/// What a bulk lookup returns for a match of the table.
trait BulkResult<'a, P: Prefix, T>: Drop + Sized {
    type Shown;

    // what clauses see of a result
    ghost shows: { Self → Self.Shown };

    // the right result for this match, as clauses see it
    ghost right: { Option (List Bool × T) → Self.Shown };

    fn of_match(key: P::R, found: Option<(u32, &'a T)>) -> Self
        requires key { P.R.IsKey key }
        requires within { IfSome found (λ f. f.0 ≤ P.R.bit_width) }
        ensures { shows result
            ≡ right (option_map (λ f. (take f.0 (P.R.bits key), f.1.now)) found.entry) };
}

/// The prefix of the match, and its value.
impl<'a, P: Prefix, T> BulkResult<'a, P, T> for Option<(P, &'a T)> {
    type Shown = Option<(P, T)>;

    ghost shows = { option_map lent_item };

    ghost right = { prefix_pair P.back };

    #[inline(always)]
    fn of_match(key: P::R, found: Option<(u32, &'a T)>) -> Self {
        match found {
            Some((len, value)) => Some((rebuilt(BitString::new(key, len)), value)),
            None => None,
        }
    }
}

/// The value of the match alone.
impl<'a, P: Prefix, T> BulkResult<'a, P, T> for Option<&'a T> {
    type Shown = Option<T>;

    ghost shows = { option_copied };

    ghost right = { option_map (λ found. found.1) };

    #[inline(always)]
    fn of_match(_key: P::R, found: Option<(u32, &'a T)>) -> Self {
        value_of(found)
    }
}

/// Looks all prefixes up, one by one or in groups, whichever takes less time.
#[inline]
fn match_all<'a, P: Prefix, T: Drop, A: Allocator, X: BulkResult<'a, P, T>>(
    table: &'a Table<T, A, Visits>,
    prefixes: &[P],
    out: &mut [X],
    visits: &mut Visits,
)
    requires fit { All P.IsFitting prefixes.now }
    requires same_length { length out.old ≡ length prefixes.now }
    ensures results { map X.shows out.new
        ≡ map (right_for X.right P.path table.now.entries) prefixes.now }
    ensures visits { visits.new ≡ visits.old + visits_of_all P.path table.now.nodes prefixes.now }
{
    if table.node_slots() <= FEW_NODES {
        match_one_by_one(table, prefixes, out, visits);
    } else {
        match_in_groups(table, prefixes, out, visits);
    }
}

/// Looks the prefixes up one by one.
fn match_one_by_one<'a, P: Prefix, T: Drop, A: Allocator, X: BulkResult<'a, P, T>>(
    table: &'a Table<T, A, Visits>,
    prefixes: &[P],
    out: &mut [X],
    visits: &mut Visits,
)
    requires fit { All P.IsFitting prefixes.now }
    requires same_length { length out.old ≡ length prefixes.now }
    ensures results { map X.shows out.new
        ≡ map (right_for X.right P.path table.now.entries) prefixes.now }
    ensures visits { visits.new ≡ visits.old + visits_of_all P.path table.now.nodes prefixes.now }
{
    for i in 0..prefixes.len() {
        let path = prefixes[i].path();
        out[i] = X::of_match(path.key(), table.find_longest(path, visits));
    }
}

/// Looks the prefixes up group by group.
fn match_in_groups<'a, P: Prefix, T: Drop, A: Allocator, X: BulkResult<'a, P, T>>(
    table: &'a Table<T, A, Visits>,
    prefixes: &[P],
    out: &mut [X],
    visits: &mut Visits,
)
    requires fit { All P.IsFitting prefixes.now }
    requires same_length { length out.old ≡ length prefixes.now }
    ensures results { map X.shows out.new
        ≡ map (right_for X.right P.path table.now.entries) prefixes.now }
    ensures visits { visits.new ≡ visits.old + visits_of_all P.path table.now.nodes prefixes.now }
{
    let mut from = 0;
    'groups: while from < prefixes.len() {
        from += match_group(table, prefixes, from, out, visits);
    }
}

/// Finds the matches of the next group of prefixes, from an index on, and returns the size of the group.
fn find_group<P: Prefix, T: Drop, A: Allocator>(
    table: &Table<T, A, Visits>,
    prefixes: &[P],
    from: usize,
    found: &mut [Option<Found>],
    visits: &mut Visits,
) -> usize
    requires fit { All P.IsFitting prefixes.now }
    requires some { from < length prefixes.now }
    requires space { length found.old ≡ 32 }
    ensures group { (0 < result) × (result ≤ 32) × (from + result ≤ length prefixes.now) }
    ensures found { AreFound P.path table.now.build prefixes.now from result found.new }
    ensures visits { ReadsMore P.path table.now.nodes prefixes.now from
        (from + result) visits.old visits.new }
    ensures length { length found.new ≡ 32 }
{
    let count = (prefixes.len() - from).min(GROUP);
    table.find_longest_each(&prefixes[from..from + count], &mut found[..count], visits);
    count
}

/// Writes the results of the next group of prefixes, from an index on, and returns the size of the group.
fn match_group<'a, P: Prefix, T: Drop, A: Allocator, X: BulkResult<'a, P, T>>(
    table: &'a Table<T, A, Visits>,
    prefixes: &[P],
    from: usize,
    out: &mut [X],
    visits: &mut Visits,
) -> usize
    requires fit { All P.IsFitting prefixes.now }
    requires same_length { length out.old ≡ length prefixes.now }
    requires some { from < length prefixes.now }
    ensures group { (0 < result) × (from + result ≤ length prefixes.now) }
    ensures results { HaveMatches X.shows
        (right_for X.right P.path table.now.entries) prefixes.now out.old from
        → HaveMatches X.shows (right_for X.right P.path table.now.entries) prefixes.now out.new
        (from + result) }
    ensures visits { ReadsMore P.path table.now.nodes prefixes.now from
        (from + result) visits.old visits.new }
    ensures length { length out.new ≡ length out.old }
{
    let mut found = [None; GROUP];
    let count = find_group(table, prefixes, from, &mut found, visits);
    for i in 0..count {
        let path = prefixes[from + i].path();
        out[from + i] = X::of_match(path.key(), table.value_found(path, found[i]));
    }
    count
}
