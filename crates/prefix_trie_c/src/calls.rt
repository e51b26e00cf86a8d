//! What the calls do with one map.
ghost use Rattle.std.specs.Prelude.{◌≡◌, length, map};
ghost use Rattle.std.specs.FinMap.{get};
ghost use Rattle.std.specs.Option.{option_map};
ghost use Rattle.prefix_trie.specs.Terms.{lent_item};
ghost use Rattle.prefix_trie_c.specs.Calls.{Gives, Inserts, InsertsEach, InsertsItem, Removes};
ghost use Rattle.prefix_trie_c.specs.Entries.{Fills, FillsContained, FillsCovers, Lists, Matches, MatchesShortest, found_match, found_value, match_of, replaced_value};

use crate::codes::{DONE, LENGTH, MISSING, code_of};
use crate::entries::{Address, Entry, FoundMatch, FoundValue, Replaced};
use prefix_trie::map::Iter;
use prefix_trie::{Prefix, PrefixMap};
use std::alloc::Global;

/// A map of a table.
type Map<P> = PrefixMap<P, u64, Global>;

/// Sets the value of a prefix and returns the one before.
pub(crate) fn replace<P: Prefix>(map: &mut Map<P>, prefix: P, value: u64) -> Replaced
    requires { P.IsFitting prefix }
    ensures inserted { Inserts P.R.bit_width (P.path prefix) value map.old map.new result.code }
    ensures before { result
        ≡ replaced_value result.code (get map.old.entries (P.path prefix)) }
{
    match map.insert(prefix, value) {
        Ok(before) => Replaced::of(DONE, before),
        Err(refused) => Replaced::of(code_of(refused.cause), None),
    }
}

/// Sets the value of a prefix.
pub(crate) fn insert<P: Prefix>(map: &mut Map<P>, prefix: P, value: u64) -> u32
    requires { P.IsFitting prefix }
    ensures { Inserts P.R.bit_width (P.path prefix) value map.old map.new result }
{
    replace(map, prefix, value).code
}

/// Removes the value of a prefix and writes it.
pub(crate) fn remove<P: Prefix>(map: &mut Map<P>, prefix: &P, value: &mut u64) -> u32
    requires { P.IsFitting prefix.now }
    ensures removed { Removes P.R.bit_width (P.path prefix.now) map.old map.new }
    ensures value { Gives (get map.old.entries (P.path prefix.now)) result value.old value.new }
{
    match map.remove(prefix) {
        Some(removed) => {
            *value = removed;
            DONE
        }
        None => MISSING,
    }
}

/// Returns the value of a prefix.
#[inline(always)]
pub(crate) fn find<P: Prefix>(map: &Map<P>, prefix: &P) -> FoundValue
    requires { P.IsFitting prefix.now }
    ensures { result ≡ found_value (get map.now.entries (P.path prefix.now)) }
{
    match map.get(prefix) {
        Some(value) => FoundValue {
            value: *value,
            code: DONE,
        },
        None => FoundValue::none(MISSING),
    }
}

/// Returns the value of the longest match of a prefix, and its length.
#[inline(always)]
pub(crate) fn find_match<P: Prefix>(map: &Map<P>, prefix: &P) -> FoundMatch
    requires { P.IsFitting prefix.now }
    ensures { result ≡ found_match P.len_of
        (match_of P.back map.now.entries (P.path prefix.now)) }
{
    match map.get_lpm(prefix) {
        Some((found, value)) => FoundMatch {
            value: *value,
            length: found.prefix_len(),
            code: DONE as u8,
        },
        None => FoundMatch::none(MISSING as u8),
    }
}

/// Writes the longest match of a prefix.
#[inline(always)]
pub(crate) fn find_longest<P: Prefix, E: Entry<P>>(map: &Map<P>, prefix: &P, entry: &mut E) -> u32
    requires { P.IsFitting prefix.now }
    ensures { Matches P.back map.now.entries E.made (P.path prefix.now) result entry.old entry.new }
{
    match map.get_lpm(prefix) {
        Some((found, value)) => {
            *entry = E::of(Some((found, *value)));
            DONE
        }
        None => MISSING,
    }
}

/// Writes the shortest match of a prefix.
pub(crate) fn find_shortest<P: Prefix, E: Entry<P>>(map: &Map<P>, prefix: &P, entry: &mut E) -> u32
    requires { P.IsFitting prefix.now }
    ensures { MatchesShortest P.back map.now.entries E.made (P.path prefix.now) result
        entry.old entry.new }
{
    match map.get_spm(prefix) {
        Some((found, value)) => {
            *entry = E::of(Some((found, *value)));
            DONE
        }
        None => MISSING,
    }
}

/// Returns a match with its value copied.
fn copied<P: Prefix>(found: Option<(P, &u64)>) -> Option<(P, u64)>
    ensures { result ≡ option_map lent_item found.entry }
{
    match found {
        Some((prefix, value)) => Some((prefix, *value)),
        None => None,
    }
}

/// Writes the longest match of each address.
pub(crate) fn find_longest_each<P: Prefix, A: Address<P>, E: Entry<P>>(
    routes: &Map<P>,
    addresses: &[A],
    entries: &mut [E],
)
    requires same_length { length entries.old ≡ length addresses.now }
    ensures { entries.new ≡ map (λ a. E.made (match_of P.back routes.now.entries
        (P.path (A.host_of a)))) addresses.now }
{
    for i in 0..addresses.len() {
        entries[i] = E::of(copied(routes.get_lpm(&addresses[i].host())));
    }
}

/// Inserts the items of an array in order, up to the first that fails, and writes how many it inserted.
pub(crate) fn insert_each<P: Prefix, E: Entry<P>>(
    routes: &mut Map<P>,
    entries: &[E],
    count: &mut usize,
) -> u32
    ensures { InsertsEach P.R.bit_width P.len_of P.path (map E.item_of entries.now)
        routes.old routes.new result count.new }
{
    for i in 0..entries.len() {
        let code = insert_item(routes, &entries[i]);
        if code != DONE {
            *count = i;
            return code;
        }
    }
    *count = entries.len();
    DONE
}

/// Inserts an item of an array.
fn insert_item<P: Prefix, E: Entry<P>>(map: &mut Map<P>, entry: &E) -> u32
    ensures { InsertsItem P.R.bit_width P.len_of P.path (E.item_of entry.now)
        map.old map.new result }
{
    match entry.item() {
        Some((prefix, value)) => insert(map, prefix, value),
        None => LENGTH,
    }
}

/// Writes the next entries of a walk, as many as there are and fit, and returns how many.
fn read<P: Prefix, E: Entry<P>>(walk: Iter<'_, P, u64, Global>, entries: &mut [E]) -> usize
    ensures { Lists E.made walk.entry result entries.old entries.new }
{
    let mut walk = walk;
    for i in 0..entries.len() {
        let Some((prefix, value)) = walk.next() else {
            return i;
        };
        entries[i] = E::of(Some((prefix, *value)));
    }
    entries.len()
}

/// Writes the next entries after a prefix, and returns how many.
pub(crate) fn read_after<P: Prefix, E: Entry<P>>(
    map: &Map<P>,
    prefix: &P,
    inclusive: bool,
    entries: &mut [E],
) -> usize
    requires { P.IsFitting prefix.now }
    ensures { Fills P.back map.now.entries E.made (P.path prefix.now) inclusive result
        entries.old entries.new }
{
    read(map.iter_from(prefix, inclusive), entries)
}

/// Writes the entries that a prefix contains, and returns how many.
pub(crate) fn read_contained<P: Prefix, E: Entry<P>>(
    map: &Map<P>,
    prefix: &P,
    entries: &mut [E],
) -> usize
    requires { P.IsFitting prefix.now }
    ensures { FillsContained P.back map.now.entries E.made (P.path prefix.now) result
        entries.old entries.new }
{
    read(map.children(prefix), entries)
}

/// Writes the entries whose prefixes contain a prefix, shortest first, and returns how many.
pub(crate) fn read_covers<P: Prefix, E: Entry<P>>(
    map: &Map<P>,
    prefix: &P,
    entries: &mut [E],
) -> usize
    requires { P.IsFitting prefix.now }
    ensures { FillsCovers P.back map.now.entries E.made (P.path prefix.now) result
        entries.old entries.new }
{
    let mut walk = map.cover(prefix);
    for i in 0..entries.len() {
        let Some((prefix, value)) = walk.next() else {
            return i;
        };
        entries[i] = E::of(Some((prefix, *value)));
    }
    entries.len()
}
