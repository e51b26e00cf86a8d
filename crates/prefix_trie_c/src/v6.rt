//! The calls for IPv6. An address is passed as its first and its last 64 bits.
ghost use Rattle.std.specs.Prelude.{◌≡◌, None, false, length, map};
ghost use Rattle.std.specs.FinMap.{get, len};
ghost use Rattle.prefix_trie.specs.Terms.{ipv6_back, ipv6_path};
ghost use Rattle.prefix_trie_c.specs.Calls.{Gives, Inserts, InsertsEach, OnPrefix, OnTables, Removes};
ghost use Rattle.prefix_trie_c.specs.Entries.{Fills, FillsContained, FillsCovers, Matches, MatchesShortest, found_match, found_value, match_of, replaced_value, v6_entry, v6_item, v6_path};
ghost use Rattle.prefix_trie_c.specs.declared.codes.TheConstants.{COUNTS, DONE};

use crate::calls;
use crate::codes::{COUNTS, DONE, LENGTH, NULL};
use crate::entries::{FoundMatch, FoundValue, Replaced, V6Address, V6Entry, joined};
use crate::handle::Handle;
use core::mem::replace_with;
use prefix_trie::Ipv6Prefix;
use std::alloc::Global;

/// Sets the value of a network.
#[unsafe(no_mangle)]
pub extern "C" fn prefix_trie_c_v6_insert(
    handle: &mut Handle,
    alloc: Global,
    high: u64,
    low: u64,
    length: u8,
    value: u64,
) -> u32
    ensures answer { OnPrefix 128 length handle.old handle.new result
        (λ t u. Inserts 128 (v6_path high low length) value t.v6 u.v6 result
        × (u.v4 ≡ t.v4)) }
{
    let Some(prefix) = Ipv6Prefix::new(joined(high, low), length) else {
        return LENGTH;
    };
    let Some(mut tables) = handle.open(alloc) else {
        return NULL;
    };
    let code = calls::insert(&mut tables.as_mut().v6, prefix, value);
    handle.close(tables);
    code
}

/// Sets the value of a network, and returns the value that it had.
#[unsafe(no_mangle)]
pub extern "C" fn prefix_trie_c_v6_replace(
    handle: &mut Handle,
    alloc: Global,
    high: u64,
    low: u64,
    length: u8,
    value: u64,
) -> Replaced
    ensures answer { OnPrefix 128 length handle.old handle.new result.code
        (λ t u. Inserts 128 (v6_path high low length) value t.v6 u.v6 result.code
        × (u.v4 ≡ t.v4)
        × (result ≡ replaced_value result.code (get t.v6.entries (v6_path high low length)))) }
    ensures none { (result.code ≡ DONE → ⊥) → (result.value ≡ 0) × (result.found ≡ false) }
{
    let Some(prefix) = Ipv6Prefix::new(joined(high, low), length) else {
        return Replaced::of(LENGTH, None);
    };
    let Some(mut tables) = handle.open(alloc) else {
        return Replaced::of(NULL, None);
    };
    let replaced = calls::replace(&mut tables.as_mut().v6, prefix, value);
    handle.close(tables);
    replaced
}

/// Sets the values of the networks of an array in order, up to the first that fails, and writes how many it set to `count`.
#[unsafe(no_mangle)]
pub extern "C" fn prefix_trie_c_v6_insert_all(
    handle: &mut Handle,
    alloc: Global,
    entries: &[V6Entry],
    count: &mut usize,
) -> u32
    ensures answer { OnTables handle.old handle.new result
        (λ t u. InsertsEach 128 (λ network. network.1) ipv6_path (map v6_item entries.now) t.v6 u.v6
        result count.new
        × (u.v4 ≡ t.v4)) }
    ensures none { handle.old.tables ≡ None → count.new ≡ count.old }
{
    let Some(mut tables) = handle.open(alloc) else {
        return NULL;
    };
    let code = calls::insert_each(&mut tables.as_mut().v6, entries, count);
    handle.close(tables);
    code
}

/// Removes the value of a network, and writes it to `value`.
#[unsafe(no_mangle)]
pub extern "C" fn prefix_trie_c_v6_remove(
    handle: &mut Handle,
    alloc: Global,
    high: u64,
    low: u64,
    length: u8,
    value: &mut u64,
) -> u32
    ensures answer { OnPrefix 128 length handle.old handle.new result
        (λ t u. Removes 128 (v6_path high low length) t.v6 u.v6
        × (u.v4 ≡ t.v4)
        × Gives (get t.v6.entries (v6_path high low length)) result value.old value.new) }
    ensures kept { (result ≡ DONE → ⊥) → value.new ≡ value.old }
{
    let Some(prefix) = Ipv6Prefix::new(joined(high, low), length) else {
        return LENGTH;
    };
    let Some(mut tables) = handle.open(alloc) else {
        return NULL;
    };
    let code = calls::remove(&mut tables.as_mut().v6, &prefix, value);
    handle.close(tables);
    code
}

/// Returns the value of a network.
#[unsafe(no_mangle)]
pub extern "C" fn prefix_trie_c_v6_get(
    handle: &mut Handle,
    alloc: Global,
    high: u64,
    low: u64,
    length: u8,
) -> FoundValue
    ensures answer { OnPrefix 128 length handle.old handle.new result.code
        (λ t u. (u ≡ t) × (result ≡ found_value (get t.v6.entries (v6_path high low length)))) }
    ensures none { (result.code ≡ DONE → ⊥) → result.value ≡ 0 }
{
    let Some(prefix) = Ipv6Prefix::new(joined(high, low), length) else {
        return FoundValue::none(LENGTH);
    };
    if handle.is_empty(alloc) {
        return FoundValue::none(NULL);
    }
    replace_with(handle, (alloc, prefix), find)
}

/// Finds the value of a network, and returns the handle with it.
// Unlike `open`, it leaves no empty handle in the place of this one, so the place is written once.
#[inline(always)]
fn find(handle: Handle, asked: (Global, Ipv6Prefix)) -> (Handle, FoundValue)
    ensures answer { OnTables handle result.0 result.1.code
        (λ t u. (u ≡ t) × (result.1 ≡ found_value (get t.v6.entries (ipv6_path asked.1)))) }
    ensures none { (result.1.code ≡ DONE → ⊥) → result.1.value ≡ 0 }
{
    let (alloc, network) = asked;
    let Some(mut tables) = handle.into_loose() else {
        return (Handle::empty(alloc), FoundValue::none(NULL));
    };
    let found = calls::find(&tables.as_mut().v6, &network);
    (Handle::of_loose(tables), found)
}

/// Writes the number of networks to `count`.
#[unsafe(no_mangle)]
pub extern "C" fn prefix_trie_c_v6_len(handle: &mut Handle, alloc: Global, count: &mut usize) -> u32
    ensures answer { OnTables handle.old handle.new result
        (λ t u. (u ≡ t) × (result ≡ DONE) × (count.new ≡ len t.v6.entries)) }
    ensures kept { (result ≡ DONE → ⊥) → count.new ≡ count.old }
{
    let Some(mut tables) = handle.open(alloc) else {
        return NULL;
    };
    *count = tables.as_mut().v6.len();
    handle.close(tables);
    DONE
}

/// Writes the longest match of a network, and its value, to `entry`.
#[unsafe(no_mangle)]
pub extern "C" fn prefix_trie_c_v6_match(
    handle: &mut Handle,
    alloc: Global,
    high: u64,
    low: u64,
    length: u8,
    entry: &mut V6Entry,
) -> u32
    ensures answer { OnPrefix 128 length handle.old handle.new result
        (λ t u. (u ≡ t)
        × Matches ipv6_back t.v6.entries v6_entry (v6_path high low length) result
        entry.old entry.new) }
    ensures kept { (result ≡ DONE → ⊥) → entry.new ≡ entry.old }
{
    if length == 128 {
        return match_network(handle, alloc, Ipv6Prefix::host(joined(high, low)), entry);
    }
    match_shorter(handle, alloc, high, low, length, entry)
}

/// Writes the longest match of a network.
// An address has a constant length, so the compiler leaves out the tests of the length.
#[inline(always)]
fn match_network(
    handle: &mut Handle,
    alloc: Global,
    network: Ipv6Prefix,
    entry: &mut V6Entry,
) -> u32
    ensures answer { OnTables handle.old handle.new result
        (λ t u. (u ≡ t)
        × Matches ipv6_back t.v6.entries v6_entry (ipv6_path network) result
        entry.old entry.new) }
    ensures kept { (result ≡ DONE → ⊥) → entry.new ≡ entry.old }
{
    let Some(mut tables) = handle.open(alloc) else {
        return NULL;
    };
    let code = calls::find_longest(&tables.as_mut().v6, &network, entry);
    handle.close(tables);
    code
}

/// Writes the longest match of a network that is not one address.
// It is a function apart, with the parameters of the export, so that the export jumps to it and saves no registers for it.
#[inline(never)]
fn match_shorter(
    handle: &mut Handle,
    alloc: Global,
    high: u64,
    low: u64,
    length: u8,
    entry: &mut V6Entry,
) -> u32
    ensures answer { OnPrefix 128 length handle.old handle.new result
        (λ t u. (u ≡ t)
        × Matches ipv6_back t.v6.entries v6_entry (v6_path high low length) result
        entry.old entry.new) }
    ensures kept { (result ≡ DONE → ⊥) → entry.new ≡ entry.old }
{
    match Ipv6Prefix::new(joined(high, low), length) {
        Some(network) => match_network(handle, alloc, network, entry),
        None => LENGTH,
    }
}

/// Returns the value of the longest match of an address, and the length of its network.
///
/// The network is that of the first bits of the address.
#[unsafe(no_mangle)]
pub extern "C" fn prefix_trie_c_v6_match_address(
    handle: &mut Handle,
    alloc: Global,
    high: u64,
    low: u64,
) -> FoundMatch
    ensures answer { OnTables handle.old handle.new result.code
        (λ t u. (u ≡ t) × (result ≡ found_match (λ network. network.1)
        (match_of ipv6_back t.v6.entries (v6_path high low 128)))) }
    ensures none { (result.code ≡ DONE → ⊥) → (result.value ≡ 0) × (result.length ≡ 0) }
{
    if handle.is_empty(alloc) {
        return FoundMatch::none(NULL as u8);
    }
    replace_with(
        handle,
        (alloc, Ipv6Prefix::host(joined(high, low))),
        find_match,
    )
}

/// Finds the longest match of a network, and returns the handle with it.
#[inline(always)]
fn find_match(handle: Handle, asked: (Global, Ipv6Prefix)) -> (Handle, FoundMatch)
    ensures answer { OnTables handle result.0 result.1.code
        (λ t u. (u ≡ t) × (result.1 ≡ found_match (λ network. network.1)
        (match_of ipv6_back t.v6.entries (ipv6_path asked.1)))) }
    ensures none { (result.1.code ≡ DONE → ⊥) → (result.1.value ≡ 0) × (result.1.length ≡ 0) }
{
    let (alloc, network) = asked;
    let Some(mut tables) = handle.into_loose() else {
        return (Handle::empty(alloc), FoundMatch::none(NULL as u8));
    };
    let found = calls::find_match(&tables.as_mut().v6, &network);
    (Handle::of_loose(tables), found)
}

/// Writes the longest match of each address to the entry at its place.
#[unsafe(no_mangle)]
pub extern "C" fn prefix_trie_c_v6_match_all(
    handle: &mut Handle,
    alloc: Global,
    addresses: &[V6Address],
    entries: &mut [V6Entry],
) -> u32
    ensures counts { (length entries.old ≡ length addresses.now → ⊥)
        → (result ≡ COUNTS) × (handle.new ≡ handle.old) }
    ensures matches { length entries.old ≡ length addresses.now
        → OnTables handle.old handle.new result (λ t u. (u ≡ t) × (result ≡ DONE)
        × (entries.new ≡ map (λ a. v6_entry (match_of ipv6_back t.v6.entries
        (v6_path a.high a.low 128))) addresses.now)) }
    ensures kept { (result ≡ DONE → ⊥) → entries.new ≡ entries.old }
{
    if addresses.len() != entries.len() {
        return COUNTS;
    }
    let Some(mut tables) = handle.open(alloc) else {
        return NULL;
    };
    calls::find_longest_each(&tables.as_mut().v6, addresses, entries);
    handle.close(tables);
    DONE
}

/// Writes the shortest match of a network, and its value, to `entry`.
#[unsafe(no_mangle)]
pub extern "C" fn prefix_trie_c_v6_shortest(
    handle: &mut Handle,
    alloc: Global,
    high: u64,
    low: u64,
    length: u8,
    entry: &mut V6Entry,
) -> u32
    ensures answer { OnPrefix 128 length handle.old handle.new result
        (λ t u. (u ≡ t)
        × MatchesShortest ipv6_back t.v6.entries v6_entry (v6_path high low length) result
        entry.old entry.new) }
    ensures kept { (result ≡ DONE → ⊥) → entry.new ≡ entry.old }
{
    let Some(prefix) = Ipv6Prefix::new(joined(high, low), length) else {
        return LENGTH;
    };
    let Some(mut tables) = handle.open(alloc) else {
        return NULL;
    };
    let code = calls::find_shortest(&tables.as_mut().v6, &prefix, entry);
    handle.close(tables);
    code
}

/// Writes the entries whose networks contain a network, shortest first, as many as there are and fit, and their number to `count`.
#[unsafe(no_mangle)]
pub extern "C" fn prefix_trie_c_v6_covers(
    handle: &mut Handle,
    alloc: Global,
    high: u64,
    low: u64,
    length: u8,
    entries: &mut [V6Entry],
    count: &mut usize,
) -> u32
    ensures answer { OnPrefix 128 length handle.old handle.new result
        (λ t u. (u ≡ t) × (result ≡ DONE)
        × FillsCovers ipv6_back t.v6.entries v6_entry (v6_path high low length) count.new
        entries.old entries.new) }
    ensures kept { (result ≡ DONE → ⊥)
        → (entries.new ≡ entries.old) × (count.new ≡ count.old) }
{
    let Some(prefix) = Ipv6Prefix::new(joined(high, low), length) else {
        return LENGTH;
    };
    let Some(mut tables) = handle.open(alloc) else {
        return NULL;
    };
    *count = calls::read_covers(&tables.as_mut().v6, &prefix, entries);
    handle.close(tables);
    DONE
}

/// Writes the entries whose networks a network contains, in listing order, as many as there are and fit, and their number to `count`.
#[unsafe(no_mangle)]
pub extern "C" fn prefix_trie_c_v6_contained(
    handle: &mut Handle,
    alloc: Global,
    high: u64,
    low: u64,
    length: u8,
    entries: &mut [V6Entry],
    count: &mut usize,
) -> u32
    ensures answer { OnPrefix 128 length handle.old handle.new result
        (λ t u. (u ≡ t) × (result ≡ DONE)
        × FillsContained ipv6_back t.v6.entries v6_entry (v6_path high low length) count.new
        entries.old entries.new) }
    ensures kept { (result ≡ DONE → ⊥)
        → (entries.new ≡ entries.old) × (count.new ≡ count.old) }
{
    let Some(prefix) = Ipv6Prefix::new(joined(high, low), length) else {
        return LENGTH;
    };
    let Some(mut tables) = handle.open(alloc) else {
        return NULL;
    };
    *count = calls::read_contained(&tables.as_mut().v6, &prefix, entries);
    handle.close(tables);
    DONE
}

/// Writes the next entries after a network in listing order, as many as there are and fit, and their number to `count`.
///
/// The network's own entry comes first if `inclusive` is true and it is stored.
#[unsafe(no_mangle)]
pub extern "C" fn prefix_trie_c_v6_next(
    handle: &mut Handle,
    alloc: Global,
    high: u64,
    low: u64,
    length: u8,
    inclusive: bool,
    entries: &mut [V6Entry],
    count: &mut usize,
) -> u32
    ensures answer { OnPrefix 128 length handle.old handle.new result
        (λ t u. (u ≡ t) × (result ≡ DONE)
        × Fills ipv6_back t.v6.entries v6_entry (v6_path high low length) inclusive count.new
        entries.old entries.new) }
    ensures kept { (result ≡ DONE → ⊥)
        → (entries.new ≡ entries.old) × (count.new ≡ count.old) }
{
    let Some(prefix) = Ipv6Prefix::new(joined(high, low), length) else {
        return LENGTH;
    };
    let Some(mut tables) = handle.open(alloc) else {
        return NULL;
    };
    *count = calls::read_after(&tables.as_mut().v6, &prefix, inclusive, entries);
    handle.close(tables);
    DONE
}
