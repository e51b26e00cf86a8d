//! The calls for IPv4.
ghost use Rattle.std.specs.Prelude.{◌≡◌, None, false, length, map};
ghost use Rattle.std.specs.FinMap.{get, len};
ghost use Rattle.prefix_trie.specs.Terms.{ipv4_back, ipv4_path};
ghost use Rattle.prefix_trie_c.specs.Calls.{Gives, Inserts, InsertsEach, OnPrefix, OnTables, Removes};
ghost use Rattle.prefix_trie_c.specs.Entries.{Fills, FillsContained, FillsCovers, Matches, MatchesShortest, found_match, found_value, match_of, replaced_value, v4_entry, v4_item};
ghost use Rattle.prefix_trie_c.specs.declared.codes.TheConstants.{COUNTS, DONE};

use crate::calls;
use crate::codes::{COUNTS, DONE, LENGTH, NULL};
use crate::entries::{FoundMatch, FoundValue, Replaced, V4Entry};
use crate::handle::Handle;
use core::mem::replace_with;
use prefix_trie::Ipv4Prefix;
use std::alloc::Global;

/// Sets the value of a network.
#[unsafe(no_mangle)]
pub extern "C" fn prefix_trie_c_v4_insert(
    handle: &mut Handle,
    alloc: Global,
    address: u32,
    length: u8,
    value: u64,
) -> u32
    ensures answer { OnPrefix 32 length handle.old handle.new result
        (λ t u. Inserts 32 (ipv4_path (address, length)) value t.v4 u.v4 result
        × (u.v6 ≡ t.v6)) }
{
    let Some(prefix) = Ipv4Prefix::new(address, length) else {
        return LENGTH;
    };
    let Some(mut tables) = handle.open(alloc) else {
        return NULL;
    };
    let code = calls::insert(&mut tables.as_mut().v4, prefix, value);
    handle.close(tables);
    code
}

/// Sets the value of a network, and returns the value that it had.
#[unsafe(no_mangle)]
pub extern "C" fn prefix_trie_c_v4_replace(
    handle: &mut Handle,
    alloc: Global,
    address: u32,
    length: u8,
    value: u64,
) -> Replaced
    ensures answer { OnPrefix 32 length handle.old handle.new result.code
        (λ t u. Inserts 32 (ipv4_path (address, length)) value t.v4 u.v4 result.code
        × (u.v6 ≡ t.v6)
        × (result ≡ replaced_value result.code (get t.v4.entries (ipv4_path (address, length))))) }
    ensures none { (result.code ≡ DONE → ⊥) → (result.value ≡ 0) × (result.found ≡ false) }
{
    let Some(prefix) = Ipv4Prefix::new(address, length) else {
        return Replaced::of(LENGTH, None);
    };
    let Some(mut tables) = handle.open(alloc) else {
        return Replaced::of(NULL, None);
    };
    let replaced = calls::replace(&mut tables.as_mut().v4, prefix, value);
    handle.close(tables);
    replaced
}

/// Sets the values of the networks of an array in order, up to the first that fails, and writes how many it set to `count`.
#[unsafe(no_mangle)]
pub extern "C" fn prefix_trie_c_v4_insert_all(
    handle: &mut Handle,
    alloc: Global,
    entries: &[V4Entry],
    count: &mut usize,
) -> u32
    ensures answer { OnTables handle.old handle.new result
        (λ t u. InsertsEach 32 (λ network. network.1) ipv4_path (map v4_item entries.now) t.v4 u.v4
        result count.new
        × (u.v6 ≡ t.v6)) }
    ensures none { handle.old.tables ≡ None → count.new ≡ count.old }
{
    let Some(mut tables) = handle.open(alloc) else {
        return NULL;
    };
    let code = calls::insert_each(&mut tables.as_mut().v4, entries, count);
    handle.close(tables);
    code
}

/// Removes the value of a network, and writes it to `value`.
#[unsafe(no_mangle)]
pub extern "C" fn prefix_trie_c_v4_remove(
    handle: &mut Handle,
    alloc: Global,
    address: u32,
    length: u8,
    value: &mut u64,
) -> u32
    ensures answer { OnPrefix 32 length handle.old handle.new result
        (λ t u. Removes 32 (ipv4_path (address, length)) t.v4 u.v4
        × (u.v6 ≡ t.v6)
        × Gives (get t.v4.entries (ipv4_path (address, length))) result value.old value.new) }
    ensures kept { (result ≡ DONE → ⊥) → value.new ≡ value.old }
{
    let Some(prefix) = Ipv4Prefix::new(address, length) else {
        return LENGTH;
    };
    let Some(mut tables) = handle.open(alloc) else {
        return NULL;
    };
    let code = calls::remove(&mut tables.as_mut().v4, &prefix, value);
    handle.close(tables);
    code
}

/// Returns the value of a network.
#[unsafe(no_mangle)]
pub extern "C" fn prefix_trie_c_v4_get(
    handle: &mut Handle,
    alloc: Global,
    address: u32,
    length: u8,
) -> FoundValue
    ensures answer { OnPrefix 32 length handle.old handle.new result.code
        (λ t u. (u ≡ t) × (result ≡ found_value (get t.v4.entries (ipv4_path (address, length))))) }
    ensures none { (result.code ≡ DONE → ⊥) → result.value ≡ 0 }
{
    let Some(prefix) = Ipv4Prefix::new(address, length) else {
        return FoundValue::none(LENGTH);
    };
    if handle.is_empty(alloc) {
        return FoundValue::none(NULL);
    }
    replace_with(handle, (alloc, prefix), find)
}

/// Finds the value of a network, and returns the handle with it.
// Unlike `open`, it leaves no empty handle in the place of this one, so the place is written once.
#[inline(always)]
fn find(handle: Handle, asked: (Global, Ipv4Prefix)) -> (Handle, FoundValue)
    ensures answer { OnTables handle result.0 result.1.code
        (λ t u. (u ≡ t) × (result.1 ≡ found_value (get t.v4.entries (ipv4_path asked.1)))) }
    ensures none { (result.1.code ≡ DONE → ⊥) → result.1.value ≡ 0 }
{
    let (alloc, network) = asked;
    let Some(mut tables) = handle.into_loose() else {
        return (Handle::empty(alloc), FoundValue::none(NULL));
    };
    let found = calls::find(&tables.as_mut().v4, &network);
    (Handle::of_loose(tables), found)
}

/// Writes the number of networks to `count`.
#[unsafe(no_mangle)]
pub extern "C" fn prefix_trie_c_v4_len(handle: &mut Handle, alloc: Global, count: &mut usize) -> u32
    ensures answer { OnTables handle.old handle.new result
        (λ t u. (u ≡ t) × (result ≡ DONE) × (count.new ≡ len t.v4.entries)) }
    ensures kept { (result ≡ DONE → ⊥) → count.new ≡ count.old }
{
    let Some(mut tables) = handle.open(alloc) else {
        return NULL;
    };
    *count = tables.as_mut().v4.len();
    handle.close(tables);
    DONE
}

/// Writes the longest match of a network, and its value, to `entry`.
#[unsafe(no_mangle)]
pub extern "C" fn prefix_trie_c_v4_match(
    handle: &mut Handle,
    alloc: Global,
    address: u32,
    length: u8,
    entry: &mut V4Entry,
) -> u32
    ensures answer { OnPrefix 32 length handle.old handle.new result
        (λ t u. (u ≡ t)
        × Matches ipv4_back t.v4.entries v4_entry (ipv4_path (address, length)) result
        entry.old entry.new) }
    ensures kept { (result ≡ DONE → ⊥) → entry.new ≡ entry.old }
{
    if length == 32 {
        return match_network(handle, alloc, Ipv4Prefix::host(address), entry);
    }
    match_shorter(handle, alloc, address, length, entry)
}

/// Writes the longest match of a network.
// An address has a constant length, so the compiler leaves out the tests of the length.
#[inline(always)]
fn match_network(
    handle: &mut Handle,
    alloc: Global,
    network: Ipv4Prefix,
    entry: &mut V4Entry,
) -> u32
    ensures answer { OnTables handle.old handle.new result
        (λ t u. (u ≡ t)
        × Matches ipv4_back t.v4.entries v4_entry (ipv4_path network) result
        entry.old entry.new) }
    ensures kept { (result ≡ DONE → ⊥) → entry.new ≡ entry.old }
{
    let Some(mut tables) = handle.open(alloc) else {
        return NULL;
    };
    let code = calls::find_longest(&tables.as_mut().v4, &network, entry);
    handle.close(tables);
    code
}

/// Writes the longest match of a network that is not one address.
// It is a function apart, with the parameters of the export, so that the export jumps to it and saves no registers for it.
#[inline(never)]
fn match_shorter(
    handle: &mut Handle,
    alloc: Global,
    address: u32,
    length: u8,
    entry: &mut V4Entry,
) -> u32
    ensures answer { OnPrefix 32 length handle.old handle.new result
        (λ t u. (u ≡ t)
        × Matches ipv4_back t.v4.entries v4_entry (ipv4_path (address, length)) result
        entry.old entry.new) }
    ensures kept { (result ≡ DONE → ⊥) → entry.new ≡ entry.old }
{
    match Ipv4Prefix::new(address, length) {
        Some(network) => match_network(handle, alloc, network, entry),
        None => LENGTH,
    }
}

/// Returns the value of the longest match of an address, and the length of its network.
///
/// The network is that of the first bits of the address.
#[unsafe(no_mangle)]
pub extern "C" fn prefix_trie_c_v4_match_address(
    handle: &mut Handle,
    alloc: Global,
    address: u32,
) -> FoundMatch
    ensures answer { OnTables handle.old handle.new result.code
        (λ t u. (u ≡ t) × (result ≡ found_match (λ network. network.1)
        (match_of ipv4_back t.v4.entries (ipv4_path (address, 32))))) }
    ensures none { (result.code ≡ DONE → ⊥) → (result.value ≡ 0) × (result.length ≡ 0) }
{
    if handle.is_empty(alloc) {
        return FoundMatch::none(NULL as u8);
    }
    replace_with(handle, (alloc, Ipv4Prefix::host(address)), find_match)
}

/// Finds the longest match of a network, and returns the handle with it.
#[inline(always)]
fn find_match(handle: Handle, asked: (Global, Ipv4Prefix)) -> (Handle, FoundMatch)
    ensures answer { OnTables handle result.0 result.1.code
        (λ t u. (u ≡ t) × (result.1 ≡ found_match (λ network. network.1)
        (match_of ipv4_back t.v4.entries (ipv4_path asked.1)))) }
    ensures none { (result.1.code ≡ DONE → ⊥) → (result.1.value ≡ 0) × (result.1.length ≡ 0) }
{
    let (alloc, network) = asked;
    let Some(mut tables) = handle.into_loose() else {
        return (Handle::empty(alloc), FoundMatch::none(NULL as u8));
    };
    let found = calls::find_match(&tables.as_mut().v4, &network);
    (Handle::of_loose(tables), found)
}

/// Writes the longest match of each address to the entry at its place.
#[unsafe(no_mangle)]
pub extern "C" fn prefix_trie_c_v4_match_all(
    handle: &mut Handle,
    alloc: Global,
    addresses: &[u32],
    entries: &mut [V4Entry],
) -> u32
    ensures counts { (length entries.old ≡ length addresses.now → ⊥)
        → (result ≡ COUNTS) × (handle.new ≡ handle.old) }
    ensures matches { length entries.old ≡ length addresses.now
        → OnTables handle.old handle.new result (λ t u. (u ≡ t) × (result ≡ DONE)
        × (entries.new ≡ map (λ a. v4_entry (match_of ipv4_back t.v4.entries (ipv4_path (a, 32))))
        addresses.now)) }
    ensures kept { (result ≡ DONE → ⊥) → entries.new ≡ entries.old }
{
    if addresses.len() != entries.len() {
        return COUNTS;
    }
    let Some(mut tables) = handle.open(alloc) else {
        return NULL;
    };
    calls::find_longest_each(&tables.as_mut().v4, addresses, entries);
    handle.close(tables);
    DONE
}

/// Writes the shortest match of a network, and its value, to `entry`.
#[unsafe(no_mangle)]
pub extern "C" fn prefix_trie_c_v4_shortest(
    handle: &mut Handle,
    alloc: Global,
    address: u32,
    length: u8,
    entry: &mut V4Entry,
) -> u32
    ensures answer { OnPrefix 32 length handle.old handle.new result
        (λ t u. (u ≡ t)
        × MatchesShortest ipv4_back t.v4.entries v4_entry (ipv4_path (address, length)) result
        entry.old entry.new) }
    ensures kept { (result ≡ DONE → ⊥) → entry.new ≡ entry.old }
{
    let Some(prefix) = Ipv4Prefix::new(address, length) else {
        return LENGTH;
    };
    let Some(mut tables) = handle.open(alloc) else {
        return NULL;
    };
    let code = calls::find_shortest(&tables.as_mut().v4, &prefix, entry);
    handle.close(tables);
    code
}

/// Writes the entries whose networks contain a network, shortest first, as many as there are and fit, and their number to `count`.
#[unsafe(no_mangle)]
pub extern "C" fn prefix_trie_c_v4_covers(
    handle: &mut Handle,
    alloc: Global,
    address: u32,
    length: u8,
    entries: &mut [V4Entry],
    count: &mut usize,
) -> u32
    ensures answer { OnPrefix 32 length handle.old handle.new result
        (λ t u. (u ≡ t) × (result ≡ DONE)
        × FillsCovers ipv4_back t.v4.entries v4_entry (ipv4_path (address, length)) count.new
        entries.old entries.new) }
    ensures kept { (result ≡ DONE → ⊥)
        → (entries.new ≡ entries.old) × (count.new ≡ count.old) }
{
    let Some(prefix) = Ipv4Prefix::new(address, length) else {
        return LENGTH;
    };
    let Some(mut tables) = handle.open(alloc) else {
        return NULL;
    };
    *count = calls::read_covers(&tables.as_mut().v4, &prefix, entries);
    handle.close(tables);
    DONE
}

/// Writes the entries whose networks a network contains, in listing order, as many as there are and fit, and their number to `count`.
#[unsafe(no_mangle)]
pub extern "C" fn prefix_trie_c_v4_contained(
    handle: &mut Handle,
    alloc: Global,
    address: u32,
    length: u8,
    entries: &mut [V4Entry],
    count: &mut usize,
) -> u32
    ensures answer { OnPrefix 32 length handle.old handle.new result
        (λ t u. (u ≡ t) × (result ≡ DONE)
        × FillsContained ipv4_back t.v4.entries v4_entry (ipv4_path (address, length)) count.new
        entries.old entries.new) }
    ensures kept { (result ≡ DONE → ⊥)
        → (entries.new ≡ entries.old) × (count.new ≡ count.old) }
{
    let Some(prefix) = Ipv4Prefix::new(address, length) else {
        return LENGTH;
    };
    let Some(mut tables) = handle.open(alloc) else {
        return NULL;
    };
    *count = calls::read_contained(&tables.as_mut().v4, &prefix, entries);
    handle.close(tables);
    DONE
}

/// Writes the next entries after a network in listing order, as many as there are and fit, and their number to `count`.
///
/// The network's own entry comes first if `inclusive` is true and it is stored.
#[unsafe(no_mangle)]
pub extern "C" fn prefix_trie_c_v4_next(
    handle: &mut Handle,
    alloc: Global,
    address: u32,
    length: u8,
    inclusive: bool,
    entries: &mut [V4Entry],
    count: &mut usize,
) -> u32
    ensures answer { OnPrefix 32 length handle.old handle.new result
        (λ t u. (u ≡ t) × (result ≡ DONE)
        × Fills ipv4_back t.v4.entries v4_entry (ipv4_path (address, length)) inclusive count.new
        entries.old entries.new) }
    ensures kept { (result ≡ DONE → ⊥)
        → (entries.new ≡ entries.old) × (count.new ≡ count.old) }
{
    let Some(prefix) = Ipv4Prefix::new(address, length) else {
        return LENGTH;
    };
    let Some(mut tables) = handle.open(alloc) else {
        return NULL;
    };
    *count = calls::read_after(&tables.as_mut().v4, &prefix, inclusive, entries);
    handle.close(tables);
    DONE
}
