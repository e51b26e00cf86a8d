//! Lookups in compiled tables.
ghost use Rattle.std.specs.Prelude.{◌≡◌, ◌+◌, ◌*◌, ◌^◌, length, map};
ghost use Rattle.prefix_trie_c.specs.Compiled.{OnCompiled, compiled_of, value_at};
ghost use Rattle.prefix_trie_c.specs.Entries.{found_value, no_value};
ghost use Rattle.prefix_trie_c.specs.declared.codes.TheConstants.{COUNTS, DONE, MISSING};

use crate::bulk;
use crate::codes::{COUNTS, DONE, MISSING, NULL};
use crate::compiled_handle::CompiledHandle;
use crate::entries::{FoundValue, V6Address, joined};
use core::mem::replace_with;
use std::alloc::Global;

/// Returns the value of the longest match of an IPv4 address.
#[unsafe(no_mangle)]
pub extern "C" fn prefix_trie_c_table_v4_lookup(
    handle: &mut CompiledHandle,
    alloc: Global,
    address: u32,
) -> FoundValue
    ensures answer { OnCompiled handle.old handle.new result.code
        (λ s t. (t ≡ s) × (result ≡ found_value (value_at 32 (compiled_of s).v4 address))) }
    ensures none { (result.code ≡ DONE → ⊥) → result.value ≡ 0 }
{
    if handle.is_empty(alloc) {
        return FoundValue::none(NULL);
    }
    replace_with(handle, (alloc, address), v4_lookup)
}

/// Looks up an IPv4 address, and returns the handle with the result.
#[inline(always)]
fn v4_lookup(handle: CompiledHandle, asked: (Global, u32)) -> (CompiledHandle, FoundValue)
    ensures answer { OnCompiled handle result.0 result.1.code
        (λ s t. (t ≡ s) × (result.1 ≡ found_value (value_at 32 (compiled_of s).v4 asked.1))) }
    ensures none { (result.1.code ≡ DONE → ⊥) → result.1.value ≡ 0 }
{
    let (alloc, address) = asked;
    let Some(mut shared) = handle.into_loose() else {
        return (CompiledHandle::empty(alloc), FoundValue::none(NULL));
    };
    let found = with_code(shared.as_mut().table.v4.lookup(address));
    (CompiledHandle::of_loose(shared), found)
}

/// Returns the value of the longest match of an IPv6 address.
#[unsafe(no_mangle)]
pub extern "C" fn prefix_trie_c_table_v6_lookup(
    handle: &mut CompiledHandle,
    alloc: Global,
    high: u64,
    low: u64,
) -> FoundValue
    ensures answer { OnCompiled handle.old handle.new result.code
        (λ s t. (t ≡ s) × (result
        ≡ found_value (value_at 128 (compiled_of s).v6 (high * 2 ^ 64 + low)))) }
    ensures none { (result.code ≡ DONE → ⊥) → result.value ≡ 0 }
{
    if handle.is_empty(alloc) {
        return FoundValue::none(NULL);
    }
    replace_with(handle, (alloc, joined(high, low)), v6_lookup)
}

/// Looks up an IPv6 address, and returns the handle with the result.
#[inline(always)]
fn v6_lookup(handle: CompiledHandle, asked: (Global, u128)) -> (CompiledHandle, FoundValue)
    ensures answer { OnCompiled handle result.0 result.1.code
        (λ s t. (t ≡ s) × (result.1 ≡ found_value (value_at 128 (compiled_of s).v6 asked.1))) }
    ensures none { (result.1.code ≡ DONE → ⊥) → result.1.value ≡ 0 }
{
    let (alloc, address) = asked;
    let Some(mut shared) = handle.into_loose() else {
        return (CompiledHandle::empty(alloc), FoundValue::none(NULL));
    };
    let found = with_code(shared.as_mut().table.v6.lookup(address));
    (CompiledHandle::of_loose(shared), found)
}

/// Returns a value, or that there is none, with the code.
#[inline(always)]
fn with_code(found: Option<u64>) -> FoundValue
    ensures { result ≡ found_value found }
{
    match found {
        Some(value) => FoundValue { value, code: DONE },
        None => missing(),
    }
}

/// Returns that there is no value.
// It is out of line, because else the compiler tests twice what the lookup found.
#[cold]
#[inline(never)]
fn missing() -> FoundValue
    ensures { result ≡ no_value MISSING }
{
    FoundValue::none(MISSING)
}

/// Writes the value of the longest match of each IPv4 address to the result at its place.
#[unsafe(no_mangle)]
pub extern "C" fn prefix_trie_c_table_v4_lookup_bulk(
    handle: &mut CompiledHandle,
    alloc: Global,
    addresses: &[u32],
    results: &mut [FoundValue],
) -> u32
    ensures counts { (length results.old ≡ length addresses.now → ⊥)
        → (result ≡ COUNTS) × (handle.new ≡ handle.old) }
    ensures values { length results.old ≡ length addresses.now
        → OnCompiled handle.old handle.new result (λ s t. (t ≡ s) × (result ≡ DONE)
        × (results.new ≡ map (λ a. found_value (value_at 32 (compiled_of s).v4 a))
        addresses.now)) }
    ensures kept { (result ≡ DONE → ⊥) → results.new ≡ results.old }
{
    if addresses.len() != results.len() {
        return COUNTS;
    }
    let Some(mut shared) = handle.open(alloc) else {
        return NULL;
    };
    bulk::lookup_each(&shared.as_mut().table.v4, addresses, results);
    handle.close(shared);
    DONE
}

/// Writes the value of the longest match of each IPv6 address to the result at its place.
#[unsafe(no_mangle)]
pub extern "C" fn prefix_trie_c_table_v6_lookup_bulk(
    handle: &mut CompiledHandle,
    alloc: Global,
    addresses: &[V6Address],
    results: &mut [FoundValue],
) -> u32
    ensures counts { (length results.old ≡ length addresses.now → ⊥)
        → (result ≡ COUNTS) × (handle.new ≡ handle.old) }
    ensures values { length results.old ≡ length addresses.now
        → OnCompiled handle.old handle.new result (λ s t. (t ≡ s) × (result ≡ DONE)
        × (results.new ≡ map (λ a. found_value (value_at 128 (compiled_of s).v6
        (a.high * 2 ^ 64 + a.low))) addresses.now)) }
    ensures kept { (result ≡ DONE → ⊥) → results.new ≡ results.old }
{
    if addresses.len() != results.len() {
        return COUNTS;
    }
    let Some(mut shared) = handle.open(alloc) else {
        return NULL;
    };
    bulk::lookup_each(&shared.as_mut().table.v6, addresses, results);
    handle.close(shared);
    DONE
}
