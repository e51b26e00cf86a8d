//! Equality and debug output of compiled tables.
use crate::tables::map_of;
use prefix_trie::Refusal;
use prefix_trie_fib::Fib;
use std::alloc::Global;

/// Returns whether the tables of these networks are equal.
fn are_equal(left: &[(u32, u8)], right: &[(u32, u8)], alloc: Global) -> Result<bool, Refusal> {
    let left = Fib::new(&map_of(left, alloc)?, alloc)?;
    let right = Fib::new(&map_of(right, alloc)?, alloc)?;
    Ok(left == right)
}

/// Returns whether the debug output of the table of these networks is this text.
fn is_printed(networks: &[(u32, u8)], text: &str, alloc: Global) -> Result<bool, Refusal> {
    let fib = Fib::new(&map_of(networks, alloc)?, alloc)?;
    match format!(in alloc; "{fib:?}") {
        Ok(printed) => Ok(printed.as_str() == text),
        Err(_) => Err(Refusal::Memory),
    }
}

static HALVES: [(u32, u8); 2] = [(0, 1), (0x8000_0000, 1)];

static SWAPPED_HALVES: [(u32, u8); 2] = [(0x8000_0000, 1), (0, 1)];

static FIRST_QUARTER: [(u32, u8); 1] = [(0, 2)];

static LOWER_HALF: [(u32, u8); 1] = [(0, 1)];

static WHOLE: [(u32, u8); 1] = [(0, 0)];

#[test]
fn tables_are_equal_if_their_ranges_are(rt: HostRuntime) {
    let alloc = rt.alloc();
    assert!(rt; are_equal(&HALVES, &HALVES, alloc) == Ok(true));
    assert!(rt; are_equal(&HALVES, &SWAPPED_HALVES, alloc) == Ok(false));
    assert!(rt; are_equal(&LOWER_HALF, &FIRST_QUARTER, alloc) == Ok(false));
    assert!(rt; are_equal(&WHOLE, &HALVES, alloc) == Ok(false));
}

#[test]
fn debug_output_lists_the_ranges(rt: HostRuntime) {
    let alloc = rt.alloc();
    assert!(rt; is_printed(&[], "{0: None}", alloc) == Ok(true));
    assert!(rt; is_printed(&HALVES, "{0: Some(0), 2147483648: Some(1)}", alloc) == Ok(true));
}
