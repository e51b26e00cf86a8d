//! A chunk with ranges that start at its sixteenths: the index has a bitmap for it, and no parts.
use crate::tables::agrees;
use prefix_trie::{Prefix, PrefixMap, Refusal};
use prefix_trie_fib::Fib;
use std::alloc::{AllocError, Global};

/// The first address of a chunk. In a small table it has 2^24 addresses.
const CHUNK: u32 = 0x0a00_0000;

/// How many addresses a sixteenth has.
const SIXTEENTH: u32 = 0x10_0000;

/// Inserts the sixteenths of the chunk whose bit is 1, as networks of 12 bits with values of their own.
fn insert_sixteenths(
    map: &mut PrefixMap<(u32, u8), u32, Global>,
    bits: u32,
) -> Result<(), Refusal> {
    for i in 0..16_u32 {
        let network = (CHUNK + i * SIXTEENTH, 12);
        if bits >> i & 1 == 1 && network.fits() {
            map.insert(network, i)?;
        }
    }
    Ok(())
}

/// Returns the first, the second and the last address of each sixteenth of the chunk and of the one after it.
fn addresses(alloc: Global) -> Result<Vec<u32>, AllocError> {
    let mut addresses = Vec::new(alloc);
    for i in 0..32_u32 {
        let first = CHUNK + i * SIXTEENTH;
        addresses.push(first)?;
        addresses.push(first + 1)?;
        addresses.push(first + (SIXTEENTH - 1))?;
    }
    Ok(addresses)
}

/// Returns whether the index of a table has so many entries, and the table agrees with the map at these addresses.
fn has_entries(
    map: &PrefixMap<(u32, u8), u32, Global>,
    entries: usize,
    alloc: Global,
) -> Result<bool, Refusal> {
    let fib = Fib::new(map, alloc)?;
    let addresses = addresses(alloc)?;
    let as_many = fib.slots() - fib.len() == entries;
    Ok(as_many & agrees(map, &addresses, alloc)?)
}

/// Returns whether the chunk has a bitmap, where these sixteenths have values.
fn have_bitmap(bits: u32, alloc: Global) -> Result<bool, Refusal> {
    let mut map = PrefixMap::new(alloc)?;
    insert_sixteenths(&mut map, bits)?;
    has_entries(&map, 256, alloc)
}

/// Returns whether the chunk has 16 parts, where a range starts at its second address too.
fn has_parts(alloc: Global) -> Result<bool, Refusal> {
    let mut map = PrefixMap::new(alloc)?;
    insert_sixteenths(&mut map, 0xffff)?;
    let second = (CHUNK + 1, 32);
    if second.fits() {
        map.insert(second, 16)?;
    }
    has_entries(&map, 272, alloc)
}

#[test]
fn ranges_at_sixteenths_have_a_bitmap(rt: HostRuntime) {
    let alloc = rt.alloc();
    for bits in [0x0001, 0x8000, 0x0ff0, 0x5555, 0xaaaa, 0xfffe, 0xffff] {
        assert!(rt; have_bitmap(bits, alloc) == Ok(true));
    }
}

#[test]
fn a_range_between_sixteenths_needs_parts(rt: HostRuntime) {
    assert!(rt; has_parts(rt.alloc()) == Ok(true));
}
