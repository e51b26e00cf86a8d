//! Aggregation of every map over a few keys, and of some maps over more, compared with brute force.
//!
//! The contracts of `aggregate` and `aggregate_consistent` prove that no lookup changes and that no smaller map exists. The
//! tests show that the definitions in these contracts mean the same as a search through all maps.
//!
//! A map is a number in the base of its values plus 1. The digit at index `k` is the value of key `k`; 0 is no value.
ghost use Rattle.std.specs.Prelude.{◌≤◌, IfSome};

use prefix_trie::{Narrow, Prefix, PrefixMap, Refusal};
use prefix_trie_ops::map::{aggregate, aggregate_consistent};
use std::alloc::Global;
use std::ops::Range;

type Small<const W: u32> = PrefixMap<(Narrow<W>, u8), u32, Global>;

/// What is stored at each key, where 0 is no value.
///
/// Key 0 is the empty string. The halves of key `k` are `2 * k + 1` and `2 * k + 2`. So `2^(W + 1) - 1` keys have at most `W`
/// bits, and the last `2^W` of them have full width. The other items are 0.
type Stored = [u32; 63];

/// Some maps: the first `count` multiples of `step`. Each key has no value, or one of `values` values.
struct Maps {
    keys: usize,
    values: u8,
    count: u32,
    step: u128,
}

/// An odd number whose multiples have digits that look random.
const MIXED: u128 = 0x9e37_79b9_7f4a_7c15_f39c_c060_5ced_c835;

/// Every map with one value over the keys of at most two bits, and samples with two values.
static OF_TWO_BITS: [Maps; 2] = [
    Maps {
        keys: 7,
        values: 1,
        count: 128,
        step: 1,
    },
    Maps {
        keys: 7,
        values: 2,
        count: 300,
        step: MIXED,
    },
];

/// Samples over the keys of three bits.
static OF_THREE_BITS: [Maps; 1] = [Maps {
    keys: 15,
    values: 3,
    count: 60,
    step: MIXED,
}];

/// Samples over the keys of five bits, which two levels of nodes hold.
static OF_FIVE_BITS: [Maps; 1] = [Maps {
    keys: 63,
    values: 2,
    count: 10,
    step: MIXED,
}];

/// Returns what is stored at each of the first keys: the digits of a number.
fn digits(mut number: u128, maps: &Maps) -> Stored {
    let base = u128::from(maps.values) + 1;
    let mut stored = [0; 63];
    for digit in stored.iter_mut().take(maps.keys) {
        *digit = (number % base) as u32;
        number /= base;
    }
    stored
}

/// Returns the longest-match value of a key, or 0 if it has none.
fn value_at(stored: &Stored, key: usize) -> u32 {
    match stored.get(key).copied() {
        Some(value) if value != 0 => value,
        _ if key == 0 => 0,
        _ => value_at(stored, (key - 1) / 2),
    }
}

/// Returns how many entries have another value than their longest shorter entry.
fn changes(stored: &Stored) -> usize {
    let mut count: usize = 0;
    for (key, value) in stored.iter().enumerate() {
        let above = if key == 0 {
            0
        } else {
            value_at(stored, (key - 1) / 2)
        };
        if *value != 0 && *value != above {
            count = count.saturating_add(1);
        }
    }
    count
}

/// Returns the least number of entries at and below a key that keep the full-width lookups if shorter keys give `held`.
///
/// It tries every value at every key. Keys from `full` on have full width.
fn least(stored: &Stored, full: usize, key: usize, held: u32, values: u8) -> u32
    requires { full ≤ 31 }
{
    let mut best = u32::MAX;
    for value in 0..=u32::from(values) {
        let given = if value == 0 { held } else { value };
        let below = if key < full {
            least(stored, full, 2 * key + 1, given, values).saturating_add(least(
                stored,
                full,
                2 * key + 2,
                given,
                values,
            ))
        } else if value_at(stored, key) == given {
            0
        } else {
            u32::MAX
        };
        let own = if value == 0 { 0 } else { 1 };
        best = best.min(below.saturating_add(own));
    }
    best
}

/// Returns the prefix of a key.
fn prefix_of<const W: u32>(key: usize) -> Option<(Narrow<W>, u8)>
    ensures { IfSome result ⟦<(Narrow<W>, u8) as Prefix>⟧.IsFitting }
{
    let one_more = (key as u64).checked_add(1)?;
    let len = one_more.checked_ilog2()?;
    // Below its leading 1, one more than the key is the number of the string.
    let number = one_more ^ 1_u64.checked_shl(len)?;
    let prefix = (
        Narrow::new(number.checked_shl(W.checked_sub(len)?)?)?,
        u8::try_from(len).ok()?,
    );
    if prefix.fits() { Some(prefix) } else { None }
}

/// Replaces the entries of a map by these.
fn put_all<const W: u32>(map: &mut Small<W>, stored: &Stored) -> Result<(), Refusal> {
    map.clear();
    for (key, value) in stored.iter().enumerate() {
        if *value != 0 {
            if let Some(prefix) = prefix_of(key) {
                map.insert(prefix, *value)?;
            }
        }
    }
    Ok(())
}

/// Returns whether these keys have the longest-match values that they should have.
fn keeps_values<const W: u32>(map: &Small<W>, stored: &Stored, keys: Range<usize>) -> bool {
    for key in keys {
        let Some(prefix) = prefix_of(key) else {
            return false;
        };
        if map.get_lpm_value(&prefix).copied().unwrap_or(0) != value_at(stored, key) {
            return false;
        }
    }
    true
}

/// Returns whether `aggregate` keeps the full-width lookups with the fewest entries.
fn is_smallest<const W: u32>(
    map: &mut Small<W>,
    stored: &Stored,
    maps: &Maps,
    alloc: Global,
) -> Result<bool, Refusal> {
    put_all(map, stored)?;
    aggregate(map, alloc)?;
    let full = (maps.keys / 2).min(31);
    Ok(
        keeps_values(map, stored, full..maps.keys)
            & (map.len() == least(stored, full, 0, 0, maps.values) as usize),
    )
}

/// Returns whether `aggregate_consistent` keeps all lookups with the entries that change a value.
fn is_consistent<const W: u32>(
    map: &mut Small<W>,
    stored: &Stored,
    maps: &Maps,
    alloc: Global,
) -> Result<bool, Refusal> {
    put_all(map, stored)?;
    Ok(
        aggregate_consistent(map, alloc).is_ok()
            & keeps_values(map, stored, 0..maps.keys)
            & (map.len() == changes(stored)),
    )
}

/// Returns whether both hold for each of the maps.
fn are_aggregated<const W: u32>(alloc: Global, maps: &Maps) -> Result<bool, Refusal> {
    let mut map = PrefixMap::new(alloc)?;
    let mut all = true;
    for index in 0..maps.count {
        let stored = digits(u128::from(index).wrapping_mul(maps.step), maps);
        all &= is_smallest::<W>(&mut map, &stored, maps, alloc)?;
        all &= is_consistent::<W>(&mut map, &stored, maps, alloc)?;
    }
    Ok(all)
}

#[test]
fn aggregates_two_bits_beside_brute_force(rt: HostRuntime) {
    for maps in OF_TWO_BITS.iter() {
        assert!(rt; are_aggregated::<2>(rt.alloc(), maps) == Ok(true));
    }
}

#[test]
fn aggregates_three_bits_beside_brute_force(rt: HostRuntime) {
    for maps in OF_THREE_BITS.iter() {
        assert!(rt; are_aggregated::<3>(rt.alloc(), maps) == Ok(true));
    }
}

#[test]
fn aggregates_five_bits_beside_brute_force(rt: HostRuntime) {
    for maps in OF_FIVE_BITS.iter() {
        assert!(rt; are_aggregated::<5>(rt.alloc(), maps) == Ok(true));
    }
}
