//! Every set of addresses of three bits, every pair of them, every range and every list of networks, compared with eight bits.
use address_ranges::{AddressCount, AddressSet, AddressSetBuilder, networks_of};
use prefix_trie_bits::prefix::{Key, Narrow, Prefix};
use std::alloc::{AllocError, Global};

type Network = (Narrow<3>, u8);

type Set = AddressSet<Network, Global>;

/// Returns an address of three bits, or the address 0 if there is no such address.
fn address(n: u64) -> Narrow<3> {
    Narrow::new(n).unwrap_or(Narrow::zero())
}

/// Returns the set of the addresses whose bits are 1, from the lowest one or from the highest one on.
fn set_of(bits: u32, is_falling: bool, alloc: Global) -> Result<Set, AllocError> {
    let mut builder = AddressSetBuilder::new(alloc)?;
    for i in 0..8_u32 {
        let k = if is_falling { 7 - i } else { i };
        if bits >> k & 1 == 1 {
            builder.add_range(address(u64::from(k)), address(u64::from(k)))?;
        }
    }
    builder.finish()
}

/// Returns the bits of the addresses of a set.
fn bits_of(set: &Set) -> u32 {
    let mut bits = 0;
    for k in 0..8_u32 {
        if set.contains(address(u64::from(k))) {
            bits |= 1 << k;
        }
    }
    bits
}

/// Returns the number of ranges of eight bits: the ones that follow a zero or nothing.
fn ranges_in(bits: u32) -> u32 {
    (bits & !(bits << 1)).count_ones()
}

/// Returns the least number of networks that have the addresses of a network of this length, `first` its first address.
fn least(bits: u32, first: u32, len: u32) -> u32 {
    let size = 8_u32 >> len.min(3);
    let all = ((1_u32 << size.min(8)) - 1) << first.min(7);
    if bits & all == 0 {
        return 0;
    }
    if bits & all == all || len >= 3 {
        return 1;
    }
    let half = size / 2;
    least(bits, first, len + 1).wrapping_add(least(bits, first.wrapping_add(half), len + 1))
}

/// Returns the bits of the addresses of networks, or `None` if two networks have an address in common.
fn bits_of_networks(networks: &[Network]) -> Option<u32> {
    let mut bits = 0;
    for k in 0..8_u32 {
        let one = (address(u64::from(k)), 3_u8);
        let mut count = 0_u32;
        for network in networks {
            if network.fits() && one.fits() && network.contains(&one) {
                count = count.wrapping_add(1);
            }
        }
        if count > 1 {
            return None;
        }
        if count == 1 {
            bits |= 1 << k;
        }
    }
    Some(bits)
}

/// Returns the bit of the first address of a network.
fn first_bit(network: &Network) -> u32 {
    1 << (network.0.get() % 8) as u32
}

/// Returns the bits of the first addresses of the networks of a length whose addresses are all in the bits.
fn networks_in(bits: u32, len: u8) -> u32 {
    let size = 8_u32 >> len.min(3);
    let mut firsts = 0;
    for first in 0..8_u32 {
        let all = ((1_u32 << size.min(8)) - 1) << first;
        if first % size.max(1) == 0 && bits & all == all {
            firsts |= 1 << first;
        }
    }
    firsts
}

/// Returns whether a set returns the networks of a length, and the first one that is free.
fn has_networks(set: &Set, bits: u32, len: u8) -> bool {
    let len = len.min(3);
    let mut firsts = 0;
    for network in set.networks_of_length(len) {
        firsts |= first_bit(&network);
    }
    let free = networks_in(255 - bits % 256, len);
    let first_free = match set.first_free(len) {
        Some(network) => first_bit(&network),
        None => 0,
    };
    firsts == networks_in(bits, len)
        && first_free == free & free.wrapping_neg()
        && has_free_within(set, free, len)
}

/// Returns whether a set returns the first of these free networks of a length within each network.
fn has_free_within(set: &Set, free: u32, len: u8) -> bool {
    if len > 3 {
        return false;
    }
    for within_len in 0..=len {
        let size = 8_u32 >> within_len;
        for place in 0..1_u32 << within_len {
            let first = place * size;
            let inside = free & ((1 << size) - 1) << first;
            let within = (address(u64::from(first)), within_len);
            if !within.fits() {
                return false;
            }
            let found = match set.first_free_within(len, &within) {
                Some(network) => first_bit(&network),
                None => 0,
            };
            if found != inside & inside.wrapping_neg() {
                return false;
            }
        }
    }
    true
}

/// Returns whether a set of these addresses has them, in as few ranges and networks as there are.
fn is_right(bits: u32, is_falling: bool, alloc: Global) -> Result<bool, AllocError> {
    let set = set_of(bits, is_falling, alloc)?;
    let networks = set.collect_networks(alloc)?;
    let complement = set.complement(alloc)?;
    Ok(
        bits_of(&set) == bits
            && set.len() == ranges_in(bits) as usize
            && set.is_empty() == (bits == 0)
            && set.address_count() == AddressCount::Number(u128::from(bits.count_ones()))
            && set.clone()? == set
            && bits_of(&complement) == 255 - bits % 256
            && networks.len() == least(bits, 0, 0) as usize
            && bits_of_networks(&networks) == Some(bits)
            && has_networks(&set, bits, 0)
            && has_networks(&set, bits, 1)
            && has_networks(&set, bits, 2)
            && has_networks(&set, bits, 3),
    )
}

fn all_are_right(alloc: Global) -> Result<bool, AllocError> {
    for bits in 0..256_u32 {
        if !is_right(bits, false, alloc)? || !is_right(bits, true, alloc)? {
            return Ok(false);
        }
    }
    Ok(true)
}

/// Returns whether each operation on two sets gives the addresses that the bits give.
fn is_right_for(left: &Set, right: &Set, alloc: Global) -> Result<bool, AllocError> {
    let (a, b) = (bits_of(left), bits_of(right));
    Ok(
        bits_of(&left.union(right, alloc)?) == a | b
            && bits_of(&left.intersection(right, alloc)?) == a & b
            && bits_of(&left.difference(right, alloc)?) == a & !b
            && bits_of(&left.symmetric_difference(right, alloc)?) == a ^ b
            && left.is_subset(right) == (a & !b == 0)
            && left.is_disjoint(right) == (a & b == 0),
    )
}

fn all_pairs_are_right(alloc: Global) -> Result<bool, AllocError> {
    for a in 0..256_u32 {
        let left = set_of(a, false, alloc)?;
        for b in 0..256_u32 {
            let right = set_of(b, true, alloc)?;
            if !is_right_for(&left, &right, alloc)? {
                return Ok(false);
            }
        }
    }
    Ok(true)
}

/// Returns the bits of the addresses from `first` to `last`.
fn bits_between(first: u32, last: u32) -> u32 {
    let mut bits = 0;
    for k in 0..8_u32 {
        if first <= k && k <= last {
            bits |= 1 << k;
        }
    }
    bits
}

/// Returns whether a range has as few networks as there are, and they have its addresses.
fn has_fewest(first: u32, last: u32, alloc: Global) -> Result<bool, AllocError> {
    let (low, high) = (address(u64::from(first)), address(u64::from(last)));
    let networks = networks_of::<Network, Global>(low, high, alloc)?;
    let bits = bits_between(first, last);
    Ok(networks.len() == least(bits, 0, 0) as usize && bits_of_networks(&networks) == Some(bits))
}

fn all_ranges_have_fewest(alloc: Global) -> Result<bool, AllocError> {
    for first in 0..8_u32 {
        for last in 0..8_u32 {
            if !has_fewest(first, last, alloc)? {
                return Ok(false);
            }
        }
    }
    Ok(true)
}

/// The first address and the length of each network of at most two bits.
static NETWORKS: [(u64, u8); 7] = [(0, 0), (0, 1), (4, 1), (0, 2), (2, 2), (4, 2), (6, 2)];

/// Returns whether the set of the networks whose bits in `chosen` are 1 has their addresses.
fn has_all_of(chosen: u32, alloc: Global) -> Result<bool, AllocError> {
    let mut builder = AddressSetBuilder::new(alloc)?;
    let mut bits = 0;
    for (k, (first, len)) in NETWORKS.iter().enumerate() {
        let network = (address(*first), *len);
        if chosen >> (k as u32).min(7) & 1 == 1 && network.fits() {
            builder.add_network(&network)?;
            let first = (*first % 8) as u32;
            let size = 8_u32 >> (*len).min(3);
            bits |= bits_between(first, first.wrapping_add(size.wrapping_sub(1)));
        }
    }
    Ok(bits_of(&builder.finish()?) == bits)
}

fn all_lists_are_right(alloc: Global) -> Result<bool, AllocError> {
    for chosen in 0..128_u32 {
        if !has_all_of(chosen, alloc)? {
            return Ok(false);
        }
    }
    Ok(true)
}

#[test]
fn each_set_has_its_addresses_in_as_few_networks_as_there_are(rt: HostRuntime) {
    assert!(rt; all_are_right(rt.alloc()) == Ok(true));
}

#[test]
fn each_operation_on_each_pair_gives_its_addresses(rt: HostRuntime) {
    assert!(rt; all_pairs_are_right(rt.alloc()) == Ok(true));
}

#[test]
fn each_range_has_the_fewest_networks(rt: HostRuntime) {
    assert!(rt; all_ranges_have_fewest(rt.alloc()) == Ok(true));
}

#[test]
fn each_list_of_networks_gives_their_addresses(rt: HostRuntime) {
    assert!(rt; all_lists_are_right(rt.alloc()) == Ok(true));
}
