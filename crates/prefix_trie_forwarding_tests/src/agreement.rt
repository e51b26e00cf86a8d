//! Tables compared with their maps: at an address, around networks, and by the groups that the networks need.
use prefix_trie::{Key, Prefix, PrefixMap};
use prefix_trie_forwarding::{ForwardingTable, Hop};
use std::alloc::Allocator;

/// A table of networks of a type of numbers, each with its length.
pub type Table<K, A> = ForwardingTable<(K, u8), A>;

/// The numbers of addresses that have neighbours.
pub trait Address: Key {
    /// Returns the address before this one, or the last one before the first.
    fn before(self) -> Self;

    /// Returns a network for a number that looks random. Networks of near numbers lie in one another.
    fn network(draw: u64) -> (Self, u8);
}

/// Returns whether a table gives an address the longest match of its map.
pub fn agrees_at<K: Key, A: Allocator>(table: &Table<K, A>, address: K) -> bool {
    let _ = address.is_key();
    let host = (address, K::width() as u8);
    let (found, hop) = (table.lookup_len(address), table.lookup(address));
    match table.map().get_lpm(&host) {
        Some((network, stored)) => {
            found == Some((network.prefix_len(), *stored)) && hop == Some(*stored)
        }
        None => found.is_none() && hop.is_none(),
    }
}

/// Returns the address after the last one of a network, if there is one.
fn after<K: Key>(network: &(K, u8)) -> Option<K> {
    let (first, len) = *network;
    let _ = first.is_key();
    let host_bits = K::width().checked_sub(u32::from(len))?;
    if host_bits == K::width() {
        return None;
    }
    first.plus(K::power(host_bits))
}

/// Returns whether a table agrees with its map on both sides of the ends of a network without host bits.
pub fn agrees_around<K: Address, A: Allocator>(table: &Table<K, A>, network: &(K, u8)) -> bool {
    let (first, _) = *network;
    let mut all = agrees_at(table, first) & agrees_at(table, first.before());
    if let Some(next) = after(network) {
        all &= agrees_at(table, next) & agrees_at(table, next.before());
    }
    all
}

/// Returns whether a table agrees with its map around each of its networks.
pub fn agrees<K: Address, A: Allocator>(table: &Table<K, A>) -> bool {
    let mut all = true;
    for network in table.map().keys() {
        all &= agrees_around(table, &network);
    }
    all
}

/// Returns the number of blocks of so many bits that a longer network of a map lies in.
fn blocks<K: Key, A: Allocator>(map: &PrefixMap<(K, u8), Hop, A>, bits: u32) -> usize {
    let mut count: usize = 0;
    let mut last = None;
    if K::width() <= bits {
        return count;
    }
    for (number, len) in map.keys() {
        if bits < u32::from(len) {
            let block = Some(number.keep(bits));
            if block != last {
                count = count.saturating_add(1);
            }
            last = block;
        }
    }
    count
}

/// Returns the number of groups that the networks of a map need: blocks of the bits of the root and of whole bytes more.
pub fn groups_needed<K: Key, A: Allocator>(
    map: &PrefixMap<(K, u8), Hop, A>,
    root_bits: u32,
) -> usize {
    let mut count: usize = 0;
    for level in 0..16_u32 {
        count = count.saturating_add(blocks(map, root_bits.saturating_add(8 * level)));
    }
    count
}
