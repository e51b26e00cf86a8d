//! Long runs of insertions and removals of networks that lie in one another, with each allocation failing.
use crate::agreement::{Address, Table, agrees, agrees_around, groups_needed};
use prefix_trie::{Key, Prefix, Refusal};
use prefix_trie_forwarding::Hop;
use prefix_trie_tests::refusing::Refusing;
use std::alloc::{Allocator, Global};

/// More allocations than an insertion makes.
const MANY: u64 = 100;

/// How many insertions and removals a run has.
const STEPS: u64 = 200;

/// How many networks come and go in a run.
const NETWORKS: u64 = 60;

/// Returns a number that looks random.
fn mixed(number: u64) -> u64 {
    let first = (number.wrapping_add(1)).wrapping_mul(0x9e37_79b9_7f4a_7c15);
    let second = (first ^ (first >> 30)).wrapping_mul(0xbf58_476d_1ce4_e5b9);
    second ^ (second >> 27)
}

impl Address for u32 {
    fn before(self) -> u32 {
        self.wrapping_sub(1)
    }

    fn network(draw: u64) -> (u32, u8) {
        let len = (mixed(draw) % 33) as u32;
        let path = (mixed(draw % 4) >> 32) as u32;
        let sibling = if draw % 3 == 0 { 1_u32 } else { 0 };
        let host_bits = 32 - len;
        let kept = path.checked_shr(host_bits).unwrap_or(0) ^ sibling;
        (kept.checked_shl(host_bits).unwrap_or(0), len as u8)
    }
}

impl Address for u128 {
    fn before(self) -> u128 {
        self.wrapping_sub(1)
    }

    fn network(draw: u64) -> (u128, u8) {
        let len = (mixed(draw) % 129) as u32;
        let path = u128::from(mixed(draw % 4)) << 64 | u128::from(mixed(draw % 4 + 4));
        let sibling = if draw % 3 == 0 { 1_u128 } else { 0 };
        let host_bits = 128 - len;
        let kept = path.checked_shr(host_bits).unwrap_or(0) ^ sibling;
        (kept.checked_shl(host_bits).unwrap_or(0), len as u8)
    }
}

/// What is known of a table before a call.
#[derive(Clone, Copy, PartialEq)]
struct Before {
    hop: Option<Hop>,
    len: usize,
    groups: usize,
}

/// Returns what is known of a table.
fn state<K: Address, A: Allocator>(table: &Table<K, A>, network: &(K, u8)) -> Before {
    let hop = if network.fits() {
        table.map().get(network).copied()
    } else {
        None
    };
    Before {
        hop,
        len: table.len(),
        groups: table.group_count(),
    }
}

/// Returns whether nothing has changed at a network.
fn is_unchanged<K: Address, A: Allocator>(
    table: &Table<K, A>,
    network: &(K, u8),
    before: &Before,
) -> bool {
    state(table, network) == *before && agrees_around(table, network)
}

/// Inserts a network again and again, with one more allocation passing each time before one fails, until it is inserted.
///
/// Returns whether each failure leaves the table as it is, and the insertion of a stored network never fails.
fn inserts_at_last<K: Address, A: Allocator>(
    heap: &Refusing<Global>,
    table: &mut Table<K, A>,
    network: (K, u8),
    hop: Hop,
) -> bool {
    let before = state(table, &network);
    for passed in 0..MANY {
        heap.refuse(passed, 1);
        if !network.fits() {
            return false;
        }
        match table.insert(network, hop) {
            Ok(previous) => return previous == before.hop && (passed == 0 || before.hop.is_none()),
            Err(Refusal::Memory) => {
                if heap.left() != 0 || !is_unchanged(table, &network, &before) {
                    return false;
                }
            }
            Err(Refusal::IndexRange) => return false,
        }
    }
    false
}

/// Removes a network with all allocations failing. Returns whether its hop is that of the map before.
fn removes<K: Address, A: Allocator>(
    heap: &Refusing<Global>,
    table: &mut Table<K, A>,
    network: (K, u8),
) -> bool {
    let before = state(table, &network);
    heap.refuse(0, u64::MAX);
    network.fits() && table.remove(&network) == before.hop
}

/// Inserts or removes a network. Returns whether the table agrees with its map around it then.
fn takes_step<K: Address, A: Allocator>(
    heap: &Refusing<Global>,
    table: &mut Table<K, A>,
    draw: u64,
) -> bool {
    let network = K::network(draw / 8 % NETWORKS);
    let is_done = match Hop::new((draw % 4) as u32) {
        Some(hop) if draw % 8 < 4 => inserts_at_last(heap, table, network, hop),
        _ => removes(heap, table, network),
    };
    is_done && agrees_around(table, &network)
}

/// Returns whether a table has the groups that its networks need, and no slots but those of so many groups and of the root.
fn has_groups<K: Key, A: Allocator>(
    table: &Table<K, A>,
    root_bits: u32,
    root: usize,
    groups: usize,
) -> bool {
    (table.group_count() == groups_needed(table.map(), root_bits))
        & (table.slot_count() == groups.wrapping_mul(256).wrapping_add(root))
}

/// Takes steps on an empty table. Returns whether it always agrees with its map.
///
/// Free groups are used again before the array grows, so it has as many slots as were needed at once at most.
fn takes_steps<K: Address, A: Allocator>(
    heap: &Refusing<Global>,
    table: &mut Table<K, A>,
    root_bits: u32,
) -> bool {
    let root = table.slot_count();
    let mut most = 0;
    for step in 0..STEPS {
        if !takes_step(heap, table, mixed(step)) {
            return false;
        }
        most = table.group_count().max(most);
        if !has_groups(table, root_bits, root, most) || step % 8 == 7 && !agrees(table) {
            return false;
        }
    }
    most > 4
}

/// Returns whether a run on a new table is right.
fn runs<K: Address, A: Allocator + Copy>(
    heap: &Refusing<Global>,
    alloc: A,
    root_bits: u32,
) -> Result<bool, Refusal> {
    heap.refuse(0, 0);
    let mut table = Table::<K, A>::with_root_bits(alloc, root_bits)?;
    Ok(takes_steps(heap, &mut table, root_bits))
}

#[test]
fn ipv4_networks_come_and_go(rt: HostRuntime) {
    let heap = Refusing::new(rt.alloc());
    assert!(rt; runs::<u32, _>(&heap, &heap, 16) == Ok(true));
    assert!(rt; runs::<u32, _>(&heap, &heap, 7) == Ok(true));
}

#[test]
fn ipv6_networks_come_and_go(rt: HostRuntime) {
    let heap = Refusing::new(rt.alloc());
    assert!(rt; runs::<u128, _>(&heap, &heap, 16) == Ok(true));
    assert!(rt; runs::<u128, _>(&heap, &heap, 1) == Ok(true));
}
