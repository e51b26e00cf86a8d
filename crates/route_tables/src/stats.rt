//! Counts and sizes of a table as a whole.
ghost use Rattle.std.specs.Prelude.{◌≡◌, ◌≤◌, ◌==◌, ◌+◌, ℕ, IfOk, filter, length, slice_index};
ghost use Rattle.prefix_trie.specs.Terms.{listing, prefix_pairs};

use crate::table::FamilyTable;
use crate::value::Value;
use arrayvec::ArrayString;
use prefix_trie::Prefix;
use prefix_trie::laws::{listed_laws, walk_laws};
use std::alloc::{AllocError, Global};
use std::fmt::Write;
use std::mem::size_of;

/// The capacity for the longest number of addresses, 2^128.
pub const LONGEST: usize = 39;

/// Counts and sizes of a table of one family.
#[derive(Drop)]
pub struct Counts {
    /// The number of networks.
    pub entries: usize,
    /// The number of nodes in use.
    pub nodes: usize,
    /// The number of slots of the array of nodes.
    pub node_slots: usize,
    /// The number of slots of the array of values.
    pub value_slots: usize,
    /// The number of bytes of both arrays.
    pub array_bytes: usize,
    /// The number of addresses in the networks, each counted once, in decimal.
    pub addresses: ArrayString<LONGEST>,
    /// What is counted for each network.
    pub listed: Listed,
}

/// What is counted for each network of a table.
#[derive(Drop)]
pub struct Listed {
    /// The number of networks of each length, from 0 to the width.
    pub by_length: Vec<usize>,
    /// The number of bytes of the texts of all values.
    pub value_bytes: usize,
}

/// Counts a table.
///
/// # Errors
///
/// Returns the allocator's error if an allocation fails.
///
/// # Examples
///
/// ```rust
/// let table = load(b"10.0.0.0/8 core\n", alloc)?.table;
/// let counts = count_all(&table.ipv4, alloc)?;
/// counts.entries;                             // 1
/// counts.array_bytes;                         // 74: two slots of nodes and one of values
/// counts.addresses.as_str();                  // "16777216"
/// ```
pub fn count_all<P: Prefix>(table: &FamilyTable<P>, alloc: Global) -> Result<Counts, AllocError> {
    let listed = count_listed(table, alloc)?;
    Ok(Counts {
        entries: table.len(),
        nodes: table.node_count(),
        node_slots: table.node_slots(),
        value_slots: table.cell_slots(),
        array_bytes: array_bytes(table),
        addresses: address_count(table),
        listed,
    })
}

/// Counts the networks of each length, and the bytes of the texts of their values.
///
/// # Errors
///
/// Returns the allocator's error if an allocation fails.
///
/// # Examples
///
/// ```rust
/// let table = load(b"10.0.0.0/8 core\n10.1.0.0/16 edges\n", alloc)?.table;
/// let listed = count_listed(&table.ipv4, alloc)?;
/// let counts = &listed.by_length;
/// (counts[8], counts[16], counts.len());      // (1, 1, 33)
/// listed.value_bytes;                         // 9
/// ```
pub fn count_listed<P: Prefix>(table: &FamilyTable<P>, alloc: Global) -> Result<Listed, AllocError>
    ensures each { IfOk result (λ listed. (len : ℕ) → len ≤ P.R.bit_width
        → slice_index listed.by_length.items len
        ≡ length (filter (λ e. P.len_of e.0 == len)
        (prefix_pairs P.back (listing table.now.entries)))) }
    ensures long { IfOk result (λ listed. length listed.by_length.items ≡ P.R.bit_width + 1) }
{
    listed_laws::<P, Value>();
    walk_laws::<P, Value>();
    let width = P::num_bits() as usize;
    let mut by_length = vec![in alloc; 0; width + 1]?;
    let mut value_bytes: usize = 0;
    for (network, value) in table {
        by_length[usize::from(network.prefix_len())] += 1;
        value_bytes = value_bytes.saturating_add(value.as_str().len());
    }
    Ok(Listed {
        by_length,
        value_bytes,
    })
}

// Returns the number of bytes of the two arrays of a table.
//
// A slot of nodes has 17 bytes, and a slot of values has an `Option<Value>`.
fn array_bytes<P: Prefix>(table: &FamilyTable<P>) -> usize {
    let nodes = table.node_slots().saturating_mul(NODE_BYTES);
    let values = table
        .cell_slots()
        .saturating_mul(size_of::<Option<Value>>());
    nodes.saturating_add(values)
}

// The bytes of a slot of nodes.
const NODE_BYTES: usize = 17;

/// Returns the number of addresses in the networks of a table, each counted once, in decimal.
///
/// # Examples
///
/// ```rust
/// let table = load(b"10.0.0.0/8 core\n10.1.0.0/16 edge\n", alloc)?.table;
/// address_count(&table.ipv4).as_str();        // "16777216"
/// ```
pub fn address_count<P: Prefix>(table: &FamilyTable<P>) -> ArrayString<LONGEST> {
    let mut text = ArrayString::new();
    // a number of addresses fits the capacity
    let _ = match table.address_count() {
        Some(count) => write!(text, "{count:?}"),
        None => match 1u128.checked_shl(P::num_bits()) {
            Some(all) => write!(text, "{all}"),
            None => text.write_str("340282366920938463463374607431768211456"),
        },
    };
    text
}
