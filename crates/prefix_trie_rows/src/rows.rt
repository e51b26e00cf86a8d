//! The rows in order, each with its tables.
mod addresses;
mod blocks;
mod edges;
mod entries;
mod equality;
mod limits;
mod lookups;
mod narrow;
mod prefixes;
mod removals;
mod runs;
mod sets;
mod splitting;
mod texts;
mod walks;
mod widths;

use crate::run::{RunCall, all_reply};
use crate::table::narrow::{KeyCase, all_as_expected};
use crate::table::sets::{self as set_tables, SetLine};
use crate::table::{Line, all_hold};
use prefix_trie::{Ipv4Prefix, Ipv6Prefix, Narrow, Refusal};
use std::alloc::Global;

/// The tables of a row.
type Row = &'static [Table];

/// A table, with the type of its prefixes: IP networks, or pairs of a number and a length.
#[derive(Drop)]
pub enum Table {
    Ipv4(&'static [Line]),
    Ipv6(&'static [Line]),
    U8(&'static [Line]),
    U16(&'static [Line]),
    U32(&'static [Line]),
    U64(&'static [Line]),
    U128(&'static [Line]),
    Usize(&'static [Line]),
    Narrow3(&'static [Line]),
    Narrow5(&'static [Line]),
    Narrow10(&'static [Line]),
    /// Numbers that are narrow keys, and numbers that are not.
    NarrowKeys(&'static [KeyCase]),
    /// A run on a new map with this slot limit.
    Run(u32, &'static [RunCall]),
    /// Calls of a set.
    Set(Set),
}

/// A table of a set, with the type of its prefixes.
#[derive(Drop)]
pub enum Set {
    Ipv4(&'static [SetLine]),
    U8(&'static [SetLine]),
    U32(&'static [SetLine]),
    U128(&'static [SetLine]),
}

/// The numbers of the rows, in order.
pub const NUMBERS: [u32; 46] = [
    1, 2, 3, 4, 5, 6, 7, 8, 9, 10, 11, 13, 14, 15, 17, 18, 19, 20, 21, 22, 23, 24, 25, 26, 27, 28,
    29, 30, 31, 32, 33, 34, 35, 36, 37, 38, 39, 40, 41, 42, 44, 45, 46, 47, 48, 49,
];

/// The rows, each with its number.
const ROWS: [(u32, Row); 46] = [
    (1, &[Table::Ipv4(&lookups::EXACT)]),
    (2, &[Table::Ipv4(&entries::HOST_BITS)]),
    (3, &[Table::Ipv4(&lookups::MATCHES)]),
    (4, &[Table::Ipv4(&walks::ALL_ADDRESSES)]),
    (5, &[Table::U32(&widths::HOSTS_OF_32_BITS)]),
    (6, &[Table::U128(&widths::ENDS_OF_128_BITS)]),
    (7, &[Table::Ipv4(&walks::IN_LISTING_ORDER)]),
    (8, &[Table::Ipv4(&walks::AFTER_A_NETWORK)]),
    (9, &[Table::Ipv4(&removals::BELOW_A_NETWORK)]),
    (10, &[Table::U32(&removals::NODES_LEFT)]),
    (
        11,
        &[
            Table::Set(Set::U8(&sets::HALVES)),
            Table::Ipv4(&addresses::WITHIN_ANOTHER),
        ],
    ),
    (13, &[Table::U32(&limits::FOUR_SLOTS)]),
    (14, &[Table::U8(&blocks::FULL_ROOT)]),
    (15, &[Table::U8(&blocks::ALL_ADDRESSES)]),
    (17, &[Table::U8(&blocks::STEPS)]),
    (18, &[Table::Ipv4(&removals::EVEN_VALUES_KEPT)]),
    (19, &[Table::U8(&widths::ENDS_OF_8_BITS)]),
    (20, &[Table::Ipv4(&entries::COUNTED)]),
    (21, &[Table::Ipv4(&walks::WRITTEN_AND_TAKEN)]),
    (22, &[Table::U32(&removals::PRUNED_ON_THE_PATH)]),
    (
        23,
        &[
            Table::U8(&equality::IN_EITHER_ORDER),
            Table::Set(Set::U8(&sets::EQUAL)),
        ],
    ),
    (
        24,
        &[
            Table::U32(&texts::NESTED),
            Table::Set(Set::U32(&sets::PAIRS_AS_TEXT)),
        ],
    ),
    (25, &[Table::Ipv4(&walks::AROUND_A_NETWORK)]),
    (
        26,
        &[
            Table::Ipv4(&prefixes::NETWORKS),
            Table::U8(&prefixes::PAIRS),
        ],
    ),
    (27, &[Table::Run(u32::MAX, &runs::REPLIES_IN_ORDER)]),
    (28, &[Table::Run(u32::MAX, &runs::HOST_BITS)]),
    (
        29,
        &[
            Table::U64(&widths::ENDS_OF_U64),
            Table::Usize(&widths::ENDS_OF_USIZE),
        ],
    ),
    (
        30,
        &[
            Table::U16(&widths::ENDS_OF_16_BITS),
            Table::Ipv6(&prefixes::LENGTHS_OF_IPV6),
        ],
    ),
    (31, &[Table::U32(&removals::BELOW_HALF_NODES)]),
    (32, &[Table::U32(&removals::EMPTY_NODES_ELSEWHERE)]),
    (33, &[Table::U8(&entries::FILLED)]),
    (34, &[Table::U8(&walks::FROM_AND_BELOW)]),
    (
        35,
        &[
            Table::Set(Set::U8(&sets::SHARED_ADDRESSES)),
            Table::Set(Set::U128(&sets::ADDRESSES_OF_128_BITS)),
        ],
    ),
    (
        36,
        &[
            Table::Ipv4(&texts::NETWORKS),
            Table::Ipv6(&texts::IPV6),
            Table::Set(Set::Ipv4(&sets::NETWORKS_AS_TEXT)),
        ],
    ),
    (37, &[Table::U32(&blocks::TWO_HOSTS)]),
    (38, &[Table::U8(&limits::KEPT_BLOCKS)]),
    (39, &[Table::Set(Set::U8(&sets::ONE_SLOT))]),
    (40, &[Table::Run(2, &runs::UNDER_TWO_SLOTS)]),
    (
        41,
        &[
            Table::U8(&edges::ENDS_OF_ALL_ONES),
            Table::U128(&edges::LAST_OF_128_BITS),
        ],
    ),
    (42, &[Table::Ipv4(&edges::EACH_SECOND_KEPT)]),
    (44, &[Table::NarrowKeys(&narrow::ENDS_OF_WIDTHS)]),
    (45, &[Table::Narrow10(&narrow::TWICE_FIVE_BITS)]),
    (
        46,
        &[
            Table::Narrow3(&narrow::THREE_BITS),
            Table::Narrow5(&narrow::FIVE_BITS),
        ],
    ),
    (47, &[Table::Ipv4(&splitting::A_NETWORK)]),
    (
        48,
        &[
            Table::U32(&splitting::ALL_AND_NONE),
            Table::Set(Set::U32(&splitting::ALL_KEYS)),
        ],
    ),
    (49, &[Table::U8(&splitting::UNDER_THREE_SLOTS)]),
];

/// Returns whether there is a row with this number, and all its tables hold.
pub fn row_holds(alloc: Global, number: u32) -> bool {
    for (other, row) in &ROWS {
        if *other == number {
            return all_hold_in(alloc, row);
        }
    }
    false
}

fn all_hold_in(alloc: Global, row: &[Table]) -> bool {
    for table in row {
        if holds(alloc, table) != Ok(true) {
            return false;
        }
    }
    true
}

fn holds(alloc: Global, table: &Table) -> Result<bool, Refusal> {
    match table {
        Table::Ipv4(lines) => all_hold::<Ipv4Prefix>(alloc, lines),
        Table::Ipv6(lines) => all_hold::<Ipv6Prefix>(alloc, lines),
        Table::U8(lines) => all_hold::<(u8, u8)>(alloc, lines),
        Table::U16(lines) => all_hold::<(u16, u8)>(alloc, lines),
        Table::U32(lines) => all_hold::<(u32, u8)>(alloc, lines),
        Table::U64(lines) => all_hold::<(u64, u8)>(alloc, lines),
        Table::U128(lines) => all_hold::<(u128, u8)>(alloc, lines),
        Table::Usize(lines) => all_hold::<(usize, u8)>(alloc, lines),
        Table::Narrow3(lines) => all_hold::<(Narrow<3>, u8)>(alloc, lines),
        Table::Narrow5(lines) => all_hold::<(Narrow<5>, u8)>(alloc, lines),
        Table::Narrow10(lines) => all_hold::<(Narrow<10>, u8)>(alloc, lines),
        Table::NarrowKeys(table) => Ok(all_as_expected(table)),
        Table::Run(limit, lines) => all_reply::<(u8, u8)>(alloc, *limit, lines),
        Table::Set(set) => holds_of_set(alloc, set),
    }
}

fn holds_of_set(alloc: Global, set: &Set) -> Result<bool, Refusal> {
    match set {
        Set::Ipv4(lines) => set_tables::all_hold::<Ipv4Prefix>(alloc, lines),
        Set::U8(lines) => set_tables::all_hold::<(u8, u8)>(alloc, lines),
        Set::U32(lines) => set_tables::all_hold::<(u32, u8)>(alloc, lines),
        Set::U128(lines) => set_tables::all_hold::<(u128, u8)>(alloc, lines),
    }
}
