//! Tables: calls of a map with the expected results, and what makes these calls.
mod blocks;
mod comparing;
mod consuming;
mod entries;
mod lookups;
pub mod narrow;
mod numbers;
mod prefixes;
pub mod sets;
mod splitting;
mod texts;
mod walks;
mod writing;

use blocks::{CELL_SIZES, NODE_SIZES, has_blocks};
pub use numbers::{Number, is_number};
use prefix_trie::{Prefix, PrefixMap, Refusal, Refused};
pub use prefixes::{TablePrefix, fitting_prefix, is_prefix};
use std::alloc::Global;

/// The map of a table, from prefixes to numbers.
pub type Map<P> = PrefixMap<P, u64, Global>;

/// A prefix as tables write it: a number and a length.
pub type Pair = (Number, u8);

/// An entry as tables write it.
pub type Entry = (Pair, u64);

/// A call of a map. The last field is the expected result, if the call has one.
#[derive(Drop)]
pub enum Line {
    /// Continues with a new map. Each table starts with one.
    New,
    /// Continues with a new map with this slot limit, if it can be made.
    WithSlotLimit(u32, Result<(), Refusal>),
    /// Inserts a value. The result is the previous value, or the reason why the new one was refused and returned.
    Insert(Pair, u64, Result<Option<u64>, Refusal>),
    /// Inserts new prefixes in order, with values from 0 up.
    InsertAll(&'static [Pair]),
    Get(Pair, Option<u64>),
    GetKeyValue(Pair, Option<Entry>),
    GetLpm(Pair, Option<Entry>),
    GetSpm(Pair, Option<Entry>),
    /// Finds the last prefix by a lookup of the first, and sets its value to the number.
    GetLpmMut(Pair, u64, Pair),
    IsCovered(Pair, bool),
    /// All entries, in order.
    Entries(&'static [Entry]),
    /// All prefixes, in order, with values from 0 up.
    Iter(&'static [Pair]),
    Values(&'static [u64]),
    /// The first values of the walk from a prefix: this many, or all if there are fewer.
    IterFrom(Pair, bool, usize, &'static [u64]),
    Children(Pair, &'static [u64]),
    /// Adds the number to each value that the walk from a prefix lends.
    IterFromMut(Pair, bool, u64),
    /// Multiplies each value that the prefix contains by the number.
    ChildrenMut(Pair, u64),
    /// Sets the first value to the number, and drops the walk.
    ValuesMut(u64),
    /// A consuming walk over the children in a clone yields these entries.
    IntoChildren(Pair, &'static [Entry]),
    /// A consuming walk over the keys of a clone yields these prefixes.
    IntoKeys(&'static [Pair]),
    Cover(Pair, &'static [Entry]),
    CoverValues(Pair, &'static [u64]),
    Remove(Pair, Option<u64>),
    RemoveKeepTree(Pair, Option<u64>),
    DropChildren(Pair),
    /// Splits off a map, for which these lines hold.
    RemoveChildren(Pair, &'static [Line]),
    /// The prefix of an entry.
    EntryKey(Pair, Pair),
    /// The value of an entry.
    EntryGet(Pair, Option<u64>),
    /// Sets a value through an entry. The result is the previous value.
    EntryInsert(Pair, u64, Result<Option<u64>, Refusal>),
    /// Adds one by `and_modify`, and inserts the first number by `or_insert`. The result is the value.
    AddOrInsert(Pair, u64, u64),
    /// Calls `or_default`, which lends the first number, and sets the value to the second.
    OrDefault(Pair, u64, u64),
    /// Calls `or_insert_with` with a closure that returns the first number.
    ///
    /// The call lends the second number, and calls the closure this many times.
    OrInsertWith(Pair, u64, u64, u64),
    /// The value that an occupied entry returns when it is removed, or `None` if the entry is vacant.
    RemoveEntry(Pair, Option<u64>),
    /// The values that the test is called with, in order, and what it returns.
    Retain(&'static [(u64, bool)]),
    Clear,
    /// The number of entries. The map is empty exactly if it is 0.
    Len(usize),
    NodeCount(usize),
    AddressCount(Option<Number>),
    NodeSlots(usize),
    CellSlots(usize),
    /// The number of used and of free blocks of each size.
    NodeBlocks([usize; 7], [usize; 7]),
    CellBlocks([usize; 7], [usize; 7]),
    /// A clone is equal to its map, and has its slots and blocks.
    Clone,
    /// Whether a new map with these entries, inserted in this order, is equal to the map.
    Equals(&'static [Entry], bool),
    /// The map as text.
    Text(&'static str),
    /// A prefix as text.
    PrefixText(Pair, &'static str),
    /// Whether there is a prefix with this number and length.
    IsPrefix(Pair, bool),
    Fits(Pair, bool),
    Mask(Pair, Number),
    /// Whether the first prefix contains the second.
    Contains(Pair, Pair, bool),
}

/// Returns whether all calls of a table have the expected results.
///
/// # Errors
///
/// Returns an error if the first map cannot be made.
pub fn all_hold<P: TablePrefix>(alloc: Global, lines: &[Line]) -> Result<bool, Refusal> {
    let mut map: Map<P> = PrefixMap::new(alloc)?;
    Ok(hold_in_order(alloc, &mut map, lines))
}

/// Returns whether all calls have the expected results, when they are made on a map in order.
fn hold_in_order<P: TablePrefix>(alloc: Global, map: &mut Map<P>, lines: &[Line]) -> bool {
    for line in lines {
        if !holds(alloc, map, line) {
            return false;
        }
    }
    true
}

/// Returns whether a call has the expected result.
fn holds<P: TablePrefix>(alloc: Global, map: &mut Map<P>, line: &Line) -> bool {
    match line {
        Line::New => replaces(map, PrefixMap::new(alloc), Ok(())),
        Line::WithSlotLimit(limit, expected) => {
            replaces(map, PrefixMap::with_slot_limit(alloc, *limit), *expected)
        }
        Line::Insert(pair, value, expected) => inserts(map, *pair, *value, *expected),
        Line::InsertAll(pairs) => inserts_all(map, pairs),
        Line::GetLpmMut(pair, value, expected) => writes(map, *pair, *value, *expected),
        Line::Remove(pair, expected) => removes(map, *pair, *expected),
        Line::RemoveKeepTree(pair, expected) => removes_keeping_tree(map, *pair, *expected),
        Line::DropChildren(pair) => drops_children(map, *pair),
        Line::RemoveChildren(pair, lines) => splitting::splits_off(map, *pair, lines),
        Line::Retain(asked) => retains(map, asked),
        Line::Clear => clears(map),
        Line::IterFromMut(pair, inclusive, more) => writing::adds(map, *pair, *inclusive, *more),
        Line::ChildrenMut(pair, factor) => writing::multiplies(map, *pair, *factor),
        Line::ValuesMut(value) => writing::sets_first(map, *value),
        Line::Equals(entries, expected) => comparing::equals(alloc, map, entries, *expected),
        Line::Text(text) => texts::is_text(alloc, map, text),
        Line::PrefixText(pair, text) => texts::is_prefix_text::<P>(alloc, *pair, text),
        _ => holds_at_entry(map, line),
    }
}

/// Returns whether a call of an entry has the expected result.
fn holds_at_entry<P: TablePrefix>(map: &mut Map<P>, line: &Line) -> bool {
    match line {
        Line::EntryKey(pair, expected) => entries::has_key(map, *pair, *expected),
        Line::EntryGet(pair, expected) => entries::has_value(map, *pair, *expected),
        Line::EntryInsert(pair, value, expected) => entries::inserts(map, *pair, *value, *expected),
        Line::AddOrInsert(pair, fresh, expected) => entries::adds(map, *pair, *fresh, *expected),
        Line::OrDefault(pair, expected, then) => entries::or_default(map, *pair, *expected, *then),
        Line::OrInsertWith(pair, fresh, expected, calls) => {
            entries::or_insert_with(map, *pair, *fresh, *expected, *calls)
        }
        Line::RemoveEntry(pair, expected) => entries::removes(map, *pair, *expected),
        _ => holds_unchanged(map, line),
    }
}

/// Returns whether a call that does not change the map has the expected result.
fn holds_unchanged<P: TablePrefix>(map: &Map<P>, line: &Line) -> bool {
    match line {
        Line::Get(pair, expected) => lookups::gets(map, *pair, *expected),
        Line::GetKeyValue(pair, expected) => lookups::finds(map, *pair, *expected),
        Line::GetLpm(pair, expected) => lookups::finds_longest(map, *pair, *expected),
        Line::GetSpm(pair, expected) => lookups::finds_shortest(map, *pair, *expected),
        Line::IsCovered(pair, expected) => lookups::is_covered(map, *pair, *expected),
        Line::Entries(entries) => walks::lists_entries(map, entries),
        Line::Iter(pairs) => walks::lists(map, pairs),
        Line::Values(values) => map.values().eq(*values),
        Line::IterFrom(pair, inclusive, count, values) => {
            walks::goes_on_from(map, *pair, *inclusive, *count, values)
        }
        Line::Children(pair, values) => walks::has_children(map, *pair, values),
        Line::Cover(pair, entries) => walks::covers(map, *pair, entries),
        Line::CoverValues(pair, values) => walks::covers_values(map, *pair, values),
        Line::Len(count) => map.len() == *count && map.is_empty() == (*count == 0),
        Line::NodeCount(count) => map.node_count() == *count,
        Line::AddressCount(count) => is_number(map.address_count(), *count),
        Line::NodeSlots(count) => map.node_slots() == *count,
        Line::CellSlots(count) => map.cell_slots() == *count,
        Line::NodeBlocks(used, free) => has_blocks(map.node_blocks(), NODE_SIZES, *used, *free),
        Line::CellBlocks(used, free) => has_blocks(map.cell_blocks(), CELL_SIZES, *used, *free),
        Line::IntoChildren(pair, entries) => consuming::gives_children(map, *pair, entries),
        Line::IntoKeys(pairs) => consuming::gives_keys(map, pairs),
        Line::Clone => comparing::clones(map),
        _ => prefixes::holds_of_prefix::<P>(line),
    }
}

/// Continues with another map, if it could be made.
fn replaces<P: Prefix>(
    map: &mut Map<P>,
    made: Result<Map<P>, Refusal>,
    expected: Result<(), Refusal>,
) -> bool {
    match made {
        Ok(fresh) => {
            *map = fresh;
            expected.is_ok()
        }
        Err(cause) => expected == Err(cause),
    }
}

fn inserts<P: TablePrefix>(
    map: &mut Map<P>,
    pair: Pair,
    value: u64,
    expected: Result<Option<u64>, Refusal>,
) -> bool {
    match fitting_prefix::<P>(pair) {
        Some(prefix) => map.insert(prefix, value)
            == expected.map_err(|cause| Refused { cause, value }),
        None => false,
    }
}

fn inserts_all<P: TablePrefix>(map: &mut Map<P>, pairs: &[Pair]) -> bool {
    let mut value = 0_u64;
    for pair in pairs {
        if !inserts(map, *pair, value, Ok(None)) {
            return false;
        }
        value = value.wrapping_add(1);
    }
    true
}

fn writes<P: TablePrefix>(map: &mut Map<P>, pair: Pair, value: u64, expected: Pair) -> bool {
    let Some(prefix) = fitting_prefix::<P>(pair) else {
        return false;
    };
    match map.get_lpm_mut(&prefix) {
        Some((found, stored)) => {
            *stored = value;
            is_prefix(&found, expected)
        }
        None => false,
    }
}

fn removes<P: TablePrefix>(map: &mut Map<P>, pair: Pair, expected: Option<u64>) -> bool {
    match fitting_prefix::<P>(pair) {
        Some(prefix) => map.remove(&prefix) == expected,
        None => false,
    }
}

fn removes_keeping_tree<P: TablePrefix>(
    map: &mut Map<P>,
    pair: Pair,
    expected: Option<u64>,
) -> bool {
    match fitting_prefix::<P>(pair) {
        Some(prefix) => map.remove_keep_tree(&prefix) == expected,
        None => false,
    }
}

fn drops_children<P: TablePrefix>(map: &mut Map<P>, pair: Pair) -> bool {
    match fitting_prefix::<P>(pair) {
        Some(prefix) => {
            map.drop_children(&prefix);
            true
        }
        None => false,
    }
}

/// Returns whether a test is called with these values, each once and in order.
fn retains<P: Prefix>(map: &mut Map<P>, asked: &[(u64, bool)]) -> bool {
    let mut count = 0_usize;
    let mut in_order = true;
    keep_where(map, |_, value| {
        let (expected, is_kept) = asked.get(count).copied().unwrap_or((0, false));
        in_order = in_order && *value == expected;
        count = count.saturating_add(1);
        is_kept
    });
    in_order && count == asked.len()
}

/// Keeps the entries for which a test returns `true`. It has no `ensures`, because its caller would have to read it.
#[tactic(auto, using(prefix_trie::proofs::Always::may_ask_of_map))]
fn keep_where<P: Prefix, F: FnMut(&P, &u64) -> bool + Drop>(map: &mut Map<P>, test: F)
    requires { F.IsAlwaysCallable test }
{
    map.retain(test);
}

fn clears<P: Prefix>(map: &mut Map<P>) -> bool {
    map.clear();
    true
}
