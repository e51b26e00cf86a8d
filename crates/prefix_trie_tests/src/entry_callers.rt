//! Callers of entries, and what they learn about the map.
ghost use Rattle.std.specs.Prelude.{◌≡◌, true, ℕ, ◌+◌, ◌-◌, ◌<◌, ◌^◌, IfOk, OnOk, OnErr, Option, None, Some, IsTrue, IsFalse, is_some};
ghost use Rattle.std.specs.Borrow.{sem, LendsIf};
ghost use Rattle.std.specs.FinMap.{get, contains_key, len};
ghost use Rattle.std.specs.Option.{option_copied_mut};
ghost use Rattle.prefix_trie.specs.Terms.{listing, put_all, prefix_pairs, with_entry, with_needed, with_value_at, without_entry};
ghost use Rattle.prefix_trie_bits.specs.Model.Space.{LeavesSpace};
ghost use Rattle.prefix_trie_map.specs.Entry.{entry_value, with_entry_value};

use prefix_trie::map::Entry;
use prefix_trie::{Prefix, PrefixMap, Refusal, Refused};
use std::alloc::Allocator;

// Sets a value to nine, whether the prefix is new or not.
fn store_nine<P: Prefix, A: Allocator>(
    map: &mut PrefixMap<P, u64, A>,
    prefix: P,
) -> Result<(), Refusal>
    requires { P.IsFitting prefix }
    ensures entries { OnOk result (map.new.entries ≡ with_entry map.old.entries (P.path prefix) 9) }
    ensures nodes { OnOk result (map.new.nodes ≡ with_needed map.old.nodes (P.path prefix)) }
    ensures unchanged { OnErr result
        ((map.new.entries ≡ map.old.entries) × (map.new.nodes ≡ map.old.nodes)) }
{
    let value = map.entry(prefix).or_insert_with(|| 5)?;
    *value = 9;
    Ok(())
}

// Replaces a value that is known to be stored. This never fails.
fn write_stored<P: Prefix, A: Allocator>(map: &mut PrefixMap<P, u64, A>, prefix: P, value: u64)
    requires fits { P.IsFitting prefix }
    requires stored { contains_key map.old.entries (P.path prefix) ≡ true }
    ensures entries { map.new.entries ≡ with_entry map.old.entries (P.path prefix) value }
{
    match map.entry(prefix).or_insert(0) {
        Ok(lent) => *lent = value,
        Err(_) => unreachable!(),
    }
}

// Removes an entry, if it is stored.
fn remove_if_stored<P: Prefix, T: Drop, A: Allocator>(
    map: &mut PrefixMap<P, T, A>,
    prefix: P,
) -> Option<T>
    requires { P.IsFitting prefix }
    ensures value { result ≡ get map.old.entries (P.path prefix) }
    ensures entries { IsTrue (is_some result)
        → map.new.entries ≡ without_entry map.old.entries (P.path prefix) }
    ensures unchanged { IsFalse (is_some result) → map.new ≡ map.old }
    ensures nodes { map.new.nodes ≡ map.old.nodes }
{
    match map.entry(prefix) {
        Entry::Occupied(entry) => Some(entry.remove()),
        Entry::Vacant(_unfilled) => None,
    }
}

// Replaces a stored value. Returns whether there was one.
fn rewrite<P: Prefix, T: Drop, A: Allocator>(
    map: &mut PrefixMap<P, T, A>,
    prefix: P,
    value: T,
) -> bool
    requires { P.IsFitting prefix }
    ensures written { IsTrue result → map.new ≡ with_value_at map.old (P.path prefix) value }
    ensures unchanged { IsFalse result → map.new ≡ map.old }
{
    match map.entry(prefix) {
        Entry::Occupied(entry) => {
            *entry.into_mut() = value;
            true
        }
        Entry::Vacant(_unfilled) => false,
    }
}

// Copies a stored value and releases the entry.
fn read_and_release<P: Prefix, T: Copy, A: Allocator>(
    map: &mut PrefixMap<P, T, A>,
    prefix: P,
) -> Option<T>
    requires { P.IsFitting prefix }
    ensures value { result ≡ get map.old.entries (P.path prefix) }
    ensures unchanged { map.new ≡ map.old }
{
    match map.entry(prefix) {
        Entry::Occupied(entry) => {
            let value = *entry.get();
            entry.release();
            Some(value)
        }
        Entry::Vacant(_unfilled) => None,
    }
}

// Counts a prefix once more if it is stored.
fn count_again<P: Prefix, A: Allocator>(map: &mut PrefixMap<P, u64, A>, prefix: P)
    requires { P.IsFitting prefix }
    ensures again { (n : ℕ) → get map.old.entries (P.path prefix) ≡ Some n → n < 2 ^ 64 - 1
        → map.new ≡ with_value_at map.old (P.path prefix) (n + 1) }
    ensures unchanged { get map.old.entries (P.path prefix) ≡ None → map.new ≡ map.old }
{
    match map.entry(prefix).and_modify(|n| *n = n.saturating_add(1)) {
        Entry::Occupied(entry) => entry.release(),
        Entry::Vacant(_unfilled) => {}
    }
}

// What lends its value for writing, if it has one. Through such a bound, a proof follows the loan of an entry.
trait LendsValue: Sized {
    type Value: Drop;

    ghost held: { Self → Option Self.Value };

    ghost with: { Self → Self.Value → Self };

    // Returns the value for writing, if there is one.
    fn lend(&mut self) -> Option<&mut Self::Value>
        ensures* writes_back { sem 𝓛
            (LendsIf Self.row Self.Value.row self.entry result (with self.old) self.old) }
        ensures value { option_copied_mut result ≡ held self.old };
}

impl<'a, P: Prefix, T: Drop, A: Allocator> LendsValue for Entry<'a, P, T, A> {
    type Value = T;

    ghost held = { entry_value };

    ghost with = { with_entry_value };

    fn lend(&mut self) -> Option<&mut T> {
        self.get_mut()
    }
}

// Sets a value in its place. Returns whether there was one.
fn set_in_place<L: LendsValue>(lender: &mut L, value: L::Value) -> bool
    ensures held { result ≡ is_some (L.held lender.old) }
    ensures written { IsTrue result → lender.new ≡ L.with lender.old value }
    ensures unchanged { IsFalse result → lender.new ≡ lender.old }
{
    if let Some(lent) = lender.lend() {
        *lent = value;
        return true;
    }
    false
}

// Sets a stored value to nine in its place, and ends the entry. Returns whether there was one.
fn set_nine_in_place<P: Prefix, A: Allocator>(map: &mut PrefixMap<P, u64, A>, prefix: P) -> bool
    requires { P.IsFitting prefix }
    ensures held { result ≡ contains_key map.old.entries (P.path prefix) }
    ensures written { IsTrue result → map.new ≡ with_value_at map.old (P.path prefix) 9 }
    ensures unchanged { IsFalse result → map.new ≡ map.old }
{
    let mut entry = map.entry(prefix);
    let held = set_in_place(&mut entry, 9);
    match entry {
        Entry::Occupied(entry) => entry.release(),
        Entry::Vacant(_unfilled) => {}
    }
    held
}

// Swaps a stored value for another.
fn swap<P: Prefix, T: Drop, A: Allocator>(
    map: &mut PrefixMap<P, T, A>,
    prefix: P,
    value: T,
) -> Option<T>
    requires { P.IsFitting prefix }
    ensures before { result ≡ get map.old.entries (P.path prefix) }
    ensures written { IsTrue (is_some result)
        → map.new ≡ with_value_at map.old (P.path prefix) value }
    ensures unchanged { IsFalse (is_some result) → map.new ≡ map.old }
{
    match map.entry(prefix) {
        Entry::Occupied(entry) => Some(entry.insert(value)),
        Entry::Vacant(_unfilled) => None,
    }
}

// Sets a value through its entry.
fn set<P: Prefix, T: Drop, A: Allocator>(
    map: &mut PrefixMap<P, T, A>,
    prefix: P,
    value: T,
) -> Result<Option<T>, Refused<T>>
    requires { P.IsFitting prefix }
    ensures before { IfOk result (λ before. before ≡ get map.old.entries (P.path prefix)) }
    ensures entries { OnOk result
        (map.new.entries ≡ with_entry map.old.entries (P.path prefix) value) }
    ensures unchanged { OnErr result
        ((map.new.entries ≡ map.old.entries) × (map.new.nodes ≡ map.old.nodes)) }
    ensures space { LeavesSpace (len map.old.nodes) map.old.space map.new.space }
{
    map.entry(prefix).put(value).answer()
}

// Inserts all entries of one map into another, and stops at the first error.
fn fill_from<P: Prefix, A: Allocator>(
    to: &mut PrefixMap<P, u64, A>,
    from: &PrefixMap<P, u64, A>,
) -> Result<(), Refused<u64>>
    ensures { OnOk result
        (to.new.entries
        ≡ put_all P.path (prefix_pairs P.back (listing from.now.entries)) to.old.entries) }
{
    for (prefix, value) in from {
        to.entry(prefix).put(*value).answer()?;
    }
    Ok(())
}
