//! A long run of all sixteen kinds of calls, compared with a sorted list.
ghost use Rattle.std.specs.Prelude.{◌≤◌, All, IfOk};
ghost use Rattle.prefix_trie.specs.Terms.{IsFittingCall};

use crate::cases::found::slots_add_up;
use crate::cases::{Pair, prefix_of};
use crate::on_new::on_new;
use prefix_trie::replay::{Call, Reply, run};
use prefix_trie::{Prefix, PrefixMap};
use std::alloc::{AllocError, Global};

/// The number of runs, and the number of calls in each.
const RUNS: u64 = 100;

const CALLS: u64 = 1_000;

/// A number and a length.
pub type Key = (u8, u8);

/// A key without host bits, and its value.
type Entry = (Key, u64);

type Map = PrefixMap<Key, u64, Global>;

/// The random choices for one call.
#[derive(Clone, Copy)]
struct Draw<K> {
    kind: u64,
    at: Pair<K>,
    is_even: bool,
}

/// Returns the random number after this one.
fn next_random(x: u64) -> u64 {
    x.wrapping_mul(1_103_515_245).wrapping_add(12_345) % 0x8000_0000
}

/// Returns a random number for the kind of a call, and a random key.
pub fn random_call(x: &mut u64) -> (u64, Key)
    ensures { result.1.1 ≤ 8 }
{
    let call = next_random(*x);
    let number = next_random(call);
    let len = next_random(number);
    *x = len;
    (
        call / 65_536 % 1024,
        ((number / 65_536 % 256) as u8, (len / 65_536 % 9) as u8),
    )
}

/// Returns the key with the first bits of a number, without host bits.
fn without_host_bits(number: u8, len: u8) -> Key {
    let host_bits = 0xff_u8.checked_shr(u32::from(len)).unwrap_or(0);
    (number & !host_bits, len)
}

/// Returns the rank of a key without host bits in listing order: a string comes before its extensions, and 0 before 1.
fn rank(key: Key) -> u16 {
    u16::from(key.0) * 256 + u16::from(key.1)
}

/// Returns whether an entry with this key contains another key.
fn contains(key: Key, asked: Key) -> bool {
    key.1 <= asked.1 && key == without_host_bits(asked.0, key.1)
}

fn exact_match(list: &[Entry], asked: Key) -> Option<u64> {
    for entry in list {
        if entry.0 == without_host_bits(asked.0, asked.1) {
            return Some(entry.1);
        }
    }
    None
}

/// Returns the shortest match: the first entry in listing order that contains the key.
fn shortest_match(list: &[Entry], asked: Key) -> Option<Entry> {
    for entry in list {
        if contains(entry.0, asked) {
            return Some(*entry);
        }
    }
    None
}

/// Returns the longest match: the last entry in listing order that contains the key.
fn longest_match(list: &[Entry], asked: Key) -> Option<Entry> {
    let mut last = None;
    for entry in list {
        if contains(entry.0, asked) {
            last = Some(*entry);
        }
    }
    last
}

/// Returns the number of keys of all eight bits that an entry contains, or `None` if all are.
fn address_count(list: &[Entry]) -> Option<u8> {
    let mut count = 0_u8;
    for number in 0..256_u16 {
        if shortest_match(list, (number as u8, 8)).is_some() {
            count = count.checked_add(1)?;
        }
    }
    Some(count)
}

/// Returns one of the thirteen kinds of call that are equally likely.
fn other_call<P: Prefix>(which: u64, at: P, inclusive: bool) -> Call<P>
    requires { P.IsFitting at }
    ensures { IsFittingCall P.IsFitting result }
{
    match which {
        0 => Call::Get(at),
        1 => Call::Lpm(at),
        2 => Call::Spm(at),
        3 => Call::Remove(at),
        4 => Call::RemoveKeepTree(at),
        5 => Call::RemoveChildren(at),
        6 => Call::Len,
        7 => Call::NodeCount,
        8 => Call::AddressCount,
        9 => Call::List,
        10 => Call::ListFrom(at, inclusive),
        11 => Call::Children(at),
        _ => Call::Cover(at),
    }
}

/// Returns the call for some choices. An insertion sets this value.
fn call_of<P: Prefix>(draw: &Draw<P::R>, value: u64) -> Call<P>
    ensures { IsFittingCall P.IsFitting result }
{
    let at = prefix_of::<P>(draw.at);
    match draw.kind {
        0..600 => Call::Insert(at, value),
        600 => Call::Clear,
        601 => Call::RetainAtLeast(draw.at.1),
        kind => other_call(kind.wrapping_sub(602) % 13, at, draw.is_even),
    }
}

/// Returns the calls of a run. The first has this index.
fn calls_of<P: Prefix>(
    alloc: Global,
    draws: &[Draw<P::R>],
    first: u64,
) -> Result<Vec<Call<P>>, AllocError>
    ensures { IfOk result (λ calls. All (IsFittingCall P.IsFitting) calls.items) }
{
    let mut calls = Vec::new(alloc);
    for draw in draws {
        let index = first.wrapping_add(calls.len() as u64);
        calls.push(call_of::<P>(draw, index))?;
    }
    Ok(calls)
}

/// Returns the choices for a run.
fn random_run(alloc: Global, x: &mut u64) -> Result<Vec<Draw<u8>>, AllocError> {
    let mut draws = Vec::new(alloc);
    for _index in 0..CALLS {
        let (kind, at) = random_call(x);
        let is_even = at.0 % 2 == 0;
        draws.push(Draw { kind, at, is_even })?;
    }
    Ok(draws)
}

/// Returns whether the list that a call returns has the entry of this key.
fn selects(call: &Call<Key>, key: Key) -> bool {
    match call {
        Call::List => true,
        Call::ListFrom((number, len), inclusive) => {
            let from = rank(without_host_bits(*number, *len));
            from < rank(key) || (*inclusive && from == rank(key))
        }
        Call::Children((number, len)) => contains(without_host_bits(*number, *len), key),
        Call::Cover(at) => contains(key, *at),
        Call::Insert(..) | Call::Get(_) | Call::Lpm(_) | Call::Spm(_) => false,
        Call::Remove(_) | Call::RemoveKeepTree(_) | Call::RemoveChildren(_) => false,
        Call::RetainAtLeast(_) | Call::Clear => false,
        Call::Len | Call::NodeCount | Call::AddressCount => false,
    }
}

/// Returns whether a call returns these entries.
fn are_selected(entries: &[Entry], call: &Call<Key>, list: &[Entry]) -> bool {
    let mut index = 0_usize;
    for entry in list {
        if selects(call, entry.0) {
            if entries.get(index) != Some(entry) {
                return false;
            }
            index = index.wrapping_add(1);
        }
    }
    index == entries.len()
}

/// Returns whether a reply is that of the list before the call.
///
/// The list has no nodes, so a node count is only compared with 1.
fn is_reply(reply: &Reply<Key, Global>, call: &Call<Key>, list: &[Entry]) -> bool {
    match call {
        Call::Insert(at, _) | Call::Get(at) | Call::Remove(at) | Call::RemoveKeepTree(at) => {
            matches!(reply, Reply::Value(value) if *value == exact_match(list, *at))
        }
        Call::Lpm(at) => matches!(reply, Reply::Match(found) if *found == longest_match(list, *at)),
        Call::Spm(at) =>
            matches!(reply, Reply::Match(found) if *found == shortest_match(list, *at)),
        Call::Len => matches!(reply, Reply::Count(count) if *count == list.len()),
        Call::NodeCount => matches!(reply, Reply::Count(count) if 1 <= *count),
        Call::AddressCount => {
            matches!(reply, Reply::Addresses(count) if *count == address_count(list))
        }
        Call::RemoveChildren(_) | Call::RetainAtLeast(_) | Call::Clear => {
            matches!(reply, Reply::Done)
        }
        Call::List | Call::ListFrom(..) | Call::Children(_) | Call::Cover(_) => {
            matches!(reply, Reply::Entries(entries) if are_selected(entries, call, list))
        }
    }
}

/// Returns whether a call leaves the entry of this key unchanged.
fn keeps(call: &Call<Key>, key: Key) -> bool {
    match call {
        Call::Insert((number, len), _)
        | Call::Remove((number, len))
        | Call::RemoveKeepTree((number, len)) => key != without_host_bits(*number, *len),
        Call::RemoveChildren((number, len)) => !contains(without_host_bits(*number, *len), key),
        Call::RetainAtLeast(len) => *len <= key.1,
        Call::Clear => false,
        Call::Get(_) | Call::Lpm(_) | Call::Spm(_) => true,
        Call::Len | Call::NodeCount | Call::AddressCount => true,
        Call::List | Call::ListFrom(..) | Call::Children(_) | Call::Cover(_) => true,
    }
}

/// Returns the entries that a call leaves unchanged.
fn entries_kept(alloc: Global, list: &[Entry], call: &Call<Key>) -> Result<Vec<Entry>, AllocError> {
    let mut left = Vec::new(alloc);
    for entry in list {
        if keeps(call, entry.0) {
            left.push(*entry)?;
        }
    }
    Ok(left)
}

/// Returns the list with a new entry before the first one of a higher rank. No entry has its key.
fn list_with(alloc: Global, list: &[Entry], added: Entry) -> Result<Vec<Entry>, AllocError> {
    let mut all = Vec::new(alloc);
    let mut is_in = false;
    for entry in list {
        if !is_in && rank(added.0) < rank(entry.0) {
            all.push(added)?;
            is_in = true;
        }
        all.push(*entry)?;
    }
    if !is_in {
        all.push(added)?;
    }
    Ok(all)
}

/// Returns the list after a call.
fn list_after(alloc: Global, list: &[Entry], call: &Call<Key>) -> Result<Vec<Entry>, AllocError> {
    let left = entries_kept(alloc, list, call)?;
    match call {
        Call::Insert((number, len), value) => list_with(
            alloc,
            &left,
            (without_host_bits(*number, *len), *value),
        ),
        _ => Ok(left),
    }
}

/// Makes the calls on the list. Returns whether all replies are those of the list.
fn are_replies(
    alloc: Global,
    replies: &[Reply<Key, Global>],
    calls: &[Call<Key>],
    list: &mut Vec<Entry>,
) -> Result<bool, AllocError> {
    for (call, reply) in calls.iter().zip(replies) {
        if !is_reply(reply, call, list) {
            return Ok(false);
        }
        *list = list_after(alloc, list, call)?;
    }
    Ok(replies.len() == calls.len())
}

/// Makes one run. Returns whether all replies are those of the list, and both arrays are then as long as their blocks.
fn runs_alike(
    alloc: Global,
    map: &mut Map,
    calls: &[Call<Key>],
    list: &mut Vec<Entry>,
) -> Result<bool, AllocError>
    requires { All (IsFittingCall ⟦<Key as Prefix>⟧.IsFitting) calls.now }
{
    let replies = run(alloc, map, calls)?;
    Ok(are_replies(alloc, &replies, calls, list)? & slots_add_up(map))
}

/// Makes all runs with random calls. Returns whether all replies are those of the list.
fn all_run_alike(map: &mut Map, alloc: Global) -> Result<bool, AllocError> {
    let mut list = Vec::new(alloc);
    let mut x = 1;
    for number in 0..RUNS {
        let draws = random_run(alloc, &mut x)?;
        let calls = calls_of::<Key>(alloc, &draws, number.wrapping_mul(CALLS))?;
        if !runs_alike(alloc, map, &calls, &mut list)? {
            return Ok(false);
        }
    }
    Ok(!list.is_empty())
}

#[test]
fn a_long_run_replies_as_a_sorted_list(rt: HostRuntime) {
    assert!(rt; on_new(PrefixMap::new(rt.alloc()), rt.alloc(), all_run_alike) == Ok(Ok(true)));
}
