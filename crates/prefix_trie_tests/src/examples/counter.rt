//! Counts of prefixes, modulo 2^64, with their total and their sum.
ghost use Rattle.std.specs.Prelude.{◌≡◌, ◌+◌, ◌%◌, ◌^◌, List, Bool, OnOk, map};
ghost use Rattle.std.specs.Option.{option_map, unwrap_or};
ghost use Rattle.std.specs.FinMap.{get};
ghost use Rattle.std.specs.List.{sum};
ghost use Rattle.prefix_trie.specs.Terms.{joined_by, listing, with_entry, with_value};

use prefix_trie::laws::join_laws;
use prefix_trie::{Prefix, PrefixMap, Refusal, Refused};
use std::alloc::Allocator;

/// Counts a prefix once more.
pub fn count<P: Prefix, A: Allocator>(
    counts: &mut PrefixMap<P, u64, A>,
    prefix: P,
) -> Result<(), Refused<u64>>
    requires { P.IsFitting prefix }
    ensures { OnOk result (counts.new.entries ≡ with_entry counts.old.entries (P.path prefix)
        (unwrap_or (option_map (λ n. (n + 1) % 2 ^ 64) (get counts.old.entries (P.path prefix)))
        1)) }
{
    counts
        .entry(prefix)
        .and_modify(|n| *n = n.wrapping_add(1))
        .or_insert(1)?;
    Ok(())
}

/// Returns the total of all counts.
pub fn total<P: Prefix, A: Allocator>(counts: &PrefixMap<P, u64, A>) -> u64
    ensures { result ≡ sum (map (λ e. e.1) (listing counts.now.entries)) % 2 ^ 64 }
{
    let mut total: u64 = 0;
    let mut walk = counts.values();
    while let Some(count) = walk.next() {
        total = total.wrapping_add(*count);
    }
    total
}

/// Adds to a count, which may be missing.
fn added(before: Option<u64>, more: u64) -> u64
    ensures { result ≡ with_value (λ m n. (m + n) % 2 ^ 64) before more }
{
    match before {
        Some(n) => n.wrapping_add(more),
        None => more,
    }
}

/// Adds to the count of a prefix.
fn add<P: Prefix, A: Allocator>(
    counts: &mut PrefixMap<P, u64, A>,
    prefix: P,
    more: u64,
) -> Result<(), Refused<u64>>
    requires { P.IsFitting prefix }
    ensures { OnOk result (counts.new.entries ≡ with_entry counts.old.entries (P.path prefix)
        (with_value (λ m n. (m + n) % 2 ^ 64) (get counts.old.entries (P.path prefix)) more)) }
{
    let sum = added(counts.get(&prefix).copied(), more);
    counts.insert(prefix, sum)?;
    Ok(())
}

/// Adds the counts of another map to those of this one.
pub fn add_all<P: Prefix, A: Allocator, B: Allocator>(
    counts: &mut PrefixMap<P, u64, A>,
    more: &PrefixMap<P, u64, B>,
) -> Result<(), Refusal>
    ensures { OnOk result ((s : List Bool) → get counts.new.entries s
        ≡ joined_by (λ m n. (m + n) % 2 ^ 64) (get counts.old.entries s) (get more.now.entries s)) }
{
    join_laws::<P, u64>();
    for (prefix, count) in more {
        add(counts, prefix, *count)?;
    }
    Ok(())
}
