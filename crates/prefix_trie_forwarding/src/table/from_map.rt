//! Tables of the networks of a map.
ghost use Rattle.std.specs.Prelude.{◌≡◌, IfErr, IfOk, OnOk, max, min};
ghost use Rattle.prefix_trie_bits.specs.Model.Entries.{Entries, no_entries, with_entry};
ghost use Rattle.prefix_trie_forwarding.specs.Forwarding.{Follows};
ghost use Rattle.prefix_trie_forwarding.specs.Keys.{IsDivided};
ghost use Rattle.prefix_trie_forwarding.specs.Needs.{HasNeededGroups};
ghost use Rattle.prefix_trie_forwarding.specs.declared.hop.Hop.{Hop};

use crate::answers::insertion;
use crate::hop::Hop;
use crate::slots::Slots;
use crate::table::ForwardingTable;
use prefix_trie::laws::{lookup_laws, put_laws, stored_laws};
use prefix_trie_bits::prefix::{Prefix, Refusal, Refused};
use prefix_trie_map::map::PrefixMap;
use std::alloc::Allocator;

impl<P: Prefix, A: Allocator + Clone> ForwardingTable<P, A> {
    /// Creates the table of the networks of a map, with a root of so many bits as in `with_root_bits`. The map is moved.
    ///
    /// This writes slots alone, so it takes less time than inserting the networks one by one.
    ///
    /// # Errors
    ///
    /// Returns the map back, unchanged, with the cause: `Memory` if an allocation fails, `IndexRange` if there would be
    /// more than 2^31 groups.
    ///
    /// # Examples
    ///
    /// ```rust
    /// // map = {10.0.0.0/8: 1, 10.1.0.0/16: 2}
    /// let table = ForwardingTable::from_map(alloc, map, 16)?;
    /// table.lookup(0x0a010203);   // Some(2)
    /// ```
    pub fn from_map(
        alloc: A,
        map: PrefixMap<P, Hop, A>,
        bits: u32,
    ) -> Result<Self, Refused<PrefixMap<P, Hop, A>>>
        ensures map { IfOk result (λ table. table.map ≡ map) }
        ensures root { IfOk result (λ table. table.slots.root_bits
            ≡ min (min (max bits 1) 24) P.R.bit_width) }
        ensures returned { IfErr result (λ refused. refused.value ≡ map) }
    {
        match slots_of(alloc, &map, bits) {
            Ok(slots) => Ok(ForwardingTable { map, slots }),
            Err(cause) => Err(Refused { cause, value: map }),
        }
    }
}

/// Returns new slots with the answers of the networks of a map.
///
/// # Errors
///
/// Returns the errors of `from_map`.
fn slots_of<P: Prefix, M: Allocator, A: Allocator + Clone>(
    alloc: A,
    map: &PrefixMap<P, Hop, M>,
    bits: u32,
) -> Result<Slots<A>, Refusal>
    ensures root { IfOk result
        (λ slots. slots.root_bits ≡ min (min (max bits 1) 24) P.R.bit_width) }
    ensures divided { IfOk result
        (λ slots. IsDivided P.R.bit_width slots.root_bits slots.levels) }
    ensures follows { IfOk result
        (λ slots. Follows slots.root_bits slots.levels slots.items.items map.now.entries) }
    ensures groups { IfOk result (λ slots.
        ∥ HasNeededGroups slots.root_bits slots.levels slots.items.items map.now.entries ∥₁) }
{
    let empty = ForwardingTable::<P, A>::with_root_bits(alloc, bits)?;
    let ForwardingTable {
        map: _none,
        mut slots,
    } = empty;
    fill(&mut slots, map)?;
    Ok(slots)
}

/// Gives slots without networks the answers of the networks of a map.
///
/// # Errors
///
/// Returns the errors of `from_map`.
fn fill<P: Prefix, M: Allocator, A: Allocator>(
    slots: &mut Slots<A>,
    map: &PrefixMap<P, Hop, M>,
) -> Result<(), Refusal>
    requires divided { IsDivided P.R.bit_width slots.old.root_bits slots.old.levels }
    requires follows { Follows slots.old.root_bits slots.old.levels slots.old.items.items
        no_entries }
    requires groups { ∥ HasNeededGroups slots.old.root_bits slots.old.levels slots.old.items.items
        (no_entries {T = Hop}) ∥₁ }
    ensures root { slots.new.root_bits ≡ slots.old.root_bits }
    ensures levels { slots.new.levels ≡ slots.old.levels }
    ensures follows { OnOk result (Follows slots.old.root_bits slots.old.levels
        slots.new.items.items map.now.entries) }
    ensures groups { OnOk result ∥ HasNeededGroups slots.old.root_bits slots.old.levels
        slots.new.items.items map.now.entries ∥₁ }
{
    put_laws::<P, Hop>();
    for (prefix, hop) in map {
        put(slots, &prefix, *hop)?;
    }
    Ok(())
}

/// Gives slots the answers of one network more.
///
/// # Errors
///
/// Returns the errors of `from_map`.
fn put<P: Prefix, A: Allocator>(slots: &mut Slots<A>, prefix: &P, hop: Hop) -> Result<(), Refusal>
    requires fits { P.IsFitting prefix.now }
    requires divided { IsDivided P.R.bit_width slots.old.root_bits slots.old.levels }
    ensures root { slots.new.root_bits ≡ slots.old.root_bits }
    ensures levels { slots.new.levels ≡ slots.old.levels }
    ensures follows { OnOk result ((m : Entries Hop)
        → Follows slots.old.root_bits slots.old.levels slots.old.items.items m
        → Follows slots.old.root_bits slots.old.levels slots.new.items.items
        (with_entry m (P.path prefix.now) hop)) }
    ensures groups { OnOk result ((m : Entries Hop)
        → HasNeededGroups slots.old.root_bits slots.old.levels slots.old.items.items m
        → HasNeededGroups slots.old.root_bits slots.old.levels slots.new.items.items
        (with_entry m (P.path prefix.now) hop)) }
{
    lookup_laws::<P, Hop>();
    stored_laws::<Hop>();
    let first = prefix.mask();
    let len = u32::from(prefix.prefix_len());
    let end = slots.prepare(first, len)?;
    slots.link(first, len, end);
    slots.change(first, len, insertion(len, hop));
    Ok(())
}
