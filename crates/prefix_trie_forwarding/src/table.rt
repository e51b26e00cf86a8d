//! A map from networks to next hops, with slots in which a lookup finds the longest match of an address.
ghost use Rattle.std.specs.Prelude.{◌≡◌, ◌⊎◌, ◌+◌, ◌-◌, ◌*◌, ◌/◌, ◌^◌, ◌<◌, ◌≤◌, ◌↔◌, IfErr, IfOk, IsOk, IsTrue, None, true, OnErr, OnOk, max, min, vec_len};
ghost use Rattle.std.specs.FinMap.{contains_key, get, len};
ghost use Rattle.prefix_trie_bits.specs.Model.Entries.{no_entries, with_entry, without_entry};
ghost use Rattle.prefix_trie_bits.specs.Model.Matches.{longest_match};
ghost use Rattle.prefix_trie_bits.specs.Model.Step.{Insert, Value};
ghost use Rattle.prefix_trie_bits.specs.declared.prefix.Refusal.TheVariants.{Memory};
ghost use Rattle.prefix_trie_bits.specs.Calls.Storage.{StepByPath};
ghost use Rattle.prefix_trie_forwarding.specs.Forwarding.{Follows, answer_of, hop_of, length_and_hop};
ghost use Rattle.prefix_trie_forwarding.specs.Keys.{IsDivided};
ghost use Rattle.prefix_trie_forwarding.specs.Needs.{HasNeededGroups, needed_groups};
ghost use Rattle.prefix_trie_forwarding.specs.Refusals.{Refuses};
ghost use Rattle.prefix_trie_table.specs.Model.Contents.{stored_state};

mod addresses;
mod bulk;
mod copying;
mod fmt;
mod from_map;

use crate::answers::{hop_in, insertion, match_answer, match_in, removal};
use crate::hop::Hop;
use crate::slots::{LENGTH, Slots};
use prefix_trie::laws::{lookup_laws, stored_laws};
use prefix_trie_bits::prefix::{Key, Prefix, Refusal};
use prefix_trie_map::map::PrefixMap;
use std::alloc::Allocator;

/// A table of networks with their next hops, which changes while it is asked.
///
/// A map holds the networks. Beside it are slots. The first ones, the root, are read by the first bits of an address: 24
/// bits, or as many as `with_root_bits` says. A slot of the root stands for a block of addresses. If a longer network lies
/// in that block, the block has a group of 256 slots, which the next eight bits select, and so on until the address ends.
///
/// A lookup reads one slot of the root and one of each group on its way. An insertion or a removal changes the map, and then
/// the slots of the network's addresses.
///
/// A root of 24 bits takes 64 MB, a root of 16 bits 256 KB, and each group 1 KB. An insertion of a short network writes a
/// slot for each block in it: 65,536 for a network of 8 bits and a root of 24.
///
/// # Examples
///
/// ```rust
/// let mut table: ForwardingTable<Ipv4Prefix, Global> = ForwardingTable::with_root_bits(alloc, 16)?;
/// table.insert("10.1.0.0/16".parse()?, first)?;   // None
/// table.insert("10.1.2.0/24".parse()?, second)?;  // None
/// table.lookup(0x0a010203);                       // Some(second)
/// table.remove(&"10.1.2.0/24".parse()?);          // Some(second)
/// table.lookup_len(0x0a010203);                   // Some((16, first))
/// ```
#[derive(Drop)]
pub struct ForwardingTable<P: Prefix, A: Allocator> {
    map: PrefixMap<P, Hop, A>,
    slots: Slots<A>,
    ghost divided: { IsDivided P.R.bit_width slots.root_bits slots.levels },
    ghost follows: { Follows slots.root_bits slots.levels slots.items.items map.entries },
    ghost groups: { ∥ HasNeededGroups slots.root_bits slots.levels slots.items.items map.entries ∥₁ },
}

impl<P: Prefix, A: Allocator + Clone> ForwardingTable<P, A> {
    /// Creates an empty table with a root of 24 bits, or of all bits of addresses that have fewer.
    ///
    /// # Errors
    ///
    /// Returns `Memory` if an allocation fails. No table exists then.
    ///
    /// # Examples
    ///
    /// ```rust
    /// let table: ForwardingTable<Ipv4Prefix, Global> = ForwardingTable::new(alloc)?;
    /// table.slot_count();     // 16777216
    /// ```
    pub fn new(alloc: A) -> Result<Self, Refusal>
        ensures entries { IfOk result (λ table. table.map.entries ≡ no_entries) }
        ensures root { IfOk result (λ table. table.slots.root_bits ≡ min 24 P.R.bit_width) }
        ensures only_memory { IfErr result (λ cause. cause ≡ Memory) }
    {
        Self::with_root_bits(alloc, 24)
    }

    /// Creates an empty table with a root of so many bits.
    ///
    /// The root has at least one bit, and at most 24 and no more than an address. A number outside this range counts as
    /// its nearest end.
    ///
    /// # Errors
    ///
    /// Returns `Memory` if an allocation fails. No table exists then.
    ///
    /// # Examples
    ///
    /// ```rust
    /// let table: ForwardingTable<Ipv4Prefix, Global> = ForwardingTable::with_root_bits(alloc, 16)?;
    /// table.slot_count();     // 65536
    /// ```
    pub fn with_root_bits(alloc: A, bits: u32) -> Result<Self, Refusal>
        ensures entries { IfOk result (λ table. table.map.entries ≡ no_entries) }
        ensures root { IfOk result (λ table. table.slots.root_bits
            ≡ min (min (max bits 1) 24) P.R.bit_width) }
        ensures only_memory { IfErr result (λ cause. cause ≡ Memory) }
    {
        let width = P::R::width();
        // The proof learns from it how wide a key may be.
        let _ = P::R::zero().is_key();
        let root_bits = bits.clamp(1, 24).min(width);
        let levels = (width - root_bits + 7) / 8;
        let other = alloc.clone()?;
        let slots = Slots::new(alloc, root_bits, levels)?;
        let map = PrefixMap::new(other)?;
        lookup_laws::<P, Hop>();
        stored_laws::<Hop>();
        Ok(ForwardingTable { map, slots })
    }
}

impl<P: Prefix, A: Allocator> ForwardingTable<P, A> {
    /// Returns the hop of the longest match of an address.
    ///
    /// # Examples
    ///
    /// ```rust
    /// // table = {10.0.0.0/8: 1, 10.1.0.0/16: 2}
    /// table.lookup(0x0a020304);   // Some(1)
    /// table.lookup(0x0b000000);   // None
    /// ```
    #[inline]
    pub fn lookup(&self, address: P::R) -> Option<Hop>
        ensures { result ≡ hop_of (longest_match self.now.map.entries (P.R.bits address)) }
    {
        let answer = self.answer(address);
        hop_in(answer)
    }

    /// Returns the length of the longest match of an address, and its hop.
    ///
    /// The network is the first bits of the address, as many as the length says.
    ///
    /// # Examples
    ///
    /// ```rust
    /// // table = {10.0.0.0/8: 1, 10.1.0.0/16: 2}
    /// table.lookup_len(0x0a010203);   // Some((16, 2))
    /// ```
    #[inline]
    pub fn lookup_len(&self, address: P::R) -> Option<(u8, Hop)>
        ensures { result ≡ length_and_hop (longest_match self.now.map.entries (P.R.bits address)) }
    {
        let answer = self.answer(address);
        match_in(answer)
    }

    /// Returns the result of `lookup` and the number of slots read: one, and one for each level that the lookup went down.
    ///
    /// There is a level for each eight bits after those of the root, and for the last bits if they are fewer.
    ///
    /// # Examples
    ///
    /// ```rust
    /// // table = {10.0.0.0/8: 1, 10.1.2.0/24: 2}, with a root of 16 bits
    /// table.lookup_counted(0x0a010203);   // (Some(2), 2)
    /// table.lookup_counted(0x0a020304);   // (Some(1), 1)
    /// ```
    #[inline]
    pub fn lookup_counted(&self, address: P::R) -> (Option<Hop>, u32)
        ensures hop { result.0
            ≡ hop_of (longest_match self.now.map.entries (P.R.bits address)) }
        ensures reads { result.1 ≤ 1 + (P.R.bit_width - self.now.slots.root_bits + 7) / 8 }
    {
        let (answer, reads) = self.answer_counted(address);
        (hop_in(answer), reads)
    }

    /// Returns the answer to an address.
    #[inline(always)]
    fn answer(&self, address: P::R) -> u32
        ensures answer { result
            ≡ answer_of (longest_match self.now.map.entries (P.R.bits address)) }
        ensures small { result < 2147483648 }
    {
        self.answer_counted(address).0
    }

    /// Returns the answer to an address, and the number of slots read.
    #[inline(always)]
    fn answer_counted(&self, address: P::R) -> (u32, u32)
        ensures answer { result.0
            ≡ answer_of (longest_match self.now.map.entries (P.R.bits address)) }
        ensures small { result.0 < 2147483648 }
        ensures reads { result.1 ≤ 1 + (P.R.bit_width - self.now.slots.root_bits + 7) / 8 }
    {
        // The proof learns from these calls what holds of keys, of maps and of matches.
        let _ = address.is_key();
        let _ = self.map.len();
        lookup_laws::<P, Hop>();
        self.slots.find_counted(address)
    }

    /// Returns whether the longest match of the first address of a network is shorter. Then the network is not stored.
    #[inline(always)]
    fn is_missing(&self, prefix: &P) -> bool
        requires { P.IsFitting prefix.now }
        ensures { result ≡ true → get self.now.map.entries (P.path prefix.now) ≡ None }
    {
        lookup_laws::<P, Hop>();
        let len = u32::from(prefix.prefix_len());
        self.answer(prefix.mask()) < (len + 1) * LENGTH
    }

    /// Sets the hop of a network and returns the previous one.
    ///
    /// Inserting a network that is already stored never fails and does not allocate. A new one takes free groups first, and
    /// makes groups only for the rest.
    ///
    /// # Errors
    ///
    /// Returns an error if a new network needs a block of the map or a group that cannot be made: `Memory` if an allocation
    /// fails, `IndexRange` if the map would exceed its slot limit or there are 2^31 groups. A network that is no longer
    /// than the root needs no group. Networks and answers are unchanged then. Groups that the call made stay, as free ones.
    ///
    /// # Examples
    ///
    /// ```rust
    /// // table = {}
    /// table.insert("10.1.0.0/16".parse()?, first)?;   // None
    /// table.insert("10.1.2.3/16".parse()?, second)?;  // Some(first): both have one path
    /// ```
    pub fn insert(&mut self, prefix: P, hop: Hop) -> Result<Option<Hop>, Refusal>
        requires { P.IsFitting prefix }
        ensures before { IfOk result (λ before. before ≡ get self.old.map.entries (P.path prefix)) }
        ensures entries { OnOk result
            (self.new.map.entries ≡ with_entry self.old.map.entries (P.path prefix) hop) }
        ensures unchanged { OnErr result (self.new.map.entries ≡ self.old.map.entries) }
        ensures root { self.new.slots.root_bits ≡ self.old.slots.root_bits }
        ensures stored { contains_key self.old.map.entries (P.path prefix) ≡ true → IsOk result }

        // For the map this is a step of the model, of its storage too. An error is that of such a step, or the map is
        // unchanged and groups are missing: for `IndexRange`, there are 2^31; for `Memory`, fewer.
        ensures step { IfOk result (λ before. StepByPath P.R.bit_width (stored_state self.old.map)
            (Insert (P.path prefix) hop) (Value before) (stored_state self.new.map)) }
        ensures refused { IfErr result (λ cause. Refuses P.R.bit_width self.old.slots.root_bits
            (vec_len self.new.slots.items) (P.path prefix) hop cause self.old.map self.new.map) }

        // Free groups are used first: the slots grow only if no group is free afterwards.
        ensures slots { OnOk result ((vec_len self.new.slots.items ≡ vec_len self.old.slots.items)
            ⊎ (vec_len self.new.slots.items ≡ 2 ^ self.old.slots.root_bits
            + 256 * len (needed_groups self.old.slots.root_bits self.new.map.entries))) }
    {
        // The proof learns from these calls what holds of maps and of matches.
        let _ = self.map.len();
        lookup_laws::<P, Hop>();
        stored_laws::<Hop>();
        let first = prefix.mask();
        let len = u32::from(prefix.prefix_len());
        let end = self.slots.prepare(first, len)?;
        let before = self.map.insert(prefix, hop)?;
        self.slots.link(first, len, end);
        self.slots.change(first, len, insertion(len, hop));
        Ok(before)
    }

    /// Removes a network and returns its hop.
    ///
    /// The call never fails, and allocates nothing for slots. The map's `remove` may request a smaller block, and keeps the
    /// larger one if there is none. Groups that no network needs any more are free afterwards, for networks to come.
    ///
    /// If the longest match of the network's first address is shorter than the network, the call costs one lookup.
    ///
    /// # Examples
    ///
    /// ```rust
    /// // table = {10.1.0.0/16: 1}
    /// table.remove(&"10.1.2.3/16".parse()?);      // Some(1)
    /// table.remove(&"10.1.0.0/16".parse()?);      // None
    /// ```
    pub fn remove(&mut self, prefix: &P) -> Option<Hop>
        requires { P.IsFitting prefix.now }
        ensures value { result ≡ get self.old.map.entries (P.path prefix.now) }
        ensures entries { self.new.map.entries
            ≡ without_entry self.old.map.entries (P.path prefix.now) }
        ensures root { self.new.slots.root_bits ≡ self.old.slots.root_bits }
        ensures slots { vec_len self.new.slots.items ≡ vec_len self.old.slots.items }
    {
        lookup_laws::<P, Hop>();
        stored_laws::<Hop>();
        // The slots are read before the map, so that the processor waits for both at the same time.
        if self.is_missing(prefix) {
            return None;
        }
        let hop = self.map.remove(prefix)?;
        // The proof learns from it what holds of the map.
        let _ = self.map.len();
        let first = prefix.mask();
        let len = u32::from(prefix.prefix_len());
        let to = longest_answer(&self.map, prefix);
        self.slots.change(first, len, removal(len, to));
        self.slots.trim(first, len);
        Some(hop)
    }

    /// Removes all networks.
    ///
    /// The call does not allocate, and it never fails. The groups are given back with their slots, whose memory the table
    /// keeps for groups to come.
    ///
    /// # Examples
    ///
    /// ```rust
    /// // table = {10.1.2.0/24: 1}, with a root of 16 bits
    /// table.clear();
    /// (table.len(), table.group_count(), table.slot_count());     // (0, 0, 65536)
    /// ```
    pub fn clear(&mut self)
        ensures entries { self.new.map.entries ≡ no_entries }
        ensures root { self.new.slots.root_bits ≡ self.old.slots.root_bits }
        ensures slots { vec_len self.new.slots.items ≡ 2 ^ self.old.slots.root_bits }
    {
        lookup_laws::<P, Hop>();
        stored_laws::<Hop>();
        self.map.clear();
        self.slots.clear();
    }

    /// Returns the map of the networks, for walks, counts and exact lookups.
    ///
    /// # Examples
    ///
    /// ```rust
    /// // table = {10.1.0.0/16: 1}
    /// table.map().contains_key(&"10.1.0.0/16".parse()?);  // true
    /// ```
    pub fn map(&self) -> &PrefixMap<P, Hop, A>
        ensures { result.now ≡ self.now.map }
    {
        &self.map
    }

    /// Returns the map of the networks, and drops the slots.
    ///
    /// # Examples
    ///
    /// ```rust
    /// // table = {10.1.0.0/16: 1}
    /// table.into_map().len();     // 1
    /// ```
    pub fn into_map(self) -> PrefixMap<P, Hop, A>
        ensures { result ≡ self.map }
    {
        self.map
    }

    /// Returns the number of networks.
    ///
    /// # Examples
    ///
    /// ```rust
    /// // table = {10.0.0.0/8: 1, 10.1.0.0/16: 2}
    /// table.len();    // 2
    /// ```
    pub fn len(&self) -> usize
        ensures { result ≡ len self.now.map.entries }
    {
        self.map.len()
    }

    /// Returns whether there are no networks.
    ///
    /// # Examples
    ///
    /// ```rust
    /// // table = {10.0.0.0/8: 1}
    /// table.is_empty();   // false
    /// ```
    pub fn is_empty(&self) -> bool
        ensures { IsTrue result ↔ (self.now.map.entries ≡ no_entries) }
    {
        self.map.is_empty()
    }

    /// Returns the number of groups in use: one for each block of addresses that a longer network lies in.
    ///
    /// It depends on the networks alone, whatever was inserted and removed before.
    ///
    /// # Examples
    ///
    /// ```rust
    /// // table = {10.1.2.0/24: 1}, with a root of 16 bits
    /// table.group_count();    // 1: that of 10.1.0.0/16
    /// ```
    pub fn group_count(&self) -> usize
        ensures { result ≡ len (needed_groups self.now.slots.root_bits self.now.map.entries) }
    {
        // The proof learns from it what holds of the map.
        let _ = self.map.len();
        self.slots.used()
    }

    /// Returns the number of slots: those of the root, and 256 for each group, in use or free.
    ///
    /// # Examples
    ///
    /// ```rust
    /// // table = {10.1.2.0/24: 1}, with a root of 16 bits
    /// table.slot_count();     // 65792
    /// ```
    pub fn slot_count(&self) -> usize
        ensures count { result ≡ vec_len self.now.slots.items }
        ensures root { 2 ^ self.now.slots.root_bits ≤ result }
    {
        self.slots.len()
    }
}

/// Returns the answer of the longest match of a network in a map.
fn longest_answer<P: Prefix, A: Allocator>(map: &PrefixMap<P, Hop, A>, prefix: &P) -> u32
    requires { P.IsFitting prefix.now }
    ensures answer { result ≡ answer_of (longest_match map.now.entries (P.path prefix.now)) }
    ensures small { result < 2147483648 }
{
    // The proof learns from these calls what holds of maps and of matches.
    let _ = map.len();
    lookup_laws::<P, Hop>();
    match map.get_lpm(prefix) {
        Some((found, hop)) => match_answer(u32::from(found.prefix_len()), *hop),
        None => 0,
    }
}
