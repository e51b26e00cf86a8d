//! Slots of answers, in groups: what a lookup reads.
ghost use Rattle.std.specs.Prelude.{◌≡◌, ◌⊎◌, ℕ, ◌+◌, ◌-◌, ◌*◌, ◌%◌, ◌^◌, ◌<◌, ◌≤◌, IfErr, IfOk, IsOk, slice_index, vec_len};
ghost use Rattle.std.specs.FinMap.{len};
ghost use Rattle.prefix_trie_bits.specs.Model.Nodes.{Nodes};
ghost use Rattle.prefix_trie_forwarding.specs.Counts.{HasBlocks};
ghost use Rattle.prefix_trie_forwarding.specs.Keys.{IsDivided, first_of};
ghost use Rattle.prefix_trie_forwarding.specs.Paths.{IsEnd};
ghost use Rattle.prefix_trie_forwarding.specs.Slots.{IsSlots, Trims};
ghost use Rattle.prefix_trie_forwarding.specs.Refusals.{LacksGroups, groups_above};
ghost use Rattle.prefix_trie_forwarding.specs.Walks.{GainsPath, HasGroup, HasPath, IsAddress, IsChanged, IsSame, KeepsGroups, answer, changed};

mod change;
mod copying;
mod find;
mod free;
mod groups;
mod link;
mod path;
mod reading;
mod trim;

pub(crate) use change::Change;
use change::change_network;
pub(crate) use find::LENGTH;
use find::find_counted;
use free::Groups;
use groups::reserve;
use link::link;
pub(crate) use path::End;
use path::walk;
use prefix_trie_bits::prefix::{Key, Refusal};
use reading::power;
use std::alloc::{AllocError, Allocator};
use trim::trim;

/// The slots of a root, which are read by the first bits of an address, and groups of slots, which are read by a byte.
#[derive(Drop)]
pub(crate) struct Slots<A: Allocator> {
    pub(crate) items: Vec<u32, A>,
    pub(crate) groups: Groups<A>,
    pub(crate) root_bits: u32,
    pub(crate) levels: u32,
    ghost sound: { IsSlots root_bits levels groups.made items.items groups.free.items },
}

impl<A: Allocator + Clone> Slots<A> {
    /// Returns slots with the answer 0, and no groups.
    pub(crate) fn new(alloc: A, root_bits: u32, levels: u32) -> Result<Self, AllocError>
        requires few { root_bits ≤ 24 }
        requires levels { levels ≤ 16 }
        ensures root { IfOk result (λ slots. slots.root_bits ≡ root_bits) }
        ensures levels { IfOk result (λ slots. slots.levels ≡ levels) }
        ensures answers { IfOk result (λ slots. (a : ℕ) → IsAddress (2 ^ root_bits) levels a
            → answer (2 ^ root_bits) levels (slice_index slots.items.items) a ≡ 0) }
        ensures none { IfOk result (λ slots. (a k : ℕ) → IsAddress (2 ^ root_bits) levels a
            → HasGroup (2 ^ root_bits) levels (slice_index slots.items.items) a k → ⊥) }
    {
        let other = alloc.clone()?;
        let mut items = Vec::new(alloc);
        items.resize(power(root_bits), 0)?;
        Ok(Slots {
            items,
            groups: Groups::new(other),
            root_bits,
            levels,
        })
    }
}

impl<A: Allocator> Slots<A> {
    /// Returns the answer to an address.
    #[inline(always)]
    pub(crate) fn find<K: Key>(&self, address: K) -> u32
        requires { IsDivided K.bit_width self.now.root_bits self.now.levels }
        ensures { result ≡ answer (2 ^ self.now.root_bits) self.now.levels
            (slice_index self.now.items.items)
            (first_of (self.now.root_bits + 8 * self.now.levels) (K.bits address)) }
    {
        self.find_counted(address).0
    }

    /// Returns the answer to an address, and the number of slots that it read.
    #[inline(always)]
    pub(crate) fn find_counted<K: Key>(&self, address: K) -> (u32, u32)
        requires { IsDivided K.bit_width self.now.root_bits self.now.levels }
        ensures answer { result.0 ≡ answer (2 ^ self.now.root_bits) self.now.levels
            (slice_index self.now.items.items)
            (first_of (self.now.root_bits + 8 * self.now.levels) (K.bits address)) }
        ensures reads { result.1 ≤ 1 + self.now.levels }
    {
        find_counted(
            &self.items,
            self.root_bits,
            self.levels,
            self.groups.made,
            address,
        )
    }

    /// Makes sure that `link` needs no memory for a network, and returns where its path ends. No slot changes.
    ///
    /// It makes groups only if too few are free, and no more than `link` takes. For a path that is there it makes none.
    ///
    /// # Errors
    ///
    /// Returns `Memory` if an allocation fails, `IndexRange` if there would be more than 2^31 groups.
    #[inline(always)]
    pub(crate) fn prepare<K: Key>(&mut self, first: K, len: u32) -> Result<End, Refusal>
        requires divided { IsDivided K.bit_width self.old.root_bits self.old.levels }
        requires len { len ≤ K.bit_width }
        ensures points { (x : ℕ)
            → slice_index self.new.items.items x ≡ slice_index self.old.items.items x }
        ensures root { self.new.root_bits ≡ self.old.root_bits }
        ensures levels { self.new.levels ≡ self.old.levels }
        ensures end { IfOk result (λ end. IsEnd self.old.root_bits self.old.levels
            (slice_index self.new.items.items)
            (first_of (self.old.root_bits + 8 * self.old.levels) (K.bits first)) len end) }
        ensures enough { IfOk result (λ end. len ≤ end.depth + 8 * vec_len self.new.groups.free) }
        ensures made { IfOk result (λ end. (self.new.groups.made ≡ self.old.groups.made)
            ⊎ (end.depth + 8 * vec_len self.new.groups.free < len + 8)) }
        ensures spare { HasPath (2 ^ self.old.root_bits) self.old.levels
            (slice_index self.old.items.items)
            (first_of (self.old.root_bits + 8 * self.old.levels) (K.bits first))
            (self.old.root_bits + 8 * self.old.levels - len) → IsOk result }
        ensures refused { IfErr result (λ cause. LacksGroups self.new.groups.made
            (vec_len self.new.groups.free) (groups_above self.old.root_bits len) cause) }
    {
        let end = walk(
            &self.items,
            self.root_bits,
            self.levels,
            self.groups.made,
            first,
            len,
        );
        let missing = (len.saturating_sub(end.depth) as usize + 7) / 8;
        reserve(&mut self.items, &mut self.groups, self.root_bits, missing)?;
        Ok(end)
    }

    /// Makes the groups of the path of a network, after `prepare`. No answer changes.
    #[inline]
    pub(crate) fn link<K: Key>(&mut self, first: K, len: u32, end: End)
        requires divided { IsDivided K.bit_width self.old.root_bits self.old.levels }
        requires len { len ≤ K.bit_width }
        requires end { IsEnd self.old.root_bits self.old.levels (slice_index self.old.items.items)
            (first_of (self.old.root_bits + 8 * self.old.levels) (K.bits first)) len end }
        requires enough { len ≤ end.depth + 8 * vec_len self.old.groups.free }
        ensures root { self.new.root_bits ≡ self.old.root_bits }
        ensures levels { self.new.levels ≡ self.old.levels }
        ensures same { IsSame (2 ^ self.old.root_bits) self.old.levels
            (slice_index self.old.items.items) (slice_index self.new.items.items) }
        ensures gains { GainsPath (2 ^ self.old.root_bits) self.old.levels
            (first_of (self.old.root_bits + 8 * self.old.levels) (K.bits first))
            (self.old.root_bits + 8 * self.old.levels - len)
            (slice_index self.old.items.items) (slice_index self.new.items.items) }
        ensures path { HasPath (2 ^ self.old.root_bits) self.old.levels
            (slice_index self.new.items.items)
            (first_of (self.old.root_bits + 8 * self.old.levels) (K.bits first))
            (self.old.root_bits + 8 * self.old.levels - len) }
        ensures made { self.new.groups.made ≡ self.old.groups.made }
        ensures taken { 8 * vec_len self.new.groups.free + len
            ≤ end.depth + 8 * vec_len self.old.groups.free }
    {
        link(
            &mut self.items,
            &mut self.groups,
            self.root_bits,
            self.levels,
            first,
            len,
            end,
        );
    }

    /// Changes the answers to the addresses of a network, whose groups are there.
    #[inline(always)]
    pub(crate) fn change<K: Key>(&mut self, first: K, len: u32, change: Change)
        requires divided { IsDivided K.bit_width self.old.root_bits self.old.levels }
        requires len { len ≤ K.bit_width }
        requires small { change.to < 2147483648 }
        requires aligned { first_of (self.old.root_bits + 8 * self.old.levels) (K.bits first)
            % 2 ^ (self.old.root_bits + 8 * self.old.levels - len) ≡ 0 }
        requires path { HasPath (2 ^ self.old.root_bits) self.old.levels
            (slice_index self.old.items.items)
            (first_of (self.old.root_bits + 8 * self.old.levels) (K.bits first))
            (self.old.root_bits + 8 * self.old.levels - len) }
        ensures root { self.new.root_bits ≡ self.old.root_bits }
        ensures levels { self.new.levels ≡ self.old.levels }
        ensures changed { IsChanged (2 ^ self.old.root_bits) self.old.levels
            (first_of (self.old.root_bits + 8 * self.old.levels) (K.bits first))
            (self.old.root_bits + 8 * self.old.levels - len)
            (changed change.least change.most change.to)
            (slice_index self.old.items.items) (slice_index self.new.items.items) }
        ensures groups { KeepsGroups (2 ^ self.old.root_bits) self.old.levels
            (slice_index self.old.items.items) (slice_index self.new.items.items) }
        ensures made { self.new.groups.made ≡ self.old.groups.made }
        ensures free { vec_len self.new.groups.free ≡ vec_len self.old.groups.free }
    {
        change_network(
            &mut self.items,
            self.root_bits,
            self.levels,
            self.groups.made,
            first,
            len,
            change,
        );
    }

    /// Gives back the groups of the path of a network that has been removed, as far as they are not used.
    #[inline]
    pub(crate) fn trim<K: Key>(&mut self, first: K, len: u32)
        requires divided { IsDivided K.bit_width self.old.root_bits self.old.levels }
        requires len { len ≤ K.bit_width }
        ensures root { self.new.root_bits ≡ self.old.root_bits }
        ensures levels { self.new.levels ≡ self.old.levels }
        ensures trims { Trims self.old.root_bits self.old.levels
            (first_of (self.old.root_bits + 8 * self.old.levels) (K.bits first))
            (self.old.root_bits + 8 * self.old.levels - len)
            (slice_index self.old.items.items) (slice_index self.new.items.items) }
        ensures made { self.new.groups.made ≡ self.old.groups.made }
    {
        trim(
            &mut self.items,
            &mut self.groups,
            self.root_bits,
            self.levels,
            first,
            len,
        );
    }

    /// Makes all answers 0 and gives back all groups, with their slots. The array keeps its memory.
    pub(crate) fn clear(&mut self)
        ensures root { self.new.root_bits ≡ self.old.root_bits }
        ensures levels { self.new.levels ≡ self.old.levels }
        ensures answers { (a : ℕ) → IsAddress (2 ^ self.old.root_bits) self.old.levels a
            → answer (2 ^ self.old.root_bits) self.old.levels (slice_index self.new.items.items) a
            ≡ 0 }
        ensures none { (a k : ℕ) → IsAddress (2 ^ self.old.root_bits) self.old.levels a
            → HasGroup (2 ^ self.old.root_bits) self.old.levels (slice_index self.new.items.items)
            a k → ⊥ }
        ensures size { vec_len self.new.items ≡ 2 ^ self.old.root_bits }
    {
        self.items.truncate(power(self.root_bits));
        self.items.fill(0);
        self.groups.clear();
    }

    /// Returns the number of groups that are not free: one for each block that has one.
    pub(crate) fn used(&self) -> usize
        ensures { (blocks : Nodes)
            → HasBlocks self.now.root_bits self.now.levels (slice_index self.now.items.items) blocks
            → result ≡ len blocks }
    {
        self.groups.made - self.groups.free.len()
    }

    /// Returns the number of slots.
    pub(crate) fn len(&self) -> usize
        ensures count { result ≡ vec_len self.now.items }
        ensures root { 2 ^ self.now.root_bits ≤ result }
    {
        self.items.len()
    }
}
