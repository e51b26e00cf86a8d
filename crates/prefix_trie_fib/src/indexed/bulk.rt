//! Lookups of a group of addresses side by side.
//!
//! Each stage goes over the whole group, and no branch waits for what the stage itself reads. So the processor reads
//! the entries of all addresses together, and then their ranges.
ghost use Rattle.std.specs.Prelude.{◌≡◌, ℕ, ◌+◌, ◌<◌, ◌≤◌, List, None, Option, length, slice_index_or};
ghost use Rattle.prefix_trie_bits.specs.Model.Bits.{number};
ghost use Rattle.prefix_trie_fib.specs.Bulk.{AreRanges, AreSeveral, AreTops, HaveEntries, HaveWholeEntries, IsFound, IsFoundOrListed};
ghost use Rattle.prefix_trie_fib.specs.Index.{IsEntryAt, IsTop, IsWhole};
ghost use Rattle.prefix_trie_fib.specs.Line.{value_along};

use crate::index::{Chunk, chunk_of};
use crate::indexed::Indexed;
use prefix_trie_bits::prefix::Key;
use std::alloc::Allocator;

/// The number of addresses that are looked up side by side.
pub(crate) const GROUP: usize = 128;

/// Fewer addresses than these are looked up one after the other: a group has arrays to fill first.
const FEW: usize = 8;

/// The addresses of a group whose chunks have several ranges: the places in the group, and the numbers of the ranges.
#[derive(Drop)]
struct Listed {
    count: usize,
    places: [u8; GROUP],
    ranges: [u32; GROUP],
}

impl<K: Key, T: Copy, A: Allocator> Indexed<K, T, A> {
    /// Looks up the addresses of a group, whose first 30 bits have the numbers `tops`.
    ///
    /// Their values are stored in `out` from the place `from` on.
    #[inline(always)]
    pub(crate) fn lookup_group(
        &self,
        tops: &[u32],
        addresses: &[K],
        from: usize,
        out: &mut [Option<T>],
    )
        requires tops { AreTops K.bits addresses.now tops.now }
        requires few { length addresses.now ≤ 128 }
        requires inside { from + length addresses.now ≤ length out.old }
        ensures kept { (k : ℕ) (v : Option T) → k < from
            → slice_index_or out.new k v ≡ slice_index_or out.old k v }
        ensures values { (k : ℕ) (a : K) (v : Option T) → k < length addresses.now
            → slice_index_or out.new (from + k) v
            ≡ value_along None self.now (number (K.bits (slice_index_or addresses.now k a))) }
        ensures length { length out.new ≡ length out.old }
    {
        let chunks = self.index.chunks.as_slice().len();
        // The proof learns from the second test that the entries of a group fit in memory.
        if addresses.len() < FEW || chunks < GROUP {
            self.lookup_each(tops, addresses, from, out);
            return;
        }
        let mut entries = [Chunk::Many(0); GROUP];
        self.read_entries(tops, addresses, &mut entries);
        self.read_parts(tops, addresses, &mut entries);
        // Where many chunks are split, entries are of all kinds, and a list does not pay.
        if self.index.parts.as_slice().len() > chunks / 8 {
            self.value_each(tops, addresses, &entries, from, out);
            return;
        }
        let mut listed = Listed {
            count: 0,
            places: [0; GROUP],
            ranges: [0; GROUP],
        };
        self.store_alone(addresses, &entries, from, out, &mut listed);
        self.find_ranges(tops, addresses, &entries, &mut listed);
        self.store_listed(&listed, from, out);
    }

    /// Reads the entries of the chunks of all addresses.
    #[inline(always)]
    fn read_entries(&self, tops: &[u32], addresses: &[K], entries: &mut [Chunk<T>])
        requires tops { AreTops K.bits addresses.now tops.now }
        requires space { length addresses.now ≤ length entries.old }
        ensures read { HaveWholeEntries K.bits self.now addresses.now entries.new }
        ensures length { length entries.new ≡ length entries.old }
    {
        for i in 0..addresses.len() {
            entries[i] = self.entry_of_chunk(tops[i], addresses[i]);
        }
    }

    /// Reads the entries of parts, for the addresses whose chunks are split.
    #[inline(always)]
    fn read_parts(&self, tops: &[u32], addresses: &[K], entries: &mut [Chunk<T>])
        requires tops { AreTops K.bits addresses.now tops.now }
        requires space { length addresses.now ≤ length entries.old }
        requires read { HaveWholeEntries K.bits self.now addresses.now entries.old }
        ensures read { HaveEntries K.bits self.now addresses.now entries.new }
        ensures length { length entries.new ≡ length entries.old }
    {
        for i in 0..addresses.len() {
            if entries[i].parts().is_some() {
                entries[i] = *self.chunk(tops[i], addresses[i]);
            }
        }
    }

    /// Stores the values of all addresses in `out` from the place `from` on, each by its entry.
    #[inline(always)]
    fn value_each(
        &self,
        tops: &[u32],
        addresses: &[K],
        entries: &[Chunk<T>],
        from: usize,
        out: &mut [Option<T>],
    )
        requires tops { AreTops K.bits addresses.now tops.now }
        requires space { length addresses.now ≤ length entries.now }
        requires inside { from + length addresses.now ≤ length out.old }
        requires read { HaveEntries K.bits self.now addresses.now entries.now }
        ensures kept { (k : ℕ) (v : Option T) → k < from
            → slice_index_or out.new k v ≡ slice_index_or out.old k v }
        ensures values { (k : ℕ) (a : K) (v : Option T) → k < length addresses.now
            → slice_index_or out.new (from + k) v
            ≡ value_along None self.now (number (K.bits (slice_index_or addresses.now k a))) }
        ensures length { length out.new ≡ length out.old }
    {
        for i in 0..addresses.len() {
            out[from + i] = entries[i].value(&self.line, tops[i], addresses[i]);
        }
    }

    /// Stores the values of the addresses whose chunks have one range, and lists the places of the others.
    ///
    /// The values are stored in `out` from the place `from` on, and each other address gets `None` there. The places in
    /// `listed` are replaced.
    #[inline(always)]
    fn store_alone(
        &self,
        addresses: &[K],
        entries: &[Chunk<T>],
        from: usize,
        out: &mut [Option<T>],
        listed: &mut Listed,
    )
        requires few { length addresses.now ≤ 128 }
        requires space { length addresses.now ≤ length entries.now }
        requires inside { from + length addresses.now ≤ length out.old }
        requires read { HaveEntries K.bits self.now addresses.now entries.now }
        ensures kept { (k : ℕ) (v : Option T) → k < from
            → slice_index_or out.new k v ≡ slice_index_or out.old k v }
        ensures found { (k : ℕ) → k < length addresses.now
            → IsFoundOrListed K.bits self.now addresses.now
            listed.new.places 0 listed.new.count from out.new k }
        ensures several { AreSeveral addresses.now entries.now listed.new.places listed.new.count }
        ensures few { listed.new.count ≤ 128 }
        ensures length { length out.new ≡ length out.old }
    {
        let placeholder = self.line.placeholder();
        // A local variable is kept in a register.
        let mut count = 0;
        for i in 0..addresses.len() {
            let entry = entries[i];
            out[from + i] = entry.alone(placeholder);
            listed.places[count] = i as u8;
            count += usize::from(!entry.is_alone());
        }
        listed.count = count;
    }

    /// Finds the ranges of the addresses whose places are listed.
    #[inline(always)]
    fn find_ranges(&self, tops: &[u32], addresses: &[K], entries: &[Chunk<T>], listed: &mut Listed)
        requires tops { AreTops K.bits addresses.now tops.now }
        requires space { length addresses.now ≤ length entries.now }
        requires read { HaveEntries K.bits self.now addresses.now entries.now }
        requires several { AreSeveral addresses.now entries.now listed.old.places listed.old.count }
        requires few { listed.old.count ≤ 128 }
        ensures ranges { AreRanges K.bits self.now addresses.now
            listed.new.places listed.new.ranges listed.new.count }
        ensures places { listed.new.places ≡ listed.old.places }
        ensures count { listed.new.count ≡ listed.old.count }
    {
        for j in 0..listed.count {
            let i = listed.places[j] as usize;
            let range = entries[i].range(&self.line, tops[i], addresses[i]);
            listed.ranges[j] = range as u32;
        }
    }

    /// Stores the values of the listed addresses, by their ranges.
    ///
    /// The values of the group are stored in `out` from the place `from` on.
    #[inline(always)]
    fn store_listed(&self, listed: &Listed, from: usize, out: &mut [Option<T>])
        requires few { listed.now.count ≤ 128 }
        requires inside { (j d : ℕ) → j < listed.now.count
            → from + slice_index_or listed.now.places j d < length out.old }
        requires ranges { (j d : ℕ) → j < listed.now.count
            → slice_index_or listed.now.ranges j d < length self.now }
        ensures kept { (k : ℕ) (v : Option T) → k < from
            → slice_index_or out.new k v ≡ slice_index_or out.old k v }
        ensures found { (addresses : List K) (k : ℕ)
            → AreRanges K.bits self.now addresses
            listed.now.places listed.now.ranges listed.now.count
            → IsFoundOrListed K.bits self.now addresses
            listed.now.places 0 listed.now.count from out.old k
            → IsFound K.bits self.now addresses from out.new k }
        ensures length { length out.new ≡ length out.old }
    {
        for j in 0..listed.count {
            let place = listed.places[j] as usize;
            out[from + place] = self.line.value(listed.ranges[j] as usize);
        }
    }

    /// Does what `lookup_group` does, one address after the other.
    #[inline(never)]
    fn lookup_each(&self, tops: &[u32], addresses: &[K], from: usize, out: &mut [Option<T>])
        requires tops { AreTops K.bits addresses.now tops.now }
        requires inside { from + length addresses.now ≤ length out.old }
        ensures kept { (k : ℕ) (v : Option T) → k < from
            → slice_index_or out.new k v ≡ slice_index_or out.old k v }
        ensures values { (k : ℕ) (a : K) (v : Option T) → k < length addresses.now
            → slice_index_or out.new (from + k) v
            ≡ value_along None self.now (number (K.bits (slice_index_or addresses.now k a))) }
        ensures length { length out.new ≡ length out.old }
    {
        for i in 0..addresses.len() {
            out[from + i] = self.lookup(tops[i], addresses[i]);
        }
    }

    /// Returns the entry of the chunk of an address. It is that of the address if the chunk is not split.
    #[inline(always)]
    fn entry_of_chunk(&self, top: u32, address: K) -> Chunk<T>
        requires { IsTop top (K.bits address) }
        ensures { IsWhole result → IsEntryAt self.now (K.bits address) result }
    {
        let _ = address.is_key();
        self.index.chunks[chunk_of(top, self.rest)]
    }
}
