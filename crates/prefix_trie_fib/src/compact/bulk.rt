//! Lookups of many addresses, in groups.
ghost use Rattle.std.specs.Prelude.{◌≡◌, ◌+◌, ◌<◌, ◌≤◌, None, length, map};
ghost use Rattle.prefix_trie_bits.specs.Model.Bits.{number};
ghost use Rattle.prefix_trie_fib.specs.Bulk.{HaveResults};
ghost use Rattle.prefix_trie_fib.specs.Layouts.{widened};
ghost use Rattle.prefix_trie_fib.specs.Line.{value_along};

use super::halves::upper_half;
use super::lookups::top_of;
use super::{Compact, Layout};
use crate::index::first_bits;
use crate::indexed::{GROUP, Indexed};
use prefix_trie_bits::prefix::Key;
use std::alloc::Allocator;

impl<K: Key, T: Copy, A: Allocator> Compact<K, T, A> {
    /// Looks up each address, in the order of the addresses.
    pub(crate) fn lookup_bulk(&self, addresses: &[K], out: &mut [Option<T>])
        requires { length out.old ≡ length addresses.now }
        ensures { out.new
            ≡ map (λ a. value_along None self.now (number (K.bits a))) addresses.now }
    {
        let mut from = 0;
        'groups: while from < addresses.len() {
            from += self.lookup_group(addresses, from, out);
        }
    }

    /// Looks up the next addresses, from a place on, and returns how many.
    ///
    /// In the layouts that tables of a width rarely have, it is one address.
    #[inline(always)]
    fn lookup_group(&self, addresses: &[K], from: usize, out: &mut [Option<T>]) -> usize
        requires same_length { length out.old ≡ length addresses.now }
        requires some { from < length addresses.now }
        ensures group { (0 < result) × (from + result ≤ length addresses.now) }
        ensures results { HaveResults (λ a. value_along None self.now (number (K.bits a)))
            addresses.now out.old from
            → HaveResults (λ a. value_along None self.now (number (K.bits a)))
            addresses.now out.new (from + result) }
        ensures length { length out.new ≡ length out.old }
    {
        match &self.layout {
            Layout::Whole(indexed) if K::width() <= 64 => {
                group_by_whole(indexed, addresses, from, out)
            }
            Layout::Upper(indexed) if K::width() >= 64 => {
                group_by_upper(indexed, addresses, from, out)
            }
            _ => {
                out[from] = self.lookup(addresses[from]);
                1
            }
        }
    }
}

/// Looks up the next group of addresses by whole addresses, and returns its size.
fn group_by_whole<K: Key, T: Copy, A: Allocator>(
    indexed: &Indexed<K, T, A>,
    addresses: &[K],
    from: usize,
    out: &mut [Option<T>],
) -> usize
    requires same_length { length out.old ≡ length addresses.now }
    requires some { from < length addresses.now }
    ensures group { (0 < result) × (from + result ≤ length addresses.now) }
    ensures results { HaveResults (λ a. value_along None indexed.now (number (K.bits a)))
        addresses.now out.old from
        → HaveResults (λ a. value_along None indexed.now (number (K.bits a)))
        addresses.now out.new (from + result) }
    ensures length { length out.new ≡ length out.old }
{
    let count = (addresses.len() - from).min(GROUP);
    let group = &addresses[from..from + count];
    let mut tops = [0; GROUP];
    for i in 0..count {
        tops[i] = first_bits(group[i]);
    }
    indexed.lookup_group(&tops, group, from, out);
    count
}

/// Looks up the next group of addresses by their upper 64 bits, and returns its size.
fn group_by_upper<K: Key, T: Copy, A: Allocator>(
    indexed: &Indexed<u64, T, A>,
    addresses: &[K],
    from: usize,
    out: &mut [Option<T>],
) -> usize
    requires wide { 64 ≤ K.bit_width }
    requires same_length { length out.old ≡ length addresses.now }
    requires some { from < length addresses.now }
    ensures group { (0 < result) × (from + result ≤ length addresses.now) }
    ensures results { HaveResults
        (λ a. value_along None (widened K.bit_width indexed.now) (number (K.bits a)))
        addresses.now out.old from
        → HaveResults
        (λ a. value_along None (widened K.bit_width indexed.now) (number (K.bits a)))
        addresses.now out.new (from + result) }
    ensures length { length out.new ≡ length out.old }
{
    let count = (addresses.len() - from).min(GROUP);
    let mut tops = [0; GROUP];
    let mut halves = [0; GROUP];
    for i in 0..count {
        let address = addresses[from + i];
        let _ = address.is_key();
        let half = upper_half(address);
        halves[i] = half;
        tops[i] = top_of(half);
    }
    indexed.lookup_group(&tops, &halves[..count], from, out);
    count
}
