//! Lookups of many addresses in one call.
ghost use Rattle.std.specs.Prelude.{◌≡◌, length, map};
ghost use Rattle.prefix_trie_bits.specs.Model.Matches.{longest_match};
ghost use Rattle.prefix_trie_forwarding.specs.Forwarding.{hop_of};

use crate::hop::Hop;
use crate::table::ForwardingTable;
use prefix_trie_bits::prefix::Prefix;
use std::alloc::Allocator;

impl<P: Prefix, A: Allocator> ForwardingTable<P, A> {
    /// Looks up each address, in the order of the addresses.
    ///
    /// Requires that `out` is as long as `addresses`.
    ///
    /// # Examples
    ///
    /// ```rust
    /// // table = {10.0.0.0/8: 1, 10.1.0.0/16: 2}
    /// let mut out = [None, None];
    /// table.lookup_bulk(&[0x0a010203, 0x0b000000], &mut out);
    /// out.iter();     // [Some(2), None]
    /// ```
    pub fn lookup_bulk(&self, addresses: &[P::R], out: &mut [Option<Hop>])
        requires { length out.old ≡ length addresses.now }
        ensures { out.new
            ≡ map (λ a. hop_of (longest_match self.now.map.entries (P.R.bits a))) addresses.now }
    {
        for i in 0..addresses.len() {
            out[i] = self.lookup(addresses[i]);
        }
    }
}
