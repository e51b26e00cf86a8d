//! Lookups by the addresses of `std`.
ghost use Rattle.std.specs.Prelude.{◌≡◌};
ghost use Rattle.std.specs.Net.Addr.{ipv4_bits, ipv6_bits};
ghost use Rattle.prefix_trie.specs.Networks.{ipv4_address, ipv6_address};
ghost use Rattle.prefix_trie_bits.specs.Model.Matches.{longest_match};
ghost use Rattle.prefix_trie_forwarding.specs.Forwarding.{hop_of};

use crate::hop::Hop;
use crate::table::ForwardingTable;
use prefix_trie_bits::prefix::{Ipv4Prefix, Ipv6Prefix};
use std::alloc::Allocator;
use std::net::{Ipv4Addr, Ipv6Addr};

impl<A: Allocator> ForwardingTable<Ipv4Prefix, A> {
    /// Returns the hop of the longest match of an IPv4 address.
    ///
    /// # Examples
    ///
    /// ```rust
    /// // table = {10.0.0.0/8: 1, 10.1.0.0/16: 2}
    /// table.lookup_addr(Ipv4Addr::new(10, 2, 3, 4));      // Some(1)
    /// ```
    #[inline]
    pub fn lookup_addr(&self, address: Ipv4Addr) -> Option<Hop>
        ensures { result
            ≡ hop_of (longest_match self.now.map.entries (ipv4_address (ipv4_bits address))) }
    {
        self.lookup(address.to_bits())
    }
}

impl<A: Allocator> ForwardingTable<Ipv6Prefix, A> {
    /// Returns the hop of the longest match of an IPv6 address.
    ///
    /// # Examples
    ///
    /// ```rust
    /// // table = {2001:db8::/32: 1}
    /// table.lookup_addr("2001:db8::7".parse()?);      // Some(1)
    /// ```
    #[inline]
    pub fn lookup_addr(&self, address: Ipv6Addr) -> Option<Hop>
        ensures { result
            ≡ hop_of (longest_match self.now.map.entries (ipv6_address (ipv6_bits address))) }
    {
        self.lookup(address.to_bits())
    }
}
