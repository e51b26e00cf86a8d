//! Lookups by the addresses of `std`.
ghost use Rattle.std.specs.Prelude.{◌≡◌, None};
ghost use Rattle.std.specs.Net.Addr.{ipv4_bits, ipv6_bits};
ghost use Rattle.prefix_trie_fib.specs.Line.{value_along};

use crate::fib::Fib;
use prefix_trie_bits::prefix::{Ipv4Prefix, Ipv6Prefix};
use std::alloc::Allocator;
use std::net::{Ipv4Addr, Ipv6Addr};

impl<T: Copy + PartialEq, A: Allocator> Fib<Ipv4Prefix, T, A> {
    /// Returns the value of the longest match of an IPv4 address.
    ///
    /// # Examples
    ///
    /// ```rust
    /// // map = {10.0.0.0/8: 1, 10.1.0.0/16: 2}
    /// Fib::new(&map, alloc)?.lookup_addr(Ipv4Addr::new(10, 2, 3, 4));     // Some(1)
    /// ```
    #[inline]
    pub fn lookup_addr(&self, address: Ipv4Addr) -> Option<T>
        ensures { result ≡ value_along None self.now (ipv4_bits address) }
    {
        self.lookup(address.to_bits())
    }
}

impl<T: Copy + PartialEq, A: Allocator> Fib<Ipv6Prefix, T, A> {
    /// Returns the value of the longest match of an IPv6 address.
    ///
    /// # Examples
    ///
    /// ```rust
    /// let mut map = PrefixMap::new(alloc)?;
    /// map.insert(Ipv6Prefix::from(Ipv6Addr::LOCALHOST), 1)?;
    /// Fib::new(&map, alloc)?.lookup_addr(Ipv6Addr::LOCALHOST);    // Some(1)
    /// ```
    #[inline]
    pub fn lookup_addr(&self, address: Ipv6Addr) -> Option<T>
        ensures { result ≡ value_along None self.now (ipv6_bits address) }
    {
        self.lookup(address.to_bits())
    }
}
