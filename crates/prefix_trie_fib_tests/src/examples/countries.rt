//! Countries of addresses: networks of both families are compiled, and addresses are looked up in groups.
ghost use Rattle.std.specs.Prelude.{◌≡◌, Bool, IfOk, List, None, length, map};
ghost use Rattle.prefix_trie_bits.specs.Model.Bits.{number};
ghost use Rattle.prefix_trie.specs.Terms.{ipv4_address, ipv6_address};
ghost use Rattle.prefix_trie_fib.specs.Line.{value_along, value_of};

use prefix_trie::{Ipv4Prefix, Ipv6Prefix, PrefixMap, Refusal};
use prefix_trie_fib::Fib;
use std::alloc::Allocator;

/// The code of a country: its two letters, as bytes, the first one times 256.
pub type Country = u16;

/// The code of Germany.
pub const DE: Country = 0x4445;

/// The code of France.
pub const FR: Country = 0x4652;

/// Networks of one family, each with its country.
pub type Networks<P, A> = PrefixMap<P, Country, A>;

/// The countries of all addresses, compiled from the networks of both families.
///
/// The networks are lent. They cannot change while this value exists, so its tables are never out of date.
#[derive(Drop)]
pub struct Countries<'n, M: Allocator, A: Allocator> {
    pub ipv4: &'n Networks<Ipv4Prefix, M>,
    pub ipv6: &'n Networks<Ipv6Prefix, M>,
    ipv4_table: Fib<Ipv4Prefix, Country, A>,
    ipv6_table: Fib<Ipv6Prefix, Country, A>,
    ghost ipv4_compiled: { (q : List Bool) → length q ≡ 32
        → value_along None ipv4_table (number q) ≡ value_of ipv4.now.entries q },
    ghost ipv6_compiled: { (q : List Bool) → length q ≡ 128
        → value_along None ipv6_table (number q) ≡ value_of ipv6.now.entries q },
}

impl<'n, M: Allocator, A: Allocator + Clone> Countries<'n, M, A> {
    /// Compiles the networks of both families.
    ///
    /// # Errors
    ///
    /// Returns the errors of `Fib::new`.
    pub fn new(
        ipv4: &'n Networks<Ipv4Prefix, M>,
        ipv6: &'n Networks<Ipv6Prefix, M>,
        alloc: A,
    ) -> Result<Self, Refusal>
        ensures { IfOk result
            (λ countries. (countries.ipv4.now ≡ ipv4.now) × (countries.ipv6.now ≡ ipv6.now)) }
    {
        let first = alloc.clone().map_err(|_| Refusal::Memory)?;
        let ipv4_table = Fib::new(ipv4, first)?;
        let ipv6_table = Fib::new(ipv6, alloc)?;
        Ok(Countries {
            ipv4,
            ipv6,
            ipv4_table,
            ipv6_table,
        })
    }
}

impl<'n, M: Allocator, A: Allocator> Countries<'n, M, A> {
    /// Writes the country of each IPv4 address: that of the longest network that contains it.
    ///
    /// Requires that `countries` is as long as `addresses`.
    pub fn of_ipv4(&self, addresses: &[u32], countries: &mut [Option<Country>])
        requires { length countries.old ≡ length addresses.now }
        ensures { countries.new
            ≡ map (λ addr. value_of self.now.ipv4.now.entries (ipv4_address addr)) addresses.now }
    {
        self.ipv4_table.lookup_bulk(addresses, countries);
    }

    /// Writes the country of each IPv6 address.
    ///
    /// Requires that `countries` is as long as `addresses`.
    pub fn of_ipv6(&self, addresses: &[u128], countries: &mut [Option<Country>])
        requires { length countries.old ≡ length addresses.now }
        ensures { countries.new
            ≡ map (λ addr. value_of self.now.ipv6.now.entries (ipv6_address addr)) addresses.now }
    {
        self.ipv6_table.lookup_bulk(addresses, countries);
    }
}
