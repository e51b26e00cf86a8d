//! Reading the addresses of texts, without a table.
ghost use Rattle.std.specs.Prelude.{◌≡◌, ℕ, IfErr, IfOk, List, OnOk, false};
ghost use Rattle.prefix_trie.specs.Terms.{no_entries, with_entry};
ghost use Rattle.prefix_trie_bits.specs.declared.prefix.Refusal.TheVariants.{IndexRange};
ghost use Rattle.prefix_trie_joint.specs.Networks.{ip_path};
ghost use Rattle.route_tables.specs.AddressLists.{AddsRoutes, Covers, IsOfSet};
ghost use Rattle.route_tables.specs.BadLines.{AreBadLines, IsBadLine};
ghost use Rattle.route_tables.specs.Lines.{table_lines};
ghost use Rattle.route_tables.specs.Loads.{IfLineError, ListsLine, NamesFirstBad, with_routes};
ghost use Rattle.route_tables.specs.Networks.{all_networks};
ghost use Rattle.route_tables.specs.Routes.{Gives, HasRoutes, Route, routes_to};
ghost use Rattle.route_tables.specs.Tables.{Values};

use crate::line::{ReadError, read_line};
use crate::lines::{skip_mark, split_line};
use crate::load::{BadLine, BadLines, LoadError, Reading, skip_line};
use crate::range::Networks;
use address_ranges::{AddressSetBuilder, JointAddressSet};
use prefix_trie::{Ipv4Prefix, Ipv6Prefix};
use prefix_trie_joint::IpPrefix;
use std::alloc::{AllocError, Global};

/// The addresses of texts of tables. Lines are added one after another, and need no table.
///
/// # Examples
///
/// ```rust
/// let mut list = AddressList::new(alloc)?;
/// list.add(b"10.128.0.0/9\n10.0.0.0-10.127.255.255\n", Reading::default(), alloc)?;
/// let set = list.finish()?;
/// set.ipv4.networks();        // [10.0.0.0/8]
/// ```
#[derive(Drop)]
pub struct AddressList {
    /// The IPv4 addresses.
    pub ipv4: AddressSetBuilder<Ipv4Prefix, Global>,
    /// The IPv6 addresses.
    pub ipv6: AddressSetBuilder<Ipv6Prefix, Global>,
    /// Whether a line has a value that is not empty.
    pub has_values: bool,
}

impl AddressList {
    /// Creates a list without addresses.
    ///
    /// # Errors
    ///
    /// Returns the allocator's error if the allocator cannot be cloned.
    pub fn new(alloc: Global) -> Result<AddressList, AllocError>
        ensures none { IfOk result (Covers no_entries) }
        ensures no_values { IfOk result (λ list. list.has_values ≡ false) }
    {
        Ok(AddressList {
            ipv4: AddressSetBuilder::new(alloc)?,
            ipv6: AddressSetBuilder::new(alloc)?,
            has_values: false,
        })
    }

    /// Adds the addresses of a text, and returns the lines that are skipped, in order.
    ///
    /// # Errors
    ///
    /// Returns the first line that is not a line of a table, with the reason, if bad lines are refused. Returns `Memory` if
    /// an allocation fails. The list has the addresses of some of the lines then.
    pub fn add<'a>(
        &mut self,
        text: &'a [u8],
        reading: Reading,
        alloc: Global,
    ) -> Result<Vec<BadLine<'a>>, LoadError<'a>>
        // The addresses are those that the table of the routes covers.
        ensures added { OnOk result ((routes : List Route)
            × HasRoutes reading (table_lines text.now) routes
            × AddsRoutes self.old routes self.new) }
        ensures skipped { IfOk result (λ skipped. AreBadLines reading 0
            (table_lines text.now) skipped.items) }
        ensures first_bad { IfErr result (NamesFirstBad reading (table_lines text.now)) }
        ensures never_full { IfErr result (λ error. ¬ (error ≡ LoadError.Refused IndexRange)) }
    {
        let mut skipped = Vec::new(alloc);
        let mut number = 0;
        let mut rest = skip_mark(text);
        while !rest.is_empty() {
            let (line, later) = split_line(rest);
            number += 1;
            rest = later;
            self.add_line(line, number, reading, &mut skipped, alloc)?;
        }
        Ok(skipped)
    }

    // Adds the addresses of the line with this number, or lists it if it is bad and skipped.
    fn add_line<'a>(
        &mut self,
        line: &'a [u8],
        number: usize,
        reading: Reading,
        skipped: &mut Vec<BadLine<'a>>,
        alloc: Global,
    ) -> Result<(), LoadError<'a>>
        ensures added { OnOk result ((routes : List Route) × Gives reading line.now routes
            × AddsRoutes self.old routes self.new) }
        ensures listed { OnOk result
            (ListsLine reading number line.now skipped.old.items skipped.new.items) }
        ensures refused { IfErr result (IfLineError (λ bad. (reading.bad_lines ≡ BadLines.Refused)
            × IsBadLine reading number line.now bad)) }
        ensures never_full { IfErr result (λ error. ¬ (error ≡ LoadError.Refused IndexRange)) }
    {
        match read_line(line, reading, alloc) {
            Ok(None) => Ok(()),
            Ok(Some(route)) => Ok(self.add_read(route)?),
            Err(ReadError::Line(error)) => {
                let text = line;
                let bad = BadLine {
                    number,
                    text,
                    error,
                };
                skip_line(bad, reading.bad_lines, skipped)
            }
            Err(ReadError::Memory) => Err(LoadError::from(AllocError)),
        }
    }

    // Adds the networks that were read from a line, and notes whether they have a value.
    fn add_read(&mut self, route: (Networks, &str)) -> Result<(), AllocError>
        ensures { OnOk result (AddsRoutes self.old
            (routes_to route.entry.1.now (all_networks route.entry.0)) self.new) }
    {
        let (networks, value) = route;
        if !value.is_empty() {
            self.has_values = true;
        }
        self.add_networks(networks.as_slice())
    }

    // Adds the addresses of networks.
    fn add_networks(&mut self, networks: &[IpPrefix]) -> Result<(), AllocError>
        ensures covers { OnOk result ((m : Values) (value : List ℕ) → Covers m self.old
            → Covers (with_routes (routes_to value networks.now) m) self.new) }
        ensures values { OnOk result (self.new.has_values ≡ self.old.has_values) }
    {
        for network in networks {
            self.add_network(*network)?;
        }
        Ok(())
    }

    // Adds the addresses of a network.
    fn add_network(&mut self, network: IpPrefix) -> Result<(), AllocError>
        ensures covers { OnOk result ((m : Values) (value : List ℕ) → Covers m self.old
            → Covers (with_entry m (ip_path network) value) self.new) }
        ensures values { OnOk result (self.new.has_values ≡ self.old.has_values) }
    {
        match network {
            IpPrefix::V4(network) => self.ipv4.add_network(&network),
            IpPrefix::V6(network) => self.ipv6.add_network(&network),
        }
    }

    /// Returns the set of the addresses.
    ///
    /// # Errors
    ///
    /// Returns the allocator's error if an allocation fails.
    pub fn finish(self) -> Result<JointAddressSet<Global>, AllocError>
        ensures { IfOk result (λ set. (m : Values) → Covers m self → IsOfSet m set) }
    {
        let AddressList {
            ipv4,
            ipv6,
            has_values: _,
        } = self;
        Ok(JointAddressSet {
            ipv4: ipv4.finish()?,
            ipv6: ipv6.finish()?,
        })
    }
}
