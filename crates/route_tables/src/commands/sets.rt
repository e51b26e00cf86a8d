//! What commands print of sets of addresses.
ghost use Rattle.std.specs.Prelude.{OnOk, flat_map, map};
ghost use Rattle.std.specs.Io.KnownBytes.{Appends};
ghost use Rattle.prefix_trie.specs.Terms.{lent_item};
ghost use Rattle.address_ranges.specs.Breaks.{has_address};
ghost use Rattle.address_ranges.specs.Ranges.{ranges_of};
ghost use Rattle.prefix_trie_joint.specs.declared.prefix.IpPrefix.{IpPrefix};
ghost use Rattle.route_tables.specs.AddressSets.{AreCoveredEntries, AreFewestOfSet};
ghost use Rattle.route_tables.specs.Printed.{ipv4_range_line, ipv6_range_line, networks_text, ranges_text, routes_text, IsConversion, PrintsFamily, PrintsNetworks};

use crate::address_sets::covered;
use crate::commands::printer::Printer;
use crate::stats::LONGEST;
use crate::table::FamilyTable;
use crate::value::Value;
use address_ranges::{AddressCount, AddressSet, JointAddressSet};
use arrayvec::ArrayString;
use prefix_trie::{Ipv4Prefix, Ipv6Prefix, Prefix};
use prefix_trie_joint::IpPrefix;
use std::alloc::Global;
use std::fmt::Write as _;
use std::io::{self, Write};
use std::net::{IpAddr, Ipv4Addr, Ipv6Addr};

/// Prints networks.
///
/// # Errors
///
/// Returns the printer's error.
pub fn print_networks<P: Prefix + Copy + Into<IpPrefix>, W: Write + Drop>(
    networks: &[P],
    out: &mut Printer<W>,
) -> io::Result<()>
    ensures { OnOk result ((ip : P → IpPrefix) → IsConversion P.Into.converts ip
        → Appends out.old out.new (networks_text (map ip networks.now))) }
{
    for network in networks {
        out.network(&(*network).into())?;
    }
    Ok(())
}

/// Prints the fewest networks that cover the addresses of a set.
///
/// # Errors
///
/// Returns the printer's error, or an error if an allocation fails.
pub fn print_fewest_of<P: Prefix + Copy + Into<IpPrefix>, W: Write + Drop>(
    set: &AddressSet<P, Global>,
    alloc: Global,
    out: &mut Printer<W>,
) -> io::Result<()>
    ensures { OnOk result (PrintsNetworks P.Into.converts
        (AreFewestOfSet P.R.bit_width P.path P.back set.now) out.old out.new) }
{
    let networks = set.collect_networks(alloc)?;
    print_networks(networks.as_slice(), out)
}

/// Prints the networks of a table of a family all of whose addresses are in a set, with their values.
///
/// # Errors
///
/// Returns the printer's error, or an error if an allocation fails.
pub fn print_covered<P: Prefix + Copy + Into<IpPrefix>, W: Write + Drop>(
    table: &FamilyTable<P>,
    set: &AddressSet<P, Global>,
    alloc: Global,
    out: &mut Printer<W>,
) -> io::Result<()>
    ensures { OnOk result (PrintsFamily P.Into.converts
        (AreCoveredEntries P.R.bit_width P.back table.now.entries (has_address set.now))
        out.old out.new) }
{
    let entries = covered(table, set, alloc)?;
    print_entries(entries.as_slice(), out)
}

// Prints networks and their values.
fn print_entries<P: Prefix + Copy + Into<IpPrefix>, W: Write + Drop>(
    entries: &[(P, &Value)],
    out: &mut Printer<W>,
) -> io::Result<()>
    ensures { OnOk result ((ip : P → IpPrefix) → IsConversion P.Into.converts ip
        → Appends out.old out.new
        (routes_text (map (λ e. (ip e.0, e.1)) (map lent_item entries.now)))) }
{
    for entry in entries {
        out.route(&entry.0.into(), entry.1.as_str())?;
    }
    Ok(())
}

/// Prints the ranges of a set: the first and the last address of each.
///
/// # Errors
///
/// Returns the printer's error.
pub fn print_ranges<W: Write + Drop>(
    set: &JointAddressSet<Global>,
    out: &mut Printer<W>,
) -> io::Result<()>
    ensures { OnOk result (Appends out.old out.new (ranges_text set.now.ipv4 set.now.ipv6)) }
{
    print_ipv4_ranges(&set.ipv4, out)?;
    print_ipv6_ranges(&set.ipv6, out)
}

// Prints the ranges of IPv4 addresses.
fn print_ipv4_ranges<W: Write + Drop>(
    set: &AddressSet<Ipv4Prefix, Global>,
    out: &mut Printer<W>,
) -> io::Result<()>
    ensures { OnOk result (Appends out.old out.new
        (flat_map ipv4_range_line (ranges_of 32 set.now))) }
{
    for (first, last) in set.ranges() {
        let (first, last) = (Ipv4Addr::from(first), Ipv4Addr::from(last));
        out.range(IpAddr::V4(first), IpAddr::V4(last))?;
    }
    Ok(())
}

// Prints the ranges of IPv6 addresses.
fn print_ipv6_ranges<W: Write + Drop>(
    set: &AddressSet<Ipv6Prefix, Global>,
    out: &mut Printer<W>,
) -> io::Result<()>
    ensures { OnOk result (Appends out.old out.new
        (flat_map ipv6_range_line (ranges_of 128 set.now))) }
{
    for (first, last) in set.ranges() {
        let (first, last) = (Ipv6Addr::from(first), Ipv6Addr::from(last));
        out.range(IpAddr::V6(first), IpAddr::V6(last))?;
    }
    Ok(())
}

/// Prints the number of addresses of each family.
pub fn count<W: Write + Drop>(
    set: &JointAddressSet<Global>,
    out: &mut Printer<W>,
) -> io::Result<()> {
    out.count("IPv4", decimal(set.ipv4.address_count()).as_str())?;
    out.count("IPv6", decimal(set.ipv6.address_count()).as_str())
}

// Returns a number of addresses in decimal.
fn decimal(count: AddressCount) -> ArrayString<LONGEST> {
    let mut text = ArrayString::new();
    // a number of addresses fits the capacity
    let _ = write!(text, "{count}");
    text
}
