//! What the commands print, over tables and a printer.
ghost use Rattle.std.specs.Prelude.{◌≡◌, OnOk};
ghost use Rattle.std.specs.Io.KnownBytes.{Appends};
ghost use Rattle.prefix_trie_bits.specs.Networks.{network_back};
ghost use Rattle.address_ranges.specs.Breaks.{has_address};
ghost use Rattle.prefix_trie_joint.specs.Joined.{both_networks, entries_of};
ghost use Rattle.route_tables.specs.AddressSets.{AreCoveredEntries, PrintsFewest};
ghost use Rattle.route_tables.specs.Fewest.{IsFewest};
ghost use Rattle.route_tables.specs.Minimised.{IsMinimised};
ghost use Rattle.route_tables.specs.Printed.{networks_text, ranges_text, table_text, PrintsBoth};

pub mod checks;
mod groups;
mod json;
pub mod lookups;
pub mod printer;
pub mod questions;
mod sets;
mod statistics;
mod tables;
mod text;
pub mod validations;
mod verdicts;

use crate::arguments::{AddressReport, Report};
use crate::commands::printer::Printer;
use crate::plain_lists::FewestNetworks;
use crate::stats::count_all;
use crate::table::Table;
use address_ranges::JointAddressSet;
use std::alloc::Global;
use std::io::{self, Write};
pub use tables::{list, list_within, print_diff};

/// Prints a report on a table.
///
/// `Minimise` removes the networks that it does not print. After an error, the table may have lost some of them.
///
/// # Errors
///
/// Returns the writer's error, or an error if an allocation fails.
pub fn print_report<W: Write + Drop>(
    table: &mut Table,
    report: Report,
    alloc: Global,
    out: &mut Printer<W>,
) -> io::Result<()>
    ensures minimised { report ≡ Report.Minimise → OnOk result
        (IsMinimised table.old.ipv4.entries table.new.ipv4.entries
        × IsMinimised table.old.ipv6.entries table.new.ipv6.entries
        × Appends out.old out.new (table_text (entries_of table.new))) }
    ensures aggregated { report ≡ Report.Aggregate → OnOk result (PrintsBoth
        (IsFewest 32 (network_back 32) table.old.ipv4.entries)
        (IsFewest 128 (network_back 128) table.old.ipv6.entries) out.old out.new) }
{
    match report {
        Report::Minimise => tables::minimise(table, alloc, out),
        Report::Aggregate => print_aggregate(table, alloc, out),
        Report::Stats => {
            out.counts("IPv4", &count_all(&table.ipv4, alloc)?)?;
            out.counts("IPv6", &count_all(&table.ipv6, alloc)?)
        }
    }
}

// Prints the fewest networks with the same lookups of addresses.
fn print_aggregate<W: Write + Drop>(
    table: &Table,
    alloc: Global,
    out: &mut Printer<W>,
) -> io::Result<()>
    ensures { OnOk result (PrintsBoth
        (IsFewest 32 (network_back 32) table.now.ipv4.entries)
        (IsFewest 128 (network_back 128) table.now.ipv6.entries) out.old out.new) }
{
    tables::aggregate(&table.ipv4, alloc, out)?;
    tables::aggregate(&table.ipv6, alloc, out)
}

/// Prints networks in order, those of IPv4 first.
///
/// # Errors
///
/// Returns the writer's error.
pub fn print_fewest<W: Write + Drop>(
    networks: FewestNetworks<'_>,
    out: &mut Printer<W>,
) -> io::Result<()>
    ensures { OnOk result (Appends out.old out.new
        (networks_text (both_networks networks.entry.ipv4.items networks.entry.ipv6.items))) }
{
    sets::print_networks(networks.ipv4.as_slice(), out)?;
    sets::print_networks(networks.ipv6.as_slice(), out)
}

/// Prints a set of addresses: those of IPv4, and then those of IPv6.
///
/// # Errors
///
/// Returns the writer's error, or an error if an allocation fails.
pub fn print_addresses<W: Write + Drop>(
    set: &JointAddressSet<Global>,
    report: AddressReport,
    alloc: Global,
    out: &mut Printer<W>,
) -> io::Result<()>
    ensures networks { report ≡ AddressReport.Networks
        → OnOk result (PrintsFewest set.now.ipv4 set.now.ipv6 out.old out.new) }
    ensures ranges { report ≡ AddressReport.Ranges → OnOk result
        (Appends out.old out.new (ranges_text set.now.ipv4 set.now.ipv6)) }
{
    match report {
        AddressReport::Networks => print_set(set, alloc, out),
        AddressReport::Ranges => sets::print_ranges(set, out),
        AddressReport::Count => sets::count(set, out),
    }
}

// Prints the fewest networks that cover the addresses of a set.
fn print_set<W: Write + Drop>(
    set: &JointAddressSet<Global>,
    alloc: Global,
    out: &mut Printer<W>,
) -> io::Result<()>
    ensures { OnOk result (PrintsFewest set.now.ipv4 set.now.ipv6 out.old out.new) }
{
    sets::print_fewest_of(&set.ipv4, alloc, out)?;
    sets::print_fewest_of(&set.ipv6, alloc, out)
}

/// Prints the networks of a table all of whose addresses are in a set, with their values.
///
/// # Errors
///
/// Returns the writer's error, or an error if an allocation fails.
pub fn print_covered<W: Write + Drop>(
    table: &Table,
    set: &JointAddressSet<Global>,
    alloc: Global,
    out: &mut Printer<W>,
) -> io::Result<()>
    ensures { OnOk result (PrintsBoth
        (AreCoveredEntries 32 (network_back 32) table.now.ipv4.entries
        (has_address set.now.ipv4))
        (AreCoveredEntries 128 (network_back 128) table.now.ipv6.entries
        (has_address set.now.ipv6)) out.old out.new) }
{
    sets::print_covered(&table.ipv4, &set.ipv4, alloc, out)?;
    sets::print_covered(&table.ipv6, &set.ipv6, alloc, out)
}
