//! What commands print of tables, by network.
ghost use Rattle.std.specs.Prelude.{◌≡◌, ◌↔◌, OnOk, flat_map, map, true};
ghost use Rattle.std.specs.Io.KnownBytes.{Appends};
ghost use Rattle.prefix_trie.specs.Terms.{lent_item, listing_below, prefix_pairs};
ghost use Rattle.prefix_trie_joint.specs.Joined.{entries_of};
ghost use Rattle.prefix_trie_joint.specs.Networks.{ip_back, ip_path};
ghost use Rattle.prefix_trie_joint.specs.declared.prefix.IpPrefix.{IpPrefix};
ghost use Rattle.prefix_trie_ops.specs.Merging.{lent_side};
ghost use Rattle.route_tables.specs.Fewest.{IsFewest};
ghost use Rattle.route_tables.specs.Minimised.{IsMinimised};
ghost use Rattle.route_tables.specs.Printed.{change_line, changes_text, routes_text, table_text, IsConversion, PrintsChanges, PrintsFamily};

use crate::commands::printer::Printer;
use crate::diff::{Values, changes};
use crate::fewest::fewest_networks;
use crate::minimise::remove_redundant;
use crate::table::{FamilyTable, Table};
use prefix_trie::Prefix;
use prefix_trie_joint::IpPrefix;
use std::alloc::Global;
use std::io::{self, Write};

/// Prints a table in listing order, a line for each network.
///
/// # Errors
///
/// Returns the printer's error.
pub fn list<W: Write + Drop>(table: &Table, out: &mut Printer<W>) -> io::Result<()>
    ensures { OnOk result (Appends out.old out.new (table_text (entries_of table.now))) }
{
    for (network, value) in table {
        out.route(&network, value.as_str())?;
    }
    Ok(())
}

/// Prints the networks that a network contains, in listing order.
///
/// # Errors
///
/// Returns the printer's error.
pub fn list_within<W: Write + Drop>(
    table: &Table,
    network: IpPrefix,
    out: &mut Printer<W>,
) -> io::Result<()>
    ensures { OnOk result (Appends out.old out.new (routes_text
        (prefix_pairs ip_back (listing_below (entries_of table.now) (ip_path network))))) }
{
    for (network, value) in table.children(&network) {
        out.route(&network, value.as_str())?;
    }
    Ok(())
}

/// Prints what changes from an old table to a new one, IPv4 first, each family in listing order. Sets `is_same` to false if
/// anything does.
///
/// # Errors
///
/// Returns the printer's error, or an error if an allocation fails.
pub fn print_diff<W: Write + Drop>(
    old: &Table,
    new: &Table,
    alloc: Global,
    out: &mut Printer<W>,
    is_same: &mut bool,
) -> io::Result<()>
    ensures lines { OnOk result (Appends out.old out.new
        (changes_text old.now.ipv4.entries new.now.ipv4.entries old.now.ipv6.entries
        new.now.ipv6.entries)) }
    ensures same { OnOk result ((is_same.new ≡ true) ↔ ((is_same.old ≡ true)
        × (old.now.ipv4.entries ≡ new.now.ipv4.entries)
        × (old.now.ipv6.entries ≡ new.now.ipv6.entries))) }
{
    diff(&old.ipv4, &new.ipv4, alloc, out, is_same)?;
    diff(&old.ipv6, &new.ipv6, alloc, out, is_same)
}

// Prints what changes from a table of a family to another. Sets `is_same` to false if anything does.
fn diff<P: Prefix + Copy + Into<IpPrefix>, W: Write + Drop>(
    old: &FamilyTable<P>,
    new: &FamilyTable<P>,
    alloc: Global,
    out: &mut Printer<W>,
    is_same: &mut bool,
) -> io::Result<()>
    ensures lines { OnOk result (PrintsChanges P.Into.converts P.back old.now.entries
        new.now.entries out.old out.new) }
    ensures same { OnOk result ((is_same.new ≡ true)
        ↔ ((is_same.old ≡ true) × (old.now.entries ≡ new.now.entries))) }
{
    let changes = changes(old, new, alloc)?;
    let list = changes.as_slice();
    *is_same &= list.is_empty();
    print_changes(list, out)
}

// Prints what two tables have at networks at which they differ.
fn print_changes<P: Prefix + Copy + Into<IpPrefix>, W: Write + Drop>(
    changes: &[(P, Values<'_>)],
    out: &mut Printer<W>,
) -> io::Result<()>
    ensures { OnOk result ((ip : P → IpPrefix) → IsConversion P.Into.converts ip
        → Appends out.old out.new
        (flat_map (λ e. change_line (ip e.0) e.1) (map lent_side changes.now))) }
{
    for entry in changes {
        out.change(&entry.0.into(), &entry.1)?;
    }
    Ok(())
}

/// Removes the networks that change no lookup, and prints the rest.
///
/// After an error, the table may have lost these networks already, of one family or of both.
pub fn minimise<W: Write + Drop>(
    table: &mut Table,
    alloc: Global,
    out: &mut Printer<W>,
) -> io::Result<()>
    ensures ipv4 { OnOk result (IsMinimised table.old.ipv4.entries table.new.ipv4.entries) }
    ensures ipv6 { OnOk result (IsMinimised table.old.ipv6.entries table.new.ipv6.entries) }
    ensures lines { OnOk result (Appends out.old out.new (table_text (entries_of table.new))) }
{
    remove_redundant(&mut table.ipv4, alloc)?;
    remove_redundant(&mut table.ipv6, alloc)?;
    list(table, out)
}

/// Prints the fewest networks that give each address the value that it has in a table of a family, in listing order.
pub fn aggregate<P: Prefix + Copy + Into<IpPrefix>, W: Write + Drop>(
    table: &FamilyTable<P>,
    alloc: Global,
    out: &mut Printer<W>,
) -> io::Result<()>
    ensures { OnOk result (PrintsFamily P.Into.converts
        (IsFewest P.R.bit_width P.back table.now.entries) out.old out.new) }
{
    let networks = fewest_networks(table, alloc)?;
    print_routes(networks.as_slice(), out)
}

// Prints networks and their values.
fn print_routes<P: Prefix + Copy + Into<IpPrefix>, W: Write + Drop>(
    routes: &[(P, &str)],
    out: &mut Printer<W>,
) -> io::Result<()>
    ensures { OnOk result ((ip : P → IpPrefix) → IsConversion P.Into.converts ip
        → Appends out.old out.new
        (routes_text (map (λ e. (ip e.0, e.1)) (map lent_item routes.now)))) }
{
    for entry in routes {
        out.route(&entry.0.into(), entry.1)?;
    }
    Ok(())
}
