//! Sets, entries and ranges of the addresses of texts.
//!
//! A case has the texts of tables, and the expected results, one a line. The expected texts are written by hand.

use address_ranges::{AddressSet, JointAddressSet};
use prefix_trie::Prefix;
use route_tables::address_list::AddressList;
use route_tables::address_sets::covered;
use route_tables::arguments::{AddressReport, Format};
use route_tables::commands::print_addresses;
use route_tables::commands::printer::Printer;
use route_tables::load::{Loaded, Reading, load};
use route_tables::table::{FamilyTable, Table};
use std::alloc::Global;
use std::fmt::Display;
use std::io::Write;
use std::test::Fail;

/// Two texts, the union of their addresses, their intersection, their difference, and the entries of the first text all of
/// whose addresses the second has.
type Pair = (
    &'static str,
    &'static str,
    &'static str,
    &'static str,
    &'static str,
    &'static str,
);

const PAIRS: &[Pair] = &[
    ("", "", "", "", "", ""),
    (
        "10.0.0.0/8 a\n2001:db8::/32 b\n",
        "",
        "10.0.0.0/8\n2001:db8::/32\n",
        "",
        "10.0.0.0/8\n2001:db8::/32\n",
        "",
    ),
    (
        "",
        "10.0.0.0/8\n2001:db8::/32\n",
        "10.0.0.0/8\n2001:db8::/32\n",
        "",
        "",
        "",
    ),
    (
        "10.0.0.0/9 a\n2001:db8::/33 b\n",
        "10.128.0.0/9 c\n10.1.0.0/16 d\n2001:db8:8000::/33 e\n",
        "10.0.0.0/8\n2001:db8::/32\n",
        "10.1.0.0/16\n",
        "10.0.0.0/16\n10.2.0.0/15\n10.4.0.0/14\n10.8.0.0/13\n10.16.0.0/12\n10.32.0.0/11\n10.64.0.0/10\n2001:db8::/33\n",
        "",
    ),
    (
        "10.0.0.0/24 a\n10.0.1.0/24 b\n::1 c\n",
        "10.0.0.0/25\n10.0.0.128/25\n10.0.1.0/25\n::/126\n",
        "10.0.0.0/23\n::/126\n",
        "10.0.0.0/24\n10.0.1.0/25\n::1/128\n",
        "10.0.1.128/25\n",
        "10.0.0.0/24 a\n::1/128 c\n",
    ),
    (
        "10.0.0.0/8 a\n10.0.0.0/9 b\n10.0.0.0/10 c\n10.128.0.0/9 d\n",
        "10.0.0.0/10\n10.64.0.0/10\n",
        "10.0.0.0/8\n",
        "10.0.0.0/9\n",
        "10.128.0.0/9\n",
        "10.0.0.0/9 b\n10.0.0.0/10 c\n",
    ),
    (
        "0.0.0.0/0 a\n::/0 b\n",
        "0.0.0.0/1\n128.0.0.0/1\n8000::/1\n",
        "0.0.0.0/0\n::/0\n",
        "0.0.0.0/0\n8000::/1\n",
        "::/1\n",
        "0.0.0.0/0 a\n",
    ),
    (
        "255.255.255.255 a\nffff:ffff:ffff:ffff:ffff:ffff:ffff:ffff b\n",
        "255.255.255.254\n",
        "255.255.255.254/31\nffff:ffff:ffff:ffff:ffff:ffff:ffff:ffff/128\n",
        "",
        "255.255.255.255/32\nffff:ffff:ffff:ffff:ffff:ffff:ffff:ffff/128\n",
        "",
    ),
];

/// A text, the fewest networks of its addresses, and their ranges.
type Single = (&'static str, &'static str, &'static str);

const SINGLES: &[Single] = &[
    ("", "", ""),
    (
        "0.0.0.0/0\n::/0\n",
        "0.0.0.0/0\n::/0\n",
        "0.0.0.0-255.255.255.255\n::-ffff:ffff:ffff:ffff:ffff:ffff:ffff:ffff\n",
    ),
    (
        "0.0.0.0/1 a\n128.0.0.0/1 b\n::/1 c\n",
        "0.0.0.0/0\n::/1\n",
        "0.0.0.0-255.255.255.255\n::-7fff:ffff:ffff:ffff:ffff:ffff:ffff:ffff\n",
    ),
    (
        "10.0.0.0/8 a\n10.1.0.0/16 b\n10.1.2.3 c\n11.0.0.0/8 d\n12.0.0.0/8 e\n",
        "10.0.0.0/7\n12.0.0.0/8\n",
        "10.0.0.0-12.255.255.255\n",
    ),
    (
        "10.0.0.0/25\n10.0.0.128/26\n10.0.0.192/27\n10.0.0.224/27\n10.0.1.0/24\n2001:db8::\n2001:db8::1\n",
        "10.0.0.0/23\n2001:db8::/127\n",
        "10.0.0.0-10.0.1.255\n2001:db8::-2001:db8::1\n",
    ),
    (
        "10.0.0.1\n10.0.0.2\n10.0.0.3\n10.0.0.5\n",
        "10.0.0.1/32\n10.0.0.2/31\n10.0.0.5/32\n",
        "10.0.0.1-10.0.0.3\n10.0.0.5-10.0.0.5\n",
    ),
    (
        "255.255.255.254/31\n0.0.0.0/31\n",
        "0.0.0.0/31\n255.255.255.254/31\n",
        "0.0.0.0-0.0.0.1\n255.255.255.254-255.255.255.255\n",
    ),
];

/// Returns the table of a text.
fn table(text: &str, alloc: Global) -> Result<Table, Fail> {
    let Loaded { table, warnings: _ } = load(text.as_bytes(), alloc)?;
    Ok(table)
}

/// Returns the addresses of a text.
fn addresses(text: &str, alloc: Global) -> Result<JointAddressSet<Global>, Fail> {
    let mut list = AddressList::new(alloc)?;
    match list.add(text.as_bytes(), Reading::default(), alloc) {
        Ok(_) => Ok(list.finish()?),
        Err(_) => Err(Fail::new("a line is bad")),
    }
}

/// Returns whether a report on a set prints these lines.
fn prints(
    set: &JointAddressSet<Global>,
    report: AddressReport,
    expected: &str,
    alloc: Global,
) -> Result<bool, Fail> {
    let mut out = Printer::new(Format::Text, alloc, Vec::new(alloc));
    print_addresses(set, report, alloc, &mut out)?;
    Ok(out.into_inner().as_slice() == expected.as_bytes())
}

/// Writes the entries of a family all of whose addresses another table covers.
fn write_covered<P: Prefix + Display>(
    table: &FamilyTable<P>,
    set: &AddressSet<P, Global>,
    out: &mut Vec<u8>,
    alloc: Global,
) -> Result<(), Fail> {
    for (network, value) in covered(table, set, alloc)? {
        writeln!(out, "{network} {}", value.as_str())?;
    }
    Ok(())
}

fn has_covered(
    table: &Table,
    set: &JointAddressSet<Global>,
    expected: &str,
    alloc: Global,
) -> Result<bool, Fail> {
    let mut out = Vec::new(alloc);
    write_covered(&table.ipv4, &set.ipv4, &mut out, alloc)?;
    write_covered(&table.ipv6, &set.ipv6, &mut out, alloc)?;
    Ok(out.as_slice() == expected.as_bytes())
}

/// Returns whether the results of the two texts of a pair are as expected.
fn is_right(pair: &Pair, alloc: Global) -> Result<bool, Fail> {
    let left = addresses(pair.0, alloc)?;
    let right = addresses(pair.1, alloc)?;
    let networks = AddressReport::Networks;
    Ok(
        prints(&left.union(&right, alloc)?, networks, pair.2, alloc)?
            && prints(&left.intersection(&right, alloc)?, networks, pair.3, alloc)?
            && prints(&left.difference(&right, alloc)?, networks, pair.4, alloc)?
            && has_covered(&table(pair.0, alloc)?, &right, pair.5, alloc)?,
    )
}

#[test]
fn pairs_have_these_addresses(rt: HostRuntime) -> Result<(), Fail> {
    for pair in PAIRS {
        let is_right = is_right(pair, rt.alloc())?;
        assert!(rt; is_right, "{} and {}", pair.0, pair.1);
    }
    Ok(())
}

#[test]
fn texts_have_these_addresses(rt: HostRuntime) -> Result<(), Fail> {
    for (text, networks, ranges) in SINGLES {
        let set = addresses(text, rt.alloc())?;
        let has_networks = prints(&set, AddressReport::Networks, networks, rt.alloc())?;
        assert!(rt; has_networks, "{text}");
        let has_ranges = prints(&set, AddressReport::Ranges, ranges, rt.alloc())?;
        assert!(rt; has_ranges, "{text}");
    }
    Ok(())
}
