//! The example programs that read and print networks.
use crate::examples::reread::{compare, reread, reread_ipv6};
use crate::examples::routes_from_text::{LineError, add_line, next_hop, print};
use prefix_trie::{Ipv4Prefix, ParseNetworkError, PrefixMap};
use std::alloc::Global;
use std::cmp::Ordering;
use std::test::Fail;

/// A line that holds no route, and the reason.
const REFUSED: &[(&str, LineError)] = &[
    ("10.0.0.0/8", LineError::MissingSpace),
    (
        "10.0.0.0 7",
        LineError::Network(ParseNetworkError::MissingSlash),
    ),
    (
        "10.0.0.0/33 7",
        LineError::Network(ParseNetworkError::Length),
    ),
    ("10.0.0.0/8 seven", LineError::Hop),
];

/// The lines of a table.
const LINES: &[&str] = &["10.0.0.0/8 7", "10.1.2.3/16 9", "0.0.0.0/0 1"];

/// Addresses, and their next hops in the table.
const NEXT_HOPS: &[(&str, u32)] = &[("10.1.2.3", 9), ("10.2.3.4", 7), ("192.0.2.1", 1)];

/// What is printed of the table.
const PRINTED: &str = "0.0.0.0/0 1\n10.0.0.0/8 7\n10.1.0.0/16 9\n";

/// Returns the table of these lines.
fn table_of(lines: &[&str], alloc: Global) -> Result<PrefixMap<Ipv4Prefix, u32, Global>, Fail> {
    let mut table = PrefixMap::new(alloc)?;
    for line in lines {
        add_line(&mut table, line).ok().ok_or("a line was refused")?;
    }
    Ok(table)
}

#[test]
fn a_table_is_read(rt: HostRuntime) -> Result<(), Fail> {
    let table = table_of(LINES, rt.alloc())?;
    for (address, hop) in NEXT_HOPS {
        let found = next_hop(&table, address.parse()?);
        assert!(rt; found == Some(*hop), "{address}");
    }
    Ok(())
}

#[test]
fn a_table_is_printed(rt: HostRuntime) -> Result<(), Fail> {
    let table = table_of(LINES, rt.alloc())?;
    assert!(rt; print(&table, rt.alloc())?.as_str() == PRINTED);
    Ok(())
}

#[test]
fn refused_lines_change_no_table(rt: HostRuntime) -> Result<(), Fail> {
    let mut table = table_of(LINES, rt.alloc())?;
    for (line, error) in REFUSED {
        assert!(rt; add_line(&mut table, line) == Err(*error), "{line}");
    }
    assert!(rt; print(&table, rt.alloc())?.as_str() == PRINTED);
    Ok(())
}

#[test]
fn networks_are_read_back_and_compared(rt: HostRuntime) -> Result<(), Fail> {
    let (wide, near) = ("10.0.0.0/8".parse()?, "10.1.0.0/16".parse()?);
    assert!(rt; reread(wide, rt.alloc())? == Some(wide));
    assert!(rt; compare(&wide, &near) == Ordering::Less);
    let six = "2001:db8::1/32".parse()?;
    assert!(rt; reread_ipv6(six, rt.alloc())? == Some(six));
    Ok(())
}
