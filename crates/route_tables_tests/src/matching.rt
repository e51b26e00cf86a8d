//! The addresses that `match` finds in lines, and the lines that it selects.

use route_tables::arguments::Format;
use route_tables::commands::printer::Printer;
use route_tables::load::load;
use route_tables::matching::{Searched, Selected, Selection, Which, addresses_in, print_lines};
use route_tables::questions::Mapped;
use std::alloc::Global;
use std::fmt::Write;
use std::test::Fail;

/// Lines, and the addresses in each as `Display` writes them.
const LINES: &[(&[u8], &str)] = &[
    (b"", ""),
    // ends, ports and lengths
    (b"10.0.0.1", "10.0.0.1"),
    (b"10.0.0.1... and ::1::", "10.0.0.1 ::1"),
    (b"10.0.0.1:443, 10.0.0.2:443.", "10.0.0.1 10.0.0.2"),
    (b"2001:db8::/64 10.0.0.0/8", "2001:db8:: 10.0.0.0"),
    (
        b"[2001:db8::]:80 [2001:db8::1]:80.",
        "2001:db8:: 2001:db8::1",
    ),
    (
        b"2001:db8::: unreachable, also 2001:db8::.",
        "2001:db8:: 2001:db8::",
    ),
    (b"fe80::1%eth0", "fe80::1"),
    (
        b"1:2:3:4:5:6:7:8 1:2:3:4:5:6:1.2.3.4",
        "1:2:3:4:5:6:7:8 1:2:3:4:5:6:102:304",
    ),
    (
        b"::ffff:10.1.2.3 [::ffff:10.1.2.3]:80",
        "::ffff:10.1.2.3 ::ffff:10.1.2.3",
    ),
    (b"::ffff:10.1.2.3:80", "10.1.2.3"),
    // what is beside an address
    (b"x=10.0.0.1,y=::1;z='10.0.0.2'", "10.0.0.1 ::1 10.0.0.2"),
    (
        b"src:10.0.0.1 ip:10.0.0.2:GET add:10.0.0.3",
        "10.0.0.1 10.0.0.2 10.0.0.3",
    ),
    (b"10.0.0.1-10.0.0.9", "10.0.0.1 10.0.0.9"),
    (b"\xff10.0.0.1\xff", "10.0.0.1"),
    (
        b"a.10.0.0.1 x.10.0.0.1 10.0.0.1.example 1.0.0.10.in-addr.arpa",
        "",
    ),
    (b"v1.2.3.4 1.2.3.4rc1 _1.2.3.4 1.2.3.4_ x::1 ::1x", ""),
    (
        b"Net::Daemon std::bad_alloc ActiveRecord::Base from 10.0.0.1",
        "10.0.0.1",
    ),
    // numbers that are none
    (b"1.2.3.4.5 1.2.3 10.0.0.256 10.0.0.01 .1.2.3.4", ""),
    (b"12:30:45 2025-10-10T12:30:45.123456 00:11:22:33:44:55", ""),
    (b"0:1:2:3:4:5:6:7:8 1::2::3 :::80 12345::1 2001:db8", ""),
    (b"123e4567-e89b-12d3-a456-426614174000 dead:beef cafe", ""),
    (b"0123:4567:89ab:cdef:0123:4567:89ab:cdefx", ""),
    (b"12:30:45 10.0.0.256 10.0.0.2. ::2", "10.0.0.2 ::2"),
];

/// Returns the addresses in a line as text.
fn addresses(line: &[u8], alloc: Global) -> Result<String, Fail> {
    let mut text = String::new(alloc);
    for address in addresses_in(line) {
        if !text.is_empty() {
            text.push(' ')?;
        }
        write!(text, "{address}")?;
    }
    Ok(text)
}

#[test]
fn addresses_are_found(rt: HostRuntime) -> Result<(), Fail> {
    for (line, expected) in LINES {
        let found = addresses(line, rt.alloc())?;
        assert_eq!(rt; found.as_str(), *expected);
    }
    Ok(())
}

/// Two pieces of a text.
const PIECES: [&[u8]; 2] = [
    b"10.0.0.1 for 192.0.2.1\n192.0.2.1 for 10.0.0.1\n::ffff:10.0.0.1\n",
    b"none 12:30:45\n192.0.2.1",
];

/// Selections, and the lines that each has.
const SELECTIONS: &[(Selected, Which, Mapped, &str)] = &[
    (
        Selected::Matching,
        Which::Any,
        Mapped::AsIpv4,
        "10.0.0.1 for 192.0.2.1\n192.0.2.1 for 10.0.0.1\n::ffff:10.0.0.1\n",
    ),
    (
        Selected::Matching,
        Which::First,
        Mapped::AsIpv4,
        "10.0.0.1 for 192.0.2.1\n::ffff:10.0.0.1\n",
    ),
    (
        Selected::Matching,
        Which::Any,
        Mapped::Kept,
        "10.0.0.1 for 192.0.2.1\n192.0.2.1 for 10.0.0.1\n",
    ),
    (
        Selected::Others,
        Which::Any,
        Mapped::AsIpv4,
        "none 12:30:45\n192.0.2.1\n",
    ),
];

#[test]
fn lines_are_selected(rt: HostRuntime) -> Result<(), Fail> {
    let alloc = rt.alloc();
    let table = load(b"10.0.0.0/8\n", alloc)?.table;
    for (selected, which, mapped, expected) in SELECTIONS {
        let selection = Selection {
            selected: *selected,
            which: *which,
            mapped: *mapped,
        };
        let mut out = Printer::new(Format::Text, alloc, Vec::new(alloc));
        let mut searched = Searched::default();
        for piece in PIECES {
            print_lines(&table, piece, selection, &mut searched, &mut out)?;
        }
        assert_eq!(rt;
            searched,
            Searched {
                lines: 5,
                is_any: true
            }
        );
        assert!(rt; out.into_inner().as_slice() == expected.as_bytes());
    }
    Ok(())
}
