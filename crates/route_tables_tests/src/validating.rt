//! How texts of VRPs and of routes are read, and which states are printed.
//!
//! The expected texts are written by hand.

use origin_validation::{Vrp, Vrps};
use route_tables::arguments::Format;
use route_tables::commands::printer::Printer;
use route_tables::commands::validations::{Validated, Validating, Verdicts, validate_lines};
use route_tables::load::BadLines;
use route_tables::network::HostBits;
use route_tables::vrp_lines::add_vrps;
use std::alloc::Global;
use std::io::Write;
use std::test::Fail;

/// A text, and what is printed of what is read from it.
type Case = (&'static [u8], &'static str);

/// Texts of VRPs, and their VRPs and bad lines.
const VRP_TEXTS: &[Case] = &[
    (b"", ""),
    (b"ASN,IP Prefix,Max Length,Trust Anchor\n", ""),
    (
        b"\xef\xbb\xbfASN,IP Prefix,Max Length,Trust Anchor,Expires\r\nAS64500,10.0.0.0/8,16,ripe,1\r\n",
        "10.0.0.0/8-16 AS64500\n",
    ),
    (
        b"0064500,10.0.0.0/8,8\n\n \nAS0,2001:db8::/32,128,\n",
        "10.0.0.0/8-8 AS64500\n2001:db8::/32-128 AS0\n",
    ),
    (
        b"\"ASN\",\"IP Prefix\",\"Max Length\",\"Trust Anchor\"\n\"AS1\",\"::/0\",\"0\",\"a,b\"\nASN,x\nAS4294967295 , 10.0.0.1 ,32",
        "::/0-0 AS1\n10.0.0.1/32-32 AS4294967295\n",
    ),
    (
        b"AS1,10.0.0.0/8,7\nAS1,10.0.0.0/8,33\nAS1,2001:db8::/32,129\nAS1,10.0.0.0/8,\nAS1,10.0.0.0/8\n",
        "line 1: the maximum length is not a number from the prefix's length to the address's width: \"AS1,10.0.0.0/8,7\"\n\
        line 2: the maximum length is not a number from the prefix's length to the address's width: \"AS1,10.0.0.0/8,33\"\n\
        line 3: the maximum length is not a number from the prefix's length to the address's width: \"AS1,2001:db8::/32,129\"\n\
        line 4: the maximum length is not a number from the prefix's length to the address's width: \"AS1,10.0.0.0/8,\"\n\
        line 5: the maximum length is not a number from the prefix's length to the address's width: \"AS1,10.0.0.0/8\"\n",
    ),
    (
        b"4294967296,::/0,0\nas1,::/0,0\nAS,::/0,0\nAS+1,::/0,0\n1.10,::/0,0\n\"1,::/0,0\n# AS1,::/0,0\nAS1 AS2,::/0,0\n,,\n",
        "line 1: the first field is not an AS number: \"4294967296,::/0,0\"\n\
        line 2: the first field is not an AS number: \"as1,::/0,0\"\n\
        line 3: the first field is not an AS number: \"AS,::/0,0\"\n\
        line 4: the first field is not an AS number: \"AS+1,::/0,0\"\n\
        line 5: the first field is not an AS number: \"1.10,::/0,0\"\n\
        line 6: the first field is not an AS number: \"\"1,::/0,0\"\n\
        line 7: the first field is not an AS number: \"# AS1,::/0,0\"\n\
        line 8: the first field is not an AS number: \"AS1 AS2,::/0,0\"\n\
        line 9: the first field is not an AS number: \",,\"\n",
    ),
    (
        b"AS1,10.0.0.1/8,8\nAS1,10.0.0.0/33,33\nAS1,ten,8\nAS1,\xff,8\nAS1,::/0\r,0\nAS1,::/0,0\xff\nASx,ten,x\n",
        "line 1: address has bits set after the length; use 10.0.0.0/8 or --clear-host-bits: \"AS1,10.0.0.1/8,8\"\n\
        line 2: length 33 is above 32: \"AS1,10.0.0.0/33,33\"\n\
        line 3: expected a network or an address: \"AS1,ten,8\"\n\
        line 4: not UTF-8: \"AS1,?,8\"\n\
        line 5: carriage return without a line feed: \"AS1,::/0?,0\"\n\
        line 6: the maximum length is not a number from the prefix's length to the address's width: \"AS1,::/0,0?\"\n\
        line 7: the first field is not an AS number: \"ASx,ten,x\"\n",
    ),
];

/// Returns the VRPs and the bad lines of a text.
fn vrps_of(text: &[u8], alloc: Global) -> Result<String, Fail> {
    let mut vrps = Vec::new(alloc);
    let bad = add_vrps(&mut vrps, text, HostBits::Refused, alloc)?;
    let mut printed = String::new(alloc);
    for Vrp {
        prefix,
        max_len,
        origin,
    } in vrps {
        writeln!(printed, "{prefix}-{max_len} AS{origin}")?;
    }
    for line in bad {
        writeln!(printed, "{line}")?;
    }
    Ok(printed)
}

#[test]
fn vrps_are_read(rt: HostRuntime) -> Result<(), Fail> {
    for (text, expected) in VRP_TEXTS {
        let printed = vrps_of(text, rt.alloc())?;
        assert!(rt; printed.as_str() == *expected, "{printed}");
    }
    Ok(())
}

/// The VRPs by which routes are validated.
const VRPS: &[u8] =
    b"AS64500,10.0.0.0/8,16\nAS64501,10.1.0.0/16,24\nAS64502,10.1.0.0/16,16\nAS0,192.0.2.0/24,32\nAS64500,2001:db8::/32,48\n";

/// Texts of routes, and what is printed: the states, and then the error or the numbers of routes with each state, and the bad
/// lines that are skipped.
const ROUTES: &[Case] = &[
    (b"", "0 0 0 []\n"),
    (
        b"# a comment\n\n10.0.0.0/8 AS64500\r\n10.0.0.0/16 64499 AS64500 # why\n10.0.0.0/17 64500\n10.0.0.0/8 64501\n",
        "10.0.0.0/8 AS64500 valid 10.0.0.0/8-16 AS64500\n10.0.0.0/16 AS64500 valid 10.0.0.0/8-16 AS64500\n\
        10.0.0.0/17 AS64500 invalid 10.0.0.0/8-16 AS64500\n10.0.0.0/8 AS64501 invalid 10.0.0.0/8-16 AS64500\n2 2 0 []\n",
    ),
    (
        b"10.1.0.0/16 64500\n10.1.2.0/24 64501\n10.1.2.0/25 64501\n10.1.2.3 64501\n0.0.0.0/0 64500\n11.0.0.0/8 64500\n2001:db8::/48 64500\n",
        "10.1.0.0/16 AS64500 valid 10.0.0.0/8-16 AS64500\n10.1.2.0/24 AS64501 valid 10.1.0.0/16-24 AS64501\n\
        10.1.2.0/25 AS64501 invalid 10.1.0.0/16-16 AS64502\n10.1.2.3/32 AS64501 invalid 10.1.0.0/16-16 AS64502\n\
        0.0.0.0/0 AS64500 not-found none\n11.0.0.0/8 AS64500 not-found none\n2001:db8::/48 AS64500 valid 2001:db8::/32-48 AS64500\n3 2 2 []\n",
    ),
    (
        b"192.0.2.0/24 0\n10.0.0.0/8 64500 {64500}\n10.0.0.0/8 {64501,64502} 64500\n10.0.0.0/8 64499 { 64500 64501 }\n",
        "192.0.2.0/24 AS0 invalid 192.0.2.0/24-32 AS0\n10.0.0.0/8 none invalid 10.0.0.0/8-16 AS64500\n\
        10.0.0.0/8 AS64500 valid 10.0.0.0/8-16 AS64500\n10.0.0.0/8 none invalid 10.0.0.0/8-16 AS64500\n1 3 0 []\n",
    ),
    (
        b"10.0.0.0/8\nten 1\n10.0.0.1/8 1\n10.0.0.0/8 1 x\n10.0.0.0/8 {1;2}\n\xff 1\n10.0.0.0/8 \xff\n10.0.0.0/8 1\r 2\n10.0.0.0/8 64500",
        "10.0.0.0/8 AS64500 valid 10.0.0.0/8-16 AS64500\n1 0 0 [1, 2, 3, 4, 5, 6, 7, 8]\n",
    ),
];

/// Returns what is printed of routes.
fn states_of(text: &[u8], bad_routes: BadLines, alloc: Global) -> Result<String, Fail> {
    let mut vrps = Vec::new(alloc);
    add_vrps(&mut vrps, VRPS, HostBits::Refused, alloc)?;
    let vrps = Vrps::new(vrps, alloc)?;
    let validating = Validating {
        host_bits: HostBits::Refused,
        bad_routes,
        verdicts: Verdicts::Each,
    };
    let mut validated = Validated::new();
    let mut out = Printer::new(Format::Text, alloc, Vec::new(alloc));
    let done = validate_lines(&vrps, text, validating, &mut validated, &mut out);
    let mut printed = String::from_utf8(out.into_inner())?;
    if let Err(error) = done {
        writeln!(printed, "{error}")?;
        return Ok(printed);
    }
    let (counts, skipped) = (validated.counts, validated.seen.skipped.first());
    let (valid, invalid, not_found) = (counts.valid, counts.invalid, counts.not_found);
    writeln!(printed, "{valid} {invalid} {not_found} {skipped:?}")?;
    Ok(printed)
}

#[test]
fn routes_are_validated(rt: HostRuntime) -> Result<(), Fail> {
    for (text, expected) in ROUTES {
        let printed = states_of(text, BadLines::Skipped, rt.alloc())?;
        assert!(rt; printed.as_str() == *expected, "{printed}");
    }
    Ok(())
}

/// Texts of routes of which the last line is refused.
const REFUSED: &[Case] = &[
    (
        b"10.0.0.0/8\n",
        "line 1: no AS follows the prefix: \"10.0.0.0/8\"\n",
    ),
    (
        b"\n10.0.0.0/8 1 1.10\n",
        "line 2: not an AS number: \"10.0.0.0/8 1 1.10\"\n",
    ),
    (
        b"0.0.0.0/0 1\n10.0.0.1/8 1\n",
        "0.0.0.0/0 AS1 not-found none\nline 2: address has bits set after the length; use 10.0.0.0/8 or --clear-host-bits: \"10.0.0.1/8 1\"\n",
    ),
];

#[test]
fn bad_routes_are_refused(rt: HostRuntime) -> Result<(), Fail> {
    for (text, expected) in REFUSED {
        let printed = states_of(text, BadLines::Refused, rt.alloc())?;
        assert!(rt; printed.as_str() == *expected, "{printed}");
    }
    Ok(())
}
