//! The fewest networks of lists without values, which are read without a table.

use route_tables::arguments::{Format, Report};
use route_tables::commands::printer::Printer;
use route_tables::commands::{print_fewest, print_report};
use route_tables::load::{Loaded, Reading, load};
use route_tables::network::HostBits;
use route_tables::plain_lists::fewest_of_plain;
use std::alloc::Global;
use std::test::Fail;

/// Texts of networks without values, and the fewest networks that cover them.
const PLAIN: &[(&str, &str)] = &[
    ("", ""),
    ("# none\n\n", ""),
    ("10.0.0.0/9\n10.128.0.0/9\n", "10.0.0.0/8\n"),
    (
        "10.0.0.0/8\n10.0.0.0/8\n10.1.0.0/16\n10.255.255.255\n11.0.0.0/8\n",
        "10.0.0.0/7\n",
    ),
    (
        "10.0.0.0/9\n10.128.0.0/9\n10.0.0.0/16\n10.0.0.0/8\n",
        "10.0.0.0/8\n",
    ),
    (
        "10.0.0.1-10.0.0.6\n10.0.0.7\n",
        "10.0.0.1/32\n10.0.0.2/31\n10.0.0.4/30\n",
    ),
    (
        "0.0.0.0/1\n::/1\n128.0.0.0/1\n8000::/1\n",
        "0.0.0.0/0\n::/0\n",
    ),
    (
        "10.0.0.0/25 # a\r\n10.0.0.128/26\r\n10.0.0.192/26",
        "10.0.0.0/24\n",
    ),
    ("10.0.0.0/8 # \n9.0.0.0/8\n", "9.0.0.0/8\n10.0.0.0/8\n"),
    ("10.1.0.0/16\n10.0.0.0/8\n", "10.0.0.0/8\n"),
    ("::1\n::\n", "::/127\n"),
    (
        "10.0.0.4-10.0.0.9\n10.0.0.0-10.0.0.9\n",
        "10.0.0.0/29\n10.0.0.8/31\n",
    ),
    (
        "255.255.255.255\nffff:ffff:ffff:ffff:ffff:ffff:ffff:ffff\n",
        "255.255.255.255/32\nffff:ffff:ffff:ffff:ffff:ffff:ffff:ffff/128\n",
    ),
];

/// Texts that need a table: one of their lines has a value.
const VALUED: &[&str] = &["10.0.0.0/8 core\n", "10.0.0.0/8\n11.0.0.0/8 edge\n"];

/// Texts with a bad line.
const BAD: &[&str] = &[
    "ten\n",
    "10.0.0.0/8\n10.0.0.1/8\n",
    "10.0.0.0/8\r11.0.0.0/8\n",
];

/// Returns what is printed of a text that is read without a table, or `None` if a line has a value.
fn printed(text: &str, reading: Reading, alloc: Global) -> Result<Option<Vec<u8>>, Fail> {
    let Ok(found) = fewest_of_plain(text.as_bytes(), reading, alloc) else {
        return Err(Fail::new("a line is bad"));
    };
    let Some(fewest) = found else {
        return Ok(None);
    };
    let mut out = Printer::new(Format::Text, alloc, Vec::new(alloc));
    print_fewest(fewest, &mut out)?;
    Ok(Some(out.into_inner()))
}

/// Returns what is printed of the table of a text.
fn printed_of_table(text: &str, alloc: Global) -> Result<Vec<u8>, Fail> {
    let mut out = Printer::new(Format::Text, alloc, Vec::new(alloc));
    let Loaded {
        mut table,
        warnings: _,
    } = load(text.as_bytes(), alloc)?;
    print_report(&mut table, Report::Aggregate, alloc, &mut out)?;
    Ok(out.into_inner())
}

/// Returns whether a text is read without a table, and this and its table give these networks.
fn gives(text: &str, expected: &str, alloc: Global) -> Result<bool, Fail> {
    let Some(networks) = printed(text, Reading::default(), alloc)? else {
        return Ok(false);
    };
    let of_table = printed_of_table(text, alloc)?;
    Ok(networks.as_slice() == expected.as_bytes() && of_table.as_slice() == expected.as_bytes())
}

#[test]
fn plain_lists_give_the_fewest_networks(rt: HostRuntime) -> Result<(), Fail> {
    for (text, expected) in PLAIN {
        let is_right = gives(text, expected, rt.alloc())?;
        assert!(rt; is_right, "{text}");
    }
    Ok(())
}

#[test]
fn lists_with_values_need_a_table(rt: HostRuntime) -> Result<(), Fail> {
    for text in VALUED {
        let is_none = printed(text, Reading::default(), rt.alloc())?.is_none();
        assert!(rt; is_none, "{text}");
    }
    Ok(())
}

#[test]
fn bad_lines_of_plain_lists_are_refused(rt: HostRuntime) {
    for text in BAD {
        let is_refused = fewest_of_plain(text.as_bytes(), Reading::default(), rt.alloc()).is_err();
        assert!(rt; is_refused, "{text}");
    }
}

#[test]
fn host_bits_are_cleared(rt: HostRuntime) -> Result<(), Fail> {
    let reading = Reading {
        host_bits: HostBits::Cleared,
        ..Reading::default()
    };
    let text = "10.0.0.1/9\n10.200.0.0/9\n";
    let Some(networks) = printed(text, reading, rt.alloc())? else {
        return Err(Fail::new("a line has a value"));
    };
    assert!(rt; networks.as_slice() == b"10.0.0.0/8\n".as_slice());
    Ok(())
}
