//! A table that is printed is read back. A value is a text that a line can have, and no other text.

use route_tables::arguments::Format;
use route_tables::commands::list;
use route_tables::commands::printer::Printer;
use route_tables::load::{Loaded, load};
use route_tables::table::Table;
use route_tables::value::{Value, ValueError};
use std::alloc::Global;
use std::test::Fail;

/// Texts with each kind of value, and with networks of both ends of both families.
const TEXTS: &[&str] = &[
    "",
    "10.0.0.0/8\n",
    "0.0.0.0/0\n::/0\n",
    "0.0.0.0/0 a\n128.0.0.0/1 b\n255.255.255.255 c\n::/0 d\n8000::/1 e\nffff:ffff:ffff:ffff:ffff:ffff:ffff:ffff f\n",
    "10.0.0.0/8 -\n10.0.0.0/9 --\n10.0.0.0/10 a-b\n",
    "10.0.0.0/8 a#b # why\n10.1.0.0/16 $!\"'\\`*,;:/\n",
    "10.0.0.0/8 10.0.0.0/8\n10.1.0.0/16 1.2.3\n::/0 10.0.0.1-10.0.0.2\n",
    "10.0.0.0/8 \u{e9}\u{4e2d}\u{1f600}\n",
    "10.0.0.0/8 0123456789abcdef\n10.1.0.0/16 0123456789abcdefg\n",
    "\u{feff}10.0.0.0-10.0.2.9 lan\r\n2001:db8::1 x\r\n",
];

/// Texts that are values.
const VALUES: &[&str] = &[
    "",
    "core",
    "-",
    "a#b",
    "10.0.0.0/8",
    "1.2.3",
    "0123456789abcdefg",
    "\u{e9}",
    "\"\\",
];

/// Texts that are no values, and why.
const REFUSED: &[(&str, ValueError)] = &[
    ("two words", ValueError::HiddenCharacter),
    (" core", ValueError::HiddenCharacter),
    ("core ", ValueError::HiddenCharacter),
    ("core\n", ValueError::HiddenCharacter),
    ("core\r", ValueError::HiddenCharacter),
    ("a\u{a0}b", ValueError::HiddenCharacter),
    ("a\u{200b}", ValueError::HiddenCharacter),
    ("\u{202e}a", ValueError::HiddenCharacter),
    ("\0", ValueError::HiddenCharacter),
    ("#", ValueError::Comment),
    ("#core", ValueError::Comment),
    ("10.0.0.1", ValueError::Address),
    ("::1", ValueError::Address),
];

/// Returns the table of a text.
fn table(text: &[u8], alloc: Global) -> Result<Table, Fail> {
    let Loaded { table, warnings: _ } = load(text, alloc)?;
    Ok(table)
}

/// Returns what is printed of a table.
fn listed(table: &Table, alloc: Global) -> Result<Vec<u8>, Fail> {
    let mut out = Printer::new(Format::Text, alloc, Vec::new(alloc));
    list(table, &mut out)?;
    Ok(out.into_inner())
}

#[test]
fn a_table_that_is_printed_is_read_back(rt: HostRuntime) -> Result<(), Fail> {
    let alloc = rt.alloc();
    for text in TEXTS {
        let first = table(text.as_bytes(), alloc)?;
        let printed = listed(&first, alloc)?;
        let again = table(printed.as_slice(), alloc)?;
        assert!(rt; first == again, "{text}");
    }
    Ok(())
}

#[test]
fn values_are_texts_that_a_line_can_have(rt: HostRuntime) -> Result<(), Fail> {
    for text in VALUES {
        assert!(rt; Value::new(text, rt.alloc())?.as_str() == *text, "{text}");
    }
    for (text, why) in REFUSED {
        assert!(rt; Value::new(text, rt.alloc()).err() == Some(*why), "{text}");
    }
    Ok(())
}
