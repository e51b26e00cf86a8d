//! Which texts are read as tables, and which are refused, at which line and why.
//!
//! A case is a text and the result of reading it. The expected texts are written by hand.

use route_tables::access::{AccessList, Precedence, idle_rules};
use route_tables::arguments::Format;
use route_tables::commands;
use route_tables::commands::checks::{Checked, Checking, check_lines};
use route_tables::commands::printer::Printer;
use route_tables::load::{BadLines, Loaded, Reading, TableKind, Warnings, load, load_into};
use route_tables::messages::bad_lines::find_bad_lines;
use route_tables::messages::excerpt::{ByteExcerpt, Excerpt};
use route_tables::messages::warnings::write_bad_lines;
use route_tables::network::HostBits;
use route_tables::questions::Mapped;
use route_tables::table::Table;
use std::alloc::Global;
use std::io::Write;
use std::process::Abort;
use std::test::Fail;

/// A text, and what is printed of its table and of its warnings, or the error.
type Case = (&'static [u8], &'static str);

/// Texts that are read with host bits and bad lines refused.
const READINGS: &[Case] = &[
    (b"", ""),
    (b"\n\n", ""),
    (b"# a comment\n  # another\n", ""),
    (b"10.0.0.0/8 a\n", "10.0.0.0/8 a\n"),
    (b"10.0.0.0/8 a", "10.0.0.0/8 a\n"),
    (
        b"10.0.0.0/8 a\r\n192.0.2.0/24 b\r\n",
        "10.0.0.0/8 a\n192.0.2.0/24 b\n",
    ),
    (b"\t10.0.0.0/8  \t a # why\n", "10.0.0.0/8 a\n"),
    (b"10.0.0.0/8 a#b\n", "10.0.0.0/8 a#b\n"),
    (
        b"2001:DB8:0:0::/32 six\n0.0.0.0/0 four\n",
        "0.0.0.0/0 four\n2001:db8::/32 six\n",
    ),
    (b"10.0.0.0/8 \xc3\xa9\n", "10.0.0.0/8 \u{e9}\n"),
    (
        b"10.0.0.0/8 a\n10.0.0.0/8 b\n::/0 c\n10.0.0.0/8 d\n",
        "10.0.0.0/8 d\n::/0 c\nline 2: 10.0.0.0/8\nline 4: 10.0.0.0/8\n",
    ),
    (b"10.0.0.1 a\n::1\n", "10.0.0.1/32 a\n::1/128\n"),
    (b"10.0.0.0/8\n", "10.0.0.0/8\n"),
    (
        b"10.0.0 a\n",
        "line 1: expected a network, an address or a range: \"10.0.0 a\"",
    ),
    (
        b"# first\n\n10.0.0.0/33 a\n",
        "line 3: length 33 is above 32: \"10.0.0.0/33 a\"",
    ),
    (
        b"10.0.0.0/08 a\n",
        "line 1: \"08\" is not a length from 0 to 32: \"10.0.0.0/08 a\"",
    ),
    (
        b"10.0.0/8 a\n",
        "line 1: invalid address before the slash: \"10.0.0/8 a\"",
    ),
    (
        b"2001:db8::/129 a\n",
        "line 1: length 129 is above 128: \"2001:db8::/129 a\"",
    ),
    (
        b"10.1.2.3/8 a\r\n",
        "line 1: address has bits set after the length; use 10.0.0.0/8 or --clear-host-bits: \"10.1.2.3/8 a\"",
    ),
    (
        b"::1/64 a\n",
        "line 1: address has bits set after the length; use ::/64 or --clear-host-bits: \"::1/64 a\"",
    ),
    (
        b"10.0.0.0/8 a\n10.0.0.0/8 a b\nnonsense\n",
        "line 2: more than a network and a value: \"10.0.0.0/8 a b\"",
    ),
    (b"10.0.0.0/8 \xff\n", "line 1: not UTF-8: \"10.0.0.0/8 ?\""),
    (b"\xff\xfe1\0\n", "line 1: not UTF-8: \"??1?\""),
    (
        b"10.0.0.0/8 a\r# b\n",
        "line 1: carriage return without a line feed: \"10.0.0.0/8 a?# b\"",
    ),
    (
        b"10.0.0.0/8 gw1.example.net\n::/0 1.2.3\n",
        "10.0.0.0/8 gw1.example.net\n::/0 1.2.3\n",
    ),
    (
        b"10.0.0.0 255.0.0.0\n",
        "line 1: the value is an address; for example, use 10.0.0.0/8 or 10.0.0.0-10.255.255.255: \"10.0.0.0 255.0.0.0\"",
    ),
    (
        b"10.0.0.0/8 ::1\n",
        "line 1: the value is an address; for example, use 10.0.0.0/8 or 10.0.0.0-10.255.255.255: \"10.0.0.0/8 ::1\"",
    ),
    (
        b"10.0.0.0/8 a\xc2\xa0b\n",
        "line 1: white space, hidden or control character in the value: \"10.0.0.0/8 a?b\"",
    ),
    (
        b"10.0.0.0/8 a\xe2\x80\x8bb\n",
        "line 1: white space, hidden or control character in the value: \"10.0.0.0/8 a?b\"",
    ),
    (
        b"10.0.0.0/8 \xe2\x80\xae\n",
        "line 1: white space, hidden or control character in the value: \"10.0.0.0/8 ?\"",
    ),
];

/// Texts with ranges of addresses.
const RANGES: &[Case] = &[
    (b"10.0.0.0-10.0.1.255 lan\n", "10.0.0.0/23 lan\n"),
    (b"10.0.0.7-10.0.0.7 one\n", "10.0.0.7/32 one\n"),
    (
        b"10.0.0.1-10.0.0.6\n",
        "10.0.0.1/32\n10.0.0.2/31\n10.0.0.4/31\n10.0.0.6/32\n",
    ),
    (b"0.0.0.0-255.255.255.255 all\n", "0.0.0.0/0 all\n"),
    (
        b"192.168.1.255-192.168.2.0 a # b\n",
        "192.168.1.255/32 a\n192.168.2.0/32 a\n",
    ),
    (b"2001:db8::-2001:db8::ff six\n", "2001:db8::/120 six\n"),
    (b"::-ffff:ffff:ffff:ffff:ffff:ffff:ffff:ffff\n", "::/0\n"),
    (b"::ffff-::1:0 x\n", "::ffff/128 x\n::1:0/128 x\n"),
    (
        b"10.0.0.0/31 a\n10.0.0.0-10.0.0.3 b\n10.0.0.0-10.0.0.2 c\n",
        "10.0.0.0/30 b\n10.0.0.0/31 c\n10.0.0.2/32 c\nline 3: 10.0.0.0/31\n",
    ),
    (
        b"10.0.0.2-10.0.0.1 a\n",
        "line 1: first address of the range is after its last: \"10.0.0.2-10.0.0.1 a\"",
    ),
    (
        b"10.0.0.1-::1 a\n",
        "line 1: range from one address family to the other: \"10.0.0.1-::1 a\"",
    ),
    (
        b"10.0.0.1-\n",
        "line 1: expected an address before and after the hyphen: \"10.0.0.1-\"",
    ),
    (
        b"10.0.0.1 - 10.0.0.2\n::1 - ::1 lan # why\n",
        "10.0.0.1/32\n10.0.0.2/32\n::1/128 lan\n",
    ),
    (b"10.0.0.1 -\n", "10.0.0.1/32 -\n"),
    (
        b"10.0.0.1 - ten\n",
        "line 1: expected an address before and after the hyphen: \"10.0.0.1 - ten\"",
    ),
    (
        b"10.0.0.1 - 10.0.0.2 a b\n",
        "line 1: more than a network and a value: \"10.0.0.1 - 10.0.0.2 a b\"",
    ),
    (
        b"10.0.0.0/8-10.0.1.0/24 a\n",
        "line 1: expected an address before and after the hyphen: \"10.0.0.0/8-10.0.1.0/24 a\"",
    ),
    (
        b"10.0.0.0-10.0.0.1-10.0.0.2 a\n",
        "line 1: expected an address before and after the hyphen: \"10.0.0.0-10.0.0.1-10.0.0.2 a\"",
    ),
];

/// Texts with byte order marks.
const MARKS: &[Case] = &[
    (b"\xef\xbb\xbf", ""),
    (b"\xef\xbb\xbf10.0.0.0/8 a\n", "10.0.0.0/8 a\n"),
    (b"\xef\xbb\xbf# a comment\r\n::/0\r\n", "::/0\n"),
    (
        b"\xef\xbb10.0.0.0/8 a\n",
        "line 1: not UTF-8: \"?10.0.0.0/8 a\"",
    ),
    (
        b"\n\xef\xbb\xbf10.0.0.0/8 a\n",
        "line 2: invalid address before the slash: \"?10.0.0.0/8 a\"",
    ),
];

/// Texts that are read with host bits cleared and bad lines skipped.
const LENIENT: &[Case] = &[
    (
        b"10.1.2.3/8 a\n2001:db8::1/32 b\n10.0.0.1 c\n",
        "10.0.0.0/8 a\n10.0.0.1/32 c\n2001:db8::/32 b\n",
    ),
    (
        b"10.1.2.3/8 a\n10.4.5.6/8 b\n",
        "10.0.0.0/8 b\nline 2: 10.0.0.0/8\n",
    ),
    (
        b"ten\n10.0.0.0/8 a\n\n10.0.0.0/33\n",
        "10.0.0.0/8 a\nskipped line 1: expected a network, an address or a range: \"ten\"\nskipped line 4: length 33 is above 32: \"10.0.0.0/33\"\n",
    ),
];

/// Host bits are cleared, and bad lines are skipped.
const BOTH: Reading = Reading {
    host_bits: HostBits::Cleared,
    bad_lines: BadLines::Skipped,
    kind: TableKind::AnyValues,
};

/// Returns what is printed of the table of a text, and of the warnings, or the error.
fn reading(text: &[u8], how: Reading, alloc: Global) -> Result<String, Fail> {
    let mut table = Table::new(alloc)?;
    match load_into(&mut table, text, how, alloc) {
        Ok(warnings) => shown(&table, &warnings, alloc),
        Err(error) => Ok(error.to_string(alloc)?),
    }
}

/// Returns the same of a text that is read by `load`.
fn loading(text: &[u8], alloc: Global) -> Result<String, Fail> {
    match load(text, alloc) {
        Ok(Loaded { table, warnings }) => shown(&table, &warnings, alloc),
        Err(error) => Ok(error.to_string(alloc)?),
    }
}

/// Returns what is printed of a table.
fn listed(table: &Table, alloc: Global) -> Result<Vec<u8>, Fail> {
    let mut out = Printer::new(Format::Text, alloc, Vec::new(alloc));
    commands::list(table, &mut out)?;
    Ok(out.into_inner())
}

/// Returns what is printed of a table, and of warnings.
fn shown(table: &Table, warnings: &Warnings<'_>, alloc: Global) -> Result<String, Fail> {
    let mut text = String::from_utf8(listed(table, alloc)?)?;
    for line in &warnings.replaced {
        let (number, network) = (line.line, line.network);
        writeln!(text, "line {number}: {network}")?;
    }
    for line in &warnings.skipped {
        writeln!(text, "skipped {line}")?;
    }
    Ok(text)
}

/// Tests that each text is read as expected.
fn test_cases(rt: &impl Abort, cases: &[Case], how: Reading, alloc: Global) -> Result<(), Fail> {
    for (text, expected) in cases {
        let printed = reading(text, how, alloc)?;
        assert!(rt; printed.as_str() == *expected, "{printed}");
    }
    Ok(())
}

#[test]
fn texts_are_read_or_refused(rt: HostRuntime) -> Result<(), Fail> {
    test_cases(&rt, READINGS, Reading::default(), rt.alloc())
}

#[test]
fn texts_are_loaded_or_refused(rt: HostRuntime) -> Result<(), Fail> {
    for (text, expected) in READINGS {
        let printed = loading(text, rt.alloc())?;
        assert!(rt; printed.as_str() == *expected, "{printed}");
    }
    Ok(())
}

#[test]
fn ranges_are_read_or_refused(rt: HostRuntime) -> Result<(), Fail> {
    test_cases(&rt, RANGES, Reading::default(), rt.alloc())
}

#[test]
fn byte_order_marks_are_skipped(rt: HostRuntime) -> Result<(), Fail> {
    test_cases(&rt, MARKS, Reading::default(), rt.alloc())
}

#[test]
fn host_bits_are_cleared_and_bad_lines_skipped(rt: HostRuntime) -> Result<(), Fail> {
    test_cases(&rt, LENIENT, BOTH, rt.alloc())
}

/// Texts that are read one after another into one table, and what is printed of it after each.
const TEXTS: &[Case] = &[
    (b"10.0.0.0/8 a\n::/0 b\n", "10.0.0.0/8 a\n::/0 b\n"),
    (
        b"\xef\xbb\xbf10.0.0.0/8 c\nten\n10.0.0.0-10.0.0.1 d\n",
        "10.0.0.0/8 c\n10.0.0.0/31 d\n::/0 b\nline 1: 10.0.0.0/8\nskipped line 2: expected a network, an address or a range: \"ten\"\n",
    ),
    (b"", "10.0.0.0/8 c\n10.0.0.0/31 d\n::/0 b\n"),
];

/// Reads a text into a table, and returns what is printed of them.
fn added(table: &mut Table, text: &[u8], alloc: Global) -> Result<String, Fail> {
    let warnings = load_into(table, text, BOTH, alloc)?;
    shown(table, &warnings, alloc)
}

#[test]
fn texts_are_read_into_one_table(rt: HostRuntime) -> Result<(), Fail> {
    let mut table = Table::new(rt.alloc())?;
    for (text, expected) in TEXTS {
        let printed = added(&mut table, text, rt.alloc())?;
        assert!(rt; printed.as_str() == *expected, "{printed}");
    }
    Ok(())
}

#[test]
fn a_bad_line_leaves_the_routes_before_it(rt: HostRuntime) -> Result<(), Fail> {
    let mut table = Table::new(rt.alloc())?;
    let text = b"10.0.0.0/8 a\n10.0.0.0-10.0.0.2\nten\n::/0 b\n";
    assert!(rt; load_into(&mut table, text, Reading::default(), rt.alloc()).is_err());
    let out = listed(&table, rt.alloc())?;
    assert!(rt; out.as_slice() == b"10.0.0.0/8 a\n10.0.0.0/31\n10.0.0.2/32\n".as_slice());
    Ok(())
}

/// Returns the warnings of a text of bad lines, as the program writes them.
fn warned(text: &[u8], alloc: Global) -> Result<String, Fail> {
    let mut table = Table::new(alloc)?;
    let warnings = load_into(&mut table, text, BOTH, alloc)?;
    let mut out = Vec::new(alloc);
    write_bad_lines("t", warnings.skipped.as_slice(), &mut out)?;
    Ok(String::from_utf8(out)?)
}

#[test]
fn ten_bad_lines_are_named(rt: HostRuntime) -> Result<(), Fail> {
    let printed = warned(b"a\nb\nc\nd\ne\nf\ng\nh\ni\nj\nk\nl\n", rt.alloc())?;
    assert!(rt;
        printed.as_str().starts_with(
            "routes: t: skipped line 1: expected a network, an address or a range: \"a\"\n"
        )
    );
    assert!(rt;
        printed.as_str().ends_with(
            "skipped line 10: expected a network, an address or a range: \"j\"\nroutes: t: 2 more such lines\n"
        )
    );
    Ok(())
}

/// Texts that are no access lists, and the first line that is refused.
const LISTS: &[Case] = &[
    (
        b"10.0.0.0/8 allow\n10.1.0.1/16 deny\n",
        "line 2: address has bits set after the length; use 10.1.0.0/16 or --clear-host-bits: \"10.1.0.1/16 deny\"",
    ),
    (
        b"10.0.0.0/8 Allow\n",
        "line 1: allow and deny are in lower case: \"10.0.0.0/8 Allow\"",
    ),
    (
        b"10.0.0.0/8 allow\n::/0\n",
        "line 2: the value is neither allow nor deny: \"::/0\"",
    ),
];

#[test]
fn access_lists_are_refused(rt: HostRuntime) -> Result<(), Fail> {
    for (text, expected) in LISTS {
        let list = AccessList::new(rt.alloc())?;
        match list.add(text, HostBits::Refused, rt.alloc()) {
            Ok(_) => assert!(rt; false, "{expected}"),
            Err(error) => {
                let printed = error.to_string(rt.alloc())?;
                assert!(rt; printed.as_str() == *expected, "{printed}");
            }
        }
    }
    Ok(())
}

/// Returns what is printed of the lines of a text, with those skipped that are no addresses, and what they show.
fn checked(list: &AccessList, text: &[u8], alloc: Global) -> Result<String, Fail> {
    let checking = Checking {
        precedence: Precedence::Longest,
        bad_questions: BadLines::Skipped,
        mapped: Mapped::AsIpv4,
    };
    let mut checked = Checked::new();
    let mut out = Printer::new(Format::Text, alloc, Vec::new(alloc));
    check_lines(list, text, checking, &mut checked, &mut out)?;
    let mut text = String::from_utf8(out.into_inner())?;
    let (count, skipped) = (checked.seen.count, checked.seen.skipped.first());
    writeln!(text, "{} {count} {skipped:?}", checked.are_all_allowed)?;
    Ok(text)
}

/// Lines that are checked, and what is printed.
const CHECKS: &[Case] = &[
    (b"", "true 0 []\n"),
    (
        b"# none\n\n 10.9.9.9 # why\r\n",
        "10.9.9.9 allowed 10.0.0.0/8\ntrue 3 []\n",
    ),
    (b"ten\n", "false 1 [1]\n"),
    (
        b"10.9.9.9 10.9.9.9\n10.0.0.0/8\n::ffff:10.1.2.3\n",
        "::ffff:10.1.2.3 denied 10.1.0.0/16\nfalse 3 [1, 2]\n",
    ),
];

#[test]
fn skipped_lines_are_not_allowed(rt: HostRuntime) -> Result<(), Fail> {
    let text = b"10.0.0.0/8 allow\n10.1.0.0/16 deny\n::/0 allow\n";
    let (list, _) = AccessList::new(rt.alloc())?.add(text, HostBits::Refused, rt.alloc())?;
    for (lines, expected) in CHECKS {
        let printed = checked(&list, lines, rt.alloc())?;
        assert!(rt; printed.as_str() == *expected, "{printed}");
    }
    Ok(())
}

/// Returns what is printed of the rules of a list that decide no address.
fn idle(list: &AccessList, precedence: Precedence, alloc: Global) -> Result<String, Fail> {
    let mut text = String::new(alloc);
    for rule in idle_rules(list, precedence, alloc)? {
        writeln!(text, "{rule}")?;
    }
    Ok(text)
}

#[test]
fn idle_rules_are_found(rt: HostRuntime) -> Result<(), Fail> {
    let text =
        b"10.0.0.0/8 deny\n10.0.0.0/9 allow\n10.128.0.0/9 allow\n::/0 deny\n2001:db8::/32 allow\n\
        255.255.255.254/31 deny\n255.255.255.254 allow\n255.255.255.255 allow\n";
    let (list, _) = AccessList::new(rt.alloc())?.add(text, HostBits::Refused, rt.alloc())?;
    let longest = idle(&list, Precedence::Longest, rt.alloc())?;
    assert!(rt; longest.as_str() == "10.0.0.0/8 deny\n255.255.255.254/31 deny\n");
    let deny_first = idle(&list, Precedence::DenyFirst, rt.alloc())?;
    assert!(rt;
        deny_first.as_str()
            == "10.0.0.0/9 allow\n10.128.0.0/9 allow\n255.255.255.254/32 allow\n255.255.255.255/32 allow\n2001:db8::/32 allow\n"
    );
    Ok(())
}

#[test]
fn twenty_bad_lines_are_found(rt: HostRuntime) -> Result<(), Fail> {
    let text = b"\xef\xbb\xbf::/0\na\nb\nc\nd\ne\nf\ng\nh\ni\nj\nk\nl\nm\nn\no\np\nq\nr\ns\nt\nu\n";
    let found = find_bad_lines(text, Reading::default(), rt.alloc())?;
    assert!(rt; found.count == 21);
    assert!(rt; found.first.iter().map(|line| line.number).eq(2..22));
    Ok(())
}

#[test]
fn excerpts_are_cut(rt: HostRuntime) -> Result<(), Fail> {
    let sixty = "123456789 123456789 123456789 123456789 123456789 123456789 ";
    let alloc = rt.alloc();
    assert!(rt; format!(in alloc; "{}", Excerpt(sixty))?.as_str() == sixty);
    assert!(rt; format!(in alloc; "{}", ByteExcerpt(sixty.as_bytes()))?.as_str() == sixty);
    let longer = format!(in alloc; "{sixty}\t")?;
    let cut = format!(in alloc; "{sixty}...")?;
    assert!(rt; format!(in alloc; "{}", Excerpt(longer.as_str()))?.as_str() == cut.as_str());
    assert!(rt; format!(in alloc; "{}", ByteExcerpt(longer.as_bytes()))?.as_str() == cut.as_str());
    Ok(())
}

/// Returns a text of two networks with `middle` 1,000,000 times between them.
fn long_text(before: &str, middle: u8, after: &str, alloc: Global) -> Result<Vec<u8>, Fail> {
    let mut text = Vec::new(alloc);
    text.extend_from_slice(before.as_bytes())?;
    let len = text.len();
    text.resize(len.saturating_add(1_000_000), middle)?;
    text.extend_from_slice(after.as_bytes())?;
    Ok(text)
}

#[test]
fn a_long_value_is_kept(rt: HostRuntime) -> Result<(), Fail> {
    let text = long_text("10.0.0.0/8 a\n::/0 ", b'x', "\n10.0.0.0/8 b\n", rt.alloc())?;
    let printed = loading(text.as_slice(), rt.alloc())?;
    let rest = "10.0.0.0/8 b\n::/0 \nline 3: 10.0.0.0/8\n";
    assert!(rt; printed.len() == 1_000_000 + rest.len());
    Ok(())
}

#[test]
fn a_long_line_is_refused(rt: HostRuntime) -> Result<(), Fail> {
    let text = long_text("10.0.0.0/8 a\n", b'1', "\n", rt.alloc())?;
    let printed = loading(text.as_slice(), rt.alloc())?;
    assert!(rt;
        printed.as_str()
            == "line 2: expected a network, an address or a range: \"111111111111111111111111111111111111111111111111111111111111...\""
    );
    Ok(())
}
