//! What the commands of the program `routes` print that do not check or search, and how command lines are read.
//!
//! A case of `PRINTINGS` is a command line over the texts `old`, `new` and `access`, and what the command prints. The
//! expected texts are written by hand.

use address_ranges::JointAddressSet;
use route_tables::access::Precedence;
use route_tables::address_list::AddressList;
use route_tables::arguments::{
    AddressReport, Comparison, Format, Invocation, Options, Task, parse,
};
use route_tables::commands::lookups::{Looking, look_up_words};
use route_tables::commands::printer::Printer;
use route_tables::commands::questions::Seen;
use route_tables::commands::{
    list, list_within, print_addresses, print_covered, print_diff, print_report,
};
use route_tables::load::{BadLines, Loaded, Reading, TableKind, load};
use route_tables::lookup::Relation;
use route_tables::matching::{Selected, Selection, Which};
use route_tables::network::{HostBits, parse_network};
use route_tables::questions::{Asked, Asking, Mapped};
use route_tables::table::Table;
use std::alloc::Global;
use std::str;
use std::test::Fail;

/// The texts that the commands read.
const OLD: &str =
    "0.0.0.0/0 up\n10.0.0.0/8 core\n10.1.0.0/16 core\n10.1.2.0/24 lab\n192.0.2.0/24 test\n2001:db8::/32 six\n";

const NEW: &str =
    "0.0.0.0/0 up\n10.0.0.0/8 core\n10.1.2.0/24 office\n10.64.0.0/10 vpn\n2001:db8::/32 six\n2001:db8:1::/48 lab\n";

const ACCESS: &str = "10.0.0.0/8 allow\n10.1.0.0/16 deny\n10.1.2.0/24 allow\n::/0 allow\n";

/// A command line, and what the command prints.
type Printing = (&'static [&'static str], &'static str);

const PRINTINGS: &[Printing] = &[
    (
        &[
            "lookup",
            "old",
            "10.1.2.3",
            "10.1.9.9",
            "8.8.8.8",
            "2001:db8::1",
            "::1",
        ],
        "10.1.2.3 10.1.2.0/24 lab\n10.1.9.9 10.1.0.0/16 core\n8.8.8.8 0.0.0.0/0 up\n2001:db8::1 2001:db8::/32 six\n::1 none\n",
    ),
    (&["lookup", "old"], ""),
    (&["list", "old"], OLD),
    (
        &["list", "old", "10.1.0.0/16"],
        "10.1.0.0/16 core\n10.1.2.0/24 lab\n",
    ),
    (&["list", "new", "2001:db8::/47"], "2001:db8:1::/48 lab\n"),
    (
        &["diff", "old", "new"],
        "- 10.1.0.0/16 core\n~ 10.1.2.0/24 lab -> office\n+ 10.64.0.0/10 vpn\n- 192.0.2.0/24 test\n+ 2001:db8:1::/48 lab\n",
    ),
    (&["diff", "new", "new"], ""),
    (
        &["minimise", "old"],
        "0.0.0.0/0 up\n10.0.0.0/8 core\n10.1.2.0/24 lab\n192.0.2.0/24 test\n2001:db8::/32 six\n",
    ),
    (&["minimise", "new"], NEW),
    (
        &["aggregate", "old"],
        "0.0.0.0/0 up\n10.0.0.0/8 core\n10.1.2.0/24 lab\n192.0.2.0/24 test\n2001:db8::/32 six\n",
    ),
    (
        &["lookup", "--json", "new", "10.64.0.1", "::1"],
        "{\"address\":\"10.64.0.1\",\"network\":\"10.64.0.0/10\",\"value\":\"vpn\"}\n{\"address\":\"::1\",\"network\":null,\"value\":null}\n",
    ),
    (
        &["diff", "--json", "old", "new"],
        "{\"change\":\"removed\",\"network\":\"10.1.0.0/16\",\"value\":\"core\"}\n{\"change\":\"changed\",\"network\":\"10.1.2.0/24\",\"old\":\"lab\",\"new\":\"office\"}\n{\"change\":\"added\",\"network\":\"10.64.0.0/10\",\"value\":\"vpn\"}\n{\"change\":\"removed\",\"network\":\"192.0.2.0/24\",\"value\":\"test\"}\n{\"change\":\"added\",\"network\":\"2001:db8:1::/48\",\"value\":\"lab\"}\n",
    ),
    (
        &["list", "--json", "old", "10.1.0.0/16"],
        "{\"network\":\"10.1.0.0/16\",\"value\":\"core\"}\n{\"network\":\"10.1.2.0/24\",\"value\":\"lab\"}\n",
    ),
    (
        &["lookup", "--all", "old", "10.1.2.3"],
        "10.1.2.3 0.0.0.0/0 up\n10.1.2.3 10.0.0.0/8 core\n10.1.2.3 10.1.0.0/16 core\n10.1.2.3 10.1.2.0/24 lab\n",
    ),
    (
        &["lookup", "--longer", "old", "10.1.0.0/16"],
        "10.1.0.0/16 10.1.0.0/16 core\n10.1.0.0/16 10.1.2.0/24 lab\n",
    ),
    (
        &["lookup", "--exact", "old", "10.1.0.0/16", "10.1.0.0/17"],
        "10.1.0.0/16 10.1.0.0/16 core\n10.1.0.0/17 none\n",
    ),
    (&["union", "access"], "10.0.0.0/8\n::/0\n"),
    (
        &["union", "--json", "access"],
        "{\"network\":\"10.0.0.0/8\"}\n{\"network\":\"::/0\"}\n",
    ),
    (
        &["intersect", "access", "new"],
        "10.0.0.0/8\n2001:db8::/32\n",
    ),
    (
        &["covered", "access", "new"],
        "10.0.0.0/8 allow\n10.1.0.0/16 deny\n10.1.2.0/24 allow\n",
    ),
    (
        &["count", "access"],
        "IPv4 16777216\nIPv6 340282366920938463463374607431768211456\n",
    ),
    (
        &["ranges", "access"],
        "10.0.0.0-10.255.255.255\n::-ffff:ffff:ffff:ffff:ffff:ffff:ffff:ffff\n",
    ),
];

/// Returns a text by its name.
fn text(name: &str) -> &'static str {
    match name {
        "old" => OLD,
        "new" => NEW,
        _ => ACCESS,
    }
}

/// Returns the table of a text by its name.
fn table(name: &str, alloc: Global) -> Result<Table, Fail> {
    let Loaded { table, warnings: _ } = load(text(name).as_bytes(), alloc)?;
    Ok(table)
}

/// Returns the addresses of a text by its name.
fn addresses(name: &str, alloc: Global) -> Result<JointAddressSet<Global>, Fail> {
    let mut list = AddressList::new(alloc)?;
    match list.add(text(name).as_bytes(), Reading::default(), alloc) {
        Ok(_) => Ok(list.finish()?),
        Err(_) => Err(Fail::new("a line is bad")),
    }
}

/// Prints what a command prints.
fn print_command(
    invocation: &Invocation<'_>,
    out: &mut Printer<Vec<u8>>,
    alloc: Global,
) -> Result<(), Fail> {
    let words = invocation.words.as_slice();
    match (invocation.task, invocation.tables.as_slice()) {
        (Task::Report(report), [name]) => print_report(
            &mut table(name, alloc)?,
            report,
            alloc,
            out,
        )?,
        (Task::Addresses(report), [name]) => {
            print_addresses(&addresses(name, alloc)?, report, alloc, out)?
        }
        (Task::Compare(comparison), [left, right]) => compare(comparison, left, right, out, alloc)?,
        (Task::List, [name]) => within(&table(name, alloc)?, words, out)?,
        (Task::Lookup(relation), [name]) => look_up(&table(name, alloc)?, relation, words, out)?,
        _ => {}
    }
    Ok(())
}

/// Compares two texts by their names.
fn compare(
    comparison: Comparison,
    left: &str,
    right: &str,
    out: &mut Printer<Vec<u8>>,
    alloc: Global,
) -> Result<(), Fail> {
    let networks = AddressReport::Networks;
    match comparison {
        Comparison::Diff => {
            let (left, right) = (table(left, alloc)?, table(right, alloc)?);
            print_diff(&left, &right, alloc, out, &mut true)?;
        }
        Comparison::Covered => {
            print_covered(&table(left, alloc)?, &addresses(right, alloc)?, alloc, out)?
        }
        Comparison::Intersect => {
            let set = addresses(left, alloc)?.intersection(&addresses(right, alloc)?, alloc)?;
            print_addresses(&set, networks, alloc, out)?;
        }
        Comparison::Subtract => {
            let set = addresses(left, alloc)?.difference(&addresses(right, alloc)?, alloc)?;
            print_addresses(&set, networks, alloc, out)?;
        }
    }
    Ok(())
}

/// Prints a table, or its parts in networks.
fn within(table: &Table, words: &[&str], out: &mut Printer<Vec<u8>>) -> Result<(), Fail> {
    if words.is_empty() {
        list(table, out)?;
    }
    for word in words {
        list_within(table, parse_network(word)?, out)?;
    }
    Ok(())
}

/// Looks up words.
fn look_up(
    table: &Table,
    relation: Relation,
    words: &[&str],
    out: &mut Printer<Vec<u8>>,
) -> Result<(), Fail> {
    let looking = Looking {
        relation,
        asking: Asking {
            asked: Asked::Networks(HostBits::Refused),
            mapped: Mapped::AsIpv4,
        },
        bad_questions: BadLines::Refused,
    };
    match look_up_words(table, words, looking, &mut Seen::new(), out) {
        Ok(()) => Ok(()),
        Err(_) => Err(Fail::new("a question is bad")),
    }
}

/// Returns what a command line prints.
fn printed(words: &[&str], alloc: Global) -> Result<Vec<u8>, Fail> {
    let Ok(invocation) = parse(words, alloc) else {
        return Err(Fail::new("bad usage"));
    };
    let mut out = Printer::new(invocation.options.format, alloc, Vec::new(alloc));
    print_command(&invocation, &mut out, alloc)?;
    Ok(out.into_inner())
}

#[test]
fn commands_print(rt: HostRuntime) -> Result<(), Fail> {
    for (words, expected) in PRINTINGS {
        let out = printed(words, rt.alloc())?;
        let text = str::from_utf8(out.as_slice())?;
        assert!(rt; text == *expected, "{text}");
    }
    Ok(())
}

/// Tests the lines of `stats` that do not depend on how a table is stored.
#[test]
fn stats_count(rt: HostRuntime) -> Result<(), Fail> {
    let out = printed(&["stats", "old"], rt.alloc())?;
    let text = str::from_utf8(out.as_slice())?;
    assert!(rt; text.starts_with("IPv4\n  entries    5\n"));
    assert!(rt; text.contains("\n  addresses  4294967296\n"));
    assert!(rt;
        text.contains(
            "\n  /0           1 #\n  /8           1 #\n  /16          1 #\n  /24          2 ##\nIPv6\n  entries    1\n"
        )
    );
    assert!(rt; text.contains("\n  addresses  79228162514264337593543950336\n"));
    Ok(())
}

/// Command lines that are refused.
const REFUSED: &[&[&str]] = &[
    &[],
    &["lookup"],
    &["lookup", "--", "::1"],
    &["diff", "old"],
    &["diff", "old", "new", "newer"],
    &["merge", "old", "new"],
    &["list", "--jsn", "old"],
    &["list", "-v", "old"],
    &["lookup", "--all", "--exact", "old"],
];

#[test]
fn bad_command_lines_are_refused(rt: HostRuntime) {
    for words in REFUSED {
        assert!(rt; parse(words, rt.alloc()).is_err());
    }
}

/// Command lines, and what they say: the task, the tables and the words.
type Line = (
    &'static [&'static str],
    Task,
    &'static [&'static str],
    &'static [&'static str],
);

const LINES: &[Line] = &[
    (&["list", "old"], Task::List, &["old"], &[]),
    (&["list", "old", "::/0"], Task::List, &["old"], &["::/0"]),
    (
        &["list", "old", "new", "--"],
        Task::List,
        &["old", "new"],
        &[],
    ),
    (
        &["union", "--", "old", "-"],
        Task::Addresses(AddressReport::Networks),
        &["old", "-"],
        &[],
    ),
    (
        &["diff", "old", "-"],
        Task::Compare(Comparison::Diff),
        &["old", "-"],
        &[],
    ),
    (
        &["check", "old", "--deny-first"],
        Task::Check(Precedence::DenyFirst),
        &["old"],
        &[],
    ),
    (
        &["lookup", "old", "new", "--", "::1"],
        Task::Lookup(Relation::Longest),
        &["old", "new"],
        &["::1"],
    ),
    (
        &["lookup", "--shorter", "old", "::1"],
        Task::Lookup(Relation::Covering),
        &["old"],
        &["::1"],
    ),
];

#[test]
fn command_lines_are_read(rt: HostRuntime) -> Result<(), Fail> {
    for (line, task, tables, words) in LINES {
        let Ok(read) = parse(line, rt.alloc()) else {
            return Err(Fail::new("bad usage"));
        };
        assert!(rt;
            read.task == *task
                && read.tables.as_slice() == *tables
                && read.words.as_slice() == *words
        );
    }
    Ok(())
}

#[test]
fn options_are_read(rt: HostRuntime) -> Result<(), Fail> {
    let words = [
        "-q",
        "match",
        "--skip-bad",
        "old",
        "--clear-host-bits",
        "-v",
        "--no-mapped",
        "--first",
        "--json",
    ];
    let Ok(read) = parse(&words, rt.alloc()) else {
        return Err(Fail::new("bad usage"));
    };
    let mapped = Mapped::Kept;
    let options = Options {
        reading: Reading {
            host_bits: HostBits::Cleared,
            bad_lines: BadLines::Skipped,
            kind: TableKind::AnyValues,
        },
        mapped,
        format: Format::Json,
        is_quiet: true,
    };
    let selection = Selection {
        selected: Selected::Others,
        which: Which::First,
        mapped,
    };
    assert!(rt; read.options == options && read.task == Task::Match(selection));
    Ok(())
}
