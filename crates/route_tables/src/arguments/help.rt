//! What the program prints about itself.

use crate::access::Precedence;
use crate::arguments::{AddressReport, Comparison, Report, Task};
use crate::commands::validations::Verdicts;
use crate::lookup::Relation;
use crate::matching::{Selected, Selection, Which};
use crate::questions::Mapped;

/// The version of the program.
pub const VERSION: &str = "0.3.0";

/// What the program is for.
pub const ABOUT: &str = "Looks up, compares and reduces tables and lists of IP networks";

/// What all commands have in common.
pub const DETAILS: &str = "\
TABLE, OLD, NEW, LEFT and RIGHT are files, or `-` for standard input. Each line has a network, an
address or a range, and a value or none: `10.0.0.0/8 core`, `2001:db8::1`,
`10.0.0.0-10.0.1.255 lab`. A value is any text without white space and control characters. A word
that begins with `#` begins a comment. If two lines have one network, the later line wins.
Several TABLE are read as one. `lookup`, `list`, `check`, `match` and `validate` take several if
`--` comes after them: `routes lookup a.txt b.txt -- 10.0.0.1`.

`lookup`, `list`, `diff`, `minimise`, `check` and `stats` work by network, the others by address.

Exit status: 0, or 1 if `check` does not allow an address or skips one, `diff` finds a change,
`free` finds no network, `match` prints no line or `validate` finds an invalid route, or 2 after an
error. If nobody reads the output any more, the status says what was found so far.";

// The lines with any address of a table.
const ANY_ADDRESS: Selection = Selection {
    selected: Selected::Matching,
    which: Which::Any,
    mapped: Mapped::AsIpv4,
};

/// A command, and what help shows of it.
#[derive(Clone, Copy, Debug)]
pub struct Topic {
    /// The name of the command.
    pub name: &'static str,
    /// What it does if it has no options.
    pub task: Task,
    /// What it does, in a line.
    pub about: &'static str,
    /// What it does, in more words, with examples.
    pub details: &'static str,
}

/// The commands, in the order in which help lists them.
pub const COMMANDS: &[Topic] = &[
    Topic {
        name: "lookup",
        task: Task::Lookup(Relation::Longest),
        about: "Print each address with its longest network and the value",
        details: "\
A question is an address or a network. Each line has the question, the longest network that
contains it, and the value, or `none`. Without a QUESTION, questions come from standard input, one
a line, and each is answered when it is read. `--all`, `--exact` and `--longer` print a line for
each network that they find.

Examples:
  routes lookup routes.txt 10.1.2.3 2001:db8::1
  routes lookup --all routes.txt 10.1.2.3
  cut -d' ' -f1 access.log | routes lookup --skip-bad --json routes.txt",
    },
    Topic {
        name: "list",
        task: Task::List,
        about: "Print the table, or what a network contains, in order",
        details: "\
A network comes before those that it contains. With `--format`, the networks are two lists for a
firewall or a router, NAME_v4 and NAME_v6. A value is the comment of its network if the format has
such a comment, and is left out otherwise.

Examples:
  routes list routes.txt
  routes list --json routes.txt 10.1.0.0/16
  routes list --format nft --name office offices.txt | nft -f -",
    },
    Topic {
        name: "diff",
        task: Task::Compare(Comparison::Diff),
        about: "Print what was added (+), removed (-) and changed (~)",
        details: "\
It compares networks, not addresses; for addresses, see `routes help subtract`. The exit status is
1 if there is a difference. In a line such as `~ 10.0.0.0/8 core -> edge`, a value that is missing
leaves nothing.

Examples:
  routes diff yesterday.txt today.txt
  routes list router.txt | routes diff planned.txt -",
    },
    Topic {
        name: "minimise",
        task: Task::Report(Report::Minimise),
        about: "Print the table without routes that a wider one makes redundant",
        details: "\
It removes each route whose next wider route has the same value. Each address keeps its value, and
no route is added or changed, so the rest can be read beside the table line by line. For the
fewest networks, see `routes help aggregate`.

Examples:
  routes minimise routes.txt
  routes minimise routes.txt | routes diff routes.txt -",
    },
    Topic {
        name: "check",
        task: Task::Check(Precedence::Longest),
        about: "Print whether an access list allows each address",
        details: "\
Each network of the table has the value `allow` or `deny`. The longest network that contains an
address decides, and an address that no network contains is denied. With `--deny-first`, any
network with `deny` that contains the address denies it. Each line has the address, the decision
and the network that decides.

A bad line of the table is always an error, also with `--skip-bad`, which skips addresses alone.
The exit status is 1 if an address is not allowed or is skipped. Rules that can never decide are
warned of. Without an ADDRESS, addresses come from standard input, one a line.

Examples:
  routes check access.txt 10.1.2.3
  routes check access.txt </dev/null
  cut -d' ' -f1 access.log | routes check --skip-bad access.txt",
    },
    Topic {
        name: "stats",
        task: Task::Report(Report::Stats),
        about: "Print counts, memory and lengths of networks",
        details: "\
For both families, it prints the number of networks, the memory that they take, the number of
addresses in them, and how many networks have each length.

Examples:
  routes stats routes.txt
  routes minimise routes.txt | routes stats --json -",
    },
    Topic {
        name: "aggregate",
        task: Task::Report(Report::Aggregate),
        about: "Print the fewest networks with the same value for each address",
        details: "\
Each address has the value of its longest network, or none if it has none. Networks with the same
value are merged, so some may be new. What a network of the table had as its longest network can
change: only addresses keep their values. For networks without values, it prints the smallest
list.

Examples:
  routes aggregate routes.txt
  routes aggregate routes.txt | routes stats -",
    },
    Topic {
        name: "union",
        task: Task::Addresses(AddressReport::Networks),
        about: "Print the fewest networks with the addresses of all tables",
        details: "\
Values are ignored.

Examples:
  routes union offices.txt vpn.txt
  routes union --clear-host-bits --skip-bad addresses.txt",
    },
    Topic {
        name: "intersect",
        task: Task::Compare(Comparison::Intersect),
        about: "Print the fewest networks with the addresses of both tables",
        details: "\
Values are ignored.

Examples:
  routes intersect allowed.txt offices.txt
  echo 10.0.0.0/8 | routes intersect - announced.txt",
    },
    Topic {
        name: "subtract",
        task: Task::Compare(Comparison::Subtract),
        about: "Print the fewest networks with the addresses of LEFT not in RIGHT",
        details: "\
Networks of LEFT are split where RIGHT has only a part of them. Values are dropped. To compare
networks instead of addresses, see `routes help diff`.

Examples:
  routes subtract allowed.txt reserved.txt
  echo 10.0.1.0/24 | routes subtract network.txt -",
    },
    Topic {
        name: "covered",
        task: Task::Compare(Comparison::Covered),
        about: "Print the networks of LEFT that RIGHT covers with one or more",
        details: "\
It prints the networks of LEFT, with their values, all of whose addresses are in RIGHT. One network
of RIGHT may contain such a network, or several together.

Examples:
  routes covered customers.txt announced.txt
  routes covered rules.txt reserved.txt",
    },
    Topic {
        name: "ranges",
        task: Task::Addresses(AddressReport::Ranges),
        about: "Print the ranges of addresses, as FIRST-LAST",
        details: "\
Ranges are in order, and no two of them touch. Values are ignored.

Examples:
  routes ranges routes.txt
  routes ranges a.txt b.txt | routes aggregate -",
    },
    Topic {
        name: "count",
        task: Task::Addresses(AddressReport::Count),
        about: "Print the number of addresses of each family",
        details: "\
An address in several networks counts once.

Examples:
  routes count routes.txt
  routes subtract all.txt used.txt | routes count -",
    },
    Topic {
        name: "free",
        task: Task::Free(0),
        about: "Print the first network of a length that the table leaves free",
        details: "\
The network has LENGTH and shares no address with a network of the table. It lies within WITHIN,
or within 0.0.0.0/0, or within ::/0 if LENGTH is above 32. It prints `none`, with exit status 1,
if there is no such network.

Examples:
  routes free plan.txt 24 10.0.0.0/8
  routes free plan.txt 64 2001:db8::/32",
    },
    Topic {
        name: "match",
        task: Task::Match(ANY_ADDRESS),
        about: "Print the lines that have an address of the table",
        details: "\
It looks at each address of a line, as `grepcidr` does, and prints the line if the table contains
one of them. With `-v` it prints the other lines, also those without an address. Lines come from
the files, or from standard input, and each is printed when it is read. The exit status is 1 if no
line is printed.

Examples:
  routes match blocked.txt access.log
  tail -f access.log | routes match -v offices.txt",
    },
    Topic {
        name: "validate",
        task: Task::Validate(Verdicts::Each),
        about: "Print whether an AS may announce each route, by RFC 6811",
        details: "\
TABLE is a file of VRPs, as relying parties write it: a line has an AS number, a prefix and a maximum
length, with commas between them. Each line of ROUTES, or of standard input, has a prefix and an AS
number, or a path whose last AS is the origin. A path that ends in a set, as `{64500,64501}`, has no
origin.

A route is `not-found` if no VRP's prefix contains it, `valid` if such a VRP has its origin and a
maximum length that is not below the route's, and `invalid` otherwise. Each line has the prefix,
the origin, the state and a VRP that decides: one that allows the route, or the longest that
contains it. AS 0 allows none. The exit status is 1 if a route is invalid.

Examples:
  routes validate vrps.csv routes.txt
  echo 10.1.0.0/16 AS64500 | routes validate vrps.csv
  routes validate --count vrps.csv routes.txt",
    },
];
