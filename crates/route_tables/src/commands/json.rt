//! What commands print as JSON: an object a line.

use crate::access::Decision;
use crate::announcements::Announcement;
use crate::commands::validations::StateCounts;
use crate::diff::Values;
use crate::lookup::Found;
use crate::stats::Counts;
use arrayvec::ArrayString;
use origin_validation::{Validity, Vrp};
use prefix_trie_joint::IpPrefix;
use prefix_trie_ops::map::Side;
use serde::{Described, Serialize, Serializer};
use std::alloc::Global;
use std::fmt::{Display, Write as _};
use std::io::{self, Error, ErrorKind, Write};
use std::net::IpAddr;

/// A value that is written as the text that it prints.
#[derive(Clone, Copy)]
pub struct Text<T: Display>(pub T);

impl<T: Display> Described for Text<T> {}

impl<T: Display> Serialize for Text<T> {
    fn serialize<S: Serializer>(&self, out: &mut S) -> Result<(), S::Error> {
        out.collect_str(&self.0)
    }
}

/// A network and its value.
#[derive(Drop, Serialize)]
pub struct Route<'a> {
    pub network: Text<IpPrefix>,
    pub value: &'a str,
}

/// A network.
#[derive(Drop, Serialize)]
pub struct Network {
    pub network: Text<IpPrefix>,
}

/// A network that is free, or `null`.
#[derive(Drop, Serialize)]
pub struct Free {
    network: Option<Text<IpPrefix>>,
}

impl Free {
    /// Returns what is written of a network that is free, or of none.
    pub fn new(network: Option<IpPrefix>) -> Free {
        Free {
            network: network.map(Text),
        }
    }
}

/// A question, and a network and its value that are found, or `null`.
#[derive(Drop, Serialize)]
pub struct Answer<'a> {
    address: &'a str,
    network: Option<Text<IpPrefix>>,
    value: Option<&'a str>,
}

impl<'a> Answer<'a> {
    /// Returns what is written of a question and what is found for it.
    pub fn new(address: &'a str, found: &Found<'a>) -> Answer<'a> {
        match *found {
            Some((network, value)) => Answer {
                address,
                network: Some(Text(network)),
                value: Some(value.as_str()),
            },
            None => Answer {
                address,
                network: None,
                value: None,
            },
        }
    }
}

/// An address, `allowed` or `denied`, and the network that decides, or `null`.
#[derive(Drop, Serialize)]
pub struct Decided<'a> {
    address: &'a str,
    decision: &'static str,
    network: Option<Text<IpPrefix>>,
}

impl<'a> Decided<'a> {
    /// Returns what is written of an address and what an access list says of it.
    pub fn new(address: &'a str, decision: Decision) -> Decided<'a> {
        let (decision, network) = match decision {
            Decision::Allowed(network) => ("allowed", Some(Text(network))),
            Decision::Denied(network) => ("denied", Some(Text(network))),
            Decision::Unlisted => ("denied", None),
        };
        Decided {
            address,
            decision,
            network,
        }
    }
}

/// A VRP.
#[derive(Drop, Serialize)]
struct Payload {
    prefix: Text<IpPrefix>,
    max_length: u8,
    origin: u32,
}

impl Payload {
    // Returns what is written of a VRP.
    fn new(vrp: Vrp) -> Payload {
        Payload {
            prefix: Text(vrp.prefix),
            max_length: vrp.max_len,
            origin: vrp.origin,
        }
    }
}

/// A route, its state, and the VRP that decides, or `null`.
#[derive(Drop, Serialize)]
pub struct Verdict {
    network: Text<IpPrefix>,
    origin: Option<u32>,
    state: &'static str,
    vrp: Option<Payload>,
}

impl Verdict {
    /// Returns what is written of a route and its state.
    pub fn new(route: &Announcement, validity: Validity) -> Verdict {
        let (state, vrp) = match validity {
            Validity::Valid(vrp) => ("valid", Some(Payload::new(vrp))),
            Validity::Invalid(vrp) => ("invalid", Some(Payload::new(vrp))),
            Validity::NotFound => ("not-found", None),
        };
        Verdict {
            network: Text(route.prefix),
            origin: route.origin,
            state,
            vrp,
        }
    }
}

/// How many routes have each state.
#[derive(Drop, Serialize)]
pub struct States {
    valid: u64,
    invalid: u64,
    not_found: u64,
}

impl States {
    /// Returns what is written of these counts.
    pub fn new(counts: &StateCounts) -> States {
        States {
            valid: counts.valid,
            invalid: counts.invalid,
            not_found: counts.not_found,
        }
    }
}

/// A network at which two tables differ, with the value that was added or removed, or with the old and the new one.
#[derive(Drop, Serialize)]
pub struct Change<'a> {
    change: &'static str,
    network: Text<IpPrefix>,
    #[serde(skip_serializing_if = "Option::is_none")]
    value: Option<&'a str>,
    #[serde(skip_serializing_if = "Option::is_none")]
    old: Option<&'a str>,
    #[serde(skip_serializing_if = "Option::is_none")]
    new: Option<&'a str>,
}

impl<'a> Change<'a> {
    /// Returns what is written of a network and what an old and a new table have there.
    pub fn new(network: &IpPrefix, values: &Values<'a>) -> Change<'a> {
        let network = Text(*network);
        let (change, value, old, new) = match *values {
            Side::Left(old) => ("removed", Some(old.as_str()), None, None),
            Side::Right(new) => ("added", Some(new.as_str()), None, None),
            Side::Both(old, new) => ("changed", None, Some(old.as_str()), Some(new.as_str())),
        };
        Change {
            change,
            network,
            value,
            old,
            new,
        }
    }
}

/// The first and the last address of a range.
#[derive(Drop, Serialize)]
pub struct Range {
    pub first: Text<IpAddr>,
    pub last: Text<IpAddr>,
}

/// The number of addresses of a family. It is a text, since it may exceed 64 bits.
#[derive(Drop, Serialize)]
pub struct Count<'a> {
    pub family: &'a str,
    pub addresses: &'a str,
}

/// The counts of a family.
#[derive(Drop, Serialize)]
pub struct Statistics<'a> {
    family: &'a str,
    entries: usize,
    nodes: usize,
    node_slots: usize,
    value_slots: usize,
    array_bytes: usize,
    value_bytes: usize,
    addresses: &'a str,
    lengths: Lengths<'a>,
}

impl<'a> Statistics<'a> {
    /// Returns what is written of the counts of a family.
    pub fn new(family: &'a str, counts: &'a Counts) -> Statistics<'a> {
        Statistics {
            family,
            entries: counts.entries,
            nodes: counts.nodes,
            node_slots: counts.node_slots,
            value_slots: counts.value_slots,
            array_bytes: counts.array_bytes,
            value_bytes: counts.listed.value_bytes,
            addresses: counts.addresses.as_str(),
            lengths: Lengths(counts.listed.by_length.as_slice()),
        }
    }
}

// An object with the number of networks for each length that has some.
#[derive(Clone, Copy)]
struct Lengths<'a>(&'a [usize]);

impl Described for Lengths<'_> {}

impl Serialize for Lengths<'_> {
    fn serialize<S: Serializer>(&self, out: &mut S) -> Result<(), S::Error> {
        out.begin_map(None)?;
        for (len, count) in self.0.iter().enumerate() {
            if *count > 0 {
                write_length(len, *count, out)?;
            }
        }
        out.end_map()
    }
}

// The capacity for the longest number.
const LONGEST: usize = 20;

// Writes a length and its number of networks.
fn write_length<S: Serializer>(len: usize, count: usize, out: &mut S) -> Result<(), S::Error> {
    let mut name: ArrayString<LONGEST> = ArrayString::new();
    // a number fits the capacity
    let _ = write!(name, "{len}");
    out.key(name.as_str())?;
    out.u64(count as u64)
}

// A line of a text, which has this number.
#[derive(Drop, Serialize)]
struct Line<'a> {
    line: usize,
    text: &'a str,
}

/// Prints a line of a text, which has this number. Bytes that are not UTF-8 become U+FFFD.
pub fn print_line<W: Write>(
    number: usize,
    line: &[u8],
    alloc: Global,
    out: &mut W,
) -> io::Result<()> {
    let text = String::from_utf8_lossy(alloc, line)?;
    let line = Line {
        line: number,
        text: text.as_str(),
    };
    print(&line, alloc, out)
}

/// Prints an object and ends its line.
///
/// # Errors
///
/// Returns the writer's error, or an error if an allocation fails.
pub fn print<T: Serialize, W: Write>(value: &T, alloc: Global, out: &mut W) -> io::Result<()> {
    match serde_json::to_vec(alloc, value) {
        Ok(mut line) => {
            line.push(b'\n')?;
            out.write_all(line.as_slice())
        }
        // these types are written unless an allocation fails
        Err(_) => Err(Error::from(ErrorKind::OutOfMemory)),
    }
}
