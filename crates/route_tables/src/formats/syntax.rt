//! What each format writes for a list: where it begins, for each network, and where it ends.
//!
//! The syntax is that of nft(8), of ipset(8), of the user's guide of BIRD 2, and of the references of Junos and of IOS.

use crate::formats::{ListFormat, ListName};
use prefix_trie_joint::IpPrefix;
use std::fmt::{self, Display, Formatter, Write as _};
use std::io::{self, Write};

/// A family of addresses.
#[derive(Clone, Copy, Debug, PartialEq, Eq)]
pub enum Family {
    /// IPv4.
    Ipv4,
    /// IPv6.
    Ipv6,
}

impl Family {
    /// Returns the family of a network.
    pub fn of(network: &IpPrefix) -> Family {
        if network.is_ipv4() {
            Family::Ipv4
        } else {
            Family::Ipv6
        }
    }

    // Returns one of two texts.
    fn pick(self, ipv4: &'static str, ipv6: &'static str) -> &'static str {
        match self {
            Family::Ipv4 => ipv4,
            Family::Ipv6 => ipv6,
        }
    }
}

/// The list of a family. It prints as its name.
#[derive(Clone, Copy)]
pub struct List {
    /// What reads it.
    pub format: ListFormat,
    /// The family of its networks.
    pub family: Family,
    /// The name of the lists of both families.
    pub name: ListName,
}

impl Display for List {
    fn fmt<W: fmt::Write>(&self, f: &mut Formatter<W>) -> fmt::Result {
        let (name, family) = (self.name, self.family.pick("_v4", "_v6"));
        write!(f, "{name}{family}")
    }
}

/// Prints the beginning of a list.
///
/// # Errors
///
/// Returns the writer's error.
pub fn open<W: Write>(list: &List, out: &mut W) -> io::Result<()> {
    match list.format {
        ListFormat::Nft => {
            let address = list.family.pick("ipv4_addr", "ipv6_addr");
            // networks of a table may contain each other, and a set of intervals has to merge these
            write!(
                out,
                "table inet routes {{\n\tset {list} {{\n\t\ttype {address}\n\t\tflags interval\n\t\tauto-merge\n"
            )
        }
        ListFormat::Ipset => {
            let family = list.family.pick("inet", "inet6");
            writeln!(
                out,
                "create {list} hash:net family {family} maxelem 4294967295 comment"
            )
        }
        ListFormat::Bird => writeln!(out, "define {list} = ["),
        ListFormat::Junos => writeln!(out, "set policy-options prefix-list {list}"),
        ListFormat::Ios => Ok(()),
    }
}

/// Prints a network and its value, after so many networks of the same list.
///
/// # Errors
///
/// Returns the writer's error.
pub fn write_entry<W: Write>(
    list: &List,
    before: u64,
    network: &IpPrefix,
    value: &str,
    out: &mut W,
) -> io::Result<()> {
    match list.format {
        ListFormat::Nft => {
            if before == 0 {
                out.write_all(b"\t\telements = {\n")?;
            }
            write!(out, "\t\t\t{network}")?;
            write_comment(value, NFT_COMMENT, out)?;
            out.write_all(b",\n")
        }
        ListFormat::Ipset => write_members(list, network, value, out),
        ListFormat::Bird => {
            if before > 0 {
                out.write_all(b",\n")?;
            }
            write!(out, "    {network}")
        }
        ListFormat::Junos => writeln!(out, "set policy-options prefix-list {list} {network}"),
        ListFormat::Ios => {
            let number = before.saturating_add(1).saturating_mul(IOS_STEP);
            let family = list.family.pick("ip", "ipv6");
            writeln!(
                out,
                "{family} prefix-list {list} seq {number} permit {network}"
            )
        }
    }
}

/// Prints the end of a list of so many networks.
///
/// # Errors
///
/// Returns the writer's error.
pub fn close<W: Write>(list: &List, count: u64, out: &mut W) -> io::Result<()> {
    match list.format {
        ListFormat::Nft if count == 0 => out.write_all(b"\t}\n}\n"),
        ListFormat::Nft => out.write_all(b"\t\t}\n\t}\n}\n"),
        ListFormat::Bird if count == 0 => out.write_all(b"];\n"),
        ListFormat::Bird => out.write_all(b"\n];\n"),
        // IOS takes a list that does not exist for one that permits everything
        ListFormat::Ios if count == 0 => {
            let family = list.family.pick("ip", "ipv6");
            let all = list.family.pick("0.0.0.0/0 le 32", "::/0 le 128");
            writeln!(out, "{family} prefix-list {list} seq {IOS_STEP} deny {all}")
        }
        ListFormat::Ipset | ListFormat::Junos | ListFormat::Ios => Ok(()),
    }
}

// The difference of the numbers of two lines that follow each other, which IOS uses itself.
const IOS_STEP: u64 = 5;

// The number of bytes of the longest comment.
const NFT_COMMENT: usize = 128;

const IPSET_COMMENT: usize = 255;

// Prints a network as members of an `ipset`. It has no network of length 0, so two halves stand for that.
fn write_members<W: Write>(
    list: &List,
    network: &IpPrefix,
    value: &str,
    out: &mut W,
) -> io::Result<()> {
    if network.prefix_len() > 0 {
        return write_member(list, network, value, out);
    }
    let (low, high) = (
        list.family.pick("0.0.0.0/1", "::/1"),
        list.family.pick("128.0.0.0/1", "8000::/1"),
    );
    write_member(list, &low, value, out)?;
    write_member(list, &high, value, out)
}

// Prints a member of an `ipset`.
fn write_member<T: Display, W: Write>(
    list: &List,
    member: &T,
    value: &str,
    out: &mut W,
) -> io::Result<()> {
    write!(out, "add {list} {member}")?;
    write_comment(value, IPSET_COMMENT, out)?;
    out.write_all(b"\n")
}

// Prints a value as a comment, unless it is empty, longer than a comment may be, or has a quotation mark: neither `nft`
// nor `ipset` reads one in a comment.
fn write_comment<W: Write>(value: &str, longest: usize, out: &mut W) -> io::Result<()> {
    if value.is_empty() || value.len() > longest || value.contains('"') {
        return Ok(());
    }
    write!(out, " comment \"{value}\"")
}
