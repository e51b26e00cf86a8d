//! Lists of networks in the languages of firewalls and routers.
//!
//! A format has one list of IPv4 networks and one of IPv6 networks, in this order. Their names are a common name with
//! `_v4` or `_v6` after it. Both are printed, also if they are empty, so that rules can name them.

mod syntax;

use crate::formats::syntax::{Family, List, close, open, write_entry};
use arrayvec::ArrayString;
use prefix_trie_joint::IpPrefix;
use std::error::Error;
use std::fmt::{self, Display, Formatter, Write as _};
use std::io::{self, ErrorKind, Write};
use std::str::FromStr;

/// A program or system that reads lists of networks.
#[derive(Clone, Copy, Debug, PartialEq, Eq)]
pub enum ListFormat {
    /// nftables: sets of a table, for `nft -f`.
    Nft,
    /// The sets of the Linux kernel, for `ipset restore`.
    Ipset,
    /// BIRD: constants that are prefix sets.
    Bird,
    /// Junos: prefix lists, for `load set`.
    Junos,
    /// Cisco IOS: prefix lists.
    Ios,
}

/// The names of the formats.
pub const FORMAT_NAMES: &[&str] = &["nft", "ipset", "bird", "junos", "ios"];

/// Why a text is not the name of a format: there is no such format.
#[derive(Clone, Copy, Debug, PartialEq, Eq)]
pub struct UnknownFormat;

impl Display for UnknownFormat {
    fn fmt<W: fmt::Write>(&self, f: &mut Formatter<W>) -> fmt::Result {
        f.write_str("unknown format")
    }
}

impl Error for UnknownFormat {}

impl FromStr for ListFormat {
    type Err = UnknownFormat;

    fn from_str(name: &str) -> Result<ListFormat, UnknownFormat> {
        match name {
            "nft" => Ok(ListFormat::Nft),
            "ipset" => Ok(ListFormat::Ipset),
            "bird" => Ok(ListFormat::Bird),
            "junos" => Ok(ListFormat::Junos),
            "ios" => Ok(ListFormat::Ios),
            _ => Err(UnknownFormat),
        }
    }
}

// The number of bytes of the longest name. `ipset` reads 31, and three follow.
const LONGEST: usize = 28;

/// The name that the names of lists begin with.
///
/// It has a letter, and then letters, digits and `_`, 28 characters at most. Each program reads such a name.
#[derive(Clone, Copy)]
pub struct ListName {
    text: ArrayString<LONGEST>,
}

/// Why a text is not the name of lists.
#[derive(Clone, Copy, Debug, PartialEq, Eq)]
pub enum ListNameError {
    /// It does not begin with a letter, or has a character that is no letter, no digit and no `_`.
    Character,
    /// It is too long.
    Length,
}

impl ListNameError {
    /// Returns the reason in words.
    pub fn as_str(self) -> &'static str {
        match self {
            ListNameError::Character => {
                "the name of lists has letters, digits and _ alone, and begins with a letter"
            }
            ListNameError::Length => "the name of lists has more than 28 characters",
        }
    }
}

impl Display for ListNameError {
    fn fmt<W: fmt::Write>(&self, f: &mut Formatter<W>) -> fmt::Result {
        f.write_str(self.as_str())
    }
}

impl Error for ListNameError {}

impl FromStr for ListName {
    type Err = ListNameError;

    fn from_str(text: &str) -> Result<ListName, ListNameError> {
        let begins = text
            .bytes()
            .next()
            .is_some_and(|byte| byte.is_ascii_alphabetic());
        let goes_on = text
            .bytes()
            .all(|byte| byte.is_ascii_alphanumeric() || byte == b'_');
        if !begins || !goes_on {
            return Err(ListNameError::Character);
        }
        match ArrayString::from(text) {
            Ok(text) => Ok(ListName { text }),
            Err(_) => Err(ListNameError::Length),
        }
    }
}

/// Lists that are being printed.
///
/// # Examples
///
/// ```rust
/// let mut lists = Lists::new(ListFormat::Junos, "routes".parse()?);
/// let mut out = Vec::new(alloc);
/// lists.add(&"10.0.0.0/8".parse()?, "core", &mut out)?;
/// lists.finish(&mut out)?;
/// str::from_utf8(out.as_slice())?.lines().nth(1);     // Some("set policy-options prefix-list routes_v4 10.0.0.0/8")
/// ```
#[derive(Clone, Copy)]
pub struct Lists {
    format: ListFormat,
    name: ListName,
    // the family of the list that is open
    open: Option<Family>,
    // the number of networks in it
    count: u64,
}

impl Lists {
    /// Creates empty lists, of which nothing is printed yet.
    pub fn new(format: ListFormat, name: ListName) -> Lists {
        Lists {
            format,
            name,
            open: None,
            count: 0,
        }
    }

    /// Prints a network, with its value if the format has a place for it.
    ///
    /// # Errors
    ///
    /// Returns the writer's error. Returns an error of the kind `InvalidInput` for an IPv4 network after an IPv6 network.
    pub fn add<W: Write>(
        &mut self,
        network: &IpPrefix,
        value: &str,
        out: &mut W,
    ) -> io::Result<()> {
        let family = Family::of(network);
        self.reach(family, out)?;
        if self.open != Some(family) {
            return Err(io::Error::from(ErrorKind::InvalidInput));
        }
        write_entry(&self.list(family), self.count, network, value, out)?;
        self.count = self.count.saturating_add(1);
        Ok(())
    }

    /// Prints the ends of the lists, and the lists that have no network.
    ///
    /// # Errors
    ///
    /// Returns the writer's error.
    pub fn finish<W: Write>(&mut self, out: &mut W) -> io::Result<()> {
        self.reach(Family::Ipv6, out)?;
        close(&self.list(Family::Ipv6), self.count, out)
    }

    // Opens the list of a family, and the one before it, unless that was done.
    fn reach<W: Write>(&mut self, family: Family, out: &mut W) -> io::Result<()> {
        if self.open.is_none() {
            self.begin(Family::Ipv4, out)?;
        }
        if family == Family::Ipv6 && self.open == Some(Family::Ipv4) {
            close(&self.list(Family::Ipv4), self.count, out)?;
            self.begin(Family::Ipv6, out)?;
        }
        Ok(())
    }

    // Opens the list of a family.
    fn begin<W: Write>(&mut self, family: Family, out: &mut W) -> io::Result<()> {
        open(&self.list(family), out)?;
        self.open = Some(family);
        self.count = 0;
        Ok(())
    }

    // Returns what is said of the list of a family.
    fn list(&self, family: Family) -> List {
        List {
            format: self.format,
            family,
            name: self.name,
        }
    }
}

impl Display for ListName {
    fn fmt<W: fmt::Write>(&self, f: &mut Formatter<W>) -> fmt::Result {
        f.write_str(self.text.as_str())
    }
}
