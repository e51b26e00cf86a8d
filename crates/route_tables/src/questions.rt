//! Questions: addresses and networks that a table is asked about.
//!
//! A question is a line of a text or a word of the command line. An IPv6 address that is an IPv4 address (RFC 4291, 2.5.5.2),
//! such as `::ffff:10.1.2.3`, is read as that IPv4 address, since servers that speak both write it so.
ghost use Rattle.std.specs.Prelude.{◌≡◌, [], ◌∷◌, ℕ, List, MatchResult};
ghost use Rattle.prefix_trie_joint.specs.declared.prefix.IpPrefix.{IpPrefix};
ghost use Rattle.route_tables.specs.Lines.{fields};
ghost use Rattle.route_tables.specs.Networks.{IsNetworkText};
ghost use Rattle.route_tables.specs.Questions.{AreFieldsOfQuestion, IsAsked, IsQuestion, ReadsLine, as_ipv4, as_mapped};

use crate::lines::{has_bare_return, split_field};
use crate::network::{HostBits, NetworkError, parse_network_with};
use prefix_trie::{Ipv4Prefix, Ipv6Prefix, Prefix};
use prefix_trie_joint::IpPrefix;
use std::error::Error;
use std::fmt::{self, Display, Formatter, Write};
use std::net::IpAddr;
use std::str;

// How many IPv4 addresses there are.
const IPV4_ADDRESSES: u128 = 0x1_0000_0000;

/// An address or a network that a table is asked about.
#[derive(Clone, Copy, Debug, PartialEq, Eq)]
pub struct Question<'a> {
    /// The text that was read.
    pub text: &'a str,
    /// The network. That of an address has all its bits.
    pub network: IpPrefix,
}

/// What may be asked.
#[derive(Clone, Copy, Debug, PartialEq, Eq)]
pub enum Asked {
    /// Addresses.
    Addresses,
    /// Addresses and networks. It says what is done with those that have host bits.
    Networks(HostBits),
}

/// What is done with IPv6 networks of IPv4 addresses, those in `::ffff:0.0.0.0/96`.
#[derive(Clone, Copy, Debug, Default, PartialEq, Eq)]
pub enum Mapped {
    /// They are read as IPv4 networks.
    #[default]
    AsIpv4,
    /// They are kept.
    Kept,
}

/// Which texts are questions, and what they ask.
#[derive(Clone, Copy, Debug, PartialEq, Eq)]
pub struct Asking {
    /// What may be asked.
    pub asked: Asked,
    /// What is done with IPv6 networks of IPv4 addresses.
    pub mapped: Mapped,
}

/// Why a text is no question.
#[derive(Clone, Copy, Debug, PartialEq, Eq)]
pub enum QuestionError {
    /// A carriage return is not at the end of the line.
    BareReturn,
    /// The text is not UTF-8.
    NotUtf8,
    /// The text is not an address.
    Address,
    /// The text is neither a network nor an address.
    Network(NetworkError),
    /// The line has a second field.
    ExtraField,
    /// No AS follows the prefix of a route.
    NoOrigin,
    /// A field after the prefix of a route is neither an AS number nor a set of them.
    AsNumber,
}

impl Display for QuestionError {
    fn fmt<W: Write>(&self, f: &mut Formatter<W>) -> fmt::Result {
        f.write_str(match self {
            QuestionError::BareReturn => "carriage return without a line feed",
            QuestionError::NotUtf8 => "not UTF-8",
            QuestionError::Address => "not an address",
            QuestionError::Network(error) => return Display::fmt(error, f),
            QuestionError::ExtraField => "more than one field",
            QuestionError::NoOrigin => "no AS follows the prefix",
            QuestionError::AsNumber => "not an AS number",
        })
    }
}

impl Error for QuestionError {}

/// Reads the question of a line, or nothing if the line is blank or a comment.
///
/// # Errors
///
/// Returns why the line is neither.
///
/// # Examples
///
/// ```rust
/// let asking = Asking { asked: Asked::Addresses, mapped: Mapped::AsIpv4 };
/// read_question(b" 10.0.0.1 # why", asking).map(|found| found.map(|question| question.text));     // Ok(Some("10.0.0.1"))
/// read_question(b"# a comment", asking).map(|found| found.is_none());                             // Ok(true)
/// read_question(b"10.0.0.1 10.0.0.2", asking).err();                                              // Some(ExtraField)
/// ```
pub fn read_question(line: &[u8], asking: Asking) -> Result<Option<Question<'_>>, QuestionError>
    ensures { ReadsLine asking line.now result }
{
    if has_bare_return(line) {
        return Err(QuestionError::BareReturn);
    }
    let Some((field, rest)) = split_field(line) else {
        return Ok(None);
    };
    match read_only(field, rest, asking) {
        Ok(question) => Ok(Some(question)),
        Err(error) => Err(error),
    }
}

// Reads the first field of a line, which no other follows.
fn read_only<'a>(
    field: &'a [u8],
    rest: &[u8],
    asking: Asking,
) -> Result<Question<'a>, QuestionError>
    ensures { MatchResult result
        (λ question. AreFieldsOfQuestion asking (field.now ∷ fields rest.now)
        question.text.now question.network)
        (λ _. (text : List ℕ) (network : IpPrefix)
        → ¬ (AreFieldsOfQuestion asking (field.now ∷ fields rest.now) text network)) }
{
    match split_field(rest) {
        None => read_field(field, asking),
        Some(_) => Err(QuestionError::ExtraField),
    }
}

// Reads the only field of a line.
fn read_field(field: &[u8], asking: Asking) -> Result<Question<'_>, QuestionError>
    ensures { MatchResult result
        (λ question. AreFieldsOfQuestion asking (field.now ∷ []) question.text.now question.network)
        (λ _. (text : List ℕ) (network : IpPrefix)
        → ¬ (AreFieldsOfQuestion asking (field.now ∷ []) text network)) }
{
    match str::from_utf8(field) {
        Ok(text) => parse_question(text, asking),
        Err(_) => Err(QuestionError::NotUtf8),
    }
}

/// Reads a word as a question.
///
/// # Errors
///
/// Returns why the word is none: `Address` if only addresses may be asked, otherwise `Network`.
///
/// # Examples
///
/// ```rust
/// let asking = Asking { asked: Asked::Addresses, mapped: Mapped::AsIpv4 };
/// parse_question("::ffff:10.1.2.3", asking).map(|question| question.network);     // Ok(V4(10.1.2.3/32))
/// parse_question("10.0.0.0/8", asking).err();                                     // Some(Address)
/// let asking = Asking { asked: Asked::Networks(HostBits::Refused), mapped: Mapped::Kept };
/// parse_question("10.0.0.0/8", asking).map(|question| question.network);          // Ok(V4(10.0.0.0/8))
/// ```
pub fn parse_question(text: &str, asking: Asking) -> Result<Question<'_>, QuestionError>
    ensures { MatchResult result
        (λ question. (question.text.now ≡ text.now) × IsQuestion asking text.now question.network)
        (λ _. (network : IpPrefix) → ¬ (IsQuestion asking text.now network)) }
{
    let written = parse_asked(text, asking.asked)?;
    let network = read_mapped(written, asking.mapped);
    Ok(Question { text, network })
}

// Reads what may be asked.
fn parse_asked(text: &str, asked: Asked) -> Result<IpPrefix, QuestionError>
    ensures { MatchResult result (IsAsked asked text.now)
        (λ _. (network : IpPrefix) → ¬ (IsAsked asked text.now network)) }
{
    match asked {
        Asked::Addresses => parse_host(text),
        Asked::Networks(host_bits) => parse_named(text, host_bits),
    }
}

// Reads an address.
fn parse_host(text: &str) -> Result<IpPrefix, QuestionError>
    ensures { MatchResult result (IsAsked Asked.Addresses text.now)
        (λ _. (network : IpPrefix) → ¬ (IsAsked Asked.Addresses text.now network)) }
{
    match text.parse::<IpAddr>() {
        Ok(address) => Ok(IpPrefix::host(address)),
        Err(_) => Err(QuestionError::Address),
    }
}

// Reads a network or an address.
fn parse_named(text: &str, host_bits: HostBits) -> Result<IpPrefix, QuestionError>
    ensures { MatchResult result (IsNetworkText host_bits text.now)
        (λ _. (network : IpPrefix) → ¬ (IsNetworkText host_bits text.now network)) }
{
    match parse_network_with(text, host_bits) {
        Ok(network) => Ok(network),
        Err(error) => Err(QuestionError::Network(error)),
    }
}

// Returns the IPv4 network of an IPv6 network of IPv4 addresses, and any other network as it is, unless they are kept.
fn read_mapped(network: IpPrefix, mapped: Mapped) -> IpPrefix
    ensures { result ≡ as_mapped mapped network }
{
    match mapped {
        Mapped::AsIpv4 => as_ipv4(network),
        Mapped::Kept => network,
    }
}

// Returns the IPv4 network of an IPv6 network of IPv4 addresses, and any other network as it is.
fn as_ipv4(network: IpPrefix) -> IpPrefix
    ensures { result ≡ as_ipv4 network }
{
    match network {
        IpPrefix::V4(_) => network,
        IpPrefix::V6(network) => ipv4_of(network),
    }
}

// Returns the IPv4 network of an IPv6 network of IPv4 addresses, and any other IPv6 network as it is.
fn ipv4_of(network: Ipv6Prefix) -> IpPrefix
    ensures { result ≡ as_ipv4 (IpPrefix.V6 network) }
{
    if network.prefix_len() < 96 || network.addr() / IPV4_ADDRESSES != 0xffff {
        return IpPrefix::V6(network);
    }
    let bits = (network.addr() % IPV4_ADDRESSES) as u32;
    match Ipv4Prefix::new(bits, network.prefix_len() - 96) {
        Some(ipv4) => IpPrefix::V4(ipv4),
        None => IpPrefix::V6(network),
    }
}
