//! Reading VRPs from the CSV text that relying parties write.
//!
//! The first three fields of a line are an AS number, with or without `AS`, a prefix and a maximum length. Later fields, such as
//! the trust anchor, are not read. A field may have double quotes around it. Blank lines and headers are skipped: a header is a
//! line whose first field is `ASN`.
ghost use Rattle.std.specs.Prelude.{◌≡◌, ◌≤◌, ◌⊎◌, ◌↔◌, [], ◌∷◌, ◌++◌, ℕ, IfOk, IsTrue, List, MatchOption, MatchResult, OnOk, codes};
ghost use Rattle.std.specs.List.{after_first, before_first, position_or_len};
ghost use Rattle.std.specs.Str.{IsUtf8};
ghost use Rattle.origin_validation.specs.declared.vrp.Vrp.{Vrp};
ghost use Rattle.prefix_trie_joint.specs.Networks.{ip_width};
ghost use Rattle.route_tables.specs.AsNumbers.{IsAsNumber};
ghost use Rattle.route_tables.specs.Lines.{table_lines, words};
ghost use Rattle.route_tables.specs.Networks.{IsNetworkText};
ghost use Rattle.route_tables.specs.VrpLines.{AddsVrpLine, AreFieldsOfVrp, HasAsNumber, HaveVrps, IsFieldsError, IsMaxLength, IsPrefixError, ReadsVrp, field_text, first_field, is_comma, second_field, third_field, unquoted, vrp_of};

use crate::as_numbers::{parse_as_number, parse_digits};
use crate::lines::{has_bare_return, skip_mark, split_line, split_word};
use crate::messages::VrpMessage;
use crate::messages::excerpt::ByteExcerpt;
use crate::network::{HostBits, NetworkError, parse_network_with};
use memchr::memchr;
use origin_validation::Vrp;
use prefix_trie_joint::IpPrefix;
use prefix_trie_joint::laws::ip_text_laws;
use std::alloc::{AllocError, Global};
use std::error::Error;
use std::fmt::{self, Display, Formatter, Write};
use std::str;

/// Why a line has no VRP.
#[derive(Clone, Copy, Debug, PartialEq, Eq)]
pub enum VrpError {
    /// A carriage return is not at the end of the line.
    BareReturn,
    /// The first field is not an AS number.
    AsNumber,
    /// The second field is not UTF-8.
    NotUtf8,
    /// The second field is not a network.
    Network(NetworkError),
    /// The third field is not a number from the network's length to the width of its address.
    MaxLength,
}

impl Display for VrpError {
    fn fmt<W: Write>(&self, f: &mut Formatter<W>) -> fmt::Result {
        f.write_str(match self {
            VrpError::BareReturn => "carriage return without a line feed",
            VrpError::AsNumber => "the first field is not an AS number",
            VrpError::NotUtf8 => "not UTF-8",
            VrpError::Network(error) => return Display::fmt(error, f),
            VrpError::MaxLength => {
                "the maximum length is not a number from the prefix's length to the address's width"
            }
        })
    }
}

impl Error for VrpError {}

/// A line without a VRP.
#[derive(Clone, Copy, Debug, PartialEq, Eq)]
pub struct BadVrp<'a> {
    /// The number of the line, from 1 on.
    pub number: usize,
    /// The bytes of the line.
    pub text: &'a [u8],
    /// Why it has no VRP.
    pub error: VrpError,
}

impl Display for BadVrp<'_> {
    fn fmt<W: Write>(&self, f: &mut Formatter<W>) -> fmt::Result {
        let (number, text) = (self.number, ByteExcerpt(self.text.trim_ascii()));
        let message = VrpMessage {
            line: self.text,
            error: self.error,
        };
        write!(f, "line {number}: {message}: \"{text}\"")
    }
}

/// Appends the VRPs of a text, in order, and returns the lines without one that are neither blank nor a header, in order.
///
/// # Errors
///
/// Returns the allocator's error if an allocation fails. The VRPs of some lines may be appended then.
///
/// # Examples
///
/// ```rust
/// let mut vrps = Vec::new(alloc);
/// let text = b"ASN,IP Prefix,Max Length,Trust Anchor\nAS64500,10.0.0.0/8,16,ripe\nAS64500,10.0.0.0/8,7,ripe\n";
/// let bad = add_vrps(&mut vrps, text, HostBits::Refused, alloc)?;
/// bad.iter().map(|line| (line.number, line.error));                              // [(3, MaxLength)]
/// vrps.iter().map(|vrp| (vrp.prefix, vrp.max_len, vrp.origin));                  // [(V4(10.0.0.0/8), 16, 64500)]
/// ```
pub fn add_vrps<'a>(
    vrps: &mut Vec<Vrp>,
    text: &'a [u8],
    host_bits: HostBits,
    alloc: Global,
) -> Result<Vec<BadVrp<'a>>, AllocError>
    ensures { IfOk result (λ bad. (added : List Vrp)
        × HaveVrps host_bits 0 (table_lines text.now) added bad.items
        × (vrps.new.items ≡ vrps.old.items ++ added)) }
{
    let mut bad = Vec::new(alloc);
    let mut number = 0;
    let mut rest = skip_mark(text);
    while !rest.is_empty() {
        let (line, later) = split_line(rest);
        number += 1;
        rest = later;
        add_line(vrps, line, number, host_bits, &mut bad)?;
    }
    Ok(bad)
}

// Appends the VRP of the line with this number, or lists it if it is bad.
fn add_line<'a>(
    vrps: &mut Vec<Vrp>,
    line: &'a [u8],
    number: usize,
    host_bits: HostBits,
    bad: &mut Vec<BadVrp<'a>>,
) -> Result<(), AllocError>
    ensures { OnOk result (AddsVrpLine host_bits number line.now vrps.old.items vrps.new.items
        bad.old.items bad.new.items) }
{
    match read_vrp(line, host_bits) {
        Ok(None) => Ok(()),
        Ok(Some(vrp)) => add_vrp(vrps, vrp.prefix, vrp.max_len, vrp.origin),
        Err(error) => {
            let text = line;
            list_bad(
                bad,
                BadVrp {
                    number,
                    text,
                    error,
                },
            )
        }
    }
}

// Appends a VRP.
fn add_vrp(
    vrps: &mut Vec<Vrp>,
    prefix: IpPrefix,
    max_len: u8,
    origin: u32,
) -> Result<(), AllocError>
    ensures { OnOk result (vrps.new.items ≡ vrps.old.items
        ++ vrp_of prefix max_len origin ∷ []) }
{
    vrps.push(Vrp {
        prefix,
        max_len,
        origin,
    })?;
    Ok(())
}

// Appends a bad line.
fn list_bad<'a>(bad: &mut Vec<BadVrp<'a>>, line: BadVrp<'a>) -> Result<(), AllocError>
    ensures { OnOk result (bad.new.items ≡ bad.old.items ++ line.entry ∷ []) }
{
    bad.push(line)?;
    Ok(())
}

/// Reads the VRP of a line, or nothing if the line is blank or a header.
///
/// # Errors
///
/// Returns why the line has no VRP: the reason of the first field that is wrong.
///
/// # Examples
///
/// ```rust
/// read_vrp(b"64500,10.0.0.0/8,16", HostBits::Refused);           // Ok(Some(Vrp { prefix: V4(10.0.0.0/8), max_len: 16, origin: 64500 }))
/// read_vrp(b"ASN,IP Prefix,Max Length", HostBits::Refused);      // Ok(None)
/// read_vrp(b"AS64500,10.0.0.0/8,7,ripe", HostBits::Refused);     // Err(MaxLength)
/// read_vrp(b"AS64500,10.0.0.0/8", HostBits::Refused);            // Err(MaxLength)
/// ```
pub fn read_vrp(line: &[u8], host_bits: HostBits) -> Result<Option<Vrp>, VrpError>
    ensures { ReadsVrp host_bits line.now result }
{
    if has_bare_return(line) {
        return Err(VrpError::BareReturn);
    }
    if is_blank_or_header(line) {
        return Ok(None);
    }
    match read_fields(
        first_field(line),
        second_field(line),
        third_field(line),
        host_bits,
    ) {
        Ok(vrp) => Ok(Some(vrp)),
        Err(error) => Err(error),
    }
}

// Returns whether a line is blank or a header.
fn is_blank_or_header(line: &[u8]) -> bool
    ensures { IsTrue result
        ↔ ((words line.now ≡ []) ⊎ (first_field line.now ≡ codes "ASN")) }
{
    match split_word(line) {
        None => true,
        Some(_) => is_header(line),
    }
}

// Returns whether the first field of a line is that of a header.
fn is_header(line: &[u8]) -> bool
    ensures { IsTrue result ↔ (first_field line.now ≡ codes "ASN") }
{
    first_field(line) == b"ASN".as_slice()
}

// Returns the text of the first field of a line.
fn first_field(line: &[u8]) -> &[u8]
    ensures { result.now ≡ first_field line.now }
{
    let (first, _) = split_comma(line);
    field_text(first)
}

/// Returns the text of the second field of a line.
pub(crate) fn second_field(line: &[u8]) -> &[u8]
    ensures { result.now ≡ second_field line.now }
{
    let (_, rest) = split_comma(line);
    first_field(rest)
}

// Returns the text of the third field of a line.
fn third_field(line: &[u8]) -> &[u8]
    ensures { result.now ≡ third_field line.now }
{
    let (_, rest) = split_comma(line);
    second_field(rest)
}

// Splits a line into its first field and what follows the comma that ends it, or nothing if no comma does.
fn split_comma(line: &[u8]) -> (&[u8], &[u8])
    ensures first { result.0.now ≡ before_first is_comma line.now }
    ensures later { result.1.now ≡ after_first is_comma line.now }
{
    let end = field_len(line);
    if end < line.len() {
        (&line[..end], &line[end + 1..])
    } else {
        (line, &[])
    }
}

// Returns the number of bytes before the first comma, or of all bytes.
#[tactic(auto, using(crate::proofs::FirstBytes::first_or_length))]
fn field_len(line: &[u8]) -> usize
    ensures { result ≡ position_or_len is_comma line.now }
{
    memchr(b',', line).unwrap_or(line.len())
}

// Returns the text of a field: its only word, without the double quotes around it.
fn field_text(field: &[u8]) -> &[u8]
    ensures { result.now ≡ field_text field.now }
{
    let Some((word, rest)) = split_word(field) else {
        return &[];
    };
    match split_word(rest) {
        None => unquoted(word),
        Some(_) => &[],
    }
}

// Returns a word without the double quotes around it.
fn unquoted(word: &[u8]) -> &[u8]
    ensures { result.now ≡ unquoted word.now }
{
    if word.len() >= 2 && word[0] == b'"' && word[word.len() - 1] == b'"' {
        &word[1..word.len() - 1]
    } else {
        word
    }
}

// Reads the three fields of a VRP.
fn read_fields(
    first: &[u8],
    second: &[u8],
    third: &[u8],
    host_bits: HostBits,
) -> Result<Vrp, VrpError>
    ensures { MatchResult result (AreFieldsOfVrp host_bits first.now second.now third.now)
        (λ error. IsFieldsError host_bits first.now second.now third.now error
        × ((vrp : Vrp) → ¬ (AreFieldsOfVrp host_bits first.now second.now third.now vrp))) }
{
    // The proof learns from it that a text denotes at most one network.
    ip_text_laws();
    let origin = read_origin(first)?;
    let prefix = read_prefix(second, host_bits)?;
    read_max_len(third, prefix, origin)
}

// Reads the AS of a VRP.
fn read_origin(field: &[u8]) -> Result<u32, VrpError>
    ensures { MatchResult result (IsAsNumber field.now)
        (λ error. (error ≡ VrpError.AsNumber) × ¬ (HasAsNumber field.now)) }
{
    match parse_as_number(field) {
        Some(origin) => Ok(origin),
        None => Err(VrpError::AsNumber),
    }
}

// Reads the prefix of a VRP.
fn read_prefix(field: &[u8], host_bits: HostBits) -> Result<IpPrefix, VrpError>
    ensures { MatchResult result
        (λ prefix. IsUtf8 field.now × IsNetworkText host_bits field.now prefix)
        (IsPrefixError host_bits field.now) }
{
    match str::from_utf8(field) {
        Ok(text) => parse_prefix(text, host_bits),
        Err(_) => Err(VrpError::NotUtf8),
    }
}

// Reads the text of the prefix of a VRP.
fn parse_prefix(text: &str, host_bits: HostBits) -> Result<IpPrefix, VrpError>
    ensures { MatchResult result (IsNetworkText host_bits text.now)
        (IsPrefixError host_bits text.now) }
{
    match parse_network_with(text, host_bits) {
        Ok(prefix) => Ok(prefix),
        Err(error) => Err(VrpError::Network(error)),
    }
}

// Reads the maximum length of a VRP with this prefix and this origin.
fn read_max_len(text: &[u8], prefix: IpPrefix, origin: u32) -> Result<Vrp, VrpError>
    ensures { MatchResult result (λ vrp. (vrp.prefix ≡ prefix) × (vrp.origin ≡ origin)
        × IsMaxLength text.now prefix vrp.max_len)
        (λ error. (error ≡ VrpError.MaxLength) × ((n : ℕ) → ¬ (IsMaxLength text.now prefix n))) }
{
    match parse_max_len(text, &prefix) {
        Some(max_len) => Ok(Vrp {
            prefix,
            max_len,
            origin,
        }),
        None => Err(VrpError::MaxLength),
    }
}

// Reads a number that can be the maximum length of a VRP with this prefix.
fn parse_max_len(text: &[u8], prefix: &IpPrefix) -> Option<u8>
    ensures { MatchOption result ((n : ℕ) → ¬ (IsMaxLength text.now prefix.now n))
        (IsMaxLength text.now prefix.now) }
{
    let len = parse_digits(text)?;
    if len < u32::from(prefix.prefix_len()) || len > width(prefix) {
        return None;
    }
    Some(len as u8)
}

// Returns how many bits an address of a prefix has.
fn width(prefix: &IpPrefix) -> u32
    ensures value { result ≡ ip_width prefix.now }
    ensures within { result ≤ 128 }
{
    match prefix {
        IpPrefix::V4(_) => 32,
        IpPrefix::V6(_) => 128,
    }
}
