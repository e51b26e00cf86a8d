//! The text of networks: what `Display` writes, and what `parse` reads.
ghost use Rattle.std.specs.Char.{digit_char};
ghost use Rattle.std.specs.Fmt.{DisplaysOnOk, DisplaysStyledOnOk, formatter_spec, padded};
ghost use Rattle.std.specs.Net.Text.{ipv4_text};
ghost use Rattle.std.specs.Option.{option_map};
ghost use Rattle.std.specs.Prelude.{◌≡◌, ◌+◌, ◌<◌, ◌≤◌, ◌∷◌, ◌++◌, codes, decimal, drop, Some};

use super::{Ipv4Prefix, Ipv6Prefix};
use crate::prefix::decimal::read_decimal;
use std::error::Error;
use std::fmt::{self, Debug, Display, Formatter, InlineText, Write};
use std::net::{Ipv4Addr, Ipv6Addr};
use std::str::{self, FromStr};

/// Why a text is not a network.
///
/// # Examples
///
/// ```rust
/// "10.0.0.0".parse::<Ipv4Prefix>();       // Err(MissingSlash)
/// "10.0.0/8".parse::<Ipv4Prefix>();       // Err(Address)
/// "10.0.0.0/33".parse::<Ipv4Prefix>();    // Err(Length)
/// ```
#[derive(Clone, Copy, Debug, PartialEq, Eq)]
pub enum ParseNetworkError {
    /// The text has no slash.
    MissingSlash,
    /// The text before the first slash is not an address of the family.
    Address,
    /// The text after the first slash is not a length: a decimal number up to the width, with no sign and no leading zero.
    Length,
}

impl ParseNetworkError {
    ghost use Rattle.prefix_trie_bits.specs.Texts.{parse_network_error_text};

    // Returns its text.
    fn text(self) -> &'static str
        ensures { result.now ≡ parse_network_error_text self }
    {
        match self {
            ParseNetworkError::MissingSlash => "missing slash between address and length",
            ParseNetworkError::Address => "invalid address before the slash",
            ParseNetworkError::Length => "invalid length after the slash",
        }
    }
}

impl Display for ParseNetworkError {
    ghost use Rattle.prefix_trie_bits.specs.Texts.{parse_network_error_text};

    ghost output = { λ error. Some (parse_network_error_text error) };

    ghost styled_output = { λ error spec. Some (padded spec (parse_network_error_text error)) };

    fn fmt<F: Write>(&self, f: &mut Formatter<F>) -> fmt::Result {
        f.pad(self.text())
    }
}

impl Error for ParseNetworkError {}

// The longest text: eight groups of four digits, seven colons, a slash and three digits.
const LONGEST: usize = 43;

// Writes `value` as a whole, under the options of the formatter.
fn pad<F: Write, D: Display + Drop>(f: &mut Formatter<F>, value: D) -> fmt::Result
    ensures writes { DisplaysOnOk F.Write.write_str_gives f.old result
        (D.Display.output value) f.new }
    ensures styled { DisplaysStyledOnOk F.Write.write_str_gives f.old result
        (option_map (padded (formatter_spec f.old)) (D.Display.output value)) f.new }
{
    let mut text = InlineText::<LONGEST>::new();
    text.write(value)?;
    f.pad(text.as_str())
}

impl Display for Ipv4Prefix {
    ghost use Rattle.prefix_trie_bits.specs.Texts.{ipv4_network_text};

    ghost output = { λ p. Some (ipv4_network_text p) };

    ghost styled_output = { λ p spec. Some (padded spec (ipv4_network_text p)) };

    // One write of a whole text is over twice as fast as a write for each of its parts.
    fn fmt<F: Write>(&self, f: &mut Formatter<F>) -> fmt::Result {
        let mut text = [0; LONGEST_IPV4];
        let start = put_network(self.address().octets(), self.len, &mut text);
        let Ok(text) = str::from_utf8(&text[start..]) else {
            return Err(fmt::Error);
        };
        f.pad(text)
    }
}

// The longest text of an IPv4 network: five numbers of three digits, three dots and a slash.
const LONGEST_IPV4: usize = 19;

// Writes the text of an IPv4 network at the end of `text`, and returns where it starts.
fn put_network(octets: [u8; 4], len: u8, text: &mut [u8; LONGEST_IPV4]) -> usize
    ensures value { drop result text.new ≡ ipv4_text octets ++ codes "/" ++ decimal len }
    ensures within { result ≤ 19 }
{
    let end = put_number(len, text.len(), text);
    let end = put_byte(b'/', end, text);
    let end = put_number(octets[3], end, text);
    let end = put_byte(b'.', end, text);
    let end = put_number(octets[2], end, text);
    let end = put_byte(b'.', end, text);
    let end = put_number(octets[1], end, text);
    let end = put_byte(b'.', end, text);
    put_number(octets[0], end, text)
}

// Writes a number in decimal so that it ends before `end`, and returns where it starts.
fn put_number(number: u8, end: usize, text: &mut [u8; LONGEST_IPV4]) -> usize
    requires low { 3 ≤ end }
    requires high { end ≤ 19 }
    ensures value { drop result text.new ≡ decimal number ++ drop end text.old }
    ensures low { end ≤ result + 3 }
    ensures high { result ≤ end }
{
    let ones = put_byte(b'0' + number % 10, end, text);
    if number < 10 {
        return ones;
    }
    let tens = put_byte(b'0' + number / 10 % 10, ones, text);
    if number < 100 {
        return tens;
    }
    put_byte(b'0' + number / 100, tens, text)
}

// Writes a byte before `end`, and returns its index.
fn put_byte(byte: u8, end: usize, text: &mut [u8; LONGEST_IPV4]) -> usize
    requires low { 0 < end }
    requires high { end ≤ 19 }
    ensures value { drop result text.new ≡ byte ∷ drop end text.old }
    ensures before { result + 1 ≡ end }
{
    text[end - 1] = byte;
    end - 1
}

impl Display for Ipv6Prefix {
    ghost use Rattle.prefix_trie_bits.specs.Texts.{ipv6_network_text};

    ghost output = { λ p. Some (ipv6_network_text p) };

    ghost styled_output = { λ p spec. Some (padded spec (ipv6_network_text p)) };

    fn fmt<F: Write>(&self, f: &mut Formatter<F>) -> fmt::Result {
        pad(f, format_args!("{}/{}", self.address(), self.len))
    }
}

impl Debug for Ipv4Prefix {
    ghost use Rattle.prefix_trie_bits.specs.Texts.{ipv4_network_text};

    ghost debug_output = { λ p. Some (ipv4_network_text p) };

    fn fmt<F: Write>(&self, f: &mut Formatter<F>) -> fmt::Result {
        Display::fmt(self, f)
    }
}

// Returns a hexadecimal digit, in lower case.
fn digit(value: u16) -> u8
    requires { value < 16 }
    ensures { result ≡ digit_char value }
{
    if value < 10 {
        b'0' + value as u8
    } else {
        b'a' + (value - 10) as u8
    }
}

// A segment as four hexadecimal digits.
#[derive(Clone, Copy)]
struct Group(u16);

impl Display for Group {
    ghost use Rattle.prefix_trie_bits.specs.Texts.{four_digits};

    ghost output = { λ g. Some (four_digits g.0) };

    fn fmt<F: Write>(&self, f: &mut Formatter<F>) -> fmt::Result {
        let segment = self.0;
        let digits = [
            digit(segment / 0x1000),
            digit(segment / 0x100 % 16),
            digit(segment / 0x10 % 16),
            digit(segment % 16),
        ];
        f.write_str(str::from_utf8(&digits).map_err(|_| fmt::Error)?)
    }
}

// Segments with colons between them.
#[derive(Clone, Copy)]
struct Groups<'a>(&'a [u16]);

impl Display for Groups<'_> {
    ghost use Rattle.prefix_trie_bits.specs.Texts.{full_groups};

    ghost output = { λ g. Some (full_groups g.0.now) };

    fn fmt<F: Write>(&self, f: &mut Formatter<F>) -> fmt::Result {
        if let [first, rest @ ..] = self.0 {
            f.write(Group(*first))?;
            for segment in rest {
                write!(f, ":{}", Group(*segment))?;
            }
        }
        Ok(())
    }
}

impl Debug for Ipv6Prefix {
    ghost use Rattle.prefix_trie_bits.specs.Texts.{ipv6_full_text};

    ghost debug_output = { λ p. Some (ipv6_full_text p) };

    fn fmt<F: Write>(&self, f: &mut Formatter<F>) -> fmt::Result {
        let segments = self.address().segments();
        write!(f, "{}/{}", Groups(&segments), self.len)
    }
}

impl FromStr for Ipv4Prefix {
    type Err = ParseNetworkError;

    ghost use Rattle.prefix_trie_bits.specs.Texts.{ParsesIpv4Network};

    ghost from_str_gives = { ParsesIpv4Network };

    fn from_str(text: &str) -> Result<Ipv4Prefix, ParseNetworkError> {
        let Some((address, len)) = text.split_once('/') else {
            return Err(ParseNetworkError::MissingSlash);
        };
        let Ok(address) = address.parse::<Ipv4Addr>() else {
            return Err(ParseNetworkError::Address);
        };
        let Some(len) = read_decimal(len, 32) else {
            return Err(ParseNetworkError::Length);
        };
        Ok(Ipv4Prefix {
            addr: address.to_bits(),
            len: len as u8,
        })
    }
}

impl FromStr for Ipv6Prefix {
    type Err = ParseNetworkError;

    ghost use Rattle.prefix_trie_bits.specs.Texts.{ParsesIpv6Network};

    ghost from_str_gives = { ParsesIpv6Network };

    fn from_str(text: &str) -> Result<Ipv6Prefix, ParseNetworkError> {
        let Some((address, len)) = text.split_once('/') else {
            return Err(ParseNetworkError::MissingSlash);
        };
        let Ok(address) = address.parse::<Ipv6Addr>() else {
            return Err(ParseNetworkError::Address);
        };
        let Some(len) = read_decimal(len, 128) else {
            return Err(ParseNetworkError::Length);
        };
        Ok(Ipv6Prefix {
            addr: address.to_bits(),
            len: len as u8,
        })
    }
}

impl Ipv4Prefix {
    ghost use Rattle.prefix_trie_bits.specs.Texts.{ParsesIpv4Host};

    /// Reads a network, or an address alone, which is the network of that one address.
    ///
    /// # Errors
    ///
    /// Returns `Address` if the text has no slash and is not an address, and otherwise what `parse` returns.
    ///
    /// # Examples
    ///
    /// ```rust
    /// Ipv4Prefix::parse_host("10.1.2.3");        // Ok(10.1.2.3/32)
    /// Ipv4Prefix::parse_host("10.1.0.0/16");     // Ok(10.1.0.0/16)
    /// Ipv4Prefix::parse_host("10.1.2");          // Err(Address)
    /// ```
    pub fn parse_host(text: &str) -> Result<Ipv4Prefix, ParseNetworkError>
        ensures { ParsesIpv4Host text.now result }
    {
        if text.split_once('/').is_some() {
            return text.parse();
        }
        let Ok(address) = text.parse::<Ipv4Addr>() else {
            return Err(ParseNetworkError::Address);
        };
        Ok(Ipv4Prefix::from(address))
    }
}

impl Ipv6Prefix {
    ghost use Rattle.prefix_trie_bits.specs.Texts.{ParsesIpv6Host};

    /// Reads a network, or an address alone, which is the network of that one address.
    ///
    /// # Errors
    ///
    /// Returns `Address` if the text has no slash and is not an address, and otherwise what `parse` returns.
    ///
    /// # Examples
    ///
    /// ```rust
    /// Ipv6Prefix::parse_host("::1");        // Ok(0000:0000:0000:0000:0000:0000:0000:0001/128)
    /// Ipv6Prefix::parse_host("2001:db8::/32");     // Ok(2001:0db8:0000:0000:0000:0000:0000:0000/32)
    /// Ipv6Prefix::parse_host("::1::");          // Err(Address)
    /// ```
    pub fn parse_host(text: &str) -> Result<Ipv6Prefix, ParseNetworkError>
        ensures { ParsesIpv6Host text.now result }
    {
        if text.split_once('/').is_some() {
            return text.parse();
        }
        let Ok(address) = text.parse::<Ipv6Addr>() else {
            return Err(ParseNetworkError::Address);
        };
        Ok(Ipv6Prefix::from(address))
    }
}
