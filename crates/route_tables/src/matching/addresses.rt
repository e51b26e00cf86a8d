//! The addresses in a line of text.
ghost use Rattle.std.specs.Prelude.{◌≡◌, ◌+◌, ◌<◌, ◌≤◌, length, IfSome, OnSome, IsTrue};
ghost use Rattle.route_tables.specs.LineAddresses.{AreMarks, IsAddressIn, IsAlone, is_mark, is_word_byte};

use memchr::memchr;
use std::marker::Model;
use std::net::{IpAddr, Ipv4Addr, Ipv6Addr};

/// Returns the addresses in a line, in order.
///
/// A run of hexadecimal digits, dots and colons is an IPv6 address if it is one as a whole, or without dots and colons at its
/// end. If it is none, each part of it between colons is an IPv4 address if it is one as a whole, or without dots at its end.
/// So a port is no part of an address. No ASCII letter, digit or `_` is beside a run or part that is an address.
///
/// # Examples
///
/// ```rust
/// addresses_in(b"from 10.0.0.1:443 for [2001:db8::]:80.");       // [10.0.0.1, 2001:db8::]
/// addresses_in(b"src:10.0.0.1... fe80::1%eth0, 10.0.0.0/8");     // [10.0.0.1, fe80::1, 10.0.0.0]
/// addresses_in(b"12:30:45 Net::Daemon v1.2.3.4 1.2.3.4.5");      // []
/// ```
pub fn addresses_in(line: &[u8]) -> Addresses<'_>
    ensures { result ≡ (line.now, 0) }
{
    Addresses {
        line,
        at: 0,
        run_end: 0,
    }
}

/// The addresses in a line of text, in order. `addresses_in` makes it.
#[derive(Drop)]
pub struct Addresses<'a> {
    line: &'a [u8],
    // What is before this index is read.
    at: usize,
    // Where the run ends whose parts are read.
    run_end: usize,
}

// a contract sees the line, and how many of its bytes are read
impl<'a> Model for Addresses<'a> {
    ghost use Rattle.std.specs.Prelude.{ℕ, List, ◌≤◌, length};

    ghost Value = { List ℕ × ℕ };

    ghost view = { λ a. (a.line.now, a.at) };

    ghost invariant = { λ a. (a.at ≤ a.run_end) × (a.run_end ≤ length a.line.now) };
}

impl Iterator for Addresses<'_> {
    type Item = IpAddr;

    ghost use Rattle.route_tables.specs.LineAddresses.{YieldsAddress, bytes_left};

    ghost next_gives = { YieldsAddress };

    ghost remaining = { bytes_left };

    fn next(&mut self) -> Option<IpAddr> {
        let found = next_address(self.line, self.at, self.run_end)?;
        self.at = found.end;
        self.run_end = found.run_end;
        Some(found.address)
    }
}

// An address that is found, the index after it, and the index after its run.
#[derive(Clone, Copy)]
struct Found {
    address: IpAddr,
    end: usize,
    run_end: usize,
}

// The indices of the first byte of a run or part, and of the byte after it.
#[derive(Clone, Copy)]
struct Run {
    start: usize,
    end: usize,
}

// Returns the first address from an index on. A run that begins before that index ends at `run_end`, and is none as a whole.
fn next_address(line: &[u8], at: usize, run_end: usize) -> Option<Found>
    requires order { at ≤ run_end }
    requires within { run_end ≤ length line.now }
    ensures { IfSome result (λ found. (at < found.end) × (found.end ≤ found.run_end)
        × (found.run_end ≤ length line.now) × IsAddressIn line.now found.address) }
{
    let mut part = Run {
        start: at,
        end: run_end,
    };
    loop {
        if let Some(found) = first_ipv4(line, part) {
            return Some(found);
        }
        let run = next_run(line, part.end)?;
        if let Some(address) = ipv6_of(line, run) {
            return Some(Found {
                address: IpAddr::V6(address),
                end: run.end,
                run_end: run.end,
            });
        }
        part = run;
    }
}

// The weights of bytes in runs: 0 of a hexadecimal digit, 2 of a dot, 3 of a colon. A byte with 8 ends a run.
const WEIGHTS: [u8; 256] = [
    8, 8, 8, 8, 8, 8, 8, 8, 8, 8, 8, 8, 8, 8, 8, 8, 8, 8, 8, 8, 8, 8, 8, 8, 8, 8, 8, 8, 8, 8, 8, 8,
    8, 8, 8, 8, 8, 8, 8, 8, 8, 8, 8, 8, 8, 8, 2, 8, 0, 0, 0, 0, 0, 0, 0, 0, 0, 0, 3, 8, 8, 8, 8, 8,
    8, 0, 0, 0, 0, 0, 0, 8, 8, 8, 8, 8, 8, 8, 8, 8, 8, 8, 8, 8, 8, 8, 8, 8, 8, 8, 8, 8, 8, 8, 8, 8,
    8, 0, 0, 0, 0, 0, 0, 8, 8, 8, 8, 8, 8, 8, 8, 8, 8, 8, 8, 8, 8, 8, 8, 8, 8, 8, 8, 8, 8, 8, 8, 8,
    8, 8, 8, 8, 8, 8, 8, 8, 8, 8, 8, 8, 8, 8, 8, 8, 8, 8, 8, 8, 8, 8, 8, 8, 8, 8, 8, 8, 8, 8, 8, 8,
    8, 8, 8, 8, 8, 8, 8, 8, 8, 8, 8, 8, 8, 8, 8, 8, 8, 8, 8, 8, 8, 8, 8, 8, 8, 8, 8, 8, 8, 8, 8, 8,
    8, 8, 8, 8, 8, 8, 8, 8, 8, 8, 8, 8, 8, 8, 8, 8, 8, 8, 8, 8, 8, 8, 8, 8, 8, 8, 8, 8, 8, 8, 8, 8,
    8, 8, 8, 8, 8, 8, 8, 8, 8, 8, 8, 8, 8, 8, 8, 8, 8, 8, 8, 8, 8, 8, 8, 8, 8, 8, 8, 8, 8, 8, 8, 8,
];

// The least weight of an address, which has three dots or two colons.
const LEAST: u8 = 6;

// Returns the first run from an index on that has the weight of an address.
fn next_run(line: &[u8], from: usize) -> Option<Run>
    requires { from ≤ length line.now }
    ensures { IfSome result (λ run. (from ≤ run.start) × (run.start < run.end)
        × (run.end ≤ length line.now)) }
{
    let mut weight = 0;
    for at in from..line.len() {
        weight = weight_after(weight, line[at]);
        if weight >= LEAST {
            return Some(run_around(line, from, at));
        }
    }
    None
}

// Returns the weight of a run after one more byte. A branch on the byte would often be predicted wrongly.
#[inline(always)]
#[tactic(auto, using(std::proofs::lemmas::Nat::and_le_l))]
fn weight_after(weight: u8, byte: u8) -> u8
    requires { weight < 6 }
    ensures { result < 16 }
{
    let class = WEIGHTS[byte as usize];
    let kept = (class >> 3).wrapping_sub(1);
    (weight & kept) + class % 8
}

// Returns the run that an index is in. It begins at an index `from` or after it.
fn run_around(line: &[u8], from: usize, at: usize) -> Run
    requires order { from ≤ at }
    requires within { at < length line.now }
    ensures { (from ≤ result.start) × (result.start ≤ at) × (at < result.end)
        × (result.end ≤ length line.now) }
{
    let mut start = at;
    while start > from && is_address_byte(line[start - 1]) {
        start -= 1;
    }
    let mut end = at + 1;
    while end < line.len() && is_address_byte(line[end]) {
        end += 1;
    }
    Run { start, end }
}

// Returns the IPv6 address that a run is, as a whole or without dots and colons at its end.
fn ipv6_of(line: &[u8], run: Run) -> Option<Ipv6Addr>
    requires order { run.start ≤ run.end }
    requires within { run.end ≤ length line.now }
    ensures { IfSome result (λ address. IsAddressIn line.now (IpAddr.V6 address)) }
{
    if !can_be_ipv6(&line[run.start..run.end]) || !is_alone(line, run) {
        return None;
    }
    let stop = before_marks(line, run);
    if line[stop..run.end].starts_with(b"::") {
        if let Some(address) = ipv6_before(line, run, stop + 2) {
            return Some(address);
        }
    }
    ipv6_before(line, run, stop)
}

// Returns the IPv6 address that the bytes of a run before an index are. Dots and colons are after them.
fn ipv6_before(line: &[u8], run: Run, stop: usize) -> Option<Ipv6Addr>
    requires order { (run.start ≤ stop) × (stop ≤ run.end) }
    requires within { run.end ≤ length line.now }
    requires marks { AreMarks line.now stop run.end }
    requires alone { IsAlone line.now run.start run.end }
    ensures { IfSome result (λ address. IsAddressIn line.now (IpAddr.V6 address)) }
{
    Ipv6Addr::parse_ascii(&line[run.start..stop]).ok()
}

// Returns whether a text has two colons side by side, or six. An IPv6 address has, and a time of day has not.
fn can_be_ipv6(text: &[u8]) -> bool {
    let mut colons: u8 = 0;
    let mut last = 0;
    for byte in text {
        if *byte == b':' {
            if last == b':' || colons == 5 {
                return true;
            }
            colons += 1;
        }
        last = *byte;
    }
    false
}

// Returns the first IPv4 address among the parts of a run between colons.
fn first_ipv4(line: &[u8], run: Run) -> Option<Found>
    requires order { run.start ≤ run.end }
    requires within { run.end ≤ length line.now }
    ensures { IfSome result (λ found. (run.start < found.end) × (found.end ≤ run.end)
        × (found.run_end ≡ run.end) × IsAddressIn line.now found.address) }
{
    let mut start = run.start;
    while start < run.end {
        let end = part_end(line, start, run.end);
        if let Some(address) = ipv4_of(line, Run { start, end }) {
            return Some(Found {
                address: IpAddr::V4(address),
                end,
                run_end: run.end,
            });
        }
        if end == run.end {
            return None;
        }
        start = end + 1;
    }
    None
}

// Returns where the part ends that begins at an index: before a colon, or with the run.
fn part_end(line: &[u8], start: usize, run_end: usize) -> usize
    requires order { start ≤ run_end }
    requires within { run_end ≤ length line.now }
    ensures { (start ≤ result) × (result ≤ run_end) }
{
    match memchr(b':', &line[start..run_end]) {
        Some(index) => start + index,
        None => run_end,
    }
}

// The length of the shortest IPv4 address.
const SHORTEST_IPV4: usize = 7;

// Returns the IPv4 address that a part is, as a whole or without dots at its end.
fn ipv4_of(line: &[u8], part: Run) -> Option<Ipv4Addr>
    requires order { part.start ≤ part.end }
    requires within { part.end ≤ length line.now }
    ensures long { OnSome result (part.start < part.end) }
    ensures is { IfSome result (λ address. IsAddressIn line.now (IpAddr.V4 address)) }
{
    if part.end - part.start < SHORTEST_IPV4 || !is_alone(line, part) {
        return None;
    }
    let stop = before_marks(line, part);
    Ipv4Addr::parse_ascii(&line[part.start..stop]).ok()
}

// Returns the index after the last byte of a run or part that is neither a dot nor a colon.
fn before_marks(line: &[u8], run: Run) -> usize
    requires order { run.start ≤ run.end }
    requires within { run.end ≤ length line.now }
    ensures within { (run.start ≤ result) × (result ≤ run.end) }
    ensures marks { AreMarks line.now result run.end }
{
    let mut stop = run.end;
    while stop > run.start && is_mark(line[stop - 1]) {
        stop -= 1;
    }
    stop
}

// Returns whether no ASCII letter, digit or `_` is beside a run or part.
fn is_alone(line: &[u8], run: Run) -> bool
    requires order { run.start ≤ run.end }
    requires within { run.end ≤ length line.now }
    ensures { IsTrue result → IsAlone line.now run.start run.end }
{
    let is_before = run.start > 0 && is_word_byte(line[run.start - 1]);
    let is_after = run.end < line.len() && is_word_byte(line[run.end]);
    !is_before && !is_after
}

// Returns whether a byte can be in the text of an address.
fn is_address_byte(byte: u8) -> bool {
    byte.is_ascii_hexdigit() || is_mark(byte)
}

// Returns whether a byte is a dot or a colon.
fn is_mark(byte: u8) -> bool
    ensures { result ≡ is_mark byte }
{
    byte == b'.' || byte == b':'
}

// Returns whether a byte is an ASCII letter, a digit or `_`.
fn is_word_byte(byte: u8) -> bool
    ensures { result ≡ is_word_byte byte }
{
    byte.is_ascii_alphanumeric() || byte == b'_'
}
