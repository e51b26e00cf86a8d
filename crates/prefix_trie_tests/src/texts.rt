//! Texts of networks and of numbers: what is read, what is refused, and what is printed.
//!
//! The tables have the examples of RFC 4291, sections 2.2 and 2.3, and of RFC 5952, sections 1 to 5, and the corner cases of
//! `inet_pton` and of lengths. The expected addresses and texts are those that the RFCs state and that Python's `ipaddress` returns,
//! except for three kinds of text:
//!
//! - the address `::ffff:192.0.2.1` is printed as section 5 of RFC 5952 has it, where `ipaddress` prints `::ffff:c000:201`;
//! - a bare address, a netmask and a length with a leading zero are refused, which `ipaddress` reads;
//! - an address with a zone is refused, which `ipaddress` reads: RFC 4291 has no zones.

mod ipv4;
mod ipv6;
mod numbers;
mod routes;
