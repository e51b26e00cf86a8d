//! IPv4 networks.
use prefix_trie::ParseNetworkError::{self, Address, Length, MissingSlash};
use prefix_trie::{Ipv4Prefix, Prefix};
use std::test::Fail;

/// A text, and its address and length. Each network is printed as it was read.
const READ: &[(&str, u32, u8)] = &[
    ("0.0.0.0/0", 0, 0),
    ("255.255.255.255/32", 0xffff_ffff, 32),
    ("10.1.2.3/8", 0x0a01_0203, 8),
    ("192.0.2.1/24", 0xc000_0201, 24),
    ("1.2.3.4/31", 0x0102_0304, 31),
    ("100.64.0.0/10", 0x6440_0000, 10),
    ("10.0.0.0/9", 0x0a00_0000, 9),
];

/// A text that is not a network, and the reason.
const REFUSED: &[(&str, ParseNetworkError)] = &[
    ("", MissingSlash),
    ("10.0.0.0", MissingSlash),
    ("10.0.0.0 8", MissingSlash),
    ("10.0.0.0\\8", MissingSlash),
    ("/", Address),
    ("/8", Address),
    (" 10.0.0.0/8", Address),
    ("10.0.0.0 /8", Address),
    ("1.2.3/8", Address),
    ("1.2.3.4.5/8", Address),
    ("01.2.3.4/8", Address),
    ("1.2.3.04/8", Address),
    ("1.2.3.256/8", Address),
    ("1.2.3.4a/8", Address),
    ("1..3.4/8", Address),
    (".1.2.3.4/8", Address),
    ("1.2.3.4./8", Address),
    ("+1.2.3.4/8", Address),
    ("0x1.2.3.4/8", Address),
    ("16909060/8", Address),
    ("::/0", Address),
    ("::ffff:1.2.3.4/96", Address),
    ("10.0.0.0/", Length),
    ("10.0.0.0/33", Length),
    ("10.0.0.0/256", Length),
    ("10.0.0.0/264", Length),
    ("10.0.0.0/18446744073709551624", Length),
    ("10.0.0.0/+8", Length),
    ("10.0.0.0/-8", Length),
    ("10.0.0.0/ 8", Length),
    ("10.0.0.0/8 ", Length),
    ("10.0.0.0/08", Length),
    ("10.0.0.0/8/8", Length),
    ("10.0.0.0//8", Length),
    ("10.0.0.0/255.0.0.0", Length),
];

/// Returns whether a text is read as an address and a length.
fn is_read(text: &str, addr: u32, len: u8) -> bool {
    match text.parse::<Ipv4Prefix>() {
        Ok(network) => network.addr() == addr && network.prefix_len() == len,
        Err(_) => false,
    }
}

/// Returns whether a network is printed as this text, for users and for debugging.
fn is_printed(rt: &HostRuntime, network: Ipv4Prefix, text: &str) -> Result<bool, Fail> {
    let printed = format!(in rt.alloc(); "{network}")?;
    let full = format!(in rt.alloc(); "{network:?}")?;
    Ok(printed.as_str() == text && full.as_str() == text)
}

#[test]
fn ipv4_networks_are_read_and_printed(rt: HostRuntime) -> Result<(), Fail> {
    for (text, addr, len) in READ {
        assert!(rt; is_read(text, *addr, *len), "{text}");
        assert!(rt; is_printed(&rt, text.parse()?, text)?, "{text}");
    }
    Ok(())
}

#[test]
fn other_texts_are_refused_as_ipv4_networks(rt: HostRuntime) {
    for (text, reason) in REFUSED {
        assert!(rt; text.parse::<Ipv4Prefix>() == Err(*reason), "{text}");
    }
}
