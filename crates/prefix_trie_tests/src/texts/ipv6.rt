//! IPv6 networks.
use prefix_trie::ParseNetworkError::{self, Address, Length, MissingSlash};
use prefix_trie::{Ipv6Prefix, Prefix};
use std::test::Fail;

/// A text, its address and length, and the printed text.
///
/// The first part is from RFC 4291. Then come the examples of RFC 5952, and others at the edges of its rules.
const READ: &[(&str, u128, u8, &str)] = &[
    (
        "ABCD:EF01:2345:6789:ABCD:EF01:2345:6789/128",
        0xabcd_ef01_2345_6789_abcd_ef01_2345_6789,
        128,
        "abcd:ef01:2345:6789:abcd:ef01:2345:6789/128",
    ),
    (
        "2001:DB8:0:0:8:800:200C:417A/64",
        0x2001_0db8_0000_0000_0008_0800_200c_417a,
        64,
        "2001:db8::8:800:200c:417a/64",
    ),
    (
        "2001:DB8::8:800:200C:417A/64",
        0x2001_0db8_0000_0000_0008_0800_200c_417a,
        64,
        "2001:db8::8:800:200c:417a/64",
    ),
    (
        "FF01:0:0:0:0:0:0:101/16",
        0xff01_0000_0000_0000_0000_0000_0000_0101,
        16,
        "ff01::101/16",
    ),
    (
        "FF01::101/16",
        0xff01_0000_0000_0000_0000_0000_0000_0101,
        16,
        "ff01::101/16",
    ),
    ("0:0:0:0:0:0:0:1/128", 1, 128, "::1/128"),
    ("::1/128", 1, 128, "::1/128"),
    ("0:0:0:0:0:0:0:0/0", 0, 0, "::/0"),
    ("::/0", 0, 0, "::/0"),
    ("0:0:0:0:0:0:13.1.68.3/96", 0x0d01_4403, 96, "::d01:4403/96"),
    ("::13.1.68.3/96", 0x0d01_4403, 96, "::d01:4403/96"),
    (
        "0:0:0:0:0:FFFF:129.144.52.38/96",
        0xffff_8190_3426,
        96,
        "::ffff:129.144.52.38/96",
    ),
    (
        "::FFFF:129.144.52.38/96",
        0xffff_8190_3426,
        96,
        "::ffff:129.144.52.38/96",
    ),
    (
        "2001:0DB8:0000:CD30:0000:0000:0000:0000/60",
        0x2001_0db8_0000_cd30_0000_0000_0000_0000,
        60,
        "2001:db8:0:cd30::/60",
    ),
    (
        "2001:0DB8::CD30:0:0:0:0/60",
        0x2001_0db8_0000_cd30_0000_0000_0000_0000,
        60,
        "2001:db8:0:cd30::/60",
    ),
    (
        "2001:0DB8:0:CD30::/60",
        0x2001_0db8_0000_cd30_0000_0000_0000_0000,
        60,
        "2001:db8:0:cd30::/60",
    ),
    (
        "2001:0DB8:0:CD30:123:4567:89AB:CDEF/60",
        0x2001_0db8_0000_cd30_0123_4567_89ab_cdef,
        60,
        "2001:db8:0:cd30:123:4567:89ab:cdef/60",
    ),
    (
        "2001:0DB8::CD30/60",
        0x2001_0db8_0000_0000_0000_0000_0000_cd30,
        60,
        "2001:db8::cd30/60",
    ),
    (
        "2001:db8:0:0:1:0:0:1/128",
        0x2001_0db8_0000_0000_0001_0000_0000_0001,
        128,
        "2001:db8::1:0:0:1/128",
    ),
    (
        "2001:0db8:0:0:1:0:0:1/128",
        0x2001_0db8_0000_0000_0001_0000_0000_0001,
        128,
        "2001:db8::1:0:0:1/128",
    ),
    (
        "2001:db8::0:1:0:0:1/128",
        0x2001_0db8_0000_0000_0001_0000_0000_0001,
        128,
        "2001:db8::1:0:0:1/128",
    ),
    (
        "2001:DB8:0:0:1::1/128",
        0x2001_0db8_0000_0000_0001_0000_0000_0001,
        128,
        "2001:db8::1:0:0:1/128",
    ),
    (
        "2001:db8:aaaa:bbbb:cccc:dddd:eeee:0001/128",
        0x2001_0db8_aaaa_bbbb_cccc_dddd_eeee_0001,
        128,
        "2001:db8:aaaa:bbbb:cccc:dddd:eeee:1/128",
    ),
    (
        "2001:db8:aaaa:bbbb:cccc:dddd::1/128",
        0x2001_0db8_aaaa_bbbb_cccc_dddd_0000_0001,
        128,
        "2001:db8:aaaa:bbbb:cccc:dddd:0:1/128",
    ),
    (
        "2001:db8:0:0:0::1/128",
        0x2001_0db8_0000_0000_0000_0000_0000_0001,
        128,
        "2001:db8::1/128",
    ),
    (
        "2001:db8::1:1:1:1:1/128",
        0x2001_0db8_0000_0001_0001_0001_0001_0001,
        128,
        "2001:db8:0:1:1:1:1:1/128",
    ),
    (
        "2001:0:0:1:0:0:0:1/128",
        0x2001_0000_0000_0001_0000_0000_0000_0001,
        128,
        "2001:0:0:1::1/128",
    ),
    (
        "::ffff:192.0.2.1/128",
        0xffff_c000_0201,
        128,
        "::ffff:192.0.2.1/128",
    ),
    (
        "::ffff:1.2.3.4/96",
        0xffff_0102_0304,
        96,
        "::ffff:1.2.3.4/96",
    ),
    (
        "64:ff9b::192.0.2.33/96",
        0x0064_ff9b_0000_0000_0000_0000_c000_0221,
        96,
        "64:ff9b::c000:221/96",
    ),
    (
        "1:0:0:2:0:0:0:3/7",
        0x0001_0000_0000_0002_0000_0000_0000_0003,
        7,
        "1:0:0:2::3/7",
    ),
    (
        "1::/127",
        0x0001_0000_0000_0000_0000_0000_0000_0000,
        127,
        "1::/127",
    ),
    (
        "::1:2:3:4:5:6:7/128",
        0x0001_0002_0003_0004_0005_0006_0007,
        128,
        "0:1:2:3:4:5:6:7/128",
    ),
    (
        "1:2:3:4:5:6:7::/128",
        0x0001_0002_0003_0004_0005_0006_0007_0000,
        128,
        "1:2:3:4:5:6:7:0/128",
    ),
    (
        "fe80::1/10",
        0xfe80_0000_0000_0000_0000_0000_0000_0001,
        10,
        "fe80::1/10",
    ),
];

/// A text that is not a network, and the reason. RFC 4291 calls the text with `CD3` not legal.
const REFUSED: &[(&str, ParseNetworkError)] = &[
    ("", MissingSlash),
    ("::", MissingSlash),
    ("2001:db8::1", MissingSlash),
    ("2001:db8::1 64", MissingSlash),
    ("/64", Address),
    (" ::/0", Address),
    (":/0", Address),
    (":::/1", Address),
    ("1::2::3/64", Address),
    ("1:2:3:4:5:6:7/64", Address),
    ("1:2:3:4:5:6:7:8:9/64", Address),
    ("1:2:3:4:5:6:7:8::/64", Address),
    ("::1:2:3:4:5:6:7:8/64", Address),
    ("2001:0DB8:0:CD3/60", Address),
    ("2001:db8::1:/64", Address),
    (":1::/64", Address),
    ("12345::/16", Address),
    ("g::/16", Address),
    ("+1::/16", Address),
    ("[::1]/64", Address),
    ("fe80::1%1/64", Address),
    ("::1.2.3/96", Address),
    ("::1.2.3.4.5/96", Address),
    ("::01.2.3.4/96", Address),
    ("::1.2.3.256/96", Address),
    ("1.2.3.4::/96", Address),
    ("1:2:3:4:5:6:7:1.2.3.4/96", Address),
    ("10.0.0.0/8", Address),
    ("::/", Length),
    ("::/129", Length),
    ("::/256", Length),
    ("::/+0", Length),
    ("::/-0", Length),
    ("::/ 0", Length),
    ("::/0 ", Length),
    ("::/00", Length),
    ("2001:db8::/ffff::", Length),
];

/// Returns whether a text is read as an address and a length.
fn is_read(text: &str, addr: u128, len: u8) -> bool {
    match text.parse::<Ipv6Prefix>() {
        Ok(network) => network.addr() == addr && network.prefix_len() == len,
        Err(_) => false,
    }
}

/// Returns a network's text for debugging, which has all digits.
fn full_text(rt: &HostRuntime, network: Ipv6Prefix) -> Result<String, Fail> {
    Ok(format!(in rt.alloc(); "{network:?}")?)
}

/// Returns whether a network is printed as this text, and its full text is read as the same network.
fn is_printed(rt: &HostRuntime, network: Ipv6Prefix, text: &str) -> Result<bool, Fail> {
    let printed = format!(in rt.alloc(); "{network}")?;
    Ok(printed.as_str() == text && full_text(rt, network)?.as_str().parse() == Ok(network))
}

#[test]
fn ipv6_networks_are_read_and_printed(rt: HostRuntime) -> Result<(), Fail> {
    for (text, addr, len, printed) in READ {
        assert!(rt; is_read(text, *addr, *len), "{text}");
        assert!(rt; is_printed(&rt, text.parse()?, printed)?, "{text}");
    }
    Ok(())
}

#[test]
fn other_texts_are_refused_as_ipv6_networks(rt: HostRuntime) {
    for (text, reason) in REFUSED {
        assert!(rt; text.parse::<Ipv6Prefix>() == Err(*reason), "{text}");
    }
}

/// Networks with the longest texts, and their full texts.
const LONGEST: &[(&str, &str)] = &[
    (
        "1111:2222:3333:4444:5555:6666:7777:8888/128",
        "1111:2222:3333:4444:5555:6666:7777:8888/128",
    ),
    (
        "::ffff:255.255.255.255/128",
        "0000:0000:0000:0000:0000:ffff:ffff:ffff/128",
    ),
];

/// The longest texts fill the buffer in which they are padded. No contract says that writing them does not fail.
#[test]
fn longest_texts_are_printed(rt: HostRuntime) -> Result<(), Fail> {
    for (text, full) in LONGEST {
        assert!(rt; is_printed(&rt, text.parse()?, text)?, "{text}");
        assert!(rt; full_text(&rt, text.parse()?)?.as_str() == *full, "{text}");
    }
    Ok(())
}

#[test]
fn longest_text_is_padded(rt: HostRuntime) -> Result<(), Fail> {
    let network: Ipv6Prefix = LONGEST[0].0.parse()?;
    let printed = format!(in rt.alloc(); "{network:>44}")?;
    assert!(rt; printed.as_str() == " 1111:2222:3333:4444:5555:6666:7777:8888/128");
    Ok(())
}
