//! Numbers of any width, errors, widths of printed texts, and the order of networks.
use prefix_trie::{Ipv4Prefix, Ipv6Prefix, Narrow, ParseNarrowError, ParseNetworkError, PrefixMap};
use std::alloc::Global;
use std::hash::{DefaultHasher, Hash, Hasher};
use std::test::Fail;

const READ: &[(&str, u64)] = &[("0", 0), ("7", 7), ("100", 100), ("4095", 4095)];

const REFUSED: &[&str] = &[
    "",
    "4096",
    "18446744073709551616",
    "+1",
    "-1",
    "01",
    "00",
    " 1",
    "1 ",
    "0x10",
    "1a",
    "1/12",
];

/// Returns whether a text is read as this number of 12 bits, and the number is printed as the text.
fn is_read_and_printed(rt: &HostRuntime, text: &str, number: u64) -> Result<bool, Fail> {
    let vlan: Narrow<12> = text.parse()?;
    Ok(vlan.get() == number && format!(in rt.alloc(); "{vlan}")?.as_str() == text)
}

#[test]
fn numbers_are_read_and_printed(rt: HostRuntime) -> Result<(), Fail> {
    for (text, number) in READ {
        assert!(rt; is_read_and_printed(&rt, text, *number)?, "{text}");
    }
    for text in REFUSED {
        assert!(rt;
            text.parse::<Narrow<12>>() == Err(ParseNarrowError),
            "{text}"
        );
    }
    Ok(())
}

#[test]
fn longest_number_is_printed(rt: HostRuntime) -> Result<(), Fail> {
    let longest: Narrow<63> = "9223372036854775807".parse()?;
    assert!(rt; longest.get() == (1 << 63) - 1);
    let printed = format!(in rt.alloc(); "[{longest:>20}]")?;
    assert!(rt; printed.as_str() == "[ 9223372036854775807]");
    Ok(())
}

#[test]
fn networks_are_printed_within_widths(rt: HostRuntime) -> Result<(), Fail> {
    let four: Ipv4Prefix = "10.1.2.3/8".parse()?;
    let six: Ipv6Prefix = "2001:db8::/32".parse()?;
    let printed = format!(in rt.alloc(); "[{four:>14}] [{four:<12}] [{four:.4}] [{six:^17}]")?;
    assert!(rt; printed.as_str() == "[    10.1.2.3/8] [10.1.2.3/8  ] [10.1] [  2001:db8::/32  ]");
    Ok(())
}

#[test]
fn errors_are_printed(rt: HostRuntime) -> Result<(), Fail> {
    let printed = format!(in rt.alloc();
        "{}, {}, {}, {}",
        ParseNetworkError::MissingSlash,
        ParseNetworkError::Address,
        ParseNetworkError::Length,
        ParseNarrowError
    )?;
    assert!(rt;
        printed.as_str()
            == "missing slash between address and length, invalid address before the slash, invalid length after the slash, not a plain decimal number within the width"
    );
    Ok(())
}

/// Returns the hash of a value.
fn hash_of<T: Hash>(value: &T) -> u64 {
    let mut hasher = DefaultHasher::new();
    value.hash(&mut hasher);
    hasher.finish()
}

/// Networks in no order.
const NETWORKS: &[&str] = &[
    "10.1.0.0/16",
    "0.0.0.0/0",
    "10.0.0.0/16",
    "9.0.0.0/8",
    "10.0.0.0/8",
    "128.0.0.0/1",
    "10.0.0.0/24",
];

/// Returns a map with these networks.
fn map_of(networks: &[&str], alloc: Global) -> Result<PrefixMap<Ipv4Prefix, (), Global>, Fail> {
    let mut map = PrefixMap::new(alloc)?;
    for text in networks {
        let network: Ipv4Prefix = text.parse()?;
        map.insert(network, ())?;
    }
    Ok(map)
}

#[test]
fn networks_are_ordered_as_a_map_lists_them(rt: HostRuntime) -> Result<(), Fail> {
    let map = map_of(NETWORKS, rt.alloc())?;
    assert!(rt; map.len() == NETWORKS.len());
    assert!(rt; map.keys().is_sorted_by(|left, right| left < right));
    Ok(())
}

#[test]
fn equal_networks_have_equal_hashes(rt: HostRuntime) -> Result<(), Fail> {
    let read: Ipv4Prefix = "10.0.0.0/8".parse()?;
    let made = Ipv4Prefix::new(0x0a00_0000, 8).ok_or("no length")?;
    assert!(rt; hash_of(&read) == hash_of(&made));
    assert!(rt; hash_of(&Some(read)) != hash_of(&read.parent()));
    Ok(())
}
