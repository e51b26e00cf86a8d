//! Sets of IPv4 and IPv6 addresses.
use address_ranges::{AddressCount, AddressSet, AddressSetBuilder, JointAddressSet, networks_of};
use prefix_trie_bits::prefix::{Ipv4Prefix, Ipv6Prefix, Prefix};
use std::alloc::{AllocError, Global};
use std::test::Fail;

/// Returns the set of some networks.
fn set_of<P: Prefix>(networks: &[P], alloc: Global) -> Result<AddressSet<P, Global>, AllocError> {
    let mut builder = AddressSetBuilder::new(alloc)?;
    for network in networks {
        if network.fits() {
            builder.add_network(network)?;
        }
    }
    builder.finish()
}

#[test]
fn networks_that_overlap_and_touch_are_merged(rt: HostRuntime) -> Result<(), Fail> {
    let networks = [
        "10.1.0.0/16".parse::<Ipv4Prefix>()?,
        "10.0.0.0/9".parse::<Ipv4Prefix>()?,
        "192.0.2.0/24".parse::<Ipv4Prefix>()?,
        "10.128.0.0/9".parse::<Ipv4Prefix>()?,
    ];
    let set = set_of(&networks, rt.alloc())?;
    let expected = [
        "10.0.0.0/8".parse::<Ipv4Prefix>()?,
        "192.0.2.0/24".parse::<Ipv4Prefix>()?,
    ];
    assert_eq!(rt; set.len(), 2);
    assert!(rt; set.collect_networks(rt.alloc())?.as_slice() == expected.as_slice());
    assert!(rt; set.contains(0x0aff_ffff));
    assert!(rt; !set.contains(0x0b00_0000));
    Ok(())
}

#[test]
fn a_range_is_cut_into_networks(rt: HostRuntime) -> Result<(), Fail> {
    let mut builder = AddressSetBuilder::<Ipv4Prefix, Global>::new(rt.alloc())?;
    builder.add_range(0x0a00_0001, 0x0a00_0006)?;
    let set = builder.finish()?;
    let expected = [
        "10.0.0.1/32".parse::<Ipv4Prefix>()?,
        "10.0.0.2/31".parse::<Ipv4Prefix>()?,
        "10.0.0.4/31".parse::<Ipv4Prefix>()?,
        "10.0.0.6/32".parse::<Ipv4Prefix>()?,
    ];
    assert!(rt; set.collect_networks(rt.alloc())?.as_slice() == expected.as_slice());
    Ok(())
}

#[test]
fn all_ipv6_addresses_are_one_network(rt: HostRuntime) -> Result<(), Fail> {
    let networks = [
        "8000::/1".parse::<Ipv6Prefix>()?,
        "::/1".parse::<Ipv6Prefix>()?,
    ];
    let set = set_of(&networks, rt.alloc())?;
    let all = ["::/0".parse::<Ipv6Prefix>()?];
    assert!(rt; set.collect_networks(rt.alloc())?.as_slice() == all.as_slice());
    assert!(rt; set.complement(rt.alloc())?.is_empty());
    Ok(())
}

#[test]
fn counts_are_written_in_decimal(rt: HostRuntime) -> Result<(), Fail> {
    let none = AddressSet::<Ipv6Prefix, Global>::new(rt.alloc());
    let all = none.complement(rt.alloc())?;
    let text = format!(in rt.alloc(); "{} {}", none.address_count(), all.address_count())?;
    assert!(rt; text.as_str() == "0 340282366920938463463374607431768211456");
    assert!(rt; all.address_count() > AddressCount::Number(u128::MAX));
    Ok(())
}

#[test]
fn an_operation_treats_each_family_by_itself(rt: HostRuntime) -> Result<(), Fail> {
    let mut left = JointAddressSet::new(rt.alloc())?;
    left.ipv4.insert_range(0x0a00_0000, 0x0a00_00ff)?;
    left.ipv6.insert_range(0, u128::MAX)?;
    let mut right = JointAddressSet::new(rt.alloc())?;
    right.ipv4.insert_range(0x0a00_0080, 0x0a00_017f)?;
    let (both_ipv4, both_ipv6) = left.intersection(&right, rt.alloc())?.address_counts();
    assert!(rt; both_ipv4 == AddressCount::Number(128));
    assert!(rt; both_ipv6 == AddressCount::Number(0));
    let (either_ipv4, either_ipv6) = left.union(&right, rt.alloc())?.address_counts();
    assert!(rt; either_ipv4 == AddressCount::Number(384));
    assert!(rt; either_ipv6 == AddressCount::AllIpv6);
    assert!(rt; !right.is_subset(&left));
    Ok(())
}

#[test]
fn networks_of_a_range_have_no_host_bits(rt: HostRuntime) -> Result<(), Fail> {
    let networks = networks_of::<Ipv4Prefix, Global>(0x0a00_0001, 0x0a00_0004, rt.alloc())?;
    let expected = [
        "10.0.0.1/32".parse::<Ipv4Prefix>()?,
        "10.0.0.2/31".parse::<Ipv4Prefix>()?,
        "10.0.0.4/32".parse::<Ipv4Prefix>()?,
    ];
    assert!(rt; networks.as_slice() == expected.as_slice());
    let none = networks_of::<Ipv4Prefix, Global>(1, 0, rt.alloc())?;
    assert!(rt; none.is_empty());
    Ok(())
}

#[test]
fn networks_of_a_range_are_those_of_python(rt: HostRuntime) -> Result<(), Fail> {
    let networks = networks_of::<Ipv4Prefix, Global>(0xc000_0205, 0xc000_0282, rt.alloc())?;
    let text = format!(in rt.alloc(); "{networks:?}")?;
    let expected =
        "[192.0.2.5/32, 192.0.2.6/31, 192.0.2.8/29, 192.0.2.16/28, 192.0.2.32/27, 192.0.2.64/26, \
        192.0.2.128/31, 192.0.2.130/32]";
    assert!(rt; text.as_str() == expected);
    let most = networks_of::<Ipv6Prefix, Global>(1, u128::MAX - 1, rt.alloc())?;
    assert_eq!(rt; most.len(), 254);
    Ok(())
}
