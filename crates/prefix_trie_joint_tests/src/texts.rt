//! The debug text of joint maps and sets has the networks of both families.
use crate::tables::filled;
use prefix_trie_joint::JointPrefixSet;
use std::test::Fail;

/// A network of each family.
static BOTH: [(&str, u32); 2] = [("10.0.0.0/8", 1), ("2001:db8::/32", 2)];

#[test]
fn map_shows_both_families(rt: HostRuntime) -> Result<(), Fail> {
    let map = filled(rt.alloc(), &BOTH)?;
    let text = format!(in rt.alloc(); "{map:?}")?;
    assert_eq!(rt;
        text.as_str(),
        "JointPrefixMap { ipv4: {10.0.0.0/8: { value: 1 }}, ipv6: {2001:0db8:0000:0000:0000:0000:0000:0000/32: { value: 2 }} }"
    );
    Ok(())
}

#[test]
fn set_shows_both_families(rt: HostRuntime) -> Result<(), Fail> {
    let map = filled(rt.alloc(), &BOTH)?;
    let set = JointPrefixSet::from_iter(rt.alloc(), map.into_keys())?;
    let text = format!(in rt.alloc(); "{set:?}")?;
    assert_eq!(rt;
        text.as_str(),
        "{V4(10.0.0.0/8), V6(2001:0db8:0000:0000:0000:0000:0000:0000/32)}"
    );
    Ok(())
}
