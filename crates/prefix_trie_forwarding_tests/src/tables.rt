//! Tables of cases.
use crate::cases::Case::{self, Clears, Finds, Groups, Inserts, Len, Reads, Removes, Slots};
use crate::cases::failure_in;

/// 10.1.0.0, and an address in it.
const NEAR: u32 = 0x0a01_0000;

const IN_NEAR: u32 = 0x0a01_0203;

/// A default route, and networks in it.
static NESTED: [Case<u32>; 19] = [
    Slots(1 << 16),
    Len(0),
    Finds(IN_NEAR, None),
    Inserts((NEAR, 24), 3, None),
    Inserts((0, 0), 1, None),
    Inserts((NEAR + 0x200, 24), 4, None),
    Finds(IN_NEAR, Some((24, 4))),
    Finds(NEAR + 0x100, Some((0, 1))),
    Inserts((NEAR, 16), 2, None),
    Finds(IN_NEAR, Some((24, 4))),
    Finds(NEAR + 0x100, Some((16, 2))),
    Inserts((NEAR + 0xffff, 16), 5, Some(2)),
    Finds(NEAR + 0x100, Some((16, 5))),
    Len(4),
    Removes((NEAR + 0x200, 24), Some(4)),
    Finds(IN_NEAR, Some((16, 5))),
    Removes((NEAR, 16), Some(5)),
    Removes((NEAR, 16), None),
    Finds(IN_NEAR, Some((0, 1))),
];

/// Groups that come, go and come again at another place, and are given back with all networks.
static GROUPS: [Case<u32>; 25] = [
    Inserts((NEAR, 16), 1, None),
    Groups(0),
    Slots(65_536),
    Inserts((IN_NEAR, 32), 2, None),
    Groups(2),
    Slots(65_536 + 512),
    Inserts((NEAR + 0x200, 25), 3, None),
    Groups(2),
    Removes((IN_NEAR, 32), Some(2)),
    Groups(2),
    Removes((NEAR + 0x200, 25), Some(3)),
    Groups(0),
    Slots(65_536 + 512),
    Inserts((0x0b00_0000, 32), 4, None),
    Groups(2),
    Slots(65_536 + 512),
    Finds(IN_NEAR, Some((16, 1))),
    Reads(IN_NEAR, Some(1), 1),
    Reads(0x0b00_0000, Some(4), 3),
    Reads(0x0b00_0100, None, 2),
    Clears,
    Groups(0),
    Slots(65_536),
    Finds(IN_NEAR, None),
    Inserts((IN_NEAR, 32), 2, None),
];

/// All addresses, each half of them, and the first and the last one.
static ENDS: [Case<u32>; 15] = [
    Inserts((0, 32), 0, None),
    Inserts((u32::MAX, 32), 0x007f_ffff, None),
    Finds(0, Some((32, 0))),
    Finds(1, None),
    Finds(u32::MAX, Some((32, 0x007f_ffff))),
    Groups(2),
    Inserts((0x8000_0000, 1), 2, None),
    Inserts((0, 1), 1, None),
    Finds(1, Some((1, 1))),
    Finds(u32::MAX - 1, Some((1, 2))),
    Inserts((0, 0), 3, None),
    Finds(0x7fff_ffff, Some((1, 1))),
    Removes((0, 1), Some(1)),
    Finds(0x7fff_ffff, Some((0, 3))),
    Finds(0, Some((32, 0))),
];

/// 2001:db8::, in which networks lie.
const SITE: u128 = 0x2001_0db8 << 96;

/// IPv6 networks at several levels.
static LEVELS: [Case<u128>; 16] = [
    Inserts((SITE, 128), 4, None),
    Groups(14),
    Inserts((SITE, 32), 1, None),
    Inserts((SITE, 48), 2, None),
    Inserts((SITE + (1 << 80), 48), 3, None),
    Groups(14),
    Finds(SITE, Some((128, 4))),
    Reads(SITE, Some(4), 15),
    Reads(SITE + (1 << 80), Some(3), 5),
    Finds(SITE + 1, Some((48, 2))),
    Finds(SITE + (1 << 80), Some((48, 3))),
    Finds(SITE + (2 << 80), Some((32, 1))),
    Finds(u128::MAX, None),
    Removes((SITE, 128), Some(4)),
    Groups(4),
    Finds(SITE, Some((48, 2))),
];

/// Bytes, whose root has a slot for each of them.
static BYTES: [Case<u8>; 6] = [
    Slots(256),
    Inserts((0x40, 2), 1, None),
    Inserts((0x41, 8), 2, None),
    Groups(0),
    Finds(0x41, Some((8, 2))),
    Finds(0x42, Some((2, 1))),
];

#[test]
fn cases_hold(rt: HostRuntime) {
    let alloc = rt.alloc();
    assert_eq!(rt; failure_in(alloc, 16, &NESTED), Ok(None));
    assert_eq!(rt; failure_in(alloc, 16, &GROUPS), Ok(None));
    assert_eq!(rt; failure_in(alloc, 24, &ENDS), Ok(None));
    assert_eq!(rt; failure_in(alloc, 16, &LEVELS), Ok(None));
    assert_eq!(rt; failure_in(alloc, 24, &BYTES), Ok(None));
}
