//! The listing order of a node's places.
ghost use Rattle.std.specs.Prelude.{◌≡◌, ◌<◌, ◌≤◌, List, Bool, length, map, not, Some};
ghost use Rattle.std.specs.List.{slice_get};
ghost use Rattle.prefix_trie_bits.specs.Model.Bits.{number, begins};
ghost use Rattle.prefix_trie_bits.specs.Places.{value_bit, heap_number, strings, place_of, HoldsPlaces, HoldsPositions, is_before};

use crate::node::Place;

/// Returns the value bits and the child bits from a value bit on in listing order, itself included.
///
/// For example, bit 30 is that of 1111: the masks have that bit, and the child bits 30 and 31.
#[inline]
pub fn from_value(bit: u32) -> (u32, u32)
    requires { bit < 31 }
    ensures { (t : List Bool) → length t ≤ 4 → value_bit t ≡ bit
        → HoldsPlaces result.0 result.1 (λ s. not (is_before s t)) }
{
    FROM_VALUE[bit as usize]
}

/// Returns the value bits and the child bits after a child bit in listing order, itself left out.
///
/// For example, bit 30 is that of 11110: the masks have the child bit 31 alone.
#[inline]
pub fn after_child(bit: u32) -> (u32, u32)
    requires { bit < 32 }
    ensures { (t : List Bool) → length t ≡ 5 → number t ≡ bit
        → HoldsPlaces result.0 result.1 (is_before t) }
{
    AFTER_CHILD[bit as usize]
}

// Returns the place at a position of the listing.
#[inline]
pub(super) fn place_at(position: u32) -> Place
    requires { position < 63 }
    ensures { slice_get (map place_of (strings 5)) position ≡ Some result }
{
    LISTING[position as usize]
}

// Returns the position in the listing of the place with a heap number.
#[inline]
pub(super) fn position_of(heap: u32) -> u32
    requires some { 0 < heap }
    requires place { heap < 64 }
    ensures position { slice_get (map heap_number (strings 5)) result ≡ Some heap }
    ensures small { result < 63 }
{
    POSITION[heap as usize] as u32
}

// Returns the positions in the listing of the places that a value bit's string does not begin.
#[inline]
pub(super) fn not_below(bit: u32) -> u64
    requires { bit < 31 }
    ensures { (t : List Bool) → length t ≤ 4 → value_bit t ≡ bit
        → HoldsPositions result (λ s. not (begins t s)) }
{
    NOT_BELOW[bit as usize]
}

// For each value bit: the value bits and the child bits from there on in listing order.
static FROM_VALUE: [(u32, u32); 31] = [
    (0x7fffffff, 0xffffffff),
    (0x7ffffffe, 0xffffffff),
    (0x7f807864, 0xffff0000),
    (0x7ffffffc, 0xffffffff),
    (0x7ff87e74, 0xffffff00),
    (0x7f807860, 0xffff0000),
    (0x78006040, 0xff000000),
    (0x7ffffff4, 0xffffffff),
    (0x7ffe7f74, 0xfffffff0),
    (0x7ff87e64, 0xffffff00),
    (0x7fe07c64, 0xfffff000),
    (0x7f807840, 0xffff0000),
    (0x7e007040, 0xfff00000),
    (0x78006000, 0xff000000),
    (0x60004000, 0xf0000000),
    (0x7fffff74, 0xffffffff),
    (0x7fff7f74, 0xfffffffc),
    (0x7ffe7e74, 0xfffffff0),
    (0x7ffc7e74, 0xffffffc0),
    (0x7ff87c64, 0xffffff00),
    (0x7ff07c64, 0xfffffc00),
    (0x7fe07864, 0xfffff000),
    (0x7fc07864, 0xffffc000),
    (0x7f807040, 0xffff0000),
    (0x7f007040, 0xfffc0000),
    (0x7e006040, 0xfff00000),
    (0x7c006040, 0xffc00000),
    (0x78004000, 0xff000000),
    (0x70004000, 0xfc000000),
    (0x60000000, 0xf0000000),
    (0x40000000, 0xc0000000),
];

// For each child bit: the value bits and the child bits after it in listing order.
static AFTER_CHILD: [(u32, u32); 32] = [
    (0x7fff7f74, 0xfffffffe),
    (0x7fff7f74, 0xfffffffc),
    (0x7ffe7f74, 0xfffffff8),
    (0x7ffe7f74, 0xfffffff0),
    (0x7ffc7e74, 0xffffffe0),
    (0x7ffc7e74, 0xffffffc0),
    (0x7ff87e74, 0xffffff80),
    (0x7ff87e74, 0xffffff00),
    (0x7ff07c64, 0xfffffe00),
    (0x7ff07c64, 0xfffffc00),
    (0x7fe07c64, 0xfffff800),
    (0x7fe07c64, 0xfffff000),
    (0x7fc07864, 0xffffe000),
    (0x7fc07864, 0xffffc000),
    (0x7f807864, 0xffff8000),
    (0x7f807864, 0xffff0000),
    (0x7f007040, 0xfffe0000),
    (0x7f007040, 0xfffc0000),
    (0x7e007040, 0xfff80000),
    (0x7e007040, 0xfff00000),
    (0x7c006040, 0xffe00000),
    (0x7c006040, 0xffc00000),
    (0x78006040, 0xff800000),
    (0x78006040, 0xff000000),
    (0x70004000, 0xfe000000),
    (0x70004000, 0xfc000000),
    (0x60004000, 0xf8000000),
    (0x60004000, 0xf0000000),
    (0x40000000, 0xe0000000),
    (0x40000000, 0xc0000000),
    (0x00000000, 0x80000000),
    (0x00000000, 0x00000000),
];

// All places in listing order.
static LISTING: [Place; 63] = [
    Place::Value(0),
    Place::Value(1),
    Place::Value(3),
    Place::Value(7),
    Place::Value(15),
    Place::Child(0),
    Place::Child(1),
    Place::Value(16),
    Place::Child(2),
    Place::Child(3),
    Place::Value(8),
    Place::Value(17),
    Place::Child(4),
    Place::Child(5),
    Place::Value(18),
    Place::Child(6),
    Place::Child(7),
    Place::Value(4),
    Place::Value(9),
    Place::Value(19),
    Place::Child(8),
    Place::Child(9),
    Place::Value(20),
    Place::Child(10),
    Place::Child(11),
    Place::Value(10),
    Place::Value(21),
    Place::Child(12),
    Place::Child(13),
    Place::Value(22),
    Place::Child(14),
    Place::Child(15),
    Place::Value(2),
    Place::Value(5),
    Place::Value(11),
    Place::Value(23),
    Place::Child(16),
    Place::Child(17),
    Place::Value(24),
    Place::Child(18),
    Place::Child(19),
    Place::Value(12),
    Place::Value(25),
    Place::Child(20),
    Place::Child(21),
    Place::Value(26),
    Place::Child(22),
    Place::Child(23),
    Place::Value(6),
    Place::Value(13),
    Place::Value(27),
    Place::Child(24),
    Place::Child(25),
    Place::Value(28),
    Place::Child(26),
    Place::Child(27),
    Place::Value(14),
    Place::Value(29),
    Place::Child(28),
    Place::Child(29),
    Place::Value(30),
    Place::Child(30),
    Place::Child(31),
];

// For each heap number: the position in the listing.
static POSITION: [u8; 64] = [
    0, 0, 1, 32, 2, 17, 33, 48, 3, 10, 18, 25, 34, 41, 49, 56, 4, 7, 11, 14, 19, 22, 26, 29, 35,
    38, 42, 45, 50, 53, 57, 60, 5, 6, 8, 9, 12, 13, 15, 16, 20, 21, 23, 24, 27, 28, 30, 31, 36, 37,
    39, 40, 43, 44, 46, 47, 51, 52, 54, 55, 58, 59, 61, 62,
];

// For each value bit: one bit for each position of the listing, except those of the places that the bit's string
// begins.
static NOT_BELOW: [u64; 31] = [
    0x0000000000000000,
    0x7fffffff00000001,
    0x00000000ffffffff,
    0x7ffffffffffe0003,
    0x7fffffff0001ffff,
    0x7fff0001ffffffff,
    0x0000ffffffffffff,
    0x7ffffffffffffc07,
    0x7ffffffffffe03ff,
    0x7ffffffffe03ffff,
    0x7fffffff01ffffff,
    0x7ffffe03ffffffff,
    0x7fff01ffffffffff,
    0x7f01ffffffffffff,
    0x00ffffffffffffff,
    0x7fffffffffffff8f,
    0x7ffffffffffffc7f,
    0x7fffffffffffc7ff,
    0x7ffffffffffe3fff,
    0x7fffffffffc7ffff,
    0x7ffffffffe3fffff,
    0x7fffffffe3ffffff,
    0x7fffffff1fffffff,
    0x7fffffc7ffffffff,
    0x7ffffe3fffffffff,
    0x7fffe3ffffffffff,
    0x7fff1fffffffffff,
    0x7fe3ffffffffffff,
    0x7f1fffffffffffff,
    0x71ffffffffffffff,
    0x0fffffffffffffff,
];
