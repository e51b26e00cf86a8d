//! Where the value of a bit string is stored, or where its search path ends.
ghost use Rattle.std.specs.Prelude.{◌≡◌, ◌<◌};
ghost use Rattle.prefix_trie_table.specs.Locations.{value_seat as seat_of_value};

use crate::allocator::node::Node;
use crate::table::lookup::Reached;
use prefix_trie_bits::node::rank;
use prefix_trie_bits::prefix::{BitString, Key};

/// Where a value is stored: the slot of its cell.
///
/// It is right until the table changes.
#[derive(Clone, Copy)]
pub struct Seat {
    pub(super) slot: usize,
}

/// The deepest node on the search path of a bit string that has no value, as it was read, and the bits of the string
/// that are left there.
///
/// It is right until the table changes.
#[derive(Drop)]
pub struct SearchEnd<K: Key> {
    pub(super) reached: Reached,
    pub(super) rest: BitString<K>,
}

/// Where the value of a bit string is stored, or where its search path ends.
#[derive(Drop)]
pub enum Location<K: Key> {
    /// The value is stored here.
    Stored(Seat),
    /// No value is stored, and the search path ends here.
    Missing(SearchEnd<K>),
}

impl Node {
    /// Returns the seat of the value at a bit.
    #[inline]
    pub fn value_seat(self, bit: u32) -> Seat
        requires { bit < 32 }
        ensures { result ≡ seat_of_value self bit }
    {
        Seat {
            slot: self.value_block as usize + rank(self.value_bitmap, bit) as usize,
        }
    }
}
