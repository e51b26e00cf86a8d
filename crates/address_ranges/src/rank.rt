//! The place of an address among breakpoints.
ghost use Rattle.prefix_trie_bits.specs.Model.Bits.{number};
ghost use Rattle.address_ranges.specs.Breaks.{AreRising, IsRank, numbers};

use crate::order::order;
use prefix_trie_bits::prefix::Key;

/// Returns how many breakpoints are at an address or below it.
pub(crate) fn rank<K: Key>(breaks: &[K], address: K) -> usize
    requires { AreRising (numbers K.bits breaks.now) }
    ensures { IsRank (numbers K.bits breaks.now) (number (K.bits address)) result }
{
    breaks.partition_point(|at| order(*at, address).is_le())
}
