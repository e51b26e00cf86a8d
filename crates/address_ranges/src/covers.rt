//! Whether a set has all addresses of a range.
ghost use Rattle.std.specs.Prelude.{◌≡◌, ◌↔◌, ℕ, ◌<◌, ◌≤◌, IsTrue, true};
ghost use Rattle.prefix_trie_bits.specs.Model.Bits.{number};
ghost use Rattle.address_ranges.specs.Appends.{end_of};
ghost use Rattle.address_ranges.specs.Breaks.{AreBreaks, has_address, numbers};
ghost use Rattle.address_ranges.specs.Networks.{break_or_end};

use crate::networks::is_within;
use crate::rank::rank;
use prefix_trie_bits::prefix::Key;

/// Returns whether a set has the addresses from `first` on and before `past`. `None` is the end of all addresses.
pub(crate) fn has_all<K: Key>(breaks: &[K], first: K, past: Option<K>) -> bool
    requires breaks { AreBreaks K.bit_width (numbers K.bits breaks.now) }
    requires some { number (K.bits first) < end_of K.bit_width K.bits past }
    ensures { IsTrue result ↔ ((n : ℕ) → number (K.bits first) ≤ n
        → n < end_of K.bit_width K.bits past → has_address (numbers K.bits breaks.now) n ≡ true) }
{
    let place = rank(breaks, first);
    let end = break_at(breaks, place);
    let ends_by = is_within(past, end);
    place % 2 == 1 && ends_by
}

/// Returns the breakpoint at a place, or `None` after the last one.
fn break_at<K: Key>(breaks: &[K], place: usize) -> Option<K>
    ensures { end_of K.bit_width K.bits result
        ≡ break_or_end K.bit_width (numbers K.bits breaks.now) place }
{
    breaks.get(place).copied()
}
