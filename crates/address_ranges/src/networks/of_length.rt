//! The networks of one length.
ghost use Rattle.std.specs.Prelude.{◌≡◌, ◌<◌, ◌≤◌, [], take, MatchOption};
ghost use Rattle.std.specs.Iterator.{at_most};
ghost use Rattle.prefix_trie_bits.specs.Model.Bits.{number};
ghost use Rattle.address_ranges.specs.Breaks.{AreBreaks};
ghost use Rattle.address_ranges.specs.Networks.{first_address};
ghost use Rattle.address_ranges.specs.Walks.{HasNoneOfLength, IsBare, ReturnsFirst, ReturnsNetworkOfLength, most_left};

use super::blocks::{first_block, rest_after};
use crate::left::Left;
use prefix_trie_bits::prefix::{Key, Prefix};
use std::marker::{Model, PhantomData};

/// The networks of one length whose addresses are all in a set, in order.
///
/// The walk does not allocate. After its last network it returns `None` each time. `network_laws` says what all its
/// networks are.
#[derive(Drop)]
pub struct NetworksOfLength<'a, P: Prefix> {
    left: Left<'a, P::R>,
    len: u8,
    marker: PhantomData<P>,
}

// Contracts see the length, and the addresses that are left as breakpoints.
impl<'a, P: Prefix> Model for NetworksOfLength<'a, P> {
    ghost use Rattle.std.specs.Prelude.{List, ℕ, ◌≤◌};
    ghost use Rattle.address_ranges.specs.Breaks.{AreBreaks};

    ghost Value = { ℕ × List ℕ };

    ghost view = { λ walk. (walk.len, walk.left) };

    ghost invariant = { λ walk. (walk.len ≤ P.R.bit_width) × AreBreaks P.R.bit_width walk.left };
}

impl<'a, P: Prefix> NetworksOfLength<'a, P> {
    /// Returns the networks of a length of these addresses.
    pub(crate) fn new(left: Left<'a, P::R>, len: u8) -> Self
        requires within { len ≤ P.R.bit_width }
        requires breaks { AreBreaks P.R.bit_width left }
        ensures { result ≡ (len, left.entry) }
    {
        NetworksOfLength {
            left,
            len,
            marker: PhantomData,
        }
    }
}

impl<'a, P: Prefix> Iterator for NetworksOfLength<'a, P> {
    type Item = P;

    ghost next_gives = { ReturnsNetworkOfLength P.R.bit_width (IsBare P.IsFitting P.back P.path) P.path };

    ghost remaining = { λ walk. at_most (most_left P.R.bit_width walk.1) };

    fn next(&mut self) -> Option<P> {
        let first = take_block(&mut self.left, u32::from(self.len))?;
        Some(P::from_repr_len(first, self.len))
    }
}

/// Returns the first address of the first network of a length that is left, and removes the addresses up to its last one.
fn take_block<K: Key>(left: &mut Left<'_, K>, len: u32) -> Option<K>
    requires within { len ≤ K.bit_width }
    requires breaks { AreBreaks K.bit_width left.old }
    ensures returns { MatchOption result
        (HasNoneOfLength K.bit_width len left.old × (left.new ≡ []))
        (λ k. K.IsKey k
        × (first_address K.bit_width (take len (K.bits k)) ≡ number (K.bits k))
        × ReturnsFirst K.bit_width len left.old (take len (K.bits k)) left.new
        × (most_left K.bit_width left.new < most_left K.bit_width left.old)) }
    ensures breaks { AreBreaks K.bit_width left.new }
{
    while let Some(ends) = left.range() {
        if let Some(first) = first_block(ends.0, len, ends.1) {
            left.go_on(rest_after(first, len, ends.1));
            return Some(first);
        }
        left.go_on(None);
    }
    None
}
