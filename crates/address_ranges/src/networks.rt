//! The fewest networks that cover the addresses of a set.
ghost use Rattle.std.specs.Prelude.{◌≡◌, ◌+◌, ◌<◌, length};
ghost use Rattle.std.specs.Iterator.{at_most};
ghost use Rattle.address_ranges.specs.Appends.{end_of};
ghost use Rattle.address_ranges.specs.Breaks.{AreBreaks, numbers};
ghost use Rattle.address_ranges.specs.Networks.{break_or_end};
ghost use Rattle.address_ranges.specs.Walks.{IsBare, ReturnsNetwork, most_left};

mod blocks;
mod of_length;

use crate::left::Left;
use blocks::{largest_at, rest_after};
pub(crate) use blocks::{is_within, past_of};
pub use of_length::NetworksOfLength;
use prefix_trie_bits::prefix::{Key, Prefix};
use std::marker::{Model, PhantomData};

/// The fewest networks that cover the addresses of a set, in order.
///
/// The walk does not allocate. After its last network it returns `None` each time. `network_laws` says what all its
/// networks are.
#[derive(Drop)]
pub struct Networks<'a, P: Prefix> {
    left: Left<'a, P::R>,
    // where the search for the next length begins
    len: u32,
    marker: PhantomData<P>,
}

// Contracts see the addresses that are left, as breakpoints.
impl<'a, P: Prefix> Model for Networks<'a, P> {
    ghost use Rattle.std.specs.Prelude.{List, ℕ, ◌≤◌};
    ghost use Rattle.address_ranges.specs.Breaks.{AreBreaks};

    ghost Value = { List ℕ };

    ghost view = { λ walk. walk.left };

    ghost invariant = { λ walk. (walk.len ≤ P.R.bit_width) × AreBreaks P.R.bit_width walk.left };
}

impl<'a, P: Prefix> Networks<'a, P> {
    /// Returns the networks of the set with these breakpoints.
    pub(crate) fn new(breaks: &'a [P::R]) -> Self
        requires { AreBreaks P.R.bit_width (numbers P.R.bits breaks.now) }
        ensures { result ≡ numbers P.R.bits breaks.now }
    {
        Networks {
            left: Left::of_set(breaks),
            len: P::R::width(),
            marker: PhantomData,
        }
    }
}

impl<'a, P: Prefix> Iterator for Networks<'a, P> {
    type Item = P;

    ghost next_gives = { ReturnsNetwork P.R.bit_width (IsBare P.IsFitting P.back P.path) P.path };

    ghost remaining = { λ walk. at_most (most_left P.R.bit_width walk) };

    fn next(&mut self) -> Option<P> {
        let (at, past) = self.left.range()?;
        // The proof learns from it that the number is a key.
        let _ = at.is_key();
        let len = largest_at(at, past, self.len);
        self.len = len;
        self.left.go_on(rest_after(at, len, past));
        Some(P::from_repr_len(at, len as u8))
    }
}

/// Returns the breakpoint after another one, or `None` after the last one.
pub(crate) fn break_after<K: Key>(breaks: &[K], i: usize) -> Option<K>
    requires { i < length breaks.now }
    ensures { end_of K.bit_width K.bits result
        ≡ break_or_end K.bit_width (numbers K.bits breaks.now) (i + 1) }
{
    breaks.get(i + 1).copied()
}
