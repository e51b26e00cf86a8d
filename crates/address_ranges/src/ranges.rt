//! The ranges of a set.
ghost use Rattle.std.specs.Prelude.{◌≡◌};
ghost use Rattle.std.specs.Iterator.{YieldsFirstBy, item_count};
ghost use Rattle.prefix_trie_bits.specs.Model.Bits.{number};
ghost use Rattle.address_ranges.specs.Breaks.{AreBreaks, numbers};
ghost use Rattle.address_ranges.specs.Ranges.{ranges_of};

use crate::before::{before, filled};
use prefix_trie_bits::prefix::Key;
use std::marker::Model;

/// The ranges of a set in order: the first and the last address of each.
///
/// The walk does not allocate. After its last range it returns `None` each time.
#[derive(Drop)]
pub struct Ranges<'a, K: Key> {
    breaks: &'a [K],
}

// Contracts see the ranges that are left.
impl<'a, K: Key> Model for Ranges<'a, K> {
    ghost use Rattle.std.specs.Prelude.{List, ℕ};
    ghost use Rattle.address_ranges.specs.Breaks.{AreBreaks, numbers};
    ghost use Rattle.address_ranges.specs.Ranges.{ranges_of};

    ghost Value = { List (ℕ × ℕ) };

    ghost view = { λ walk. ranges_of K.bit_width (numbers K.bits walk.breaks.now) };

    ghost invariant = { λ walk. AreBreaks K.bit_width (numbers K.bits walk.breaks.now) };
}

impl<'a, K: Key> Ranges<'a, K> {
    /// Returns the ranges of the set with these breakpoints.
    pub(crate) fn new(breaks: &'a [K]) -> Self
        requires { AreBreaks K.bit_width (numbers K.bits breaks.now) }
        ensures { result ≡ ranges_of K.bit_width (numbers K.bits breaks.now) }
    {
        Ranges { breaks }
    }
}

impl<'a, K: Key> Iterator for Ranges<'a, K> {
    type Item = (K, K);

    ghost next_gives = { YieldsFirstBy
        (λ r. (number (K.bits r.0), number (K.bits r.1))) (λ walk. walk) };

    ghost remaining = { item_count (λ walk. walk) };

    fn next(&mut self) -> Option<(K, K)> {
        let (first, rest) = self.breaks.split_first()?;
        match rest.split_first() {
            Some((past, others)) => {
                self.breaks = others;
                Some((*first, before(*past)))
            }
            None => {
                self.breaks = rest;
                Some((*first, filled(K::zero(), 0)))
            }
        }
    }
}
