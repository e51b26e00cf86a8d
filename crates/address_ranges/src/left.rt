//! The addresses that a walk has left.
ghost use Rattle.std.specs.Prelude.{◌≡◌, ℕ, ◌<◌, ◌∷◌, ◌&&◌, [], MatchOption, drop, length, nat_le, not, slice_index};
ghost use Rattle.prefix_trie_bits.specs.Model.Bits.{number};
ghost use Rattle.address_ranges.specs.Appends.{end_of};
ghost use Rattle.address_ranges.specs.Breaks.{AreBreaks, has_address, numbers};
ghost use Rattle.address_ranges.specs.Networks.{break_or_end};

use crate::rank::rank;
use crate::toggle::starts_at_zero;
use prefix_trie_bits::prefix::Key;
use std::marker::Model;

/// The addresses that a walk has left, as breakpoints.
#[derive(Drop)]
pub(crate) struct Left<'a, K: Key> {
    first: Option<K>,
    rest: &'a [K],
}

// Contracts see the breakpoints. Without a first one there are none.
impl<'a, K: Key> Model for Left<'a, K> {
    ghost use Rattle.std.specs.Prelude.{List, ℕ};
    ghost use Rattle.address_ranges.specs.Breaks.{AreBreaks};
    ghost use Rattle.address_ranges.specs.Walks.{breaks_left};

    ghost Value = { List ℕ };

    ghost view = { λ left. breaks_left K.bits left.first left.rest.now };

    ghost invariant = { λ left. AreBreaks K.bit_width (breaks_left K.bits left.first left.rest.now) };
}

impl<'a, K: Key> Left<'a, K> {
    /// Returns the addresses of a set.
    pub(crate) fn of_set(breaks: &'a [K]) -> Self
        requires { AreBreaks K.bit_width (numbers K.bits breaks.now) }
        ensures { result ≡ numbers K.bits breaks.now }
    {
        match breaks.split_first() {
            Some((first, rest)) => Left {
                first: Some(*first),
                rest,
            },
            None => Left {
                first: None,
                rest: breaks,
            },
        }
    }

    /// Returns the addresses that a set does not have.
    pub(crate) fn of_complement(breaks: &'a [K]) -> Self
        requires { AreBreaks K.bit_width (numbers K.bits breaks.now) }
        ensures breaks { AreBreaks K.bit_width result }
        ensures others { (n : ℕ) → has_address result n
            ≡ not (has_address (numbers K.bits breaks.now) n) }
    {
        if starts_at_zero(breaks) {
            Left::of_set(&breaks[1..])
        } else {
            Left {
                first: Some(K::zero()),
                rest: breaks,
            }
        }
    }

    /// Returns the addresses from one on that a set does not have.
    pub(crate) fn of_complement_from(breaks: &'a [K], from: K) -> Self
        requires { AreBreaks K.bit_width (numbers K.bits breaks.now) }
        ensures breaks { AreBreaks K.bit_width result }
        ensures others { (n : ℕ) → has_address result n
            ≡ (not (has_address (numbers K.bits breaks.now) n)
            && nat_le (number (K.bits from)) n) }
    {
        // The proof learns from it that the number is a key.
        let _ = from.is_key();
        let place = rank(breaks, from);
        let rest = &breaks[place..];
        if place % 2 == 1 {
            Left::of_set(rest)
        } else {
            Left {
                first: Some(from),
                rest,
            }
        }
    }

    /// Returns the first address of the first range, and the address after its last one if there is one.
    pub(crate) fn range(&self) -> Option<(K, Option<K>)>
        ensures { MatchOption result (self.now ≡ [])
            (λ r. (0 < length self.now) × (number (K.bits r.0) ≡ slice_index self.now 0)
            × (end_of K.bit_width K.bits r.1 ≡ break_or_end K.bit_width self.now 1)) }
    {
        let first = self.first?;
        Some((first, self.rest.first().copied()))
    }

    /// Lets the first range begin at another address. Without one, removes the range.
    pub(crate) fn go_on(&mut self, next: Option<K>)
        requires some { 0 < length self.old }
        requires breaks { MatchOption next (AreBreaks K.bit_width (drop 2 self.old))
            (λ k. AreBreaks K.bit_width (number (K.bits k) ∷ drop 1 self.old)) }
        ensures { MatchOption next (self.new ≡ drop 2 self.old)
            (λ k. self.new ≡ number (K.bits k) ∷ drop 1 self.old) }
    {
        match next {
            Some(next) => self.first = Some(next),
            None => *self = Left::of_set(after_first(self.rest)),
        }
    }
}

/// Returns a list without its first item.
fn after_first<K: Key>(keys: &[K]) -> &[K]
    ensures { result.now ≡ drop 1 keys.now }
{
    match keys.split_first() {
        Some((_, rest)) => rest,
        None => keys,
    }
}
