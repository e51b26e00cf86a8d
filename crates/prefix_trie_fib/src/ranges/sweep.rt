//! The ranges of networks, by one walk in the order of addresses.
ghost use Rattle.std.specs.Prelude.{◌≡◌, ℕ, ◌^◌, ◌≤◌, ◌++◌, ◌∷◌, [], IfOk, MatchOption, None, Option, OnOk};
ghost use Rattle.prefix_trie_bits.specs.Model.Bits.{number};
ghost use Rattle.prefix_trie_fib.specs.Line.{end_of};
ghost use Rattle.prefix_trie_fib.specs.Sweep.{IsDoneTo, IsSweep, with_interval};

use super::Line;
use super::ends::is_within;
use super::merge::add_range;
use super::search::is_at_most;
use prefix_trie_bits::prefix::Key;
use std::alloc::{AllocError, Allocator};

/// The address where an interval ends, or `None` for the end of all addresses, and the value of its addresses.
type Interval<K, T> = (Option<K>, Option<T>);

/// The ranges before an address, and the intervals that reach beyond it.
///
/// A later interval is within those before it.
#[derive(Drop)]
pub(super) struct Sweep<K: Key, T: Copy + PartialEq, A: Allocator> {
    line: Line<K, T, A>,
    at: K,
    outer: Vec<Interval<K, T>, A>,
    inner: Interval<K, T>,
}

impl<K: Key, T: Copy + PartialEq, A: Allocator> Sweep<K, T, A> {
    /// Begins at the address 0. No address has a value yet.
    pub(super) fn new(line: Line<K, T, A>, alloc: A) -> Self
        requires { line ≡ [] }
        ensures nothing { IsSweep K.bit_width K.bits T.PartialEq.eq (λ _. None)
            result.line result.at (result.outer.items ++ result.inner ∷ []) }
        ensures at_zero { number (K.bits result.at) ≡ 0 }
    {
        Sweep {
            line,
            at: K::zero(),
            outer: Vec::new(alloc),
            inner: (None, None),
        }
    }

    /// Adds a network: its first address, the address after its last one, and its value.
    ///
    /// Requires that the networks before it begin there or before.
    pub(super) fn add(&mut self, first: K, past: Option<K>, value: T) -> Result<(), AllocError>
        requires { number (K.bits self.old.at) ≤ number (K.bits first) }
        ensures swept { OnOk result ((of : ℕ → Option T)
            → IsSweep K.bit_width K.bits T.PartialEq.eq of self.old.line self.old.at
            (self.old.outer.items ++ self.old.inner ∷ [])
            → IsSweep K.bit_width K.bits T.PartialEq.eq
            (with_interval (number (K.bits first)) (end_of K.bit_width K.bits past) value of)
            self.new.line self.new.at (self.new.outer.items ++ self.new.inner ∷ [])) }
        ensures there { OnOk result (number (K.bits self.new.at) ≡ number (K.bits first)) }
    {
        self.close_by(Some(first))?;
        self.go_to(first)?;
        self.outer.push(self.inner)?;
        self.inner = (past, Some(value));
        Ok(())
    }

    /// Returns the ranges of all addresses.
    pub(super) fn finish(mut self) -> Result<Line<K, T, A>, AllocError>
        ensures { IfOk result (λ line. (of : ℕ → Option T)
            → IsSweep K.bit_width K.bits T.PartialEq.eq of self.line self.at
            (self.outer.items ++ self.inner ∷ [])
            → IsDoneTo (2 ^ K.bit_width) T.PartialEq.eq of line (2 ^ K.bit_width)) }
    {
        self.close_by(None)?;
        // The proof learns from it that the address is a key.
        let _ = self.at.is_key();
        add_range(&mut self.line, self.at, self.inner.1)?;
        Ok(self.line)
    }

    /// Closes the inner intervals that end by an address, or by the end of all addresses.
    fn close_by(&mut self, to: Option<K>) -> Result<(), AllocError>
        ensures swept { OnOk result ((of : ℕ → Option T)
            → IsSweep K.bit_width K.bits T.PartialEq.eq of self.old.line self.old.at
            (self.old.outer.items ++ self.old.inner ∷ [])
            → IsSweep K.bit_width K.bits T.PartialEq.eq of self.new.line self.new.at
            (self.new.outer.items ++ self.new.inner ∷ [])) }
        ensures not_beyond { OnOk result ((high : ℕ) → number (K.bits self.old.at) ≤ high
            → end_of K.bit_width K.bits to ≤ high → number (K.bits self.new.at) ≤ high) }
        ensures reaches { OnOk result (end_of K.bit_width K.bits to
            ≤ end_of K.bit_width K.bits self.new.inner.0) }
    {
        while let Some(end) = end_by(self.inner.0, to) {
            self.go_to(end)?;
            self.inner = self.outer.pop().unwrap_or((None, None));
        }
        Ok(())
    }

    /// Appends the range of the addresses before `to` that are not done. They have the value of the inner interval.
    fn go_to(&mut self, to: K) -> Result<(), AllocError>
        requires { number (K.bits to) ≤ end_of K.bit_width K.bits self.old.inner.0 }
        ensures swept { OnOk result ((of : ℕ → Option T)
            → IsSweep K.bit_width K.bits T.PartialEq.eq of self.old.line self.old.at
            (self.old.outer.items ++ self.old.inner ∷ [])
            → IsSweep K.bit_width K.bits T.PartialEq.eq of self.new.line self.new.at
            (self.new.outer.items ++ self.new.inner ∷ [])) }
        ensures there { OnOk result (number (K.bits to) ≤ number (K.bits self.new.at)) }
        ensures not_beyond { OnOk result ((high : ℕ) → number (K.bits self.old.at) ≤ high
            → number (K.bits to) ≤ high → number (K.bits self.new.at) ≤ high) }
        ensures same { OnOk result ((self.new.outer.items ≡ self.old.outer.items)
            × (self.new.inner ≡ self.old.inner)) }
    {
        if is_at_most(to, self.at) {
            return Ok(());
        }
        add_range(&mut self.line, self.at, self.inner.1)?;
        self.at = to;
        Ok(())
    }
}

/// Returns where an interval ends, if that is not after an address.
fn end_by<K: Key>(end: Option<K>, to: Option<K>) -> Option<K>
    ensures { MatchOption result (end_of K.bit_width K.bits to ≤ end_of K.bit_width K.bits end)
        (λ last. (end ≡ Some last)
        × (number (K.bits last) ≤ end_of K.bit_width K.bits to)) }
{
    // The proof learns from it that `to` is not after all addresses.
    let _ = is_within(to, end);
    if is_within(end, to) { end } else { None }
}
