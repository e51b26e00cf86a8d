//! Number types as keys: every number is one.
ghost use Rattle.std.specs.Prelude.{◌^◌, ◌<◌, ◌≤◌};
ghost use Rattle.std.proofs.Common.{lit≤, eqb-true};
ghost use Rattle.prefix_trie_bits.specs.Keys.{number_keys};
ghost use Rattle.prefix_trie_bits.specs.Model.Bits.{number, digits};

use crate::digits::{
    extend_of, keep_of, short_extend_of, short_keep_of, short_window_of, window_of,
};
use crate::prefix::Key;
use crate::wide_digits;
use std::cmp::Ordering;

impl Key for u8 {
    ghost bit_width = { 8 };

    ghost IsKey = { λ k. k < 2 ^ 8 };

    ghost bits = { digits 8 };

    ghost key_of = { number };

    ghost key_laws = { number_keys 8 (lit≤ tt) (lit≤ tt) };

    ghost same_if_equal = { eqb-true };

    #[inline]
    fn width() -> u32 {
        8
    }

    #[inline]
    #[tactic(auto, using(crate::specs::BitStrings::zero_bits))]
    fn zero() -> u8 {
        0
    }

    #[inline]
    fn is_key(self) -> bool {
        true
    }

    #[inline]
    fn window(self, depth: u32, n: u32) -> u32 {
        short_window_of(u32::from(self), 8, depth, n)
    }

    #[inline]
    fn keep(self, len: u32) -> u8 {
        short_keep_of(u32::from(self), 8, len) as u8
    }

    #[inline]
    fn extend(self, depth: u32, n: u32, tail: u32) -> u8 {
        short_extend_of(u32::from(self), 8, depth, n, tail) as u8
    }

    #[inline]
    #[tactic(auto, using(crate::specs::BitStrings::digits_behind, crate::specs::BitStrings::behind_all))]
    fn behind(self, n: u32) -> u8 {
        // no shift is as wide as the number
        if n < 8 { self << n } else { 0 }
    }

    #[inline]
    #[tactic(auto, using(crate::specs::BitStrings::number_of_digits))]
    fn plus(self, other: u8) -> Option<u8> {
        self.checked_add(other)
    }

    #[inline]
    #[tactic(auto, using(crate::specs::Comparing::ordered_as_numbers))]
    fn compare(self, other: u8) -> Ordering {
        self.cmp(&other)
    }
}

impl Key for u16 {
    ghost bit_width = { 16 };

    ghost IsKey = { λ k. k < 2 ^ 16 };

    ghost bits = { digits 16 };

    ghost key_of = { number };

    ghost key_laws = { number_keys 16 (lit≤ tt) (lit≤ tt) };

    ghost same_if_equal = { eqb-true };

    #[inline]
    fn width() -> u32 {
        16
    }

    #[inline]
    #[tactic(auto, using(crate::specs::BitStrings::zero_bits))]
    fn zero() -> u16 {
        0
    }

    #[inline]
    fn is_key(self) -> bool {
        true
    }

    #[inline]
    fn window(self, depth: u32, n: u32) -> u32 {
        short_window_of(u32::from(self), 16, depth, n)
    }

    #[inline]
    fn keep(self, len: u32) -> u16 {
        short_keep_of(u32::from(self), 16, len) as u16
    }

    #[inline]
    fn extend(self, depth: u32, n: u32, tail: u32) -> u16 {
        short_extend_of(u32::from(self), 16, depth, n, tail) as u16
    }

    #[inline]
    #[tactic(auto, using(crate::specs::BitStrings::digits_behind, crate::specs::BitStrings::behind_all))]
    fn behind(self, n: u32) -> u16 {
        // no shift is as wide as the number
        if n < 16 { self << n } else { 0 }
    }

    #[inline]
    #[tactic(auto, using(crate::specs::BitStrings::number_of_digits))]
    fn plus(self, other: u16) -> Option<u16> {
        self.checked_add(other)
    }

    #[inline]
    #[tactic(auto, using(crate::specs::Comparing::ordered_as_numbers))]
    fn compare(self, other: u16) -> Ordering {
        self.cmp(&other)
    }
}

impl Key for u32 {
    ghost bit_width = { 32 };

    ghost IsKey = { λ k. k < 2 ^ 32 };

    ghost bits = { digits 32 };

    ghost key_of = { number };

    ghost key_laws = { number_keys 32 (lit≤ tt) (lit≤ tt) };

    ghost same_if_equal = { eqb-true };

    #[inline]
    fn width() -> u32 {
        32
    }

    #[inline]
    #[tactic(auto, using(crate::specs::BitStrings::zero_bits))]
    fn zero() -> u32 {
        0
    }

    #[inline]
    fn is_key(self) -> bool {
        true
    }

    #[inline]
    fn window(self, depth: u32, n: u32) -> u32 {
        short_window_of(self, 32, depth, n)
    }

    #[inline]
    fn keep(self, len: u32) -> u32 {
        short_keep_of(self, 32, len)
    }

    #[inline]
    fn extend(self, depth: u32, n: u32, tail: u32) -> u32 {
        short_extend_of(self, 32, depth, n, tail)
    }

    #[inline]
    #[tactic(auto, using(crate::specs::BitStrings::digits_behind, crate::specs::BitStrings::behind_all))]
    fn behind(self, n: u32) -> u32 {
        // no shift is as wide as the number
        if n < 32 { self << n } else { 0 }
    }

    #[inline]
    #[tactic(auto, using(crate::specs::BitStrings::number_of_digits))]
    fn plus(self, other: u32) -> Option<u32> {
        self.checked_add(other)
    }

    #[inline]
    #[tactic(auto, using(crate::specs::Comparing::ordered_as_numbers))]
    fn compare(self, other: u32) -> Ordering {
        self.cmp(&other)
    }
}

impl Key for u64 {
    ghost bit_width = { 64 };

    ghost IsKey = { λ k. k < 2 ^ 64 };

    ghost bits = { digits 64 };

    ghost key_of = { number };

    ghost key_laws = { number_keys 64 (lit≤ tt) (lit≤ tt) };

    ghost same_if_equal = { eqb-true };

    #[inline]
    fn width() -> u32 {
        64
    }

    #[inline]
    #[tactic(auto, using(crate::specs::BitStrings::zero_bits))]
    fn zero() -> u64 {
        0
    }

    #[inline]
    fn is_key(self) -> bool {
        true
    }

    #[inline]
    fn window(self, depth: u32, n: u32) -> u32 {
        window_of(self, 64, depth, n)
    }

    #[inline]
    fn keep(self, len: u32) -> u64 {
        keep_of(self, 64, len)
    }

    #[inline]
    fn extend(self, depth: u32, n: u32, tail: u32) -> u64 {
        extend_of(self, 64, depth, n, tail)
    }

    #[inline]
    #[tactic(auto, using(crate::specs::BitStrings::digits_behind, crate::specs::BitStrings::behind_all))]
    fn behind(self, n: u32) -> u64 {
        // no shift is as wide as the number
        if n < 64 { self << n } else { 0 }
    }

    #[inline]
    #[tactic(auto, using(crate::specs::BitStrings::number_of_digits))]
    fn plus(self, other: u64) -> Option<u64> {
        self.checked_add(other)
    }

    #[inline]
    #[tactic(auto, using(crate::specs::Comparing::ordered_as_numbers))]
    fn compare(self, other: u64) -> Ordering {
        self.cmp(&other)
    }
}

impl Key for usize {
    ghost bit_width = { 64 };

    ghost IsKey = { λ k. k < 2 ^ 64 };

    ghost bits = { digits 64 };

    ghost key_of = { number };

    ghost key_laws = { number_keys 64 (lit≤ tt) (lit≤ tt) };

    ghost same_if_equal = { eqb-true };

    #[inline]
    fn width() -> u32 {
        64
    }

    #[inline]
    #[tactic(auto, using(crate::specs::BitStrings::zero_bits))]
    fn zero() -> usize {
        0
    }

    #[inline]
    fn is_key(self) -> bool {
        true
    }

    #[inline]
    fn window(self, depth: u32, n: u32) -> u32 {
        window_of(self as u64, 64, depth, n)
    }

    #[inline]
    fn keep(self, len: u32) -> usize {
        keep_of(self as u64, 64, len) as usize
    }

    #[inline]
    fn extend(self, depth: u32, n: u32, tail: u32) -> usize {
        extend_of(self as u64, 64, depth, n, tail) as usize
    }

    #[inline]
    #[tactic(auto, using(crate::specs::BitStrings::digits_behind, crate::specs::BitStrings::behind_all))]
    fn behind(self, n: u32) -> usize {
        // no shift is as wide as the number
        if n < 64 { self << n } else { 0 }
    }

    #[inline]
    #[tactic(auto, using(crate::specs::BitStrings::number_of_digits))]
    fn plus(self, other: usize) -> Option<usize> {
        self.checked_add(other)
    }

    #[inline]
    #[tactic(auto, using(crate::specs::Comparing::ordered_as_numbers))]
    fn compare(self, other: usize) -> Ordering {
        self.cmp(&other)
    }
}

impl Key for u128 {
    ghost bit_width = { 128 };

    ghost IsKey = { λ k. k < 2 ^ 128 };

    ghost bits = { digits 128 };

    ghost key_of = { number };

    ghost key_laws = { number_keys 128 (lit≤ tt) (lit≤ tt) };

    ghost same_if_equal = { eqb-true };

    #[inline]
    fn width() -> u32 {
        128
    }

    #[inline]
    #[tactic(auto, using(crate::specs::BitStrings::zero_bits))]
    fn zero() -> u128 {
        0
    }

    #[inline]
    fn is_key(self) -> bool {
        true
    }

    #[inline]
    fn window(self, depth: u32, n: u32) -> u32 {
        wide_digits::window_of(self, 128, depth, n)
    }

    #[inline]
    fn keep(self, len: u32) -> u128 {
        wide_digits::keep_of(self, 128, len)
    }

    #[inline]
    fn extend(self, depth: u32, n: u32, tail: u32) -> u128 {
        wide_digits::extend_of(self, 128, depth, n, tail)
    }

    #[inline]
    #[tactic(auto, using(crate::specs::BitStrings::digits_behind, crate::specs::BitStrings::behind_all))]
    fn behind(self, n: u32) -> u128 {
        // no shift is as wide as the number
        if n < 128 { self << n } else { 0 }
    }

    #[inline]
    #[tactic(auto, using(crate::specs::BitStrings::number_of_digits))]
    fn plus(self, other: u128) -> Option<u128> {
        self.checked_add(other)
    }

    #[inline]
    #[tactic(auto, using(crate::specs::Comparing::ordered_as_numbers))]
    fn compare(self, other: u128) -> Ordering {
        self.cmp(&other)
    }
}
