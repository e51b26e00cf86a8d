//! A key type of a user's own, which implements only the required methods.
ghost use Rattle.std.specs.Prelude.{ℕ, ◌^◌, ◌<◌};
ghost use Rattle.std.proofs.Common.{lit≤, eqb-true};
ghost use Rattle.prefix_trie_bits.specs.Keys.{number_keys};
ghost use Rattle.prefix_trie_bits.specs.Model.Bits.{number, digits};

use prefix_trie::Key;
use std::marker::Model;

/// A key of eight bits.
#[derive(Clone, Copy, PartialEq, Eq, Debug)]
struct Octet {
    byte: u8,
}

// A contract sees the byte.
impl Model for Octet {
    ghost Value = { ℕ };

    ghost view = { λ a. a.byte };

    ghost inverse = { λ n. record { byte = n } };
}

impl Key for Octet {
    ghost bit_width = { 8 };

    ghost IsKey = { λ k. k < 2 ^ 8 };

    ghost bits = { digits 8 };

    ghost key_of = { number };

    ghost key_laws = { number_keys 8 (lit≤ tt) (lit≤ tt) };

    ghost same_if_equal = { eqb-true };

    fn width() -> u32 {
        8
    }

    fn zero() -> Self {
        Octet { byte: u8::zero() }
    }

    fn is_key(self) -> bool {
        self.byte.is_key()
    }

    fn window(self, depth: u32, n: u32) -> u32 {
        self.byte.window(depth, n)
    }

    fn keep(self, len: u32) -> Self {
        let byte = self.byte.keep(len);
        Octet { byte }
    }

    fn extend(self, depth: u32, n: u32, tail: u32) -> Self {
        let byte = self.byte.extend(depth, n, tail);
        Octet { byte }
    }

    fn plus(self, other: Self) -> Option<Self> {
        let byte = self.byte.plus(other.byte)?;
        Some(Octet { byte })
    }
}
