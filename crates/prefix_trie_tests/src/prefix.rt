//! Refusals, a prefix type that replaces provided methods, and a key type that has none.
ghost use Rattle.std.specs.Prelude.{◌-◌, ◌^◌, ◌<◌, ◌≤◌, ◌++◌, length, take, refl};
ghost use Rattle.std.proofs.Common.{lit≤};
ghost use Rattle.prefix_trie_bits.specs.Keys.{number_keys};
ghost use Rattle.prefix_trie_bits.specs.Model.Bits.{number, digits, zeros};

mod own_key;

use prefix_trie::{Key, Prefix, Refusal};

#[test]
fn refusals_have_numbers(rt: HostRuntime) {
    assert!(rt; Refusal::Memory as u8 == 1 && Refusal::IndexRange as u8 == 2);
}

/// A byte and a length, with a mask and a containment test of its own.
#[derive(Clone, Copy, PartialEq, Eq, Debug)]
struct Tag {
    byte: u8,
    len: u8,
}

impl Prefix for Tag {
    type R = u8;

    ghost repr_of = { λ p. p.byte };

    ghost len_of = { λ p. p.len };

    ghost path = { λ p. take p.len (digits 8 p.byte) };

    ghost IsFitting = { λ p. (p.byte < 2 ^ 8) × (p.len ≤ 8) };

    ghost from_parts = { λ r n. record { byte = r; len = n } };

    ghost back = { λ s. record { byte = number (s ++ zeros (8 - length s)); len = length s } };

    ghost prefix_laws = { record {
      keys = number_keys 8 (lit≤ tt) (lit≤ tt);
      fits_is = λ p. (λ h. h, λ h. h);
      path_is = λ p. refl;
      len_from_parts = λ r n k h. refl;
      fits_from_parts = λ r n k h. (k, h);
      path_from_parts = λ r n k h. refl;
      repr_from_parts = λ r n k h z. refl;
      back_is = λ s. refl;
    } };

    fn repr(&self) -> u8 {
        self.byte
    }

    fn prefix_len(&self) -> u8 {
        self.len
    }

    fn from_repr_len(repr: u8, len: u8) -> Self {
        Tag { byte: repr, len }
    }

    fn mask(&self) -> u8 {
        if self.len == 0 {
            0
        } else {
            self.byte & (255 << (8 - self.len))
        }
    }

    fn contains(&self, other: &Self) -> bool {
        self.len <= other.len && self.mask() == other.byte.keep(u32::from(self.len))
    }
}
