//! A pair of a number and a length as a prefix.
ghost use Rattle.std.specs.Prelude.{◌-◌, ◌≤◌, ◌++◌, length, take, refl};
ghost use Rattle.prefix_trie_bits.specs.Model.Bits.{zeros};

use crate::prefix::{Key, Prefix};

/// The number with its host bits, and the length; a length above the width does not fit.
impl<R: Key> Prefix for (R, u8) {
    type R = R;

    ghost repr_of = { λ p. p.0 };

    ghost len_of = { λ p. p.1 };

    ghost path = { λ p. take p.1 (R.bits p.0) };

    ghost IsFitting = { λ p. R.IsKey p.0 × (p.1 ≤ R.bit_width) };

    ghost from_parts = { λ r n. (r, n) };

    ghost back = { λ s. (R.key_of (s ++ zeros (R.bit_width - length s)), length s) };

    ghost prefix_laws = { record {
      keys = R.key_laws;
      fits_is = λ p. (λ h. h, λ h. h);
      path_is = λ p. refl;
      len_from_parts = λ r n k h. refl;
      fits_from_parts = λ r n k h. (k, h);
      path_from_parts = λ r n k h. refl;
      repr_from_parts = λ r n k h z. refl;
      back_is = λ s. refl;
    } };

    #[inline]
    fn repr(&self) -> R {
        self.0
    }

    #[inline]
    fn prefix_len(&self) -> u8 {
        self.1
    }

    #[inline]
    fn from_repr_len(repr: R, len: u8) -> (R, u8) {
        (repr, len)
    }
}
