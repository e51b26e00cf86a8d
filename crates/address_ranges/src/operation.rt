//! Operations on two sets, by whether the result has an address that each of the sets has or does not have.
ghost use Rattle.std.specs.Prelude.{◌≡◌, ◌&&◌, ◌||◌, Bool, false, not, refl};

/// An operation on sets of addresses.
pub(crate) trait Operation {
    // whether the result has an address
    ghost keeps: { Bool → Bool → Bool };

    /// Returns whether the result has an address, by whether the left and the right set have it.
    fn keeps(left: bool, right: bool) -> bool
        ensures { result ≡ keeps left right };

    // an address that neither set has is not in the result
    ghost keeps_none: { keeps false false ≡ false };
}

/// The addresses of either set.
pub(crate) struct Union;

/// The addresses of both sets.
pub(crate) struct Intersection;

/// The addresses of the left set that the right one does not have.
pub(crate) struct Difference;

/// The addresses of exactly one of the sets.
pub(crate) struct SymmetricDifference;

impl Operation for Union {
    ghost keeps = { λ left right. left || right };

    ghost keeps_none = { refl };

    #[inline(always)]
    fn keeps(left: bool, right: bool) -> bool {
        left || right
    }
}

impl Operation for Intersection {
    ghost keeps = { λ left right. left && right };

    ghost keeps_none = { refl };

    #[inline(always)]
    fn keeps(left: bool, right: bool) -> bool {
        left && right
    }
}

impl Operation for Difference {
    ghost keeps = { λ left right. left && not right };

    ghost keeps_none = { refl };

    #[inline(always)]
    fn keeps(left: bool, right: bool) -> bool {
        left && !right
    }
}

impl Operation for SymmetricDifference {
    ghost keeps = { λ left right. (left && not right) || (not left && right) };

    ghost keeps_none = { refl };

    #[inline(always)]
    #[tactic(auto, using(crate::proofs::Breaks::differ))]
    fn keeps(left: bool, right: bool) -> bool {
        left != right
    }
}
