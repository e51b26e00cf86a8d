//! What two maps have at a key.

/// What two maps have at a key: a value on the left, on the right, or on both sides.
#[derive(Drop)]
pub enum Side<L, R> {
    /// Only the left map has the key.
    Left(L),
    /// Only the right map has the key.
    Right(R),
    /// Both maps have the key.
    Both(L, R),
}

impl<T, U> Side<T, U> {
    ghost use Rattle.std.specs.Prelude.{◌≡◌};
    ghost use Rattle.prefix_trie_ops.specs.Merging.{sides};

    /// Returns what two maps have at a key, or `None` if neither has a value there.
    #[inline]
    pub(crate) fn of(left: Option<T>, right: Option<U>) -> Option<Self>
        ensures { result ≡ sides left right }
    {
        match (left, right) {
            (Some(left), Some(right)) => Some(Side::Both(left, right)),
            (Some(left), None) => Some(Side::Left(left)),
            (None, Some(right)) => Some(Side::Right(right)),
            (None, None) => None,
        }
    }
}
