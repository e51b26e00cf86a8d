//! Loans of the value behind a pointer.
ghost use Rattle.std.specs.Prelude.{◌≡◌};
ghost use types.Logic.{sem};
ghost use Rattle.prefix_trie_c.specs.Lent.{loose_follows};

use crate::loose::Loose;
use std::alloc::Allocator;

impl<T, A: Allocator> Loose<T, A> {
    /// Lends the value. It stays in its place.
    #[inline(always)]
    pub(crate) fn as_mut(&mut self) -> &mut T
        ensures* writes_back { sem 𝓛 (loose_follows T.row A.row A.Allocator self.entry result) }
        ensures value { result.now ≡ self.old.value }
    {
        let at = self.at;
        unsafe { &mut *at }
    }
}
