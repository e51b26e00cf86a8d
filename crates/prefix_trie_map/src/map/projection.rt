//! The keys of a walk.
ghost use Rattle.std.specs.Prelude.{◌≡◌, List, length};
ghost use Rattle.std.specs.Iterator.{at_most};
ghost use Rattle.std.specs.Map.Iter.{TakesFirst};

use std::marker::Model;

/// A walk whose items have keys.
pub trait Keyed: Drop {
    type Key: Drop;

    // the keys of the items still to come
    ghost keys: { Self → List Self.Key };

    /// Returns the next key. The rest of the item is dropped.
    fn next_key(&mut self) -> Option<Self::Key>
        ensures { TakesFirst (λ p. p) (keys self.old) result (keys self.new) };
}

/// The keys of a walk, in its order. Contracts see the list of the keys still to come.
#[derive(Drop)]
pub struct KeysOf<I: Keyed> {
    pub(super) inner: I,
}

impl<I: Keyed> Model for KeysOf<I> {
    ghost use Rattle.std.specs.Prelude.{List};

    ghost Value = { List I.Key };

    ghost view = { λ it. I.keys it.inner };
}

impl<I: Keyed> KeysOf<I> {
    /// Returns the keys that a walk has still to give.
    ///
    /// # Examples
    ///
    /// ```rust
    /// // map = {10.0.0.0/8: 1, 10.1.0.0/16: 2}
    /// KeysOf::new(map.cover(&"10.1.2.3/32".parse()?));        // [10.0.0.0/8, 10.1.0.0/16]
    /// ```
    #[inline]
    pub fn new(inner: I) -> Self
        ensures { result ≡ I.keys inner }
    {
        KeysOf { inner }
    }
}

impl<I: Keyed> Iterator for KeysOf<I> {
    type Item = I::Key;

    ghost next_gives = { TakesFirst (λ p. p) };

    ghost remaining = { λ items. at_most (length items) };

    #[inline]
    fn next(&mut self) -> Option<I::Key> {
        self.inner.next_key()
    }
}
