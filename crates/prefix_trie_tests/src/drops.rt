//! Values that count their drops.
use std::cell::Cell;

/// A value that counts its own drop and the drops of its clones.
#[derive(Clone)]
pub struct Counted<'a> {
    pub drops: &'a Cell<u64>,
}

impl Drop for Counted<'_> {
    fn drop(self) {
        let Counted { drops } = self;
        drops.set(drops.get().wrapping_add(1));
    }
}

/// Drops a value.
pub fn drop_now<V: Drop>(_value: V) {}
