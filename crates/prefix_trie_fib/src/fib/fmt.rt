//! Debug output of compiled tables.

use crate::fib::Fib;
use prefix_trie_bits::prefix::Prefix;
use std::alloc::Allocator;
use std::fmt::{self, Debug, Formatter, Write};

/// Writes the first address of each range, in order, with the value of the range.
///
/// # Examples
///
/// ```rust
/// // map = {10.0.0.0/8: 1}
/// Fib::new(&map, alloc)?;     // {0: None, 167772160: Some(1), 184549376: None}
/// ```
impl<P: Prefix, T: Copy + PartialEq + Debug, A: Allocator> Debug for Fib<P, T, A> {
    fn fmt<F: Write>(&self, f: &mut Formatter<F>) -> fmt::Result {
        let mut ranges = f.debug_map();
        for i in 0..self.ranges.len() {
            ranges.entry(&self.ranges.start(i), &self.ranges.value(i));
        }
        ranges.finish()
    }
}
