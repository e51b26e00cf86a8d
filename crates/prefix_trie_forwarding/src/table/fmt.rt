//! Debug output of tables.

use crate::table::ForwardingTable;
use prefix_trie_bits::prefix::Prefix;
use std::alloc::Allocator;
use std::fmt::{self, Debug, Formatter, Write};

/// Writes the networks with their hops, as the map of the networks does.
///
/// # Examples
///
/// ```rust
/// // table = {10.0.0.0/8: 1}
/// table;  // {10.0.0.0/8: { value: Hop { number: 1 } }}
/// ```
impl<P: Prefix, A: Allocator> Debug for ForwardingTable<P, A> {
    fn fmt<F: Write>(&self, f: &mut Formatter<F>) -> fmt::Result {
        self.map.fmt(f)
    }
}
