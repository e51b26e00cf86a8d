//! Debug output of maps.

use crate::map::PrefixMap;
use prefix_trie_bits::prefix::Prefix;
use std::alloc::Allocator;
use std::fmt::{self, Debug, Formatter, Write};

/// Writes the outermost entries in listing order, each with the entries that it contains nested in it.
///
/// # Examples
///
/// ```rust
/// // map = {10.0.0.0/8: 1, 10.1.0.0/16: 2, 11.0.0.0/8: 3}
/// map;    // {10.0.0.0/8: { value: 1, children: {10.1.0.0/16: { value: 2 }} }, 11.0.0.0/8: { value: 3 }}
/// ```
impl<P: Prefix, T: Debug + Drop, A: Allocator> Debug for PrefixMap<P, T, A> {
    fn fmt<F: Write>(&self, f: &mut Formatter<F>) -> fmt::Result {
        f.write_str("{")?;
        let open = write_entries(self, f)?;
        if let Some(outer) = open.checked_sub(1) {
            close(f, outer)?;
        }
        f.write_str("}")
    }
}

/// Writes the entries, and returns how many of them are still open at the end.
fn write_entries<P: Prefix, T: Debug + Drop, A: Allocator, F: Write>(
    map: &PrefixMap<P, T, A>,
    f: &mut Formatter<F>,
) -> Result<usize, fmt::Error> {
    let mut open = 0;
    for (prefix, value) in map {
        let depth = map.cover_keys(&prefix).count();
        separate(f, open, depth)?;
        write!(f, "{prefix:?}: {{ value: {value:?}")?;
        open = depth;
    }
    Ok(open)
}

/// Writes what separates an entry from the previous one.
///
/// `open` entries are open. The new entry is at `depth`, which is 1 for an outermost one.
fn separate<F: Write>(f: &mut Formatter<F>, open: usize, depth: usize) -> fmt::Result {
    if open < depth {
        return if open == 0 {
            Ok(())
        } else {
            f.write_str(", children: {")
        };
    }
    close(f, open - depth)?;
    f.write_str(", ")
}

/// Closes an entry without children, and `outer` entries around it.
fn close<F: Write>(f: &mut Formatter<F>, outer: usize) -> fmt::Result {
    f.write_str(" }")?;
    for _ in 0..outer {
        f.write_str("} }")?;
    }
    Ok(())
}
