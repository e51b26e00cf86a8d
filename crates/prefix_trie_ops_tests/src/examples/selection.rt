//! The routes of a table that are at least so long.
ghost use Rattle.std.specs.Prelude.{◌≡◌, filter, length, nat_le};
ghost use Rattle.prefix_trie.specs.Terms.{listing, prefix_pairs};

use prefix_trie::laws::{listed_laws, path_laws};
use prefix_trie::{Prefix, PrefixMap};
use prefix_trie_ops::select::{PathTest, Selected};
use std::alloc::Allocator;

/// Passes the prefixes that are at least so long.
#[derive(Drop)]
pub struct AtLeast {
    len: u8,
}

impl<P: Prefix> PathTest<P> for AtLeast {
    ghost use Rattle.std.specs.Prelude.{length, nat_le};

    ghost outcome = { λ t s. nat_le t.len (length s) };

    fn passes(&mut self, prefix: &P) -> bool {
        path_laws::<P>();
        self.len <= prefix.prefix_len()
    }
}

/// Returns a walk over the routes that are at least so long, in listing order.
pub fn at_least<P: Prefix, T: Drop, A: Allocator>(
    table: &PrefixMap<P, T, A>,
    len: u8,
) -> Selected<'_, P, T, A, AtLeast>
    ensures { result
        ≡ filter (λ e. nat_le len (length (P.path e.0)))
        (prefix_pairs P.back (listing table.now.entries)) }
{
    listed_laws::<P, T>();
    Selected::new(table.iter(), AtLeast { len })
}
