//! The number of networks that two tables share.
ghost use Rattle.std.specs.Prelude.{◌≡◌, length};
ghost use Rattle.prefix_trie.specs.Terms.{listing};
ghost use Rattle.prefix_trie_ops.specs.Combining.{common};

use prefix_trie::{Prefix, PrefixMap};
use prefix_trie_ops::laws::combined_walk_laws;
use prefix_trie_ops::map::intersection;
use std::alloc::Allocator;

/// Returns the number of networks that both tables have.
pub fn shared<P: Prefix, T: Drop, U: Drop, A: Allocator, B: Allocator>(
    left: &PrefixMap<P, T, A>,
    right: &PrefixMap<P, U, B>,
) -> usize
    ensures { result ≡ length (listing (common left.now.entries right.now.entries)) }
{
    combined_walk_laws::<P, T, U>();
    intersection(left, right).count()
}
