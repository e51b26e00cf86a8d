//! What callers learn about the walks over the prefixes that contain one.
ghost use Rattle.std.specs.Prelude.{◌≡◌, length, nat_le};
ghost use Rattle.std.specs.List.{list_all};
ghost use Rattle.prefix_trie.specs.Terms.{covers, prefix_pairs};

use prefix_trie::laws::walk_laws;
use prefix_trie::{Prefix, PrefixMap};
use std::alloc::Allocator;

// Returns the number of stored prefixes that contain one.
fn count<P: Prefix, T: Drop, A: Allocator>(m: &PrefixMap<P, T, A>, prefix: &P) -> usize
    requires { P.IsFitting prefix.now }
    ensures { result ≡ length (covers m.now.entries (P.path prefix.now)) }
{
    walk_laws::<P, T>();
    m.cover(prefix).count()
}

// Returns whether no value of these prefixes is less than this one.
fn none_below<P: Prefix, A: Allocator>(m: &PrefixMap<P, u32, A>, prefix: &P, least: u32) -> bool
    requires { P.IsFitting prefix.now }
    ensures { result
        ≡ list_all (λ e. nat_le least e.1)
        (prefix_pairs P.back (covers m.now.entries (P.path prefix.now))) }
{
    for (_, value) in m.cover(prefix) {
        if *value < least {
            return false;
        }
    }
    true
}
