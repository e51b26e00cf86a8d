//! The networks of either of two joint maps, each with its longest match in both.
ghost use Rattle.std.specs.Prelude.{◌≡◌, ◌+◌, ◌≤◌, length, map};
ghost use Rattle.std.specs.FinMap.{len};
ghost use Rattle.std.specs.Iterator.{at_most};
ghost use Rattle.std.specs.Map.Iter.{TakesFirst};
ghost use Rattle.prefix_trie.specs.Terms.{listing, prefix_pairs};
ghost use Rattle.prefix_trie_ops.specs.CoveringUnion.{lent_matches, with_matches};
ghost use Rattle.prefix_trie_ops.specs.Merging.{union_of};
ghost use Rattle.prefix_trie_joint.specs.Joined.{entries_of};
ghost use Rattle.prefix_trie_joint.specs.Networks.{ip_back, ip_path};

use crate::map::walks::{UnionWalk, union};
use prefix_trie_joint::{IpPrefix, JointPrefixMap};
use std::alloc::Allocator;
use std::marker::Model;

/// The networks of either of two maps, each with its longest match in both.
///
/// IPv4 networks come first, then IPv6 networks, each in listing order. The walk does not allocate. After its last item
/// it returns `None` each time.
#[derive(Drop)]
pub struct CoveringUnionWalk<'a, T: Drop, U: Drop, A: Allocator, B: Allocator> {
    left: &'a JointPrefixMap<T, A>,
    right: &'a JointPrefixMap<U, B>,
    keys: UnionWalk<'a, T, U, A, B>,
}

impl<'a, T: Drop, U: Drop, A: Allocator, B: Allocator> Model for CoveringUnionWalk<'a, T, U, A, B> {
    ghost use Rattle.std.specs.Prelude.{List, Option, map};
    ghost use Rattle.prefix_trie_ops.specs.CoveringUnion.{with_matches};
    ghost use Rattle.prefix_trie_joint.specs.Joined.{entries_of};
    ghost use Rattle.prefix_trie_joint.specs.Networks.{ip_back, ip_path};
    ghost use Rattle.prefix_trie_joint.specs.declared.prefix.IpPrefix.{IpPrefix};

    ghost Value = { List (IpPrefix × (Option (IpPrefix × T) × Option (IpPrefix × U))) };

    ghost view = { λ w. map (with_matches ip_path ip_back (entries_of w.left.now)
        (entries_of w.right.now)) w.keys };
}

/// Returns a walk over the networks of either map, each with its longest match in both maps.
///
/// A network that a map has is its own longest match there. Each network costs one lookup in each map.
///
/// # Examples
///
/// ```rust
/// // left = {10.0.0.0/8: 1, 2001:db8::/32: 2}
/// // right = {2001:db8:1::/48: 9}
/// covering_union(&left, &right).count();  // 3: 2001:db8:1::/48 comes with (2001:db8::/32, 2) and with itself
/// ```
pub fn covering_union<'a, T: Drop, U: Drop, A: Allocator, B: Allocator>(
    left: &'a JointPrefixMap<T, A>,
    right: &'a JointPrefixMap<U, B>,
) -> CoveringUnionWalk<'a, T, U, A, B>
    ensures items { result
        ≡ map (with_matches ip_path ip_back (entries_of left.now) (entries_of right.now))
        (prefix_pairs ip_back (listing (union_of (entries_of left.now) (entries_of right.now)))) }
    ensures at_most { length result ≤ len (entries_of left.now) + len (entries_of right.now) }
{
    CoveringUnionWalk {
        left,
        right,
        keys: union(left, right),
    }
}

impl<'a, T: Drop, U: Drop, A: Allocator, B: Allocator> Iterator
    for CoveringUnionWalk<'a, T, U, A, B> {
    type Item = (
        IpPrefix,
        Option<(IpPrefix, &'a T)>,
        Option<(IpPrefix, &'a U)>,
    );

    ghost next_gives = { TakesFirst lent_matches };

    ghost remaining = { λ items. at_most (length items) };

    fn next(
        &mut self,
    ) -> Option<
        (
            IpPrefix,
            Option<(IpPrefix, &'a T)>,
            Option<(IpPrefix, &'a U)>,
        ),
    > {
        let Some((network, _)) = self.keys.next() else {
            return None;
        };
        let left = self.left.get_lpm(&network);
        let right = self.right.get_lpm(&network);
        Some((network, left, right))
    }
}
