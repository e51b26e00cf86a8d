//! The networks of either of two joint sets, each with its longest match in both.
ghost use Rattle.std.specs.Prelude.{◌≡◌, ◌+◌, ◌≤◌, length, map};
ghost use Rattle.std.specs.FinMap.{len};
ghost use Rattle.std.specs.Iterator.{at_most};
ghost use Rattle.std.specs.Map.Iter.{TakesFirst};
ghost use Rattle.prefix_trie.specs.Terms.{listing};
ghost use Rattle.prefix_trie_ops.specs.CoveringUnion.{with_matching_keys};
ghost use Rattle.prefix_trie_ops.specs.Merging.{union_of};
ghost use Rattle.prefix_trie_joint.specs.Joined.{keys_of};
ghost use Rattle.prefix_trie_joint.specs.Networks.{ip_back, ip_path};

use crate::set::walks::{UnionWalk, union};
use prefix_trie_joint::{IpPrefix, JointPrefixSet};
use std::alloc::Allocator;
use std::marker::Model;

/// The networks of either of two sets, each with its longest match in both sets.
///
/// IPv4 networks come first, then IPv6 networks, each in listing order. The walk does not allocate. After its last item
/// it returns `None` each time.
#[derive(Drop)]
pub struct CoveringUnionWalk<'a, A: Allocator, B: Allocator> {
    left: &'a JointPrefixSet<A>,
    right: &'a JointPrefixSet<B>,
    keys: UnionWalk<'a, A, B>,
}

impl<'a, A: Allocator, B: Allocator> Model for CoveringUnionWalk<'a, A, B> {
    ghost use Rattle.std.specs.Prelude.{List, Option, map};
    ghost use Rattle.prefix_trie_ops.specs.CoveringUnion.{with_matching_keys};
    ghost use Rattle.prefix_trie_joint.specs.Joined.{keys_of};
    ghost use Rattle.prefix_trie_joint.specs.Networks.{ip_back, ip_path};
    ghost use Rattle.prefix_trie_joint.specs.declared.prefix.IpPrefix.{IpPrefix};

    ghost Value = { List (IpPrefix × Option IpPrefix × Option IpPrefix) };

    ghost view = { λ w. map (with_matching_keys ip_path ip_back (keys_of w.left.now)
        (keys_of w.right.now)) w.keys };
}

/// Returns a walk over the networks of either set, each with its longest match in both sets.
///
/// A network that a set has is its own longest match there. Each network costs one lookup in each set.
///
/// # Examples
///
/// ```rust
/// // left = {10.0.0.0/8}
/// // right = {10.2.0.0/16}
/// let mut walk = covering_union(&left, &right);
/// walk.next();        // Some((V4(10.0.0.0/8), Some(V4(10.0.0.0/8)), None))
/// walk.next();        // Some((V4(10.2.0.0/16), Some(V4(10.0.0.0/8)), Some(V4(10.2.0.0/16))))
/// ```
pub fn covering_union<'a, A: Allocator, B: Allocator>(
    left: &'a JointPrefixSet<A>,
    right: &'a JointPrefixSet<B>,
) -> CoveringUnionWalk<'a, A, B>
    ensures items { result
        ≡ map (with_matching_keys ip_path ip_back (keys_of left.now) (keys_of right.now))
        (map (λ e. ip_back e.0) (listing (union_of (keys_of left.now) (keys_of right.now)))) }
    ensures at_most { length result ≤ len (keys_of left.now) + len (keys_of right.now) }
{
    CoveringUnionWalk {
        left,
        right,
        keys: union(left, right),
    }
}

impl<'a, A: Allocator, B: Allocator> Iterator for CoveringUnionWalk<'a, A, B> {
    type Item = (IpPrefix, Option<IpPrefix>, Option<IpPrefix>);

    ghost next_gives = { TakesFirst (λ x. x) };

    ghost remaining = { λ items. at_most (length items) };

    fn next(&mut self) -> Option<(IpPrefix, Option<IpPrefix>, Option<IpPrefix>)> {
        let Some(network) = self.keys.next() else {
            return None;
        };
        let left = self.left.get_lpm(&network);
        let right = self.right.get_lpm(&network);
        Some((network, left, right))
    }
}
