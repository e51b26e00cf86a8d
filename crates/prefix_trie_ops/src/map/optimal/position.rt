//! The position of a walk relative to a prefix, and the two halves of a prefix.
ghost use Rattle.std.specs.Prelude.{◌≡◌, ◌+◌, ◌<◌, ◌++◌, true};
ghost use Rattle.prefix_trie.specs.Terms.{digits};
ghost use Rattle.prefix_trie_ops.specs.Optimal.{first_value_at, is_first_below, items_after};

use super::entries::Upcoming;
use prefix_trie::laws::path_laws;
use prefix_trie::{Key, Prefix};

/// Moves past the next entry if its prefix has the path of this one, and returns its value.
///
/// Returns too whether the prefix of the entry that is next then is longer than this one and within it.
#[inline]
pub(super) fn take_at<P: Prefix, T: Copy>(
    walk: &mut Upcoming<'_, P, T>,
    at: &P,
) -> (Option<T>, bool)
    requires { P.IsFitting at.now }
    ensures value { result.0 ≡ first_value_at P.path (P.path at.now) walk.old }
    ensures items { walk.new ≡ items_after P.path (P.path at.now) walk.old }
    ensures below { result.1 ≡ is_first_below P.path (P.path at.now) walk.new }
    ensures short { result.1 ≡ true → P.len_of at.now < P.R.bit_width }
{
    path_laws::<P>();
    let Some(((prefix, value), rest)) = walk.left.split_first() else {
        return (None, false);
    };
    if !at.contains(prefix) {
        return (None, false);
    }
    if at.prefix_len() < prefix.prefix_len() {
        return (None, true);
    }
    walk.left = rest;
    (Some(*value), is_next_below(walk, at))
}

/// Returns whether the next entry's prefix is longer than this one and within it.
#[inline]
fn is_next_below<P: Prefix, T: Copy>(walk: &Upcoming<'_, P, T>, at: &P) -> bool
    requires { P.IsFitting at.now }
    ensures below { result ≡ is_first_below P.path (P.path at.now) walk.now }
    ensures short { result ≡ true → P.len_of at.now < P.R.bit_width }
{
    path_laws::<P>();
    match walk.left.first() {
        Some((prefix, _)) => at.prefix_len() < prefix.prefix_len() && at.contains(prefix),
        None => false,
    }
}

/// Returns the prefix that is one bit longer: with 0 the lower half, with 1 the upper half.
#[inline]
pub(super) fn half<P: Prefix>(prefix: &P, bit: u32) -> P
    requires fits { P.IsFitting prefix.now }
    requires short { P.len_of prefix.now < P.R.bit_width }
    requires bit { bit < 2 }
    ensures fits { P.IsFitting result }
    ensures longer { P.len_of result ≡ P.len_of prefix.now + 1 }
    ensures path { P.path result ≡ P.path prefix.now ++ digits 1 bit }
{
    let len = prefix.prefix_len();
    let repr = prefix.repr().extend(u32::from(len), 1, bit);
    P::from_repr_len(repr, len + 1)
}
