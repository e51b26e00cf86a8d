//! The listing order of prefixes.
ghost use Rattle.std.specs.Prelude.{◌≡◌};
ghost use Rattle.prefix_trie.specs.Terms.{listing_cmp};

use prefix_trie::laws::{listing_laws, path_laws};
use prefix_trie::{Key, Prefix};
use std::cmp::Ordering;

/// Returns which of two prefixes comes first in a listing.
///
/// A prefix comes before those that it contains. Of two that differ in a bit, the one with 0 comes first.
///
/// # Examples
///
/// ```rust
/// let wide: Ipv4Prefix = "10.0.0.0/8".parse()?;
/// listing_order(&wide, &"10.1.0.0/16".parse()?);      // Less
/// listing_order(&wide, &"9.0.0.0/8".parse()?);        // Greater
/// ```
#[inline]
pub fn listing_order<P: Prefix>(left: &P, right: &P) -> Ordering
    requires fits { P.IsFitting left.now }
    requires other_fits { P.IsFitting right.now }
    ensures { result ≡ listing_cmp (P.path left.now) (P.path right.now) }
{
    listing_laws::<()>();
    path_laws::<P>();
    let order = left.mask().compare(right.mask());
    order.then(left.prefix_len().cmp(&right.prefix_len()))
}
