//! The entries of a map as a vector, and a walk over it.
ghost use Rattle.std.specs.Prelude.{◌≡◌, IfOk, All};
ghost use Rattle.prefix_trie.specs.Terms.{listing, prefix_pairs};

use prefix_trie::laws::listed_laws;
use prefix_trie::{Prefix, PrefixMap};
use std::alloc::{AllocError, Allocator};
use std::marker::Model;

/// Returns a copy of the entries, in listing order.
pub(super) fn copied<P: Prefix, T: Copy, A: Allocator, B: Allocator>(
    table: &PrefixMap<P, T, A>,
    alloc: B,
) -> Result<Vec<(P, T), B>, AllocError>
    ensures items { IfOk result
        (λ entries. entries.items ≡ prefix_pairs P.back (listing table.now.entries)) }
    ensures fit { IfOk result (λ entries. All (λ e. P.IsFitting e.0) entries.items) }
{
    listed_laws::<P, T>();
    let mut entries = Vec::with_capacity(alloc, table.len())?;
    for (prefix, value) in table.iter() {
        entries.push((prefix, *value))?;
    }
    Ok(entries)
}

/// The entries that are still to come in a walk.
#[derive(Drop)]
pub(super) struct Upcoming<'x, P: Prefix, T: Copy> {
    pub(super) left: &'x [(P, T)],
}

impl<'x, P: Prefix, T: Copy> Model for Upcoming<'x, P, T> {
    ghost use Rattle.std.specs.Prelude.{All, List};

    ghost Value = { List (P × T) };

    ghost view = { λ w. w.left.now };

    ghost invariant = { λ w. All (λ e. P.IsFitting e.0) w.left.now };
}

impl<'x, P: Prefix, T: Copy> Upcoming<'x, P, T> {
    /// Returns a walk over all entries of a list.
    #[inline]
    pub(super) fn of(entries: &'x [(P, T)]) -> Self
        requires { All (λ e. P.IsFitting e.0) entries.now }
        ensures { result ≡ entries.now }
    {
        Upcoming { left: entries }
    }
}
