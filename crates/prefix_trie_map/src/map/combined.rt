//! Walks of two maps at once: what unions and intersections of maps are made of.
ghost use Rattle.std.specs.Prelude.{◌≡◌, [], MatchOption};
ghost use Rattle.prefix_trie_bits.specs.Model.Entries.{Entries};
ghost use Rattle.prefix_trie_bits.specs.Model.Selections.{listing};
ghost use Rattle.prefix_trie_table.specs.Walking.Combined.{IsCombination};
ghost use Rattle.prefix_trie_map.specs.Walks.{GivesItem};

use crate::map::{PrefixMap, Visits};
use prefix_trie_bits::prefix::Prefix;
pub use prefix_trie_table::table::combined::CombinedCursor;
pub use prefix_trie_table::table::combined_spot::Combination;
use std::alloc::Allocator;

impl<P: Prefix, T: Drop, A: Allocator> PrefixMap<P, T, A> {
    ghost use Rattle.prefix_trie_table.specs.Walking.Combined.{IsCombinedCursorIn, combined_to_come};

    /// Starts a walk of this map and another one: over the keys of either, or over the keys that both have.
    ///
    /// The walk goes down both maps at once and reads no node twice. All its steps take the same combination. `X` is the
    /// type of what the caller makes of the values of both maps. Only contracts use it.
    ///
    /// # Examples
    ///
    /// ```rust
    /// // map = {10.0.0.0/8: 1, 10.1.0.0/16: 2}
    /// // other = {10.1.0.0/16: 8, 10.2.0.0/16: 9}
    /// let either = Combination::Union;
    /// let mut cursor = map.combined_cursor::<_, _, ()>(&other, either);
    /// map.combined_step::<_, _, ()>(&other, either, &mut cursor);    // Some((10.0.0.0/8, Some(1), None))
    /// map.combined_step::<_, _, ()>(&other, either, &mut cursor);    // Some((10.1.0.0/16, Some(2), Some(8)))
    /// map.combined_step::<_, _, ()>(&other, either, &mut cursor);    // Some((10.2.0.0/16, None, Some(9)))
    /// map.combined_step::<_, _, ()>(&other, either, &mut cursor);    // None
    /// ```
    #[inline]
    pub fn combined_cursor<U: Drop, B: Allocator, X>(
        &self,
        other: &PrefixMap<P, U, B>,
        combination: Combination,
    ) -> CombinedCursor<P::R>
        ensures is_there { IsCombinedCursorIn P.R.bits P.R.bit_width self.now.build other.now.build
            combination result }
        ensures items { (both : Entries X)
            → IsCombination combination self.now.entries other.now.entries both
            → combined_to_come P.R.bits both result ≡ listing both }
    {
        self.table
            .combined_cursor::<P::R, U, B, X>(&other.table, combination, &mut Visits::new())
    }

    /// Advances a walk of this map and another one. Returns the next prefix and the value that each map has there.
    ///
    /// It reads further nodes when the walk comes to them. After the last key it returns `None` each time.
    #[inline]
    pub fn combined_step<'a, U: Drop, B: Allocator, X>(
        &'a self,
        other: &'a PrefixMap<P, U, B>,
        combination: Combination,
        cursor: &mut CombinedCursor<P::R>,
    ) -> Option<(P, Option<&'a T>, Option<&'a U>)>
        requires { IsCombinedCursorIn P.R.bits P.R.bit_width self.now.build other.now.build
            combination cursor.old }
        ensures is_there { IsCombinedCursorIn P.R.bits P.R.bit_width self.now.build other.now.build
            combination cursor.new }
        ensures item { (both : Entries X)
            → IsCombination combination self.now.entries other.now.entries both → MatchOption result
            ((combined_to_come P.R.bits both cursor.old ≡ [])
            × (combined_to_come P.R.bits both cursor.new ≡ []))
            (λ r. GivesItem P.back self.now.entries other.now.entries both r
            (combined_to_come P.R.bits both cursor.old)
            (combined_to_come P.R.bits both cursor.new)) }
    {
        let step = self
            .table
            .combined_step::<P::R, U, B, X>(&other.table, combination, cursor, &mut Visits::new())?;
        Some((P::from_repr_len(step.0, step.1 as u8), step.2, step.3))
    }
}
