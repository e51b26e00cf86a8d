//! Lemmas for a caller's own contracts about compiled tables.
//!
//! Each function does nothing at run time. Calling it brings a record of laws into the caller's proof.
ghost use Rattle.std.specs.Map.Iter.{ShowsInOrder};
ghost use Rattle.prefix_trie_fib.specs.Laws.{FibLaws};
ghost use Rattle.prefix_trie_fib.specs.Ranges.{in_numbers};

use prefix_trie_bits::prefix::Prefix;

/// Brings the laws of compiled tables into the proof.
///
/// A table has the value of the longest match at each address, or an equal one. An address is in one range only, which
/// has its value. A map has one table only, if a value equals itself and no other. A walk over ranges that is counted or
/// collected gives the ranges to come, in order.
pub fn fib_laws<P: Prefix, T>()
    ensures tables { FibLaws T P.R.bit_width P.R.IsKey P.R.bits }
    ensures walk { ShowsInOrder (in_numbers {T = T} P.R.bits) }
{}
