//! The codes that the calls return. `include/prefix_trie.h` has them under the same numbers.
ghost use Rattle.std.specs.Prelude.{◌≡◌};
ghost use Rattle.prefix_trie_c.specs.Calls.{refusal_code};

use prefix_trie::Refusal;

/// The call did what it is for.
pub const DONE: u32 = 0;

/// No such entry, or no match.
pub const MISSING: u32 = 1;

/// An allocation failed.
pub const MEMORY: u32 = 2;

/// The slots needed would exceed `u32::MAX`.
pub const FULL: u32 = 3;

/// A length is above the width of an address.
pub const LENGTH: u32 = 4;

/// A null pointer in place of a table.
pub const NULL: u32 = 5;

/// A pointer that is not null in place of a new table's.
pub const IN_USE: u32 = 6;

/// Two arrays of different lengths.
pub const COUNTS: u32 = 7;

/// Returns the code of a refusal.
pub(crate) fn code_of(refusal: Refusal) -> u32
    ensures { result ≡ refusal_code refusal }
{
    match refusal {
        Refusal::Memory => MEMORY,
        Refusal::IndexRange => FULL,
    }
}
