//! Marks of places: a bit for each place, 32 in a word.
ghost use Rattle.std.specs.Prelude.{◌≡◌, ℕ, ◌*◌, ◌<◌, OnOk, false, length};
ghost use Rattle.prefix_trie_fib.specs.Gaps.{AreMarks, Marks, is_marked};

use prefix_trie_bits::node::{has_bit, with_bit};
use std::alloc::{AllocError, Allocator};

/// Returns whether a place is marked.
#[inline(always)]
pub(super) fn has_mark(words: &[u32], i: usize) -> bool
    requires { i < 32 * length words.now }
    ensures { result ≡ is_marked words.now i }
{
    has_bit(words[i / 32], (i % 32) as u32)
}

/// Marks a place.
pub(super) fn mark(words: &mut [u32], i: usize)
    requires inside { i < 32 * length words.old }
    requires clear { is_marked words.old i ≡ false }
    ensures len { length words.new ≡ length words.old }
    ensures marks { Marks words.old i words.new }
{
    words[i / 32] = with_bit(words[i / 32], (i % 32) as u32);
}

/// Appends a word if the words have no bit for the place `i`, which is the first one without a bit then.
pub(super) fn reach<A: Allocator>(words: &mut Vec<u32, A>, i: usize) -> Result<(), AllocError>
    requires { AreMarks i words.old.items }
    ensures marks { AreMarks i words.new.items }
    ensures inside { OnOk result (i < 32 * length words.new.items) }
    ensures unchanged { (k : ℕ) → is_marked words.new.items k ≡ is_marked words.old.items k }
{
    if i / 32 >= words.len() {
        words.push(0)?;
    }
    Ok(())
}
