//! A numbering plan: ranges of numbers of any width, such as VLANs or labels, each with the number of its owner.
ghost use Rattle.std.specs.Prelude.{◌≡◌, ◌≢◌, ℕ, ◌-◌, ◌^◌, ◌/◌, ◌<◌, ◌≤◌, Some, IfSome, OnOk, OnErr, length, take};
ghost use Rattle.std.specs.Option.{option_map};
ghost use Rattle.prefix_trie.specs.Terms.{digits, longest_match, narrow_width};

use prefix_trie::laws::{lookup_laws, narrow_laws};
use prefix_trie::{Key, Narrow, PrefixMap, Refusal};
use std::alloc::Allocator;

/// Ranges of numbers that share their first bits, each with the number of its owner.
type Plan<const W: u32, A> = PrefixMap<(Narrow<W>, u8), u32, A>;

/// Gives the numbers that share their first `len` bits with this one to an owner.
///
/// Numbers in narrower ranges keep theirs.
///
/// # Errors
///
/// Returns an error if an allocation fails. The plan is unchanged then.
pub fn assign<const W: u32, A: Allocator>(
    plan: &mut Plan<W, A>,
    first: Narrow<W>,
    len: u8,
    owner: u32,
) -> Result<(), Refusal>
    requires { len ≤ narrow_width W }
    ensures owned { OnOk result ((number : ℕ) → number < 2 ^ narrow_width W
        → number / 2 ^ (narrow_width W - len) ≡ first.entry / 2 ^ (narrow_width W - len)
        → IfSome (longest_match plan.old.entries (digits (narrow_width W) number))
        (λ known. length known.0 ≤ len)
        → longest_match plan.new.entries (digits (narrow_width W) number)
        ≡ Some (take len (digits (narrow_width W) first.entry), owner)) }
    ensures others { OnOk result ((number : ℕ) → number < 2 ^ narrow_width W
        → number / 2 ^ (narrow_width W - len) ≢ first.entry / 2 ^ (narrow_width W - len)
        → longest_match plan.new.entries (digits (narrow_width W) number)
        ≡ longest_match plan.old.entries (digits (narrow_width W) number)) }
    ensures unchanged { OnErr result (plan.new.entries ≡ plan.old.entries) }
{
    narrow_laws::<W>();
    lookup_laws::<(Narrow<W>, u8), u32>();
    plan.insert((first, len), owner)?;
    Ok(())
}

/// Returns the owner of a number: the owner of the narrowest range that contains it.
pub fn owner<const W: u32, A: Allocator>(plan: &Plan<W, A>, number: Narrow<W>) -> Option<u32>
    ensures { result
        ≡ option_map (λ found. found.1)
        (longest_match plan.now.entries (digits (narrow_width W) number.entry)) }
{
    narrow_laws::<W>();
    let width = Narrow::<W>::width() as u8;
    plan.get_lpm_value(&(number, width)).copied()
}
