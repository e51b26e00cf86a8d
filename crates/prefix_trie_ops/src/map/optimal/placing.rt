//! The third pass, from the top down: storing the chosen values.
ghost use Rattle.std.specs.Prelude.{◌≡◌, ◌≢◌, ◌<◌, ◌≤◌, ℕ, ◌+◌, Bool, true, false, List, [], ◌++◌, length, Option, Some, None, OnOk, IfErr};
ghost use Rattle.std.specs.Option.{option_or};
ghost use Rattle.std.specs.FinMap.{get, len};
ghost use Rattle.prefix_trie_bits.specs.declared.prefix.Refusal.TheVariants.{IndexRange};
ghost use Rattle.prefix_trie_bits.specs.Model.Space.{MayPassLimit};
ghost use Rattle.prefix_trie_map.specs.Collected.{ManyMayPassLimit};
ghost use Rattle.prefix_trie.specs.Terms.{AreWithin, Entries, listing_after, listing_from, prefix_pairs};
ghost use Rattle.prefix_trie_ops.specs.Choosing.{part_values, AreToCome};
ghost use Rattle.prefix_trie_ops.specs.Filling.{Fills};
ghost use Rattle.prefix_trie_ops.specs.Optimal.{is_first_below, listing_past, value_along, HasNoneBelow, Rebuilds};
ghost use Rattle.prefix_trie_ops.specs.Parts.{first_values, least, stored};
ghost use Rattle.prefix_trie_ops.specs.Values.{are_equal};

use super::choosing::Choices;
use super::entries::Upcoming;
use super::position::{half, take_at};
use prefix_trie::laws::{listed_laws, listing_laws, stored_laws};
use prefix_trie::{Prefix, PrefixMap, Refusal};
use std::alloc::Allocator;

/// Builds the part of the new map at and below a prefix, from the next entries of the walk.
///
/// `inherited` is the value that shorter entries of the old map give, and `held` the value that shorter entries of the
/// new map give.
#[cycle(place)]
#[inline(always)]
pub(super) fn place<P: Prefix, T: Copy + Ord, B: Allocator, C: Allocator>(
    walk: &mut Upcoming<'_, P, T>,
    choices: &mut Choices<T, B>,
    made: &mut PrefixMap<P, T, C>,
    at: &P,
    inherited: Option<T>,
    held: Option<T>,
) -> Result<(), Refusal>
    requires { P.IsFitting at.now }
    ensures walks { OnOk result ((source : Entries T) → AreWithin P.R.bit_width source
        → walk.old ≡ prefix_pairs P.back (listing_from source (P.path at.now))
        → walk.new ≡ prefix_pairs P.back (listing_past source (P.path at.now))) }
    ensures takes { OnOk result
        ((source : Entries T) (n : ℕ) (rest : List (List T)) → AreWithin P.R.bit_width source
        → length (P.path at.now) + n ≡ P.R.bit_width
        → walk.old ≡ prefix_pairs P.back (listing_from source (P.path at.now))
        → AreToCome choices.old
        (part_values T.PartialEq.eq T.Ord.cmp source n (P.path at.now) inherited ++ rest)
        → AreToCome choices.new rest) }
    ensures rebuilds { OnOk result
        ((source : Entries T) (n : ℕ) (rest : List (List T)) → AreWithin P.R.bit_width source
        → length (P.path at.now) + n ≡ P.R.bit_width
        → walk.old ≡ prefix_pairs P.back (listing_from source (P.path at.now))
        → AreToCome choices.old
        (part_values T.PartialEq.eq T.Ord.cmp source n (P.path at.now) inherited ++ rest)
        → HasNoneBelow made.old.entries (P.path at.now)
        → ((x y : T) → T.PartialEq.eq x y ≡ true → x ≡ y)
        → (first_values T.PartialEq.eq T.Ord.cmp n
        (value_along (get source) inherited (P.path at.now)) ≡ [] → held ≡ None)
        → Rebuilds T.PartialEq.eq T.Ord.cmp n source
        (P.path at.now) inherited held made.old.entries made.new.entries) }
    ensures fills { OnOk result (Fills made.old made.new) }

    // `IndexRange` comes only if the slots for the fewest entries of the part could exceed the limit.
    ensures range { IfErr result (λ cause. cause ≡ IndexRange
        → (source : Entries T) (n : ℕ) (rest : List (List T)) → AreWithin P.R.bit_width source
        → length (P.path at.now) + n ≡ P.R.bit_width
        → walk.old ≡ prefix_pairs P.back (listing_from source (P.path at.now))
        → AreToCome choices.old
        (part_values T.PartialEq.eq T.Ord.cmp source n (P.path at.now) inherited ++ rest)
        → HasNoneBelow made.old.entries (P.path at.now)
        → ((x y : T) → T.PartialEq.eq x y ≡ true → x ≡ y)
        → (first_values T.PartialEq.eq T.Ord.cmp n
        (value_along (get source) inherited (P.path at.now)) ≡ [] → held ≡ None)
        → ManyMayPassLimit made.old.space (least T.PartialEq.eq T.Ord.cmp n
        (value_along (get source) inherited (P.path at.now)) held)) }
{
    listing_laws::<T>();
    listed_laws::<P, T>();
    let (own, is_inner) = take_at(walk, at);
    let here = own.or(inherited);
    if !is_inner {
        settle(made, at, held, here)?;
        return Ok(());
    }
    place_inner(walk, choices, made, at, here, held)?;
    Ok(())
}

/// Builds a part that has entries below its prefix. The walk is past the prefix, whose value is `here`.
#[cycle(place)]
fn place_inner<P: Prefix, T: Copy + Ord, B: Allocator, C: Allocator>(
    walk: &mut Upcoming<'_, P, T>,
    choices: &mut Choices<T, B>,
    made: &mut PrefixMap<P, T, C>,
    at: &P,
    here: Option<T>,
    held: Option<T>,
) -> Result<(), Refusal>
    requires fits { P.IsFitting at.now }
    requires short { P.len_of at.now < P.R.bit_width }
    ensures walks { OnOk result ((source : Entries T) → AreWithin P.R.bit_width source
        → walk.old ≡ prefix_pairs P.back (listing_after source (P.path at.now))
        → walk.new ≡ prefix_pairs P.back (listing_past source (P.path at.now))) }
    ensures takes { OnOk result
        ((source : Entries T) (n : ℕ) (inherited : Option T) (rest : List (List T))
        → AreWithin P.R.bit_width source
        → length (P.path at.now) + n ≡ P.R.bit_width
        → walk.old ≡ prefix_pairs P.back (listing_after source (P.path at.now))
        → is_first_below (λ t. t) (P.path at.now) (listing_after source (P.path at.now)) ≡ true
        → here ≡ option_or (get source (P.path at.now)) inherited
        → AreToCome choices.old
        (part_values T.PartialEq.eq T.Ord.cmp source n (P.path at.now) inherited ++ rest)
        → AreToCome choices.new rest) }
    ensures rebuilds { OnOk result
        ((source : Entries T) (n : ℕ) (inherited : Option T) (rest : List (List T))
        → AreWithin P.R.bit_width source
        → length (P.path at.now) + n ≡ P.R.bit_width
        → walk.old ≡ prefix_pairs P.back (listing_after source (P.path at.now))
        → is_first_below (λ t. t) (P.path at.now) (listing_after source (P.path at.now)) ≡ true
        → here ≡ option_or (get source (P.path at.now)) inherited
        → AreToCome choices.old
        (part_values T.PartialEq.eq T.Ord.cmp source n (P.path at.now) inherited ++ rest)
        → HasNoneBelow made.old.entries (P.path at.now)
        → ((x y : T) → T.PartialEq.eq x y ≡ true → x ≡ y)
        → (first_values T.PartialEq.eq T.Ord.cmp n
        (value_along (get source) inherited (P.path at.now)) ≡ [] → held ≡ None)
        → Rebuilds T.PartialEq.eq T.Ord.cmp n source
        (P.path at.now) inherited held made.old.entries made.new.entries) }
    ensures fills { OnOk result (Fills made.old made.new) }
    ensures range { IfErr result (λ cause. cause ≡ IndexRange
        → (source : Entries T) (n : ℕ) (inherited : Option T) (rest : List (List T))
        → AreWithin P.R.bit_width source
        → length (P.path at.now) + n ≡ P.R.bit_width
        → walk.old ≡ prefix_pairs P.back (listing_after source (P.path at.now))
        → is_first_below (λ t. t) (P.path at.now) (listing_after source (P.path at.now)) ≡ true
        → here ≡ option_or (get source (P.path at.now)) inherited
        → AreToCome choices.old
        (part_values T.PartialEq.eq T.Ord.cmp source n (P.path at.now) inherited ++ rest)
        → HasNoneBelow made.old.entries (P.path at.now)
        → ((x y : T) → T.PartialEq.eq x y ≡ true → x ≡ y)
        → (first_values T.PartialEq.eq T.Ord.cmp n
        (value_along (get source) inherited (P.path at.now)) ≡ [] → held ≡ None)
        → ManyMayPassLimit made.old.space (least T.PartialEq.eq T.Ord.cmp n
        (value_along (get source) inherited (P.path at.now)) held)) }
{
    let wanted = choices.take(held);
    settle(made, at, held, wanted)?;
    let lower = half(at, 0);
    let upper = half(at, 1);
    place(walk, choices, made, &lower, here, wanted)?;
    place(walk, choices, made, &upper, here, wanted)?;
    Ok(())
}

/// Stores the wanted value at a prefix, unless the shorter entries give it already or there is none.
#[inline(always)]
fn settle<P: Prefix, T: Copy + Ord, A: Allocator>(
    made: &mut PrefixMap<P, T, A>,
    at: &P,
    held: Option<T>,
    wanted: Option<T>,
) -> Result<(), Refusal>
    requires { P.IsFitting at.now }
    ensures beside { OnOk result
        ((t : List Bool) → t ≢ P.path at.now → get made.new.entries t ≡ get made.old.entries t) }
    ensures value { OnOk result
        (((x y : T) → T.PartialEq.eq x y ≡ true → x ≡ y)
        → get made.old.entries (P.path at.now) ≡ None
        → (wanted ≡ None → held ≡ None)
        → option_or (get made.new.entries (P.path at.now)) held ≡ wanted) }
    ensures cost { OnOk result
        (len made.new.entries ≤ len made.old.entries + stored T.PartialEq.eq held wanted) }
    ensures fresh { OnOk result
        (get made.old.entries (P.path at.now) ≡ None
        → are_equal T.PartialEq.eq held (get made.new.entries (P.path at.now)) ≡ false) }
    ensures fills { OnOk result (Fills made.old made.new) }
    ensures range { IfErr result (λ cause. cause ≡ IndexRange
        → ManyMayPassLimit made.old.space (stored T.PartialEq.eq held wanted)) }
{
    let Some(value) = wanted else {
        return Ok(());
    };
    if is_held(held, value) {
        return Ok(());
    }
    store(made, at, value)
}

/// Stores a value at a prefix.
#[inline(never)]
fn store<P: Prefix, T: Copy + Ord, A: Allocator>(
    made: &mut PrefixMap<P, T, A>,
    at: &P,
    value: T,
) -> Result<(), Refusal>
    requires { P.IsFitting at.now }
    ensures beside { OnOk result
        ((t : List Bool) → t ≢ P.path at.now → get made.new.entries t ≡ get made.old.entries t) }
    ensures value { OnOk result (get made.new.entries (P.path at.now) ≡ Some value) }
    ensures cost { OnOk result (len made.new.entries ≤ len made.old.entries + 1) }
    ensures fills { OnOk result (Fills made.old made.new) }
    ensures range { IfErr result (λ cause. cause ≡ IndexRange → MayPassLimit made.old.space) }
{
    stored_laws::<T>();
    // The proof learns from it what holds of every map.
    let _ = made.len();
    made.insert(same_prefix(at), value)?;
    Ok(())
}

/// Returns whether there is a value and it equals this one.
#[inline]
fn is_held<T: Copy + Ord>(held: Option<T>, value: T) -> bool
    ensures { result ≡ are_equal T.PartialEq.eq held (Some value) }
{
    match held {
        Some(held) => held == value,
        None => false,
    }
}

/// Returns the prefix with the same number and length.
fn same_prefix<P: Prefix>(prefix: &P) -> P
    requires { P.IsFitting prefix.now }
    ensures fits { P.IsFitting result }
    ensures path { P.path result ≡ P.path prefix.now }
{
    P::from_repr_len(prefix.repr(), prefix.prefix_len())
}
