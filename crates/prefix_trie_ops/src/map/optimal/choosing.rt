//! The first two passes, from the bottom up: the values with which a smallest table of each part of the tree can begin.
ghost use Rattle.std.specs.Prelude.{◌≡◌, ℕ, ◌+◌, ◌<◌, true, List, [], ◌∷◌, length, Option, None, IfOk, OnOk};
ghost use Rattle.std.specs.FinMap.{get};
ghost use Rattle.std.specs.Option.{option_or};
ghost use Rattle.prefix_trie.specs.Terms.{AreWithin, Entries, listing_after, listing_from, prefix_pairs};
ghost use Rattle.prefix_trie_ops.specs.Choosing.{part_values, AreToCome, Chooses};
ghost use Rattle.prefix_trie_ops.specs.Optimal.{is_first_below, listing_past};
ghost use Rattle.prefix_trie_ops.specs.Parts.{best_value};

use super::entries::Upcoming;
use super::position::{half, take_at};
use super::sets::{Set, best_of, put};
use prefix_trie::Prefix;
use prefix_trie::laws::{listed_laws, listing_laws};
use std::alloc::{AllocError, Allocator};

/// For each inner part of the tree, in the order of a walk from the top, the values with which a smallest table of it can begin.
///
/// A part has no set if one of its full-width questions has no value.
#[derive(Drop)]
pub(super) struct Choices<T: Drop, B: Allocator> {
    sets: Vec<Set<T>, B>,
    values: Vec<T, B>,
    next: usize,
}

impl<T: Copy + Ord, B: Allocator> Choices<T, B> {
    /// Returns the value with which the next part begins: the held one if the part's set has it, or its first.
    #[inline]
    pub(super) fn take(&mut self, held: Option<T>) -> Option<T>
        ensures best { (xs : List T) (rest : List (List T)) → AreToCome self.old (xs ∷ rest)
            → ((x y : T) → T.PartialEq.eq x y ≡ true → x ≡ y)
            → result ≡ best_value T.PartialEq.eq xs held }
        ensures rest { (xs : List T) (rest : List (List T)) → AreToCome self.old (xs ∷ rest)
            → AreToCome self.new rest }
    {
        let Some(set) = self.sets.get(self.next).copied() else {
            return None;
        };
        self.next += 1;
        set.best(self.values.as_slice(), held)
    }
}

/// Returns the choices for all parts of a map.
pub(super) fn choices_of<'x, P: Prefix, T: Copy + Ord, B: Allocator>(
    mut walk: Upcoming<'_, P, T>,
    root: &P,
    alloc: &'x B,
) -> Result<Choices<T, &'x B>, AllocError>
    requires { P.IsFitting root.now }
    ensures { IfOk result (λ choices. (source : Entries T) → AreWithin P.R.bit_width source
        → walk.entry ≡ prefix_pairs P.back (listing_from source (P.path root.now))
        → P.path root.now ≡ []
        → ((x y : T) → T.PartialEq.eq x y ≡ true → x ≡ y)
        → AreToCome choices (part_values T.PartialEq.eq T.Ord.cmp source P.R.bit_width [] None)) }
{
    let mut sets = Vec::new(alloc);
    let mut values = Vec::new(alloc);
    choose(&mut walk, &mut sets, &mut values, root, None)?;
    Ok(Choices {
        sets,
        values,
        next: 0,
    })
}

/// Appends the sets of the inner parts at and below a prefix, and returns the set of the part at it.
///
/// `inherited` is the value that shorter entries give.
#[cycle(choose)]
#[inline(always)]
fn choose<P: Prefix, T: Copy + Ord, B: Allocator>(
    walk: &mut Upcoming<'_, P, T>,
    sets: &mut Vec<Set<T>, B>,
    values: &mut Vec<T, B>,
    at: &P,
    inherited: Option<T>,
) -> Result<Set<T>, AllocError>
    requires { P.IsFitting at.now }
    ensures walks { OnOk result ((source : Entries T) → AreWithin P.R.bit_width source
        → walk.old ≡ prefix_pairs P.back (listing_from source (P.path at.now))
        → walk.new ≡ prefix_pairs P.back (listing_past source (P.path at.now))) }
    ensures chooses { IfOk result
        (λ set. (source : Entries T) (n : ℕ) → AreWithin P.R.bit_width source
        → length (P.path at.now) + n ≡ P.R.bit_width
        → walk.old ≡ prefix_pairs P.back (listing_from source (P.path at.now))
        → ((x y : T) → T.PartialEq.eq x y ≡ true → x ≡ y)
        → Chooses T.PartialEq.eq T.Ord.cmp source n
        (P.path at.now) inherited sets.old.items sets.new.items values.old.items values.new.items
        set) }
{
    listing_laws::<T>();
    listed_laws::<P, T>();
    let (own, is_inner) = take_at(walk, at);
    let here = own.or(inherited);
    if !is_inner {
        return Ok(Set::of(here));
    }
    let set = choose_inner(walk, sets, values, at, here)?;
    Ok(set)
}

/// Appends the sets of a part with entries below it, and of the inner parts below it, and returns the set of the part.
///
/// `here` is the value at the part.
#[cycle(choose)]
fn choose_inner<P: Prefix, T: Copy + Ord, B: Allocator>(
    walk: &mut Upcoming<'_, P, T>,
    sets: &mut Vec<Set<T>, B>,
    values: &mut Vec<T, B>,
    at: &P,
    here: Option<T>,
) -> Result<Set<T>, AllocError>
    requires fits { P.IsFitting at.now }
    requires short { P.len_of at.now < P.R.bit_width }
    ensures walks { OnOk result ((source : Entries T) → AreWithin P.R.bit_width source
        → walk.old ≡ prefix_pairs P.back (listing_after source (P.path at.now))
        → walk.new ≡ prefix_pairs P.back (listing_past source (P.path at.now))) }
    ensures chooses { IfOk result
        (λ set. (source : Entries T) (n : ℕ) (inherited : Option T) → AreWithin P.R.bit_width source
        → length (P.path at.now) + n ≡ P.R.bit_width
        → walk.old ≡ prefix_pairs P.back (listing_after source (P.path at.now))
        → is_first_below (λ t. t) (P.path at.now) (listing_after source (P.path at.now)) ≡ true
        → here ≡ option_or (get source (P.path at.now)) inherited
        → ((x y : T) → T.PartialEq.eq x y ≡ true → x ≡ y)
        → Chooses T.PartialEq.eq T.Ord.cmp source n
        (P.path at.now) inherited sets.old.items sets.new.items values.old.items values.new.items
        set) }
{
    let place = sets.len();
    sets.push(Set::Missing)?;
    let lower = half(at, 0);
    let upper = half(at, 1);
    let left = choose(walk, sets, values, &lower, here)?;
    let right = choose(walk, sets, values, &upper, here)?;
    let set = best_of(values, left, right)?;
    put(sets, place, set);
    Ok(set)
}
