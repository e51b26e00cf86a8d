//! The prefixes of tables, and calls of a prefix.
ghost use Rattle.std.specs.Prelude.{IfSome};

use crate::table::numbers::key_of;
use crate::table::{Line, Number, Pair};
use prefix_trie::{Ipv4Prefix, Ipv6Prefix, Key, Prefix};

/// A prefix type whose prefixes tables write as a number and a length.
pub trait TablePrefix: Prefix + PartialEq {
    /// Returns the prefix with this number and length, if there is one.
    fn of(number: Number, len: u8) -> Option<Self>;
}

/// There is a pair for each key. It need not fit.
impl<R: Key> TablePrefix for (R, u8) {
    fn of(number: Number, len: u8) -> Option<Self> {
        Some((key_of(number)?, len))
    }
}

impl TablePrefix for Ipv4Prefix {
    fn of(number: Number, len: u8) -> Option<Self> {
        Ipv4Prefix::new(key_of(number)?, len)
    }
}

impl TablePrefix for Ipv6Prefix {
    fn of(number: Number, len: u8) -> Option<Self> {
        Ipv6Prefix::new(key_of(number)?, len)
    }
}

/// Returns the prefix that is written so, if there is one and it fits.
pub fn fitting_prefix<P: TablePrefix>(pair: Pair) -> Option<P>
    ensures { IfSome result P.IsFitting }
{
    match P::of(pair.0, pair.1) {
        Some(prefix) if prefix.fits() => Some(prefix),
        _ => None,
    }
}

/// Returns whether tables write a prefix so.
pub fn is_prefix<P: Prefix>(prefix: &P, (number, len): Pair) -> bool {
    key_of(number) == Some(prefix.repr()) && prefix.prefix_len() == len
}

/// Returns whether a call of a prefix has the expected result.
pub fn holds_of_prefix<P: TablePrefix>(line: &Line) -> bool {
    match line {
        Line::IsPrefix((number, len), expected) => P::of(*number, *len).is_some() == *expected,
        Line::Fits((number, len), expected) => fits::<P>(*number, *len) == Some(*expected),
        Line::Mask(pair, expected) => masks::<P>(*pair, *expected),
        Line::Contains(outer, inner, expected) => contains::<P>(*outer, *inner) == Some(*expected),
        _ => false,
    }
}

fn fits<P: TablePrefix>(number: Number, len: u8) -> Option<bool> {
    P::of(number, len).map(|prefix| prefix.fits())
}

fn masks<P: TablePrefix>(pair: Pair, expected: Number) -> bool {
    match fitting_prefix::<P>(pair) {
        Some(prefix) => key_of(expected) == Some(prefix.mask()),
        None => false,
    }
}

fn contains<P: TablePrefix>(outer: Pair, inner: Pair) -> Option<bool> {
    match (fitting_prefix::<P>(outer), fitting_prefix::<P>(inner)) {
        (Some(outer), Some(inner)) => Some(outer.contains(&inner)),
        _ => None,
    }
}
