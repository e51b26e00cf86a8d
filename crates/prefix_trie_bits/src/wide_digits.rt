//! The operations of keys of at most 128 bits, on their numbers.
//!
//! `digits` does the same for 64 bits, where shifts cost less.
ghost use Rattle.std.specs.Prelude.{◌≡◌, ◌+◌, ◌-◌, ◌*◌, ◌/◌, ◌%◌, ◌^◌, ◌<◌, ◌≤◌, ◌++◌, take, drop};
ghost use Rattle.prefix_trie_bits.specs.Model.Bits.{number, digits, zeros};

/// Returns the number of the n bits of value from depth on. Bits past the end are 0.
#[inline]
pub(crate) fn window_of(value: u128, width: u32, depth: u32, n: u32) -> u32
    requires narrow { width ≤ 128 }
    requires start { depth ≤ width }
    requires few { n ≤ 5 }
    ensures { result ≡ number (take n (drop depth (digits width value ++ zeros 5))) }
{
    // all five bits, so that no shift is as wide as the number
    let end = depth + 5;
    let shifted = if end <= width {
        value >> (width - end)
    } else {
        value << (end - width)
    };
    ((shifted % 32) >> (5 - n)) as u32
}

/// Returns the first len bits of value, and then zeros.
#[inline]
#[tactic(auto, using(crate::specs::BitStrings::kept_of_128, crate::specs::BitStrings::kept_of_none))]
pub(crate) fn keep_of(value: u128, width: u32, len: u32) -> u128
    requires narrow { width ≤ 128 }
    requires within { len ≤ width }
    requires fits { value < 2 ^ width }
    ensures key { result < 2 ^ width }
    ensures number_is { result ≡ value / 2 ^ (width - len) * 2 ^ (width - len) }
    ensures bits_are { digits width result ≡ take len (digits width value) ++ zeros (width - len) }
{
    if len == 0 {
        return 0;
    }
    let rest = width - len;
    value >> rest << rest
}

/// Returns the first depth bits of value, then the n bits of tail, and then zeros.
#[inline]
#[tactic(auto, using(crate::specs::BitStrings::extended_by_none))]
pub(crate) fn extend_of(value: u128, width: u32, depth: u32, n: u32, tail: u32) -> u128
    requires narrow { width ≤ 128 }
    requires few { n ≤ 5 }
    requires within { depth + n ≤ width }
    requires fits { value < 2 ^ width }
    requires tail_fits { tail < 2 ^ n }
    ensures key { result < 2 ^ width }
    ensures bits_are { digits width result
        ≡ take depth (digits width value) ++ digits n tail ++ zeros (width - (depth + n)) }
{
    if depth + n == 0 {
        return 0;
    }
    let rest = width - (depth + n);
    keep_of(value, width, depth) + (u128::from(tail) << rest)
}
