//! Answers: what a slot holds for a match.
ghost use Rattle.std.specs.Prelude.{◌≡◌, ◌-◌, ◌+◌, ◌*◌, ◌<◌, ◌≤◌, Bool, List, Option};
ghost use Rattle.prefix_trie_forwarding.specs.Forwarding.{answer_of, hop_of, length_and_hop};
ghost use Rattle.prefix_trie_forwarding.specs.declared.hop.Hop.{Hop};

use crate::hop::Hop;
use crate::slots::{Change, LENGTH};

/// Returns the hop of an answer.
#[inline(always)]
pub(crate) fn hop_in(answer: u32) -> Option<Hop>
    ensures { (found : Option (List Bool × Hop)) → answer ≡ answer_of found
        → result ≡ hop_of found }
{
    if answer == 0 {
        return None;
    }
    Hop::new(answer % LENGTH)
}

/// Returns the length of the match of an answer, and its hop.
#[inline(always)]
pub(crate) fn match_in(answer: u32) -> Option<(u8, Hop)>
    requires small { answer < 2147483648 }
    requires answer { (found : Option (List Bool × Hop)) × (answer ≡ answer_of found) }
    ensures { (found : Option (List Bool × Hop)) → answer ≡ answer_of found
        → result ≡ length_and_hop found }
{
    if answer == 0 {
        return None;
    }
    let len = answer / LENGTH - 1;
    match Hop::new(answer % LENGTH) {
        Some(hop) => Some((len as u8, hop)),
        None => None,
    }
}

/// Returns the answer of a match of so many bits with a hop.
#[inline(always)]
pub(crate) fn match_answer(len: u32, hop: Hop) -> u32
    requires { len ≤ 128 }
    ensures value { result ≡ (len + 1) * 8388608 + hop.number }
    ensures small { result < 2147483648 }
{
    (len + 1) * LENGTH + hop.get()
}

/// Returns what answers become when a network of so many bits gets a hop.
pub(crate) fn insertion(len: u32, hop: Hop) -> Change
    requires { len ≤ 128 }
    ensures least { result.least ≡ 0 }
    ensures most { result.most ≡ (len + 2) * 8388608 - 1 }
    ensures to { result.to ≡ (len + 1) * 8388608 + hop.number }
{
    Change {
        least: 0,
        most: (len + 2) * LENGTH - 1,
        to: match_answer(len, hop),
    }
}

/// Returns what answers become when a network of so many bits is removed and its addresses get another answer.
pub(crate) fn removal(len: u32, to: u32) -> Change
    requires { len ≤ 128 }
    ensures least { result.least ≡ (len + 1) * 8388608 }
    ensures most { result.most ≡ (len + 2) * 8388608 - 1 }
    ensures to { result.to ≡ to }
{
    Change {
        least: (len + 1) * LENGTH,
        most: (len + 2) * LENGTH - 1,
        to,
    }
}
