//! Numbers in plain decimal: digits, with no sign and no leading zero.
ghost use Rattle.std.specs.Prelude.{◌≡◌, ◌≢◌, ℕ, ◌≤◌, MatchOption, decimal};

// Returns the number that the text writes in plain decimal, if it is at most `most`.
pub(super) fn read_decimal(text: &str, most: u64) -> Option<u64>
    ensures { MatchOption result ((n : ℕ) → n ≤ most → text.now ≢ decimal n)
        (λ n. (n ≤ most) × (text.now ≡ decimal n)) }
{
    let Some(first) = text.as_bytes().first() else {
        return None;
    };
    let has_plus = *first == b'+';
    if has_plus || *first == b'0' && text.len() > 1 {
        return None;
    }
    let Ok(number) = text.parse::<u64>() else {
        return None;
    };
    if number > most {
        return None;
    }
    Some(number)
}
