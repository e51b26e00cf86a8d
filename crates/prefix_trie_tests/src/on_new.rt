//! New maps for tests. Only these short functions hold a map, and they take it as any value. A longer function that
//! holds a map costs proof time at each of its exits.
use prefix_trie::Refusal;

/// Passes a new map to a function. Returns the result of the function.
pub fn on_new<V: Drop, W: Copy, R, F: FnOnce(&mut V, W) -> R + Drop>(
    made: Result<V, Refusal>,
    with: W,
    asks: F,
) -> Result<R, Refusal>
    requires { F.IsAlwaysCallable asks }
{
    let mut map = made?;
    Ok(asks(&mut map, with))
}

/// Passes two new maps to a function. Returns the result of the function.
pub fn on_two_new<V: Drop, U: Drop, W: Copy, R, F: FnOnce(&mut V, &mut U, W) -> R + Drop>(
    made: Result<V, Refusal>,
    other: Result<U, Refusal>,
    with: W,
    asks: F,
) -> Result<R, Refusal>
    requires { F.IsAlwaysCallable asks }
{
    let mut map = made?;
    let mut other = other?;
    Ok(asks(&mut map, &mut other, with))
}
