//! Maps from prefixes to values, their entries and their walks.
pub use prefix_trie_map::map::entry::{Entry, OccupiedEntry, Put, VacantEntry};
pub use prefix_trie_map::map::{
    Combination, CombinedCursor, Cover, CoverKeys, CoverValues, IntoIter, IntoKeys, IntoValues,
    Iter, IterMut, Keyed, Keys, KeysOf, PrefixMap, Values, ValuesMut,
};
