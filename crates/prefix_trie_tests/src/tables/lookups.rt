//! Lookups beside one network.
use crate::cases::Case::{Finds, Inserts};
use crate::networks::v4;
use crate::trials::Table;

/// Looks up a network in an empty map, and networks beside and around it once it is stored.
pub const ONE_NETWORK: [Table<'static, u32>; 1] = [(
    &[],
    &[
        Finds(v4!(192, 168, 0, 0; 23), None, None, None),
        Inserts(v4!(192, 168, 0, 0; 23), 1, None),
        Finds(v4!(192, 168, 2, 0; 24), None, None, None),
        Finds(v4!(192, 168, 0, 0; 22), None, None, None),
    ],
)];
