//! Programs over the crate as a user writes them, each with a contract of its own.
pub mod overlap;
pub mod preference;
pub mod reduction;
pub mod selection;
pub mod updates;
