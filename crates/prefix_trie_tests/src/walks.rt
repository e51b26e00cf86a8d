//! Walks: what callers learn, values written on the way, walks that consume a map, and walks that are dropped early.

mod consuming;
mod cover;
mod dropped_early;
mod iter;
mod lending;
mod writing;
