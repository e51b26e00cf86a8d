//! A proved example program, written as a user would write it.
pub mod router;
#[cfg(test)]
mod routing;
